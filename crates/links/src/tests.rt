use crate::bad::bad_row;
use faults::{BadRow, RowName};
use line::LoadKind;
use std::alloc::Global;
use std::test::Fail;
use tables::{Draft, Limits};

// A small book in which every number names a row. Records 0 and 1 belong to modules 0 and 1; name 31 is the highest.
const SOUND: [&str; 22] = [
    "mode,1,smart",
    "module,normal,esm,none,-,1,0,1,-",
    "module,normal,esm,esm,1,1,0,0,2",
    "module,external,none,none,-,1,0,1,-",
    "symbol,0,1,1",
    "symbol,1,1,1",
    "symbol,1,2,2",
    "record,0,import,1,0,0",
    "record,1,import,2,0,0",
    "statement,0,1",
    "statement,1,1",
    "uses,0,0",
    "uses,1,1",
    "member,0,0,31,open",
    "reads,0,0",
    "member,1,2,-,1",
    "import,0,0,0,0,31",
    "import,0,1,1,0,*",
    "export,1,31,local,1,-,-",
    "export,1,2,indirect,1,1,31",
    "export,1,3,all,1,1,-",
    "constant,1,0,0",
];

fn load(draft: &mut Draft, lines: &[&str]) -> Result<(), Fail> {
    for line in lines {
        if draft.load_line(line.as_bytes()).is_err() {
            return Err(Fail::new(format_args!("{line} is refused")));
        }
    }
    Ok(())
}

// What is told of the sound book with some more lines.
fn check(heap: Global, more: &[&str], wanted: Option<BadRow>) -> Result<(), Fail> {
    let mut draft = Draft::new(heap, Limits::small())?;
    load(&mut draft, &SOUND)?;
    load(&mut draft, more)?;
    let found = bad_row(&draft);
    if found == wanted {
        Ok(())
    } else {
        Err(Fail::new(format_args!("{more:?}: {found:?} in place of {wanted:?}")))
    }
}

fn bad(table: LoadKind, number: usize, field: u8) -> Option<BadRow> {
    let row = RowName { table, number };
    Some(BadRow { row, field })
}

// Each line alone is told at this row.
fn check_each(
    heap: Global,
    table: LoadKind,
    number: usize,
    lines: &[(&str, u8)],
) -> Result<(), Fail> {
    for (line, field) in lines {
        check(heap, &[line], bad(table, number, *field))?;
    }
    Ok(())
}

#[test]
fn sound_book(rt: HostRuntime) -> Result<(), Fail> {
    check(rt.alloc(), &[], None)
}

#[test]
fn missing_rows(rt: HostRuntime) -> Result<(), Fail> {
    let heap = rt.alloc();
    let modules = [
        ("module,normal,esm,none,3,1,0,1,-", 4),
        ("module,normal,esm,none,-,1,0,1,3", 8),
    ];
    check_each(heap, LoadKind::Module, 3, &modules)?;
    let symbols = [
        ("symbol,3,0,0", 1),
        ("symbol,0,4,0", 2),
        ("symbol,0,0,4", 3),
    ];
    check_each(heap, LoadKind::Symbol, 3, &symbols)?;
    let records = [("record,3,import,0,0,0", 1), ("record,0,import,3,0,0", 3)];
    check_each(heap, LoadKind::Record, 2, &records)?;
    check_each(heap, LoadKind::Statement, 2, &[("statement,3,1", 1)])?;
    let uses = [("uses,2,0", 1), ("uses,0,2", 2)];
    check_each(heap, LoadKind::Uses, 2, &uses)?;
    let reads = [("reads,2,0", 1), ("reads,0,3", 2)];
    check_each(heap, LoadKind::Reads, 1, &reads)?;
    let members = [
        ("member,2,0,-,open", 1),
        ("member,0,3,-,lost", 2),
        ("member,0,0,-,3", 4),
    ];
    check_each(heap, LoadKind::Member, 2, &members)?;
    check_each(heap, LoadKind::Constant, 1, &[("constant,3,0,0", 1)])
}

#[test]
fn imports_and_exports(rt: HostRuntime) -> Result<(), Fail> {
    let heap = rt.alloc();
    let imports = [
        ("import,3,0,0,0,0", 1),
        ("import,1,3,0,1,0", 2),
        ("import,1,0,3,1,0", 3),
        ("import,1,0,0,2,0", 4),
    ];
    check_each(heap, LoadKind::Import, 2, &imports)?;
    let exports = [
        ("export,3,1,local,0,-,-", 1),
        ("export,0,1,local,3,-,-", 4),
        ("export,0,1,indirect,0,2,0", 5),
        ("export,0,1,indirect,0,-,0", 5),
        ("export,0,1,all,0,-,-", 5),
        ("export,0,1,indirect,0,0,-", 6),
    ];
    check_each(heap, LoadKind::Export, 3, &exports)
}

#[test]
fn names_too_high(rt: HostRuntime) -> Result<(), Fail> {
    let heap = rt.alloc();
    check_each(heap, LoadKind::Member, 2, &[("member,0,0,32,open", 3)])?;
    check_each(heap, LoadKind::Import, 2, &[("import,1,0,0,1,32", 5)])?;
    let exports = [
        ("export,0,32,local,0,-,-", 2),
        ("export,0,1,indirect,0,0,32", 6),
    ];
    check_each(heap, LoadKind::Export, 3, &exports)
}

#[test]
fn records_of_other_modules(rt: HostRuntime) -> Result<(), Fail> {
    let heap = rt.alloc();
    check_each(heap, LoadKind::Uses, 2, &[("uses,0,1", 2)])?;
    check_each(heap, LoadKind::Import, 2, &[("import,1,0,0,0,0", 4)])?;
    let exports = [
        ("export,0,1,indirect,0,1,0", 5),
        ("export,0,1,all,0,1,-", 5),
    ];
    check_each(heap, LoadKind::Export, 3, &exports)
}

#[test]
fn fields_that_are_not_read(rt: HostRuntime) -> Result<(), Fail> {
    let heap = rt.alloc();
    check(heap, &["export,0,1,local,0,9,99"], None)?;
    check(heap, &["export,0,1,all,0,0,99"], None)
}

#[test]
fn first_of_several(rt: HostRuntime) -> Result<(), Fail> {
    let heap = rt.alloc();
    let tables = ["constant,9,0,0", "uses,9,9", "symbol,0,9,9"];
    check(heap, &tables, bad(LoadKind::Symbol, 3, 2))?;
    let words = ["member,0,9,-,open", "reads,0,9"];
    check(heap, &words, bad(LoadKind::Reads, 1, 2))?;
    let rows = ["reads,0,1", "reads,9,9", "reads,8,8"];
    check(heap, &rows, bad(LoadKind::Reads, 2, 1))
}
