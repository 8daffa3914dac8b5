use crate::samples::{constant, export, import, sample};
use line::{LoadKind, LoadRow, MarkRow, Row, StatementRow};
use parts::{Layer, Told};
use rows::Rows;
use std::fmt::Debug;
use std::test::Fail;
use tables::{Draft, Limits};
use values::ExportClass;

// What the refusals tell.
const FORM: Told = Told {
    number: 1,
    layer: Layer::Line,
    field: None,
};

const BAD_FIRST_FIELD: Told = Told {
    number: 2,
    layer: Layer::Line,
    field: Some(1),
};

const FULL: Told = Told {
    number: 4,
    layer: Layer::Row,
    field: None,
};

const TWICE: Told = Told {
    number: 5,
    layer: Layer::Row,
    field: None,
};

fn load(draft: &mut Draft, row: LoadRow) -> Result<(), Told> {
    draft.load(row).map_err(Told::from)
}

fn load_text(draft: &mut Draft, line: &[u8]) -> Result<Option<Row>, Told> {
    draft.load_line(line).map_err(Told::from)
}

// What two values have to be for a helper, which has no handle to assert with: the same.
fn check_eq<T: PartialEq + Debug + Drop>(found: T, wanted: T) -> Result<(), Fail> {
    if found == wanted {
        Ok(())
    } else {
        Err(Fail::new(format_args!("{found:?} in place of {wanted:?}")))
    }
}

// So many rows of a kind are taken, and one more is refused.
fn fill(draft: &mut Draft, kind: LoadKind, limit: u16) -> Result<(), Fail> {
    for i in 0..limit {
        check_eq(load(draft, sample(kind, i)), Ok(()))?;
    }
    check_eq(load(draft, sample(kind, limit)), Err(FULL))?;
    check_eq(draft.count(kind), usize::from(limit))
}

// Each table is filled to its limit and past it.
fn fill_all(draft: &mut Draft, limits: [(LoadKind, u16); 11]) -> Result<(), Fail> {
    for (kind, limit) in limits {
        fill(draft, kind, limit)?;
    }
    Ok(())
}

#[test]
fn full_limits(rt: HostRuntime) -> Result<(), Fail> {
    let mut draft = Draft::new(rt.alloc(), Limits::full())?;
    let limits = [
        (LoadKind::Mode, 1),
        (LoadKind::Module, 256),
        (LoadKind::Symbol, 4096),
        (LoadKind::Record, 2048),
        (LoadKind::Statement, 4096),
        (LoadKind::Uses, 4096),
        (LoadKind::Reads, 4096),
        (LoadKind::Member, 4096),
        (LoadKind::Import, 2048),
        (LoadKind::Export, 2048),
        (LoadKind::Constant, 1024),
    ];
    fill_all(&mut draft, limits)
}

#[test]
fn small_limits(rt: HostRuntime) -> Result<(), Fail> {
    let mut draft = Draft::new(rt.alloc(), Limits::small())?;
    let limits = [
        (LoadKind::Mode, 1),
        (LoadKind::Module, 16),
        (LoadKind::Symbol, 64),
        (LoadKind::Record, 32),
        (LoadKind::Statement, 64),
        (LoadKind::Uses, 64),
        (LoadKind::Reads, 64),
        (LoadKind::Member, 64),
        (LoadKind::Import, 64),
        (LoadKind::Export, 64),
        (LoadKind::Constant, 64),
    ];
    fill_all(&mut draft, limits)?;
    // a table at its limit refuses before a duplicate is looked for
    assert_eq!(rt; load(&mut draft, import(0, 0)), Err(FULL));
    Ok(())
}

#[test]
fn duplicates(rt: HostRuntime) -> Result<(), Fail> {
    let mut draft = Draft::new(rt.alloc(), Limits::small())?;
    assert_eq!(rt; load(&mut draft, import(1, 2)), Ok(()));
    assert_eq!(rt; load(&mut draft, import(2, 1)), Ok(()));
    assert_eq!(rt; load(&mut draft, import(1, 2)), Err(TWICE));
    assert_eq!(rt; load(&mut draft, export(1, 2, ExportClass::Local)), Ok(()));
    assert_eq!(rt; load(&mut draft, export(2, 2, ExportClass::Local)), Ok(()));
    assert_eq!(rt; load(&mut draft, export(1, 3, ExportClass::Local)), Ok(()));
    assert_eq!(rt;
        load(&mut draft, export(1, 2, ExportClass::All)),
        Err(TWICE)
    );
    assert_eq!(rt; load(&mut draft, constant(7, true)), Ok(()));
    assert_eq!(rt; load(&mut draft, constant(7, false)), Err(TWICE));
    assert_eq!(rt; draft.count(LoadKind::Import), 2);
    assert_eq!(rt; draft.count(LoadKind::Export), 3);
    assert_eq!(rt; draft.count(LoadKind::Constant), 1);
    Ok(())
}

#[test]
fn lines_of_a_draft(rt: HostRuntime) -> Result<(), Fail> {
    let mut draft = Draft::new(rt.alloc(), Limits::small())?;
    assert_eq!(rt; load_text(&mut draft, b"mode,1,smart"), Ok(None));
    assert_eq!(rt; load_text(&mut draft, b"mode,1,smart"), Err(FULL));
    assert_eq!(rt; load_text(&mut draft, b"mode,2,some"), Err(BAD_FIRST_FIELD));
    assert_eq!(rt; load_text(&mut draft, b"mode,1"), Err(FORM));
    assert_eq!(rt; load_text(&mut draft, b"constant,3,0,1"), Ok(None));
    assert_eq!(rt; load_text(&mut draft, b"constant,3,1,0"), Err(TWICE));
    let carrier = Row::Mark(MarkRow::Carrier {
        record: 0,
        wrapper: 1,
        eager: true,
    });
    assert_eq!(rt; load_text(&mut draft, b"carrier,0,1,1"), Ok(Some(carrier)));
    assert_eq!(rt; draft.count(LoadKind::Mode), 1);
    assert_eq!(rt; draft.count(LoadKind::Constant), 1);
    Ok(())
}

#[test]
fn included_flags(rt: HostRuntime) -> Result<(), Fail> {
    let mut draft = Draft::new(rt.alloc(), Limits::full())?;
    // every third statement is included, across several words of flags
    for i in 0..100u16 {
        assert_eq!(rt;
            load(
                &mut draft,
                LoadRow::Statement(StatementRow {
                    module: 0,
                    included: i % 3 == 0,
                }),
            ),
            Ok(())
        );
    }
    for i in 0..100u16 {
        assert_eq!(rt; draft.included(i), i % 3 == 0);
    }
    assert_eq!(rt; draft.included(100), false);
    Ok(())
}

#[test]
fn count_of_names(rt: HostRuntime) -> Result<(), Fail> {
    // one more than the highest name that a row has and reads
    let books: [(&[u8], usize); 8] = [
        (b"mode,1,smart", 0),
        (b"import,0,0,0,0,*", 0),
        (b"import,0,0,0,0,0", 1),
        (b"member,0,0,-,open", 0),
        (b"member,0,0,30,open", 31),
        (b"export,0,5,all,0,0,9", 6),
        (b"export,0,5,indirect,0,0,9", 10),
        (b"export,0,65535,local,0,-,-", 65536),
    ];
    for (line, names) in books {
        let mut draft = Draft::new(rt.alloc(), Limits::small())?;
        assert_eq!(rt; load_text(&mut draft, line), Ok(None));
        assert_eq!(rt; Rows::new(draft).names(), names);
    }
    Ok(())
}
