// A row of each kind, told apart from the others of its kind by a number.

use line::{
    ConstantRow, ExportRow, ImportRow, LoadKind, LoadRow, MemberRow, ModeRow, ModuleRow, ReadsRow,
    RecordRow, StatementRow, SymbolRow, UsesRow,
};
use values::{
    ExportClass, ExportsKind, Imported, InlineConstMode, ModuleKind, RecordKind, Resolution,
    WrapKind,
};

fn module() -> LoadRow {
    LoadRow::Module(ModuleRow {
        kind: ModuleKind::Normal,
        exports: ExportsKind::Esm,
        wrap: WrapKind::None,
        wrapper: None,
        included: true,
        inner: false,
        side_effects: true,
        namespace: None,
    })
}

pub(crate) fn import(module: u16, local: u16) -> LoadRow {
    LoadRow::Import(ImportRow {
        module,
        local,
        imported_as: 9,
        record: 0,
        name: Imported::Literal(1),
    })
}

pub(crate) fn export(module: u16, name: u16, class: ExportClass) -> LoadRow {
    LoadRow::Export(ExportRow {
        module,
        name,
        class,
        symbol: 3,
        record: None,
        imported: None,
    })
}

pub(crate) fn constant(symbol: u16, safe: bool) -> LoadRow {
    LoadRow::Constant(ConstantRow {
        symbol,
        commonjs: false,
        safe,
    })
}

pub(crate) fn sample(kind: LoadKind, i: u16) -> LoadRow {
    match kind {
        LoadKind::Mode => LoadRow::Mode(ModeRow {
            strict: true,
            inline: InlineConstMode::Off,
        }),
        LoadKind::Module => module(),
        LoadKind::Symbol => LoadRow::Symbol(SymbolRow {
            owner: 0,
            canonical: i,
            through: i,
        }),
        LoadKind::Record => {
            LoadRow::Record(RecordRow {
                module: i,
                kind: RecordKind::Import,
                importee: None,
                star: false,
                reexport_only: false,
            })
        }
        LoadKind::Statement => LoadRow::Statement(StatementRow {
            module: i,
            included: i % 2 == 0,
        }),
        LoadKind::Uses => LoadRow::Uses(UsesRow {
            statement: i,
            record: i,
        }),
        LoadKind::Reads => LoadRow::Reads(ReadsRow {
            statement: i,
            symbol: i,
        }),
        LoadKind::Member => LoadRow::Member(MemberRow {
            statement: i,
            object: i,
            property: None,
            resolution: Resolution::Open,
        }),
        LoadKind::Import => import(0, i),
        LoadKind::Export => export(0, i, ExportClass::Local),
        LoadKind::Constant => constant(i, true),
    }
}
