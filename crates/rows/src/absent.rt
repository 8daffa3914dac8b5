// The rows that stand past the end of a table, and mean nothing.

use line::{ExportRow, ModuleRow, RecordRow, SymbolRow};
use values::{ExportClass, ExportsKind, ModuleKind, RecordKind, WrapKind};

pub(crate) const NO_MODULE: ModuleRow = ModuleRow {
    kind: ModuleKind::External,
    exports: ExportsKind::None,
    wrap: WrapKind::None,
    wrapper: None,
    included: false,
    inner: false,
    side_effects: false,
    namespace: None,
};

pub(crate) const NO_SYMBOL: SymbolRow = SymbolRow {
    owner: 0,
    canonical: 0,
    through: 0,
};

pub(crate) const NO_RECORD: RecordRow = RecordRow {
    module: 0,
    kind: RecordKind::Other,
    importee: None,
    star: false,
    reexport_only: false,
};

pub(crate) const NO_EXPORT: ExportRow = ExportRow {
    module: 0,
    name: 0,
    class: ExportClass::Local,
    symbol: 0,
    record: None,
    imported: None,
};
