// A draft: a book whose rows are still being loaded.
// A model would be no plainer: contracts could then not say that a refused row leaves all of the draft as it was.

use crate::references::References;
use crate::statements::Statements;
use crate::table::Table;
use line::{ConstantRow, ExportRow, ImportRow, ModeRow, ModuleRow, RecordRow, SymbolRow, UsesRow};

#[derive(Drop)]
pub struct Draft {
    pub(crate) mode: Option<ModeRow>,
    pub(crate) modules: Table<ModuleRow>,
    pub(crate) symbols: Table<SymbolRow>,
    pub(crate) records: Table<RecordRow>,
    pub(crate) statements: Statements,
    pub(crate) uses: Table<UsesRow>,
    pub(crate) references: References,
    pub(crate) imports: Table<ImportRow>,
    pub(crate) exports: Table<ExportRow>,
    pub(crate) constants: Table<ConstantRow>,
    // the limits of what comes after loading
    pub(crate) carriers: u16,
    pub(crate) binds: u16,
    pub(crate) names: u16,
}
