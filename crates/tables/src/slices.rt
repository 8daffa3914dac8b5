// The tables of a draft as they are read: a slice of rows for each.

ghost use Rattle.tables.specs.Slices.{Shows};
ghost use Rattle.tables.specs.View.{graph, limits_of};

use crate::draft::Draft;
use crate::reference::Reference;
use line::{
    ConstantRow, ExportRow, ImportRow, ModeRow, ModuleIdx, ModuleRow, Name, RecordRow, SymbolRow,
    UsesRow,
};

#[derive(Debug, Clone, Copy, PartialEq, Eq)]
pub struct Slices<'a> {
    pub mode: Option<ModeRow>,
    pub modules: &'a [ModuleRow],
    pub symbols: &'a [SymbolRow],
    pub records: &'a [RecordRow],
    // the module of each statement; its flag is asked of the draft
    pub statements: &'a [ModuleIdx],
    pub uses: &'a [UsesRow],
    pub references: &'a [Reference],
    pub imports: &'a [ImportRow],
    pub exports: &'a [ExportRow],
    pub constants: &'a [ConstantRow],
    // names are numbers below this
    pub names: Name,
}

impl Draft {
    pub fn slices(&self) -> Slices<'_>
        ensures { Shows result (graph self.now) (limits_of self.now) }
    {
        Slices {
            mode: self.mode,
            modules: self.modules.rows(),
            symbols: self.symbols.rows(),
            records: self.records.rows(),
            statements: self.statements.modules.rows(),
            uses: self.uses.rows(),
            references: self.references.rows.as_slice(),
            imports: self.imports.rows(),
            exports: self.exports.rows(),
            constants: self.constants.rows(),
            names: self.names,
        }
    }
}
