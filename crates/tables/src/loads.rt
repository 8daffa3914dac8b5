// Loading: one row at a time at the end of its table.

ghost use Rattle.std.specs.Prelude.{◌≡◌, false, is_ok, IfOk};
ghost use Rattle.tables.specs.Graph.{no_rows};
ghost use Rattle.tables.specs.Load.{same_import, same_export, same_constant, admitted, loaded};
ghost use Rattle.tables.specs.View.{graph, limits_of};

use crate::draft::Draft;
use crate::faults::RowFault;
use crate::fills::Distinct;
use crate::limits::Limits;
use crate::reference::Reference;
use crate::references::References;
use crate::statements::Statements;
use crate::table::Table;
use line::{ConstantRow, ExportRow, ImportRow, LoadRow};
use std::alloc::{AllocError, Global};

impl Distinct for ImportRow {
    ghost same = { same_import };

    fn is_same(&self, other: &ImportRow) -> bool {
        self.module == other.module && self.local == other.local
    }
}

impl Distinct for ExportRow {
    ghost same = { same_export };

    fn is_same(&self, other: &ExportRow) -> bool {
        self.module == other.module && self.name == other.name
    }
}

impl Distinct for ConstantRow {
    ghost same = { same_constant };

    fn is_same(&self, other: &ConstantRow) -> bool {
        self.symbol == other.symbol
    }
}

impl Draft {
    // An empty draft, with all the memory that its rows will take.
    pub fn new(heap: Global, limits: Limits) -> Result<Draft, AllocError>
        ensures { IfOk result (λ d. (graph d ≡ no_rows) × (limits_of d ≡ limits)) }
    {
        let modules = Table::with_limit(heap, limits.modules)?;
        let symbols = Table::with_limit(heap, limits.symbols)?;
        let records = Table::with_limit(heap, limits.records)?;
        let statements = Statements::with_limit(heap, limits.statements)?;
        let uses = Table::with_limit(heap, limits.uses)?;
        let references = References::with_limits(heap, limits.reads, limits.members)?;
        let imports = Table::with_limit(heap, limits.imports)?;
        let exports = Table::with_limit(heap, limits.exports)?;
        let constants = Table::with_limit(heap, limits.constants)?;
        let Limits {
            carriers,
            binds,
            names,
            ..
        } = limits;
        Ok(Draft {
            mode: None,
            modules,
            symbols,
            records,
            statements,
            uses,
            references,
            imports,
            exports,
            constants,
            carriers,
            binds,
            names,
        })
    }

    // The row at the end of its table, unless it is refused; a refused row changes nothing.
    pub fn load(&mut self, row: LoadRow) -> Result<(), RowFault>
        ensures value { result ≡ admitted (limits_of self.old) (graph self.old) row }
        ensures after { graph self.new ≡ loaded (limits_of self.old) (graph self.old) row }
        ensures limits { limits_of self.new ≡ limits_of self.old }
        ensures refused { is_ok result ≡ false → self.new ≡ self.old }
    {
        match row {
            LoadRow::Mode(row) => {
                if self.mode.is_some() {
                    return Err(RowFault::Full);
                }
                self.mode = Some(row);
                Ok(())
            }
            LoadRow::Module(row) => self.modules.push(row),
            LoadRow::Symbol(row) => self.symbols.push(row),
            LoadRow::Record(row) => self.records.push(row),
            LoadRow::Statement(row) => self.statements.push(row),
            LoadRow::Uses(row) => self.uses.push(row),
            LoadRow::Reads(row) => self.references.push(Reference::Reads(row)),
            LoadRow::Member(row) => self.references.push(Reference::Member(row)),
            LoadRow::Import(row) => self.imports.push_once(row),
            LoadRow::Export(row) => self.exports.push_once(row),
            LoadRow::Constant(row) => self.constants.push_once(row),
        }
    }
}
