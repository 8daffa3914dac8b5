// Rows by number. Past the end of a table stands a row that means nothing.

ghost use Rattle.std.specs.Prelude.{◌≡◌, slice_index_or};
ghost use Rattle.tables.specs.Lookups.{module_at, symbol_at, record_at, export_at};
ghost use Rattle.rows.specs.Modules.{normal, imported_module};
ghost use Rattle.rows.specs.Names.{count_names};
ghost use Rattle.rows.specs.View.{graph};

use crate::absent::*;
use crate::rows::Rows;
use line::{ExportRow, ImportRecordIdx, ModuleIdx, ModuleRow, RecordRow, SymbolRef, SymbolRow};
use values::ModuleKind;

fn row_at<T: Copy>(rows: &[T], i: usize, absent: T) -> T
    ensures { result ≡ slice_index_or rows.now i absent }
{
    rows.get(i).copied().unwrap_or(absent)
}

// One name for each table over `row_at`: one function for all would be no plainer, as each call would have to name the row's type.
impl Rows {
    pub fn module(&self, i: ModuleIdx) -> ModuleRow
        ensures { result ≡ module_at (graph self.now) i }
    {
        row_at(self.draft.slices().modules, usize::from(i), NO_MODULE)
    }

    pub fn symbol(&self, i: SymbolRef) -> SymbolRow
        ensures { result ≡ symbol_at (graph self.now) i }
    {
        row_at(self.draft.slices().symbols, usize::from(i), NO_SYMBOL)
    }

    pub fn record(&self, i: ImportRecordIdx) -> RecordRow
        ensures { result ≡ record_at (graph self.now) i }
    {
        row_at(self.draft.slices().records, usize::from(i), NO_RECORD)
    }

    pub fn export(&self, i: usize) -> ExportRow
        ensures { result ≡ export_at (graph self.now) i }
    {
        row_at(self.draft.slices().exports, i, NO_EXPORT)
    }

    // How many names there are: one more than the highest in a row.
    pub fn names(&self) -> usize
        ensures value { result ≡ self.now.names }
        ensures counted { result ≡ count_names (graph self.now) }
    {
        self.names
    }

    pub fn exports(&self) -> &[ExportRow]
        ensures { result.now ≡ (graph self.now).exports }
    {
        self.draft.slices().exports
    }

    pub fn is_normal(&self, module: ModuleIdx) -> bool
        ensures { result ≡ normal (graph self.now) «module» }
    {
        matches!(self.module(module).kind, ModuleKind::Normal)
    }

    // The importee of a record, where it is a normal module.
    pub fn imported_module(&self, record: ImportRecordIdx) -> Option<ModuleIdx>
        ensures { result ≡ imported_module (graph self.now) «record» }
    {
        self.record(record)
            .importee
            .filter(|importee| self.is_normal(*importee))
    }
}
