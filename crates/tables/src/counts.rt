// What a draft says of its rows: how many it has taken of each kind, and which statements are included.

ghost use Rattle.std.specs.Prelude.{◌≡◌};
ghost use Rattle.tables.specs.Counts.{count_of};
ghost use Rattle.tables.specs.Lookups.{included_of};
ghost use Rattle.tables.specs.View.{graph};

use crate::draft::Draft;
use line::{LoadKind, StmtInfoIdx};

impl Draft {
    pub fn count(&self, kind: LoadKind) -> usize
        ensures { result ≡ count_of (graph self.now) kind }
    {
        match kind {
            LoadKind::Mode => usize::from(self.mode.is_some()),
            LoadKind::Module => self.modules.len(),
            LoadKind::Symbol => self.symbols.len(),
            LoadKind::Record => self.records.len(),
            LoadKind::Statement => self.statements.len(),
            LoadKind::Uses => self.uses.len(),
            LoadKind::Reads => self.references.reads.taken,
            LoadKind::Member => self.references.members.taken,
            LoadKind::Import => self.imports.len(),
            LoadKind::Export => self.exports.len(),
            LoadKind::Constant => self.constants.len(),
        }
    }

    // Whether a statement is included; one that is not there is not.
    pub fn included(&self, statement: StmtInfoIdx) -> bool
        ensures { result ≡ included_of (graph self.now) statement }
    {
        self.statements.is_included(usize::from(statement))
    }
}
