// What the statements take, and which of them are included.

ghost use Rattle.std.specs.Prelude.{◌≡◌, [], length, IfOk, slice_index_or};
ghost use Rattle.tables.specs.Flags.{statements_of, statement_limit, no_statement};
ghost use Rattle.tables.specs.Room.{fits, appended, Takes};

use crate::faults::RowFault;
use crate::flags::Flags;
use crate::statements::Statements;
use crate::table::Table;
use line::StatementRow;
use std::alloc::{AllocError, Global};

impl Statements {
    pub(crate) fn with_limit(heap: Global, limit: u16) -> Result<Statements, AllocError>
        ensures { IfOk result (λ s. (statements_of s ≡ []) × (statement_limit s ≡ limit)) }
    {
        let modules = Table::with_limit(heap, limit)?;
        let included = Flags::with_limit(heap, limit)?;
        Ok(Statements { modules, included })
    }

    pub(crate) fn len(&self) -> usize
        ensures { result ≡ length (statements_of self.now) }
    {
        self.modules.len()
    }

    // One statement more at the end, unless the table is at its limit.
    pub(crate) fn push(&mut self, row: StatementRow) -> Result<(), RowFault>
        ensures { Takes statements_of statement_limit self.old self.new result
            (fits (statements_of self.old) (statement_limit self.old))
            (appended (statements_of self.old) row result) }
    {
        self.modules.push(row.module)?;
        self.included.push(row.included);
        Ok(())
    }

    // Whether a statement is included; one that is not there is not.
    pub(crate) fn is_included(&self, statement: usize) -> bool
        ensures { result ≡ (slice_index_or (statements_of self.now) statement no_statement).included }
    {
        self.included.get(statement)
    }
}
