// Lines of text, put into a draft.

ghost use Rattle.std.specs.Prelude.{◌≡◌, false, is_ok};
ghost use Rattle.line.specs.Lines.{row_of};
ghost use Rattle.tables.specs.Lines.{row_outcome, line_outcome, graph_after, line_after};
ghost use Rattle.tables.specs.Room.{Takes};
ghost use Rattle.tables.specs.View.{graph, limits_of};

use crate::draft::Draft;
use crate::faults::{BookFault, RowFault};
use line::Row;

impl Draft {
    // The row of a line, taken or refused by the line's own fault inside the row's.
    // The hint, here and at `load_line`, spares a program that loads line by line a tenth of its instructions for a short line.
    #[inline(always)]
    fn take_row(&mut self, bytes: &[u8]) -> Result<Option<Row>, RowFault>
        ensures { Takes graph limits_of self.old self.new result
            (row_outcome (limits_of self.old) (graph self.old) (row_of bytes.now))
            (graph_after (limits_of self.old) (graph self.old) (row_of bytes.now)) }
    {
        match line::read(bytes)? {
            Row::Load(row) => {
                self.load(row)?;
                Ok(None)
            }
            other => Ok(Some(other)),
        }
    }

    // One line of a book. A refused line changes nothing.
    // None: its row stands at the end of its table.
    // Some(row): a mark, a host row or a question, which a draft does not take, is handed back.
    #[inline(always)]
    pub fn load_line(&mut self, bytes: &[u8]) -> Result<Option<Row>, BookFault>
        ensures value { result ≡ line_outcome (limits_of self.old) (graph self.old) bytes.now }
        ensures after { graph self.new ≡ line_after (limits_of self.old) (graph self.old) bytes.now }
        ensures limits { limits_of self.new ≡ limits_of self.old }
        ensures refused { is_ok result ≡ false → self.new ≡ self.old }
    {
        Ok(self.take_row(bytes)?)
    }
}
