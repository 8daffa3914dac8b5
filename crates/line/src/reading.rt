// A line, read whole.

ghost use Rattle.std.specs.Prelude.{◌≡◌, take};
ghost use Rattle.line.specs.Lines.{read_as, row_of};
ghost use Rattle.line.specs.Shown.{shown};

use crate::lines::Line;
use crate::rows::Row;
use crate::splits::split;
use crate::written::Written;
use parts::LineFault;

impl Line<'_> {
    // The row that the parts of a line write.
    pub fn row(self) -> Result<Row, LineFault>
        ensures { result ≡ read_as (shown self.entry).0 (shown self.entry).1 }
    {
        match self {
            Line::Load(line) => line.row(),
            Line::Mark(line) => line.row(),
            Line::Host(line) => line.row(),
            Line::Ask(line) => line.row(),
        }
    }
}

// The row that a line is, whatever its bytes, or its refusal. Its first 128 bytes decide, so that no reader need keep more.
pub fn read(bytes: &[u8]) -> Result<Row, LineFault>
    ensures value { result ≡ row_of bytes.now }
    ensures cut { result ≡ row_of (take 128 bytes.now) }
{
    let line = split(bytes)?;
    line.row()
}
