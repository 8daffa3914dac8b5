// What every line has, of whichever kind it is.

ghost use Rattle.std.specs.Prelude.{◌≡◌, ℕ, List};
ghost use Rattle.line.specs.Lines.{read_as};
ghost use Rattle.line.specs.declared.kinds.Kind.{Kind};

use crate::rows::Row;
use parts::LineFault;

// A line as the parts of its text that are its fields, before any of them is read.
pub(crate) trait Written {
    // its kind, and the text of its fields
    ghost shown: { Self → Kind × List (List ℕ) };

    // The row that its fields write.
    fn row(self) -> Result<Row, LineFault>
        ensures { result ≡ read_as (shown self).0 (shown self).1 };
}
