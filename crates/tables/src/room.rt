// Whether there is room for one row more.

ghost use Rattle.std.specs.Prelude.{◌≡◌};
ghost use Rattle.tables.specs.Room.{below};

use crate::faults::RowFault;

// A table at its limit takes no row.
pub(crate) fn below(taken: usize, limit: usize) -> Result<(), RowFault>
    ensures { result ≡ below taken limit }
{
    if taken < limit {
        Ok(())
    } else {
        Err(RowFault::Full)
    }
}
