// The statements: a table of their modules, and beside it a flag for each, whether it is included.
// They are no table of rows, since the flags are packed.
// They have no model: contracts of a draft could then not say that a refused row leaves all of it as it was.

ghost use Rattle.std.specs.Prelude.{◌≡◌, ◌+◌, ◌/◌, ◌≤◌, vec_len, vec_capacity};

use crate::flags::Flags;
use crate::table::Table;
use line::ModuleIdx;

#[derive(Drop)]
pub(crate) struct Statements {
    pub(crate) modules: Table<ModuleIdx>,
    pub(crate) included: Flags,
    ghost one_length: { included.len ≡ vec_len modules.rows },
    ghost room: { (vec_capacity modules.rows + 31) / 32 ≤ vec_capacity included.words },
}
