// The references of statements: `reads` and `member` rows in one list, in the order in which they came.

ghost use Rattle.std.specs.Prelude.{◌≡◌, ◌+◌, ◌≤◌, length, vec_capacity};
ghost use Rattle.tables.specs.References.{reads_in, members_in};

use crate::quota::Quota;
use crate::reference::Reference;

#[derive(Drop)]
pub(crate) struct References {
    pub(crate) rows: Vec<Reference>,
    pub(crate) reads: Quota,
    pub(crate) members: Quota,
    ghost reads_counted: { reads.taken ≡ length (reads_in rows.items) },
    ghost members_counted: { members.taken ≡ length (members_in rows.items) },
    ghost room: { reads.limit + members.limit ≤ vec_capacity rows },
}
