// The memory of groups, and the items of one.

ghost use Rattle.std.specs.Prelude.{◌≡◌, ℕ, ◌+◌, List, IfOk, vec_capacity, slice_index};
ghost use Rattle.groups.specs.Groups.{group, Holds};

use crate::groups::Groups;
use std::alloc::{AllocError, Global};

impl<T: Copy> Groups<T> {
    // No groups, with memory for so many groups and so many items in all.
    pub fn with_room(heap: Global, groups: u16, items: usize) -> Result<Groups<T>, AllocError>
        ensures { IfOk result (λ g. ((f : ℕ → List T) → Holds f 0 g) × (vec_capacity g.items ≡ items) × (vec_capacity g.starts ≡ groups + 1)) }
    {
        let items = Vec::with_capacity(heap, items)?;
        let mut starts = Vec::with_capacity(heap, usize::from(groups) + 1)?;
        starts.push_reserved(0);
        Ok(Groups { items, starts })
    }

    fn start(&self, i: usize) -> usize
        ensures { result ≡ slice_index self.now.starts.items i }
    {
        self.starts.get(i).copied().unwrap_or(0)
    }

    // The items of a group; there are none in a group that is not there.
    pub fn of(&self, i: u16) -> &[T]
        ensures { result.now ≡ group self.now i }
    {
        let i = usize::from(i);
        let start = self.start(i);
        let end = self.start(i + 1);
        match self.items.as_slice().get(start..end) {
            Some(items) => items,
            None => &[],
        }
    }
}
