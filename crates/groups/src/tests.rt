use crate::fills::{OwnedBy, Short};
use crate::groups::Groups;
use std::test::Fail;

// A row that is nothing but the number of its owner.
#[derive(Drop)]
struct Child(usize);

// Children have one kind of owner.
struct Parent;

impl OwnedBy<Parent> for Child {
    ghost owner = { λ c. c.0 };

    fn owner(&self) -> usize {
        self.0
    }
}

#[test]
fn rows_of_each_owner(rt: HostRuntime) -> Result<(), Fail> {
    let mut groups = Groups::with_room(rt.alloc(), 3, 5)?;
    let rows = [Child(2), Child(0), Child(2), Child(7), Child(0)];
    assert_eq!(rt; groups.fill::<Parent, _>(&rows, 3), Ok(()));
    assert_eq!(rt; groups.of(0), [1u16, 4].as_slice());
    assert_eq!(rt; groups.of(1), [0u16; 0].as_slice());
    assert_eq!(rt; groups.of(2), [0u16, 2].as_slice());
    assert_eq!(rt; groups.of(3), [0u16; 0].as_slice());
    assert_eq!(rt; groups.of(65535), [0u16; 0].as_slice());
    // they can be made anew in the same memory
    assert_eq!(rt; groups.fill::<Parent, _>(&rows[0..2], 1), Ok(()));
    assert_eq!(rt; groups.of(0), [1u16].as_slice());
    assert_eq!(rt; groups.of(2), [0u16; 0].as_slice());
    Ok(())
}

#[test]
fn too_little_memory(rt: HostRuntime) -> Result<(), Fail> {
    let mut groups = Groups::with_room(rt.alloc(), 1, 2)?;
    let rows = [Child(0), Child(0), Child(0)];
    assert_eq!(rt; groups.fill::<Parent, _>(&rows[0..2], 1), Ok(()));
    assert_eq!(rt; groups.fill::<Parent, _>(&rows, 1), Err(Short));
    assert_eq!(rt; groups.fill::<Parent, _>(&rows[0..1], 2), Err(Short));
    assert_eq!(rt; groups.of(0), [0u16, 1].as_slice());
    Ok(())
}
