// The numbers of rows, grouped by their owners.

ghost use Rattle.std.specs.Prelude.{◌≡◌, ℕ, ◌+◌, ◌<◌, ◌≤◌, true, false, [], ◌∷◌, ◌++◌, length, is_ok, vec_len, vec_capacity};
ghost use Rattle.groups.specs.Groups.{group, Holds};
ghost use Rattle.groups.specs.Owned.{numbers_of, enough};

use crate::groups::Groups;

// A row that belongs to another row, by its number. K says by which of its fields, so that a row can be grouped in more than one way.
pub trait OwnedBy<K> {
    ghost owner: { Self → ℕ };

    fn owner(&self) -> usize
        ensures { result ≡ owner self.now };
}

// Less memory than the groups need, or more rows than numbers.
#[derive(Debug, Clone, Copy, PartialEq, Eq)]
pub struct Short;

impl Groups<u16> {
    // No groups.
    fn clear(&mut self)
        requires { 1 ≤ vec_capacity self.old.starts }
        ensures items { self.new.items.items ≡ [] }
        ensures starts { self.new.starts.items ≡ 0 ∷ [] }
        ensures room { (vec_capacity self.new.items ≡ vec_capacity self.old.items) × (vec_capacity self.new.starts ≡ vec_capacity self.old.starts) }
    {
        self.items.clear();
        self.starts.clear();
        self.starts.push_reserved(0);
    }

    // The rows of one owner, as one more group.
    fn add<K, T: OwnedBy<K>>(&mut self, rows: &[T], owner: usize)
        requires few { length rows.now ≤ 65536 }
        requires items { vec_len self.old.items + length (numbers_of T.owner rows.now owner) ≤ vec_capacity self.old.items }
        requires starts { vec_len self.old.starts < vec_capacity self.old.starts }
        ensures items { self.new.items.items ≡ self.old.items.items ++ numbers_of T.owner rows.now owner }
        ensures starts { self.new.starts.items ≡ self.old.starts.items ++ vec_len self.new.items ∷ [] }
        ensures room { (vec_capacity self.new.items ≡ vec_capacity self.old.items) × (vec_capacity self.new.starts ≡ vec_capacity self.old.starts) }
    {
        for (k, row) in rows.iter().enumerate() {
            if row.owner() == owner {
                self.items.push_reserved(k as u16);
            }
        }
        self.starts.push_reserved(self.items.len());
    }

    // The numbers of the rows of each owner, in their order. Too little memory changes nothing.
    pub fn fill<K, T: OwnedBy<K>>(&mut self, rows: &[T], owners: u16) -> Result<(), Short>
        ensures value { is_ok result ≡ enough (length rows.now) owners (vec_capacity self.old.items) (vec_capacity self.old.starts) }
        ensures holds { is_ok result ≡ true → Holds (numbers_of T.owner rows.now) owners self.new }
        ensures groups { is_ok result ≡ true → (i : ℕ) → i < owners → group self.new i ≡ numbers_of T.owner rows.now i }
        ensures room { (vec_capacity self.new.items ≡ vec_capacity self.old.items) × (vec_capacity self.new.starts ≡ vec_capacity self.old.starts) }
        ensures refused { is_ok result ≡ false → self.new ≡ self.old }
    {
        let groups = usize::from(owners);
        if rows.len() > 65536
            || rows.len() > self.items.capacity()
            || groups + 1 > self.starts.capacity()
        {
            return Err(Short);
        }
        self.clear();
        for owner in 0..groups {
            self.add::<K, T>(rows, owner);
        }
        Ok(())
    }
}
