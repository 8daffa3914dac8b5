// What a table takes, and what it refuses.

ghost use Rattle.std.specs.Prelude.{◌≡◌, Bool, [], length, IfOk};
ghost use Rattle.std.specs.List.{list_any};
ghost use Rattle.tables.specs.Room.{rows_of, limit_of, fits, fits_once, appended, Takes};

use crate::faults::RowFault;
use crate::room::below;
use crate::table::Table;
use std::alloc::{AllocError, Global};

// Rows of which a table has at most one that is the same, by the fields that tell them apart.
// A key that is compared by its own == would be no plainer: each type of row would have a type for it and a function, in place of this one.
// A derived == would compare every field.
pub(crate) trait Distinct {
    ghost same: { Self → Self → Bool };

    fn is_same(&self, other: &Self) -> bool
        ensures { result ≡ same self.now other.now };
}

impl<T> Table<T> {
    // An empty table with room for `limit` rows.
    pub(crate) fn with_limit(heap: Global, limit: u16) -> Result<Table<T>, AllocError>
        ensures { IfOk result (λ t. (rows_of t ≡ []) × (limit_of t ≡ limit)) }
    {
        let rows = Vec::with_capacity(heap, usize::from(limit))?;
        Ok(Table { rows })
    }

    pub(crate) fn len(&self) -> usize
        ensures { result ≡ length (rows_of self.now) }
    {
        self.rows.len()
    }

    pub(crate) fn rows(&self) -> &[T]
        ensures { result.now ≡ rows_of self.now }
    {
        self.rows.as_slice()
    }

    fn room(&self) -> Result<(), RowFault>
        ensures { result ≡ fits (rows_of self.now) (limit_of self.now) }
    {
        below(self.rows.len(), self.rows.capacity())
    }
}

impl<T: Copy> Table<T> {
    // One row more at the end, unless the table is at its limit.
    pub(crate) fn push(&mut self, row: T) -> Result<(), RowFault>
        ensures { Takes rows_of limit_of self.old self.new result
            (fits (rows_of self.old) (limit_of self.old))
            (appended (rows_of self.old) row result) }
    {
        self.room()?;
        self.rows.push_reserved(row);
        Ok(())
    }
}

impl<T: Distinct + Copy> Table<T> {
    // Whether one of the rows is the same as this.
    // A set of keys would be no plainer: it would hold every key a second time, and have to be kept in step with the rows.
    fn has_same(&self, row: &T) -> bool
        ensures { result ≡ list_any (T.same row.now) (rows_of self.now) }
    {
        self.rows.iter().any(|other| row.is_same(other))
    }

    // One row more, unless the table is at its limit, or has a row that is the same.
    pub(crate) fn push_once(&mut self, row: T) -> Result<(), RowFault>
        ensures { Takes rows_of limit_of self.old self.new result
            (fits_once (T.same row) (rows_of self.old) (limit_of self.old))
            (appended (rows_of self.old) row result) }
    {
        self.room()?;
        if self.has_same(&row) {
            return Err(RowFault::Twice);
        }
        self.rows.push_reserved(row);
        Ok(())
    }
}
