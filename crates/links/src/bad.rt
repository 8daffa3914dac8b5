// The first row with a bad field, over the tables in their order.

ghost use Rattle.std.specs.Prelude.{◌≡◌, ◌↔◌, None};
ghost use Rattle.std.specs.List.{filter_map};
ghost use Rattle.tables.specs.View.{graph, limits_of};
ghost use Rattle.links.specs.Bad.{bad_at, first_bad, bad_row};
ghost use Rattle.links.specs.Sound.{Sound};

use crate::among::Among;
use crate::judged::Judged;
use faults::{BadRow, RowName};
use line::{MemberRow, ReadsRow};
use tables::{Draft, Reference};

// The row of a table with this number, where it has a bad field.
fn bad_at<T: Judged>(number: usize, row: &T, draft: &Draft) -> Option<BadRow>
    ensures { result ≡ bad_at T.TABLE number (T.bad (limits_of draft.now).names (graph draft.now) row.now) }
{
    let field = row.bad_field(draft)?;
    let table = T::TABLE;
    Some(BadRow {
        row: RowName { table, number },
        field,
    })
}

// The first row of a table with a bad field.
fn first_bad<T: Judged>(rows: &[T], draft: &Draft) -> Option<BadRow>
    ensures { result ≡ first_bad T.TABLE (T.bad (limits_of draft.now).names (graph draft.now)) rows.now }
{
    rows.iter()
        .enumerate()
        .find_map(|(number, row)| bad_at(number, row, draft))
}

// The same of the rows of one word among the references, which are numbered among themselves.
// The closure says no more than `T::among`, but the checker does not cover a function that is passed by its name here.
fn first_bad_among<T: Among>(references: &[Reference], draft: &Draft) -> Option<BadRow>
    ensures { result ≡ first_bad T.TABLE (T.bad (limits_of draft.now).names (graph draft.now)) (filter_map T.among references.now) }
{
    references
        .iter()
        .filter_map(|reference| T::among(reference))
        .enumerate()
        .find_map(|(number, row)| bad_at(number, &row, draft))
}

// The first row of a draft that has a bad field, and the field. Where there is none, linking can rely on every number and name.
pub fn bad_row(draft: &Draft) -> Option<BadRow>
    ensures value { result ≡ bad_row (limits_of draft.now).names (graph draft.now) }
    ensures sound { (result ≡ None) ↔ Sound (limits_of draft.now).names (graph draft.now) }
{
    let seen = draft.slices();
    first_bad(seen.modules, draft)
        .or_else(|| first_bad(seen.symbols, draft))
        .or_else(|| first_bad(seen.records, draft))
        .or_else(|| first_bad(seen.statements, draft))
        .or_else(|| first_bad(seen.uses, draft))
        .or_else(|| first_bad_among::<ReadsRow>(seen.references, draft))
        .or_else(|| first_bad_among::<MemberRow>(seen.references, draft))
        .or_else(|| first_bad(seen.imports, draft))
        .or_else(|| first_bad(seen.exports, draft))
        .or_else(|| first_bad(seen.constants, draft))
}
