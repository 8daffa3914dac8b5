// What a refusal tells that can be about a row of a draft.

ghost use Rattle.std.specs.Prelude.{◌≡◌};
ghost use Rattle.faults.specs.Faults.{about_no_row};

use line::LoadKind;
use parts::Layer;

// A row of a draft: its kind, which has its word, and its number among the rows of that kind.
#[derive(Debug, Clone, Copy, PartialEq, Eq)]
pub struct RowName {
    pub table: LoadKind,
    pub number: usize,
}

// A row with a bad field, counted from 1.
#[derive(Debug, Clone, Copy, PartialEq, Eq)]
pub struct BadRow {
    pub row: RowName,
    pub field: u8,
}

// What a refusal tells: its number, which is what is printed, its layer, and the row and the field that it is about, if any.
// One type with the row as a parameter would be no plainer: nothing would say which row it is where none is told.
#[derive(Debug, Clone, Copy, PartialEq, Eq)]
pub struct Told {
    pub number: u8,
    pub layer: Layer,
    pub row: Option<RowName>,
    pub field: Option<u8>,
}

// The refusal of a line or of a row is about no row of a draft: what is refused is in no table.
impl From<parts::Told> for Told {
    ghost from_gives = { λ t r. r ≡ about_no_row t };

    fn from(told: parts::Told) -> Told {
        Told {
            number: told.number,
            layer: told.layer,
            row: None,
            field: told.field,
        }
    }
}
