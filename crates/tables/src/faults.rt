// Why a row is refused, and why a book is: each layer's fault holds that of the layer below.

ghost use Rattle.std.specs.Prelude.{◌≡◌};
ghost use Rattle.tables.specs.declared.faults.BookFault.TheVariants.{Row};
ghost use Rattle.tables.specs.declared.faults.RowFault.TheVariants.{Line};
ghost use Rattle.tables.specs.Faults.{row_told, book_told};

use parts::{Layer, LineFault, Told};

#[derive(Debug, Clone, Copy, PartialEq, Eq)]
pub enum RowFault {
    // the line is refused
    Line(LineFault),
    // the table is at its limit
    Full,
    // a second row where there can be one
    Twice,
}

#[derive(Debug, Clone, Copy, PartialEq, Eq)]
pub enum BookFault {
    Row(RowFault),
}

impl From<LineFault> for RowFault {
    ghost from_gives = { λ e r. r ≡ Line e };

    fn from(e: LineFault) -> RowFault {
        RowFault::Line(e)
    }
}

impl From<RowFault> for BookFault {
    ghost from_gives = { λ e r. r ≡ Row e };

    fn from(e: RowFault) -> BookFault {
        BookFault::Row(e)
    }
}

impl From<RowFault> for Told {
    ghost from_gives = { λ e t. t ≡ row_told e };

    fn from(fault: RowFault) -> Told {
        match fault {
            RowFault::Line(fault) => Told::from(fault),
            RowFault::Full => Told {
                number: 4,
                layer: Layer::Row,
                field: None,
            },
            RowFault::Twice => Told {
                number: 5,
                layer: Layer::Row,
                field: None,
            },
        }
    }
}

impl From<BookFault> for Told {
    ghost from_gives = { λ e t. t ≡ book_told e };

    fn from(fault: BookFault) -> Told {
        match fault {
            BookFault::Row(fault) => Told::from(fault),
        }
    }
}
