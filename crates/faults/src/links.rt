// Why a link is refused.

ghost use Rattle.std.specs.Prelude.{◌≡◌};
ghost use Rattle.faults.specs.Links.{link_told};

use crate::told::{BadRow, Told};
use parts::Layer;

#[derive(Debug, Clone, Copy, PartialEq, Eq)]
pub enum LinkFault {
    // the first row with a bad field
    Bad(BadRow),
    // less memory than the link needs
    Memory,
}

impl From<LinkFault> for Told {
    ghost from_gives = { λ e t. t ≡ link_told e };

    fn from(fault: LinkFault) -> Told {
        match fault {
            LinkFault::Bad(BadRow { row, field }) => Told {
                number: 6,
                layer: Layer::Link,
                row: Some(row),
                field: Some(field),
            },
            LinkFault::Memory => Told {
                number: 7,
                layer: Layer::Link,
                row: None,
                field: None,
            },
        }
    }
}
