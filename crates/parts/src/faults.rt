// Why a line is refused, and what a refusal tells.

ghost use Rattle.std.specs.Prelude.{◌≡◌, Some};
ghost use Rattle.parts.specs.Faults.{line_told, layer_word, fault_text};

use crate::dashes::OrDash;
use std::fmt;

#[derive(Debug, Clone, Copy, PartialEq, Eq)]
pub enum LineFault {
    // too long, an unknown word, or a wrong count of fields
    Form,
    // the first field that is no value of its kind, counted from 1
    Value { field: u8 },
}

// Where a refusal comes from.
#[derive(Debug, Clone, Copy, PartialEq, Eq)]
pub enum Layer {
    Line,
    Row,
    Link,
    Ask,
}

// What a refusal tells: its number, its layer, and the field that it is about, if any.
// The number is what is printed; the kinds of refusals are the enums that this is made of, so an enum here would only name them again.
#[derive(Debug, Clone, Copy, PartialEq, Eq)]
pub struct Told {
    pub number: u8,
    pub layer: Layer,
    pub field: Option<u8>,
}

impl From<LineFault> for Told {
    ghost from_gives = { λ e t. t ≡ line_told e };

    fn from(fault: LineFault) -> Told {
        match fault {
            LineFault::Form => Told {
                number: 1,
                layer: Layer::Line,
                field: None,
            },
            LineFault::Value { field } => Told {
                number: 2,
                layer: Layer::Line,
                field: Some(field),
            },
        }
    }
}

impl Layer {
    // `Display` would be no plainer in its place: it gives no text without a writer, which may fail.
    pub fn word(self) -> &'static str
        ensures { result.now ≡ layer_word self }
    {
        match self {
            Layer::Line => "line",
            Layer::Row => "row",
            Layer::Link => "link",
            Layer::Ask => "ask",
        }
    }
}

impl fmt::Display for Layer {
    ghost output = { λ l. Some (layer_word l) };

    fn fmt<W: fmt::Write>(&self, f: &mut fmt::Formatter<W>) -> fmt::Result {
        f.write_str(self.word())
    }
}

// What is printed of a refusal: the number of the line, from 1, and what the refusal tells.
#[derive(Debug, Clone, Copy, PartialEq, Eq)]
pub struct FaultLine {
    pub line: u64,
    pub told: Told,
}

impl fmt::Display for FaultLine {
    ghost output = { λ f. Some (fault_text f) };

    fn fmt<W: fmt::Write>(&self, f: &mut fmt::Formatter<W>) -> fmt::Result {
        let line = self.line;
        let layer = self.told.layer;
        let number = self.told.number;
        let field = OrDash(self.told.field);
        write!(f, "fault,{line},{layer},{number},-,{field}")
    }
}
