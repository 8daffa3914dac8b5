// The line that is printed of a refusal.

ghost use Rattle.std.specs.Prelude.{Some};
ghost use Rattle.faults.specs.Faults.{row_text, fault_text, SaysTheSame};

use crate::told::{RowName, Told};
use parts::OrDash;
use std::fmt;

impl fmt::Display for RowName {
    ghost output = { λ r. Some (row_text r) };

    fn fmt<W: fmt::Write>(&self, f: &mut fmt::Formatter<W>) -> fmt::Result {
        let table = self.table;
        let number = self.number;
        write!(f, "{table}:{number}")
    }
}

// What is printed of a refusal: the number of the line, from 1, and what the refusal tells.
// One type with what it tells as a parameter would be no plainer: only `parts` could give it a `Display`, and by one trait more.
#[derive(Debug, Clone, Copy, PartialEq, Eq)]
pub struct FaultLine {
    pub line: u64,
    pub told: Told,
}

impl fmt::Display for FaultLine {
    ghost output = { λ f. Some (fault_text f) };

    fn fmt<W: fmt::Write>(&self, f: &mut fmt::Formatter<W>) -> fmt::Result {
        let line = self.line;
        let layer = self.told.layer;
        let number = self.told.number;
        let row = OrDash(self.told.row);
        let field = OrDash(self.told.field);
        write!(f, "fault,{line},{layer},{number},{row},{field}")
    }
}

// A refusal that is about no row says the same as before.
impl From<parts::FaultLine> for FaultLine {
    ghost from_gives = { λ f r. SaysTheSame f r };

    fn from(fault: parts::FaultLine) -> FaultLine {
        FaultLine {
            line: fault.line,
            told: Told::from(fault.told),
        }
    }
}
