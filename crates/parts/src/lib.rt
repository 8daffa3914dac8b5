// The parts of a line between its commas, the line that is being read, and what a refusal tells.

#![tactic(auto)]

mod buffer;
mod dashes;
mod faults;
mod fields;

pub use buffer::LineBuffer;
pub use dashes::OrDash;
pub use faults::{FaultLine, Layer, LineFault, Told};
pub use fields::field;
