// What a refusal tells that can be about a row of a draft, and how it is printed.

#![tactic(auto)]

mod links;
mod printed;
mod told;

pub use links::LinkFault;
pub use printed::FaultLine;
pub use told::{BadRow, RowName, Told};
