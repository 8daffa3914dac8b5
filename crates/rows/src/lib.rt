// The rows of a draft by number.

#![tactic(auto)]

mod absent;
mod made;
mod names;
mod reads;
mod rows;

pub use rows::Rows;
