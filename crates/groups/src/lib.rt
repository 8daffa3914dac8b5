// Items in groups, each group found by its number; and the numbers of rows, grouped by their owners.

#![tactic(auto)]

mod fills;
mod groups;
mod reads;
#[cfg(test)]
mod tests;

pub use fills::{OwnedBy, Short};
pub use groups::Groups;
