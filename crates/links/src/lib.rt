// Which row of a draft makes a link refused.

#![tactic(auto)]

mod among;
mod bad;
mod fields;
mod judged;
#[cfg(test)]
mod tests;

pub use bad::bad_row;
