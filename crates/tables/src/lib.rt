// The tables of a draft, and the graph that they hold.

#![tactic(auto)]

mod counts;
mod draft;
mod faults;
mod fills;
mod flags;
mod includes;
mod limits;
mod loads;
mod packs;
mod quota;
mod reference;
mod references;
mod refers;
mod room;
mod slices;
mod statements;
mod table;
mod texts;

pub use draft::Draft;
pub use faults::{BookFault, RowFault};
pub use limits::Limits;
pub use reference::Reference;
pub use slices::Slices;
