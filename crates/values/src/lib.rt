// The values that the fields of a line can be: numbers, flags and words.

#![tactic(auto)]

mod choices;
mod fields;
mod scalars;
mod values;

pub use choices::{Choice, Spelled, find_word};
pub use fields::{FromPart, value};
pub use scalars::Scalar;
pub use values::{
    ExportClass, ExportsKind, Imported, InlineConstMode, ModuleKind, RecordKind, Resolution,
    TargetKind, WrapKind,
};
