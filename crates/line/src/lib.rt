// The lines of a graph book: from the bytes of a line to a typed row, or to the reason why the line is refused.

#![tactic(auto)]

mod fields;
mod kinds;
mod lines;
mod loads;
mod marks;
mod reading;
mod rows;
mod splits;
mod words;
mod written;

pub use kinds::{AskKind, HostKind, Kind, LoadKind, MarkKind};
pub use lines::{
    AskLine, ConstantLine, ExportLine, HostLine, ImportLine, Line, LoadLine, MarkLine, MemberLine,
    ModeLine, ModuleLine, ReadsLine, RecordLine, StatementLine, SymbolLine, UsesLine,
};
pub use reading::read;
pub use rows::{
    AskRow, ConstantRow, ExportRow, HostRow, ImportRecordIdx, ImportRow, LoadRow, MarkRow,
    MemberRow, ModeRow, ModuleIdx, ModuleRow, Name, ReadsRow, RecordRow, Row, StatementRow,
    StmtInfoIdx, SymbolRef, SymbolRow, Target, UsesRow,
};
pub use splits::split;
