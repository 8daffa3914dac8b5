// The rows of a graph book, once their fields have been read.

use values::{
    ExportClass, ExportsKind, Imported, InlineConstMode, ModuleKind, RecordKind, Resolution,
    WrapKind,
};

// The numbers of rows: a row's place among the rows of its word, from 0. A book names rows by them.
pub type ModuleIdx = u16;

pub type SymbolRef = u16;

pub type ImportRecordIdx = u16;

pub type StmtInfoIdx = u16;

// The number of an exported or imported name; 0 is `default`.
pub type Name = u16;

#[derive(Debug, Clone, Copy, PartialEq, Eq)]
pub struct ModeRow {
    pub strict: bool,
    pub inline: InlineConstMode,
}

#[derive(Debug, Clone, Copy, PartialEq, Eq)]
pub struct ModuleRow {
    pub kind: ModuleKind,
    pub exports: ExportsKind,
    pub wrap: WrapKind,
    // as it was written, whatever `wrap` is
    pub wrapper: Option<SymbolRef>,
    pub included: bool,
    // concatenated into another module
    pub inner: bool,
    pub side_effects: bool,
    pub namespace: Option<SymbolRef>,
}

#[derive(Debug, Clone, Copy, PartialEq, Eq)]
pub struct SymbolRow {
    pub owner: ModuleIdx,
    pub canonical: SymbolRef,
    // the canonical symbol once namespaces have been resolved too
    pub through: SymbolRef,
}

#[derive(Debug, Clone, Copy, PartialEq, Eq)]
pub struct RecordRow {
    pub module: ModuleIdx,
    pub kind: RecordKind,
    pub importee: Option<ModuleIdx>,
    pub star: bool,
    pub reexport_only: bool,
}

#[derive(Debug, Clone, Copy, PartialEq, Eq)]
pub struct StatementRow {
    pub module: ModuleIdx,
    pub included: bool,
}

#[derive(Debug, Clone, Copy, PartialEq, Eq)]
pub struct UsesRow {
    pub statement: StmtInfoIdx,
    pub record: ImportRecordIdx,
}

#[derive(Debug, Clone, Copy, PartialEq, Eq)]
pub struct ReadsRow {
    pub statement: StmtInfoIdx,
    pub symbol: SymbolRef,
}

#[derive(Debug, Clone, Copy, PartialEq, Eq)]
pub struct MemberRow {
    pub statement: StmtInfoIdx,
    pub object: SymbolRef,
    pub property: Option<Name>,
    pub resolution: Resolution,
}

#[derive(Debug, Clone, Copy, PartialEq, Eq)]
pub struct ImportRow {
    pub module: ModuleIdx,
    pub local: SymbolRef,
    pub imported_as: SymbolRef,
    pub record: ImportRecordIdx,
    pub name: Imported,
}

#[derive(Debug, Clone, Copy, PartialEq, Eq)]
pub struct ExportRow {
    pub module: ModuleIdx,
    pub name: Name,
    // which of the fields below mean something; all are kept as they were written
    pub class: ExportClass,
    pub symbol: SymbolRef,
    pub record: Option<ImportRecordIdx>,
    pub imported: Option<Name>,
}

#[derive(Debug, Clone, Copy, PartialEq, Eq)]
pub struct ConstantRow {
    pub symbol: SymbolRef,
    pub commonjs: bool,
    pub safe: bool,
}

// The rows that a draft takes.
#[derive(Debug, Clone, Copy, PartialEq, Eq)]
pub enum LoadRow {
    Mode(ModeRow),
    Module(ModuleRow),
    Symbol(SymbolRow),
    Record(RecordRow),
    Statement(StatementRow),
    Uses(UsesRow),
    Reads(ReadsRow),
    Member(MemberRow),
    Import(ImportRow),
    Export(ExportRow),
    Constant(ConstantRow),
}

// The rows that mark a linked book.
#[derive(Debug, Clone, Copy, PartialEq, Eq)]
pub enum MarkRow {
    Wrapped {
        module: ModuleIdx,
        symbol: SymbolRef,
    },
    Transparent(ModuleIdx),
    Route(ModuleIdx),
    LocalRecord(ImportRecordIdx),
    Nested(ImportRecordIdx),
    Facade(SymbolRef),
    Carrier {
        record: ImportRecordIdx,
        wrapper: SymbolRef,
        eager: bool,
    },
    Bind {
        symbol: SymbolRef,
        record: ImportRecordIdx,
    },
}

// The rows that fill the declared host: members of its three sets.
#[derive(Debug, Clone, Copy, PartialEq, Eq)]
pub enum HostRow {
    Used(SymbolRef),
    Reachable(SymbolRef),
    Owns(ModuleIdx),
}

// What an init call is made to: a module, or the carrier that a record names.
#[derive(Debug, Clone, Copy, PartialEq, Eq)]
pub enum Target {
    Module(ModuleIdx),
    Carrier(ImportRecordIdx),
}

// The questions that a row can put to a linked book.
#[derive(Debug, Clone, Copy, PartialEq, Eq)]
pub enum AskRow {
    Record(ImportRecordIdx),
    Circle,
    Caller {
        record: ImportRecordIdx,
        target: Target,
    },
}

#[derive(Debug, Clone, Copy, PartialEq, Eq)]
pub enum Row {
    Load(LoadRow),
    Mark(MarkRow),
    Host(HostRow),
    Ask(AskRow),
}
