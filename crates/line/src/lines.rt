// A line as its word and those parts of its text that are its fields, before any of them is read.

#[derive(Debug, Clone, Copy, PartialEq, Eq)]
pub struct ModeLine<'a> {
    pub strict: &'a [u8],
    pub inline: &'a [u8],
}

#[derive(Debug, Clone, Copy, PartialEq, Eq)]
pub struct ModuleLine<'a> {
    pub kind: &'a [u8],
    pub exports: &'a [u8],
    pub wrap: &'a [u8],
    pub wrapper: &'a [u8],
    pub included: &'a [u8],
    pub inner: &'a [u8],
    pub side_effects: &'a [u8],
    pub namespace: &'a [u8],
}

#[derive(Debug, Clone, Copy, PartialEq, Eq)]
pub struct SymbolLine<'a> {
    pub owner: &'a [u8],
    pub canonical: &'a [u8],
    pub through: &'a [u8],
}

#[derive(Debug, Clone, Copy, PartialEq, Eq)]
pub struct RecordLine<'a> {
    pub module: &'a [u8],
    pub kind: &'a [u8],
    pub importee: &'a [u8],
    pub star: &'a [u8],
    pub reexport_only: &'a [u8],
}

#[derive(Debug, Clone, Copy, PartialEq, Eq)]
pub struct StatementLine<'a> {
    pub module: &'a [u8],
    pub included: &'a [u8],
}

#[derive(Debug, Clone, Copy, PartialEq, Eq)]
pub struct UsesLine<'a> {
    pub statement: &'a [u8],
    pub record: &'a [u8],
}

#[derive(Debug, Clone, Copy, PartialEq, Eq)]
pub struct ReadsLine<'a> {
    pub statement: &'a [u8],
    pub symbol: &'a [u8],
}

#[derive(Debug, Clone, Copy, PartialEq, Eq)]
pub struct MemberLine<'a> {
    pub statement: &'a [u8],
    pub object: &'a [u8],
    pub property: &'a [u8],
    pub resolution: &'a [u8],
}

#[derive(Debug, Clone, Copy, PartialEq, Eq)]
pub struct ImportLine<'a> {
    pub module: &'a [u8],
    pub local: &'a [u8],
    pub imported_as: &'a [u8],
    pub record: &'a [u8],
    pub name: &'a [u8],
}

#[derive(Debug, Clone, Copy, PartialEq, Eq)]
pub struct ExportLine<'a> {
    pub module: &'a [u8],
    pub name: &'a [u8],
    pub class: &'a [u8],
    pub symbol: &'a [u8],
    pub record: &'a [u8],
    pub imported: &'a [u8],
}

#[derive(Debug, Clone, Copy, PartialEq, Eq)]
pub struct ConstantLine<'a> {
    pub symbol: &'a [u8],
    pub commonjs: &'a [u8],
    pub safe: &'a [u8],
}

// A line of a row that a draft takes.
#[derive(Debug, Clone, Copy, PartialEq, Eq)]
pub enum LoadLine<'a> {
    Mode(ModeLine<'a>),
    Module(ModuleLine<'a>),
    Symbol(SymbolLine<'a>),
    Record(RecordLine<'a>),
    Statement(StatementLine<'a>),
    Uses(UsesLine<'a>),
    Reads(ReadsLine<'a>),
    Member(MemberLine<'a>),
    Import(ImportLine<'a>),
    Export(ExportLine<'a>),
    Constant(ConstantLine<'a>),
}

// A line of a row that marks a linked book.
#[derive(Debug, Clone, Copy, PartialEq, Eq)]
pub enum MarkLine<'a> {
    Wrapped {
        module: &'a [u8],
        symbol: &'a [u8],
    },
    Transparent {
        module: &'a [u8],
    },
    Route {
        module: &'a [u8],
    },
    LocalRecord {
        record: &'a [u8],
    },
    Nested {
        record: &'a [u8],
    },
    Facade {
        symbol: &'a [u8],
    },
    Carrier {
        record: &'a [u8],
        wrapper: &'a [u8],
        eager: &'a [u8],
    },
    Bind {
        symbol: &'a [u8],
        record: &'a [u8],
    },
}

// A line of a row that fills the declared host.
#[derive(Debug, Clone, Copy, PartialEq, Eq)]
pub enum HostLine<'a> {
    Used { symbol: &'a [u8] },
    Reachable { symbol: &'a [u8] },
    Owns { module: &'a [u8] },
}

// A line of a question; `question` is the field that names it.
#[derive(Debug, Clone, Copy, PartialEq, Eq)]
pub enum AskLine<'a> {
    Record {
        question: &'a [u8],
        record: &'a [u8],
    },
    Circle {
        question: &'a [u8],
    },
    Caller {
        question: &'a [u8],
        record: &'a [u8],
        target: &'a [u8],
        number: &'a [u8],
    },
}

#[derive(Debug, Clone, Copy, PartialEq, Eq)]
pub enum Line<'a> {
    Load(LoadLine<'a>),
    Mark(MarkLine<'a>),
    Host(HostLine<'a>),
    Ask(AskLine<'a>),
}
