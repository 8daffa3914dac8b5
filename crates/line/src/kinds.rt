// The kinds of rows, and their words.

ghost use Rattle.std.proofs.Common.{rules};
ghost use Rattle.line.specs.Lines.{load_kinds, mark_kinds, host_kinds, ask_kinds};
ghost use Rattle.line.specs.Shape.{load_word, mark_word, host_word, question_word};

use values::{Choice, Spelled};

#[derive(Debug, Clone, Copy, PartialEq, Eq)]
pub enum LoadKind {
    Mode,
    Module,
    Symbol,
    Record,
    Statement,
    Uses,
    Reads,
    Member,
    Import,
    Export,
    Constant,
}

#[derive(Debug, Clone, Copy, PartialEq, Eq)]
pub enum MarkKind {
    Wrapped,
    Transparent,
    Route,
    LocalRecord,
    Nested,
    Facade,
    Carrier,
    Bind,
}

#[derive(Debug, Clone, Copy, PartialEq, Eq)]
pub enum HostKind {
    Used,
    Reachable,
    Owns,
}

#[derive(Debug, Clone, Copy, PartialEq, Eq)]
pub enum AskKind {
    Record,
    Circle,
    Caller,
}

#[derive(Debug, Clone, Copy, PartialEq, Eq)]
pub enum Kind {
    Load(LoadKind),
    Mark(MarkKind),
    Host(HostKind),
    Ask(AskKind),
}

impl Spelled for LoadKind {
    ghost spelling = { load_word };

    fn spelled(&self) -> &'static str {
        match self {
            LoadKind::Mode => "mode",
            LoadKind::Module => "module",
            LoadKind::Symbol => "symbol",
            LoadKind::Record => "record",
            LoadKind::Statement => "statement",
            LoadKind::Uses => "uses",
            LoadKind::Reads => "reads",
            LoadKind::Member => "member",
            LoadKind::Import => "import",
            LoadKind::Export => "export",
            LoadKind::Constant => "constant",
        }
    }
}

impl Choice for LoadKind {
    ghost all = { load_kinds };

    ghost read_back = { Prim.search rules };

    fn all() -> &'static [LoadKind] {
        &[
            LoadKind::Mode,
            LoadKind::Module,
            LoadKind::Symbol,
            LoadKind::Record,
            LoadKind::Statement,
            LoadKind::Uses,
            LoadKind::Reads,
            LoadKind::Member,
            LoadKind::Import,
            LoadKind::Export,
            LoadKind::Constant,
        ]
    }
}

impl Spelled for MarkKind {
    ghost spelling = { mark_word };

    fn spelled(&self) -> &'static str {
        match self {
            MarkKind::Wrapped => "wrapped",
            MarkKind::Transparent => "transparent",
            MarkKind::Route => "route",
            MarkKind::LocalRecord => "localrecord",
            MarkKind::Nested => "nested",
            MarkKind::Facade => "facade",
            MarkKind::Carrier => "carrier",
            MarkKind::Bind => "bind",
        }
    }
}

impl Choice for MarkKind {
    ghost all = { mark_kinds };

    ghost read_back = { Prim.search rules };

    fn all() -> &'static [MarkKind] {
        &[
            MarkKind::Wrapped,
            MarkKind::Transparent,
            MarkKind::Route,
            MarkKind::LocalRecord,
            MarkKind::Nested,
            MarkKind::Facade,
            MarkKind::Carrier,
            MarkKind::Bind,
        ]
    }
}

impl Spelled for HostKind {
    ghost spelling = { host_word };

    fn spelled(&self) -> &'static str {
        match self {
            HostKind::Used => "used",
            HostKind::Reachable => "reachable",
            HostKind::Owns => "owns",
        }
    }
}

impl Choice for HostKind {
    ghost all = { host_kinds };

    ghost read_back = { Prim.search rules };

    fn all() -> &'static [HostKind] {
        &[HostKind::Used, HostKind::Reachable, HostKind::Owns]
    }
}

// A question is told by the first field of its row.
impl Spelled for AskKind {
    ghost spelling = { question_word };

    fn spelled(&self) -> &'static str {
        match self {
            AskKind::Record => "record",
            AskKind::Circle => "circle",
            AskKind::Caller => "caller",
        }
    }
}

impl Choice for AskKind {
    ghost all = { ask_kinds };

    ghost read_back = { Prim.search rules };

    fn all() -> &'static [AskKind] {
        &[AskKind::Record, AskKind::Circle, AskKind::Caller]
    }
}
