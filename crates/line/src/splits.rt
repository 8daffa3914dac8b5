// Which kind of row a line is, and the parts of its text that are its fields.

ghost use Rattle.std.specs.Prelude.{◌≡◌};
ghost use Rattle.line.specs.declared.kinds.Kind.TheVariants as every;
ghost use Rattle.line.specs.Lines.{ask_kinds, counted, asked, kind_of, counts, split_of};
ghost use Rattle.line.specs.Shown.{shown, told_by};
ghost use Rattle.line.specs.declared.kinds.Kind.{Kind};

use crate::fields::Fields;
use crate::kinds::{AskKind, HostKind, Kind, LoadKind, MarkKind};
use crate::lines::{
    AskLine, ConstantLine, ExportLine, HostLine, ImportLine, Line, LoadLine, MarkLine, MemberLine,
    ModeLine, ModuleLine, ReadsLine, RecordLine, StatementLine, SymbolLine, UsesLine,
};
use crate::written::Written;
use parts::{LineFault, field};
use values::FromPart;

// A line that is made of the fields of its kind.
trait FromFields<'a>: Written + Sized {
    type Kind;

    // the kind among all kinds
    ghost every: { Self.Kind → Kind };

    // The line of this kind, if there are as many fields as its rows have.
    fn from_fields(kind: Self::Kind, left: &mut Fields<'a>) -> Result<Self, LineFault>
        ensures { told_by Self.shown result ≡ counts (every kind) left.old };
}

impl<'a> FromFields<'a> for LoadLine<'a> {
    type Kind = LoadKind;

    ghost every = { every.Load };

    fn from_fields(kind: LoadKind, left: &mut Fields<'a>) -> Result<LoadLine<'a>, LineFault> {
        match kind {
            LoadKind::Mode => Ok(LoadLine::Mode(ModeLine {
                strict: left.take()?,
                inline: left.last()?,
            })),
            LoadKind::Module => Ok(LoadLine::Module(ModuleLine {
                kind: left.take()?,
                exports: left.take()?,
                wrap: left.take()?,
                wrapper: left.take()?,
                included: left.take()?,
                inner: left.take()?,
                side_effects: left.take()?,
                namespace: left.last()?,
            })),
            LoadKind::Symbol => Ok(LoadLine::Symbol(SymbolLine {
                owner: left.take()?,
                canonical: left.take()?,
                through: left.last()?,
            })),
            LoadKind::Record => Ok(LoadLine::Record(RecordLine {
                module: left.take()?,
                kind: left.take()?,
                importee: left.take()?,
                star: left.take()?,
                reexport_only: left.last()?,
            })),
            LoadKind::Statement => Ok(LoadLine::Statement(StatementLine {
                module: left.take()?,
                included: left.last()?,
            })),
            LoadKind::Uses => Ok(LoadLine::Uses(UsesLine {
                statement: left.take()?,
                record: left.last()?,
            })),
            LoadKind::Reads => Ok(LoadLine::Reads(ReadsLine {
                statement: left.take()?,
                symbol: left.last()?,
            })),
            LoadKind::Member => Ok(LoadLine::Member(MemberLine {
                statement: left.take()?,
                object: left.take()?,
                property: left.take()?,
                resolution: left.last()?,
            })),
            LoadKind::Import => Ok(LoadLine::Import(ImportLine {
                module: left.take()?,
                local: left.take()?,
                imported_as: left.take()?,
                record: left.take()?,
                name: left.last()?,
            })),
            LoadKind::Export => Ok(LoadLine::Export(ExportLine {
                module: left.take()?,
                name: left.take()?,
                class: left.take()?,
                symbol: left.take()?,
                record: left.take()?,
                imported: left.last()?,
            })),
            LoadKind::Constant => Ok(LoadLine::Constant(ConstantLine {
                symbol: left.take()?,
                commonjs: left.take()?,
                safe: left.last()?,
            })),
        }
    }
}

impl<'a> FromFields<'a> for MarkLine<'a> {
    type Kind = MarkKind;

    ghost every = { every.Mark };

    fn from_fields(kind: MarkKind, left: &mut Fields<'a>) -> Result<MarkLine<'a>, LineFault> {
        match kind {
            MarkKind::Wrapped => Ok(MarkLine::Wrapped {
                module: left.take()?,
                symbol: left.last()?,
            }),
            MarkKind::Transparent => Ok(MarkLine::Transparent {
                module: left.last()?,
            }),
            MarkKind::Route => Ok(MarkLine::Route {
                module: left.last()?,
            }),
            MarkKind::LocalRecord => Ok(MarkLine::LocalRecord {
                record: left.last()?,
            }),
            MarkKind::Nested => Ok(MarkLine::Nested {
                record: left.last()?,
            }),
            MarkKind::Facade => Ok(MarkLine::Facade {
                symbol: left.last()?,
            }),
            MarkKind::Carrier => Ok(MarkLine::Carrier {
                record: left.take()?,
                wrapper: left.take()?,
                eager: left.last()?,
            }),
            MarkKind::Bind => Ok(MarkLine::Bind {
                symbol: left.take()?,
                record: left.last()?,
            }),
        }
    }
}

impl<'a> FromFields<'a> for HostLine<'a> {
    type Kind = HostKind;

    ghost every = { every.Host };

    fn from_fields(kind: HostKind, left: &mut Fields<'a>) -> Result<HostLine<'a>, LineFault> {
        match kind {
            HostKind::Used => Ok(HostLine::Used {
                symbol: left.last()?,
            }),
            HostKind::Reachable => Ok(HostLine::Reachable {
                symbol: left.last()?,
            }),
            HostKind::Owns => Ok(HostLine::Owns {
                module: left.last()?,
            }),
        }
    }
}

impl<'a> FromFields<'a> for AskLine<'a> {
    type Kind = AskKind;

    ghost every = { every.Ask };

    fn from_fields(kind: AskKind, left: &mut Fields<'a>) -> Result<AskLine<'a>, LineFault> {
        match kind {
            AskKind::Record => Ok(AskLine::Record {
                question: left.take()?,
                record: left.last()?,
            }),
            AskKind::Circle => Ok(AskLine::Circle {
                question: left.last()?,
            }),
            AskKind::Caller => Ok(AskLine::Caller {
                question: left.take()?,
                record: left.take()?,
                target: left.take()?,
                number: left.last()?,
            }),
        }
    }
}

fn question_with(count: usize) -> Option<AskKind>
    ensures { result ≡ counted count ask_kinds }
{
    match count {
        2 => Some(AskKind::Record),
        1 => Some(AskKind::Circle),
        4 => Some(AskKind::Caller),
        _ => None,
    }
}

// The question that the first field names; where it names none, the question that has so many fields.
fn ask_kind(left: &Fields<'_>) -> Option<AskKind>
    ensures { result ≡ asked left.now }
{
    // A match: `or` would count the fields of a line whose question is named, and as `or_else` the proof did not close.
    match AskKind::from_part(left.first()) {
        Some(kind) => Some(kind),
        None => question_with(left.count()),
    }
}

// The kind of a row by its word and, for a question, by its fields.
// As a chain of `or_else` it was tried: the proof did not close; and `or` would look through every list of words for every line.
fn kind_of(word: &[u8], left: &Fields<'_>) -> Option<Kind>
    ensures { result ≡ kind_of word.now left.now }
{
    if let Some(kind) = LoadKind::from_part(word) {
        return Some(Kind::Load(kind));
    }
    if let Some(kind) = MarkKind::from_part(word) {
        return Some(Kind::Mark(kind));
    }
    if let Some(kind) = HostKind::from_part(word) {
        return Some(Kind::Host(kind));
    }
    match word {
        b"ask" => ask_kind(left).map(Kind::Ask),
        _ => None,
    }
}

fn line_of<'a>(kind: Kind, left: &mut Fields<'a>) -> Result<Line<'a>, LineFault>
    ensures { told_by shown result ≡ counts kind left.old }
{
    match kind {
        Kind::Load(kind) => Ok(Line::Load(LoadLine::from_fields(kind, left)?)),
        Kind::Mark(kind) => Ok(Line::Mark(MarkLine::from_fields(kind, left)?)),
        Kind::Host(kind) => Ok(Line::Host(HostLine::from_fields(kind, left)?)),
        Kind::Ask(kind) => Ok(Line::Ask(AskLine::from_fields(kind, left)?)),
    }
}

// The parts of a line that is short enough, has a known word, and as many fields as the rows of that word.
pub fn split(bytes: &[u8]) -> Result<Line<'_>, LineFault>
    ensures { told_by shown result ≡ split_of bytes.now }
{
    if bytes.len() > 127 {
        return Err(LineFault::Form);
    }
    let (word, others) = field(bytes);
    let mut left = Fields::new(others);
    let kind = kind_of(word, &left).ok_or(LineFault::Form)?;
    line_of(kind, &mut left)
}
