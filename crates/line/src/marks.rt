// The values of the fields of mark rows, host rows and questions, as `loads` has them for the rows of a draft.

ghost use Rattle.std.specs.Prelude.{◌≡◌, true, false, MatchResult};
ghost use Rattle.std.specs.Str.{bytes_eq};
ghost use Rattle.parts.specs.declared.faults.LineFault.{LineFault};
ghost use Rattle.line.specs.Lines.{target_as};
ghost use Rattle.line.specs.Shape.{question_word};
ghost use Rattle.line.specs.Shown.{mark_shown, host_shown, ask_shown};

use crate::kinds::AskKind;
use crate::lines::{AskLine, HostLine, MarkLine};
use crate::rows::{AskRow, HostRow, MarkRow, Row, Target};
use crate::written::Written;
use parts::LineFault;
use values::{Spelled, TargetKind, value};

impl Written for MarkLine<'_> {
    ghost shown = { mark_shown };

    fn row(self) -> Result<Row, LineFault> {
        let row = match self {
            MarkLine::Wrapped { module, symbol } => MarkRow::Wrapped {
                module: value(module, 1)?,
                symbol: value(symbol, 2)?,
            },
            MarkLine::Transparent { module } => MarkRow::Transparent(value(module, 1)?),
            MarkLine::Route { module } => MarkRow::Route(value(module, 1)?),
            MarkLine::LocalRecord { record } => MarkRow::LocalRecord(value(record, 1)?),
            MarkLine::Nested { record } => MarkRow::Nested(value(record, 1)?),
            MarkLine::Facade { symbol } => MarkRow::Facade(value(symbol, 1)?),
            MarkLine::Carrier {
                record,
                wrapper,
                eager,
            } => MarkRow::Carrier {
                record: value(record, 1)?,
                wrapper: value(wrapper, 2)?,
                eager: value(eager, 3)?,
            },
            MarkLine::Bind { symbol, record } => MarkRow::Bind {
                symbol: value(symbol, 1)?,
                record: value(record, 2)?,
            },
        };
        Ok(Row::Mark(row))
    }
}

impl Written for HostLine<'_> {
    ghost shown = { host_shown };

    fn row(self) -> Result<Row, LineFault> {
        let row = match self {
            HostLine::Used { symbol } => HostRow::Used(value(symbol, 1)?),
            HostLine::Reachable { symbol } => HostRow::Reachable(value(symbol, 1)?),
            HostLine::Owns { module } => HostRow::Owns(value(module, 1)?),
        };
        Ok(Row::Host(row))
    }
}

// The field that names the question has to be its word.
fn named(question: &[u8], kind: AskKind) -> Result<(), LineFault>
    ensures { MatchResult result (λ _. bytes_eq question.now (question_word kind) ≡ true) (λ e. (e ≡ LineFault.Value 1) × (bytes_eq question.now (question_word kind) ≡ false)) }
{
    if question == kind.spelled().as_bytes() {
        return Ok(());
    }
    Err(LineFault::Value { field: 1 })
}

// `From` of a pair would be no plainer.
fn target(kind: TargetKind, number: u16) -> Target
    ensures { result ≡ target_as kind number }
{
    match kind {
        TargetKind::Module => Target::Module(number),
        TargetKind::Carrier => Target::Carrier(number),
    }
}

impl Written for AskLine<'_> {
    ghost shown = { ask_shown };

    fn row(self) -> Result<Row, LineFault> {
        let row = match self {
            AskLine::Record { question, record } => {
                named(question, AskKind::Record)?;
                AskRow::Record(value(record, 2)?)
            }
            AskLine::Circle { question } => {
                named(question, AskKind::Circle)?;
                AskRow::Circle
            }
            AskLine::Caller {
                question,
                record,
                target: kind,
                number,
            } => {
                named(question, AskKind::Caller)?;
                AskRow::Caller {
                    record: value(record, 2)?,
                    target: target(value(kind, 3)?, value(number, 4)?),
                }
            }
        };
        Ok(Row::Ask(row))
    }
}
