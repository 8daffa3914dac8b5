// A part of a printed line: a value, or `-` where there is none.

ghost use Rattle.std.specs.Prelude.{Some};
ghost use Rattle.parts.specs.Faults.{dash, made_or};

use std::fmt;

#[derive(Debug, Clone, Copy, PartialEq, Eq)]
pub struct OrDash<T>(pub Option<T>);

impl<T: fmt::Display> fmt::Display for OrDash<T> {
    ghost output = { λ x. made_or T.Display.output (Some dash) x.0 };

    fn fmt<W: fmt::Write>(&self, f: &mut fmt::Formatter<W>) -> fmt::Result {
        match &self.0 {
            Some(value) => value.fmt(f),
            None => f.write_str("-"),
        }
    }
}
