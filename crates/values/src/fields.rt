// What a field writes, by the type of the value that is asked for.

ghost use Rattle.std.specs.Prelude.{◌≡◌, ℕ, List, Some, None, Option, MatchResult};
ghost use Rattle.values.specs.Values.{word_among};
ghost use Rattle.parts.specs.declared.faults.LineFault.{LineFault};

use crate::choices::{Choice, find_word};
use parts::LineFault;

// A value that a part of a line can write.
// `TryFrom<&[u8]>` would be no plainer: it says the same, but `u16` and `bool` are not ours to give it to.
pub trait FromPart: Sized {
    ghost written: { List ℕ → Option Self };

    fn from_part(part: &[u8]) -> Option<Self>
        ensures { result ≡ written part.now };
}

// The value that a field writes. The line is refused for a field that writes none; fields are counted from 1.
pub fn value<T: FromPart>(part: &[u8], field: u8) -> Result<T, LineFault>
    ensures { MatchResult result (λ v. T.written part.now ≡ Some v) (λ e. (e ≡ LineFault.Value field) × (T.written part.now ≡ None)) }
{
    T::from_part(part).ok_or(LineFault::Value { field })
}

// One of some words.
impl<T: Choice> FromPart for T {
    ghost written = { word_among T.spelling T.all };

    fn from_part(part: &[u8]) -> Option<T> {
        find_word(T::all(), part)
    }
}
