// The words of the rows that a draft takes.

ghost use Rattle.std.specs.Prelude.{◌≡◌, Some};
ghost use Rattle.values.specs.Values.{word_among};
ghost use Rattle.line.specs.Lines.{load_kinds};
ghost use Rattle.line.specs.Shape.{load_word};

use crate::kinds::LoadKind;
use std::fmt;
use values::Spelled;

impl LoadKind {
    // The word of the kind's rows, by which a line is known to be one of them.
    // `Display` would be no plainer in its place: it promises what is printed, and not that the word is read back.
    pub fn word(self) -> &'static str
        ensures value { result.now ≡ load_word self }
        ensures read { word_among load_word load_kinds result.now ≡ Some self }
    {
        self.spelled()
    }
}

impl fmt::Display for LoadKind {
    ghost output = { λ k. Some (load_word k) };

    fn fmt<W: fmt::Write>(&self, f: &mut fmt::Formatter<W>) -> fmt::Result {
        f.write_str(self.word())
    }
}
