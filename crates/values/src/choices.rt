// Values that are written as one of some words.

ghost use Rattle.std.specs.Prelude.{◌≡◌, ℕ, List, Some};
ghost use Rattle.values.specs.Values.{word_among};

// A value that is written as a word.
// The library's `AsStr` would be no plainer: it lends its text for as long as the value lives, and `bool` is not ours to give it to.
pub trait Spelled {
    ghost spelling: { Self → List ℕ };

    fn spelled(&self) -> &'static str
        ensures { result.now ≡ spelling self.now };
}

// A value that is one of some, each of which has a word of its own.
pub trait Choice: Spelled + Copy + 'static {
    ghost all: { List Self };

    // Every value, in the order in which a word is looked for.
    fn all() -> &'static [Self]
        ensures { result.now ≡ all };

    // The word of a value is read as that value.
    ghost read_back: { (v : Self) → word_among Self.spelling all (Self.spelling v) ≡ Some v };
}

// The first of some values whose word this is.
pub fn find_word<T: Spelled + Copy>(all: &[T], part: &[u8]) -> Option<T>
    ensures { result ≡ word_among T.spelling all.now part.now }
{
    all.iter()
        .copied()
        .find(|value| part == value.spelled().as_bytes())
}
