// Flags, which stand thirty-two to a word, the first in the lowest bit.
// This packing is a rule of the project: a flag takes one bit, where a bool in a list would take a byte.

ghost use Rattle.std.specs.Prelude.{◌≡◌, ◌+◌, ◌/◌, vec_len};

// Their memory is reserved when they are made, and who holds them says for how many.
#[derive(Drop)]
pub(crate) struct Flags {
    pub(crate) words: Vec<u32>,
    pub(crate) len: usize,
    ghost counted: { vec_len words ≡ (len + 31) / 32 },
}
