// A line, byte by byte, in bounded memory: what is kept decides how the whole line is read.

ghost use Rattle.std.specs.Prelude.{◌≡◌, ◌≤◌, ℕ, List, [], ◌∷◌, ◌++◌, take, length, ◌≢◌};
ghost use Rattle.parts.specs.Held.{Keeps};

use std::marker::Model;

// The line that is being read, of which at most 128 bytes are kept: one more than a line may have.
#[derive(Drop)]
pub struct LineBuffer {
    // An array: a Vec would need memory that `new` might not get, and the library's `ArrayVec` is in a crate that nothing here trusts.
    kept: [u8; 128],
    len: usize,
}

// Contracts see the bytes that are kept.
impl Model for LineBuffer {
    ghost Value = { List ℕ };

    ghost view = { λ b. take b.len b.kept };

    ghost invariant = { λ b. b.len ≤ 128 };
}

impl LineBuffer {
    pub fn new() -> LineBuffer
        ensures value { result ≡ [] }
        ensures begins { Keeps [] result }
    {
        LineBuffer {
            kept: [0; 128],
            len: 0,
        }
    }

    // One byte more of the line, which is kept if there is room. Of a text, that is any byte but a line feed.
    pub fn push(&mut self, b: u8)
        ensures value { self.new ≡ take 128 (self.old ++ b ∷ []) }
        ensures goes { (text : List ℕ) → (b ≢ 10) → Keeps text self.old → Keeps (text ++ b ∷ []) self.new }
    {
        if self.len < 128 {
            self.kept[self.len] = b;
            self.len += 1;
        }
    }

    // The line begins anew, as it does after a line feed.
    pub fn clear(&mut self)
        ensures value { self.new ≡ [] }
        ensures goes { (text : List ℕ) → Keeps (text ++ 10 ∷ []) self.new }
    {
        self.len = 0;
    }

    // What is kept of the line.
    pub fn bytes(&self) -> &[u8]
        ensures value { result.now ≡ self.now }
        ensures within { length self.now ≤ 128 }
    {
        &self.kept[..self.len]
    }
}
