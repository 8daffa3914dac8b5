// One flag more, and the lookup of one.

ghost use Rattle.std.specs.Prelude.{◌≡◌, ℕ, ◌+◌, ◌/◌, ◌<◌, ◌≤◌, false, [], ◌∷◌, ◌++◌, IfOk, ◌≢◌, slice_index_or, vec_capacity};
ghost use Rattle.tables.specs.Flags.{bit, flags_of};

use crate::flags::Flags;
use std::alloc::{AllocError, Global};

// A word with its bit k as `on` says.
fn with_bit(word: u32, k: u32, on: bool) -> u32
    requires { k < 32 }
    ensures here { bit result k ≡ on }
    ensures others { (j : ℕ) → (j ≢ k) → bit result j ≡ bit word j }
{
    let mask = 1u32 << k;
    if on { word | mask } else { word & !mask }
}

impl Flags {
    // No flags, with room for `limit` of them.
    pub(crate) fn with_limit(heap: Global, limit: u16) -> Result<Flags, AllocError>
        ensures { IfOk result (λ f. (f.len ≡ 0) × ((limit + 31) / 32 ≤ vec_capacity f.words)) }
    {
        let words = Vec::with_capacity(heap, usize::from(limit).div_ceil(32))?;
        Ok(Flags { words, len: 0 })
    }

    // Flag i; no flag past the end is set.
    pub(crate) fn get(&self, i: usize) -> bool
        ensures { result ≡ slice_index_or (flags_of self.now) i false }
    {
        i < self.len && (self.words[i / 32] >> (i % 32) as u32) % 2 == 1
    }

    // One flag more at the end.
    pub(crate) fn push(&mut self, on: bool)
        requires fits { self.old.len < usize.MAX }
        requires room { (self.old.len + 32) / 32 ≤ vec_capacity self.old.words }
        ensures flags { flags_of self.new ≡ flags_of self.old ++ on ∷ [] }
        ensures len { self.new.len ≡ self.old.len + 1 }
        ensures capacity { vec_capacity self.new.words ≡ vec_capacity self.old.words }
    {
        let at = self.len / 32;
        let words = &mut self.words;
        if self.len % 32 == 0 {
            words.push_reserved(0);
        }
        words[at] = with_bit(words[at], (self.len % 32) as u32, on);
        self.len += 1;
    }
}
