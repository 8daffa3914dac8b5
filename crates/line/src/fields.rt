// The fields of a line, which are taken one after another.

ghost use Rattle.std.specs.Prelude.{◌≡◌, ℕ, List, [], ◌∷◌, length, MatchResult, ◌≢◌, slice_index_or};
ghost use Rattle.parts.specs.declared.faults.LineFault.{LineFault};
ghost use Rattle.parts.specs.Parts.{fields, seen};

use parts::{LineFault, field};
use std::marker::Model;

// The fields that are left of a line.
// The library's `split` would be no plainer: a question is told by its first field and by how many there are, before any is taken.
#[derive(Drop)]
pub(crate) struct Fields<'a> {
    // the text of the fields with the commas between them, unless none is left
    left: Option<&'a [u8]>,
}

// Clauses see the texts of the fields.
impl<'a> Model for Fields<'a> {
    ghost Value = { List (List ℕ) };

    ghost view = { λ f. fields (seen f.left) };
}

impl<'a> Fields<'a> {
    pub(crate) fn new(left: Option<&'a [u8]>) -> Fields<'a>
        ensures { result ≡ fields (seen left.entry) }
    {
        Fields { left }
    }

    // The next field; a line that has none left has one too few.
    #[tactic(auto, using(crate::proofs::Counts::parts_next))]
    pub(crate) fn take(&mut self) -> Result<&'a [u8], LineFault>
        ensures { MatchResult result (λ p. self.old ≡ p.now ∷ self.new) (λ e. (e ≡ LineFault.Form) × (self.old ≡ [])) }
    {
        let bytes = self.left.ok_or(LineFault::Form)?;
        let (first, others) = field(bytes);
        self.left = others;
        Ok(first)
    }

    // The last field; a line that has more left has too many.
    #[tactic(auto, using(crate::proofs::Counts::some_left))]
    pub(crate) fn last(&mut self) -> Result<&'a [u8], LineFault>
        ensures { MatchResult result (λ p. self.old ≡ p.now ∷ []) (λ e. (e ≡ LineFault.Form) × (length self.old ≢ 1)) }
    {
        let last = self.take()?;
        if self.left.is_some() {
            return Err(LineFault::Form);
        }
        Ok(last)
    }

    // The first of the fields that are left, which is taken to be empty where none is.
    #[tactic(auto, using(crate::proofs::Counts::parts_first))]
    pub(crate) fn first(&self) -> &'a [u8]
        ensures { result.now ≡ slice_index_or self.now 0 [] }
    {
        self.left.map_or(&[], |bytes| field(bytes).0)
    }

    // How many fields are left: one more than there are commas.
    #[tactic(auto, using(crate::proofs::Counts::parts_count))]
    pub(crate) fn count(&self) -> usize
        ensures { result ≡ length self.now }
    {
        self.left.map_or(0, |bytes| 1 + bytes.iter().filter(|b| **b == b',').count())
    }
}
