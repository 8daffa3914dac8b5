// How many rows of a kind there are, and how many there can be.

ghost use Rattle.std.specs.Prelude.{◌≤◌};

#[derive(Drop)]
pub(crate) struct Quota {
    pub(crate) taken: usize,
    pub(crate) limit: usize,
    ghost within: { taken ≤ limit },
}
