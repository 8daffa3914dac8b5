// The rows of a draft, to be read by number, and how many names they have.
// A model would be no plainer: contracts would say `self.now.graph` for `graph self.now`.

ghost use Rattle.std.specs.Prelude.{◌≡◌};
ghost use Rattle.rows.specs.Names.{count_names};
ghost use Rattle.tables.specs.View.{graph};

use tables::Draft;

#[derive(Drop)]
pub struct Rows {
    pub(crate) draft: Draft,
    // one more than the highest name in a row
    pub(crate) names: usize,
    ghost counted: { names ≡ count_names (graph draft) },
}
