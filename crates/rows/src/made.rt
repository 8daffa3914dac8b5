// The rows of a draft, made.

ghost use Rattle.std.specs.Prelude.{◌≡◌};
ghost use Rattle.tables.specs.View as tables;
ghost use Rattle.rows.specs.Names.{names_in, count_names, LeastAbove};
ghost use Rattle.rows.specs.View.{graph};

use crate::names::above_all;
use crate::rows::Rows;
use tables::Draft;

impl Rows {
    // The rows of a draft, which keeps its graph, with the count of their names.
    pub fn new(draft: Draft) -> Rows
        ensures kept { result.draft ≡ draft }
        ensures names { result.names ≡ count_names (tables.graph draft) }
        ensures least { LeastAbove (names_in (tables.graph draft)) result.names }
    {
        let seen = draft.slices();
        let names = above_all(seen.references)
            .max(above_all(seen.imports))
            .max(above_all(seen.exports));
        Rows { draft, names }
    }
}
