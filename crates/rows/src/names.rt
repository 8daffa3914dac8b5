// How many names the rows of a draft have: one more than the highest.

ghost use Rattle.std.specs.Prelude.{◌≡◌, ℕ, List};
ghost use Rattle.std.specs.List.{flat_map};
ghost use Rattle.rows.specs.Names.{reference_names, import_names, export_names, one_above};

use line::{ExportRow, ImportRow};
use tables::Reference;
use values::{ExportClass, Imported};

// A row that can have names.
pub(crate) trait Named {
    ghost names: { Self → List ℕ };

    // One more than the highest of its names, or 0.
    fn above(&self) -> usize
        ensures { result ≡ one_above (names self.now) };
}

impl Named for Reference {
    ghost names = { reference_names };

    fn above(&self) -> usize {
        match self {
            Reference::Reads(_) => 0,
            Reference::Member(row) => row.property.map_or(0, |name| usize::from(name) + 1),
        }
    }
}

impl Named for ImportRow {
    ghost names = { import_names };

    fn above(&self) -> usize {
        match self.name {
            Imported::Namespace => 0,
            Imported::Literal(name) => usize::from(name) + 1,
        }
    }
}

// Only an indirect export reads the name in the importee.
impl Named for ExportRow {
    ghost names = { export_names };

    fn above(&self) -> usize {
        let own = usize::from(self.name) + 1;
        match self.class {
            ExportClass::Local | ExportClass::All => own,
            ExportClass::Indirect => self
                .imported
                .map_or(own, |name| own.max(usize::from(name) + 1)),
        }
    }
}

pub(crate) fn above_all<T: Named>(rows: &[T]) -> usize
    ensures { result ≡ one_above (flat_map T.names rows.now) }
{
    let mut most = 0usize;
    for row in rows {
        most = most.max(row.above());
    }
    most
}
