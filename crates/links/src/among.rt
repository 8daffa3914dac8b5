// The rows that stand among the references.

ghost use Rattle.std.specs.Prelude.{◌≡◌, Option};
ghost use Rattle.tables.specs.declared.reference.Reference as reference;
ghost use Rattle.links.specs.Among.{as_reads, as_member};

use crate::judged::Judged;
use line::{MemberRow, ReadsRow};
use tables::Reference;

// A row that can stand there.
pub(crate) trait Among: Judged + Copy {
    ghost among: { reference.Reference → Option Self };

    // The reference as a row of this word, if it is one.
    fn among(reference: &Reference) -> Option<Self>
        ensures { result ≡ among reference.now };
}

impl Among for ReadsRow {
    ghost among = { as_reads };

    fn among(reference: &Reference) -> Option<ReadsRow> {
        match reference {
            Reference::Reads(row) => Some(*row),
            Reference::Member(_) => None,
        }
    }
}

impl Among for MemberRow {
    ghost among = { as_member };

    fn among(reference: &Reference) -> Option<MemberRow> {
        match reference {
            Reference::Member(row) => Some(*row),
            Reference::Reads(_) => None,
        }
    }
}
