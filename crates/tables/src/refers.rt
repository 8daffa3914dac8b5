// What the references take.

ghost use Rattle.std.specs.Prelude.{◌≡◌, [], IfOk};
ghost use Rattle.tables.specs.Quotas.{taken_of, quota_limit, next, references_of, reference_limits, fits_reference};
ghost use Rattle.tables.specs.Room.{below, appended, Takes};

use crate::faults::RowFault;
use crate::quota::Quota;
use crate::reference::Reference;
use crate::references::References;
use crate::room::below;
use std::alloc::{AllocError, Global};

impl Quota {
    pub(crate) fn with_limit(limit: u16) -> Quota
        ensures { (taken_of result ≡ 0) × (quota_limit result ≡ limit) }
    {
        Quota {
            taken: 0,
            limit: usize::from(limit),
        }
    }

    // One row more of this kind, unless there are as many as there can be.
    fn take(&mut self) -> Result<(), RowFault>
        ensures { Takes taken_of quota_limit self.old self.new result
            (below (taken_of self.old) (quota_limit self.old))
            (next (taken_of self.old) result) }
    {
        below(self.taken, self.limit)?;
        self.taken += 1;
        Ok(())
    }
}

impl References {
    pub(crate) fn with_limits(
        heap: Global,
        reads: u16,
        members: u16,
    ) -> Result<References, AllocError>
        ensures { IfOk result (λ t. (references_of t ≡ []) × (t.reads.limit ≡ reads) × (t.members.limit ≡ members)) }
    {
        let reads = Quota::with_limit(reads);
        let members = Quota::with_limit(members);
        let rows = Vec::with_capacity(heap, reads.limit + members.limit)?;
        Ok(References {
            rows,
            reads,
            members,
        })
    }

    // One row more at the end, unless there are as many of its kind as there can be.
    pub(crate) fn push(&mut self, row: Reference) -> Result<(), RowFault>
        ensures { Takes references_of reference_limits self.old self.new result
            (fits_reference self.old row)
            (appended (references_of self.old) row result) }
    {
        match row {
            Reference::Reads(_) => self.reads.take()?,
            Reference::Member(_) => self.members.take()?,
        }
        self.rows.push_reserved(row);
        Ok(())
    }
}
