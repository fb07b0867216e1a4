//! The records of a plan, and one on its way there.

ghost use Rattle.std.specs.Prelude.{◌≡◌, ◌<◌, ◌∷◌, ◌++◌, [], length, OnOk};
ghost use Rattle.edi_record.specs.declared.record.Record.{Record};
ghost use Rattle.edi_plan.specs.inner.RecordLists.{plan_records_of};
ghost use Rattle.edi_plan.specs.inner.Planned.{planned_with};

use crate::record::{PlanAttribute, PlanEnd};
use crate::spare_parts::SpareParts;
use edi_record::{Blocks, Kind, Remaking};
use edi_schema::{ClassRef, Role};
use std::alloc::AllocError;

/// A record of a plan but for its parts.
#[derive(Clone, Copy)]
pub(crate) struct PlanHead {
    pub(crate) kind: Kind,
    pub(crate) class: ClassRef,
    pub(crate) role: Role,
}

/// The records of a plan, by their places.
pub(crate) type RecordList = Blocks<PlanHead, PlanAttribute, PlanEnd>;

/// The records of a plan and those of the sheet that are left, while the plan is made.
pub(crate) type PlanRemaking = Remaking<PlanHead, PlanAttribute, PlanEnd>;

/// A record of a plan but for its points and its extra zones, which are those of the sheet's record.
#[derive(Drop)]
pub(crate) struct PlannedRecord {
    pub(crate) head: PlanHead,
    pub(crate) attributes: Vec<PlanAttribute>,
    pub(crate) ends: Vec<PlanEnd>,
}

impl PlannedRecord {
    /// Makes this of the first record that is left. Its lists, emptied, are the answer.
    pub(crate) fn put(self, remaking: &mut PlanRemaking) -> Result<SpareParts, AllocError>
        requires { 0 < length remaking.old.left }
        ensures { OnOk result ((r : Record) × (remaking.old.left ≡ r ∷ remaking.new.left)
            × (plan_records_of remaking.new.made ≡ plan_records_of remaking.old.made ++ planned_with self r ∷ [])) }
    {
        let PlannedRecord {
            head,
            mut attributes,
            mut ends,
        } = self;
        remaking.put(head, &mut attributes, &mut ends)?;
        Ok(SpareParts { attributes, ends })
    }
}
