//! What records open with, looked up for several of them at once.

ghost use Rattle.std.specs.Prelude.{◌≡◌, map, OnOk};
ghost use Rattle.std.specs.List.{AllByRecursion};
ghost use Rattle.edi_plan.specs.Plans.{IsPlace};
ghost use Rattle.edi_write.specs.inner.Openings.{opening_of};

use crate::labelled_plan::LabelledPlan;
use edi_rank::class_after_reversals;
use edi_record::Kind;
use edi_schema::ClassRef;
use std::alloc::AllocError;

/// For how many records this is looked up at once.
pub(crate) const BATCH: usize = 16;

/// What is written of a record before its points or ends: its type, its number and its class.
#[derive(Clone, Copy)]
pub(crate) struct Opening {
    pub(crate) place: u32,
    pub(crate) kind: Kind,
    pub(crate) number: u32,
    pub(crate) class: ClassRef,
}

impl<'a> LabelledPlan<'a> {
    /// What the record at a place opens with.
    fn opening(&self, place: u32) -> Opening
        requires { IsPlace self.now.plan place }
        ensures { result ≡ opening_of self.now place }
    {
        Opening {
            place,
            kind: self.plan.kind(place),
            number: self.labels.number(place),
            class: class_after_reversals(self.schema, self.plan, self.labels.turned_arcs(), place),
        }
    }

    /// What the records at these places open with. Records that go by their numbers lie anywhere in a large sheet, and a
    /// processor waits for the memory of several at once only where little is done between.
    pub(crate) fn look_up(
        &self,
        places: &[u32],
        openings: &mut Vec<Opening>,
    ) -> Result<(), AllocError>
        requires { AllByRecursion (IsPlace self.now.plan) places.now }
        ensures { OnOk result (openings.new.items ≡ map (opening_of self.now) places.now) }
    {
        openings.clear();
        for place in places {
            openings.push(self.opening(*place))?;
        }
        Ok(())
    }
}
