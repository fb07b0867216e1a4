//! The parts in which records and those that they became differ.

ghost use Rattle.std.specs.Prelude.{◌≡◌, ◌↔◌, ℕ, IfOk, IsTrue, length};
ghost use Rattle.std.specs.List.{AllByRecursion};
ghost use Rattle.edi_plan.specs.Plans.{IsPlace, record_at};
ghost use Rattle.edi_plan.specs.Agreeing.{HasClasses};
ghost use Rattle.edi_matching.specs.Matchings.{GoesTo, IsMatched};
ghost use Rattle.edi_report.specs.Reports.{parts_at};
ghost use Rattle.edi_diff.specs.Changes.{AreChanges, ArePartsOfEach, HasEndsOf};
ghost use Rattle.edi_diff.specs.inner.Comparisons.{ArePartsAt, became};

use edi_compare::{Carrier, RecordPart};
use edi_matching::Matching;
use edi_matching::places::targets_of;
use edi_matching::record::all_matched;
use edi_plan::Plan;
use edi_report::{DifferingParts, NO_PARTS};
use edi_schema::Schema;
use std::alloc::{AllocError, Global};
use std::marker::Model;

/// For each record of the first plan the parts in which it differs from the one that it became, if it changed.
pub(crate) fn parts_of<'a>(
    alloc: Global,
    schema: &'a Schema,
    plan: &'a Plan,
    other: &'a Plan,
    unchanged: &'a Matching,
    became: &'a Matching,
) -> Result<Vec<DifferingParts>, AllocError>
    requires classes { HasClasses schema.now plan.now }
    requires long { length unchanged.now.to ≡ length plan.now.list }
    requires changes { AreChanges plan.now other.now unchanged.now became.now }
    ensures { IfOk result (λ parts. ArePartsOfEach schema.now plan.now other.now unchanged.now became.now parts.items) }
{
    let targets = targets_of(alloc, became.to.as_slice())?;
    let compared = PlanComparison {
        carrier: Carrier {
            schema,
            plan,
            other,
            to: &targets,
            turned: became.turned.as_slice(),
        },
        unchanged: unchanged.to.as_slice(),
        to: became.to.as_slice(),
    };
    compared.all_parts(alloc)
}

/// Two plans, what is unchanged of the first and what became of it. The carrier has the same places, with 0 for a
/// record that became nothing.
#[derive(Drop)]
struct PlanComparison<'a> {
    carrier: Carrier<'a>,
    unchanged: &'a [Option<u32>],
    to: &'a [Option<u32>],
}

impl<'a> Model for PlanComparison<'a> {
    ghost use Rattle.edi_diff.specs.inner.Comparisons.{Comparison, IsComparable};

    ghost Value = { Comparison };

    ghost view = { λ p. record { carried = p.carrier; unchanged = p.unchanged.now; to = p.to.now } };

    ghost invariant = { λ p.
        IsComparable (record { carried = p.carrier; unchanged = p.unchanged.now; to = p.to.now }) };
}

impl<'a> PlanComparison<'a> {
    /// The parts of each record, none for one that is unchanged or became nothing.
    fn all_parts(&self, alloc: Global) -> Result<Vec<DifferingParts>, AllocError>
        ensures { IfOk result (λ parts. (i j : ℕ) → ¬ (IsMatched self.now.unchanged i) → GoesTo self.now.to i j
            → ArePartsAt self.now i j (parts_at parts.items i)) }
    {
        let mut parts = Vec::with_capacity(alloc, self.carrier.plan.len() as usize)?;
        for place in 0..self.carrier.plan.len() {
            parts.push(self.parts_at(alloc, place)?)?;
        }
        Ok(parts)
    }

    /// The parts of one record.
    fn parts_at(&self, alloc: Global, place: u32) -> Result<DifferingParts, AllocError>
        requires { IsPlace self.now.carried.plan place }
        ensures { IfOk result (λ parts. (j : ℕ) → ¬ (IsMatched self.now.unchanged place) → GoesTo self.now.to place j
            → ArePartsAt self.now place j parts) }
    {
        if self.unchanged[place as usize].is_some() {
            return Ok(NO_PARTS);
        }
        match self.to[place as usize] {
            Some(target) => self.parts_between(alloc, place, target),
            None => Ok(NO_PARTS),
        }
    }

    /// The parts in which a record and one of the other plan differ.
    fn parts_between(
        &self,
        alloc: Global,
        place: u32,
        target: u32,
    ) -> Result<DifferingParts, AllocError>
        requires place { IsPlace self.now.carried.plan place }
        requires target { IsPlace self.now.carried.other target }
        ensures { IfOk result (ArePartsAt self.now place target) }
    {
        let carrier = &self.carrier;
        let class = carrier.agrees_in(alloc, place, target, RecordPart::Class)?;
        let attributes = carrier.agrees_in(alloc, place, target, RecordPart::Attributes)?;
        let extras = carrier.agrees_in(alloc, place, target, RecordPart::Extras)?;
        let points = carrier.agrees_in(alloc, place, target, RecordPart::Points)?;
        let ends = self.has_same_ends(alloc, place, target)?;
        Ok(DifferingParts {
            class: !class,
            attributes: !attributes,
            extras: !extras,
            points: !points,
            ends: !ends,
        })
    }

    /// Whether each end of a record became one of the other plan, and the other record has these.
    fn has_same_ends(&self, alloc: Global, place: u32, target: u32) -> Result<bool, AllocError>
        requires place { IsPlace self.now.carried.plan place }
        requires target { IsPlace self.now.carried.other target }
        ensures { IfOk result (λ answer. IsTrue answer ↔ HasEndsOf (became self.now)
            (record_at self.now.carried.plan place) (record_at self.now.carried.other target)) }
    {
        if !self.has_matched_ends(place) {
            return Ok(false);
        }
        self.carrier
            .agrees_in(alloc, place, target, RecordPart::Ends)
    }

    /// Whether each end of a record became one of the other plan.
    fn has_matched_ends(&self, place: u32) -> bool
        requires { IsPlace self.now.carried.plan place }
        ensures { IsTrue result
            ↔ AllByRecursion (λ e. IsMatched self.now.to e.target) (record_at self.now.carried.plan place).ends }
    {
        let plan = self.carrier.plan;
        plan.keeps();
        all_matched(self.to, plan.ends(place))
    }
}
