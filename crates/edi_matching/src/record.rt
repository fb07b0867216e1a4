//! Whether each record of a plan is the one that it goes to.

ghost use Rattle.std.specs.Prelude.{◌≡◌, ◌↔◌, ◌<◌, ℕ, IfOk, IsTrue, length, true};
ghost use Rattle.std.specs.List.{AllByRecursion};
ghost use Rattle.edi_record.specs.declared.record.Kind.TheVariants.{Par};
ghost use Rattle.edi_plan.specs.Agreeing.{HasClasses};
ghost use Rattle.edi_plan.specs.Plans.{IsPlace, record_at};
ghost use Rattle.edi_rank.specs.Labelling.{turned_at};
ghost use Rattle.edi_matching.specs.Matchings.{GoesTo, IsMatched, targets_of};
ghost use Rattle.edi_matching.specs.inner.Proposals.{HoldsAt, IsCarriedOnto, proposal_of};

use crate::matching::Matching;
use edi_compare::{Accepted, Carrier};
use edi_plan::{Plan, PlanEnd};
use edi_record::Kind;
use edi_schema::Schema;
use std::alloc::{AllocError, Global};
use std::marker::Model;

/// Two plans, and for each record of the first where it goes in the second, if anywhere, and whether it is turned. The
/// targets have 0 for a record that goes nowhere.
#[derive(Drop)]
pub(crate) struct Proposed<'a> {
    pub(crate) schema: &'a Schema,
    pub(crate) plan: &'a Plan,
    pub(crate) other: &'a Plan,
    pub(crate) to: &'a [Option<u32>],
    pub(crate) targets: &'a [u32],
    pub(crate) turned: &'a [bool],
}

impl<'a> Model for Proposed<'a> {
    ghost use Rattle.edi_matching.specs.inner.Proposals.{ProposedMatching, IsWithinPlans};

    ghost Value = { ProposedMatching };

    ghost view = { λ p. record {
      classes = p.schema.now;
      plan = p.plan.now;
      other = p.other.now;
      to = p.to.now;
      targets = p.targets.now;
      turned = p.turned.now;
    } };

    ghost invariant = { λ p. IsWithinPlans (record {
      classes = p.schema.now;
      plan = p.plan.now;
      other = p.other.now;
      to = p.to.now;
      targets = p.targets.now;
      turned = p.turned.now;
    }) };
}

impl<'a> Proposed<'a> {
    /// What a matching of two sheets proposes, where these are its targets.
    pub(crate) fn of(
        schema: &'a Schema,
        first: &'a Accepted,
        second: &'a Accepted,
        matching: &'a Matching,
        targets: &'a [u32],
    ) -> Proposed<'a>
        requires classes { HasClasses schema.now first.now }
        requires entered { length matching.now.to ≡ length first.now.list }
        requires directed { length matching.now.turned ≡ length first.now.list }
        requires within { (i j : ℕ) → GoesTo matching.now.to i j → IsPlace second.now j }
        requires targets { targets.now ≡ targets_of matching.now.to }
        ensures { result ≡ proposal_of schema.now first.now second.now matching.now }
    {
        Proposed {
            schema,
            plan: first.sound().plan(),
            other: second.sound().plan(),
            to: matching.to.as_slice(),
            targets,
            turned: matching.turned.as_slice(),
        }
    }

    /// Whether what is asked of a record holds of each.
    pub(crate) fn all_hold(&self, alloc: Global) -> Result<bool, AllocError>
        ensures { IfOk result (λ answer. IsTrue answer ↔ ((i : ℕ) → IsPlace self.now.plan i → HoldsAt self.now i)) }
    {
        for place in 0..self.plan.len() {
            if !self.holds_at(alloc, place)? {
                return Ok(false);
            }
        }
        Ok(true)
    }

    /// Whether what is asked of a record holds.
    fn holds_at(&self, alloc: Global, place: u32) -> Result<bool, AllocError>
        requires { IsPlace self.now.plan place }
        ensures { IfOk result (λ answer. IsTrue answer ↔ HoldsAt self.now place) }
    {
        match self.to[place as usize] {
            Some(target) => self.holds_there(alloc, place, target),
            None => Ok(!self.turned[place as usize]),
        }
    }

    /// Whether what is asked of a record that goes to this place holds.
    fn holds_there(&self, alloc: Global, place: u32, target: u32) -> Result<bool, AllocError>
        requires place { IsPlace self.now.plan place }
        requires goes { GoesTo self.now.to place target }
        requires there { IsPlace self.now.other target }
        ensures { IfOk result (λ answer. IsTrue answer ↔ HoldsAt self.now place) }
    {
        if !self.may_turn(place) || !self.has_matched_ends(place) {
            return Ok(false);
        }
        self.is_carried(alloc, place, target)
    }

    /// Whether each end of a record is matched.
    pub(crate) fn has_matched_ends(&self, place: u32) -> bool
        requires { IsPlace self.now.plan place }
        ensures { IsTrue result
            ↔ AllByRecursion (λ e. IsMatched self.now.to e.target) (record_at self.now.plan place).ends }
    {
        self.plan.keeps();
        all_matched(self.to, self.plan.ends(place))
    }

    /// Whether a record is an arc if it is turned.
    fn may_turn(&self, place: u32) -> bool
        requires { IsPlace self.now.plan place }
        ensures { IsTrue result
            ↔ (turned_at self.now.turned place ≡ true → (record_at self.now.plan place).kind ≡ Par) }
    {
        !self.turned[place as usize] || self.plan.kind(place) == Kind::Par
    }

    /// Whether the record is carried onto the one at this place of the other plan.
    pub(crate) fn is_carried(
        &self,
        alloc: Global,
        place: u32,
        target: u32,
    ) -> Result<bool, AllocError>
        requires place { IsPlace self.now.plan place }
        requires target { IsPlace self.now.other target }
        ensures { IfOk result (λ answer. IsTrue answer ↔ IsCarriedOnto self.now place target) }
    {
        let carrier = Carrier {
            schema: self.schema,
            plan: self.plan,
            other: self.other,
            to: self.targets,
            turned: self.turned,
        };
        match carrier.first_unlike(alloc, place, target)? {
            Some(_) => Ok(false),
            None => Ok(true),
        }
    }
}

/// Whether each end of a link is matched.
pub fn all_matched(to: &[Option<u32>], ends: &[PlanEnd]) -> bool
    requires { AllByRecursion (λ e. e.target < length to.now) ends.now }
    ensures { IsTrue result ↔ AllByRecursion (λ e. IsMatched to.now e.target) ends.now }
{
    for end in ends {
        if to[end.target as usize].is_none() {
            return false;
        }
    }
    true
}
