//! Whether records of a plan are those that they go to in another.

ghost use Rattle.std.specs.Prelude.{◌↔◌, IfOk, IfSome, IsTrue, MatchOption};
ghost use Rattle.edi_plan.specs.Plans.{IsPlace};
ghost use Rattle.edi_compare.specs.inner.Checking.{AgreeAt, IsCarriedTo, IsUnlikeAt};
ghost use Rattle.edi_compare.specs.declared.uncarried.RecordPart.TheVariants.{Reversal};

use crate::contents::{same_attributes, same_extras, same_points};
use crate::moved_ends::same_ends;
use crate::uncarried::RecordPart;
use edi_plan::Plan;
use edi_rank::class_after_reversals;
use edi_record::Kind;
use edi_schema::Schema;
use std::alloc::{AllocError, Global};
use std::marker::Model;

/// Two plans of one schema, and for each record of the first where it goes in the second and whether it is turned.
#[derive(Drop)]
pub struct Carrier<'a> {
    pub schema: &'a Schema,
    pub plan: &'a Plan,
    pub other: &'a Plan,
    pub to: &'a [u32],
    pub turned: &'a [bool],
}

impl<'a> Model for Carrier<'a> {
    ghost use Rattle.edi_compare.specs.inner.Checking.{PairedPlans, HasEntryForEach};

    ghost Value = { PairedPlans };

    ghost view = { λ p. record {
      classes = p.schema.now;
      plan = p.plan.now;
      other = p.other.now;
      to = p.to.now;
      turned = p.turned.now;
    } };

    ghost invariant = { λ p. HasEntryForEach (record {
      classes = p.schema.now;
      plan = p.plan.now;
      other = p.other.now;
      to = p.to.now;
      turned = p.turned.now;
    }) };
}

impl<'a> Carrier<'a> {
    /// The first part behind `RecordPart::Reversal` in which a record and one of the second plan differ.
    pub fn first_unlike(
        &self,
        alloc: Global,
        place: u32,
        target: u32,
    ) -> Result<Option<RecordPart>, AllocError>
        requires place { IsPlace self.now.plan place }
        requires target { IsPlace self.now.other target }
        ensures none { IfOk result (λ part. MatchOption part (IsCarriedTo self.now place target)
            (λ _. ¬ (IsCarriedTo self.now place target))) }
        ensures first { IfOk result (λ part. IfSome part
            (λ p. AgreeAt self.now place target Reversal → IsUnlikeAt self.now place target p)) }
    {
        if !self.agrees_in(alloc, place, target, RecordPart::Kind)? {
            return Ok(Some(RecordPart::Kind));
        }
        if !self.agrees_in(alloc, place, target, RecordPart::Class)? {
            return Ok(Some(RecordPart::Class));
        }
        if !self.agrees_in(alloc, place, target, RecordPart::Points)? {
            return Ok(Some(RecordPart::Points));
        }
        if !self.agrees_in(alloc, place, target, RecordPart::Extras)? {
            return Ok(Some(RecordPart::Extras));
        }
        if !self.agrees_in(alloc, place, target, RecordPart::Attributes)? {
            return Ok(Some(RecordPart::Attributes));
        }
        if !self.agrees_in(alloc, place, target, RecordPart::Ends)? {
            return Ok(Some(RecordPart::Ends));
        }
        Ok(None)
    }

    /// Whether a record and one of the second plan agree in a part.
    pub fn agrees_in(
        &self,
        alloc: Global,
        place: u32,
        target: u32,
        part: RecordPart,
    ) -> Result<bool, AllocError>
        requires place { IsPlace self.now.plan place }
        requires target { IsPlace self.now.other target }
        ensures { IfOk result (λ answer. IsTrue answer ↔ AgreeAt self.now place target part) }
    {
        let turned = self.turned[place as usize];
        match part {
            RecordPart::Reversal => Ok(!turned || self.plan.kind(place) == Kind::Par),
            RecordPart::Kind => Ok(self.other.kind(target) == self.plan.kind(place)),
            RecordPart::Class => Ok(
                self.other.scp(target)
                    == class_after_reversals(self.schema, self.plan, self.turned, place),
            ),
            RecordPart::Points => Ok(same_points(
                self.plan.points(place),
                turned,
                self.other.points(target),
            )),
            RecordPart::Extras => Ok(same_extras(
                self.plan.extras(place),
                self.other.extras(target),
            )),
            RecordPart::Attributes => same_attributes(
                alloc,
                self.plan.attributes(place),
                self.other.attributes(target),
            ),
            RecordPart::Ends => {
                self.plan.keeps();
                same_ends(
                    alloc,
                    self.to,
                    self.plan.ends(place),
                    self.other.ends(target),
                )
            }
        }
    }
}
