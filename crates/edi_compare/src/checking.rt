//! Checking pairings.

ghost use Rattle.std.specs.Prelude.{◌≡◌, ◌↔◌, ◌<◌, ℕ, IsTrue, IfOk, IfSome, MatchOption, false, length, slice_index, slice_index_or, true};
ghost use Rattle.edi_plan.specs.Plans.{IsPlace};
ghost use Rattle.edi_compare.specs.inner.Checking.{AgreeAt, AreCarried, AreMarked, IsCarriedAt, IsUnlikeAt, IsWrongAt, FailsBy};
ghost use Rattle.edi_compare.specs.Uncarried.{IsUncarriedBy};
ghost use Rattle.edi_compare.specs.declared.uncarried.RecordPart.{RecordPart as Part};
ghost use Rattle.edi_plan.specs.Agreeing.{HasClasses};
ghost use Rattle.edi_compare.specs.Pairings.{PairingCarries};

use crate::accepted::Accepted;
use crate::carrier::Carrier;
use crate::contents::same_texts;
use crate::pairing::Pairing;
use crate::uncarried::{RecordPart, Uncarried, WrongPartner};
use edi_schema::Schema;
use std::alloc::{AllocError, Global};

/// Whether a pairing carries the first plan onto the second, of two sheets that were accepted under
/// this schema: it has an entry for each record of the first and takes these one to one onto the
/// records of the second; it turns arcs alone; and after these reversals each record is the one that it
/// goes to, but for the order of attributes and of the ends behind the origin. A true answer asks for
/// no trust in where the pairing came from. It fails only if memory runs out.
pub fn check_pairing(
    alloc: Global,
    schema: &Schema,
    first: &Accepted,
    second: &Accepted,
    pairing: &Pairing,
) -> Result<bool, AllocError>
    requires { HasClasses schema.now first.now }
    ensures { IfOk result (λ answer. IsTrue answer ↔ PairingCarries schema.now first.now second.now pairing.now) }
{
    match find_uncarried(alloc, schema, first, second, pairing)? {
        Some(_) => Ok(false),
        None => Ok(true),
    }
}

/// Why a pairing doesn't carry the first plan onto the second, of two sheets that were accepted under this schema, or
/// nothing where it carries: `check_pairing` is this, without the reason. It fails only if memory runs out.
pub fn find_uncarried(
    alloc: Global,
    schema: &Schema,
    first: &Accepted,
    second: &Accepted,
    pairing: &Pairing,
) -> Result<Option<Uncarried>, AllocError>
    requires { HasClasses schema.now first.now }
    ensures none { IfOk result (λ why. MatchOption why (PairingCarries schema.now first.now second.now pairing.now)
        (λ _. ¬ (PairingCarries schema.now first.now second.now pairing.now))) }
    ensures first { IfOk result (λ why. IfSome why (IsUncarriedBy schema.now first.now second.now pairing.now)) }
{
    let plan = first.sound().plan();
    let other = second.sound().plan();
    let to = pairing.to.as_slice();
    let turned = pairing.turned.as_slice();
    if to.len() != plan.len() as usize || turned.len() != plan.len() as usize {
        return Ok(Some(Uncarried::Entries));
    }
    if !same_texts(other.cse(), plan.cse()) {
        return Ok(Some(Uncarried::CharacterSets));
    }
    let carrier = Carrier {
        schema,
        plan,
        other,
        to,
        turned,
    };
    carrier.first_stop(alloc)
}

impl<'a> Carrier<'a> {
    /// The first record that isn't carried, or else the first of the second plan to which none goes.
    fn first_stop(&self, alloc: Global) -> Result<Option<Uncarried>, AllocError>
        ensures { IfOk result (λ why. MatchOption why (AreCarried self.now) (FailsBy self.now)) }
    {
        let mut marks = vec![in alloc; false; self.other.len() as usize]?;
        for place in 0..self.plan.len() {
            if let Some(why) = self.why_wrong(alloc, place, &marks)? {
                return Ok(Some(Uncarried::Record { place, why }));
            }
            marks[self.to[place as usize] as usize] = true;
        }
        match self.first_unmarked(&marks) {
            Some(place) => Ok(Some(Uncarried::Unmet { place })),
            None => Ok(None),
        }
    }

    /// The first place of the second plan that has no mark.
    fn first_unmarked(&self, marks: &[bool]) -> Option<u32>
        requires { length marks.now ≡ length self.now.other.list }
        ensures { MatchOption result ((j : ℕ) → IsPlace self.now.other j → slice_index_or marks.now j false ≡ true)
            (λ j. IsPlace self.now.other j × (slice_index_or marks.now j false ≡ false)
            × ((l : ℕ) → l < j → slice_index_or marks.now l false ≡ true)) }
    {
        for place in 0..self.other.len() {
            if !marks[place as usize] {
                return Some(place);
            }
        }
        None
    }

    /// Why a record isn't carried, if it isn't. The marks are where the records before it go.
    fn why_wrong(
        &self,
        alloc: Global,
        place: u32,
        marks: &[bool],
    ) -> Result<Option<WrongPartner>, AllocError>
        requires place { IsPlace self.now.plan place }
        requires marks { AreMarked (slice_index self.now.to) marks.now (length self.now.other.list) place }
        ensures { IfOk result (λ why. MatchOption why (IsCarriedAt self.now place) (IsWrongAt self.now place)) }
    {
        let target = self.to[place as usize];
        if target >= self.other.len() {
            return Ok(Some(WrongPartner::Nowhere));
        }
        if marks[target as usize] {
            let earlier = self.first_to(place, target);
            return Ok(Some(WrongPartner::Shared { earlier }));
        }
        match self.part_unlike(alloc, place, target)? {
            Some(part) => Ok(Some(WrongPartner::Unlike { part })),
            None => Ok(None),
        }
    }

    /// The first record that goes to a place, where one before this does.
    fn first_to(&self, place: u32, target: u32) -> u32
        requires place { IsPlace self.now.plan place }
        requires some { (k : ℕ) × (k < place) × (slice_index self.now.to k ≡ target) }
        ensures before { result < place }
        ensures is { slice_index self.now.to result ≡ target }
    {
        for earlier in 0..place {
            if self.to[earlier as usize] == target {
                return earlier;
            }
        }
        unreachable!()
    }

    /// The first part in which a record and one of the second plan differ.
    fn part_unlike(
        &self,
        alloc: Global,
        place: u32,
        target: u32,
    ) -> Result<Option<RecordPart>, AllocError>
        requires place { IsPlace self.now.plan place }
        requires target { IsPlace self.now.other target }
        ensures { IfOk result (λ part.
            MatchOption part ((p : Part) → AgreeAt self.now place target p) (IsUnlikeAt self.now place target)) }
    {
        if !self.agrees_in(alloc, place, target, RecordPart::Reversal)? {
            return Ok(Some(RecordPart::Reversal));
        }
        self.first_unlike(alloc, place, target)
    }
}
