//! Faces of matched arcs that a matching leaves out. Each is matched with that on the same side of the arc that its arc
//! goes to, if this is left out too and the one is carried onto the other.

ghost use Rattle.std.specs.Prelude.{◌≡◌, ◌↔◌, ◌<◌, ℕ, IfOk, IsTrue, length};
ghost use Rattle.edi_record.specs.declared.record.Kind.TheVariants.{Par, Pfe};
ghost use Rattle.edi_plan.specs.Agreeing.{HasClasses};
ghost use Rattle.edi_plan.specs.Joined.{IsJoined, beside};
ghost use Rattle.edi_plan.specs.Plans.{IsPlace, record_at};
ghost use Rattle.edi_plan.specs.Whole.{IsWholePlan};
ghost use Rattle.edi_matching.specs.Differences.{MatchesBeside, MatchesFaces, role_there};
ghost use Rattle.edi_matching.specs.Matchings.{IsMatched, MatchingHolds, targets_of};
ghost use Rattle.edi_matching.specs.inner.Contents.{AreContents};
ghost use Rattle.edi_matching.specs.inner.Faces.{AreBesideIfAny, IsForcedIfAny, IsLeftFor};
ghost use Rattle.edi_matching.specs.inner.Links.{AddsOnly, matching_so};

use crate::added::role_if_turned;
use crate::contents::{Contents, numbered_contents};
use crate::entries::{ContentKey, number_of};
use crate::links::{is_free, reached_places};
use crate::matching::Matching;
use crate::places::targets_of;
use crate::record::Proposed;
use edi_compare::Accepted;
use edi_line::Sequence;
use edi_record::Kind;
use edi_schema::{Role, Schema};
use std::alloc::{AllocError, Global};

/// A matching that matches what this one does, and leaves out no face of a matched arc together with that on the same
/// side of the arc it goes to, if the one is carried onto the other.
pub(crate) fn with_all_faces(
    alloc: Global,
    schema: &Schema,
    first: &Accepted,
    second: &Accepted,
    matching: Matching,
) -> Result<Matching, AllocError>
    requires classes { HasClasses schema.now first.now }
    requires holds { MatchingHolds schema.now first.now second.now matching }
    ensures holds { IfOk result (MatchingHolds schema.now first.now second.now) }
    ensures keeps { IfOk result (λ m. (i : ℕ) → IsMatched matching.to i → IsMatched m.to i) }
    ensures faces { IfOk result (MatchesFaces schema.now first.now second.now) }
{
    let plan = first.sound().plan();
    plan.keeps();
    let contents = numbered_contents(alloc, Kind::Pfe, plan, second.sound().plan())?;
    let more = with_faces(
        alloc,
        schema,
        &contents,
        first,
        second,
        matching,
        Role::Left,
    )?;
    with_faces(alloc, schema, &contents, first, second, more, Role::Right)
}

/// The same of the faces on this side of arcs.
fn with_faces(
    alloc: Global,
    schema: &Schema,
    contents: &Contents,
    first: &Accepted,
    second: &Accepted,
    matching: Matching,
    role: Role,
) -> Result<Matching, AllocError>
    requires classes { HasClasses schema.now first.now }
    requires side { beside role ≡ Pfe }
    requires contents { AreContents ⟦<ContentKey<'static> as Ord>⟧.cmp ⟦<ContentKey<'static> as PartialEq>⟧.eq Pfe
        first.now second.now contents.now }
    requires holds { MatchingHolds schema.now first.now second.now matching }
    ensures holds { IfOk result (MatchingHolds schema.now first.now second.now) }
    ensures adds { IfOk result (AddsOnly Pfe first.now matching) }
    ensures faces { IfOk result (MatchesBeside role schema.now first.now second.now) }
{
    first.sound().plan().keeps();
    second.sound().plan().keeps();
    let targets = targets_of(alloc, matching.to.as_slice())?;
    let proposed = Proposed::of(schema, first, second, &matching, &targets);
    let to = proposed.with_faces(alloc, contents, role)?;
    Ok(Matching {
        to: Sequence::from_vec(to),
        turned: matching.into_turned(),
    })
}

impl<'a> Proposed<'a> {
    /// Where the records go, with the faces on this side of arcs that are left out and carried onto others that are.
    fn with_faces(
        &self,
        alloc: Global,
        contents: &Contents,
        role: Role,
    ) -> Result<Vec<Option<u32>>, AllocError>
        requires side { beside role ≡ Pfe }
        requires contents { AreContents ⟦<ContentKey<'static> as Ord>⟧.cmp ⟦<ContentKey<'static> as PartialEq>⟧.eq Pfe
            self.now.plan self.now.other contents.now }
        requires whole { IsWholePlan self.now.plan }
        requires other_whole { IsWholePlan self.now.other }
        requires joined { IsJoined self.now.plan }
        requires other_joined { IsJoined self.now.other }
        requires targets { self.now.targets ≡ targets_of self.now.to }
        requires holds { MatchingHolds self.now.classes self.now.plan self.now.other
            (matching_so self.now self.now.to) }
        ensures holds { IfOk result (λ to.
            MatchingHolds self.now.classes self.now.plan self.now.other (matching_so self.now to.items)) }
        ensures adds { IfOk result (λ to.
            AddsOnly Pfe self.now.plan (matching_so self.now self.now.to) (matching_so self.now to.items)) }
        ensures faces { IfOk result (λ to.
            MatchesBeside role self.now.classes self.now.plan self.now.other (matching_so self.now to.items)) }
    {
        let mut to = Vec::from_slice(alloc, self.to)?;
        let mut reached = reached_places(alloc, self.to, self.other.len())?;
        for arc in self.plan.places(Kind::Par) {
            match self.face_for(alloc, contents, role, &reached, &to, *arc)? {
                Some((face, target)) => {
                    to[face as usize] = Some(target);
                    reached[target as usize] = true;
                }
                None => {}
            }
        }
        Ok(to)
    }

    /// The face on this side of an arc, if it goes nowhere yet, and that on the same side of the arc it goes to, if
    /// this isn't reached and the one is carried onto the other.
    fn face_for(
        &self,
        alloc: Global,
        contents: &Contents,
        role: Role,
        reached: &[bool],
        to: &[Option<u32>],
        arc: u32,
    ) -> Result<Option<(u32, u32)>, AllocError>
        requires side { beside role ≡ Pfe }
        requires contents { AreContents ⟦<ContentKey<'static> as Ord>⟧.cmp ⟦<ContentKey<'static> as PartialEq>⟧.eq Pfe
            self.now.plan self.now.other contents.now }
        requires arc { IsPlace self.now.plan arc }
        requires whole { IsWholePlan self.now.plan }
        requires other_whole { IsWholePlan self.now.other }
        requires joined { IsJoined self.now.plan }
        requires other_joined { IsJoined self.now.other }
        requires long { length to.now ≡ length self.now.plan.list }
        ensures { IfOk result (IsForcedIfAny self.now reached.now to.now role arc) }
    {
        match self.faces_beside(role, arc) {
            Some((face, target)) => {
                if self.is_left_for(alloc, contents, reached, to, face, target)? {
                    Ok(Some((face, target)))
                } else {
                    Ok(None)
                }
            }
            None => Ok(None),
        }
    }

    /// Whether a face goes nowhere yet and is carried onto one that isn't reached. Those whose numbers differ aren't
    /// compared.
    fn is_left_for(
        &self,
        alloc: Global,
        contents: &Contents,
        reached: &[bool],
        to: &[Option<u32>],
        face: u32,
        target: u32,
    ) -> Result<bool, AllocError>
        requires contents { AreContents ⟦<ContentKey<'static> as Ord>⟧.cmp ⟦<ContentKey<'static> as PartialEq>⟧.eq Pfe
            self.now.plan self.now.other contents.now }
        requires face { IsPlace self.now.plan face }
        requires target { IsPlace self.now.other target }
        requires kind { (record_at self.now.plan face).kind ≡ Pfe }
        requires whole { IsWholePlan self.now.plan }
        requires long { length to.now ≡ length self.now.plan.list }
        ensures { IfOk result (λ answer. IsTrue answer ↔ IsLeftFor self.now reached.now to.now face target) }
    {
        if to[face as usize].is_some() || !is_free(reached, target) {
            return Ok(false);
        }
        if number_of(&contents.here, face) != number_of(&contents.there, target) {
            return Ok(false);
        }
        self.is_carried(alloc, face, target)
    }

    /// The face on this side of an arc, and that on the same side of the one it goes to.
    fn faces_beside(&self, role: Role, arc: u32) -> Option<(u32, u32)>
        requires side { beside role ≡ Pfe }
        requires arc { IsPlace self.now.plan arc }
        requires joined { IsJoined self.now.plan }
        requires other_joined { IsJoined self.now.other }
        ensures { AreBesideIfAny self.now role arc result }
    {
        let Some(other) = self.to[arc as usize] else {
            return None;
        };
        let Some(face) = self.plan.side(arc, role) else {
            return None;
        };
        let Some(target) = self.other.side(other, self.role_there(arc, role)) else {
            return None;
        };
        Some((face, target))
    }

    /// What a role of an arc becomes where the arc goes: the exchanged one, if it is reversed.
    fn role_there(&self, arc: u32, role: Role) -> Role
        requires { IsPlace self.now.plan arc }
        ensures { result ≡ role_there (matching_so self.now self.now.to) arc role }
    {
        role_if_turned(role, self.turned[arc as usize])
    }
}
