//! Links that a matching leaves out, though their ends are matched. Each is matched with one that is left out too, if
//! it is carried onto it.

ghost use Rattle.std.specs.Prelude.{◌≡◌, ◌↔◌, ◌<◌, ℕ, Bool, List, IfOk, IsSorted, IsTrue, false, length, map, slice_index, slice_index_or, true};
ghost use Rattle.std.specs.Ordering.{nat_cmp, ordering_then};
ghost use Rattle.std.specs.List.{AllByRecursion};
ghost use Rattle.edi_record.specs.declared.record.Kind.TheVariants.{Lnk};
ghost use Rattle.edi_schema.specs.Sorted.{sort_by};
ghost use Rattle.edi_plan.specs.Agreeing.{HasClasses};
ghost use Rattle.edi_plan.specs.Plans.{IsPlace, record_at};
ghost use Rattle.edi_plan.specs.Whole.{IsWholePlan};
ghost use Rattle.edi_rank.specs.Keys.{end_cmp, ends_key, link_key_cmp, numbered};
ghost use Rattle.edi_matching.specs.Differences.{MatchesLinks};
ghost use Rattle.edi_matching.specs.Matchings.{IsMatched, MatchingHolds, targets_of};
ghost use Rattle.edi_matching.specs.inner.Links.{AddsOnly, AreReached, IsLeftIfAny, IsMarked, IsMissedIfAny, IsMoreReached, ListsFree, key_there, matching_so, moved_key};

use crate::entries::link_key;
use crate::keys::member_with;
use crate::matching::Matching;
use crate::places::targets_of;
use crate::record::Proposed;
use edi_compare::Accepted;
use edi_line::Sequence;
use edi_plan::{Plan, PlanEnd};
use edi_rank::{LinkKey, NumberedEnd, class_after_reversals, numbered_end};
use edi_record::Kind;
use edi_schema::{ClassRef, Schema};
use std::alloc::{AllocError, Global};

/// A matching that matches what this one does, and leaves out no link together with one that it is carried onto.
pub(crate) fn with_all_links(
    alloc: Global,
    schema: &Schema,
    first: &Accepted,
    second: &Accepted,
    matching: Matching,
) -> Result<Matching, AllocError>
    requires classes { HasClasses schema.now first.now }
    requires holds { MatchingHolds schema.now first.now second.now matching }
    ensures holds { IfOk result (MatchingHolds schema.now first.now second.now) }
    ensures adds { IfOk result (AddsOnly Lnk first.now matching) }
    ensures links { IfOk result (MatchesLinks schema.now first.now second.now) }
{
    first.sound().plan().keeps();
    second.sound().plan().keeps();
    let targets = targets_of(alloc, matching.to.as_slice())?;
    let proposed = Proposed::of(schema, first, second, &matching, &targets);
    let to = proposed.with_links(alloc)?;
    Ok(Matching {
        to: Sequence::from_vec(to),
        turned: matching.into_turned(),
    })
}

impl<'a> Proposed<'a> {
    /// Where the records go, with the links that are left out and carried onto others that are.
    fn with_links(&self, alloc: Global) -> Result<Vec<Option<u32>>, AllocError>
        requires whole { IsWholePlan self.now.plan }
        requires targets { self.now.targets ≡ targets_of self.now.to }
        requires holds { MatchingHolds self.now.classes self.now.plan self.now.other
            (matching_so self.now self.now.to) }
        ensures holds { IfOk result (λ to.
            MatchingHolds self.now.classes self.now.plan self.now.other (matching_so self.now to.items)) }
        ensures adds { IfOk result (λ to.
            AddsOnly Lnk self.now.plan (matching_so self.now self.now.to) (matching_so self.now to.items)) }
        ensures links { IfOk result (λ to.
            MatchesLinks self.now.classes self.now.plan self.now.other (matching_so self.now to.items)) }
    {
        let mut to = Vec::from_slice(alloc, self.to)?;
        let mut reached = reached_places(alloc, self.to, self.other.len())?;
        let links = free_links(alloc, self.other, &reached)?;
        for place in self.plan.places(Kind::Lnk) {
            match self.link_for(alloc, &links, &reached, &to, *place)? {
                Some(target) => {
                    to[*place as usize] = Some(target);
                    reached[target as usize] = true;
                }
                None => {}
            }
        }
        Ok(to)
    }

    /// A link onto which this one is carried with all its ends, and that is not reached, if this one goes nowhere yet.
    fn link_for(
        &self,
        alloc: Global,
        links: &[(LinkKey<'_>, u32)],
        reached: &[bool],
        to: &[Option<u32>],
        place: u32,
    ) -> Result<Option<u32>, AllocError>
        requires place { IsPlace self.now.plan place }
        requires link { (record_at self.now.plan place).kind ≡ Lnk }
        requires whole { IsWholePlan self.now.plan }
        requires targets { self.now.targets ≡ targets_of self.now.to }
        requires holds { MatchingHolds self.now.classes self.now.plan self.now.other
            (matching_so self.now self.now.to) }
        requires sorted { IsSorted (λ x y. ordering_then (link_key_cmp x.0 y.0) (nat_cmp x.1 y.1)) links.now }
        requires lists { (free : List Bool) × ListsFree self.now.other free links.now × IsMoreReached free reached.now }
        requires long { length to.now ≡ length self.now.plan.list }
        ensures { IfOk result (IsLeftIfAny self.now reached.now to.now place) }
    {
        if to[place as usize].is_some() || !self.has_matched_ends(place) {
            return Ok(None);
        }
        let key = self.key(alloc, place)?;
        if member_with(links, &key).is_none() {
            return Ok(None);
        }
        self.first_missed(alloc, reached, place)
    }

    /// What a link is sought by.
    fn key(&self, alloc: Global, place: u32) -> Result<LinkKey<'a>, AllocError>
        requires { IsPlace self.now.plan place }
        ensures { IfOk result (λ key. key ≡ key_there self.now place) }
    {
        let class = class_after_reversals(self.schema, self.plan, self.turned, place);
        moved_key(alloc, self.plan, self.targets, class, place)
    }

    /// The first record onto which this one is carried, and that is not reached.
    fn first_missed(
        &self,
        alloc: Global,
        reached: &[bool],
        place: u32,
    ) -> Result<Option<u32>, AllocError>
        requires place { IsPlace self.now.plan place }
        requires ends { AllByRecursion (λ e. IsMatched self.now.to e.target) (record_at self.now.plan place).ends }
        ensures { IfOk result (IsMissedIfAny self.now reached.now place) }
    {
        for target in 0..self.other.len() {
            if is_free(reached, target) && self.is_carried(alloc, place, target)? {
                return Ok(Some(target));
            }
        }
        Ok(None)
    }
}

/// Whether a place isn't marked.
pub(crate) fn is_free(reached: &[bool], place: u32) -> bool
    ensures { IsTrue result ↔ (slice_index_or reached.now place true ≡ false) }
{
    match reached.get(place as usize) {
        Some(is_reached) => !*is_reached,
        None => false,
    }
}

/// The places, of so many, to which records go.
pub(crate) fn reached_places(
    alloc: Global,
    to: &[Option<u32>],
    count: u32,
) -> Result<Vec<bool>, AllocError>
    ensures { IfOk result (λ reached. AreReached to.now count reached.items) }
{
    let mut reached = vec![in alloc; false; count as usize]?;
    for target in to {
        mark(&mut reached, *target);
    }
    Ok(reached)
}

/// Marks a place, if there is one.
fn mark(reached: &mut [bool], target: Option<u32>)
    ensures { IsMarked target reached.old reached.new }
{
    if let Some(target) = target
        && (target as usize) < reached.len()
    {
        reached[target as usize] = true;
    }
}

/// The links that are not reached, by their keys.
fn free_links<'b>(
    alloc: Global,
    other: &'b Plan,
    reached: &[bool],
) -> Result<Vec<(LinkKey<'b>, u32)>, AllocError>
    requires { length reached.now ≡ length other.now.list }
    ensures lists { IfOk result (λ links. ListsFree other.now reached.now links.items) }
    ensures sorted { IfOk result (λ links.
        IsSorted (λ x y. ordering_then (link_key_cmp x.0 y.0) (nat_cmp x.1 y.1)) links.items) }
{
    other.keeps();
    let mut links = Vec::new(alloc);
    let itself = each_to_itself(alloc, other)?;
    for place in other.places(Kind::Lnk) {
        if is_free(reached, *place) {
            let key = moved_key(alloc, other, &itself, other.scp(*place), *place)?;
            links.push((key, *place))?;
        }
    }
    links.sort_unstable();
    Ok(links)
}

/// Each place goes to itself.
fn each_to_itself(alloc: Global, plan: &Plan) -> Result<Vec<u32>, AllocError>
    ensures long { IfOk result (λ itself. length itself.items ≡ length plan.now.list) }
    ensures each { IfOk result (λ itself. (k : ℕ) → k < length plan.now.list → slice_index itself.items k ≡ k) }
{
    let mut itself = Vec::with_capacity(alloc, plan.len() as usize)?;
    for place in 0..plan.len() {
        itself.push(place)?;
    }
    Ok(itself)
}

/// What a link is sought by: this class, where its ends go, its attributes and its extra zones.
fn moved_key<'b>(
    alloc: Global,
    plan: &'b Plan,
    targets: &[u32],
    class: ClassRef,
    place: u32,
) -> Result<LinkKey<'b>, AllocError>
    requires place { IsPlace plan.now place }
    requires long { length targets.now ≡ length plan.now.list }
    ensures { IfOk result (λ key. key ≡ moved_key plan.now (slice_index targets.now) class (record_at plan.now place)) }
{
    plan.keeps();
    let ends = moved_ends(alloc, plan, targets, plan.ends(place))?;
    link_key(alloc, plan, place, class, ends)
}

/// The ends of a link where they go: the origin, and the others in order.
fn moved_ends<'b>(
    alloc: Global,
    plan: &Plan,
    targets: &[u32],
    ends: &'b [PlanEnd],
) -> Result<Vec<NumberedEnd<'b>>, AllocError>
    requires places { AllByRecursion (λ e. IsPlace plan.now e.target) ends.now }
    requires long { length targets.now ≡ length plan.now.list }
    ensures { IfOk result (λ moved. moved.items ≡ ends_key plan.now (slice_index targets.now) ends.now) }
{
    let Some((origin, others)) = ends.split_first() else {
        return Ok(Vec::new(alloc));
    };
    let mut moved = sorted_others(alloc, plan, targets, others)?;
    moved.insert(0, numbered_end(plan, targets, origin))?;
    Ok(moved)
}

/// Ends where they go, in order.
fn sorted_others<'b>(
    alloc: Global,
    plan: &Plan,
    targets: &[u32],
    ends: &'b [PlanEnd],
) -> Result<Vec<NumberedEnd<'b>>, AllocError>
    requires places { AllByRecursion (λ e. IsPlace plan.now e.target) ends.now }
    requires long { length targets.now ≡ length plan.now.list }
    ensures { IfOk result (λ moved. moved.items
        ≡ sort_by end_cmp (map (numbered plan.now (slice_index targets.now)) ends.now)) }
{
    let mut moved = Vec::with_capacity(alloc, ends.len())?;
    for end in ends {
        moved.push(numbered_end(plan, targets, end))?;
    }
    moved.sort_unstable();
    Ok(moved)
}
