//! The keys of links.

ghost use Rattle.std.specs.Prelude.{◌≡◌, ◌<◌, ◌++◌, ◌&&◌, ℕ, length, map, None, slice_index, IfOk, IfSome, IsNone, OnOk};
ghost use Rattle.std.specs.List.{AllByRecursion, list_any};
ghost use Rattle.edi_plan.specs.Plans.{IsPlace, record_at, others_of, rest_of};
ghost use Rattle.edi_plan.specs.declared.record.PlanEnd.{PlanEnd as End};
ghost use Rattle.edi_schema.specs.Classes.{partner_of};
ghost use Rattle.edi_schema.specs.Sorted.{sort_by};
ghost use Rattle.edi_plan.specs.Orders.{attribute_cmp};
ghost use Rattle.edi_rank.specs.EndOrder.{GivesEach, PutsInOrder, ends_at};
ghost use Rattle.edi_rank.specs.Keys.{IsPlainLink, ends_key, numbered};
ghost use Rattle.edi_rank.specs.Labelling.{turned_at};
ghost use Rattle.edi_rank.specs.Same.{class_after};
ghost use Rattle.edi_rank.specs.inner.PlacedLinks.{unpacked_end, is_empty, pair_key};

use crate::ends::{end_in_order, numbered_end};
use crate::keys::{LinkKey, NumberedEnd};
use crate::placed_link::{PlainEnd, PlainPair, packed_end};
use edi_line::{BorrowedList, ListOfBorrowed, Sequence};
use edi_plan::{Plan, PlanEnd, sorted_attributes};
use edi_schema::{ClassRef, Role, Schema};
use std::alloc::{AllocError, Global};

/// Appends the other ends of a link in their order.
fn push_others<'a>(
    keys: &mut Vec<NumberedEnd<'a>>,
    plan: &Plan,
    numbers: &[u32],
    order: &[usize],
    others: &'a [PlanEnd],
) -> Result<(), AllocError>
    requires places { AllByRecursion (λ e. IsPlace plan.now e.target) others.now }
    requires numbers { length numbers.now ≡ length plan.now.list }
    requires order { GivesEach order.now others.now }
    ensures { OnOk result (keys.new.items
        ≡ keys.old.items ++ map (numbered plan.now (slice_index numbers.now)) (ends_at order.now others.now)) }
{
    for index in 0..others.len() {
        let end = end_in_order(order, others, index);
        keys.push(numbered_end(plan, numbers, end))?;
    }
    Ok(())
}

/// The origin, and then the other ends in their order.
fn numbered_ends<'a>(
    alloc: Global,
    plan: &Plan,
    numbers: &[u32],
    order: &[usize],
    ends: &'a [PlanEnd],
) -> Result<Vec<NumberedEnd<'a>>, AllocError>
    requires places { AllByRecursion (λ e. IsPlace plan.now e.target) ends.now }
    requires numbers { length numbers.now ≡ length plan.now.list }
    requires order { PutsInOrder plan.now (slice_index numbers.now) order.now (rest_of ends.now) }
    ensures { IfOk result (λ keys. keys.items ≡ ends_key plan.now (slice_index numbers.now) ends.now) }
{
    match ends {
        [origin, others @ ..] => {
            let mut keys = Vec::with_capacity(alloc, ends.len())?;
            keys.push(numbered_end(plan, numbers, origin))?;
            push_others(&mut keys, plan, numbers, order, others)?;
            Ok(keys)
        }
        [] => Ok(Vec::new(alloc)),
    }
}

/// Whether some end is an arc that is turned.
fn ends_at_turned(turned: &[bool], ends: &[PlanEnd]) -> bool
    requires { AllByRecursion (λ e. e.target < length turned.now) ends.now }
    ensures { result ≡ list_any (λ e. turned_at turned.now e.target) ends.now }
{
    for end in ends {
        if turned[end.target as usize] {
            return true;
        }
    }
    false
}

/// The class of a record after the reversals: that of a link of the four kinds is exchanged with its
/// partner where an end is an arc that is turned. `turned` says of each record whether it is one, by place.
pub fn class_after_reversals(schema: &Schema, plan: &Plan, turned: &[bool], place: u32) -> ClassRef
    requires place { IsPlace plan.now place }
    requires class { (record_at plan.now place).class < length schema.now }
    requires turned { length turned.now ≡ length plan.now.list }
    ensures { result ≡ class_after (partner_of schema.now) (turned_at turned.now) (record_at plan.now place) }
{
    plan.keeps();
    let class = plan.scp(place);
    match plan.role(place) {
        Role::Plain => class,
        Role::Initial | Role::Final | Role::Left | Role::Right => {
            if ends_at_turned(turned, plan.ends(place)) {
                schema.partner(class).unwrap_or(class)
            } else {
                class
            }
        }
    }
}

/// An end without SNS, with the number of what it names, if that isn't too large for a packed end.
fn plain_end(plan: &Plan, numbers: &[u32], end: &PlanEnd) -> Option<PlainEnd>
    requires place { IsPlace plan.now end.now.target }
    requires numbers { length numbers.now ≡ length plan.now.list }
    ensures { IfSome result (λ plain. end.now.sns ≡ None
        → unpacked_end plain ≡ numbered plan.now (slice_index numbers.now) end.now) }
{
    packed_end(plan.kind(end.target), numbers[end.target as usize])
}

/// Whether a record has neither attributes nor extra zones.
pub(crate) fn is_bare(plan: &Plan, place: u32) -> bool
    requires { IsPlace plan.now place }
    ensures { result ≡ (is_empty (record_at plan.now place).attributes && is_empty (record_at plan.now place).extras) }
{
    plan.attributes(place).is_empty() && plan.extras(place).is_empty()
}

/// The two ends of a link that has no others, no SNS, no attributes and no extra zones. Nearly each link is such a one.
pub fn plain_ends(plan: &Plan, place: u32) -> Option<(&PlanEnd, &PlanEnd)>
    requires { IsPlace plan.now place }
    ensures ends { IfSome result (λ ends. IsPlainLink (record_at plan.now place) ends.0.now ends.1.now) }
    ensures none { IsNone result → (origin other : End) → ¬ (IsPlainLink (record_at plan.now place) origin other) }
{
    if !is_bare(plan, place) {
        return None;
    }
    match plan.ends(place) {
        [origin, other] if origin.sns.is_none() && other.sns.is_none() => Some((origin, other)),
        _ => None,
    }
}

/// The two ends of a plain link, with the numbers of what they name, if these aren't too large for packed ends.
pub(crate) fn plain_pair(plan: &Plan, numbers: &[u32], place: u32) -> Option<PlainPair>
    requires place { IsPlace plan.now place }
    requires numbers { length numbers.now ≡ length plan.now.list }
    ensures { IfSome result (λ pair. (class : ℕ) → pair_key class pair
        ≡ record {
          class = class;
          ends = ends_key plan.now (slice_index numbers.now) (record_at plan.now place).ends;
          attributes = sort_by attribute_cmp (record_at plan.now place).attributes;
          extras = (record_at plan.now place).extras;
        }) }
{
    plan.keeps();
    let (origin, other) = plain_ends(plan, place)?;
    Some(PlainPair {
        origin: plain_end(plan, numbers, origin)?,
        other: plain_end(plan, numbers, other)?,
    })
}

/// The key of a link with this class, by the positions of its other ends in their order.
pub(crate) fn link_key_at<'a>(
    alloc: Global,
    plan: &'a Plan,
    numbers: &[u32],
    order: &[usize],
    class: ClassRef,
    place: u32,
) -> Result<LinkKey<'a>, AllocError>
    requires place { IsPlace plan.now place }
    requires numbers { length numbers.now ≡ length plan.now.list }
    requires order { PutsInOrder plan.now (slice_index numbers.now) order.now (others_of (record_at plan.now place)) }
    ensures { IfOk result (λ key. key
        ≡ record {
          class = class;
          ends = ends_key plan.now (slice_index numbers.now) (record_at plan.now place).ends;
          attributes = sort_by attribute_cmp (record_at plan.now place).attributes;
          extras = (record_at plan.now place).extras;
        }) }
{
    plan.keeps();
    let ends = numbered_ends(alloc, plan, numbers, order, plan.ends(place))?;
    let attributes = sorted_attributes(alloc, plan.attributes(place))?;
    Ok(LinkKey {
        class,
        ends: Sequence::from_vec(ends),
        attributes: ListOfBorrowed::from_vec(attributes),
        extras: BorrowedList::of(plan.extras(place)),
    })
}
