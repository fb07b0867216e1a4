//! Numbers of what records hold, so that the attributes of each are put in order once, and two that hold different
//! things need not be compared again for each arc or link that names both.

ghost use Rattle.std.specs.Prelude.{◌≡◌, ℕ, filter_map, length, IfOk, IsPermutation, IsSorted};
ghost use Rattle.edi_plan.specs.Places.{places_of};
ghost use Rattle.edi_plan.specs.Plans.{IsPlace, record_at};
ghost use Rattle.edi_matching.specs.inner.Additions.{AreInOrder};
ghost use Rattle.edi_matching.specs.inner.Contents.{AreContents, AreContentNumbers, IsContentNumber, IsNumberIn, held_at};

use crate::added::has_key;
use crate::entries::{ContentKey, contents_at, push_contents};
use edi_plan::Plan;
use edi_record::Kind;
use std::alloc::{AllocError, Global};

/// The numbers of what the records of one type hold, in two plans, by place. Two that hold the same have one number.
pub(crate) struct Contents {
    pub(crate) here: Vec<usize>,
    pub(crate) there: Vec<usize>,
}

impl Drop for Contents {
    fn drop(self) {
        let Contents { here: _, there: _ } = self;
    }
}

/// The numbers of what the records of this type hold in two plans, by what those of the first hold.
pub(crate) fn numbered_contents(
    alloc: Global,
    kind: Kind,
    first: &Plan,
    second: &Plan,
) -> Result<Contents, AllocError>
    ensures { IfOk result
        (AreContents ⟦<ContentKey<'static> as Ord>⟧.cmp ⟦<ContentKey<'static> as PartialEq>⟧.eq kind first.now
        second.now) }
{
    let order = records_by_contents(alloc, kind, first)?;
    Ok(Contents {
        here: numbers_of(alloc, kind, first, &order)?,
        there: numbers_of(alloc, kind, second, &order)?,
    })
}

/// The records of a type, in the order of what they hold.
fn records_by_contents(
    alloc: Global,
    kind: Kind,
    plan: &Plan,
) -> Result<Vec<(ContentKey<'_>, u32)>, AllocError>
    ensures records { IfOk result (λ records.
        IsPermutation (filter_map (held_at plan.now) (places_of kind plan.now)) records.items) }
    ensures sorted { IfOk result (λ records. IsSorted ⟦<(ContentKey<'static>, u32) as Ord>⟧.cmp records.items) }
{
    let mut records = Vec::new(alloc);
    for place in plan.places(kind) {
        push_contents(&mut records, alloc, plan, *place, *place)?;
    }
    records.sort_unstable();
    Ok(records)
}

/// The number of what each record of a plan holds, if it is of this type, and else 0.
fn numbers_of(
    alloc: Global,
    kind: Kind,
    plan: &Plan,
    order: &[(ContentKey<'_>, u32)],
) -> Result<Vec<usize>, AllocError>
    requires { AreInOrder ⟦<ContentKey<'static> as Ord>⟧.cmp order.now }
    ensures { IfOk result (λ numbers.
        AreContentNumbers ⟦<ContentKey<'static> as Ord>⟧.cmp ⟦<ContentKey<'static> as PartialEq>⟧.eq kind order.now plan.now
        numbers.items) }
{
    let mut numbers = Vec::with_capacity(alloc, plan.len() as usize)?;
    for place in 0..plan.len() {
        let number = content_number(alloc, kind, plan, order, place)?;
        numbers.push(number)?;
    }
    Ok(numbers)
}

/// The number of what a record holds, if it is of this type, and else 0.
fn content_number(
    alloc: Global,
    kind: Kind,
    plan: &Plan,
    order: &[(ContentKey<'_>, u32)],
    place: u32,
) -> Result<usize, AllocError>
    requires place { IsPlace plan.now place }
    requires order { AreInOrder ⟦<ContentKey<'static> as Ord>⟧.cmp order.now }
    ensures { IfOk result
        (IsContentNumber ⟦<ContentKey<'static> as Ord>⟧.cmp ⟦<ContentKey<'static> as PartialEq>⟧.eq kind order.now
        (record_at plan.now place)) }
{
    if plan.kind(place) != kind {
        return Ok(0);
    }
    let key = contents_at(alloc, plan, place)?;
    Ok(number_in(order, &key))
}

/// One more than the first position with this key, or 0 if none has it.
fn number_in<K: Ord>(order: &[(K, u32)], key: &K) -> usize
    requires { AreInOrder K.cmp order.now }
    ensures { IsNumberIn K.cmp K.eq order.now key.now result }
{
    let at = order.partition_point(|pair| pair.0.cmp(key).is_lt());
    if has_key(order, at, key) { at + 1 } else { 0 }
}
