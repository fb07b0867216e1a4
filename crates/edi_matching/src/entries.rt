//! Objects and links by keys that speak of the places where their ends go.

ghost use Rattle.std.specs.Prelude.{◌≡◌, ◌<◌, ◌++◌, None, Some, filter_map, if◌then◌else◌, length, option_map, option_to_list, slice_index_or, IfOk, IsPermutation, IsSorted, OnOk, false};
ghost use Rattle.std.specs.Ordering.{nat_cmp, ordering_then};
ghost use Rattle.edi_record.specs.declared.record.Kind.TheVariants.{Lnk};
ghost use Rattle.edi_plan.specs.Agreeing.{HasClasses};
ghost use Rattle.edi_plan.specs.Places.{places_of};
ghost use Rattle.edi_plan.specs.Plans.{IsPlace, record_at};
ghost use Rattle.edi_rank.specs.Keys.{link_key_cmp};
ghost use Rattle.edi_matching.specs.inner.Entries.{all_there, content_beside, content_entries, content_entry, content_key_of, end_there, ends_there, keyed_places, link_entries, link_key_with, link_there, neighbour_entries, neighbour_entry, object_among};
ghost use Rattle.edi_matching.specs.inner.Ranked.{member_at};

use crate::added::target_of;
use crate::ranked::{Member, Ranked};
use edi_line::{BorrowedList, ListOfBorrowed, Sequence};
use edi_plan::{Plan, PlanAttribute, PlanEnd, sorted_attributes};
use edi_rank::{LinkKey, NumberedEnd, class_after_reversals, plain_ends};
use edi_record::{Extra, Kind};
use edi_schema::{ClassRef, Schema};
use std::alloc::{AllocError, Global};

/// What an object is found by: the class of a link that names it, a matched record that this link names too, and the
/// number of what the object holds.
#[derive(PartialEq, Eq, PartialOrd, Ord)]
pub(crate) struct NeighbourKey<'a> {
    class: ClassRef,
    end: NumberedEnd<'a>,
    contents: usize,
}

impl Drop for NeighbourKey<'_> {
    fn drop(self) {
        let NeighbourKey {
            class: _,
            end: _,
            contents: _,
        } = self;
    }
}

/// What a record holds beside its points and its ends.
#[derive(PartialEq, Eq, PartialOrd, Ord)]
pub(crate) struct ContentKey<'a> {
    class: ClassRef,
    attributes: ListOfBorrowed<'a, PlanAttribute>,
    extras: BorrowedList<'a, Extra>,
}

impl Drop for ContentKey<'_> {
    fn drop(self) {
        let ContentKey {
            class: _,
            attributes: _,
            extras: _,
        } = self;
    }
}

/// The links that aren't plain and whose ends are all matched, in the order of what they hold after the reversals.
pub(crate) fn links_by_key<'a>(
    alloc: Global,
    schema: &Schema,
    plan: &'a Plan,
    to: &[Option<u32>],
    turned: &[bool],
) -> Result<Vec<(LinkKey<'a>, u32)>, AllocError>
    requires classes { HasClasses schema.now plan.now }
    requires long { length turned.now ≡ length plan.now.list }
    ensures links { IfOk result (λ links.
        IsPermutation (keyed_places (λ k. link_there schema.now plan.now to.now turned.now (record_at plan.now k))
        (places_of Lnk plan.now)) links.items) }
    ensures sorted { IfOk result (λ links.
        IsSorted (λ x y. ordering_then (link_key_cmp x.0 y.0) (nat_cmp x.1 y.1)) links.items) }
{
    let mut links = Vec::new(alloc);
    for place in plan.places(Kind::Lnk) {
        if let Some(key) = link_there(alloc, schema, plan, to, turned, *place)? {
            links.push((key, *place))?;
        }
    }
    links.sort_unstable();
    Ok(links)
}

/// What a link holds after the reversals, if it isn't plain and its ends are all matched.
fn link_there<'a>(
    alloc: Global,
    schema: &Schema,
    plan: &'a Plan,
    to: &[Option<u32>],
    turned: &[bool],
    place: u32,
) -> Result<Option<LinkKey<'a>>, AllocError>
    requires classes { HasClasses schema.now plan.now }
    requires long { length turned.now ≡ length plan.now.list }
    ensures { IfOk result (λ key. key ≡ link_there schema.now plan.now to.now turned.now (record_at plan.now place)) }
{
    if place >= plan.len() {
        return Ok(None);
    }
    if plain_ends(plan, place).is_some() {
        return Ok(None);
    }
    let class = class_after_reversals(schema, plan, turned, place);
    match ends_there(alloc, plan, to, plan.ends(place))? {
        Some(ends) => Ok(Some(link_key(alloc, plan, place, class, ends)?)),
        None => Ok(None),
    }
}

/// The objects that aren't done, by what they are found by: one entry for each matched record beside them, in the order
/// of these keys. `to` says where the records of the plan go in the other plan, which is `there`; `contents` has the
/// numbers of what objects hold.
pub(crate) fn objects_beside<'a>(
    alloc: Global,
    here: Ranked<'a>,
    there: Ranked<'_>,
    contents: &[usize],
    to: &[Option<u32>],
    done: &[bool],
) -> Result<Vec<(NeighbourKey<'a>, Member)>, AllocError>
    ensures objects { IfOk result (λ objects. IsPermutation (neighbour_entries here.entry.plan.now
        here.entry.labels.now there.entry.labels.now contents.now to.now done.now) objects.items) }
    ensures sorted { IfOk result (λ objects. IsSorted ⟦<(NeighbourKey<'static>, Member) as Ord>⟧.cmp objects.items) }
{
    let mut objects = Vec::new(alloc);
    for place in here.plan.places(Kind::Lnk) {
        push_object(&mut objects, here, there, contents, to, done, *place)?;
    }
    objects.sort_unstable();
    Ok(objects)
}

/// Appends the object of a link, if there is one that isn't done.
fn push_object<'a>(
    objects: &mut Vec<(NeighbourKey<'a>, Member)>,
    here: Ranked<'a>,
    there: Ranked<'_>,
    contents: &[usize],
    to: &[Option<u32>],
    done: &[bool],
    link: u32,
) -> Result<(), AllocError>
    ensures { OnOk result (objects.new.items ≡ objects.old.items
        ++ link_entries here.entry.plan.now here.entry.labels.now there.entry.labels.now contents.now to.now done.now
        link) }
{
    if link >= here.plan.len() {
        return Ok(());
    }
    let Some(object) = object_among(here.plan, here.plan.ends(link)) else {
        return Ok(());
    };
    if is_done(done, object) {
        return Ok(());
    }
    let contents = number_of(contents, object);
    push_beside(objects, here, there, contents, to, object, link)
}

/// Appends an object with each matched record that this link names, by the number of the record that this is in the
/// other plan.
fn push_beside<'a>(
    objects: &mut Vec<(NeighbourKey<'a>, Member)>,
    here: Ranked<'a>,
    there: Ranked<'_>,
    contents: usize,
    to: &[Option<u32>],
    object: u32,
    link: u32,
) -> Result<(), AllocError>
    requires { IsPlace here.plan.now link }
    ensures { OnOk result (objects.new.items ≡ objects.old.items
        ++ filter_map (neighbour_entry here.entry.plan.now there.entry.labels.now to.now
        (record_at here.entry.plan.now link).class contents (member_at here.entry.labels.now object))
        (record_at here.entry.plan.now link).ends) }
{
    let class = here.plan.scp(link);
    let member = here.member(object);
    for end in here.plan.ends(link) {
        if let Some(NumberedEnd { kind, number, sns }) = end_there(here.plan, to, end) {
            let number = there.number(number);
            let end = NumberedEnd { kind, number, sns };
            let key = NeighbourKey {
                class,
                end,
                contents,
            };
            objects.push((key, member))?;
        }
    }
    Ok(())
}

/// The objects that aren't done, in the order of what they hold.
pub(crate) fn objects_by_contents<'a>(
    alloc: Global,
    here: Ranked<'a>,
    done: &[bool],
) -> Result<Vec<(ContentKey<'a>, Member)>, AllocError>
    ensures objects { IfOk result (λ objects.
        IsPermutation (content_entries here.entry.plan.now here.entry.labels.now done.now) objects.items) }
    ensures sorted { IfOk result (λ objects. IsSorted ⟦<(ContentKey<'static>, Member) as Ord>⟧.cmp objects.items) }
{
    let mut objects = Vec::new(alloc);
    for place in here.plan.places(Kind::Fea) {
        if !is_done(done, *place) {
            let member = here.member(*place);
            push_contents(&mut objects, alloc, here.plan, member.place, member)?;
        }
    }
    objects.sort_unstable();
    Ok(objects)
}

/// Appends what a record holds, with a value beside it, if it is one of the plan.
pub(crate) fn push_contents<'a, T: Copy>(
    records: &mut Vec<(ContentKey<'a>, T)>,
    alloc: Global,
    plan: &'a Plan,
    place: u32,
    value: T,
) -> Result<(), AllocError>
    ensures { OnOk result (records.new.items
        ≡ records.old.items ++ option_to_list (content_beside plan.now place value)) }
{
    if place >= plan.len() {
        return Ok(());
    }
    records.push((contents_at(alloc, plan, place)?, value))?;
    Ok(())
}

/// What a record holds beside its points and its ends.
pub(crate) fn contents_at(
    alloc: Global,
    plan: &Plan,
    place: u32,
) -> Result<ContentKey<'_>, AllocError>
    requires { IsPlace plan.now place }
    ensures { IfOk result (λ key. key ≡ content_key_of (record_at plan.now place)) }
{
    let attributes = sorted_attributes(alloc, plan.attributes(place))?;
    Ok(ContentKey {
        class: plan.scp(place),
        attributes: ListOfBorrowed::from_vec(attributes),
        extras: BorrowedList::of(plan.extras(place)),
    })
}

fn is_done(done: &[bool], place: u32) -> bool
    ensures { result ≡ slice_index_or done.now place false }
{
    done.get(place as usize).copied().unwrap_or(false)
}

/// The number of what the record at a place holds.
pub(crate) fn number_of(contents: &[usize], place: u32) -> usize
    ensures { result ≡ slice_index_or contents.now place 0 }
{
    contents.get(place as usize).copied().unwrap_or(0)
}

/// An object among these ends.
fn object_among(plan: &Plan, ends: &[PlanEnd]) -> Option<u32>
    ensures { result ≡ object_among plan.now ends.now }
{
    for end in ends {
        if end.target < plan.len() && plan.kind(end.target) == Kind::Fea {
            return Some(end.target);
        }
    }
    None
}

/// What a link holds, with this class and these ends.
pub(crate) fn link_key<'a>(
    alloc: Global,
    plan: &'a Plan,
    place: u32,
    class: ClassRef,
    ends: Vec<NumberedEnd<'a>>,
) -> Result<LinkKey<'a>, AllocError>
    requires { IsPlace plan.now place }
    ensures { IfOk result (λ key. key ≡ link_key_with class ends.entry.items (record_at plan.now place)) }
{
    let attributes = sorted_attributes(alloc, plan.attributes(place))?;
    Ok(LinkKey {
        class,
        ends: Sequence::from_vec(ends),
        attributes: ListOfBorrowed::from_vec(attributes),
        extras: BorrowedList::of(plan.extras(place)),
    })
}

/// The ends of a link where they go, the origin last and the others in order, if each is matched.
fn ends_there<'a>(
    alloc: Global,
    plan: &Plan,
    to: &[Option<u32>],
    ends: &'a [PlanEnd],
) -> Result<Option<Vec<NumberedEnd<'a>>>, AllocError>
    ensures { IfOk result (λ there. option_map (λ moved. moved.items) there ≡ ends_there plan.now to.now ends.now) }
{
    let Some((first, others)) = ends.split_first() else {
        return Ok(None);
    };
    let Some(origin) = end_there(plan, to, first) else {
        return Ok(None);
    };
    let mut there = Vec::with_capacity(alloc, ends.len())?;
    if !push_there(&mut there, plan, to, others)? {
        return Ok(None);
    }
    there.sort_unstable();
    there.push(origin)?;
    Ok(Some(there))
}

/// Appends these ends where they go, up to the first that isn't matched; whether each is.
fn push_there<'a>(
    there: &mut Vec<NumberedEnd<'a>>,
    plan: &Plan,
    to: &[Option<u32>],
    ends: &'a [PlanEnd],
) -> Result<bool, AllocError>
    ensures { IfOk result (λ all. option_map (λ moved. there.old.items ++ moved) (all_there plan.now to.now ends.now)
        ≡ (if all then Some there.new.items else None)) }
{
    for end in ends {
        match end_there(plan, to, end) {
            Some(moved) => there.push(moved)?,
            None => return Ok(false),
        }
    }
    Ok(true)
}

/// An end where it goes.
fn end_there<'a>(plan: &Plan, to: &[Option<u32>], end: &'a PlanEnd) -> Option<NumberedEnd<'a>>
    ensures { result ≡ end_there plan.now to.now end.now }
{
    let target = target_of(to, end.target)?;
    if end.target >= plan.len() {
        return None;
    }
    let sns = match &end.sns {
        Some(text) => Some(BorrowedList::of(text.as_slice())),
        None => None,
    };
    Some(NumberedEnd {
        kind: plan.kind(end.target),
        number: target,
        sns,
    })
}
