//! Faces, objects and links, added to a matching of nodes and arcs.

ghost use Rattle.std.specs.Prelude.{◌≡◌, ◌⊎◌, ◌<◌, ◌-◌, ◌^◌, ℕ, IfOk, IsTrue, None, OnOk, Some, count_by, is_none, is_some, length, map, min, slice_index_or};
ghost use Rattle.edi_record.specs.declared.record.Kind.TheVariants.{Fea};
ghost use Rattle.edi_plan.specs.Agreeing.{HasClasses};
ghost use Rattle.edi_plan.specs.Places.{places_of};
ghost use Rattle.edi_plan.specs.Plans.{IsPlace};
ghost use Rattle.edi_compare.specs.Laws.{IsAcceptedPlan};
ghost use Rattle.edi_matching.specs.Matchings.{GoesTo, IsMatched, MatchingHolds};
ghost use Rattle.edi_matching.specs.inner.Additions.{AddsPairs, AreAlike, PairsByKey};
ghost use Rattle.edi_matching.specs.inner.Entries.{content_entries, neighbour_entries};
ghost use Rattle.edi_matching.specs.inner.Inverses.{Grows, IsInverse, IsMore, IsMoreBackwards};

use crate::added::{add_faces, add_links, add_lone_objects, add_objects, target_of};
use crate::checking::check_matching;
use crate::contents::{Contents, numbered_contents};
use crate::entries::{ContentKey, NeighbourKey, links_by_key, objects_beside, objects_by_contents};
use crate::matching::Matching;
use crate::plain_links::plain_links;
use crate::ranked::Ranked;
use edi_compare::Accepted;
use edi_compare::comparing_accepted::labels_of;
use edi_line::Sequence;
use edi_plan::Plan;
use edi_record::Kind;
use edi_schema::Schema;
use edi_topo::Sound;
use std::alloc::{AllocError, Global};

/// How often objects are sought by what their links name beside them, at most: by nodes, arcs and faces first, then by
/// the objects that were found so, and then by those.
const ROUNDS: u32 = 3;

/// A matching that matches what this one does, and more if that holds.
pub(crate) fn grow(
    alloc: Global,
    schema: &Schema,
    first: &Accepted,
    second: &Accepted,
    matching: Matching,
) -> Result<Matching, AllocError>
    requires first { HasClasses schema.now first.now }
    requires second { HasClasses schema.now second.now }
    requires accepted { IsAcceptedPlan schema.now first.now }
    requires other_accepted { IsAcceptedPlan schema.now second.now }
    requires holds { MatchingHolds schema.now first.now second.now matching }
    ensures holds { IfOk result (MatchingHolds schema.now first.now second.now) }
    ensures keeps { IfOk result (λ m. (i : ℕ) → IsMatched matching.to i → IsMatched m.to i) }
{
    let more = more_of(alloc, schema, first.sound(), second.sound(), &matching)?;
    if matches_all_of(more.to.as_slice(), matching.to.as_slice())
        && check_matching(alloc, schema, first, second, &more)?
    {
        Ok(more)
    } else {
        Ok(matching)
    }
}

/// The matching with faces, objects and links. Nothing rests on it: what it gives is checked. Of the two plans it
/// begins with the one of the lesser fingerprint, so that what is matched does not depend on which of them comes first.
fn more_of(
    alloc: Global,
    schema: &Schema,
    first: &Sound,
    second: &Sound,
    matching: &Matching,
) -> Result<Matching, AllocError>
    requires first { HasClasses schema.now first.now }
    requires second { HasClasses schema.now second.now }
    requires accepted { IsAcceptedPlan schema.now first.now }
    requires other_accepted { IsAcceptedPlan schema.now second.now }
    requires long { length matching.now.turned ≡ length first.now.list }
    ensures { IfOk result (λ m. IsMore matching.now m
        ⊎ IsMoreBackwards (length first.now.list) (length second.now.list) matching.now m) }
{
    let labels = labels_of(alloc, schema, first)?;
    let others = labels_of(alloc, schema, second)?;
    let here = Ranked {
        plan: first.plan(),
        labels: &labels,
    };
    let there = Ranked {
        plan: second.plan(),
        labels: &others,
    };
    if here.fingerprint() <= there.fingerprint() {
        return with_more(alloc, schema, here, there, matching);
    }
    let back = inverse(alloc, matching, there.plan.len())?;
    let more = with_more(alloc, schema, there, here, &back)?;
    inverse(alloc, &more, here.plan.len())
}

/// The matching from the second plan, which has so many records, to the first.
fn inverse(alloc: Global, matching: &Matching, count: u32) -> Result<Matching, AllocError>
    ensures { IfOk result (IsInverse matching.now count (2 ^ 32 - 1)) }
{
    let mut to = vec![in alloc; None; count as usize]?;
    let mut turned = vec![in alloc; false; count as usize]?;
    let directions = matching.turned.as_slice();
    for place in 0..count_of(matching) {
        if let Some(target) = target_of(matching.to.as_slice(), place)
            && target < count
        {
            to[target as usize] = Some(place);
            turned[target as usize] = directions.get(place as usize).copied().unwrap_or(false);
        }
    }
    Ok(Matching {
        to: Sequence::from_vec(to),
        turned: Sequence::from_vec(turned),
    })
}

/// How many records a matching has entries for.
fn count_of(matching: &Matching) -> u32
    ensures { result ≡ min (length matching.now.to) (2 ^ 32 - 1) }
{
    u32::try_from(matching.to.as_slice().len()).unwrap_or(u32::MAX)
}

/// Whether each record that is matched there is matched here.
fn matches_all_of(here: &[Option<u32>], there: &[Option<u32>]) -> bool
    ensures { IsTrue result → (i : ℕ) → IsMatched there.now i → IsMatched here.now i }
{
    if here.len() != there.len() {
        return false;
    }
    for place in 0..here.len() {
        if !is_kept(here[place], there[place]) {
            return false;
        }
    }
    true
}

/// Whether there is one here, if there is one there.
fn is_kept(here: Option<u32>, there: Option<u32>) -> bool
    ensures { IsTrue result → (j : ℕ) → there ≡ Some j → (k : ℕ) × (here ≡ Some k) }
{
    match (here, there) {
        (Some(_), _) => true,
        (None, None) => true,
        (None, Some(_)) => false,
    }
}

/// The matching with faces by the sides of arcs, objects by what their links name beside them, and links by all that
/// they hold.
fn with_more(
    alloc: Global,
    schema: &Schema,
    first: Ranked<'_>,
    second: Ranked<'_>,
    matching: &Matching,
) -> Result<Matching, AllocError>
    requires first { HasClasses schema.now first.plan.now }
    requires second { HasClasses schema.now second.plan.now }
    requires long { length matching.now.turned ≡ length first.plan.now.list }
    ensures { IfOk result (IsMore matching.now) }
{
    let turned = matching.turned.as_slice();
    let mut to = Vec::from_slice(alloc, matching.to.as_slice())?;
    add_more(alloc, schema, first, second, turned, &mut to)?;
    Ok(Matching {
        to: Sequence::from_vec(to),
        turned: Sequence::from_vec(Vec::from_slice(alloc, turned)?),
    })
}

/// Adds faces, then objects, then links.
fn add_more(
    alloc: Global,
    schema: &Schema,
    first: Ranked<'_>,
    second: Ranked<'_>,
    turned: &[bool],
    to: &mut [Option<u32>],
) -> Result<(), AllocError>
    requires first { HasClasses schema.now first.plan.now }
    requires second { HasClasses schema.now second.plan.now }
    requires long { length turned.now ≡ length first.plan.now.list }
    ensures { OnOk result (Grows to.old to.new) }
{
    let mut taken = vec![in alloc; false; second.plan.len() as usize]?;
    let itself = each_to_itself(alloc, second.plan)?;
    let faces = numbered_contents(alloc, Kind::Pfe, first.plan, second.plan)?;
    add_faces(alloc, &faces, first, second.plan, turned, to, &mut taken)?;
    add_all_objects(alloc, first, second, &itself, to, &mut taken)?;
    add_all_links(
        alloc,
        schema,
        first.plan,
        second.plan,
        &itself,
        turned,
        to,
        &mut taken,
    )
}

/// Adds objects by what their links name beside them, and then those that are alone in what they hold.
fn add_all_objects(
    alloc: Global,
    first: Ranked<'_>,
    second: Ranked<'_>,
    itself: &[Option<u32>],
    to: &mut [Option<u32>],
    taken: &mut [bool],
) -> Result<(), AllocError>
    ensures { OnOk result (Grows to.old to.new) }
{
    let contents = numbered_contents(alloc, Kind::Fea, first.plan, second.plan)?;
    add_objects_in_rounds(alloc, first, second, &contents, itself, to, taken)?;
    add_objects_by_contents(alloc, first, second, to, taken)
}

/// Adds links by all that they hold, the plain ones first.
fn add_all_links(
    alloc: Global,
    schema: &Schema,
    first: &Plan,
    second: &Plan,
    itself: &[Option<u32>],
    turned: &[bool],
    to: &mut [Option<u32>],
    taken: &mut [bool],
) -> Result<(), AllocError>
    requires first { HasClasses schema.now first.now }
    requires second { HasClasses schema.now second.now }
    requires long { length turned.now ≡ length first.now.list }
    ensures { OnOk result (Grows to.old to.new) }
{
    let unturned = vec![in alloc; false; second.len() as usize]?;
    let links = plain_links(alloc, schema, first, to, turned)?;
    let others = plain_links(alloc, schema, second, itself, &unturned)?;
    add_links(links, others, to, taken);
    let links = links_by_key(alloc, schema, first, to, turned)?;
    let others = links_by_key(alloc, schema, second, itself, &unturned)?;
    add_links(links, others, to, taken);
    Ok(())
}

/// Adds objects by the matched records that their links name beside them, until none is left or a round finds none.
fn add_objects_in_rounds(
    alloc: Global,
    first: Ranked<'_>,
    second: Ranked<'_>,
    contents: &Contents,
    itself: &[Option<u32>],
    to: &mut [Option<u32>],
    taken: &mut [bool],
) -> Result<(), AllocError>
    ensures { OnOk result
        (AddsPairs (AreAlike first.entry.plan.now second.entry.plan.now) to.old taken.old to.new taken.new) }
{
    let mut left = count_left(first.plan, to);
    for _ in 0..ROUNDS {
        if left == 0 {
            return Ok(());
        }
        add_objects_beside(alloc, first, second, contents, itself, to, taken)?;
        let still_left = count_left(first.plan, to);
        if still_left == left {
            return Ok(());
        }
        left = still_left;
    }
    Ok(())
}

/// How many objects aren't matched.
fn count_left(plan: &Plan, to: &[Option<u32>]) -> usize
    ensures { result ≡ count_by (λ k. is_none (slice_index_or to.now k None)) (places_of Fea plan.now) }
{
    let objects = plan.places(Kind::Fea).iter();
    objects
        .filter(|place| target_of(to, **place).is_none())
        .count()
}

/// Adds objects by the matched records that their links name beside them, and by the numbers of what they hold.
fn add_objects_beside(
    alloc: Global,
    first: Ranked<'_>,
    second: Ranked<'_>,
    contents: &Contents,
    itself: &[Option<u32>],
    to: &mut [Option<u32>],
    taken: &mut [bool],
) -> Result<(), AllocError>
    ensures { OnOk result
        (PairsByKey ⟦<NeighbourKey<'static> as PartialEq>⟧.eq first.entry.plan.now second.entry.plan.now
        (neighbour_entries first.entry.plan.now first.entry.labels.now second.entry.labels.now
        contents.now.here.items to.old (map (λ target. is_some target) to.old))
        (neighbour_entries second.entry.plan.now second.entry.labels.now second.entry.labels.now
        contents.now.there.items itself.now taken.old)
        to.old taken.old to.new taken.new) }
{
    let done = matched_places(alloc, to)?;
    let objects = objects_beside(alloc, first, second, &contents.here, to, &done)?;
    let others = objects_beside(alloc, second, second, &contents.there, itself, taken)?;
    add_objects(alloc, first.plan, &objects, second.plan, &others, to, taken)
}

/// Adds objects whose class, attributes and extras one object of each plan has that isn't matched yet.
fn add_objects_by_contents(
    alloc: Global,
    first: Ranked<'_>,
    second: Ranked<'_>,
    to: &mut [Option<u32>],
    taken: &mut [bool],
) -> Result<(), AllocError>
    ensures { OnOk result (PairsByKey ⟦<ContentKey<'static> as PartialEq>⟧.eq first.entry.plan.now second.entry.plan.now
        (content_entries first.entry.plan.now first.entry.labels.now (map (λ target. is_some target) to.old))
        (content_entries second.entry.plan.now second.entry.labels.now taken.old)
        to.old taken.old to.new taken.new) }
{
    let done = matched_places(alloc, to)?;
    let objects = objects_by_contents(alloc, first, &done)?;
    let others = objects_by_contents(alloc, second, taken)?;
    add_lone_objects(alloc, first.plan, &objects, second.plan, &others, to, taken)
}

/// Whether each record is matched, by place.
fn matched_places(alloc: Global, to: &[Option<u32>]) -> Result<Vec<bool>, AllocError>
    ensures { IfOk result (λ marks. marks.items ≡ map (λ target. is_some target) to.now) }
{
    to.iter().map(|target| target.is_some()).collect(alloc)
}

fn each_to_itself(alloc: Global, plan: &Plan) -> Result<Vec<Option<u32>>, AllocError>
    ensures long { IfOk result (λ to. length to.items ≡ length plan.now.list) }
    ensures each { IfOk result (λ to. (k : ℕ) → IsPlace plan.now k → GoesTo to.items k k) }
{
    let mut to = Vec::with_capacity(alloc, plan.len() as usize)?;
    for place in 0..plan.len() {
        to.push(Some(place))?;
    }
    Ok(to)
}
