//! Records that are matched where neither is yet.

ghost use Rattle.std.specs.Prelude.{◌≡◌, ◌↔◌, ◌<◌, ◌∷◌, [], IfOk, IsTrue, None, OnOk, drop, if◌then◌else◌, length, not, slice_index_or};
ghost use Rattle.std.specs.List.{before_first};
ghost use Rattle.edi_plan.specs.Sides.{Side};
ghost use Rattle.edi_record.specs.declared.record.Kind.TheVariants.{Pfe};
ghost use Rattle.edi_schema.specs.Roles.{exchanged};
ghost use Rattle.edi_matching.specs.inner.Contents.{AreContents};
ghost use Rattle.edi_matching.specs.inner.Additions.{AddsPairs, AreAlike, AreAlikeBeside, AreFree, AreLone, HasKey, HaveLoneKey, HaveOneKey, IsFirstFrom, IsListed, IsLone, LeavesNoLone, PairsIfAlike, PairsIfBoth, PairsIfFree, StartsRun};

use crate::contents::Contents;
use crate::entries::{ContentKey, number_of};
use crate::links::is_free;
use crate::partners::same_record;
use crate::ranked::{Member, Ranked};
use edi_plan::Plan;
use edi_record::Kind;
use edi_schema::Role;
use std::alloc::{AllocError, Global};

/// Adds the faces that matched arcs have on one side and hold the same. Arcs go by their points.
pub(crate) fn add_faces(
    alloc: Global,
    contents: &Contents,
    first: Ranked<'_>,
    other: &Plan,
    turned: &[bool],
    to: &mut [Option<u32>],
    taken: &mut [bool],
) -> Result<(), AllocError>
    requires { AreContents ⟦<ContentKey<'static> as Ord>⟧.cmp ⟦<ContentKey<'static> as PartialEq>⟧.eq Pfe first.plan.now
        other.now contents.now }
    ensures { OnOk result (AddsPairs (AreAlikeBeside first.entry.plan.now other.now
        (record { to = to.new; turned = turned.now })) to.old taken.old to.new taken.new) }
{
    for arc in first.labels.order(Kind::Par) {
        if let Some(target) = target_of(to, *arc) {
            let is_turned = turned.get(*arc as usize).copied().unwrap_or(false);
            add_sides(
                alloc, contents, first, *arc, other, target, is_turned, to, taken,
            )?;
        }
    }
    Ok(())
}

/// Adds the faces on the sides of an arc, of which the other plan has this one, if they hold the same.
fn add_sides(
    alloc: Global,
    contents: &Contents,
    first: Ranked<'_>,
    arc: u32,
    other: &Plan,
    target: u32,
    is_turned: bool,
    to: &mut [Option<u32>],
    taken: &mut [bool],
) -> Result<(), AllocError>
    requires { AreContents ⟦<ContentKey<'static> as Ord>⟧.cmp ⟦<ContentKey<'static> as PartialEq>⟧.eq Pfe first.plan.now
        other.now contents.now }
    ensures { OnOk result (AddsPairs (λ i j. (role : Role) × Side first.entry.plan.now arc role i
        × Side other.now target (if is_turned then exchanged role else role) j
        × AreAlike first.entry.plan.now other.now i j) to.old taken.old to.new taken.new) }
{
    if arc >= first.plan.len() || target >= other.len() {
        return Ok(());
    }
    for role in first.sides(arc) {
        let there = role_if_turned(role, is_turned);
        let place = first.plan.side(arc, role);
        let beside = other.side(target, there);
        add_same(alloc, contents, first.plan, place, other, beside, to, taken)?;
    }
    Ok(())
}

/// What a role of an arc becomes, if the arc is reversed or not.
pub(crate) fn role_if_turned(role: Role, is_turned: bool) -> Role
    ensures { result ≡ (if is_turned then exchanged role else role) }
{
    if is_turned { role.opposite() } else { role }
}

/// Where a record goes.
pub(crate) fn target_of(to: &[Option<u32>], place: u32) -> Option<u32>
    ensures { result ≡ slice_index_or to.now place None }
{
    to.get(place as usize).copied().flatten()
}

/// Adds one face, if there are both and they hold the same.
fn add_same(
    alloc: Global,
    contents: &Contents,
    plan: &Plan,
    place: Option<u32>,
    other: &Plan,
    target: Option<u32>,
    to: &mut [Option<u32>],
    taken: &mut [bool],
) -> Result<(), AllocError>
    requires { AreContents ⟦<ContentKey<'static> as Ord>⟧.cmp ⟦<ContentKey<'static> as PartialEq>⟧.eq Pfe plan.now
        other.now contents.now }
    ensures { OnOk result (PairsIfBoth plan.now other.now place target to.old taken.old to.new taken.new) }
{
    match (place, target) {
        (Some(place), Some(target)) => add_face(
            alloc, contents, plan, place, other, target, to, taken,
        ),
        _ => Ok(()),
    }
}

/// Adds one face, if neither is matched yet and the two hold the same. A face with many arcs is named by each; those
/// whose numbers differ aren't compared.
fn add_face(
    alloc: Global,
    contents: &Contents,
    plan: &Plan,
    place: u32,
    other: &Plan,
    target: u32,
    to: &mut [Option<u32>],
    taken: &mut [bool],
) -> Result<(), AllocError>
    requires { AreContents ⟦<ContentKey<'static> as Ord>⟧.cmp ⟦<ContentKey<'static> as PartialEq>⟧.eq Pfe plan.now
        other.now contents.now }
    ensures { OnOk result (PairsIfAlike plan.now other.now place target to.old taken.old to.new taken.new) }
{
    if number_of(&contents.here, place) != number_of(&contents.there, target) {
        return Ok(());
    }
    add_alike(alloc, plan, place, other, target, to, taken)
}

/// Adds one record, if neither is matched yet and the two hold the same. Those that are matched aren't compared.
fn add_alike(
    alloc: Global,
    plan: &Plan,
    place: u32,
    other: &Plan,
    target: u32,
    to: &mut [Option<u32>],
    taken: &mut [bool],
) -> Result<(), AllocError>
    ensures { OnOk result (PairsIfAlike plan.now other.now place target to.old taken.old to.new taken.new) }
{
    if !are_free(to, taken, place, target) {
        return Ok(());
    }
    if !are_alike(alloc, plan, place, other, target)? {
        return Ok(());
    }
    add(to, taken, place, target);
    Ok(())
}

/// Whether the one record holds what the other does.
fn are_alike(
    alloc: Global,
    plan: &Plan,
    place: u32,
    other: &Plan,
    target: u32,
) -> Result<bool, AllocError>
    ensures { IfOk result (λ answer. IsTrue answer ↔ AreAlike plan.now other.now place target) }
{
    if place >= plan.len() || target >= other.len() {
        return Ok(false);
    }
    let found = same_record(alloc, plan, place, other, target)?;
    Ok(found.is_some())
}

/// Adds objects with one key that hold the same, of lists in the order of their keys.
pub(crate) fn add_objects<K: Ord>(
    alloc: Global,
    plan: &Plan,
    objects: &[(K, Member)],
    other: &Plan,
    others: &[(K, Member)],
    to: &mut [Option<u32>],
    taken: &mut [bool],
) -> Result<(), AllocError>
    ensures pairs { OnOk result (AddsPairs (λ i j. HaveOneKey K.eq (λ m. m.place) objects.now others.now i j
        × AreAlike plan.now other.now i j) to.old taken.old to.new taken.new) }
    ensures none_left { OnOk result
        (LeavesNoLone K.cmp K.eq plan.now other.now objects.now others.now to.new taken.new) }
{
    let mut at = 0;
    for index in 0..objects.len() {
        if starts_run(objects, index) {
            let key = &objects[index].0;
            at = first_from(others, at, key);
            let run = run_with(objects, index, key);
            let there = run_with(others, at, key);
            add_run(alloc, plan, run, other, there, to, taken)?;
        }
    }
    Ok(())
}

/// Whether the entry before this position, if there is one, has another key.
fn starts_run<K: Ord>(pairs: &[(K, Member)], at: usize) -> bool
    requires { at < length pairs.now }
    ensures { IsTrue result ↔ StartsRun K.eq pairs.now at }
{
    if at == 0 {
        return true;
    }
    !has_key(pairs, at - 1, &pairs[at].0)
}

/// The entries from this position on, up to the first with another key.
fn run_with<'a, K: Ord>(pairs: &'a [(K, Member)], from: usize, key: &K) -> &'a [(K, Member)]
    ensures { result.now ≡ before_first (λ pair. not (K.eq pair.0 key.now)) (drop from pairs.now) }
{
    let rest = &pairs[from.min(pairs.len())..];
    match rest.iter().position(|pair| pair.0 != *key) {
        Some(end) => &rest[..end],
        None => rest,
    }
}

/// Adds objects of two lists that hold the same, in turn.
fn add_run<K>(
    alloc: Global,
    plan: &Plan,
    objects: &[(K, Member)],
    other: &Plan,
    others: &[(K, Member)],
    to: &mut [Option<u32>],
    taken: &mut [bool],
) -> Result<(), AllocError>
    ensures pairs { OnOk result (AddsPairs (λ i j. IsListed objects.now i × IsListed others.now j
        × AreAlike plan.now other.now i j) to.old taken.old to.new taken.new) }
    ensures none_left { OnOk result ((x y : K × Member) → objects.now ≡ x ∷ [] → others.now ≡ y ∷ []
        → AreAlike plan.now other.now x.1.place y.1.place → ¬ (AreFree to.new taken.new x.1.place y.1.place)) }
{
    for at in 0..objects.len().min(others.len()) {
        let target = others[at].1.place;
        add_alike(alloc, plan, objects[at].1.place, other, target, to, taken)?;
    }
    Ok(())
}

/// Adds the objects with a key that each list has once, and that hold the same, of lists in the order of their keys.
pub(crate) fn add_lone_objects<K: Ord>(
    alloc: Global,
    plan: &Plan,
    objects: &[(K, Member)],
    other: &Plan,
    others: &[(K, Member)],
    to: &mut [Option<u32>],
    taken: &mut [bool],
) -> Result<(), AllocError>
    ensures pairs { OnOk result (AddsPairs (λ i j. HaveLoneKey K.eq (λ m. m.place) objects.now others.now i j
        × AreAlike plan.now other.now i j) to.old taken.old to.new taken.new) }
    ensures none_left { OnOk result
        (LeavesNoLone K.cmp K.eq plan.now other.now objects.now others.now to.new taken.new) }
{
    let mut at = 0;
    for index in 0..objects.len() {
        let (key, member) = &objects[index];
        at = first_from(others, at, key);
        if are_lone(objects, index, others, at) {
            let target = others[at].1.place;
            add_alike(alloc, plan, member.place, other, target, to, taken)?;
        }
    }
    Ok(())
}

/// Whether the entries at these positions have one key, which each list has once.
fn are_lone<K: Ord>(
    objects: &[(K, Member)],
    index: usize,
    others: &[(K, Member)],
    at: usize,
) -> bool
    requires { index < length objects.now }
    ensures { IsTrue result ↔ AreLone K.eq objects.now index others.now at }
{
    if !has_key(others, at, &objects[index].0) {
        return false;
    }
    if !is_lone(objects, index) {
        return false;
    }
    is_lone(others, at)
}

/// Whether there is an entry at this position, and it has this key.
pub(crate) fn has_key<K: Ord, T>(entries: &[(K, T)], at: usize, key: &K) -> bool
    ensures { IsTrue result ↔ HasKey K.eq entries.now at key.now }
{
    if at >= entries.len() {
        return false;
    }
    entries[at].0 == *key
}

/// Whether neither neighbour has the key at this position.
fn is_lone<K: Ord>(pairs: &[(K, Member)], at: usize) -> bool
    requires { at < length pairs.now }
    ensures { IsTrue result ↔ IsLone K.eq pairs.now at }
{
    let key = &pairs[at].0;
    if at > 0 && has_key(pairs, at - 1, key) {
        return false;
    }
    !has_key(pairs, at + 1, key)
}

/// Adds the links with one key, of lists in the order of their keys, and lets the lists go.
pub(crate) fn add_links<K: Ord + Drop>(
    links: Vec<(K, u32)>,
    others: Vec<(K, u32)>,
    to: &mut [Option<u32>],
    taken: &mut [bool],
)
    ensures { AddsPairs (HaveOneKey K.eq (λ place. place) links.items others.items) to.old taken.old to.new taken.new }
{
    let others = others.as_slice();
    let mut at = 0;
    for (key, place) in &links {
        at = first_from(others, at, key);
        if has_key(others, at, key) {
            add(to, taken, *place, others[at].1);
            at += 1;
        }
    }
}

/// The first position from this one on whose key is not less.
fn first_from<K: Ord, T>(others: &[(K, T)], from: usize, key: &K) -> usize
    ensures { IsFirstFrom K.cmp others.now from key.now result }
{
    let mut at = from;
    while at < others.len() && others[at].0.cmp(key).is_lt() {
        at += 1;
    }
    at
}

/// Matches a record, if neither is matched yet.
fn add(to: &mut [Option<u32>], taken: &mut [bool], place: u32, target: u32)
    ensures { PairsIfFree place target to.old taken.old to.new taken.new }
{
    if !are_free(to, taken, place, target) {
        return;
    }
    to[place as usize] = Some(target);
    taken[target as usize] = true;
}

/// Whether neither is matched yet.
fn are_free(to: &[Option<u32>], taken: &[bool], place: u32, target: u32) -> bool
    ensures { IsTrue result ↔ AreFree to.now taken.now place target }
{
    let at = place as usize;
    at < to.len() && to[at].is_none() && is_free(taken, target)
}
