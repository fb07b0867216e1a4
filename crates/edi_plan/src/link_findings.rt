//! What links name and join: rules 305 to 307.

ghost use Rattle.std.specs.Prelude.{◌≡◌, ◌≤◌, ◌∷◌, [], ◌||◌, ◌&&◌, ℕ, false, not, length, is_none, is_some, IfOk};
ghost use Rattle.std.specs.List.{list_any};
ghost use Rattle.edi_line.specs.Bytes.{most_records};
ghost use Rattle.edi_schema.specs.Roles.{is_plain, same_role};
ghost use Rattle.edi_schema.specs.declared.role.Role.{Role as Roles};
ghost use Rattle.edi_plan.specs.inner.Findings.{arc_place, is_arc_at, is_sided, AreLinkFindings};
ghost use Rattle.edi_plan.specs.inner.Resolving.{role_of_link};
ghost use Rattle.edi_plan.specs.inner.SideTable.{link_join, side_at, HaveEntries};
ghost use Rattle.edi_plan.specs.inner.Targets.{AreTargets};

use crate::arc_sides::ArcSides;
use crate::sides::{beside, join_of, without_links};
use crate::targets::Target;
use edi_record::{Kind, RecordRef, SheetRecords};
use edi_schema::{Role, Schema};
use std::alloc::{AllocError, Global};

/// Which of the rules 305, 306 and 307 a record breaks.
#[derive(Clone, Copy)]
pub(crate) struct LinkFindings {
    pub(crate) names_nothing: bool,
    pub(crate) joins_wrong: bool,
    pub(crate) repeats_side: bool,
}

/// The kind of a link, and none of the four for a record of another type or a class that the schema lacks.
pub(crate) fn link_role(schema: &Schema, record: &RecordRef<'_>) -> Role
    ensures { result ≡ role_of_link schema.now record.now }
{
    if !record.kind().is_link() {
        return Role::Plain;
    }
    match schema.class(record.scp()) {
        Some(class) => schema.role(class),
        None => Role::Plain,
    }
}

/// Whether an end names no node, arc, face or object.
fn names_nothing(targets: &[Option<Target>]) -> bool
    ensures { result ≡ list_any is_none targets.now }
{
    for target in targets {
        if target.is_none() {
            return true;
        }
    }
    false
}

/// Whether a link of one of the four kinds doesn't join an arc with what belongs to that kind.
fn joins_wrong(role: Role, targets: &[Option<Target>]) -> bool
    ensures { result ≡ (not (is_plain role) && is_none (link_join role targets.now)) }
{
    match beside(role) {
        Some(kind) => join_of(kind, targets).is_none(),
        None => false,
    }
}

/// The place of an arc.
fn arc_of(target: Option<Target>) -> Option<u32>
    ensures { result ≡ arc_place target }
{
    let Target { place, kind } = target?;
    if kind == Kind::Par { Some(place) } else { None }
}

/// Whether this is an arc that an earlier link of a kind names.
fn has_side(sides: &[ArcSides], role: Role, target: Option<Target>) -> bool
    requires { HaveEntries sides.now (target ∷ []) }
    ensures { result ≡ is_sided sides.now role target }
{
    match arc_of(target) {
        Some(arc) => sides[arc as usize].of(role).is_some(),
        None => false,
    }
}

/// Whether an earlier link of a kind names one of these arcs.
fn repeats_side(sides: &[ArcSides], role: Role, targets: &[Option<Target>]) -> bool
    requires { HaveEntries sides.now targets.now }
    ensures { result ≡ list_any (is_sided sides.now role) targets.now }
{
    for target in targets {
        if has_side(sides, role, *target) {
            return true;
        }
    }
    false
}

/// Notes that the link at a place names this, where it is an arc.
fn note_arc(sides: &mut [ArcSides], role: Role, target: Option<Target>, place: u32)
    requires { HaveEntries sides.old (target ∷ []) }
    ensures long { length sides.new ≡ length sides.old }
    ensures each { (a : ℕ) (o : Roles) → is_plain o ≡ false → is_some (side_at sides.new a o)
        ≡ (is_some (side_at sides.old a o) || (same_role o role && is_arc_at a target)) }
{
    if let Some(arc) = arc_of(target) {
        sides[arc as usize].put(role, place);
    }
}

/// Notes that the link at a place names these arcs.
fn note_arcs(sides: &mut [ArcSides], role: Role, targets: &[Option<Target>], place: u32)
    requires { HaveEntries sides.old targets.now }
    ensures long { length sides.new ≡ length sides.old }
    ensures each { (a : ℕ) (o : Roles) → is_plain o ≡ false → is_some (side_at sides.new a o)
        ≡ (is_some (side_at sides.old a o) || (same_role o role && list_any (is_arc_at a) targets.now)) }
{
    for target in targets {
        note_arc(sides, role, *target, place);
    }
}

/// What each record breaks, in file order, where all ends have these targets.
pub(crate) fn link_findings(
    alloc: Global,
    schema: &Schema,
    targets: &[Option<Target>],
    records: &SheetRecords,
) -> Result<Vec<LinkFindings>, AllocError>
    requires few { length records.now ≤ most_records }
    requires targets { AreTargets records.now records.now targets.now }
    ensures { IfOk result (λ found. AreLinkFindings schema.now records.now found.items) }
{
    let mut left = targets;
    let mut sides = without_links(alloc, records.len())?;
    let mut found = Vec::with_capacity(alloc, records.len())?;
    for place in 0..records.len() {
        let record = records.record(place);
        let (own, later) = left.split_at(record.ends().len());
        let role = link_role(schema, &record);
        found.push(LinkFindings {
            names_nothing: names_nothing(own),
            joins_wrong: joins_wrong(role, own),
            repeats_side: repeats_side(&sides, role, own),
        })?;
        note_arcs(&mut sides, role, own, place as u32);
        left = later;
    }
    Ok(found)
}
