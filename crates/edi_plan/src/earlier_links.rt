//! The earlier link that rule 307 speaks of.

ghost use Rattle.std.specs.Prelude.{◌≡◌, ◌≢◌, ◌↔◌, IsTrue, None, true};
ghost use Rattle.std.specs.List.{list_any};
ghost use Rattle.edi_plan.specs.EarlierLinks.{IsLeastIfAny};
ghost use Rattle.edi_plan.specs.inner.EarlierLinks.{ends_at_place as ends_at_arc, IsOfSide, IsOfSideAt};
ghost use Rattle.edi_plan.specs.inner.Findings.{is_arc_at as is_arc_there};
ghost use Rattle.edi_plan.specs.inner.RecordLists.{plan_record_of, plan_records_of};
ghost use Rattle.edi_record.specs.AnyRecords.{record_lent};

use crate::planned::{PlanHead, RecordList};
use crate::record::{PlanAttribute, PlanEnd};
use crate::targets::Target;
use edi_record::{AnyRecordRef, Kind};
use edi_schema::Role;

/// Whether a target is the arc at a place.
fn is_arc_at(place: u32, target: Option<Target>) -> bool
    ensures { result ≡ is_arc_there place target }
{
    match target {
        Some(target) => target.kind == Kind::Par && target.place == place,
        None => false,
    }
}

/// Whether one of these ends leads to an arc that is this target.
fn ends_at(ends: &[PlanEnd], target: Option<Target>) -> bool
    ensures { result ≡ ends_at_arc ends.now target }
{
    for end in ends {
        if is_arc_at(end.target, target) {
            return true;
        }
    }
    false
}

/// Whether one of these ends leads to an arc among these targets.
fn shares_arc(ends: &[PlanEnd], targets: &[Option<Target>]) -> bool
    ensures { result ≡ list_any (ends_at_arc ends.now) targets.now }
{
    for target in targets {
        if ends_at(ends, *target) {
            return true;
        }
    }
    false
}

/// Whether a record is a link of a role, of which an end leads to an arc among these targets.
fn is_of_side(
    record: &AnyRecordRef<'_, PlanHead, PlanAttribute, PlanEnd>,
    role: Role,
    targets: &[Option<Target>],
) -> bool
    ensures { IsTrue result ↔ IsOfSide role targets.now (plan_record_of (record_lent «record».now)) }
{
    record.head.kind == Kind::Lnk && record.head.role == role && shares_arc(record.ends, targets)
}

/// The place of the first such link, from 0.
fn first_of_side(list: &RecordList, role: Role, targets: &[Option<Target>]) -> Option<u64>
    ensures { IsLeastIfAny (IsOfSideAt (plan_records_of list.now) role targets.now) result }
{
    for place in 0..list.len() {
        if is_of_side(&list.record(place), role, targets) {
            return Some(place as u64);
        }
    }
    None
}

/// The place of the earlier link that a rule speaks of at a link of a role with these targets: 307 of the first such
/// link, and another rule of none.
pub(crate) fn earlier_link(
    rule: u16,
    list: &RecordList,
    role: Role,
    targets: &[Option<Target>],
) -> Option<u64>
    ensures link { rule ≡ 307 → IsLeastIfAny (IsOfSideAt (plan_records_of list.now) role targets.now) result }
    ensures others { rule ≢ 307 → result ≡ None }
{
    match rule {
        307 => first_of_side(list, role, targets),
        _ => None,
    }
}
