//! The rules of topology at one record.

ghost use Rattle.std.specs.Prelude.{◌≡◌, ◌↔◌, ◌<◌, ◌+◌, ◌-◌, ℕ, Some, IsTrue, IfOk, MatchOption};
ghost use Rattle.edi_line.specs.Refusal.{IsLeastBroken, IsUnbroken};
ghost use Rattle.edi_record.specs.declared.record.Kind.TheVariants.{Par, Pfe, Pno};
ghost use Rattle.edi_plan.specs.Joined.{IsJoined};
ghost use Rattle.edi_plan.specs.Plans.{PlanData, IsPlace, record_at};
ghost use Rattle.edi_topo.specs.EarlierRecords.{IsEarlierByRule};
ghost use Rattle.edi_topo.specs.inner.Arcs as arcs_;
ghost use Rattle.edi_topo.specs.inner.AtRecord.{AreNotBefore, AreRecordFindings, IsLeastAtIfAny, IsUpTo};
ghost use Rattle.edi_topo.specs.inner.Faces.{AreFaced};
ghost use Rattle.edi_topo.specs.inner.Nodes as nodes_;
ghost use Rattle.edi_topo.specs.inner.Repeats.{repeat_place, repeated_place};
ghost use Rattle.edi_topo.specs.TopologyRules.{BreaksTopologyRule};

use crate::directions::equals_reverse;
use crate::ends::{ends_elsewhere, starts_elsewhere};
use crate::faces::side_marks;
use crate::numbers::Ranks;
use crate::repeat::Repeat;
use crate::{arcs, nodes};
use edi_plan::Plan;
use edi_record::Kind;
use std::alloc::{AllocError, Global};

/// What is looked up at each record: the numbers of the nodes and of the arcs, or the first that repeats an earlier
/// one, with that; and which records are on a side of an arc.
#[derive(Drop)]
pub(crate) struct RecordFindings {
    pub(crate) nodes: Result<Ranks, Repeat>,
    pub(crate) arcs: Result<Ranks, Repeat>,
    faced: Vec<bool>,
}

impl RecordFindings {
    pub(crate) fn of(alloc: Global, plan: &Plan) -> Result<RecordFindings, AllocError>
        requires { IsJoined plan.now }
        ensures { IfOk result (AreRecordFindings plan.now) }
    {
        Ok(RecordFindings {
            nodes: nodes::ranks_or_repeat(alloc, plan)?,
            arcs: arcs::ranks_or_repeat(alloc, plan)?,
            faced: side_marks(alloc, plan)?,
        })
    }
}

/// The place of the first repeat, if there is one.
fn repeat_in(found: &Result<Ranks, Repeat>) -> Option<u32>
    ensures { result ≡ repeat_place found.now }
{
    match found {
        Ok(_) => None,
        Err(repeat) => Some(repeat.place),
    }
}

/// The place of what the first repeat repeats, if there is one.
fn repeated_in(found: &Result<Ranks, Repeat>) -> Option<u64>
    ensures { result ≡ repeated_place found.now }
{
    match found {
        Ok(_) => None,
        Err(repeat) => Some(u64::from(repeat.earlier)),
    }
}

fn is_place(repeat: Option<u32>, place: u32) -> bool
    ensures { IsTrue result ↔ (repeat ≡ Some place) }
{
    match repeat {
        Some(other) => other == place,
        None => false,
    }
}

/// The rule that a node breaks.
fn rule_of_node(plan: &Plan, repeat: Option<u32>, place: u32) -> Option<u16>
    requires place { IsPlace plan.now place }
    requires node { (record_at plan.now place).kind ≡ Pno }
    requires first { nodes_.IsFirstRepeatedNodeIfAny plan.now repeat }
    requires ahead { IsUpTo repeat place }
    ensures { IsLeastAtIfAny plan.now place result }
{
    if is_place(repeat, place) {
        Some(403)
    } else {
        None
    }
}

/// The least rule that an arc breaks.
fn rule_of_arc(plan: &Plan, repeat: Option<u32>, place: u32) -> Option<u16>
    requires joined { IsJoined plan.now }
    requires place { IsPlace plan.now place }
    requires arc { (record_at plan.now place).kind ≡ Par }
    requires first { arcs_.IsFirstRepeatedArcIfAny plan.now repeat }
    requires ahead { IsUpTo repeat place }
    ensures { IsLeastAtIfAny plan.now place result }
{
    if starts_elsewhere(plan, place) {
        Some(401)
    } else if ends_elsewhere(plan, place) {
        Some(402)
    } else if equals_reverse(plan.points(place)) {
        Some(404)
    } else if is_place(repeat, place) {
        Some(405)
    } else {
        None
    }
}

/// The rule that a face breaks.
fn rule_of_face(plan: &Plan, faced: &[bool], place: u32) -> Option<u16>
    requires place { IsPlace plan.now place }
    requires face { (record_at plan.now place).kind ≡ Pfe }
    requires faced { AreFaced plan.now faced.now }
    ensures { IsLeastAtIfAny plan.now place result }
{
    if faced[place as usize] {
        None
    } else {
        Some(406)
    }
}

/// The least rule that the record at a place breaks.
fn rule_at(plan: &Plan, findings: &RecordFindings, place: u32) -> Option<u16>
    requires joined { IsJoined plan.now }
    requires place { IsPlace plan.now place }
    requires findings { AreRecordFindings plan.now findings.now }
    requires ahead { AreNotBefore findings.now place }
    ensures { IsLeastAtIfAny plan.now place result }
{
    match plan.kind(place) {
        Kind::Pno => rule_of_node(plan, repeat_in(&findings.nodes), place),
        Kind::Par => rule_of_arc(plan, repeat_in(&findings.arcs), place),
        Kind::Pfe => rule_of_face(plan, &findings.faced, place),
        Kind::Fea | Kind::Lnk => None,
    }
}

/// The first record that breaks a rule of topology, by its place, and the least rule there.
pub(crate) fn first_broken(plan: &Plan, findings: &RecordFindings) -> Option<(u16, u32)>
    requires joined { IsJoined plan.now }
    requires findings { AreRecordFindings plan.now findings.now }
    ensures { MatchOption result (IsUnbroken (BreaksTopologyRule plan.now))
        (λ found. IsLeastBroken (BreaksTopologyRule plan.now) found.0 (found.1 + 1)) }
{
    for place in 0..plan.len() {
        if let Some(rule) = rule_at(plan, findings, place) {
            return Some((rule, place));
        }
    }
    None
}

/// The first record that a rule speaks of where it is the first broken: 403 of an equal node, 405 of an arc with the
/// same points, the others of none.
pub(crate) fn earlier_of(findings: &RecordFindings, rule: u16) -> Option<u64>
    ensures { (p : PlanData) (at : ℕ) → AreRecordFindings p findings.now
        → IsLeastBroken (BreaksTopologyRule p) rule at → IsEarlierByRule p rule (at - 1) result }
{
    match rule {
        403 => repeated_in(&findings.nodes),
        405 => repeated_in(&findings.arcs),
        _ => None,
    }
}
