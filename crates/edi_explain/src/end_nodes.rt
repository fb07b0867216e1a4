//! The node that a rule of topology speaks of beside an arc: the initial one for 401, the final one for 402.

ghost use Rattle.std.specs.Prelude.{◌≡◌, ℕ, List, IfOk};
ghost use Rattle.edi_line.specs.ZoneData.{entries};
ghost use Rattle.edi_line.specs.LineRules.{IsZonesOf};
ghost use Rattle.edi_plan.specs.Plans.{PlanData};
ghost use Rattle.edi_plan.specs.Sides.{IsSideIfAny};
ghost use Rattle.edi_schema.specs.Classes.{Classes};
ghost use Rattle.edi_compare.specs.PlanOfFile.{IsPlanOfFile};
ghost use Rattle.edi_explain.specs.EndNodes.{IsEndNodeIfAny, IsEndNodeLine, end_node_sentence};

use crate::lines::line_of_place;
use crate::site::site_at;
use edi_line::Zone;
use edi_plan::Plan;
use edi_schema::Role;
use std::alloc::{AllocError, Global};

/// The node or the face that the arc at a place has by a role, if there is an arc and it has one.
fn side_of(plan: &Plan, place: u64, role: Role) -> Option<u64>
    ensures { IsSideIfAny plan.now place role result }
{
    if place >= u64::from(plan.len()) {
        return None;
    }
    match plan.side(place as u32, role) {
        Some(side) => Some(u64::from(side)),
        None => None,
    }
}

/// The place of the node that a rule speaks of beside the arc at a place; `None` where the rule speaks of none.
pub(crate) fn end_node(plan: &Plan, rule: u16, place: u64) -> Option<u64>
    ensures { (s : Classes) (b : List ℕ) → IsPlanOfFile s b plan.now → IsEndNodeIfAny s b rule place result }
{
    match rule {
        401 => side_of(plan, place, Role::Initial),
        402 => side_of(plan, place, Role::Final),
        _ => None,
    }
}

/// What is said of the node that a rule speaks of.
fn sentence_of_node(rule: u16) -> &'static [u8]
    ensures { result.now ≡ end_node_sentence rule }
{
    match rule {
        401 => b"the initial node",
        _ => b"the final node",
    }
}

/// The line on the node at a place, if there is one.
pub(crate) fn line_of_node(
    alloc: Global,
    zones: &[Zone<'_>],
    name: &[u8],
    rule: u16,
    node: Option<u64>,
) -> Result<Vec<u8>, AllocError>
    ensures { IfOk result (λ lines. (b : List ℕ) → IsZonesOf b (entries zones.now)
        → IsEndNodeLine b name.now rule node lines.items) }
{
    let Some(place) = node else {
        return Ok(Vec::new(alloc));
    };
    let site = site_at(alloc, zones, Some(place))?;
    line_of_place(alloc, name, &site, sentence_of_node(rule), rule)
}
