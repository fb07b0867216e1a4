//! Which rules of topology each record breaks.

ghost use Rattle.std.specs.Prelude.{◌≡◌, ◌↔◌, ◌+◌, length, IsTrue, IfOk};
ghost use Rattle.edi_record.specs.declared.record.Kind.TheVariants.{Par, Pfe, Pno};
ghost use Rattle.edi_plan.specs.Joined.{IsJoined};
ghost use Rattle.edi_plan.specs.Plans.{IsPlace, record_at};
ghost use Rattle.edi_topo.specs.Marks.{AreMarksOf};
ghost use Rattle.edi_topo.specs.inner.Arcs.{RepeatsAnEarlierArc};
ghost use Rattle.edi_topo.specs.inner.Faces.{AreFaced};
ghost use Rattle.edi_topo.specs.inner.Nodes.{RepeatsAnEarlier};
ghost use Rattle.edi_topo.specs.TopologyRules.{BreaksTopologyRule};

use crate::arcs::ArcLayer;
use crate::directions::equals_reverse;
use crate::ends::{ends_elsewhere, starts_elsewhere};
use crate::faces::side_marks;
use crate::marks::marks_by_place;
use crate::nodes::NodeLayer;
use crate::tie_marks::ties;
use edi_plan::Plan;
use edi_record::Kind;
use std::alloc::{AllocError, Global};
use std::marker::Model;

/// What is looked up to say which rules of topology a record of a plan breaks: of each place, whether it has a node
/// equal to an earlier one, or an arc with the points of an earlier one, and whether it is on a side of an arc.
#[derive(Drop)]
pub struct TopologyFindings<'a> {
    plan: &'a Plan,
    nodes: Vec<bool>,
    arcs: Vec<bool>,
    faced: Vec<bool>,
}

impl<'a> Model for TopologyFindings<'a> {
    ghost use Rattle.std.specs.Prelude.{length};
    ghost use Rattle.edi_plan.specs.Plans.{PlanData};
    ghost use Rattle.edi_topo.specs.Marks.{AreMarksOf};
    ghost use Rattle.edi_topo.specs.inner.Arcs.{RepeatsAnEarlierArc};
    ghost use Rattle.edi_topo.specs.inner.Faces.{AreFaced};
    ghost use Rattle.edi_topo.specs.inner.Nodes.{RepeatsAnEarlier};

    ghost Value = { PlanData };

    ghost view = { λ f. f.plan.now };

    ghost invariant = { λ f. AreMarksOf (length f.plan.now.list) (RepeatsAnEarlier f.plan.now) f.nodes.items
        × AreMarksOf (length f.plan.now.list) (RepeatsAnEarlierArc f.plan.now) f.arcs.items
        × AreFaced f.plan.now f.faced.items };
}

impl<'a> TopologyFindings<'a> {
    /// What is found in a plan, sound or not.
    pub fn of(alloc: Global, plan: &'a Plan) -> Result<TopologyFindings<'a>, AllocError>
        ensures { IfOk result (λ findings. findings ≡ plan.now) }
    {
        plan.keeps();
        Ok(TopologyFindings {
            plan,
            nodes: repeated_nodes(alloc, plan)?,
            arcs: repeated_arcs(alloc, plan)?,
            faced: side_marks(alloc, plan)?,
        })
    }

    /// Whether the record at a place, from 0, breaks the rule of this number, 401 to 406 (docs/FORMAT.md, "The rules of
    /// a sheet"). A record may break several.
    pub fn breaks(&self, rule: u16, place: u32) -> bool
        requires { IsPlace self.now place }
        ensures { IsTrue result ↔ BreaksTopologyRule self.now rule (place + 1) }
    {
        self.plan.keeps();
        match self.plan.kind(place) {
            Kind::Pno => node_breaks(self.plan, &self.nodes, rule, place),
            Kind::Par => arc_breaks(self.plan, &self.arcs, rule, place),
            Kind::Pfe => face_breaks(self.plan, &self.faced, rule, place),
            Kind::Fea | Kind::Lnk => false,
        }
    }
}

/// Of each place, whether it has a node equal to an earlier one.
fn repeated_nodes(alloc: Global, plan: &Plan) -> Result<Vec<bool>, AllocError>
    ensures { IfOk result (λ marks.
        AreMarksOf (length plan.now.list) (RepeatsAnEarlier plan.now) marks.items) }
{
    plan.keeps();
    let nodes = NodeLayer::in_plan(plan);
    let tied = ties(alloc, &nodes)?;
    marks_by_place(alloc, plan.places(Kind::Pno), &tied, plan.len())
}

/// Of each place, whether it has an arc with the points of an earlier one, in either direction.
fn repeated_arcs(alloc: Global, plan: &Plan) -> Result<Vec<bool>, AllocError>
    ensures { IfOk result (λ marks.
        AreMarksOf (length plan.now.list) (RepeatsAnEarlierArc plan.now) marks.items) }
{
    let arcs = ArcLayer::in_plan(plan);
    let tied = ties(alloc, &arcs)?;
    marks_by_place(alloc, plan.places(Kind::Par), &tied, plan.len())
}

/// Whether a node breaks a rule.
fn node_breaks(plan: &Plan, repeated: &[bool], rule: u16, place: u32) -> bool
    requires place { IsPlace plan.now place }
    requires node { (record_at plan.now place).kind ≡ Pno }
    requires repeated { AreMarksOf (length plan.now.list) (RepeatsAnEarlier plan.now) repeated.now }
    ensures { IsTrue result ↔ BreaksTopologyRule plan.now rule (place + 1) }
{
    match rule {
        403 => repeated[place as usize],
        _ => false,
    }
}

/// Whether an arc breaks a rule.
fn arc_breaks(plan: &Plan, repeated: &[bool], rule: u16, place: u32) -> bool
    requires joined { IsJoined plan.now }
    requires place { IsPlace plan.now place }
    requires arc { (record_at plan.now place).kind ≡ Par }
    requires repeated { AreMarksOf (length plan.now.list) (RepeatsAnEarlierArc plan.now) repeated.now }
    ensures { IsTrue result ↔ BreaksTopologyRule plan.now rule (place + 1) }
{
    match rule {
        401 => starts_elsewhere(plan, place),
        402 => ends_elsewhere(plan, place),
        404 => equals_reverse(plan.points(place)),
        405 => repeated[place as usize],
        _ => false,
    }
}

/// Whether a face breaks a rule.
fn face_breaks(plan: &Plan, faced: &[bool], rule: u16, place: u32) -> bool
    requires place { IsPlace plan.now place }
    requires face { (record_at plan.now place).kind ≡ Pfe }
    requires faced { AreFaced plan.now faced.now }
    ensures { IsTrue result ↔ BreaksTopologyRule plan.now rule (place + 1) }
{
    match rule {
        406 => !faced[place as usize],
        _ => false,
    }
}
