//! The nodes of a plan, by their keys.

ghost use Rattle.std.specs.Prelude.{◌≡◌, ◌<◌, ◌≤◌, ℕ, length, slice_index, slice_index_or, map, IfOk, IfErr, MatchOption, Some};
ghost use Rattle.edi_record.specs.declared.record.Kind.TheVariants.{Pno};
ghost use Rattle.edi_plan.specs.EarlierLinks.{IsLeast};
ghost use Rattle.edi_plan.specs.Places.{places_of};
ghost use Rattle.edi_plan.specs.Plans.{IsPlace, record_at};
ghost use Rattle.edi_topo.specs.NodeKeys.{node_keys, no_node, IsNodeRanking};
ghost use Rattle.edi_topo.specs.TopologyRules.{AreEqualNodes};
ghost use Rattle.edi_topo.specs.EarlierRecords.{IsEqualNode};
ghost use Rattle.edi_topo.specs.inner.Nodes.{IsFirstRepeatedNodeIfAny};
ghost use Rattle.edi_topo.specs.inner.Repeats.{repeat_place};

use crate::layer::Layer;
use crate::node_key::{NodeKey, node_key_at};
use crate::numbers::Ranks;
use crate::ranking::ranks_or_tie;
use crate::repeat::Repeat;
use crate::sound::Sound;
use edi_plan::Plan;
use edi_record::Kind;
use std::alloc::{AllocError, Global};
use std::marker::Model;

/// The nodes of a plan, in file order, by place, class, attributes and extras.
#[derive(Drop)]
pub struct NodeLayer<'a> {
    plan: &'a Plan,
    places: &'a [u32],
}

impl<'a> Model for NodeLayer<'a> {
    ghost use Rattle.std.specs.Prelude.{List, map, ◌≡◌, ◌≤◌, length};
    ghost use Rattle.edi_record.specs.declared.record.Kind.TheVariants.{Pno};
    ghost use Rattle.edi_plan.specs.Places.{places_of};
    ghost use Rattle.edi_plan.specs.Plans.{PlanData};

    ghost Value = { PlanData };

    ghost view = { λ n. n.plan.now };

    ghost invariant = { λ n. n.places.now ≡ places_of Pno n.plan.now };
}

impl<'a> NodeLayer<'a> {
    /// The nodes of a sound plan.
    pub fn of(_alloc: Global, sound: &'a Sound) -> Result<NodeLayer<'a>, AllocError>
        ensures { IfOk result (λ layer. layer ≡ sound.now) }
    {
        Ok(NodeLayer::in_plan(sound.plan()))
    }

    /// The nodes of a plan.
    pub(crate) fn in_plan(plan: &'a Plan) -> NodeLayer<'a>
        ensures { result ≡ plan.now }
    {
        NodeLayer {
            plan,
            places: plan.places(Kind::Pno),
        }
    }

    /// The place of a node.
    pub fn place(&self, member: u32) -> u32
        requires { member < length (places_of Pno self.now) }
        ensures { result ≡ slice_index (places_of Pno self.now) member }
    {
        self.places[member as usize]
    }
}

impl<'a> Layer for NodeLayer<'a> {
    type Key = NodeKey<'a>;

    ghost size = { λ n. length (places_of Pno n) };

    ghost key_of = { λ n m. slice_index_or (node_keys n) m no_node };

    fn len(&self) -> u32 {
        self.plan.keeps();
        self.places.len() as u32
    }

    fn key(&self, alloc: Global, member: u32) -> Result<NodeKey<'a>, AllocError> {
        node_key_at(alloc, self.plan, self.place(member))
    }
}

/// The numbers of the nodes, in file order; or the first that is equal to an earlier one, with the first that it is
/// equal to.
pub(crate) fn ranks_or_repeat(
    alloc: Global,
    plan: &Plan,
) -> Result<Result<Ranks, Repeat>, AllocError>
    ensures ranks { IfOk result (λ found. IfOk found (IsNodeRanking plan.now)) }
    ensures repeat { IfOk result (λ found. IsFirstRepeatedNodeIfAny plan.now (repeat_place found)) }
    ensures earlier { IfOk result (λ found. IfErr found (λ r. IsLeast (IsEqualNode plan.now r.place) r.earlier)) }
{
    plan.keeps();
    let nodes = NodeLayer::in_plan(plan);
    match ranks_or_tie(alloc, &nodes)? {
        Ok(ranks) => Ok(Ok(ranks)),
        Err(tied) => Ok(Err(Repeat {
            place: nodes.place(tied.member),
            earlier: nodes.place(tied.earlier),
        })),
    }
}
