//! Nodes and arcs of one plan that hold the same as nodes and arcs of another.

ghost use Rattle.std.specs.Prelude.{◌≡◌, ◌⊎◌, ◌↔◌, ℕ, Bool, IfOk, IsPermutation, IsSorted, IsTrue, true};
ghost use Rattle.std.specs.Ordering.{nat_cmp, ordering_then};
ghost use Rattle.edi_record.specs.Orders.{points_cmp};
ghost use Rattle.edi_record.specs.declared.record.Kind.TheVariants.{Pno, Par};
ghost use Rattle.edi_plan.specs.Plans.{IsPlace, record_at};
ghost use Rattle.edi_topo.specs.NodeKeys.{node_key_cmp};
ghost use Rattle.edi_schema.specs.Classes.{Classes};
ghost use Rattle.edi_matching.specs.Differences.{ArePartners, MatchesPartners};
ghost use Rattle.edi_matching.specs.Matchings.{MatchingHolds};
ghost use Rattle.edi_matching.specs.inner.Partners.{GoesToPartner, IsDirectionIfAny, IsMemberIfAny, IsOnlyAt, IsPartnerIfAny, IsSameIfAny, keyed_arcs, keyed_nodes};

use crate::keys::member_with;
use crate::matching::Matching;
use edi_compare::contents::{same_attributes, same_extras, same_points};
use edi_line::Sequence;
use edi_plan::Plan;
use edi_record::{Kind, Point};
use edi_topo::{ArcLayer, ForwardPoints, NodeKey, NodeLayer, Sound, members_by_key, node_key_at};
use std::alloc::{AllocError, Global};
use std::cmp::Ordering;
use std::marker::Model;

/// Two sound plans, with the nodes and the arcs of the second in the order of their keys.
pub(crate) struct Partners<'a> {
    plan: &'a Plan,
    other: &'a Plan,
    nodes: Vec<(NodeKey<'a>, u32)>,
    arcs: Vec<(ForwardPoints<'a>, u32)>,
}

impl Drop for Partners<'_> {
    fn drop(self) {
        let Partners {
            plan: _,
            other: _,
            nodes: _,
            arcs: _,
        } = self;
    }
}

impl<'a> Model for Partners<'a> {
    ghost use Rattle.std.specs.Prelude.{IsPermutation, IsSorted};
    ghost use Rattle.std.specs.Ordering.{nat_cmp, ordering_then};
    ghost use Rattle.edi_record.specs.Orders.{points_cmp};
    ghost use Rattle.edi_topo.specs.NodeKeys.{node_key_cmp};
    ghost use Rattle.edi_matching.specs.inner.Partners.{AreSound, TwoPlans, keyed_arcs, keyed_nodes};

    ghost Value = { TwoPlans };

    ghost view = { λ p. record { plan = p.plan.now; other = p.other.now } };

    ghost invariant = { λ p. AreSound (record { plan = p.plan.now; other = p.other.now })
        × IsPermutation (keyed_nodes p.other.now) p.nodes.items
        × IsSorted (λ x y. ordering_then (node_key_cmp x.0 y.0) (nat_cmp x.1 y.1)) p.nodes.items
        × IsPermutation (keyed_arcs p.other.now) p.arcs.items
        × IsSorted (λ x y. ordering_then (points_cmp x.0 y.0) (nat_cmp x.1 y.1)) p.arcs.items };
}

impl<'a> Partners<'a> {
    pub(crate) fn of(
        alloc: Global,
        first: &'a Sound,
        second: &'a Sound,
    ) -> Result<Partners<'a>, AllocError>
        ensures { IfOk result (λ p. p ≡ record { plan = first.now; other = second.now }) }
    {
        let nodes = nodes_by_key(alloc, second)?;
        let arcs = arcs_by_key(alloc, second)?;
        Ok(Partners {
            plan: first.plan(),
            other: second.plan(),
            nodes,
            arcs,
        })
    }

    /// The matching of nodes and arcs with their partners.
    pub(crate) fn matching(&self, alloc: Global) -> Result<Matching, AllocError>
        ensures holds { (s : Classes) → IfOk result (MatchingHolds s self.now.plan self.now.other) }
        ensures partners { IfOk result (MatchesPartners self.now.plan self.now.other) }
    {
        self.plan.keeps();
        self.other.keeps();
        let mut to = Vec::with_capacity(alloc, self.plan.len() as usize)?;
        let mut turned = Vec::with_capacity(alloc, self.plan.len() as usize)?;
        for place in 0..self.plan.len() {
            let (target, is_turned) = self.target(alloc, place)?;
            to.push(target)?;
            turned.push(is_turned)?;
        }
        Ok(Matching {
            to: Sequence::from_vec(to),
            turned: Sequence::from_vec(turned),
        })
    }

    /// Where a record goes: to its partner, if it has one; and whether its points are backwards there.
    fn target(&self, alloc: Global, place: u32) -> Result<(Option<u32>, bool), AllocError>
        requires { IsPlace self.now.plan place }
        ensures { IfOk result (λ went. GoesToPartner self.now place went.0 went.1) }
    {
        match self.partner(alloc, place)? {
            Some((target, turned)) => Ok((Some(target), turned)),
            None => Ok((None, false)),
        }
    }

    /// Where the partner of a record is, and whether its points are backwards there.
    fn partner(&self, alloc: Global, place: u32) -> Result<Option<(u32, bool)>, AllocError>
        requires { IsPlace self.now.plan place }
        ensures { IfOk result (IsPartnerIfAny self.now place) }
    {
        match self.plan.kind(place) {
            Kind::Pno => {
                let found = self.node_with_key(alloc, place)?;
                self.partner_among(alloc, place, found)
            }
            Kind::Par => self.partner_among(alloc, place, self.arc_with_key(place)),
            Kind::Pfe | Kind::Fea | Kind::Lnk => Ok(None),
        }
    }

    /// The partner of a record, which can only be at this place, if there is one.
    fn partner_among(
        &self,
        alloc: Global,
        place: u32,
        found: Option<u32>,
    ) -> Result<Option<(u32, bool)>, AllocError>
        requires place { IsPlace self.now.plan place }
        requires kind { ((record_at self.now.plan place).kind ≡ Pno) ⊎ ((record_at self.now.plan place).kind ≡ Par) }
        requires only { IsOnlyAt self.now place found }
        ensures { IfOk result (IsPartnerIfAny self.now place) }
    {
        match found {
            Some(target) => self.partner_at(alloc, place, target),
            None => Ok(None),
        }
    }

    /// The node with the key of a node.
    fn node_with_key(&self, alloc: Global, place: u32) -> Result<Option<u32>, AllocError>
        requires place { IsPlace self.now.plan place }
        requires node { (record_at self.now.plan place).kind ≡ Pno }
        ensures { IfOk result (IsOnlyAt self.now place) }
    {
        let key = node_key_at(alloc, self.plan, place)?;
        self.other.keeps();
        match node_member(&self.nodes, &key) {
            Some(member) => Ok(Some(self.other.places(Kind::Pno)[member as usize])),
            None => Ok(None),
        }
    }

    /// The arc with the points of an arc, in either direction.
    fn arc_with_key(&self, place: u32) -> Option<u32>
        requires place { IsPlace self.now.plan place }
        requires arc { (record_at self.now.plan place).kind ≡ Par }
        ensures { IsOnlyAt self.now place result }
    {
        let key = ForwardPoints::of(self.plan.points(place));
        self.other.keeps();
        match member_with(&self.arcs, &key) {
            Some(member) => Some(self.other.places(Kind::Par)[member as usize]),
            None => None,
        }
    }

    /// The partner of a record, which can only be at this place.
    fn partner_at(
        &self,
        alloc: Global,
        place: u32,
        target: u32,
    ) -> Result<Option<(u32, bool)>, AllocError>
        requires place { IsPlace self.now.plan place }
        requires kind { ((record_at self.now.plan place).kind ≡ Pno) ⊎ ((record_at self.now.plan place).kind ≡ Par) }
        requires target { IsPlace self.now.other target }
        requires only { (j : ℕ) (turned : Bool) → ArePartners self.now.plan self.now.other place j turned → j ≡ target }
        ensures { IfOk result (IsPartnerIfAny self.now place) }
    {
        match same_record(alloc, self.plan, place, self.other, target)? {
            Some(turned) => Ok(Some((target, turned))),
            None => Ok(None),
        }
    }
}

/// The nodes of a plan with their keys, in the order of these.
fn nodes_by_key(alloc: Global, sound: &Sound) -> Result<Vec<(NodeKey<'_>, u32)>, AllocError>
    ensures members { IfOk result (λ nodes. IsPermutation (keyed_nodes sound.now) nodes.items) }
    ensures sorted { IfOk result (λ nodes.
        IsSorted (λ x y. ordering_then (node_key_cmp x.0 y.0) (nat_cmp x.1 y.1)) nodes.items) }
{
    members_by_key(alloc, &NodeLayer::of(alloc, sound)?)
}

/// The arcs of a plan with their points in the forward direction, in the order of these.
fn arcs_by_key(alloc: Global, sound: &Sound) -> Result<Vec<(ForwardPoints<'_>, u32)>, AllocError>
    ensures members { IfOk result (λ arcs. IsPermutation (keyed_arcs sound.now) arcs.items) }
    ensures sorted { IfOk result (λ arcs.
        IsSorted (λ x y. ordering_then (points_cmp x.0 y.0) (nat_cmp x.1 y.1)) arcs.items) }
{
    members_by_key(alloc, &ArcLayer::of(alloc, sound)?)
}

/// The node with this key, by its number in file order.
fn node_member(nodes: &[(NodeKey<'_>, u32)], key: &NodeKey<'_>) -> Option<u32>
    requires { IsSorted (λ x y. ordering_then (node_key_cmp x.0 y.0) (nat_cmp x.1 y.1)) nodes.now }
    ensures { IsMemberIfAny node_key_cmp nodes.now key.now result }
{
    member_with(nodes, key)
}

/// Whether the one record holds what the other does, and then whether its points are backwards.
pub(crate) fn same_record(
    alloc: Global,
    plan: &Plan,
    place: u32,
    other: &Plan,
    target: u32,
) -> Result<Option<bool>, AllocError>
    requires place { IsPlace plan.now place }
    requires target { IsPlace other.now target }
    ensures { IfOk result (IsSameIfAny (record_at plan.now place) (record_at other.now target)) }
{
    let may_be = other.kind(target) == plan.kind(place)
        && other.scp(target) == plan.scp(place)
        && same_extras(plan.extras(place), other.extras(target));
    if !may_be || !same_attributes(alloc, plan.attributes(place), other.attributes(target))? {
        return Ok(None);
    }
    Ok(direction(plan.kind(place), plan.points(place), other.points(target)))
}

/// Whether these points are those of a record of this type, or of an arc backwards.
fn direction(kind: Kind, points: &[Point], others: &[Point]) -> Option<bool>
    ensures { IsDirectionIfAny kind points.now others.now result }
{
    if same_points(points, false, others) {
        Some(false)
    } else if kind == Kind::Par && same_points(points, true, others) {
        Some(true)
    } else {
        None
    }
}
