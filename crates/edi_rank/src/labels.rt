ghost use Rattle.std.specs.Prelude.{◌≡◌, ◌≢◌, ◌<◌, ◌≤◌, ◌-◌, ℕ, length, true, slice_index, slice_index_or, OnOk, IfOk, IfErr};
ghost use Rattle.edi_plan.specs.Agreeing.{Agrees};
ghost use Rattle.edi_plan.specs.Places.{places_of, member_of};
ghost use Rattle.edi_plan.specs.Plans.{IsPlace, record_at, others_of, is_object};
ghost use Rattle.edi_rank.specs.EqualObjects.{BreaksObjectRule, IsEqualObjectIfAny};
ghost use Rattle.edi_rank.specs.Laws.{TellsApart};
ghost use Rattle.edi_rank.specs.EndOrder.{OthersInOrder};
ghost use Rattle.edi_rank.specs.inner.Pieces.{IsObjectRanking};
ghost use Rattle.edi_record.specs.RecordRefusal.{IsRecordRefusal};
ghost use Rattle.edi_topo.specs.NodeKeys.{IsNodeRanking};
ghost use Rattle.edi_record.specs.declared.record.Kind.TheVariants.{Pno, Par, Pfe, Fea, Lnk};
ghost use Rattle.edi_topo.specs.Arcs.{IsForwardRanking};
ghost use Rattle.edi_rank.specs.inner.Layers.{AreNumbersOf, ArePlacesBy, IsFaceRanking, IsLinkRanking};
ghost use Rattle.edi_rank.specs.Labelling.{NumbersEach, turned_at};
ghost use Rattle.edi_rank.specs.Turned.{is_backward};
ghost use Rattle.edi_line.specs.Refusal.{IsUnbroken};

use crate::end_orders::{all_orders, lower_orders};
use crate::face_layer::FaceLayer;
use crate::fault::{RankFault, Unranked};
use crate::forward::turned_arcs;
use crate::link_layer::LinkLayer;
use crate::numbering::{lower_numbers, number_kind, places_by_number};
use crate::object_layer::ObjectLayer;
use crate::sparse_list::SparseList;
use edi_line::Sequence;
use edi_plan::Plan;
use edi_record::Kind;
use edi_schema::Schema;
use edi_topo::{Ranks, Sound, TieFault, ranks, ranks_or_tie};
use std::alloc::{AllocError, Global};
use std::marker::Model;

/// The numbers of a plan's records, which of its arcs are turned, and the order of the other ends of its links.
pub struct Labels {
    numbers: Sequence<u32>,
    turned: Sequence<bool>,
    others: Sequence<SparseList<usize>>,
    nodes: Sequence<u32>,
    arcs: Sequence<u32>,
    faces: Sequence<u32>,
    objects: Sequence<u32>,
    links: Sequence<u32>,
}

impl Drop for Labels {
    fn drop(self) {
        let Labels {
            numbers: _,
            turned: _,
            others: _,
            nodes: _,
            arcs: _,
            faces: _,
            objects: _,
            links: _,
        } = self;
    }
}

impl Model for Labels {
    ghost use Rattle.edi_rank.specs.Labelling.{Labelling};

    ghost Value = { Labelling };

    ghost view = { λ l. record {
      numbers = l.numbers;
      turned = l.turned;
      others = l.others;
      nodes = l.nodes;
      arcs = l.arcs;
      faces = l.faces;
      objects = l.objects;
      links = l.links;
    } };
}

impl Labels {
    ghost use Rattle.edi_rank.specs.EndOrder.{positions_at};
    ghost use Rattle.edi_rank.specs.Labelling.{AreLabels, order_of, number_of};
    ghost use Rattle.edi_plan.specs.Agreeing.{Agrees};

    /// The labels of a sound plan under the schema that it was built under, or the first object that is equal to an
    /// earlier one (501), in class, attributes, extra zones and pieces.
    pub fn of(alloc: Global, schema: &Schema, sound: &Sound) -> Result<Labels, RankFault>
        requires agrees { Agrees schema.now sound.now }
        ensures labels { IfOk result (AreLabels schema.now sound.now) }
        ensures distinct { OnOk result (IsUnbroken (BreaksObjectRule sound.now)) }
        ensures least { IfErr result (IsRecordRefusal (BreaksObjectRule sound.now)) }
    {
        let plan = sound.plan();
        let turned = turned_arcs(alloc, plan)?;
        let lower = lower_ranks(alloc, sound, &turned)?;
        let below_objects = lower_numbers(alloc, plan, lower.nodes, lower.arcs, &lower.faces)?;
        let below_links = number_objects(alloc, sound, below_objects)?;
        let links = link_ranks(
            alloc,
            schema,
            plan,
            &turned,
            &below_links.numbers,
            &below_links.others,
        )?;
        let orders = orders_by_number(
            alloc,
            plan,
            lower.nodes,
            lower.arcs,
            &lower.faces,
            &below_links.objects,
            &links,
        )?;
        let numbers = number_kind(plan, Kind::Lnk, &links, below_links.numbers);
        Ok(Labels {
            numbers: Sequence::from_vec(numbers),
            turned: Sequence::from_vec(turned),
            others: Sequence::from_vec(below_links.others),
            nodes: orders.nodes,
            arcs: orders.arcs,
            faces: orders.faces,
            objects: orders.objects,
            links: orders.links,
        })
    }

    /// The number of a record among those of its type, from 1.
    pub fn number(&self, place: u32) -> u32
        requires { place < length self.now.numbers }
        ensures { result ≡ number_of self.now place }
    {
        self.numbers()[place as usize]
    }

    /// The number of each record among those of its type, from 1, by place.
    pub fn numbers(&self) -> &[u32]
        ensures { result.now ≡ self.now.numbers }
    {
        self.numbers.as_slice()
    }

    /// Whether each record is an arc that is turned, by place.
    pub fn turned_arcs(&self) -> &[bool]
        ensures { result.now ≡ self.now.turned }
    {
        self.turned.as_slice()
    }

    /// The number of each record among those of its type, from 1, and whether each is an arc that is turned, by place.
    pub fn into_numbers_and_turned_arcs(self) -> (Sequence<u32>, Sequence<bool>)
        ensures numbers { result.0 ≡ self.numbers }
        ensures turned { result.1 ≡ self.turned }
    {
        let Labels {
            numbers,
            turned,
            others: _,
            nodes: _,
            arcs: _,
            faces: _,
            objects: _,
            links: _,
        } = self;
        (numbers, turned)
    }

    /// Whether a record is an arc that is turned.
    pub fn turned(&self, place: u32) -> bool
        requires { place < length self.now.turned }
        ensures { result ≡ turned_at self.now.turned place }
    {
        self.turned_arcs()[place as usize]
    }

    /// The positions of the ends of a record behind its origin, in their order. Where there is none, the
    /// ends go as they stand.
    pub fn others(&self, place: u32) -> &[usize]
        requires { place < length self.now.others }
        ensures { result.now ≡ positions_at self.now.others place }
    {
        self.others.as_slice()[place as usize].as_slice()
    }

    /// The places of the records of a type, by number.
    pub fn order(&self, kind: Kind) -> &[u32]
        ensures { result.now ≡ order_of self.now kind }
    {
        match kind {
            Kind::Pno => self.nodes.as_slice(),
            Kind::Par => self.arcs.as_slice(),
            Kind::Pfe => self.faces.as_slice(),
            Kind::Fea => self.objects.as_slice(),
            Kind::Lnk => self.links.as_slice(),
        }
    }
}

/// Nothing, if no object of a sound plan is equal to an earlier one in class, attributes, extra zones and pieces; else
/// the first that is (501). It numbers no links and takes less time than `Labels::of`, which refuses the same plans.
pub fn tell_objects_apart(alloc: Global, sound: &Sound) -> Result<(), RankFault>
    ensures distinct { OnOk result (IsUnbroken (BreaksObjectRule sound.now)) }
    ensures least { IfErr result (IsRecordRefusal (BreaksObjectRule sound.now)) }
{
    match tell_objects_apart_with_earlier(alloc, sound) {
        Ok(()) => Ok(()),
        Err(Unranked { fault, earlier: _ }) => Err(fault),
    }
}

/// What `tell_objects_apart` gives, and beside 501 the first object that the refused one is equal to.
pub fn tell_objects_apart_with_earlier(alloc: Global, sound: &Sound) -> Result<(), Unranked>
    ensures distinct { OnOk result (IsUnbroken (BreaksObjectRule sound.now)) }
    ensures least { IfErr result (λ u. IsRecordRefusal (BreaksObjectRule sound.now) u.fault) }
    ensures earlier { IfErr result (λ u. IsEqualObjectIfAny sound.now u.fault u.earlier) }
{
    let layer = numbered_objects(alloc, sound)?;
    object_ranks_with_earlier(alloc, sound, &layer)?;
    Ok(())
}

/// The objects of a sound plan, with the numbers of its nodes, arcs and faces.
pub(crate) fn numbered_objects<'a>(
    alloc: Global,
    sound: &'a Sound,
) -> Result<ObjectLayer<'a>, AllocError>
    ensures plan { IfOk result (λ layer. layer.plan ≡ sound.now) }
    ensures apart { IfOk result (λ layer. TellsApart sound.now (slice_index layer.numbers)) }
{
    let plan = sound.plan();
    let turned = turned_arcs(alloc, plan)?;
    let lower = lower_ranks(alloc, sound, &turned)?;
    let below_objects = lower_numbers(alloc, plan, lower.nodes, lower.arcs, &lower.faces)?;
    let orders = lower_orders(alloc, plan, &below_objects)?;
    ObjectLayer::from_numbers(alloc, plan, below_objects, orders)
}

/// The numbers of the faces, in file order.
fn face_ranks(
    alloc: Global,
    sound: &Sound,
    arcs: &Ranks,
    turned: &[bool],
) -> Result<Ranks, AllocError>
    requires ranking { IsForwardRanking sound.now arcs.now }
    requires turned_long { length turned.now ≡ length sound.now.list }
    requires turned { (k : ℕ) → IsPlace sound.now k → turned_at turned.now k ≡ is_backward sound.now k }
    ensures { IfOk result (IsFaceRanking sound.now arcs.now) }
{
    let _plan = sound.plan();
    let layer = FaceLayer::with_turned_arcs(alloc, sound, arcs, turned)?;
    match ranks(alloc, &layer) {
        Ok(ranks) => Ok(ranks),
        Err(TieFault::Memory(error)) => Err(error),
        Err(TieFault::Tie(_)) => unreachable!(),
    }
}

/// The numbers of the objects, in file order, by their keys.
fn object_ranks(alloc: Global, sound: &Sound, layer: &ObjectLayer<'_>) -> Result<Ranks, RankFault>
    requires plan { layer.now.plan ≡ sound.now }
    requires apart { TellsApart sound.now (slice_index layer.now.numbers) }
    ensures ranks { IfOk result (IsObjectRanking layer.now) }
    ensures distinct { OnOk result (IsUnbroken (BreaksObjectRule sound.now)) }
    ensures least { IfErr result (IsRecordRefusal (BreaksObjectRule sound.now)) }
{
    match object_ranks_with_earlier(alloc, sound, layer) {
        Ok(ranks) => Ok(ranks),
        Err(Unranked { fault, earlier: _ }) => Err(fault),
    }
}

/// The same, and beside 501 the first object that the refused one is equal to.
fn object_ranks_with_earlier(
    alloc: Global,
    sound: &Sound,
    layer: &ObjectLayer<'_>,
) -> Result<Ranks, Unranked>
    requires plan { layer.now.plan ≡ sound.now }
    requires apart { TellsApart sound.now (slice_index layer.now.numbers) }
    ensures ranks { IfOk result (IsObjectRanking layer.now) }
    ensures distinct { OnOk result (IsUnbroken (BreaksObjectRule sound.now)) }
    ensures least { IfErr result (λ u. IsRecordRefusal (BreaksObjectRule sound.now) u.fault) }
    ensures earlier { IfErr result (λ u. IsEqualObjectIfAny sound.now u.fault u.earlier) }
{
    let _plan = sound.plan();
    match ranks_or_tie(alloc, layer)? {
        Ok(ranks) => Ok(ranks),
        Err(tied) => Err(Unranked {
            fault: RankFault::Broken {
                rule: 501,
                at: u64::from(layer.place(tied.member)) + 1,
            },
            earlier: Some(u64::from(layer.place(tied.earlier))),
        }),
    }
}

/// The numbers of the objects, in file order; those of all records but the links, by place; and the
/// positions of the other ends of each record in their order, by place.
#[derive(Drop)]
struct BelowLinks {
    objects: Ranks,
    numbers: Vec<u32>,
    others: Vec<SparseList<usize>>,
}

/// Numbers the objects and puts other ends in order, where the nodes, arcs and faces have these numbers, by place, and
/// objects 0.
fn number_objects(alloc: Global, sound: &Sound, numbers: Vec<u32>) -> Result<BelowLinks, RankFault>
    requires numbers { length numbers.items ≡ length sound.now.list }
    requires objects { (k : ℕ) → IsPlace sound.now k → is_object (record_at sound.now k).kind ≡ true
        → slice_index_or numbers.items k 0 ≡ 0 }
    requires apart { TellsApart sound.now (slice_index numbers.items) }
    ensures ranks { IfOk result (λ below_links.
        IsObjectRanking (record { plan = sound.now; numbers = numbers.items }) below_links.objects) }
    ensures length { IfOk result (λ below_links. length below_links.numbers.items ≡ length sound.now.list) }
    ensures each { IfOk result (λ below_links. (k : ℕ) → IsPlace sound.now k → (record_at sound.now k).kind ≡ Fea
        → slice_index below_links.numbers.items k ≡ slice_index below_links.objects (member_of sound.now k)) }
    ensures rest { IfOk result (λ below_links. (k : ℕ) → IsPlace sound.now k → (record_at sound.now k).kind ≢ Fea
        → slice_index below_links.numbers.items k ≡ slice_index numbers.items k) }
    ensures ordered { IfOk result (λ below_links. length below_links.others.items ≡ length sound.now.list) }
    ensures others { IfOk result (λ below_links. (k : ℕ) → IsPlace sound.now k
        → OthersInOrder sound.now (slice_index below_links.numbers.items) below_links.others.items k) }
    ensures distinct { OnOk result (IsUnbroken (BreaksObjectRule sound.now)) }
    ensures least { IfErr result (IsRecordRefusal (BreaksObjectRule sound.now)) }
{
    let plan = sound.plan();
    let lower = lower_orders(alloc, plan, &numbers)?;
    let layer = ObjectLayer::from_numbers(alloc, plan, numbers, lower)?;
    let objects = object_ranks(alloc, sound, &layer)?;
    let (numbers, lower) = layer.into_parts();
    let numbers = number_kind(plan, Kind::Fea, &objects, numbers);
    let others = all_orders(alloc, plan, &numbers, lower)?;
    Ok(BelowLinks {
        objects,
        numbers,
        others,
    })
}

/// The numbers of the links, in file order. No two are equal, since a link's place is in its key.
fn link_ranks(
    alloc: Global,
    schema: &Schema,
    plan: &Plan,
    turned: &[bool],
    numbers: &[u32],
    orders: &[SparseList<usize>],
) -> Result<Ranks, AllocError>
    requires agrees { Agrees schema.now plan.now }
    requires turned { length turned.now ≡ length plan.now.list }
    requires numbers { length numbers.now ≡ length plan.now.list }
    requires ordered { length orders.now ≡ length plan.now.list }
    requires orders { (k : ℕ) → IsPlace plan.now k → OthersInOrder plan.now (slice_index numbers.now) orders.now k }
    ensures { IfOk result
        (IsLinkRanking (record { plan = plan.now; classes = schema.now; turned = turned.now; numbers = numbers.now })) }
{
    let layer = LinkLayer::of(schema, plan, turned, numbers, orders);
    match ranks(alloc, &layer) {
        Ok(ranks) => Ok(ranks),
        Err(TieFault::Memory(error)) => Err(error),
        Err(TieFault::Tie(_)) => unreachable!(),
    }
}

/// The numbers of the nodes, the arcs and the faces.
struct LowerRanks<'a> {
    nodes: &'a Ranks,
    arcs: &'a Ranks,
    faces: Ranks,
}

impl Drop for LowerRanks<'_> {
    fn drop(self) {
        let LowerRanks {
            nodes: _,
            arcs: _,
            faces: _,
        } = self;
    }
}

fn lower_ranks<'a>(
    alloc: Global,
    sound: &'a Sound,
    turned: &[bool],
) -> Result<LowerRanks<'a>, AllocError>
    requires turned_long { length turned.now ≡ length sound.now.list }
    requires turned { (k : ℕ) → IsPlace sound.now k → turned_at turned.now k ≡ is_backward sound.now k }
    ensures nodes { IfOk result (λ lower. IsNodeRanking sound.now lower.nodes.now) }
    ensures arcs { IfOk result (λ lower. IsForwardRanking sound.now lower.arcs.now) }
    ensures faces { IfOk result (λ lower. IsFaceRanking sound.now lower.arcs.now lower.faces) }
{
    let nodes = sound.node_ranks();
    let arcs = sound.arc_ranks();
    let faces = face_ranks(alloc, sound, arcs, turned)?;
    Ok(LowerRanks { nodes, arcs, faces })
}

/// The places of the records of each type, by number.
#[derive(Drop)]
struct Orders {
    nodes: Sequence<u32>,
    arcs: Sequence<u32>,
    faces: Sequence<u32>,
    objects: Sequence<u32>,
    links: Sequence<u32>,
}

/// The places of the records of each type, by these numbers.
fn orders_by_number(
    alloc: Global,
    plan: &Plan,
    nodes: &Ranks,
    arcs: &Ranks,
    faces: &Ranks,
    objects: &Ranks,
    links: &Ranks,
) -> Result<Orders, AllocError>
    requires nodes { AreNumbersOf plan.now Pno nodes.now }
    requires arcs { AreNumbersOf plan.now Par arcs.now }
    requires faces { AreNumbersOf plan.now Pfe faces.now }
    requires objects { AreNumbersOf plan.now Fea objects.now }
    requires links { AreNumbersOf plan.now Lnk links.now }
    ensures nodes { IfOk result (λ orders. ArePlacesBy plan.now Pno nodes.now orders.nodes) }
    ensures arcs { IfOk result (λ orders. ArePlacesBy plan.now Par arcs.now orders.arcs) }
    ensures faces { IfOk result (λ orders. ArePlacesBy plan.now Pfe faces.now orders.faces) }
    ensures objects { IfOk result (λ orders. ArePlacesBy plan.now Fea objects.now orders.objects) }
    ensures links { IfOk result (λ orders. ArePlacesBy plan.now Lnk links.now orders.links) }
{
    Ok(Orders {
        nodes: kind_by_number(alloc, plan, Kind::Pno, nodes)?,
        arcs: kind_by_number(alloc, plan, Kind::Par, arcs)?,
        faces: kind_by_number(alloc, plan, Kind::Pfe, faces)?,
        objects: kind_by_number(alloc, plan, Kind::Fea, objects)?,
        links: kind_by_number(alloc, plan, Kind::Lnk, links)?,
    })
}

/// The places of the records of a type, by number.
fn kind_by_number(
    alloc: Global,
    plan: &Plan,
    kind: Kind,
    ranks: &Ranks,
) -> Result<Sequence<u32>, AllocError>
    requires long { length ranks.now ≡ length (places_of kind plan.now) }
    requires each { NumbersEach ranks.now }
    ensures length { IfOk result (λ order. length order ≡ length (places_of kind plan.now)) }
    ensures places { IfOk result (λ order. (m : ℕ) → m < length (places_of kind plan.now)
        → slice_index order (slice_index ranks.now m - 1) ≡ slice_index (places_of kind plan.now) m) }
{
    plan.keeps();
    let order = places_by_number(alloc, plan.places(kind), ranks)?;
    Ok(Sequence::from_vec(order))
}
