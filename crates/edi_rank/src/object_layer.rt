//! The objects by their keys.

ghost use Rattle.std.specs.Prelude.{◌≡◌, ◌≢◌, ◌<◌, ◌≤◌, ℕ, [], true, length, map, slice_index, slice_index_or, All, IfOk, MatchOption, ⊤, ◌==◌};
ghost use Rattle.std.specs.List.{AllByRecursion, list_any};
ghost use Rattle.edi_record.specs.declared.record.Kind.TheVariants.{Pno, Par, Pfe, Fea};
ghost use Rattle.edi_plan.specs.Places.{places_of};
ghost use Rattle.edi_plan.specs.Plans.{IsPlace, record_at, others_of, is_object as is_object_kind};
ghost use Rattle.edi_schema.specs.Sorted.{sort_by};
ghost use Rattle.edi_rank.specs.EndOrder.{OthersInOrder};
ghost use Rattle.edi_rank.specs.Keys.{is_piece, link_key, link_key_cmp};
ghost use Rattle.edi_rank.specs.Layers.{object_keys};
ghost use Rattle.edi_rank.specs.Pieces.{object_count, object_key_at};
ghost use Rattle.edi_rank.specs.inner.Pieces.{is_owner, piece_places};

use crate::end_orders::lower_orders;
use crate::keys::{LinkKey, ObjectKey};
use crate::link_key::link_key_at;
use crate::numbering::lower_numbers;
use crate::sparse_list::SparseList;
use edi_line::{BorrowedList, ListOfBorrowed, Sequence};
use edi_plan::{Plan, PlanEnd, sorted_attributes};
use edi_record::Kind;
use edi_topo::{Layer, Ranks, Sound};
use std::alloc::{AllocError, Global};
use std::marker::Model;

/// The objects of a plan, in file order, by their classes, what they hold, and their pieces.
pub struct ObjectLayer<'a> {
    plan: &'a Plan,
    numbers: Vec<u32>,
    orders: Vec<SparseList<usize>>,
    places: &'a [u32],
    links: Vec<SparseList<u32>>,
}

impl Drop for ObjectLayer<'_> {
    fn drop(self) {
        let ObjectLayer {
            plan: _,
            numbers: _,
            orders: _,
            places: _,
            links: _,
        } = self;
    }
}

impl<'a> Model for ObjectLayer<'a> {
    ghost use Rattle.std.specs.Prelude.{◌≡◌, ◌≤◌, ℕ, [], true, map, length, slice_index, slice_index_or};
    ghost use Rattle.edi_record.specs.declared.record.Kind.TheVariants.{Fea};
    ghost use Rattle.edi_plan.specs.Places.{places_of};
    ghost use Rattle.edi_plan.specs.Plans.{IsPlace, record_at, others_of, is_object};
    ghost use Rattle.edi_rank.specs.EndOrder.{OthersInOrder};
    ghost use Rattle.edi_rank.specs.Pieces.{ObjectSource, object_count};
    ghost use Rattle.edi_rank.specs.inner.Pieces.{piece_places};

    ghost Value = { ObjectSource };

    ghost view = { λ l. record { plan = l.plan.now; numbers = l.numbers.items } };

    ghost invariant = { λ l. (l.places.now ≡ places_of Fea l.plan.now)
        × (length l.numbers.items ≡ length l.plan.now.list) × (length l.links.items ≡ length l.plan.now.list)
        × ((k : ℕ) → IsPlace l.plan.now k → is_object (record_at l.plan.now k).kind ≡ true
        → slice_index_or l.numbers.items k 0 ≡ 0)
        × ((k : ℕ) → IsPlace l.plan.now k → is_object (record_at l.plan.now k).kind ≡ true
        → slice_index_or l.links.items k [] ≡ piece_places l.plan.now k)
        × (length l.orders.items ≡ length l.plan.now.list)
        × ((k : ℕ) → IsPlace l.plan.now k → object_count l.plan.now (others_of (record_at l.plan.now k)) ≤ 1
        → OthersInOrder l.plan.now (slice_index l.numbers.items) l.orders.items k) };
}

impl<'a> ObjectLayer<'a> {
    /// The objects of a sound plan, where its nodes, arcs and faces have these numbers.
    pub fn of(
        alloc: Global,
        sound: &'a Sound,
        nodes: &Ranks,
        arcs: &Ranks,
        faces: &Ranks,
    ) -> Result<ObjectLayer<'a>, AllocError>
        requires nodes { length nodes.now ≡ length (places_of Pno sound.now) }
        requires arcs { length arcs.now ≡ length (places_of Par sound.now) }
        requires faces { length faces.now ≡ length (places_of Pfe sound.now) }
        ensures plan { IfOk result (λ layer. layer.plan ≡ sound.now) }
        ensures keys { IfOk result (λ layer. map (object_key_at layer) (places_of Fea sound.now)
            ≡ object_keys sound.now nodes.now arcs.now faces.now) }
    {
        ObjectLayer::of_plan(alloc, sound.plan(), nodes, arcs, faces)
    }

    /// The objects of a plan, where its nodes, arcs and faces have these numbers.
    fn of_plan(
        alloc: Global,
        plan: &'a Plan,
        nodes: &Ranks,
        arcs: &Ranks,
        faces: &Ranks,
    ) -> Result<ObjectLayer<'a>, AllocError>
        requires nodes { length nodes.now ≡ length (places_of Pno plan.now) }
        requires arcs { length arcs.now ≡ length (places_of Par plan.now) }
        requires faces { length faces.now ≡ length (places_of Pfe plan.now) }
        ensures plan { IfOk result (λ layer. layer.plan ≡ plan.now) }
        ensures keys { IfOk result (λ layer. map (object_key_at layer) (places_of Fea plan.now)
            ≡ object_keys plan.now nodes.now arcs.now faces.now) }
    {
        plan.keeps();
        let numbers = lower_numbers(alloc, plan, nodes, arcs, faces)?;
        let orders = lower_orders(alloc, plan, &numbers)?;
        ObjectLayer::from_numbers(alloc, plan, numbers, orders)
    }

    /// The objects of a plan, where its nodes, arcs and faces have these numbers, by place, and its objects have 0,
    /// with the positions of the other ends of each record in their order, where at most one is an object.
    pub(crate) fn from_numbers(
        alloc: Global,
        plan: &'a Plan,
        numbers: Vec<u32>,
        orders: Vec<SparseList<usize>>,
    ) -> Result<ObjectLayer<'a>, AllocError>
        requires numbers { length numbers.items ≡ length plan.now.list }
        requires objects { (k : ℕ) → IsPlace plan.now k → is_object_kind (record_at plan.now k).kind ≡ true
            → slice_index_or numbers.items k 0 ≡ 0 }
        requires ordered { length orders.items ≡ length plan.now.list }
        requires orders { (k : ℕ) → IsPlace plan.now k → object_count plan.now (others_of (record_at plan.now k)) ≤ 1
            → OthersInOrder plan.now (slice_index numbers.items) orders.items k }
        ensures { IfOk result (λ layer. layer ≡ record { plan = plan.now; numbers = numbers.items }) }
    {
        let links = links_by_object(alloc, plan)?;
        Ok(ObjectLayer {
            plan,
            numbers,
            orders,
            places: plan.places(Kind::Fea),
            links,
        })
    }

    /// The numbers by place, and the positions of the other ends of each record in their order.
    pub(crate) fn into_parts(self) -> (Vec<u32>, Vec<SparseList<usize>>)
        ensures numbers { result.0.items ≡ self.entry.numbers }
        ensures ordered { length result.1.items ≡ length self.entry.plan.list }
        ensures orders { (k : ℕ) → IsPlace self.entry.plan k
            → object_count self.entry.plan (others_of (record_at self.entry.plan k)) ≤ 1
            → OthersInOrder self.entry.plan (slice_index self.entry.numbers) result.1.items k }
    {
        let ObjectLayer {
            plan: _,
            numbers,
            orders,
            places: _,
            links: _,
        } = self;
        (numbers, orders)
    }

    /// The place of an object.
    pub(crate) fn place(&self, member: u32) -> u32
        requires { member < length (places_of Fea self.now.plan) }
        ensures { result ≡ slice_index (places_of Fea self.now.plan) member }
    {
        self.places[member as usize]
    }
}

impl<'a> Layer for ObjectLayer<'a> {
    type Key = ObjectKey<'a>;

    ghost size = { λ l. length (places_of Fea l.plan) };

    ghost key_of = { λ l m. object_key_at l (slice_index (places_of Fea l.plan) m) };

    fn len(&self) -> u32 {
        self.plan.keeps();
        self.places.len() as u32
    }

    fn key(&self, alloc: Global, member: u32) -> Result<ObjectKey<'a>, AllocError> {
        let place = self.place(member);
        let attributes = sorted_attributes(alloc, self.plan.attributes(place))?;
        let links: &[SparseList<u32>] = &self.links;
        let own = links[place as usize].as_slice();
        let pieces = sorted_pieces(alloc, self.plan, &self.numbers, &self.orders, own)?;
        Ok(ObjectKey {
            class: self.plan.scp(place),
            attributes: ListOfBorrowed::from_vec(attributes),
            extras: BorrowedList::of(self.plan.extras(place)),
            pieces: Sequence::from_vec(pieces),
        })
    }
}

pub(crate) fn is_object(plan: &Plan, place: u32) -> bool
    requires { IsPlace plan.now place }
    ensures { result ≡ is_object_kind (record_at plan.now place).kind }
{
    match plan.kind(place) {
        Kind::Fea => true,
        Kind::Pno | Kind::Par | Kind::Pfe | Kind::Lnk => false,
    }
}

/// The only object among these ends.
fn only_object(plan: &Plan, ends: &[PlanEnd]) -> Option<u32>
    requires { AllByRecursion (λ e. IsPlace plan.now e.target) ends.now }
    ensures { MatchOption result (object_count plan.now ends.now ≢ 1)
        (λ k. (object_count plan.now ends.now ≡ 1) × IsPlace plan.now k
        × (is_object_kind (record_at plan.now k).kind ≡ true) × (list_any (λ e. e.target == k) ends.now ≡ true)) }
{
    let mut found = None;
    let mut count: usize = 0;
    for end in ends {
        if is_object(plan, end.target) {
            found = Some(end.target);
            count += 1;
        }
    }
    if count == 1 { found } else { None }
}

/// The object that a link is a piece of.
fn owner(plan: &Plan, place: u32) -> Option<u32>
    requires { IsPlace plan.now place }
    ensures there { MatchOption result ⊤ (IsPlace plan.now) }
    ensures owner { (object : ℕ) → is_object_kind (record_at plan.now object).kind ≡ true
        → is_piece plan.now object (record_at plan.now place) ≡ is_owner result object }
{
    plan.keeps();
    match plan.kind(place) {
        Kind::Lnk => only_object(plan, plan.ends(place)),
        Kind::Pno | Kind::Par | Kind::Pfe | Kind::Fea => None,
    }
}

/// The links that are pieces of each object, by its place.
fn links_by_object(alloc: Global, plan: &Plan) -> Result<Vec<SparseList<u32>>, AllocError>
    ensures length { IfOk result (λ links. length links.items ≡ length plan.now.list) }
    ensures links { IfOk result (λ links. (k : ℕ) → IsPlace plan.now k
        → is_object_kind (record_at plan.now k).kind ≡ true
        → slice_index_or links.items k [] ≡ piece_places plan.now k) }
{
    let mut links = no_links(alloc, plan.len())?;
    for place in 0..plan.len() {
        if let Some(object) = owner(plan, place) {
            links[object as usize].push(alloc, place)?;
        }
    }
    Ok(links)
}

/// So many empty lists.
fn no_links(alloc: Global, count: u32) -> Result<Vec<SparseList<u32>>, AllocError>
    ensures length { IfOk result (λ links. length links.items ≡ count) }
    ensures empty { IfOk result (λ links. All (λ list. list ≡ []) links.items) }
{
    let mut links = Vec::with_capacity(alloc, count as usize)?;
    for _ in 0..count {
        links.push(SparseList::new())?;
    }
    Ok(links)
}

/// The keys of an object's pieces in their order.
fn sorted_pieces<'a>(
    alloc: Global,
    plan: &'a Plan,
    numbers: &[u32],
    orders: &[SparseList<usize>],
    links: &[u32],
) -> Result<Vec<LinkKey<'a>>, AllocError>
    requires links { AllByRecursion (IsPlace plan.now) links.now }
    requires numbers { length numbers.now ≡ length plan.now.list }
    requires ordered { length orders.now ≡ length plan.now.list }
    requires orders { AllByRecursion (OthersInOrder plan.now (slice_index numbers.now) orders.now) links.now }
    ensures { IfOk result (λ keys. keys.items
        ≡ sort_by link_key_cmp
        (map (λ k. link_key plan.now (slice_index numbers.now) (record_at plan.now k)) links.now)) }
{
    let mut keys = Vec::with_capacity(alloc, links.len())?;
    for link in links {
        let order = orders[*link as usize].as_slice();
        keys.push(link_key_at(alloc, plan, numbers, order, plan.scp(*link), *link)?)?;
    }
    keys.sort_unstable();
    Ok(keys)
}
