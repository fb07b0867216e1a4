//! The key of a link with its place, by which links are sorted. Nearly each link has two ends and nothing else: its
//! key lies in the value itself, in two numbers, and needs no list.

ghost use Rattle.std.specs.Prelude.{◌≡◌, ◌∷◌, [], ℕ, None, IfOk, IfSome, refl};
ghost use Rattle.std.specs.Ordering.{as_partial_cmp, eq_by_cmp, ordering_then};
ghost use Rattle.std.specs.Cmp.Lexicographic.{slice_cmp};
ghost use Rattle.std.specs.Cmp.{eq_by_cmp_equiv, partial_equiv_from_equiv, partial_order_from_total};
ghost use Rattle.edi_rank.specs.contracts.keys.LinkKeyOrd.TheImpl.{ghosts as links};
ghost use Rattle.edi_rank.specs.contracts.keys.NumberedEndOrd.TheImpl.{ghosts as ends};
ghost use Rattle.edi_rank.specs.inner.PlacedLinks.{IsBareIfSaid, IsOfClass, unpacked_end as end_by, has_neither, key_in, least_packed, packed_kind, pair_key, placed_cmp, placed_total, rest_cmp};

use crate::keys::{LinkKey, NumberedEnd};
use edi_record::Kind;
use edi_schema::ClassRef;
use std::alloc::{AllocError, Global};
use std::cmp::Ordering;
use std::marker::Model;

// The least packed ends of the types behind nodes. The number of what a packed end names has 24 bits, which hold more
// than a sheet has records.
const ARCS: u32 = 1 << 24;

const FACES: u32 = 2 << 24;

const OBJECTS: u32 = 3 << 24;

const LINKS: u32 = 4 << 24;

/// An end without SNS: the type of what it names above its number. Packed in one number, which goes as the two go, it
/// takes one comparison and four bytes.
#[derive(Clone, Copy, PartialEq, Eq, PartialOrd, Ord)]
pub(crate) struct PlainEnd {
    packed: u32,
}

/// The ends of a link that has two, without SNS. Such pairs go by the origin, and then by the other end.
#[derive(Clone, Copy, PartialEq, Eq, PartialOrd, Ord)]
pub(crate) struct PlainPair {
    pub(crate) origin: PlainEnd,
    pub(crate) other: PlainEnd,
}

/// A whole key, and whether it has neither attributes nor extra zones.
pub(crate) struct WholeKey<'a> {
    key: LinkKey<'a>,
    is_bare: bool,
}

impl Drop for WholeKey<'_> {
    fn drop(self) {
        let WholeKey { key: _, is_bare: _ } = self;
    }
}

/// What the key of a link holds beside its class. It is as small as it can be, since a sort moves it often.
#[derive(Drop)]
pub(crate) enum LinkParts<'a> {
    /// Two ends without SNS, and nothing else.
    Pair(PlainPair),
    Whole(Box<WholeKey<'a>>),
}

/// The key of a link, and its place.
pub(crate) struct PlacedLink<'a> {
    class: ClassRef,
    place: u32,
    parts: LinkParts<'a>,
}

impl Drop for PlacedLink<'_> {
    fn drop(self) {
        let PlacedLink {
            class: _,
            place: _,
            parts: _,
        } = self;
    }
}

impl<'a> Model for PlacedLink<'a> {
    ghost use Rattle.std.specs.Prelude.{ℕ};
    ghost use Rattle.edi_rank.specs.inner.PlacedLinks.{IsBareIfSaid, IsOfClass, key_in};
    ghost use Rattle.edi_rank.specs.declared.keys.LinkKey.{LinkKey as Key};

    ghost Value = { Key × ℕ };

    ghost view = { λ l. (key_in l.class l.parts, l.place) };

    ghost invariant = { λ l. IsOfClass l.class l.parts × IsBareIfSaid l.parts };
}

impl<'a> PlacedLink<'a> {
    /// The key of a link of two ends without SNS and nothing else, with its place.
    pub(crate) fn from_pair(class: ClassRef, pair: PlainPair, place: u32) -> PlacedLink<'a>
        ensures { result ≡ (pair_key class pair, place) }
    {
        PlacedLink {
            class,
            place,
            parts: LinkParts::Pair(pair),
        }
    }

    /// A key with its place, where it is known whether the key has neither attributes nor extra zones.
    pub(crate) fn from_key(
        alloc: Global,
        key: LinkKey<'a>,
        is_bare: bool,
        place: u32,
    ) -> Result<PlacedLink<'a>, AllocError>
        requires { is_bare ≡ has_neither key }
        ensures { IfOk result (λ l. l ≡ (key.entry, place)) }
    {
        let class = key.class;
        let whole = Box::new(alloc, WholeKey { key, is_bare })?;
        Ok(PlacedLink {
            class,
            place,
            parts: LinkParts::Whole(whole),
        })
    }
}

/// The least packed end of a type.
fn least_of(kind: Kind) -> u32
    ensures { result ≡ least_packed kind }
{
    match kind {
        Kind::Pno => 0,
        Kind::Par => ARCS,
        Kind::Pfe => FACES,
        Kind::Fea => OBJECTS,
        Kind::Lnk => LINKS,
    }
}

/// An end without SNS that names something of this type and number, if 24 bits hold the number.
#[tactic(auto, using(crate::proofs::PackedEnds::packed_type))]
pub(crate) fn packed_end(kind: Kind, number: u32) -> Option<PlainEnd>
    ensures { IfSome result (λ end. end_by end ≡ record { kind = kind; number = number; sns = None }) }
{
    if number >= ARCS {
        return None;
    }
    Some(PlainEnd {
        packed: least_of(kind) + number,
    })
}

/// The type of what an end names.
fn kind_of(end: PlainEnd) -> Kind
    ensures { result ≡ packed_kind end.packed }
{
    if end.packed < ARCS {
        Kind::Pno
    } else if end.packed < FACES {
        Kind::Par
    } else if end.packed < OBJECTS {
        Kind::Pfe
    } else if end.packed < LINKS {
        Kind::Fea
    } else {
        Kind::Lnk
    }
}

#[tactic(auto, using(crate::proofs::PackedEnds::packed_in_type))]
fn end_of<'a>(end: PlainEnd) -> NumberedEnd<'a>
    ensures { result ≡ end_by end }
{
    let kind = kind_of(end);
    NumberedEnd {
        kind,
        number: end.packed - least_of(kind),
        sns: None,
    }
}

/// How two pairs go.
#[tactic(auto, using(crate::proofs::PackedEnds::pair_order))]
fn compare_pairs(a: &PlainPair, b: &PlainPair) -> Ordering
    ensures { (class : ℕ) → result ≡ links.cmp (pair_key class a.now) (pair_key class b.now) }
{
    a.cmp(b)
}

/// How an end without SNS goes with another end.
fn compare_ends(plain: PlainEnd, end: &NumberedEnd<'_>) -> Ordering
    ensures { result ≡ ends.cmp (end_by plain) end.now }
{
    let own = end_of(plain);
    own.cmp(end)
}

/// How a last end without SNS, behind which there is nothing else, goes with the ends of a key from there on.
fn compare_last(last: PlainEnd, others: &[NumberedEnd<'_>], is_bare: bool) -> Ordering
    ensures { result ≡ ordering_then (slice_cmp ends.cmp (end_by last ∷ []) others.now) (rest_cmp is_bare) }
{
    let [other, rest @ ..] = others else {
        return Ordering::Greater;
    };
    match compare_ends(last, other) {
        Ordering::Equal if rest.is_empty() && is_bare => Ordering::Equal,
        Ordering::Equal => Ordering::Less,
        order => order,
    }
}

/// How a pair and nothing else goes with a whole key of its class.
#[tactic(auto, using(crate::proofs::PlacedLinks::bare_order))]
fn compare_pair(pair: &PlainPair, key: &LinkKey<'_>, is_bare: bool) -> Ordering
    requires { is_bare ≡ has_neither key.now }
    ensures { result ≡ links.cmp (pair_key key.now.class pair.now) key.now }
{
    let [origin, others @ ..] = key.ends.as_slice() else {
        return Ordering::Greater;
    };
    match compare_ends(pair.origin, origin) {
        Ordering::Equal => compare_last(pair.other, others, is_bare),
        order => order,
    }
}

/// How two keys of one class go.
#[tactic(auto, using(crate::proofs::PlacedLinks::turned_order))]
fn compare_parts(a: &LinkParts<'_>, b: &LinkParts<'_>) -> Ordering
    requires first { IsBareIfSaid a.now }
    requires second { IsBareIfSaid b.now }
    ensures { (class : ℕ) → IsOfClass class a.now → IsOfClass class b.now
        → result ≡ links.cmp (key_in class a.now) (key_in class b.now) }
{
    match (a, b) {
        (LinkParts::Pair(first), LinkParts::Pair(second)) => compare_pairs(first, second),
        (LinkParts::Pair(pair), LinkParts::Whole(whole)) => {
            compare_pair(pair, &whole.key, whole.is_bare)
        }
        (LinkParts::Whole(whole), LinkParts::Pair(pair)) => {
            compare_pair(pair, &whole.key, whole.is_bare).reverse()
        }
        (LinkParts::Whole(first), LinkParts::Whole(second)) => first.key.cmp(&second.key),
    }
}

/// By class where these differ, and else by all that the key holds, and by place.
fn compare(a: &PlacedLink<'_>, b: &PlacedLink<'_>) -> Ordering
    ensures { result ≡ placed_cmp a.now b.now }
{
    let order = a.class.cmp(&b.class);
    if order.is_ne() {
        return order;
    }
    match compare_parts(&a.parts, &b.parts) {
        Ordering::Equal => a.place.cmp(&b.place),
        order => order,
    }
}

impl<'a> PartialEq for PlacedLink<'a> {
    ghost eq = { eq_by_cmp placed_cmp };

    ghost laws = { partial_equiv_from_equiv (eq_by_cmp_equiv placed_total) };

    fn eq(&self, other: &Self) -> bool {
        compare(self, other).is_eq()
    }
}

impl<'a> Eq for PlacedLink<'a> {
    ghost laws = { eq_by_cmp_equiv placed_total };
}

impl<'a> PartialOrd for PlacedLink<'a> {
    ghost partial_cmp = { as_partial_cmp placed_cmp };

    ghost laws = { partial_order_from_total placed_total };

    fn partial_cmp(&self, other: &Self) -> Option<Ordering> {
        Some(compare(self, other))
    }
}

impl<'a> Ord for PlacedLink<'a> {
    ghost cmp = { placed_cmp };

    ghost total = { placed_total };

    ghost matches_partial_cmp = { λ x y. refl };

    ghost matches_eq = { λ x y. refl };

    fn cmp(&self, other: &Self) -> Ordering {
        compare(self, other)
    }
}
