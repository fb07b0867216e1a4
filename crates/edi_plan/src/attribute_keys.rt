//! Keys by which attributes are sorted.

ghost use Rattle.std.specs.Prelude.{◌≡◌, refl, slice_index_or};
ghost use Rattle.std.specs.Ordering.{as_partial_cmp, eq_by_cmp};
ghost use Rattle.std.specs.Cmp.{eq_by_cmp_equiv, partial_equiv_from_equiv, partial_order_from_total};
ghost use Rattle.edi_line.specs.Bytes.{IsBytes};
ghost use Rattle.edi_plan.specs.contracts.record.PlanAttributeOrd.TheImpl.{ghosts as attributes};
ghost use Rattle.edi_plan.specs.contracts.record.PlanAttributeOrd.TheImpl.Laws.{total-law};
ghost use Rattle.edi_plan.specs.inner.AttributeFronts.{front_from, attribute_front, HasBytes};

use crate::record::PlanAttribute;
use edi_record::Value;
use edi_schema::ClassRef;
use std::cmp::Ordering;
use std::marker::Model;

/// How many bytes of a text its front has.
const FRONT: usize = 7;

/// The byte at a place of a text, or zero where it has none.
fn byte_or_zero(text: &[u8], place: usize) -> u8
    ensures { result ≡ slice_index_or text.now place 0 }
{
    text.get(place).copied().unwrap_or(0)
}

/// The first seven bytes of a text as a number, behind a one, as if zeros followed a shorter text.
fn front_of_text(text: &[u8]) -> u64
    ensures front { result ≡ front_from 1 7 text.now }
    ensures bytes { IsBytes text.now }
{
    let mut number = 1;
    for place in 0..FRONT {
        number = number * 256 + u64::from(byte_or_zero(text, place));
    }
    number
}

/// A number by which attributes of one class are told apart before their values are looked at: the one that comes first
/// in their order has no greater one. Those with a character set, which are few, share the greatest.
fn front_of_attribute(attribute: &PlanAttribute) -> u64
    ensures front { result ≡ attribute_front attribute.now }
    ensures bytes { HasBytes attribute.now }
{
    if attribute.tex.is_some() {
        return u64::MAX;
    }
    match &attribute.value {
        Value::Number(_) => 0,
        Value::Bytes(text) => front_of_text(text.as_slice()),
    }
}

/// An attribute, borrowed, with its class and the front of its value beside it. A sort of many attributes is more than
/// twice as fast by these, since it hardly goes to where the attributes lie. Contracts see the attribute alone.
#[derive(Drop)]
pub(crate) struct AttributeKey<'a> {
    class: ClassRef,
    front: u64,
    attribute: &'a PlanAttribute,
}

impl<'a> Model for AttributeKey<'a> {
    ghost use Rattle.std.specs.Prelude.{◌≡◌};
    ghost use Rattle.edi_plan.specs.declared.record.PlanAttribute.{PlanAttribute};
    ghost use Rattle.edi_plan.specs.inner.AttributeFronts.{attribute_front, HasBytes};

    ghost Value = { PlanAttribute };

    ghost view = { λ k. k.attribute.now };

    ghost invariant = { λ k. (k.class ≡ k.attribute.now.atp) × (k.front ≡ attribute_front k.attribute.now)
        × HasBytes k.attribute.now };
}

impl<'a> AttributeKey<'a> {
    /// The key of an attribute.
    pub(crate) fn of(attribute: &'a PlanAttribute) -> AttributeKey<'a>
        ensures { result ≡ attribute.now }
    {
        AttributeKey {
            class: attribute.atp,
            front: front_of_attribute(attribute),
            attribute,
        }
    }

    /// The attribute.
    pub(crate) fn attribute(self) -> &'a PlanAttribute
        ensures { result.now ≡ self.entry }
    {
        self.attribute
    }
}

/// The order of two attributes: their classes decide it, else their fronts, and else the attributes themselves.
fn compare(a: &AttributeKey<'_>, b: &AttributeKey<'_>) -> Ordering
    ensures { result ≡ attributes.cmp a.now b.now }
{
    let order = a.class.cmp(&b.class);
    if order.is_ne() {
        return order;
    }
    let order = a.front.cmp(&b.front);
    if order.is_ne() {
        return order;
    }
    a.attribute.cmp(b.attribute)
}

impl<'a> PartialEq for AttributeKey<'a> {
    ghost eq = { eq_by_cmp attributes.cmp };

    ghost laws = { partial_equiv_from_equiv (eq_by_cmp_equiv total-law) };

    fn eq(&self, other: &Self) -> bool {
        compare(self, other).is_eq()
    }
}

impl<'a> Eq for AttributeKey<'a> {
    ghost laws = { eq_by_cmp_equiv total-law };
}

impl<'a> PartialOrd for AttributeKey<'a> {
    ghost partial_cmp = { as_partial_cmp attributes.cmp };

    ghost laws = { partial_order_from_total total-law };

    fn partial_cmp(&self, other: &Self) -> Option<Ordering> {
        Some(compare(self, other))
    }
}

impl<'a> Ord for AttributeKey<'a> {
    ghost cmp = { attributes.cmp };

    ghost total = { total-law };

    ghost matches_partial_cmp = { λ x y. refl };

    ghost matches_eq = { λ x y. refl };

    fn cmp(&self, other: &Self) -> Ordering {
        compare(self, other)
    }
}
