//! The links by their keys.

ghost use Rattle.std.specs.Prelude.{◌≡◌, ◌<◌, ℕ, length, slice_index, IfOk};
ghost use Rattle.edi_record.specs.declared.record.Kind.TheVariants.{Lnk};
ghost use Rattle.edi_plan.specs.Agreeing.{Agrees};
ghost use Rattle.edi_plan.specs.Places.{places_of};
ghost use Rattle.edi_plan.specs.Plans.{IsPlace};
ghost use Rattle.edi_rank.specs.EndOrder.{OthersInOrder};
ghost use Rattle.edi_rank.specs.inner.Layers.{placed_link_key};

use crate::link_key::{class_after_reversals, is_bare, link_key_at, plain_pair};
use crate::placed_link::PlacedLink;
use crate::sparse_list::SparseList;
use edi_plan::Plan;
use edi_record::Kind;
use edi_schema::Schema;
use edi_topo::Layer;
use std::alloc::{AllocError, Global};
use std::marker::Model;

/// The links of a plan, in file order, by their keys after the reversals, and then by their places.
#[derive(Drop)]
pub(crate) struct LinkLayer<'a> {
    plan: &'a Plan,
    schema: &'a Schema,
    turned: &'a [bool],
    numbers: &'a [u32],
    orders: &'a [SparseList<usize>],
    places: &'a [u32],
}

impl<'a> Model for LinkLayer<'a> {
    ghost use Rattle.std.specs.Prelude.{◌≡◌, ℕ, length, slice_index};
    ghost use Rattle.edi_record.specs.declared.record.Kind.TheVariants.{Lnk};
    ghost use Rattle.edi_plan.specs.Agreeing.{Agrees};
    ghost use Rattle.edi_plan.specs.Places.{places_of};
    ghost use Rattle.edi_plan.specs.Plans.{IsPlace};
    ghost use Rattle.edi_rank.specs.EndOrder.{OthersInOrder};
    ghost use Rattle.edi_rank.specs.inner.Layers.{LinkSource};

    ghost Value = { LinkSource };

    ghost view = { λ l. record {
      plan = l.plan.now;
      classes = l.schema.now;
      turned = l.turned.now;
      numbers = l.numbers.now;
    } };

    ghost invariant = { λ l. (l.places.now ≡ places_of Lnk l.plan.now) × Agrees l.schema.now l.plan.now
        × (length l.turned.now ≡ length l.plan.now.list) × (length l.numbers.now ≡ length l.plan.now.list)
        × (length l.orders.now ≡ length l.plan.now.list)
        × ((k : ℕ) → IsPlace l.plan.now k → OthersInOrder l.plan.now (slice_index l.numbers.now) l.orders.now k) };
}

impl<'a> LinkLayer<'a> {
    /// The links of a plan, with the records that are turned, the numbers of the other records, and the
    /// positions of the other ends of each in their order, by place.
    pub(crate) fn of(
        schema: &'a Schema,
        plan: &'a Plan,
        turned: &'a [bool],
        numbers: &'a [u32],
        orders: &'a [SparseList<usize>],
    ) -> LinkLayer<'a>
        requires agrees { Agrees schema.now plan.now }
        requires turned { length turned.now ≡ length plan.now.list }
        requires numbers { length numbers.now ≡ length plan.now.list }
        requires ordered { length orders.now ≡ length plan.now.list }
        requires orders { (k : ℕ) → IsPlace plan.now k → OthersInOrder plan.now (slice_index numbers.now) orders.now k }
        ensures { result
            ≡ record { plan = plan.now; classes = schema.now; turned = turned.now; numbers = numbers.now } }
    {
        LinkLayer {
            plan,
            schema,
            turned,
            numbers,
            orders,
            places: plan.places(Kind::Lnk),
        }
    }

    /// The place of a link.
    fn place(&self, member: u32) -> u32
        requires { member < length (places_of Lnk self.now.plan) }
        ensures { result ≡ slice_index (places_of Lnk self.now.plan) member }
    {
        self.places[member as usize]
    }
}

impl<'a> Layer for LinkLayer<'a> {
    type Key = PlacedLink<'a>;

    ghost size = { λ l. length (places_of Lnk l.plan) };

    ghost key_of = { λ l m. placed_link_key l (slice_index (places_of Lnk l.plan) m) };

    fn len(&self) -> u32 {
        self.plan.keeps();
        self.places.len() as u32
    }

    fn key(&self, alloc: Global, member: u32) -> Result<PlacedLink<'a>, AllocError> {
        let place = self.place(member);
        let class = class_after_reversals(self.schema, self.plan, self.turned, place);
        if let Some(pair) = plain_pair(self.plan, self.numbers, place) {
            return Ok(PlacedLink::from_pair(class, pair, place));
        }
        let order = self.orders[place as usize].as_slice();
        let key = link_key_at(alloc, self.plan, self.numbers, order, class, place)?;
        PlacedLink::from_key(alloc, key, is_bare(self.plan, place), place)
    }
}
