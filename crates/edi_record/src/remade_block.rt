//! A block of a sheet, whose records are made anew one after the other.

ghost use Rattle.std.specs.Prelude.{◌≡◌, ◌<◌, ◌∷◌, ◌++◌, ◌↔◌, [], Some, IsTrue, length, slice_get, OnOk, OnErr, MatchOption};
ghost use Rattle.edi_record.specs.AnyRecords.{any_record, record_lent, AnyRecord};
ghost use Rattle.edi_record.specs.LinkEnds.{EndData};
ghost use Rattle.edi_record.specs.declared.record.Attribute.{Attribute as OldAttribute};
ghost use Rattle.edi_record.specs.declared.record_parts.RecordHead.{RecordHead as OldHead};

use crate::any_record::AnyRecordRef;
use crate::block::{Block, Head, begin, record_at};
use crate::end::End;
use crate::flat_lists::{move_behind, push_behind, room_for};
use crate::part_lists::{PartLists, Stops};
use crate::record::Attribute;
use crate::record_parts::RecordHead;
use std::alloc::{AllocError, Global};
use std::marker::Model;

/// The records of the block, and heads, attributes and ends for the first of them. Their points and their extra zones
/// stay where they are. Contracts see the records that are made, and those that are left.
pub(crate) struct RemadeBlock<H, A, E> {
    old_heads: Vec<Head<RecordHead>>,
    old_lists: PartLists<Attribute, End>,
    heads: Vec<Head<H>>,
    attributes: Vec<A>,
    ends: Vec<E>,
}

impl<H: Drop, A: Drop, E: Drop> Drop for RemadeBlock<H, A, E> {
    fn drop(self) {
        let RemadeBlock {
            old_heads: _,
            old_lists: _,
            heads: _,
            attributes: _,
            ends: _,
        } = self;
    }
}

impl<H, A, E> Model for RemadeBlock<H, A, E> {
    ghost use Rattle.std.specs.Prelude.{length, drop};
    ghost use Rattle.edi_record.specs.inner.FlatRecords.{no_stops, records_from};
    ghost use Rattle.edi_record.specs.inner.PartLists.{held};
    ghost use Rattle.edi_record.specs.inner.Remaking.{parts_of_first, AreMadeOf, BlockUnderWay};

    ghost Value = { BlockUnderWay H A E };

    ghost view = { λ b. record {
      made = records_from
          (parts_of_first b.old_heads.items (held b.old_lists) (length b.heads.items) b.attributes.items b.ends.items)
          no_stops b.heads.items;
      left = drop (length b.heads.items) (records_from (held b.old_lists) no_stops b.old_heads.items);
    } };

    ghost invariant = { λ b.
        AreMadeOf b.old_heads.items (held b.old_lists) b.heads.items b.attributes.items b.ends.items };
}

impl<H: Drop, A: Drop, E: Drop> RemadeBlock<H, A, E> {
    /// The records of a block, of which none is made.
    pub(crate) fn new(
        alloc: Global,
        block: Block<RecordHead, Attribute, End>,
    ) -> RemadeBlock<H, A, E>
        ensures { result ≡ record { made = []; left = block } }
    {
        let (old_heads, old_lists) = block.into_parts();
        RemadeBlock {
            old_heads,
            old_lists,
            heads: Vec::new(alloc),
            attributes: Vec::new(alloc),
            ends: Vec::new(alloc),
        }
    }

    /// Whether no records are left.
    pub(crate) fn is_done(&self) -> bool
        ensures { IsTrue result ↔ (self.now.left ≡ []) }
    {
        self.heads.len() == self.old_heads.len()
    }

    /// The first of the records that are left, if any.
    pub(crate) fn first(&self) -> Option<AnyRecordRef<'_, RecordHead, Attribute, End>>
        ensures { MatchOption result (self.now.left ≡ []) (λ r. slice_get self.now.left 0 ≡ Some (record_lent r)) }
    {
        let place = self.heads.len();
        if place < self.old_heads.len() {
            Some(record_at(&self.old_heads, &self.old_lists, place))
        } else {
            None
        }
    }

    /// Makes the first of the records that are left anew. Its attributes and its ends leave the lists that they are in.
    pub(crate) fn put(
        &mut self,
        head: H,
        attributes: &mut Vec<A>,
        ends: &mut Vec<E>,
    ) -> Result<(), AllocError>
        requires { 0 < length self.old.left }
        ensures put { OnOk result ((r : AnyRecord OldHead OldAttribute EndData) × (self.old.left ≡ r ∷ self.new.left)
            × (self.new.made ≡ self.old.made
            ++ any_record head r.parts.points ends.old.items attributes.old.items r.parts.extras ∷ [])) }
        ensures no_attributes { OnOk result (attributes.new.items ≡ []) }
        ensures no_ends { OnOk result (ends.new.items ≡ []) }
        ensures unchanged { OnErr result (self.new ≡ self.old) }
    {
        let place = self.heads.len();
        let old = self.old_heads[place].stops;
        let _ = room_for(&mut self.heads, 1, self.old_heads.len())?;
        let stops = Stops {
            points: old.points,
            ends: room_for(&mut self.ends, ends.len(), self.old_lists.ends.len())?,
            attributes: room_for(
                &mut self.attributes,
                attributes.len(),
                self.old_lists.attributes.len(),
            )?,
            extras: old.extras,
        };
        push_behind(&mut self.heads, Head { head, stops });
        move_behind(&mut self.ends, ends);
        move_behind(&mut self.attributes, attributes);
        Ok(())
    }

    /// The records that are made. Their points and their extra zones are those of the block; the rest of it is freed.
    pub(crate) fn into_made(self) -> Block<H, A, E>
        ensures { result ≡ self.made }
    {
        let to = begin(&self.old_heads, self.heads.len());
        let RemadeBlock {
            old_heads: _,
            old_lists,
            heads,
            attributes,
            ends,
        } = self;
        Block {
            heads,
            lists: old_lists.with_others(to, ends, attributes),
        }
    }
}
