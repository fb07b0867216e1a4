//! The records of a sheet on their way to records with other heads, attributes and ends.

ghost use Rattle.std.specs.Prelude.{◌≡◌, ◌<◌, ◌∷◌, ◌++◌, [], Some, length, slice_get, OnOk, OnErr, MatchOption};
ghost use Rattle.std.specs.Vec.{vec_len, vec_capacity};
ghost use Rattle.edi_record.specs.AnyRecords.{any_record};
ghost use Rattle.edi_record.specs.declared.record.Record.{Record};
ghost use Rattle.edi_record.specs.inner.BlockLists.{blocks_joined};
ghost use Rattle.edi_record.specs.inner.RecordParts.{records_with_parts};
ghost use Rattle.edi_record.specs.inner.Remaking.{AreReady, AreUnderWay};
ghost use Rattle.edi_record.specs.inner.BlocksAhead.{all_ahead};

use crate::block::Block;
use crate::blocks::{Blocks, room_for_block};
use crate::blocks_ahead::BlocksAhead;
use crate::end::End;
use crate::flat_lists::push_behind;
use crate::record::Attribute;
use crate::record_parts::RecordHead;
use crate::record_ref::RecordRef;
use crate::remade_block::RemadeBlock;
use std::alloc::{AllocError, Global};
use std::marker::Model;
use std::mem;

/// Records that are made of those of a sheet, in file order, and the records of the sheet that are left. A record that is
/// made has the points and the extra zones of the sheet's. Contracts see the two lists alone.
pub struct Remaking<H, A, E> {
    alloc: Global,
    closed: Vec<Block<H, A, E>>,
    opened: RemadeBlock<H, A, E>,
    ahead: BlocksAhead,
}

impl<H: Drop, A: Drop, E: Drop> Drop for Remaking<H, A, E> {
    fn drop(self) {
        let Remaking {
            alloc: _,
            closed: _,
            opened: _,
            ahead: _,
        } = self;
    }
}

impl<H, A, E> Model for Remaking<H, A, E> {
    ghost use Rattle.std.specs.Prelude.{◌++◌};
    ghost use Rattle.edi_record.specs.AnyRecords.{PartlyMade};
    ghost use Rattle.edi_record.specs.declared.record.Record.{Record};

    ghost Value = { PartlyMade H A E Record };

    ghost use Rattle.edi_record.specs.inner.BlockLists.{blocks_joined};
    ghost use Rattle.edi_record.specs.inner.RecordParts.{records_with_parts};
    ghost use Rattle.edi_record.specs.inner.Remaking.{AreReady};
    ghost use Rattle.edi_record.specs.inner.BlocksAhead.{all_ahead};

    ghost view = { λ r. record {
      made = blocks_joined r.closed.items r.opened.made;
      left = records_with_parts (r.opened.left ++ all_ahead r.ahead);
    } };

    ghost invariant = { λ r. AreReady r.closed.items r.opened r.ahead };
}

/// Closes the open block, of which no records are left, and opens the next, if there is one.
#[tactic(auto, unfolding(crate::specs::inner::BlockLists::blocks_joined))]
fn open_next<H: Drop, A: Drop, E: Drop>(
    alloc: Global,
    closed: &mut Vec<Block<H, A, E>>,
    opened: &mut RemadeBlock<H, A, E>,
    ahead: &mut BlocksAhead,
)
    requires under_way { AreUnderWay closed.old.items opened.old ahead.old }
    requires done { opened.old.left ≡ [] }
    requires few { length closed.old.items < 4294967295 }
    requires room { vec_len closed.old < vec_capacity closed.old }
    ensures made { blocks_joined closed.new.items opened.new.made ≡ blocks_joined closed.old.items opened.old.made }
    ensures left { opened.new.left ++ all_ahead ahead.new ≡ all_ahead ahead.old }
    ensures ready { AreReady closed.new.items opened.new ahead.new }
{
    let block = ahead.next();
    if block.len() > 0 {
        let next = RemadeBlock::new(alloc, block);
        let done = mem::replace(opened, next);
        push_behind(closed, done.into_made());
    }
}

impl<H: Drop, A: Drop, E: Drop> Remaking<H, A, E> {
    /// The records of these blocks, of which none is made.
    #[tactic(auto, unfolding(crate::specs::inner::BlockLists::blocks_joined))]
    pub(crate) fn new(blocks: Blocks<RecordHead, Attribute, End>) -> Remaking<H, A, E>
        ensures { result ≡ record { made = []; left = records_with_parts blocks } }
    {
        let alloc = blocks.alloc;
        let mut ahead = BlocksAhead {
            alloc,
            closed: blocks.closed.into_iter(),
            last: blocks.last,
        };
        let block = ahead.next();
        Remaking {
            alloc,
            closed: Vec::new(alloc),
            opened: RemadeBlock::new(alloc, block),
            ahead,
        }
    }

    /// The first of the records that are left, if any.
    pub fn first(&self) -> Option<RecordRef<'_>>
        ensures { MatchOption result (self.now.left ≡ []) (λ r. slice_get self.now.left 0 ≡ Some r) }
    {
        match self.opened.first() {
            Some(found) => Some(RecordRef::of(found)),
            None => None,
        }
    }

    /// Makes the first of the records that are left anew, with this head. Its attributes and its ends leave the lists
    /// that they are in, and what the sheet's record had of these is freed with its block.
    pub fn put(
        &mut self,
        head: H,
        attributes: &mut Vec<A>,
        ends: &mut Vec<E>,
    ) -> Result<(), AllocError>
        requires { 0 < length self.old.left }
        ensures put { OnOk result ((r : Record) × (self.old.left ≡ r ∷ self.new.left)
            × (self.new.made ≡ self.old.made
            ++ any_record head r.points ends.old.items attributes.old.items r.extras ∷ [])) }
        ensures no_attributes { OnOk result (attributes.new.items ≡ []) }
        ensures no_ends { OnOk result (ends.new.items ≡ []) }
        ensures unchanged { OnErr result (self.new ≡ self.old) }
    {
        room_for_block(&mut self.closed)?;
        self.opened.put(head, attributes, ends)?;
        if self.opened.is_done() {
            open_next(
                self.alloc,
                &mut self.closed,
                &mut self.opened,
                &mut self.ahead,
            );
        }
        Ok(())
    }

    /// The records that are made. Those that are left are freed.
    pub fn into_made(self) -> Blocks<H, A, E>
        ensures { result ≡ self.made }
    {
        let Remaking {
            alloc,
            closed,
            opened,
            ahead: _,
        } = self;
        Blocks {
            alloc,
            closed,
            last: opened.into_made(),
        }
    }
}
