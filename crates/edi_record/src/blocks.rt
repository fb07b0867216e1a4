//! Records in blocks of as many records each, but for the last.

ghost use Rattle.std.specs.Prelude.{◌≡◌, ◌<◌, ◌%◌, ◌^◌, ◌∷◌, ◌++◌, [], length, slice_get, Some, OnOk, OnErr};
ghost use Rattle.std.specs.Vec.{vec_len, vec_capacity};
ghost use Rattle.edi_record.specs.AnyRecords.{any_record, record_lent, Parts};
ghost use Rattle.edi_record.specs.inner.BlockLists.{blocks_joined, AreBlocks};

use crate::any_record::AnyRecordRef;
use crate::block::Block;
use crate::flat_lists::push_behind;
use crate::record::{Extra, Point};
use std::alloc::{AllocError, Global};
use std::marker::Model;

// How many records a closed block has.
const BLOCK: usize = 256;

// How many closed blocks there may be, so that the number of records is no overflow.
const MOST_BLOCKS: usize = u32::MAX as usize;

/// Records by their places: those of closed blocks, and the last. Contracts see the list of records alone.
#[derive(Drop)]
pub struct Blocks<H, A, E> {
    pub(crate) alloc: Global,
    pub(crate) closed: Vec<Block<H, A, E>>,
    pub(crate) last: Block<H, A, E>,
}

impl<H, A, E> Model for Blocks<H, A, E> {
    ghost use Rattle.std.specs.Prelude.{List};
    ghost use Rattle.edi_record.specs.AnyRecords.{AnyRecord};
    ghost use Rattle.edi_record.specs.inner.BlockLists.{blocks_joined, AreBlocks};

    ghost Value = { List (AnyRecord H A E) };

    ghost view = { λ blocks. blocks_joined blocks.closed.items blocks.last };

    ghost invariant = { λ blocks. AreBlocks blocks.closed.items blocks.last };
}

/// Makes room for one more closed block, where so many can be counted.
pub(crate) fn room_for_block<B>(closed: &mut Vec<B>) -> Result<(), AllocError>
    ensures same { closed.new.items ≡ closed.old.items }
    ensures few { OnOk result (length closed.old.items < 4294967295) }
    ensures room { OnOk result (vec_len closed.new < vec_capacity closed.new) }
{
    if closed.len() >= MOST_BLOCKS {
        return Err(AllocError);
    }
    closed.reserve(1)
}

/// Puts the records of the last block into a closed one, if it is full.
#[tactic(auto, unfolding(crate::specs::inner::BlockLists::blocks_joined))]
fn close_if_full<H: Drop, A: Drop, E: Drop>(
    alloc: Global,
    closed: &mut Vec<Block<H, A, E>>,
    last: &mut Block<H, A, E>,
) -> Result<(), AllocError>
    requires { AreBlocks closed.old.items last.old }
    ensures same { blocks_joined closed.new.items last.new ≡ blocks_joined closed.old.items last.old }
    ensures blocks { AreBlocks closed.new.items last.new }
    ensures short { OnOk result (length last.new < 256) }
{
    if last.len() < BLOCK {
        return Ok(());
    }
    room_for_block(closed)?;
    let block = last.close(alloc)?;
    push_behind(closed, block);
    Ok(())
}

impl<H: Drop, A: Drop, E: Drop> Blocks<H, A, E> {
    /// No records.
    #[tactic(auto, unfolding(crate::specs::inner::BlockLists::blocks_joined))]
    pub(crate) fn new(alloc: Global) -> Blocks<H, A, E>
        ensures { result ≡ [] }
    {
        Blocks {
            alloc,
            closed: Vec::new(alloc),
            last: Block::new(alloc),
        }
    }

    /// Adds a record. Its parts leave the lists that they are in.
    #[tactic(auto, unfolding(crate::specs::inner::BlockLists::blocks_joined))]
    pub(crate) fn push(
        &mut self,
        head: H,
        points: &mut Vec<Point>,
        ends: &mut Vec<E>,
        attributes: &mut Vec<A>,
        extras: &mut Vec<Extra>,
    ) -> Result<(), AllocError>
        ensures added { OnOk result (self.new ≡ self.old
            ++ any_record head points.old.items ends.old.items attributes.old.items extras.old.items ∷ []) }
        ensures unchanged { OnErr result (self.new ≡ self.old) }
    {
        close_if_full(self.alloc, &mut self.closed, &mut self.last)?;
        self.last.push(head, points, ends, attributes, extras)
    }

    /// How many records there are.
    pub fn len(&self) -> usize
        ensures len { result ≡ length self.now }
        ensures few { result < 2 ^ 63 }
    {
        self.closed.len() * BLOCK + self.last.len()
    }

    /// The block of the record at a place, from 0.
    fn block(&self, place: usize) -> &Block<H, A, E>
        requires { place < length self.now }
        ensures there { place % 256 < length result.now }
        ensures same { slice_get self.now place ≡ slice_get result.now (place % 256) }
    {
        let at = place / BLOCK;
        if at < self.closed.len() {
            &self.closed[at]
        } else {
            &self.last
        }
    }

    /// The head of a record, by its place from 0. Its parts aren't looked up.
    pub fn head(&self, place: usize) -> &H
        requires { place < length self.now }
        ensures { (parts : Parts A E) × (slice_get self.now place ≡ Some (record { head = result.now; parts = parts })) }
    {
        self.block(place).head(place % BLOCK)
    }

    /// A record, by its place from 0.
    pub fn record(&self, place: usize) -> AnyRecordRef<'_, H, A, E>
        requires { place < length self.now }
        ensures { slice_get self.now place ≡ Some (record_lent result) }
    {
        self.block(place).record(place % BLOCK)
    }
}
