//! Some records in flat lists: their points lie in one list, and so do their ends, their attributes and their extra
//! zones.

ghost use Rattle.std.specs.Prelude.{◌≡◌, ◌<◌, ◌≤◌, ◌∷◌, ◌++◌, [], length, slice_get, Some, IfOk, OnOk, OnErr};
ghost use Rattle.edi_record.specs.AnyRecords.{any_record, record_lent, Parts};
ghost use Rattle.edi_record.specs.inner.FlatRecords.{no_stops, stops_before, records_from, FillLists};
ghost use Rattle.edi_record.specs.inner.PartLists.{held};

use crate::any_record::AnyRecordRef;
use crate::flat_lists::{append, exact_room, hand_over, push_behind};
use crate::part_lists::{PartLists, Stops};
use crate::record::{Extra, Point};
use std::alloc::{AllocError, Global};
use std::marker::Model;

/// The head of a record, and where its parts end.
pub(crate) struct Head<H> {
    pub(crate) head: H,
    pub(crate) stops: Stops,
}

impl<H: Drop> Drop for Head<H> {
    // A call for each would take more than to let it go.
    #[inline(always)]
    fn drop(self) {
        let Head { head: _, stops: _ } = self;
    }
}

/// The records by their places, with the lists of what they have. Contracts see the list of records alone.
pub(crate) struct Block<H, A, E> {
    pub(crate) heads: Vec<Head<H>>,
    pub(crate) lists: PartLists<A, E>,
}

impl<H: Drop, A: Drop, E: Drop> Drop for Block<H, A, E> {
    fn drop(self) {
        let Block { heads: _, lists: _ } = self;
    }
}

impl<H, A, E> Model for Block<H, A, E> {
    ghost use Rattle.std.specs.Prelude.{List};
    ghost use Rattle.edi_record.specs.AnyRecords.{AnyRecord};
    ghost use Rattle.edi_record.specs.inner.FlatRecords.{no_stops, records_from, FillLists};
    ghost use Rattle.edi_record.specs.inner.PartLists.{held};

    ghost Value = { List (AnyRecord H A E) };

    ghost view = { λ block. records_from (held block.lists) no_stops block.heads.items };

    ghost invariant = { λ block. FillLists (held block.lists) no_stops block.heads.items };
}

/// Where the parts of the record at a place begin, or those of all end.
pub(crate) fn begin<H>(heads: &Vec<Head<H>>, place: usize) -> Stops
    requires { place ≤ length heads.now.items }
    ensures { result ≡ stops_before place no_stops heads.now.items }
{
    if place > 0 {
        return heads[place - 1].stops;
    }
    Stops::NONE
}

/// The record at a place.
pub(crate) fn record_at<'a, H, A, E>(
    heads: &'a Vec<Head<H>>,
    lists: &'a PartLists<A, E>,
    place: usize,
) -> AnyRecordRef<'a, H, A, E>
    requires there { place < length heads.now.items }
    requires fill { FillLists (held lists.now) no_stops heads.now.items }
    ensures { slice_get (records_from (held lists.now) no_stops heads.now.items) place ≡ Some (record_lent result) }
{
    let head = &heads[place];
    lists.record(&head.head, begin(heads, place), head.stops)
}

impl<H: Drop, A: Drop, E: Drop> Block<H, A, E> {
    /// No records.
    pub(crate) fn new(alloc: Global) -> Block<H, A, E>
        ensures { result ≡ [] }
    {
        Block {
            heads: Vec::new(alloc),
            lists: PartLists::new(alloc),
        }
    }

    /// The heads of the records, and the lists of what they have.
    pub(crate) fn into_parts(self) -> (Vec<Head<H>>, PartLists<A, E>)
        ensures same { records_from (held result.1) no_stops result.0.items ≡ self }
        ensures fill { FillLists (held result.1) no_stops result.0.items }
    {
        let Block { heads, lists } = self;
        (heads, lists)
    }

    /// Adds a record. Its parts leave the lists that they are in.
    pub(crate) fn push(
        &mut self,
        head: H,
        points: &mut Vec<Point>,
        ends: &mut Vec<E>,
        attributes: &mut Vec<A>,
        extras: &mut Vec<Extra>,
    ) -> Result<(), AllocError>
        ensures added { OnOk result (self.new ≡ self.old
            ++ any_record head points.old.items ends.old.items attributes.old.items extras.old.items ∷ []) }
        ensures unchanged { OnErr result (self.new ≡ self.old) }
    {
        self.heads.reserve(1)?;
        let stops = self
            .lists
            .make_room(points.len(), ends.len(), attributes.len(), extras.len())?;
        push_behind(&mut self.heads, Head { head, stops });
        append(&mut self.lists.points, points);
        self.lists.append(ends, attributes, extras);
        Ok(())
    }

    /// The same records, in a block with no room for more. This block has none of them, and mostly room for as many.
    pub(crate) fn close(&mut self, alloc: Global) -> Result<Block<H, A, E>, AllocError>
        ensures closed { IfOk result (λ block. block ≡ self.old) }
        ensures none { OnOk result (self.new ≡ []) }
        ensures unchanged { OnErr result (self.new ≡ self.old) }
    {
        let heads = exact_room(alloc, &self.heads)?;
        let lists = self.lists.exact_room(alloc)?;
        Ok(Block {
            heads: hand_over(heads, &mut self.heads),
            lists: self.lists.hand_over(lists),
        })
    }

    /// How many records there are.
    pub(crate) fn len(&self) -> usize
        ensures { result ≡ length self.now }
    {
        self.heads.len()
    }

    /// The head of a record, by its place from 0.
    pub(crate) fn head(&self, place: usize) -> &H
        requires { place < length self.now }
        ensures { (parts : Parts A E) × (slice_get self.now place ≡ Some (record { head = result.now; parts = parts })) }
    {
        &self.heads[place].head
    }

    /// A record, by its place from 0.
    pub(crate) fn record(&self, place: usize) -> AnyRecordRef<'_, H, A, E>
        requires { place < length self.now }
        ensures { slice_get self.now place ≡ Some (record_lent result) }
    {
        record_at(&self.heads, &self.lists, place)
    }
}
