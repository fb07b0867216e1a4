//! The parts of records in flat lists, in which they lie one behind the other.

ghost use Rattle.std.specs.Prelude.{◌≡◌, ◌+◌, ◌<◌, ◌≤◌, ◌++◌, [], take, IfOk, OnOk};
ghost use Rattle.std.specs.Vec.{vec_len, vec_capacity};
ghost use Rattle.edi_record.specs.AnyRecords.{record_lent};
ghost use Rattle.edi_record.specs.inner.FlatRecords.{parts_between, ArePartsTo};
ghost use Rattle.edi_record.specs.inner.PartLists.{held, empty_parts, HaveRoom, AreStopsAfter};

use crate::any_record::AnyRecordRef;
use crate::flat_lists::{append, exact_room, hand_over, make_room, part};
use crate::record::{Extra, Point};
use std::alloc::{AllocError, Global};

/// Where the parts of a record end in the lists. They begin where those of the record before end.
#[derive(Clone, Copy)]
pub(crate) struct Stops {
    pub(crate) points: u32,
    pub(crate) ends: u32,
    pub(crate) attributes: u32,
    pub(crate) extras: u32,
}

impl Stops {
    /// Where the parts of the first record begin.
    pub(crate) const NONE: Stops = Stops {
        points: 0,
        ends: 0,
        attributes: 0,
        extras: 0,
    };
}

/// The points of some records, their ends, their attributes and their extra zones.
pub(crate) struct PartLists<A, E> {
    pub(crate) points: Vec<Point>,
    pub(crate) ends: Vec<E>,
    pub(crate) attributes: Vec<A>,
    pub(crate) extras: Vec<Extra>,
}

impl<A: Drop, E: Drop> Drop for PartLists<A, E> {
    fn drop(self) {
        let PartLists {
            points: _,
            ends: _,
            attributes: _,
            extras: _,
        } = self;
    }
}

impl<A, E> PartLists<A, E> {
    /// PartLists without room.
    pub(crate) fn new(alloc: Global) -> PartLists<A, E>
        ensures { held result ≡ empty_parts }
    {
        PartLists {
            points: Vec::new(alloc),
            ends: Vec::new(alloc),
            attributes: Vec::new(alloc),
            extras: Vec::new(alloc),
        }
    }

    /// Makes room for so many more of each. Where they will end is the answer.
    pub(crate) fn make_room(
        &mut self,
        points: usize,
        ends: usize,
        attributes: usize,
        extras: usize,
    ) -> Result<Stops, AllocError>
        ensures same { held self.new ≡ held self.old }
        ensures points { OnOk result (0 < vec_len self.new.points
            → vec_len self.new.points + points ≤ vec_capacity self.new.points) }
        ensures room { OnOk result (HaveRoom self.new ends attributes extras) }
        ensures stops { IfOk result (AreStopsAfter (held self.old) points ends attributes extras) }
    {
        Ok(Stops {
            points: make_room(&mut self.points, points)?,
            ends: make_room(&mut self.ends, ends)?,
            attributes: make_room(&mut self.attributes, attributes)?,
            extras: make_room(&mut self.extras, extras)?,
        })
    }
}

impl<A, E> PartLists<A, E> {
    /// A record with this head, whose parts are those from here to there.
    pub(crate) fn record<'a, H>(
        &'a self,
        head: &'a H,
        from: Stops,
        to: Stops,
    ) -> AnyRecordRef<'a, H, A, E>
        requires { ArePartsTo (held self.now) from to }
        ensures { record_lent result ≡ record { head = head.now; parts = parts_between (held self.now) from to } }
    {
        AnyRecordRef {
            head,
            points: part(&self.points, from.points, to.points),
            ends: part(&self.ends, from.ends, to.ends),
            attributes: part(&self.attributes, from.attributes, to.attributes),
            extras: part(&self.extras, from.extras, to.extras),
        }
    }
}

impl<A: Drop, E: Drop> PartLists<A, E> {
    /// The points and the extra zones up to here, with other ends and attributes.
    pub(crate) fn with_others<B, F>(
        self,
        to: Stops,
        ends: Vec<F>,
        attributes: Vec<B>,
    ) -> PartLists<B, F>
        ensures points { result.points.items ≡ take to.points self.points.items }
        ensures ends { result.ends ≡ ends }
        ensures attributes { result.attributes ≡ attributes }
        ensures extras { result.extras.items ≡ take to.extras self.extras.items }
    {
        let PartLists {
            mut points,
            ends: _,
            attributes: _,
            mut extras,
        } = self;
        points.truncate(to.points as usize);
        extras.truncate(to.extras as usize);
        PartLists {
            points,
            ends,
            attributes,
            extras,
        }
    }

    /// Moves ends, attributes and extra zones behind those that are there.
    pub(crate) fn append(
        &mut self,
        ends: &mut Vec<E>,
        attributes: &mut Vec<A>,
        extras: &mut Vec<Extra>,
    )
        requires { HaveRoom self.old (vec_len ends.old) (vec_len attributes.old) (vec_len extras.old) }
        ensures points { self.new.points.items ≡ self.old.points.items }
        ensures ends { self.new.ends.items ≡ self.old.ends.items ++ ends.old.items }
        ensures attributes { self.new.attributes.items ≡ self.old.attributes.items ++ attributes.old.items }
        ensures extras { self.new.extras.items ≡ self.old.extras.items ++ extras.old.items }
        ensures no_ends { ends.new.items ≡ [] }
        ensures no_attributes { attributes.new.items ≡ [] }
        ensures no_extras { extras.new.items ≡ [] }
    {
        append(&mut self.ends, ends);
        append(&mut self.attributes, attributes);
        append(&mut self.extras, extras);
    }

    /// Empty lists with room for the elements of these, but without where these are very many.
    pub(crate) fn exact_room(&self, alloc: Global) -> Result<PartLists<A, E>, AllocError>
        ensures { IfOk result (λ exact. held exact ≡ empty_parts) }
    {
        Ok(PartLists {
            points: exact_room(alloc, &self.points)?,
            ends: exact_room(alloc, &self.ends)?,
            attributes: exact_room(alloc, &self.attributes)?,
            extras: exact_room(alloc, &self.extras)?,
        })
    }

    /// Hands the elements over with no room for more, each list as `hand_over` does.
    pub(crate) fn hand_over(&mut self, exact: PartLists<A, E>) -> PartLists<A, E>
        requires { held exact ≡ empty_parts }
        ensures same { held result ≡ held self.old }
        ensures none { held self.new ≡ empty_parts }
    {
        let PartLists {
            points,
            ends,
            attributes,
            extras,
        } = exact;
        PartLists {
            points: hand_over(points, &mut self.points),
            ends: hand_over(ends, &mut self.ends),
            attributes: hand_over(attributes, &mut self.attributes),
            extras: hand_over(extras, &mut self.extras),
        }
    }
}
