//! The record whose zones are coming, in lists that are used for one record after the other.

ghost use Rattle.edi_record.specs.inner.RecordParts.{AreEmpty};

use crate::end::End;
use crate::flat_lists::empty;
use crate::identifier::Identifier;
use crate::long_texts::LongTexts;
use crate::name::Name;
use crate::record::{Attribute, Extra, Kind, Point};
use std::alloc::Global;
use std::sync::Arc;

/// A record but for its parts. It shares the name of its class with the other records that have the same.
pub(crate) struct RecordHead {
    pub(crate) kind: Kind,
    pub(crate) rid: Identifier,
    pub(crate) scp: Arc<Name>,
}

impl Drop for RecordHead {
    // As for ends, a call for each would take more than to let it go.
    #[inline(always)]
    fn drop(self) {
        let RecordHead {
            kind: _,
            rid: _,
            scp: _,
        } = self;
    }
}

/// The parts of a record, and the long texts that came last. The parts are written into these lists as the record's zones
/// come, and move from here into those of a block, so a record is never moved whole.
#[derive(Drop)]
pub(crate) struct RecordParts {
    pub(crate) points: Vec<Point>,
    pub(crate) ends: Vec<End>,
    pub(crate) attributes: Vec<Attribute>,
    pub(crate) extras: Vec<Extra>,
    pub(crate) texts: LongTexts,
}

impl RecordParts {
    /// No parts, in lists without room.
    pub(crate) fn new(alloc: Global) -> RecordParts
        ensures { AreEmpty result }
    {
        RecordParts {
            points: Vec::new(alloc),
            ends: Vec::new(alloc),
            attributes: Vec::new(alloc),
            extras: Vec::new(alloc),
            texts: LongTexts::new(alloc),
        }
    }

    /// Lets the parts go. The lists are kept, but for those that have room for very many elements.
    pub(crate) fn clear(&mut self, alloc: Global)
        ensures { AreEmpty self.new }
    {
        empty(alloc, &mut self.points);
        empty(alloc, &mut self.ends);
        empty(alloc, &mut self.attributes);
        empty(alloc, &mut self.extras);
    }
}
