//! The records of a sheet.

ghost use Rattle.std.specs.Prelude.{◌≡◌, ◌↔◌, ◌<◌, ◌^◌, ◌∷◌, ◌++◌, [], IsTrue, Some, slice_get, length, IfOk, OnOk, OnErr};
ghost use Rattle.edi_record.specs.Shapes.{stated_at};
ghost use Rattle.edi_record.specs.inner.RecordParts.{whole};

use crate::blocks::Blocks;
use crate::end::End;
use crate::identifier::Identifier;
use crate::record::{Attribute, Kind};
use crate::record_parts::{RecordHead, RecordParts};
use crate::record_ref::RecordRef;
use crate::remaking::Remaking;
use std::alloc::{AllocError, Global};
use std::marker::Model;

/// The records of a sheet, in file order. Contracts see the list of records alone.
pub struct SheetRecords {
    blocks: Blocks<RecordHead, Attribute, End>,
}

impl Drop for SheetRecords {
    fn drop(self) {
        let SheetRecords { blocks: _ } = self;
    }
}

impl Model for SheetRecords {
    ghost use Rattle.std.specs.Prelude.{List};
    ghost use Rattle.edi_record.specs.declared.record.Record.{Record};

    ghost Value = { List Record };

    ghost use Rattle.edi_record.specs.inner.RecordParts.{records_with_parts};

    ghost view = { λ records. records_with_parts records.blocks };
}

impl SheetRecords {
    /// No records.
    pub(crate) fn new(alloc: Global) -> SheetRecords
        ensures { result ≡ [] }
    {
        SheetRecords {
            blocks: Blocks::new(alloc),
        }
    }

    /// Puts a record behind the others. Its parts leave the lists that they are in.
    pub(crate) fn push(
        &mut self,
        head: RecordHead,
        parts: &mut RecordParts,
    ) -> Result<(), AllocError>
        ensures records { OnOk result (self.new ≡ self.old ++ whole head parts.old ∷ []) }
        ensures unchanged { OnErr result (self.new ≡ self.old) }
    {
        self.blocks.push(
            head,
            &mut parts.points,
            &mut parts.ends,
            &mut parts.attributes,
            &mut parts.extras,
        )
    }

    /// How many records there are.
    pub fn len(&self) -> usize
        ensures len { result ≡ length self.now }
        ensures few { result < 2 ^ 63 }
    {
        self.blocks.len()
    }

    /// Whether there are none.
    pub fn is_empty(&self) -> bool
        ensures { IsTrue result ↔ (self.now ≡ []) }
    {
        self.len() == 0
    }

    /// A record, by its place from 0.
    pub fn record(&self, place: usize) -> RecordRef<'_>
        requires { place < length self.now }
        ensures { slice_get self.now place ≡ Some result }
    {
        RecordRef::of(self.blocks.record(place))
    }

    /// The type of a record, by its place from 0.
    pub fn kind(&self, place: usize) -> Kind
        requires { place < length self.now }
        ensures { result ≡ (stated_at self.now place).kind }
    {
        self.blocks.head(place).kind
    }

    /// The identifier of a record, by its place from 0.
    pub fn rid(&self, place: usize) -> &Identifier
        requires { place < length self.now }
        ensures { result.now ≡ (stated_at self.now place).rid }
    {
        &self.blocks.head(place).rid
    }

    /// The ends of a record, by its place from 0: none if it is no link.
    pub fn ends(&self, place: usize) -> &[End]
        requires { place < length self.now }
        ensures { result.now ≡ (stated_at self.now place).ends }
    {
        self.blocks.record(place).ends
    }

    /// The records, on their way to others with heads, attributes and ends of another kind.
    pub fn into_remaking<H: Drop, A: Drop, E: Drop>(self) -> Remaking<H, A, E>
        ensures { result ≡ record { made = []; left = self } }
    {
        let SheetRecords { blocks } = self;
        Remaking::new(blocks)
    }
}
