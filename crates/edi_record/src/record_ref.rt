//! A record whose parts lie elsewhere.

ghost use Rattle.std.specs.Prelude.{◌≡◌};
ghost use Rattle.edi_record.specs.AnyRecords.{record_lent};
ghost use Rattle.edi_record.specs.inner.RecordParts.{record_with_parts};

use crate::any_record::AnyRecordRef;
use crate::end::End;
use crate::name::Name;
use crate::record::{Attribute, Extra, Kind, Point};
use crate::record_parts::RecordHead;
use std::marker::Model;

/// A record, borrowed. Contracts see the record.
#[derive(Drop)]
pub struct RecordRef<'a> {
    pub(crate) kind: Kind,
    pub(crate) rid: &'a [u8],
    pub(crate) scp: &'a Name,
    pub(crate) points: &'a [Point],
    pub(crate) ends: &'a [End],
    pub(crate) attributes: &'a [Attribute],
    pub(crate) extras: &'a [Extra],
}

impl<'a> Model for RecordRef<'a> {
    ghost use Rattle.edi_record.specs.declared.record.Record.{Record};

    ghost Value = { Record };

    ghost view = { λ r. record {
      kind = r.kind;
      rid = r.rid.now;
      scp = r.scp.now;
      points = r.points.now;
      ends = r.ends.now;
      attributes = r.attributes.now;
      extras = r.extras.now;
    } };
}

impl<'a> RecordRef<'a> {
    /// The record with this head and these parts.
    pub(crate) fn of(found: AnyRecordRef<'a, RecordHead, Attribute, End>) -> RecordRef<'a>
        ensures { result ≡ record_with_parts (record_lent found.entry) }
    {
        RecordRef {
            kind: found.head.kind,
            rid: found.head.rid.as_slice(),
            scp: &found.head.scp,
            points: found.points,
            ends: found.ends,
            attributes: found.attributes,
            extras: found.extras,
        }
    }

    /// The type of the record.
    pub fn kind(&self) -> Kind
        ensures { result ≡ self.now.kind }
    {
        self.kind
    }

    /// Its identifier.
    pub fn rid(&self) -> &'a [u8]
        ensures { result.now ≡ self.now.rid }
    {
        self.rid
    }

    /// The name of its class.
    pub fn scp(&self) -> &'a Name
        ensures { result.now ≡ self.now.scp }
    {
        self.scp
    }

    /// Its points, in file order; their coordinates are whole millionths of the file's unit.
    pub fn points(&self) -> &'a [Point]
        ensures { result.now ≡ self.now.points }
    {
        self.points
    }

    /// Its ends, the origin first.
    pub fn ends(&self) -> &'a [End]
        ensures { result.now ≡ self.now.ends }
    {
        self.ends
    }

    /// Its attributes, in file order.
    pub fn attributes(&self) -> &'a [Attribute]
        ensures { result.now ≡ self.now.attributes }
    {
        self.attributes
    }

    /// Its zones whose codes aren't known, in file order.
    pub fn extras(&self) -> &'a [Extra]
        ensures { result.now ≡ self.now.extras }
    {
        self.extras
    }
}
