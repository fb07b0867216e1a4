//! What a record says of itself, taken from its zones one by one.

ghost use Rattle.std.specs.Prelude.{◌≡◌, ◌++◌, ◌∷◌, [], List, None, OnOk, option_map, true};
ghost use Rattle.edi_line.specs.ZoneData.{ZoneData, entry};
ghost use Rattle.edi_line.specs.Zones.{begins_group};
ghost use Rattle.edi_record.specs.Titles.{IsTitleOf};

use edi_line::Zone;
use edi_line::codes::RID;
use std::alloc::{AllocError, Global};
use std::marker::Model;

/// The line in which a record begins, its type as RTY states it, and the value of its first RID, if it has one. It is
/// used for one record after the other, so that it takes memory once.
#[derive(Drop)]
pub struct RecordTitle {
    line: u64,
    rty: Vec<u8>,
    rid: Vec<u8>,
    has_rid: bool,
}

impl Model for RecordTitle {
    ghost use Rattle.std.specs.Prelude.{Some, None, if◌then◌else◌};
    ghost use Rattle.edi_record.specs.Titles.{TitleData};

    ghost Value = { TitleData };

    ghost view = { λ t. record {
      line = t.line;
      rty = t.rty.items;
      rid = if t.has_rid then Some t.rid.items else None;
    } };
}

impl RecordTitle {
    /// Of no record.
    pub fn new(alloc: Global) -> RecordTitle
        ensures { result ≡ record { line = 0; rty = []; rid = None } }
    {
        RecordTitle {
            line: 0,
            rty: Vec::new(alloc),
            rid: Vec::new(alloc),
            has_rid: false,
        }
    }

    /// A record begins with its RTY.
    pub fn begin(&mut self, head: &Zone<'_>) -> Result<(), AllocError>
        requires { begins_group (entry head.now) ≡ true }
        ensures { OnOk result (IsTitleOf (entry head.now ∷ []) self.new) }
    {
        self.line = head.line;
        self.rty.clear();
        self.rty.extend_from_slice(head.value.as_slice())?;
        self.has_rid = false;
        Ok(())
    }

    /// Takes the next zone of the record.
    pub fn take(&mut self, zone: &Zone<'_>) -> Result<(), AllocError>
        ensures { OnOk result ((group : List ZoneData) → IsTitleOf group self.old
            → IsTitleOf (group ++ entry zone.now ∷ []) self.new) }
    {
        if self.has_rid || zone.code != RID {
            return Ok(());
        }
        self.rid.clear();
        self.rid.extend_from_slice(zone.value.as_slice())?;
        self.has_rid = true;
        Ok(())
    }

    /// The line of its RTY, counted from 1.
    pub fn line(&self) -> u64
        ensures { result ≡ self.now.line }
    {
        self.line
    }

    /// The value of its RTY.
    pub fn rty(&self) -> &[u8]
        ensures { result.now ≡ self.now.rty }
    {
        self.rty.as_slice()
    }

    /// The value of its first RID, if it has one.
    pub fn rid(&self) -> Option<&[u8]>
        ensures { option_map (λ v. v.now) result ≡ self.now.rid }
    {
        if self.has_rid {
            Some(self.rid.as_slice())
        } else {
            None
        }
    }
}
