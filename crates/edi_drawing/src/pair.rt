//! Two sheets that were compared.

ghost use Rattle.std.specs.Prelude.{◌≡◌, None, slice_index_or};

use edi_matching::Matching;
use edi_plan::Plan;
use edi_report::LocatedSheet;
use std::marker::Model;

/// What stands at a place of a list, if anything does.
pub(crate) fn entry_at(list: &[Option<u32>], place: u32) -> Option<u32>
    ensures { result ≡ slice_index_or list.now place None }
{
    match list.get(place as usize) {
        Some(entry) => *entry,
        None => None,
    }
}

/// Two sheets, and what is unchanged of the first in the second and what became of it there.
#[derive(Drop)]
pub(crate) struct SheetPair<'a> {
    pub(crate) first: &'a LocatedSheet,
    pub(crate) second: &'a LocatedSheet,
    pub(crate) unchanged: &'a Matching,
    pub(crate) became: &'a Matching,
}

impl<'a> Model for SheetPair<'a> {
    ghost use Rattle.edi_drawing.specs.Marked.{SheetPairData};

    ghost Value = { SheetPairData };

    ghost view = { λ c. record {
      first = c.first.now;
      second = c.second.now;
      unchanged = c.unchanged.now;
      became = c.became.now;
    } };
}

impl<'a> SheetPair<'a> {
    ghost use Rattle.std.specs.Prelude.{◌≡◌};
    ghost use Rattle.edi_drawing.specs.Marked.{twin_of};

    /// The plan of the first sheet.
    pub(crate) fn plan(&self) -> &'a Plan
        ensures { result.now ≡ self.now.first.accepted }
    {
        self.first.accepted.sound().plan()
    }

    /// The plan of the second.
    pub(crate) fn other(&self) -> &'a Plan
        ensures { result.now ≡ self.now.second.accepted }
    {
        self.second.accepted.sound().plan()
    }

    /// The record of the second sheet that one of the first is, if any.
    pub(crate) fn twin_of(&self, place: u32) -> Option<u32>
        ensures { result ≡ twin_of self.now place }
    {
        entry_at(self.unchanged.to.as_slice(), place)
    }
}
