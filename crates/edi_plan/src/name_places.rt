//! Where the names of records are looked up.

ghost use Rattle.std.specs.Prelude.{◌≡◌, ◌≤◌, false, List, length, IfOk};
ghost use Rattle.edi_line.specs.Bytes.{most_records};
ghost use Rattle.edi_record.specs.declared.record.Record.{Record as Records};
ghost use Rattle.edi_record.specs.Records.{is_link};
ghost use Rattle.edi_plan.specs.PlanOf.{place_named};
ghost use Rattle.edi_plan.specs.inner.Names.{name_lent, IsFirstRepeatedNameIfAny};
ghost use Rattle.edi_plan.specs.inner.Found.{FindsAll};

use crate::name_slots::NameHints;
use crate::names::{NameTable, RecordNameRef, links_rise};
use edi_record::SheetRecords;
use std::alloc::{AllocError, Global};

/// The names of records: by hints where these find all, as they do in most sheets, and else in a table. Hints spare most
/// sheets the table, its key and look-ups there.
pub(crate) enum NamePlaces<'a> {
    Hinted(NameHints),
    Tabled(NameTable<'a>),
}

impl Drop for NamePlaces<'_> {
    fn drop(self) {
        match self {
            NamePlaces::Hinted(_) => {}
            NamePlaces::Tabled(_) => {}
        }
    }
}

impl<'a> NamePlaces<'a> {
    /// The names of these records.
    pub(crate) fn among(
        alloc: Global,
        records: &'a SheetRecords,
    ) -> Result<NamePlaces<'a>, AllocError>
        requires { length records.now ≤ most_records }
        ensures { IfOk result (FindsAll records.now) }
    {
        match NameHints::among(alloc, links_rise(records), records)? {
            Some(hints) => Ok(NamePlaces::Hinted(hints)),
            None => Ok(NamePlaces::Tabled(NameTable::among(alloc, records)?)),
        }
    }

    /// The place of the first record with the name of an earlier one, if there is one.
    pub(crate) fn repeat(&self) -> Option<usize>
        ensures { (list : List Records) → FindsAll list self.now → IsFirstRepeatedNameIfAny list result }
    {
        match self {
            NamePlaces::Hinted(_) => None,
            NamePlaces::Tabled(names) => names.repeat,
        }
    }

    /// The place of the first record of a name.
    pub(crate) fn place(&self, records: &SheetRecords, name: &RecordNameRef<'_>) -> Option<u32>
        requires no_link { is_link name.now.kind ≡ false }
        requires names { FindsAll records.now self.now }
        ensures { result ≡ place_named records.now (name_lent name.now) }
    {
        match self {
            NamePlaces::Hinted(hints) => hints.place(records, name),
            NamePlaces::Tabled(names) => names.places.get(name).copied(),
        }
    }
}
