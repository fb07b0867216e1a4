//! What the records of a sheet say of one another: names, and what the ends of links name.

ghost use Rattle.std.specs.Prelude.{◌≡◌, ◌≤◌, length, flat_map, option_copied, option_map, IfOk};
ghost use Rattle.edi_line.specs.Bytes.{most_records};
ghost use Rattle.edi_plan.specs.Plans.{first_of};
ghost use Rattle.edi_plan.specs.inner.Resolving.{first_subset, AreReferences};

use crate::name_places::NamePlaces;
use crate::targets::{Target, targets};
use edi_line::Text;
use edi_record::{End, SheetRecords};
use std::alloc::{AllocError, Global};

/// The lot and the subset of an end.
pub(crate) struct Subset {
    pub(crate) lot: Text,
    pub(crate) subset: Text,
}

impl Drop for Subset {
    fn drop(self) {
        let Subset { lot: _, subset: _ } = self;
    }
}

/// The place of the first record with the name of an earlier one, the targets of all ends in their order,
/// and the lot and the subset of the first end.
pub(crate) struct References {
    pub(crate) repeat: Option<usize>,
    pub(crate) targets: Vec<Option<Target>>,
    pub(crate) subset: Option<Subset>,
}

impl Drop for References {
    fn drop(self) {
        let References {
            repeat: _,
            targets: _,
            subset: _,
        } = self;
    }
}

/// The first end of all records.
fn first_end(records: &SheetRecords) -> Option<&End>
    ensures { option_copied result ≡ first_of (flat_map (λ r. r.ends) records.now) }
{
    for place in 0..records.len() {
        if let Some(end) = records.ends(place).first() {
            return Some(end);
        }
    }
    None
}

pub(crate) fn subset_of(alloc: Global, records: &SheetRecords) -> Result<Option<Subset>, AllocError>
    ensures { IfOk result (λ subset. subset ≡ first_subset records.now) }
{
    match first_end(records) {
        Some(end) => Ok(Some(Subset {
            lot: Text::from_slice(alloc, end.lot())?,
            subset: Text::from_slice(alloc, end.subset())?,
        })),
        None => Ok(None),
    }
}

impl References {
    /// The references among the records of a sheet. An end is looked up once, among names borrowed from the records.
    pub(crate) fn among(alloc: Global, records: &SheetRecords) -> Result<References, AllocError>
        requires { length records.now ≤ most_records }
        ensures { IfOk result (AreReferences records.now) }
    {
        let names = NamePlaces::among(alloc, records)?;
        Ok(References {
            repeat: names.repeat(),
            targets: targets(alloc, &names, records)?,
            subset: subset_of(alloc, records)?,
        })
    }
}
