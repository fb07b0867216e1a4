//! Names that earlier records have: rule 301.

ghost use Rattle.std.specs.Prelude.{◌≡◌, ◌≤◌, length, IfOk};
ghost use Rattle.edi_line.specs.Bytes.{most_records};
ghost use Rattle.edi_schema.specs.Classes.{Classes};
ghost use Rattle.edi_plan.specs.inner.Findings.{AreRepeats};

use crate::names::{hash_of, name_at, place_or};
use edi_record::SheetRecords;
use indexmap::IndexMap;
use std::alloc::{AllocError, Global};

/// For each record, in file order, whether it has the name of an earlier one.
pub(crate) fn repeated_names(alloc: Global, records: &SheetRecords) -> Result<Vec<bool>, AllocError>
    requires { length records.now ≤ most_records }
    ensures { IfOk result (λ found. (s : Classes) → AreRepeats s records.now found.items) }
{
    let hash = hash_of(false, records);
    let mut places = IndexMap::with_capacity_and_hasher(alloc, records.len(), hash)?;
    let mut found = Vec::with_capacity(alloc, records.len())?;
    for place in 0..records.len() {
        let first = place_or(&mut places, name_at(records, place), place as u32)?;
        found.push(first as usize != place)?;
    }
    Ok(found)
}
