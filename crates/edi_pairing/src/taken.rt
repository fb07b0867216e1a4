//! The names of a sheet's records, taken while the sheet is read.

ghost use Rattle.std.specs.Prelude.{◌≡◌, [], IfOk};
ghost use Rattle.edi_pairing.specs.inner.Taken.{HasTaken, titled_name};

use crate::names::RecordName;
use crate::wrong::kind_named;
use edi_line::codes::RID;
use edi_line::{GroupOut, Text, Zone};
use edi_record::{Kind, RecordTitle};
use std::alloc::{AllocError, Global};

/// The names of the records that have come, and what the one that is coming says of itself.
pub(crate) struct TakenNames {
    list: Vec<RecordName>,
    title: RecordTitle,
}

impl Drop for TakenNames {
    fn drop(self) {
        let TakenNames { list: _, title: _ } = self;
    }
}

impl TakenNames {
    /// No names, before the first record.
    pub(crate) fn new(alloc: Global) -> TakenNames
        ensures { HasTaken result [] [] }
    {
        TakenNames {
            list: Vec::new(alloc),
            title: RecordTitle::new(alloc),
        }
    }

    /// The names, in file order.
    pub(crate) fn into_vec(self) -> Vec<RecordName>
        ensures { result.items ≡ self.list.items }
    {
        let TakenNames { list, title: _ } = self;
        list
    }
}

impl GroupOut for TakenNames {
    ghost Holds = { HasTaken };

    fn begin(&mut self, _alloc: Global, head: &Zone<'_>) -> Result<(), AllocError> {
        self.title.begin(head)
    }

    // Only an RID adds to what a record says of itself. To ask for it here spares a call for nearly each zone.
    fn take(&mut self, _alloc: Global, zone: &Zone<'_>) -> Result<(), AllocError> {
        if zone.code != RID {
            return Ok(());
        }
        self.title.take(zone)
    }

    fn end(&mut self, alloc: Global) -> Result<(), AllocError> {
        self.list.push(name_of(alloc, &self.title)?)?;
        Ok(())
    }
}

/// The name of a record that says this of itself. One of no known type breaks 201, and counts as a node; one without an
/// identifier breaks 202, and its name has none.
fn name_of(alloc: Global, title: &RecordTitle) -> Result<RecordName, AllocError>
    ensures { IfOk result (λ name. name ≡ titled_name title.now) }
{
    Ok(RecordName {
        kind: kind_named(title.rty()).unwrap_or(Kind::Pno),
        rid: Text::from_slice(alloc, title.rid().unwrap_or(b""))?,
    })
}
