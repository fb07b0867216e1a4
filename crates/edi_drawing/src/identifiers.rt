//! The identifiers of records.

ghost use Rattle.std.specs.Prelude.{◌≡◌, IfOk, map};

use edi_report::LocatedSheet;
use std::alloc::{AllocError, Global};

/// The identifiers of the records of a sheet, in file order.
pub(crate) fn identifiers_of<'a>(
    alloc: Global,
    sheet: &'a LocatedSheet,
) -> Result<Vec<&'a [u8]>, AllocError>
    ensures { IfOk result (λ identifiers. map (λ i. i.now) identifiers.items ≡ map (λ site. site.rid) sheet.now.sites) }
{
    let mut identifiers = Vec::new(alloc);
    for site in sheet.sites.as_slice() {
        identifiers.push(site.rid.as_slice())?;
    }
    Ok(identifiers)
}
