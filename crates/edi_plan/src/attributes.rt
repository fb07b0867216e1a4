//! Attributes in order.

ghost use Rattle.std.specs.Prelude.{◌≡◌, map, IfOk};
ghost use Rattle.edi_schema.specs.Sorted.{sort_by};
ghost use Rattle.edi_plan.specs.Orders.{attribute_cmp};

use crate::attribute_keys::AttributeKey;
use crate::record::PlanAttribute;
use itertools::Itertools;
use std::alloc::{AllocError, Global};

/// The attributes by class, then character set, then value, borrowed.
pub fn sorted_attributes<'a>(
    alloc: Global,
    attributes: &'a [PlanAttribute],
) -> Result<Vec<&'a PlanAttribute>, AllocError>
    ensures { IfOk result (λ sorted. map (λ a. a.now) sorted.items ≡ sort_by attribute_cmp attributes.now) }
{
    // Most records have none.
    if attributes.is_empty() {
        return Ok(Vec::new(alloc));
    }
    let keys = attributes
        .iter()
        .map(|attribute| AttributeKey::of(attribute));
    let sorted = keys.sorted_unstable(alloc)?;
    sorted.map(|key| key.attribute()).collect_vec(alloc)
}
