//! Lists that are used for one record of a plan after the other.

ghost use Rattle.std.specs.Prelude.{◌≡◌, []};

use crate::record::{PlanAttribute, PlanEnd};
use std::alloc::Global;

/// Empty lists, which may have room, for the parts of the next record.
#[derive(Drop)]
pub(crate) struct SpareParts {
    pub(crate) attributes: Vec<PlanAttribute>,
    pub(crate) ends: Vec<PlanEnd>,
    pub ghost no_attributes: { attributes.items ≡ [] },
    pub ghost no_ends: { ends.items ≡ [] },
}

impl SpareParts {
    /// Lists without room.
    pub(crate) fn new(alloc: Global) -> SpareParts {
        SpareParts {
            attributes: Vec::new(alloc),
            ends: Vec::new(alloc),
        }
    }
}
