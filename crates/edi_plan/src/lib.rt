//! Plans: records whose pointers are resolved.
#![tactic(auto)]

mod arc_sides;
mod attribute_keys;
pub mod attributes;
mod earlier_links;
pub mod extent;
pub mod fault;
pub mod laws;
mod link_findings;
mod name_hints;
mod name_places;
mod name_slots;
mod names;
mod places;
pub mod plan;
mod planned;
pub mod record;
mod records;
pub mod reference_findings;
mod references;
mod repeated_names;
mod sides;
mod spare_parts;
mod targets;

pub use attributes::sorted_attributes;
pub use extent::{Extent, Span, extent_of, extent_with, extent_with_point};
pub use fault::{RefFault, Unplanned};
pub use plan::Plan;
pub use record::{PlanAttribute, PlanEnd, PlanRecord};
pub use reference_findings::ReferenceFindings;
