//! The text of what differs between two sheets, by what became of the records of the one in the other.
#![tactic(auto)]

pub mod known;
pub mod lines;
pub mod marks;
mod numbers;
mod packed;
pub mod parts;
pub mod report;
pub mod sheet;
pub mod site;
pub mod values;

pub use marks::reached_marks;
pub use parts::{DifferingParts, NO_PARTS, parts_at};
pub use report::Reporter;
pub use sheet::{LocatedSheet, locate_both, locate_from};
pub use site::Site;
pub use values::values_of_places;
