//! Pictures of sheets, from their files.
#![tactic(auto)]

pub mod drawing;
pub mod drawn;
mod identifiers;
mod labels;
pub mod laws;
mod marks;
pub mod names;
mod pair;
mod pictures;
pub mod runs;
mod tints;

pub use drawing::draw_difference_from;
pub use drawn::DrawnDifference;
pub use names::FileNames;
pub use runs::run_draw;
