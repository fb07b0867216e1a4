//! All that the first broken phase of a sheet breaks, and the lines that say so.
#![tactic(auto)]

pub mod findings;
pub mod judging;
pub mod listing;
pub mod phases;

pub use listing::list_broken;
pub use phases::all_broken;
