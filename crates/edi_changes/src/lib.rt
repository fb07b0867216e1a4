//! Lists of digests: what they state, and what has changed from one to another.
#![tactic(auto)]

pub mod answer;
pub mod changes;
pub mod checks;
pub mod entry;
pub mod known;
pub mod lacking;
pub mod laws;
pub mod list;
mod merge;
pub mod reading;
pub mod stated;
pub mod told;
pub mod verdict;

pub use changes::{Change, Fate, changes_of};
pub use entry::Entry;
pub use list::ListLine;
pub use reading::read_list;
pub use stated::read_digests;
