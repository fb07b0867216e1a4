//! What differs between two sheets.
#![tactic(auto)]

mod changes;
pub mod differing;
mod directions;
pub mod form;
pub mod known;
pub mod laws;
mod parting;
mod proposing;
mod totals;

pub use differing::{Difference, Findings, diff, diff_from, find_differences};
pub use form::TextForm;
