//! What differs between two sheets, told object by object.
#![tactic(auto)]

mod account;
mod attributes;
mod bare_links;
mod bounds;
mod counts;
mod distances;
mod elements;
mod further;
mod index;
pub mod known;
pub mod laws;
mod marks;
mod names;
mod objects;
mod outlines;

pub use account::{ObjectReporter, account_text};
pub use names::Namer;
