//! Matchings of two sheets: which records of the one are records of the other.
#![tactic(auto)]

mod added;
pub mod checking;
mod checksum;
mod contents;
pub mod differing;
mod entries;
mod faces;
mod growing;
mod keys;
pub mod known;
pub mod laws;
mod links;
pub mod matching;
mod partners;
pub mod places;
mod plain_links;
mod ranked;
pub mod record;
mod same;

pub use checking::check_matching;
pub use differing::differences;
pub use matching::Matching;
