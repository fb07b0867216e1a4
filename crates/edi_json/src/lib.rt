//! What differs between two sheets, as lines of JSON (docs/JSON.md).
#![tactic(auto)]

pub mod differences;
pub mod known;
pub mod lines;
pub mod members;

pub use differences::differences_json;
