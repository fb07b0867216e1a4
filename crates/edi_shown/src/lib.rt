//! Identifiers, values and names of files, as a line shows them: so that no terminal acts on them, and a line stays one
//! line.
#![tactic(auto)]

pub mod known;
pub mod shown;

pub use shown::push_shown;
