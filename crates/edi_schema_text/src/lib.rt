//! The text of a schema by what it means, and its digest.
#![tactic(auto)]

pub mod known;
pub mod laws;
pub mod text;

pub use text::{schema_digest, schema_text};

#[cfg(test)]
mod tests;
