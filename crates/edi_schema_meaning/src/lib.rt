//! What the text of a schema decides: every answer to a sheet.
#![tactic(auto)]

pub mod laws;
