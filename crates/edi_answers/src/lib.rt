//! What the commands answer over a folder and two streams, but for canonical files, differences and pictures.
#![tactic(auto)]

pub mod census;
mod census_texts;
pub mod classes;
pub mod commands;
pub mod explains;
pub mod form;
pub mod hashes;
mod hinted;
pub mod known;
pub mod notes;
pub mod pair_inputs;
mod paths;
mod reason;
pub mod report;
pub mod sheets;
pub mod whole;
