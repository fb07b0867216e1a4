//! What a command replies to deliveries: to the lots of THF files, and to the files that lie beside them.
#![tactic(auto)]

pub mod checks;
pub mod deliveries;
mod found;
pub mod laws;
mod lot_files;
mod lots;
pub mod manifests;
mod opening;
mod parts;
mod said;
mod thf;
