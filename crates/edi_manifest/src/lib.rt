//! Manifests of deliveries: the digests of their parts, by the names of the files.
#![tactic(auto)]

pub mod laws;
pub mod line;
pub mod reading;
pub mod writing;

pub use line::{Digested, ManifestLine};
pub use reading::read_manifest;
pub use writing::manifest;
