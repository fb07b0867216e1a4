//! Canonical bytes, and writing them.
#![tactic(auto)]

pub mod canon;
mod class_line;
mod heads;
mod labelled_plan;
pub mod laws;
mod links;
mod names;
mod openings;
mod page;
mod parts;
mod records;
mod shared_front;
pub mod writing;
mod zones;

pub use canon::{BehindFront, write_canon, write_canon_behind};
pub use writing::{Written, put_all};
