//! Classes, kinds of link and letters.
#![tactic(auto)]

pub mod by_role;
pub mod class;
pub mod class_finder;
mod definition;
mod draft;
pub mod fault;
pub mod kinds;
pub mod laws;
mod places;
pub mod role;
pub mod schema;
mod sorting;
mod title;
mod titles;

pub use by_role::ByRole;
pub use class::{Class, ClassRef};
pub use class_finder::ClassFinder;
pub use fault::{SchemaFault, Source};
pub use kinds::Kinds;
pub use role::Role;
pub use schema::Schema;
