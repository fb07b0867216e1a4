//! Deliveries: which lots a THF file says that there are, and which files each of them has.
#![tactic(auto)]

mod count;
pub mod delivery;
mod draft;
pub mod fault;
pub mod file_name;
mod known;
pub mod laws;
pub mod lot;
mod lots;
pub mod name_part;

pub use delivery::Delivery;
pub use fault::DeliveryFault;
pub use file_name::{Extension, FileName};
pub use known::known_deliveries_are_read;
pub use lot::Lot;
pub use name_part::NamePart;
