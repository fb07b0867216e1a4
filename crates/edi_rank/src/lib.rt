//! Directions, keys and numbers of records.
#![tactic(auto)]

mod end_orders;
pub mod ends;
pub mod face_layer;
pub mod fault;
pub mod forward;
pub mod keys;
pub mod labels;
pub mod laws;
pub mod link_key;
mod link_layer;
mod numbering;
pub mod object_layer;
mod placed_link;
pub mod repeated;
mod sparse_list;

pub use edi_topo::{ArcLayer, Layer, NodeLayer, Ranks, TieFault, is_forward, ranks};
pub use ends::{end_in_order, numbered_end};
pub use face_layer::FaceLayer;
pub use fault::{RankFault, Unranked};
pub use keys::{FaceKey, LinkKey, NumberedEnd, ObjectKey};
pub use labels::{Labels, tell_objects_apart, tell_objects_apart_with_earlier};
pub use link_key::{class_after_reversals, plain_ends};
pub use object_layer::ObjectLayer;
pub use repeated::repeated_objects;
