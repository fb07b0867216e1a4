//! The rules of topology.
#![tactic(auto)]

pub mod arcs;
mod at_record;
pub mod directions;
mod ends;
mod faces;
pub mod fault;
pub mod findings;
pub mod forward_points;
pub mod layer;
pub mod marks;
pub mod node_key;
pub mod nodes;
pub mod numbers;
pub mod ranking;
mod repeat;
pub mod sound;
pub mod tie_marks;

pub use arcs::ArcLayer;
pub use directions::is_forward;
pub use fault::{TieFault, Tied, TopoFault};
pub use findings::TopologyFindings;
pub use forward_points::ForwardPoints;
pub use layer::Layer;
pub use marks::marks_by_place;
pub use node_key::{NodeKey, node_key_at};
pub use nodes::NodeLayer;
pub use numbers::Ranks;
pub use ranking::{members_by_key, ranks, ranks_or_tie};
pub use sound::{Sound, Unsound};
pub use tie_marks::ties;
