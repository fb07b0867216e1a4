//! The rules as they were before points had a third coordinate, and before nodes could share a position: what was
//! accepted and canonical then is accepted and canonical now.
#![tactic(auto)]

pub mod known;
pub mod laws;
