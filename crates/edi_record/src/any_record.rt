//! A record of either kind, as its head and its parts.

use crate::record::{Extra, Point};

/// A record, borrowed: its head, and its parts. Contracts see it as `record_lent` says.
#[derive(Drop)]
pub struct AnyRecordRef<'a, H, A, E> {
    pub head: &'a H,
    pub points: &'a [Point],
    pub ends: &'a [E],
    pub attributes: &'a [A],
    pub extras: &'a [Extra],
}
