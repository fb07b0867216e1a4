use std::alloc::AllocError;
use thiserror::Error;

/// Why a plan is not sound: one of the rules 401 to 406 with its record, counted from 1, or lack of memory.
pub use edi_record::RecordFault as TopoFault;

/// Why members have no numbers.
#[derive(Debug, Drop, Error)]
pub enum TieFault {
    #[error("out of memory")]
    Memory(AllocError),
    #[error("member {0} has the key of an earlier member")]
    Tie(u32),
}

/// The least member that has the key of an earlier one, and the first member with this key.
#[derive(Drop)]
pub struct Tied {
    pub member: u32,
    pub earlier: u32,
}
