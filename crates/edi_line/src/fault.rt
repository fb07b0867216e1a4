//! Why a file has no zones.

ghost use Rattle.std.specs.Prelude.{◌≡◌, alloc_error};
ghost use Rattle.edi_line.specs.declared.fault.LineFault.TheVariants.{Memory};

use std::alloc::{AllocError, AllocFailed};
use thiserror::Error;

/// Why a file has no zones.
#[derive(Debug, Drop, Error)]
pub enum LineFault {
    /// A growth was refused.
    #[error("out of memory")]
    Memory(AllocError),
    /// The least line in which one of the rules 101 to 110 is broken, counted from 1, and the least
    /// rule that is broken there. A file without its last zone breaks 106 one line past its last.
    #[error("rule {rule} is broken in line {at}")]
    Broken { rule: u16, at: u64 },
}

impl From<AllocError> for LineFault {
    ghost from_gives = { λ _ e. e ≡ Memory alloc_error };

    fn from(fault: AllocError) -> LineFault {
        LineFault::Memory(fault)
    }
}

impl<T: Drop> From<AllocFailed<T>> for LineFault {
    ghost from_gives = { λ _ e. e ≡ Memory alloc_error };

    fn from(_fault: AllocFailed<T>) -> LineFault {
        LineFault::Memory(AllocError)
    }
}
