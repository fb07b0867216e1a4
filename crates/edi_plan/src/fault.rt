ghost use Rattle.std.specs.Prelude.{◌≡◌, alloc_error};
ghost use Rattle.edi_plan.specs.declared.fault.Unresolved.TheVariants.{Memory as NoMemory};
ghost use Rattle.edi_record.specs.declared.fault.RecordFault.TheVariants.{Memory as NoMemoryForRecords};

use std::alloc::{AllocError, AllocFailed};

/// Why records state no plan: one of the rules 301 to 307 with its record, counted from 1, or lack of memory.
pub use edi_record::RecordFault as RefFault;

/// Why records state no plan, and the earlier link that 307 speaks of, by its place from 0.
#[derive(Drop)]
pub struct Unplanned {
    pub fault: RefFault,
    pub earlier: Option<u64>,
}

impl From<AllocError> for Unplanned {
    ghost from_gives = { λ _ e. e.fault ≡ NoMemoryForRecords alloc_error };

    fn from(fault: AllocError) -> Unplanned {
        Unplanned {
            fault: RefFault::Memory(fault),
            earlier: None,
        }
    }
}

/// Why a record has no place in a plan: the least rule that it breaks, or lack of memory.
#[derive(Drop)]
pub(crate) enum Unresolved {
    Memory(AllocError),
    Broken(u16),
}

impl From<AllocError> for Unresolved {
    ghost from_gives = { λ _ e. e ≡ NoMemory alloc_error };

    fn from(fault: AllocError) -> Unresolved {
        Unresolved::Memory(fault)
    }
}

impl<T: Drop> From<AllocFailed<T>> for Unresolved {
    ghost from_gives = { λ _ e. e ≡ NoMemory alloc_error };

    fn from(_fault: AllocFailed<T>) -> Unresolved {
        Unresolved::Memory(AllocError)
    }
}
