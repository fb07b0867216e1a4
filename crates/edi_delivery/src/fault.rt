//! Why a file states no delivery.

ghost use Rattle.std.specs.Prelude.{◌≡◌, alloc_error};
ghost use Rattle.edi_delivery.specs.declared.fault.DeliveryFault.TheVariants.{Line, Record};
ghost use Rattle.edi_delivery.specs.declared.fault.LotFault.TheVariants.{Memory as LotMemory};

use edi_line::LineFault;
use edi_record::RecordFault;
use std::alloc::{AllocError, AllocFailed};
use thiserror::Error;

/// Why a file states no delivery.
#[derive(Debug, Drop, Error)]
pub enum DeliveryFault {
    /// One of the rules 101 to 110, or lack of memory.
    #[error(transparent)]
    Line(LineFault),
    /// One of the rules 701 to 711 with its record, counted from 1, or lack of memory.
    #[error(transparent)]
    Record(RecordFault),
}

impl From<LineFault> for DeliveryFault {
    ghost from_gives = { λ f e. e ≡ Line f };

    fn from(fault: LineFault) -> DeliveryFault {
        DeliveryFault::Line(fault)
    }
}

impl From<RecordFault> for DeliveryFault {
    ghost from_gives = { λ f e. e ≡ Record f };

    fn from(fault: RecordFault) -> DeliveryFault {
        DeliveryFault::Record(fault)
    }
}

/// Why one record is refused: lack of memory, or the least rule that it breaks.
#[derive(Drop)]
pub(crate) enum LotFault {
    Memory(AllocError),
    Broken(u16),
}

impl LotFault {
    ghost use Rattle.edi_delivery.specs.inner.Taken.{lot_fault_at};

    /// The fault of the record at this place.
    pub(crate) fn at(self, at: u64) -> RecordFault
        ensures { result ≡ lot_fault_at at self }
    {
        match self {
            LotFault::Memory(fault) => RecordFault::Memory(fault),
            LotFault::Broken(rule) => RecordFault::Broken { rule, at },
        }
    }
}

impl From<AllocError> for LotFault {
    ghost from_gives = { λ _ e. e ≡ LotMemory alloc_error };

    fn from(fault: AllocError) -> LotFault {
        LotFault::Memory(fault)
    }
}

impl<T: Drop> From<AllocFailed<T>> for LotFault {
    ghost from_gives = { λ _ e. e ≡ LotMemory alloc_error };

    fn from(_fault: AllocFailed<T>) -> LotFault {
        LotFault::Memory(AllocError)
    }
}
