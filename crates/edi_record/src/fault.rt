//! Why zones state no records.

ghost use Rattle.std.specs.Prelude.{◌≡◌, alloc_error};
ghost use Rattle.edi_record.specs.declared.fault.RecordFault.TheVariants.{Memory};
ghost use Rattle.edi_record.specs.declared.fault.GroupFault.TheVariants.{Memory as GroupMemory};
ghost use Rattle.edi_record.specs.declared.fault.SheetFault.TheVariants.{Line};
ghost use Rattle.edi_record.specs.inner.RecordRefusal.{fault_at};

use edi_line::LineFault;
use std::alloc::{AllocError, AllocFailed};
use thiserror::Error;

/// Why records are refused: a rule that is broken with its record, counted from 1, or lack of memory. The rules 201 to
/// 208 are those of records; the later phases have this fault with the rules 301 to 307, 401 to 406 and 501.
#[derive(Debug, Drop, Error)]
pub enum RecordFault {
    #[error("out of memory")]
    Memory(AllocError),
    #[error("rule {rule} is broken at record {at}")]
    Broken { rule: u16, at: u64 },
}

/// Why a file states no sheet.
#[derive(Debug, Drop, Error)]
pub enum SheetFault {
    /// One of the rules 101 to 110, or lack of memory.
    #[error(transparent)]
    Line(LineFault),
    /// One of the rules 201 to 208.
    #[error(transparent)]
    Record(RecordFault),
}

/// Why the zones of one record state none: lack of memory, or the least rule that they break.
#[derive(Drop)]
pub(crate) enum GroupFault {
    Memory(AllocError),
    Broken(u16),
}

impl GroupFault {
    /// The fault of the record that comes at this place.
    pub(crate) fn at(self, at: u64) -> RecordFault
        ensures { result ≡ fault_at at self }
    {
        match self {
            GroupFault::Memory(fault) => RecordFault::Memory(fault),
            GroupFault::Broken(rule) => RecordFault::Broken { rule, at },
        }
    }
}

impl From<AllocError> for GroupFault {
    ghost from_gives = { λ _ e. e ≡ GroupMemory alloc_error };

    fn from(fault: AllocError) -> GroupFault {
        GroupFault::Memory(fault)
    }
}

impl<T: Drop> From<AllocFailed<T>> for GroupFault {
    ghost from_gives = { λ _ e. e ≡ GroupMemory alloc_error };

    fn from(_fault: AllocFailed<T>) -> GroupFault {
        GroupFault::Memory(AllocError)
    }
}

impl From<AllocError> for RecordFault {
    ghost from_gives = { λ _ e. e ≡ Memory alloc_error };

    fn from(fault: AllocError) -> RecordFault {
        RecordFault::Memory(fault)
    }
}

impl<T: Drop> From<AllocFailed<T>> for RecordFault {
    ghost from_gives = { λ _ e. e ≡ Memory alloc_error };

    fn from(_fault: AllocFailed<T>) -> RecordFault {
        RecordFault::Memory(AllocError)
    }
}

impl From<LineFault> for SheetFault {
    ghost from_gives = { λ f e. e ≡ Line f };

    fn from(fault: LineFault) -> SheetFault {
        SheetFault::Line(fault)
    }
}
