//! Why files and codes make no schema.

ghost use Rattle.std.specs.Prelude.{◌≡◌, alloc_error};
ghost use Rattle.edi_schema.specs.declared.fault.SchemaFault.TheVariants.{Memory};

use std::alloc::{AllocError, AllocFailed};
use thiserror::Error;

/// Which of a schema's two files.
#[derive(Clone, Copy, Debug, PartialEq, Eq)]
pub enum Source {
    /// The file of the classes.
    Scd,
    /// The dictionary.
    Dic,
}

/// Why two files and four codes make no schema.
#[derive(Debug, Drop, Error)]
pub enum SchemaFault {
    #[error("out of memory")]
    Memory(AllocError),
    #[error("rule {rule} is broken at line {at} of {file:?}")]
    Line { file: Source, rule: u16, at: u64 },
    #[error("rule {rule} is broken at record {at} of {file:?}")]
    Entry { file: Source, rule: u16, at: u64 },
    #[error("rule 604 is broken")]
    Kinds,
}

impl From<AllocError> for SchemaFault {
    ghost from_gives = { λ _ e. e ≡ Memory alloc_error };

    fn from(fault: AllocError) -> SchemaFault {
        SchemaFault::Memory(fault)
    }
}

impl<T: Drop> From<AllocFailed<T>> for SchemaFault {
    ghost from_gives = { λ _ e. e ≡ Memory alloc_error };

    fn from(_fault: AllocFailed<T>) -> SchemaFault {
        SchemaFault::Memory(AllocError)
    }
}
