ghost use Rattle.std.specs.Prelude.{◌≡◌, None, alloc_error};
ghost use Rattle.edi_record.specs.declared.fault.RecordFault.TheVariants.{Memory};

use std::alloc::AllocError;

/// Why records have no numbers: rule 501 with its record, counted from 1, or lack of memory.
pub use edi_record::RecordFault as RankFault;

/// Why records have no numbers, and the earlier object that 501 speaks of, by its place from 0.
#[derive(Drop)]
pub struct Unranked {
    pub fault: RankFault,
    pub earlier: Option<u64>,
}

impl From<AllocError> for Unranked {
    ghost from_gives = { λ _ e. (e.fault ≡ Memory alloc_error) × (e.earlier ≡ None) };

    fn from(fault: AllocError) -> Unranked {
        Unranked {
            fault: RankFault::Memory(fault),
            earlier: None,
        }
    }
}
