//! Why a file states no pairing.

ghost use Rattle.std.specs.Prelude.{◌≡◌, alloc_error};
ghost use Rattle.edi_pairing.specs.declared.fault.PairingFault.TheVariants.{Memory};
ghost use Rattle.edi_pairing.specs.declared.fault.VerifyFault.TheVariants as verified;
ghost use Rattle.edi_pairing.specs.declared.fault.VerifyRunFault.TheVariants.{Run};
ghost use Rattle.edi_pairing.specs.UnderFiles.{of_verify};
ghost use Rattle.edi_pairing.specs.Verified.{of_pairing, of_sheets};
ghost use Rattle.edi_pairing.specs.WrongLines.{reason_words};

use edi_compare::{CompareFault, Fault, RunFault};
use std::alloc::{AllocError, AllocFailed};
use thiserror::Error;

/// Why a line of a pairing's file is wrong: the first of these that is so. A and B are the two sheets.
#[derive(Clone, Copy, Debug)]
pub enum WrongLine {
    /// The file ends before it.
    Missing,
    /// It stands behind the line of the last record of A.
    Extra,
    /// The file ends within it: it has no line feed.
    Unended,
    /// A carriage return stands before its line feed.
    CarriageReturn,
    /// It is the first, and not `edicad pairing 1`.
    Head,
    /// It is neither `TYPE;IDENTIFIER;IDENTIFIER` nor that with `;reversed`.
    Form,
    /// It is the line of another record of A than the next.
    OtherRecord,
    /// It is the line of a record that is none of A, and one of B. The sheets may be exchanged.
    SecondSheet,
    /// It is the line of a record that is in neither sheet.
    NoRecord,
    /// It is the line of the next record, and its second identifier is that of no record of B.
    NoPartner,
    /// It is the line of the next record, and its second identifier is that of records of B of other types alone.
    OtherType,
}

impl WrongLine {
    /// The reason in words.
    pub fn words(self) -> &'static [u8]
        ensures { result.now ≡ reason_words self }
    {
        match self {
            WrongLine::Missing => b"the file ends before this line",
            WrongLine::Extra => b"A has no more records",
            WrongLine::Unended => b"the file ends within this line",
            WrongLine::CarriageReturn => b"it ends in a carriage return",
            WrongLine::Head => b"it is not edicad pairing 1",
            WrongLine::Form => b"it is not TYPE;IDENTIFIER;IDENTIFIER, with or without ;reversed",
            WrongLine::OtherRecord => b"it is the line of another record of A than the next",
            WrongLine::SecondSheet => {
                b"it is the line of a record of B, and not of A: the sheets may be exchanged"
            }
            WrongLine::NoRecord => b"it is the line of a record that neither sheet has",
            WrongLine::NoPartner => b"no record of B has the second identifier",
            WrongLine::OtherType => b"the record of B with the second identifier has another type",
        }
    }
}

/// Why a file states no pairing.
#[derive(Debug, Drop, Error)]
pub enum PairingFault {
    /// A growth was refused.
    #[error("out of memory")]
    Memory(AllocError),
    /// The first line, counted from 1, up to which the file is not the beginning of the text of any pairing, and why.
    #[error("line {at} of the pairing is wrong")]
    Line { at: u64, why: WrongLine },
}

impl From<AllocError> for PairingFault {
    ghost from_gives = { λ _ e. e ≡ Memory alloc_error };

    fn from(fault: AllocError) -> PairingFault {
        PairingFault::Memory(fault)
    }
}

impl<T: Drop> From<AllocFailed<T>> for PairingFault {
    ghost from_gives = { λ _ e. e ≡ Memory alloc_error };

    fn from(_fault: AllocFailed<T>) -> PairingFault {
        PairingFault::Memory(AllocError)
    }
}

/// Why a pairing file is not judged.
#[derive(Debug, Drop, Error)]
pub enum VerifyFault {
    /// A growth was refused.
    #[error("out of memory")]
    Memory(AllocError),
    /// The first sheet is refused.
    #[error("the first sheet: {0}")]
    First(Fault),
    /// The first sheet is accepted, and the second is refused.
    #[error("the second sheet: {0}")]
    Second(Fault),
    /// Both sheets are accepted, and the file states no pairing of them: its first wrong line, counted from 1, and why
    /// it is.
    #[error("line {at} of the pairing is wrong")]
    Pairing { at: u64, why: WrongLine },
}

impl From<AllocError> for VerifyFault {
    ghost from_gives = { λ _ e. e ≡ verified.Memory alloc_error };

    fn from(fault: AllocError) -> VerifyFault {
        VerifyFault::Memory(fault)
    }
}

impl From<CompareFault> for VerifyFault {
    ghost from_gives = { λ f e. e ≡ of_sheets f };

    fn from(fault: CompareFault) -> VerifyFault {
        match fault {
            CompareFault::Memory(error) => VerifyFault::Memory(error),
            CompareFault::First(fault) => VerifyFault::First(fault),
            CompareFault::Second(fault) => VerifyFault::Second(fault),
        }
    }
}

impl From<PairingFault> for VerifyFault {
    ghost from_gives = { λ f e. e ≡ of_pairing f };

    fn from(fault: PairingFault) -> VerifyFault {
        match fault {
            PairingFault::Memory(error) => VerifyFault::Memory(error),
            PairingFault::Line { at, why } => VerifyFault::Pairing { at, why },
        }
    }
}

/// Why a run over a pairing's file gives no answer.
#[derive(Debug, Drop, Error)]
pub enum VerifyRunFault {
    /// An input can't be read or is too long, the schema or a sheet is refused, or a growth was refused.
    #[error(transparent)]
    Run(RunFault),
    /// Both sheets are accepted, and the file states no pairing of them: its first wrong line, counted from 1, and why
    /// it is.
    #[error("line {at} of the pairing is wrong")]
    Pairing { at: u64, why: WrongLine },
}

impl From<RunFault> for VerifyRunFault {
    ghost from_gives = { λ f e. e ≡ Run f };

    fn from(fault: RunFault) -> VerifyRunFault {
        VerifyRunFault::Run(fault)
    }
}

impl From<VerifyFault> for VerifyRunFault {
    ghost from_gives = { λ f e. e ≡ of_verify f };

    fn from(fault: VerifyFault) -> VerifyRunFault {
        match fault {
            VerifyFault::Memory(error) => VerifyRunFault::Run(RunFault::Memory(error)),
            VerifyFault::First(fault) => VerifyRunFault::Run(RunFault::First(fault)),
            VerifyFault::Second(fault) => VerifyRunFault::Run(RunFault::Second(fault)),
            VerifyFault::Pairing { at, why } => VerifyRunFault::Pairing { at, why },
        }
    }
}
