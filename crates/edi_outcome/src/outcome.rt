//! What a run came to, and its exit status.
ghost use Rattle.std.specs.Prelude.{◌≡◌};
ghost use Rattle.edi_outcome.specs.Status.{status_for, status_of_fault, status_of_schema, status_of_sheet};

use edi_compare::{Fault, RunFault};
use edi_pairing::{Unpaired, WrongLine};
use edi_schema::SchemaFault;

/// What a run came to.
#[derive(Drop)]
pub enum Outcome {
    /// The sheet is accepted.
    Accepted,
    /// The two sheets state the same plan.
    Same,
    /// The canonical files of the two sheets first differ at this line, counted from 1.
    Different(u64),
    /// The file states a pairing that carries the plan of the first sheet onto that of the second.
    Pairs,
    /// The file states a pairing that does not carry it, and this is why.
    Unpaired(Unpaired),
    /// The file states no pairing: its first wrong line, counted from 1, and why it is wrong.
    WrongPairing(u64, WrongLine),
    /// The run gave no answer.
    Fault(RunFault),
}

/// The exit status: 0 accepted, the same or a pairing, 1 different or no pairing that carries, 2 refused, 4 not read or
/// not written, 5 out of memory.
pub fn status_of(outcome: &Outcome) -> u8
    ensures { result ≡ status_for outcome.now }
{
    match outcome {
        Outcome::Accepted | Outcome::Same | Outcome::Pairs => 0,
        Outcome::Different(_) | Outcome::Unpaired(_) => 1,
        Outcome::WrongPairing(_, _) => 2,
        Outcome::Fault(fault) => status_of_fault(fault),
    }
}

/// The exit status of a fault: 2 refused, 4 not read or not written, 5 out of memory.
pub fn status_of_fault(fault: &RunFault) -> u8
    ensures { result ≡ status_of_fault fault.now }
{
    match fault {
        RunFault::Memory(_) => 5,
        RunFault::Schema(fault) => schema_status(fault),
        RunFault::First(fault) | RunFault::Second(fault) => sheet_status(fault),
        RunFault::Read { .. } | RunFault::TooLong { .. } | RunFault::Write(_) => 4,
    }
}

fn schema_status(fault: &SchemaFault) -> u8
    ensures { result ≡ status_of_schema fault.now }
{
    match fault {
        SchemaFault::Memory(_) => 5,
        SchemaFault::Line { .. } | SchemaFault::Entry { .. } | SchemaFault::Kinds => 2,
    }
}

fn sheet_status(fault: &Fault) -> u8
    ensures { result ≡ status_of_sheet fault.now }
{
    match fault {
        Fault::Memory(_) => 5,
        Fault::Line { .. } | Fault::Entry { .. } => 2,
    }
}
