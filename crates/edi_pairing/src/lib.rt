//! Pairings as files: written, read and checked.
#![tactic(auto)]

pub mod fault;
pub mod known;
pub mod laws;
mod lines;
pub mod names;
mod places;
pub mod reading;
pub mod sheets;
mod taken;
pub mod unpaired;
pub mod verified;
pub mod verifying;
pub mod writing;
mod wrong;

pub use fault::{PairingFault, VerifyFault, VerifyRunFault, WrongLine};
pub use laws::{pairing_texts_are_unique, wrong_lines_have_one_reason};
pub use names::{RecordName, RecordNames};
pub use reading::read_pairing;
pub use sheets::{NamedSheet, name_both, name_sheet};
pub use unpaired::{part_words, push_unpaired};
pub use verified::{NamedPair, Unpaired, Verified};
pub use verifying::verify;
pub use writing::{Compared, compare_to_file, pairing_text};
