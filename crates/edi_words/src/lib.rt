//! What the words of a command line ask for.
#![tactic(auto)]

mod command_line;
pub mod given_kinds;
pub mod known;
pub mod words;

pub use given_kinds::GivenKinds;
pub use words::{
    BadKinds, KindsFault, ManyFiles, ManyRequest, Misuse, PairFiles, PairRequest, Request,
    SheetFiles, SheetRequest, is_standard, request_asked,
};
