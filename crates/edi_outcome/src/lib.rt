//! What a run came to: the line that says it, by the names of the inputs and of the output, and its exit status.
#![tactic(auto)]

pub mod known;
pub mod line;
pub mod outcome;

pub use line::{has_names, line_of, line_of_fault, line_of_run, line_of_schema, line_of_sheet};
pub use outcome::{Outcome, status_of, status_of_fault};
