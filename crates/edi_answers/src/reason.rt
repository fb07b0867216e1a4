//! Which faults have a reason, and the line that says it; and the line on what was written before a fault.
ghost use Rattle.std.specs.Prelude.{◌≡◌, ◌++◌, Option, OnOk};
ghost use Rattle.edi_files.specs.Reasons.{reason_line};
ghost use Rattle.edi_files.specs.declared.reason.Reason.{Reason};
ghost use Rattle.edi_answers.specs.Reasons.{IsReasonOf, length_line, taken_line};

use crate::paths::output_name;
use edi_compare::RunFault;
use edi_files::{Folder, Reason, push_reason};
use edi_line::push_number;
use edi_shown::push_shown;
use edi_words::is_standard;
use std::alloc::AllocError;

/// Adds to a line of a fault the line that says why its path can't be read or written, where the folder gives a reason.
pub fn add_reason<F: Folder>(
    lines: &mut Vec<u8>,
    folder: &F,
    fault: &RunFault,
    path: &str,
    name: &[u8],
) -> Result<(), AllocError>
    ensures { OnOk result ((reason : Option Reason) × IsReasonOf (F.why folder.now) fault.now path.now reason
        × (lines.new.items ≡ lines.old.items ++ reason_line name.now reason)) }
{
    match reason_of(folder, fault, path) {
        Some(reason) => push_reason(lines, name, reason),
        None => Ok(()),
    }
}

/// Adds to the lines of a fault the one that says how many bytes a stream took before it failed, if it took any.
pub fn add_length(lines: &mut Vec<u8>, fault: &RunFault, path: &str) -> Result<(), AllocError>
    ensures { OnOk result (lines.new.items ≡ lines.old.items ++ length_line fault.now path.now) }
{
    match fault {
        RunFault::Write(written) => push_length(lines, path, written.count),
        RunFault::Memory(_)
        | RunFault::Read { .. }
        | RunFault::TooLong { .. }
        | RunFault::Schema(_)
        | RunFault::First(_)
        | RunFault::Second(_) => Ok(()),
    }
}

// Appends how many bytes a stream took, if it took any.
fn push_length(lines: &mut Vec<u8>, path: &str, count: u64) -> Result<(), AllocError>
    ensures { OnOk result (lines.new.items ≡ lines.old.items ++ taken_line path.now count) }
{
    if count == 0 {
        return Ok(());
    }
    lines.extend_from_slice(b"edicad: ")?;
    push_shown(lines, output_name(path))?;
    lines.extend_from_slice(b": the first ")?;
    push_number(lines, count)?;
    lines.extend_from_slice(b" bytes were written\n")
}

// The reason of a fault at a path, where the folder gives one.
fn reason_of<F: Folder>(folder: &F, fault: &RunFault, path: &str) -> Option<Reason>
    ensures { IsReasonOf (F.why folder.now) fault.now path.now result }
{
    match fault {
        RunFault::Read { .. } | RunFault::Write(_) => {
            if is_standard(path) {
                None
            } else {
                folder.reason(path)
            }
        }
        RunFault::Memory(_)
        | RunFault::TooLong { .. }
        | RunFault::Schema(_)
        | RunFault::First(_)
        | RunFault::Second(_) => None,
    }
}
