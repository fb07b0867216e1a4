//! The lines on the digests of a list.

ghost use Rattle.std.specs.Prelude.{◌≡◌, IfOk, IsTrue};
ghost use Rattle.edi_answers.specs.Effects.{written};
ghost use Rattle.edi_answers.specs.Statuses.{IsPairStatus};
ghost use Rattle.edi_changes.specs.Checks.{FailsInVerdict, GivesVerdict, status_of_verdict, verdict_line, verdict_word};
ghost use Rattle.edi_changes.specs.inner.Checking.{IsSaidAs, at_least, status_of_said};

use crate::list::{ListLine, schema_word};
use edi_answers::hashes::push_named;
use edi_answers::report;
use edi_line::ByteOut;
use edi_write::put_all;
use std::alloc::{AllocError, Global};

const FAILED_STATUS: u8 = 1;

/// What was said of a line of a list, with the status.
#[derive(Clone, Copy)]
pub(crate) enum LineOutcome {
    /// All of it.
    Whole(u8),
    /// The output failed in it.
    CutOff(u8),
}

/// The same with a status that is no less.
pub(crate) fn at_least(least: u8, said: LineOutcome) -> LineOutcome
    ensures value { result ≡ at_least least said }
    ensures status { IsPairStatus least → IsPairStatus (status_of_said said) → IsPairStatus (status_of_said result) }
{
    match said {
        LineOutcome::Whole(status) => LineOutcome::Whole(least.max(status)),
        LineOutcome::CutOff(status) => LineOutcome::CutOff(least.max(status)),
    }
}

/// The word for a digest that is the one that was found, or isn't.
pub fn verdict_word(is_same: bool) -> &'static [u8]
    ensures { result.now ≡ verdict_word is_same }
{
    if is_same { b"OK" } else { b"FAILED" }
}

// Its status.
fn status_of_verdict(is_same: bool) -> u8
    ensures value { result ≡ status_of_verdict is_same }
    ensures status { IsPairStatus result }
{
    if is_same { 0 } else { FAILED_STATUS }
}

/// The line on a digest of a list.
pub fn verdict_line(alloc: Global, line: &ListLine, is_same: bool) -> Result<Vec<u8>, AllocError>
    ensures { IfOk result (λ text. text.items ≡ verdict_line line.now is_same) }
{
    let mut text = Vec::from_slice(alloc, schema_word(line.is_schema))?;
    push_named(
        alloc,
        &mut text,
        line.name.as_slice(),
        verdict_word(is_same),
    )?;
    Ok(text)
}

/// Writes the line on a digest of a list.
pub(crate) fn say_verdict<O: ByteOut, E: ByteOut>(
    alloc: Global,
    line: &ListLine,
    is_same: bool,
    out: &mut O,
    err: &mut E,
) -> LineOutcome
    ensures status { IsPairStatus (status_of_said result) }
    ensures said { IsSaidAs (GivesVerdict line.now is_same) (FailsInVerdict line.now is_same)
        (written O.ByteOut out.old out.new) (written E.ByteOut err.old err.new) result }
    ensures out_stays { IsTrue (O.has_failed out.old) → IsTrue (O.has_failed out.new) }
    ensures err_stays { IsTrue (E.has_failed err.old) → IsTrue (E.has_failed err.new) }
{
    let Ok(text) = verdict_line(alloc, line, is_same) else {
        return LineOutcome::Whole(report::out_of_memory(err));
    };
    match put_all(out, &text) {
        Ok(()) => LineOutcome::Whole(status_of_verdict(is_same)),
        Err(_) => LineOutcome::CutOff(report::say_unwritten(err)),
    }
}
