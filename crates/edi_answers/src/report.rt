//! What the user sees of an outcome.
ghost use Rattle.std.specs.Prelude.{◌≡◌, ◌⊎◌, ◌<◌, ◌≤◌, ◌++◌, IfOk, IsTrue, OnOk, Option, codes, length};
ghost use Rattle.std.specs.Io.KnownBytes.{Appends};
ghost use Rattle.edi_files.specs.Reasons.{ended};
ghost use Rattle.edi_files.specs.declared.reason.Reason.{Reason};
ghost use Rattle.edi_answers.specs.Effects.{written};
ghost use Rattle.edi_answers.specs.Misuses.{bad_kinds_lines, kinds_fault_words, misuse_lines, not_text_lines, shows_words};
ghost use Rattle.edi_outcome.specs.Status.{status_for};
ghost use Rattle.edi_outcome.specs.Words.{FaultHasNames, HasNames, texts, words_of_fault};
ghost use Rattle.edi_answers.specs.AnswerForms.{IsReadIn, text_in_form};
ghost use Rattle.edi_answers.specs.Paths.{names_of_paths};
ghost use Rattle.edi_answers.specs.Reasons.{IsReason, lines_for};
ghost use Rattle.edi_answers.specs.Statuses.{IsAnsweredAs, IsSaid, IsUnsaid, IsWarned, LacksMemory, OnlyLacksMemory, Warns};
ghost use Rattle.edi_outcome.specs.declared.outcome.Outcome.{Outcome};

use crate::form::{AnswerForm, text_in_form};
use crate::paths::{names_of_paths, path_of_fault};
use crate::reason::{add_length, add_reason};
use edi_compare::RunFault;
use edi_files::Folder;
use edi_line::ByteOut;
use edi_outcome::{Outcome, line_of_run, status_of, status_of_fault};
use edi_shown::push_shown;
use edi_words::{BadKinds, KindsFault, Misuse};
use edi_write::put_all;
use std::alloc::{AllocError, Global};

const MEMORY_STATUS: u8 = 5;

const WRITE_STATUS: u8 = 4;

const USAGE_STATUS: u8 = 3;

const REFUSED_STATUS: u8 = 2;

/// Writes the outcome's line where it belongs: answers and refusals to `out`, in a form; all else to `err`, as words,
/// with a line that says why a path can't be read or written where the folder gives a reason. Gives the exit status:
/// that of the outcome, 4 if `out` fails, which `err` says, and 5 if there is no memory for the lines.
pub fn answer<F: Folder, O: ByteOut, E: ByteOut>(
    alloc: Global,
    folder: &F,
    out: &mut O,
    err: &mut E,
    form: AnswerForm,
    outcome: &Outcome,
    paths: &[&str],
) -> u8
    requires { HasNames outcome.now (length paths.now) }
    ensures said { IsSaid (F.why folder.now) (written O.ByteOut out.old out.new) (written E.ByteOut err.old err.new)
        form outcome.now (texts paths.now) result }
    ensures kept { 3 ≤ status_for outcome.now → out.new ≡ out.old }
{
    match outcome {
        Outcome::Fault(fault) if status_of_fault(fault) > REFUSED_STATUS => {
            say_fault(alloc, folder, err, fault, paths)
        }
        _ => say(alloc, out, err, form, outcome, paths),
    }
}

// Writes the line of an answer or a refusal in a form.
fn say<O: ByteOut, E: ByteOut>(
    alloc: Global,
    out: &mut O,
    err: &mut E,
    form: AnswerForm,
    outcome: &Outcome,
    paths: &[&str],
) -> u8
    requires names { HasNames outcome.now (length paths.now) }
    requires small { status_for outcome.now < 3 }
    ensures status { IsAnsweredAs (status_for outcome.now) result }
    ensures answer { result < 3
        → Appends (O.contents out.old) (O.contents out.new)
        (text_in_form form outcome.now (names_of_paths (texts paths.now)))
        × (err.new ≡ err.old) }
    ensures read { result < 3 → IsReadIn form outcome.now (names_of_paths (texts paths.now))
        (text_in_form form outcome.now (names_of_paths (texts paths.now))) }
    ensures unsaid { result ≡ 4 → IsUnsaid (written O.ByteOut out.old out.new) (written E.ByteOut err.old err.new) }
    ensures memory { result ≡ 5
        → OnlyLacksMemory (written O.ByteOut out.old out.new) (written E.ByteOut err.old err.new) }
{
    let Ok(text) = text_by_paths(alloc, form, outcome, paths) else {
        return out_of_memory(err);
    };
    match put_all(out, &text) {
        Ok(()) => status_of(outcome),
        Err(_) => say_unwritten(err),
    }
}

// The text of an outcome in a form, by the names of the paths.
fn text_by_paths(
    alloc: Global,
    form: AnswerForm,
    outcome: &Outcome,
    paths: &[&str],
) -> Result<Vec<u8>, AllocError>
    requires { HasNames outcome.now (length paths.now) }
    ensures text { IfOk result (λ text. text.items
        ≡ text_in_form form outcome.now (names_of_paths (texts paths.now))) }
    ensures read { IfOk result (λ text. IsReadIn form outcome.now (names_of_paths (texts paths.now)) text.items) }
{
    let names = names_of_paths(alloc, paths)?;
    text_in_form(alloc, form, outcome, &names)
}

/// Says on `err` what a fault is, and why a path can't be read or written where the folder gives a reason. Gives the
/// exit status: that of the fault, or 5 if there is no memory for the lines.
pub fn say_fault<F: Folder, E: ByteOut>(
    alloc: Global,
    folder: &F,
    err: &mut E,
    fault: &RunFault,
    paths: &[&str],
) -> u8
    requires { FaultHasNames fault.now (length paths.now) }
    ensures said { IsWarned (F.why folder.now) (written E.ByteOut err.old err.new) fault.now (texts paths.now) result }
    ensures stays { IsTrue (E.has_failed err.old) → IsTrue (E.has_failed err.new) }
{
    match lines_of(alloc, folder, fault, paths) {
        Ok(lines) => {
            warn(err, &lines);
            status_of_fault(fault)
        }
        Err(_) => out_of_memory(err),
    }
}

// The line of a fault, then that of its reason, if the folder gives one, and then that of how much was written, if any
// was.
fn lines_of<F: Folder>(
    alloc: Global,
    folder: &F,
    fault: &RunFault,
    paths: &[&str],
) -> Result<Vec<u8>, AllocError>
    requires { FaultHasNames fault.now (length paths.now) }
    ensures { IfOk result (λ lines. (reason : Option Reason)
        × IsReason (F.why folder.now) (Outcome.Fault fault.now) (texts paths.now) reason
        × (lines.items ≡ lines_for (Outcome.Fault fault.now) (texts paths.now) reason)) }
{
    let mut lines = fault_line_by_paths(alloc, fault, paths)?;
    let path = path_of_fault(fault, paths);
    let mut name = Vec::new(alloc);
    push_shown(&mut name, path.as_bytes())?;
    add_reason(&mut lines, folder, fault, path, &name)?;
    add_length(&mut lines, fault, path)?;
    Ok(lines)
}

// The line of a fault, by the names of the paths.
fn fault_line_by_paths(
    alloc: Global,
    fault: &RunFault,
    paths: &[&str],
) -> Result<Vec<u8>, AllocError>
    requires { FaultHasNames fault.now (length paths.now) }
    ensures { IfOk result (λ line. line.items ≡ ended (words_of_fault fault.now (names_of_paths (texts paths.now)))) }
{
    let names = names_of_paths(alloc, paths)?;
    line_of_run(alloc, fault, &names)
}

/// Says that there is no memory.
pub fn out_of_memory<E: ByteOut>(err: &mut E) -> u8
    ensures status { result ≡ 5 }
    ensures text { Warns (written E.ByteOut err.old err.new) (ended (codes "out of memory")) }
    ensures stays { IsTrue (E.has_failed err.old) → IsTrue (E.has_failed err.new) }
{
    warn(err, b"out of memory\n");
    MEMORY_STATUS
}

/// Says that standard output has failed.
pub fn say_unwritten<E: ByteOut>(err: &mut E) -> u8
    ensures status { result ≡ 4 }
    ensures text { Warns (written E.ByteOut err.old err.new) (ended (codes "cannot write standard output")) }
    ensures stays { IsTrue (E.has_failed err.old) → IsTrue (E.has_failed err.new) }
{
    warn(err, b"cannot write standard output\n");
    WRITE_STATUS
}

/// Says why arguments make no sense, and of bad codes what was given. Gives the exit status: 3, or 5 if there is no
/// memory for the lines.
pub fn say_misuse<E: ByteOut>(alloc: Global, err: &mut E, misuse: Misuse<'_>) -> u8
    ensures { ((result ≡ 3) × Warns (written E.ByteOut err.old err.new) (misuse_lines misuse.entry))
        ⊎ ((result ≡ 5) × IsTrue (shows_words misuse.entry) × LacksMemory (written E.ByteOut err.old err.new)) }
{
    match misuse {
        Misuse::BadKinds(bad) => bad_kinds(alloc, err, bad),
        Misuse::TwoStandard => wrong_words(err, b"only one input can be -\n"),
        Misuse::NoSheet => wrong_words(err, b"explain takes RULE, or SCD, DIC and VEC\n"),
        Misuse::SeveralSheets => {
            wrong_words(err, b"explain takes one VEC, or several with --all\n")
        }
        Misuse::NothingHashed => {
            wrong_words(err, b"hash takes SCD, DIC and a VEC, or --schema\n")
        }
        Misuse::ListAndMore => wrong_words(err, b"hash --check LIST takes SCD and DIC alone\n"),
        Misuse::StandardPairing => wrong_words(err, b"--pairing takes a file, and not -\n"),
        Misuse::StandardPicture => wrong_words(err, b"--picture takes a file, and not -\n"),
        Misuse::NotOneManifest => wrong_words(
            err,
            b"delivery takes one PATH with --manifest or --check, and not both\n",
        ),
    }
}

// Says why words are wrong.
fn wrong_words<E: ByteOut>(err: &mut E, lines: &[u8]) -> u8
    ensures status { result ≡ 3 }
    ensures text { Warns (written E.ByteOut err.old err.new) lines.now }
{
    warn(err, lines);
    USAGE_STATUS
}

// Says that codes are bad, what was given, and what is wrong with that.
fn bad_kinds<E: ByteOut>(alloc: Global, err: &mut E, bad: BadKinds<'_>) -> u8
    ensures { ((result ≡ 3) × Warns (written E.ByteOut err.old err.new) (bad_kinds_lines bad.entry))
        ⊎ ((result ≡ 5) × LacksMemory (written E.ByteOut err.old err.new)) }
{
    match lines_of_kinds(alloc, bad) {
        Ok(lines) => wrong_words(err, &lines),
        Err(_) => out_of_memory(err),
    }
}

// The line for codes that are bad, and then that of what was given.
fn lines_of_kinds(alloc: Global, bad: BadKinds<'_>) -> Result<Vec<u8>, AllocError>
    ensures { IfOk result (λ lines. lines.items ≡ bad_kinds_lines bad.entry) }
{
    let mut lines = Vec::from_slice(alloc, b"bad kinds\nedicad: --kinds ")?;
    push_shown(&mut lines, bad.given.as_bytes())?;
    lines.extend_from_slice(b": ")?;
    push_kinds_fault(&mut lines, bad.fault)?;
    lines.push(b'\n')?;
    Ok(lines)
}

// Appends what is wrong with codes.
fn push_kinds_fault(lines: &mut Vec<u8>, fault: KindsFault<'_>) -> Result<(), AllocError>
    ensures { OnOk result (lines.new.items ≡ lines.old.items ++ kinds_fault_words fault.entry) }
{
    match fault {
        KindsFault::Count => lines.extend_from_slice(b"takes four codes parted by commas"),
        KindsFault::Empty => lines.extend_from_slice(b"a code is empty"),
        KindsFault::Twice(code) => {
            push_shown(lines, code.as_bytes())?;
            lines.extend_from_slice(b" is there twice")
        }
    }
}

/// Says that no rule has a number.
pub fn unknown_rule<E: ByteOut>(err: &mut E) -> u8
    ensures status { result ≡ 3 }
    ensures text { Warns (written E.ByteOut err.old err.new) (ended (codes "no rule has this number")) }
{
    warn(err, b"no rule has this number\n");
    USAGE_STATUS
}

/// Says that the words are no text, and what to do.
pub fn not_text<E: ByteOut>(err: &mut E) -> u8
    ensures status { result ≡ 3 }
    ensures text { Warns (written E.ByteOut err.old err.new) not_text_lines }
{
    warn(
        err,
        b"error: the words are not all UTF-8\nedicad: name such a file by a link whose name is, or read it by - from standard input\n",
    );
    USAGE_STATUS
}

/// Writes a line of which it doesn't matter whether it comes through.
pub fn warn<E: ByteOut>(err: &mut E, line: &[u8])
    ensures text { Warns (written E.ByteOut err.old err.new) line.now }
    ensures stays { IsTrue (E.has_failed err.old) → IsTrue (E.has_failed err.new) }
{
    let _ = put_all(err, line);
}
