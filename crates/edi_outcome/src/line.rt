//! The line of an outcome.
//!
//! Names are those of the inputs in their order, and of the output last: two of a bundle's run, four of a sheet's, five
//! of a comparison, and six of a pairing's check, whose fifth is that of the pairing's file. A name is a path, or words
//! such as `standard input`; a line shows it by `push_shown`.
ghost use Rattle.std.specs.Prelude.{◌≡◌, ◌<◌, ◌↔◌, ◌-◌, ◌++◌, [], IfOk, IsTrue, codes, length};
ghost use Rattle.std.specs.Fmt.{decimal};
ghost use Rattle.edi_files.specs.Reasons.{ended};
ghost use Rattle.edi_shown.specs.Shown.{shown_bytes};
ghost use Rattle.edi_outcome.specs.Words.{FaultHasNames, HasNames, first_text, line_for, schema_text, sheet_fault_text};
ghost use Rattle.edi_outcome.specs.Words.{sheet_text, source_text, text_in, texts, unpaired_words, words_of_fault};

use crate::outcome::Outcome;
use edi_compare::{Fault, RunFault};
use edi_pairing::{Unpaired, push_unpaired};
use edi_schema::{SchemaFault, Source};
use edi_shown::push_shown;
use std::alloc::{AllocError, Global};

/// The line that states the outcome, ended by a line feed. Where a pairing doesn't carry, a second line says why.
///
/// The first of two sheets is called so where there are five names or six.
pub fn line_of(alloc: Global, outcome: &Outcome, names: &[&[u8]]) -> Result<Vec<u8>, AllocError>
    requires { HasNames outcome.now (length names.now) }
    ensures { IfOk result (λ line. line.items ≡ line_for outcome.now names.now) }
{
    match outcome {
        Outcome::Accepted => line_of_words(alloc, b"accepted"),
        Outcome::Same => line_of_words(alloc, b"same"),
        Outcome::Different(line) => line_of_number(alloc, b"different at line ", *line),
        Outcome::Pairs => line_of_words(alloc, b"pairs"),
        Outcome::Unpaired(why) => lines_of_unpaired(alloc, name_in(names, 4), why),
        Outcome::WrongPairing(line, why) => {
            line_of_reason(alloc, b"refused pairing line ", *line, why.words())
        }
        Outcome::Fault(fault) => line_of_run(alloc, fault, names),
    }
}

/// Whether there are names enough for the line of an outcome, where there are so many.
pub fn has_names(outcome: &Outcome, count: usize) -> bool
    ensures { IsTrue result ↔ HasNames outcome.now count }
{
    match outcome {
        Outcome::Unpaired(_) => 4 < count,
        Outcome::Fault(fault) => fault_has_names(fault, count),
        Outcome::Accepted
        | Outcome::Same
        | Outcome::Different(_)
        | Outcome::Pairs
        | Outcome::WrongPairing(_, _) => true,
    }
}

// The same of a fault.
fn fault_has_names(fault: &RunFault, count: usize) -> bool
    ensures { IsTrue result ↔ FaultHasNames fault.now count }
{
    match fault {
        RunFault::Read { input } | RunFault::TooLong { input } => {
            0 < *input && (*input as usize) < count
        }
        RunFault::Write(_) => 0 < count,
        RunFault::Memory(_) | RunFault::Schema(_) | RunFault::First(_) | RunFault::Second(_) => {
            true
        }
    }
}

/// The line that states why a run has no answer, ended by a line feed.
pub fn line_of_run(alloc: Global, fault: &RunFault, names: &[&[u8]]) -> Result<Vec<u8>, AllocError>
    requires { FaultHasNames fault.now (length names.now) }
    ensures { IfOk result (λ line. line.items ≡ ended (words_of_fault fault.now (texts names.now))) }
{
    match fault {
        RunFault::Memory(_) => line_of_words(alloc, b"out of memory"),
        RunFault::Read { input } => line_of_name(alloc, b"cannot read ", input_in(names, *input)),
        RunFault::TooLong { input } => line_of_name(alloc, b"too long ", input_in(names, *input)),
        RunFault::Schema(fault) => line_of_schema(alloc, fault),
        RunFault::First(fault) => sheet_line(alloc, first_words(names.len()), fault),
        RunFault::Second(fault) => sheet_line(alloc, b"second ", fault),
        RunFault::Write(_) => line_of_name(
            alloc,
            b"cannot write ",
            name_in(names, names.len() - 1),
        ),
    }
}

/// What is wrong with a sheet whose name stands before it, ended by a line feed.
pub fn line_of_sheet(alloc: Global, fault: &RunFault) -> Result<Vec<u8>, AllocError>
    ensures { IfOk result (λ line. line.items ≡ ended (sheet_fault_text fault.now)) }
{
    match fault {
        RunFault::Memory(_) => line_of_words(alloc, b"out of memory"),
        RunFault::Read { .. } => line_of_words(alloc, b"cannot read"),
        RunFault::TooLong { .. } => line_of_words(alloc, b"too long"),
        RunFault::Schema(fault) => line_of_schema(alloc, fault),
        RunFault::First(fault) | RunFault::Second(fault) => sheet_line(alloc, b"", fault),
        RunFault::Write(_) => line_of_words(alloc, b"cannot write"),
    }
}

/// The line of a refused schema, ended by a line feed.
pub fn line_of_schema(alloc: Global, fault: &SchemaFault) -> Result<Vec<u8>, AllocError>
    ensures { IfOk result (λ line. line.items ≡ ended (schema_text fault.now)) }
{
    match fault {
        SchemaFault::Memory(_) => line_of_words(alloc, b"out of memory"),
        SchemaFault::Line { file, rule, at } => {
            line_of_rule(alloc, source_words(*file), *rule, b" line ", *at)
        }
        SchemaFault::Entry { file, rule, at } => {
            line_of_rule(alloc, source_words(*file), *rule, b" record ", *at)
        }
        SchemaFault::Kinds => line_of_words(alloc, b"refused kinds 604"),
    }
}

/// The line of a refused sheet, ended by a line feed.
pub fn line_of_fault(alloc: Global, fault: &Fault) -> Result<Vec<u8>, AllocError>
    ensures { IfOk result (λ line. line.items ≡ ended (sheet_text [] fault.now)) }
{
    sheet_line(alloc, b"", fault)
}

// The line of a refused sheet, with the words that say which.
fn sheet_line(alloc: Global, which: &[u8], fault: &Fault) -> Result<Vec<u8>, AllocError>
    ensures { IfOk result (λ line. line.items ≡ ended (sheet_text which.now fault.now)) }
{
    match fault {
        Fault::Memory(_) => line_of_words(alloc, b"out of memory"),
        Fault::Line { rule, at } => line_of_rule(alloc, which, *rule, b" line ", *at),
        Fault::Entry { rule, at } => line_of_rule(alloc, which, *rule, b" record ", *at),
    }
}

// Which of a schema's files.
fn source_words(file: Source) -> &'static [u8]
    ensures { result.now ≡ source_text file }
{
    match file {
        Source::Scd => b"scd ",
        Source::Dic => b"dic ",
    }
}

// Which sheet, where there are two.
fn first_words(count: usize) -> &'static [u8]
    ensures { result.now ≡ first_text count }
{
    if count == 5 || count == 6 {
        b"first "
    } else {
        b""
    }
}

// The name of the input of this number, counted from 1.
fn input_in<'a>(names: &[&'a [u8]], input: u8) -> &'a [u8]
    requires counted { 0 < input }
    requires there { input < length names.now }
    ensures { result.now ≡ text_in (texts names.now) (input - 1) }
{
    name_in(names, input as usize - 1)
}

// The name at a place.
fn name_in<'a>(names: &[&'a [u8]], place: usize) -> &'a [u8]
    requires { place < length names.now }
    ensures { result.now ≡ text_in (texts names.now) place }
{
    names[place]
}

// That a file doesn't pair, and why.
fn lines_of_unpaired(alloc: Global, file: &[u8], why: &Unpaired) -> Result<Vec<u8>, AllocError>
    ensures { IfOk result (λ lines. lines.items ≡ ended (unpaired_words file.now why.now)) }
{
    let mut lines = Vec::from_slice(alloc, b"does not pair\n")?;
    push_unpaired(&mut lines, file, why)?;
    lines.push(b'\n')?;
    Ok(lines)
}

// A rule that is broken, and where.
fn line_of_rule(
    alloc: Global,
    which: &[u8],
    rule: u16,
    place: &[u8],
    at: u64,
) -> Result<Vec<u8>, AllocError>
    ensures { IfOk result (λ line. line.items
        ≡ ended (codes "refused " ++ which.now ++ decimal rule ++ place.now ++ decimal at)) }
{
    let mut line = Vec::from_slice(alloc, b"refused ")?;
    line.extend_from_slice(which)?;
    line.extend_from_slice(rule.to_string(alloc)?.as_bytes())?;
    line.extend_from_slice(place)?;
    line.extend_from_slice(at.to_string(alloc)?.as_bytes())?;
    line.push(b'\n')?;
    Ok(line)
}

// Some words.
fn line_of_words(alloc: Global, words: &[u8]) -> Result<Vec<u8>, AllocError>
    ensures { IfOk result (λ line. line.items ≡ ended words.now) }
{
    let mut line = Vec::from_slice(alloc, words)?;
    line.push(b'\n')?;
    Ok(line)
}

// Some words and a name, as a line shows it.
fn line_of_name(alloc: Global, words: &[u8], name: &[u8]) -> Result<Vec<u8>, AllocError>
    ensures { IfOk result (λ line. line.items ≡ ended (words.now ++ shown_bytes name.now)) }
{
    let mut line = Vec::from_slice(alloc, words)?;
    push_shown(&mut line, name)?;
    line.push(b'\n')?;
    Ok(line)
}

// Some words and a number.
fn line_of_number(alloc: Global, words: &[u8], number: u64) -> Result<Vec<u8>, AllocError>
    ensures { IfOk result (λ line. line.items ≡ ended (words.now ++ decimal number)) }
{
    let mut line = Vec::from_slice(alloc, words)?;
    line.extend_from_slice(number.to_string(alloc)?.as_bytes())?;
    line.push(b'\n')?;
    Ok(line)
}

// Some words, a number and a reason.
fn line_of_reason(
    alloc: Global,
    words: &[u8],
    number: u64,
    reason: &[u8],
) -> Result<Vec<u8>, AllocError>
    ensures { IfOk result (λ line. line.items ≡ ended (words.now ++ decimal number ++ codes ": " ++ reason.now)) }
{
    let mut line = Vec::from_slice(alloc, words)?;
    line.extend_from_slice(number.to_string(alloc)?.as_bytes())?;
    line.extend_from_slice(b": ")?;
    line.extend_from_slice(reason)?;
    line.push(b'\n')?;
    Ok(line)
}
