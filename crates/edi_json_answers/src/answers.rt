//! The line of JSON of an outcome.
//!
//! Names are those of the inputs in their order, and of the output last, as `line_of` of edi_outcome has them.

ghost use Rattle.std.specs.Prelude.{◌≡◌, ◌++◌, ◌<◌, ◌∷◌, [], IfOk, OnOk, length};
ghost use Rattle.json.specs.Tree.{json_tokens};
ghost use Rattle.edi_pairing.specs.UnpairedText.{unpaired_text};
ghost use Rattle.edi_outcome.specs.Words.{FaultHasNames, HasNames, text_in, texts, words_of_fault};
ghost use Rattle.edi_json.specs.Texts.{ReadsAs, json_text};
ghost use Rattle.edi_json_answers.specs.Answers.{different_value, failed_value, fault_value, first_word, outcome_value};
ghost use Rattle.edi_json_answers.specs.Answers.{schema_value, sheet_value, source_word, unpaired_value};

use crate::parts::{begin_answer, write_bare, write_broken, write_reasoned, write_wrong_pairing};
use edi_compare::{Fault, RunFault};
use edi_json::lines::{begin_line, end_line};
use edi_json::members::put_number;
use edi_outcome::{Outcome, line_of_run};
use edi_pairing::{Unpaired, push_unpaired};
use edi_schema::{SchemaFault, Source};
use json::Writer;
use std::alloc::{AllocError, Global};

/// The rule that codes of kinds break where they don't fit a schema (docs/FORMAT.md).
const KINDS_RULE: u16 = 604;

/// What a run came to, as a line of JSON (docs/JSON.md, "Answers"). It fails only if memory runs out.
///
/// The first of two sheets is called so where there are five names or six.
pub fn json_of(alloc: Global, outcome: &Outcome, names: &[&[u8]]) -> Result<Vec<u8>, AllocError>
    requires { HasNames outcome.now (length names.now) }
    ensures text { IfOk result (λ text. text.items
        ≡ json_text (outcome_value outcome.now (texts names.now) ∷ [])) }
    ensures read { IfOk result (λ text. ReadsAs text.items (outcome_value outcome.now (texts names.now) ∷ [])) }
{
    let mut text = Vec::new(alloc);
    let mut writer = begin_line(alloc, &mut text);
    write_outcome(alloc, &mut writer, outcome, names)?;
    end_line(&mut text, writer)?;
    Ok(text)
}

/// Writes the value of an outcome.
fn write_outcome(
    alloc: Global,
    writer: &mut Writer,
    outcome: &Outcome,
    names: &[&[u8]],
) -> Result<(), AllocError>
    requires { HasNames outcome.now (length names.now) }
    ensures before { writer.new.before ≡ writer.old.before }
    ensures tokens { OnOk result (writer.new.tokens
        ≡ writer.old.tokens ++ json_tokens (outcome_value outcome.now (texts names.now))) }
{
    match outcome {
        Outcome::Accepted => write_bare(writer, "accepted"),
        Outcome::Same => write_bare(writer, "same"),
        Outcome::Different(line) => write_different(writer, *line),
        Outcome::Pairs => write_bare(writer, "pairs"),
        Outcome::Unpaired(why) => write_unpaired(alloc, writer, names, why),
        Outcome::WrongPairing(line, why) => write_wrong_pairing(alloc, writer, *line, why.words()),
        Outcome::Fault(fault) => write_fault(alloc, writer, fault, names),
    }
}

/// Writes that two sheets differ, and at which line of their canonical files.
fn write_different(writer: &mut Writer, line: u64) -> Result<(), AllocError>
    ensures before { writer.new.before ≡ writer.old.before }
    ensures tokens { OnOk result (writer.new.tokens
        ≡ writer.old.tokens ++ json_tokens (different_value line)) }
{
    begin_answer(writer, "different")?;
    put_number(writer, "line", line)?;
    writer.end_object()
}

/// Writes that a pairing doesn't carry the one sheet onto the other, and why.
fn write_unpaired(
    alloc: Global,
    writer: &mut Writer,
    names: &[&[u8]],
    why: &Unpaired,
) -> Result<(), AllocError>
    requires { 4 < length names.now }
    ensures before { writer.new.before ≡ writer.old.before }
    ensures tokens { OnOk result (writer.new.tokens
        ≡ writer.old.tokens ++ json_tokens (unpaired_value (text_in (texts names.now) 4) why.now)) }
{
    let words = unpaired_words(alloc, names[4], why)?;
    write_reasoned(alloc, writer, "unpaired", &words)
}

/// Why the file of this name doesn't pair.
fn unpaired_words(alloc: Global, file: &[u8], why: &Unpaired) -> Result<Vec<u8>, AllocError>
    ensures { IfOk result (λ words. words.items ≡ unpaired_text file.now why.now) }
{
    let mut words = Vec::new(alloc);
    push_unpaired(&mut words, file, why)?;
    Ok(words)
}

/// Writes why a run has no answer: what is refused, or what has failed.
fn write_fault(
    alloc: Global,
    writer: &mut Writer,
    fault: &RunFault,
    names: &[&[u8]],
) -> Result<(), AllocError>
    requires { FaultHasNames fault.now (length names.now) }
    ensures before { writer.new.before ≡ writer.old.before }
    ensures tokens { OnOk result (writer.new.tokens
        ≡ writer.old.tokens ++ json_tokens (fault_value fault.now (texts names.now))) }
{
    match fault {
        RunFault::Schema(fault) => write_schema(alloc, writer, fault),
        RunFault::First(fault) => write_sheet(alloc, writer, first_word(names.len()), fault),
        RunFault::Second(fault) => write_sheet(alloc, writer, "second", fault),
        RunFault::Memory(_)
        | RunFault::Read { .. }
        | RunFault::TooLong { .. }
        | RunFault::Write(_) => write_failure(alloc, writer, fault, names),
    }
}

/// Writes that a run has failed, with the words of its line.
fn write_failure(
    alloc: Global,
    writer: &mut Writer,
    fault: &RunFault,
    names: &[&[u8]],
) -> Result<(), AllocError>
    requires { FaultHasNames fault.now (length names.now) }
    ensures before { writer.new.before ≡ writer.old.before }
    ensures tokens { OnOk result (writer.new.tokens
        ≡ writer.old.tokens ++ json_tokens (failed_value fault.now (texts names.now))) }
{
    let words = failed_words(alloc, fault, names)?;
    write_reasoned(alloc, writer, "failed", &words)
}

/// The words of a fault's line, which ends behind them.
fn failed_words(alloc: Global, fault: &RunFault, names: &[&[u8]]) -> Result<Vec<u8>, AllocError>
    requires { FaultHasNames fault.now (length names.now) }
    ensures { IfOk result (λ words. words.items ≡ words_of_fault fault.now (texts names.now)) }
{
    let mut words = line_of_run(alloc, fault, names)?;
    let _ = words.pop();
    Ok(words)
}

/// Writes which file of a schema is refused, and where it breaks which rule.
pub(crate) fn write_schema(
    alloc: Global,
    writer: &mut Writer,
    fault: &SchemaFault,
) -> Result<(), AllocError>
    ensures before { writer.new.before ≡ writer.old.before }
    ensures tokens { OnOk result (writer.new.tokens ≡ writer.old.tokens ++ json_tokens (schema_value fault.now)) }
{
    match fault {
        SchemaFault::Memory(_) => write_reasoned(alloc, writer, "failed", b"out of memory"),
        SchemaFault::Line { file, rule, at } => {
            write_broken(writer, source_word(*file), *rule, Some(*at), None)
        }
        SchemaFault::Entry { file, rule, at } => {
            write_broken(writer, source_word(*file), *rule, None, Some(*at))
        }
        SchemaFault::Kinds => write_broken(writer, "kinds", KINDS_RULE, None, None),
    }
}

/// Writes which sheet is refused, and where it breaks which rule.
pub(crate) fn write_sheet(
    alloc: Global,
    writer: &mut Writer,
    which: &str,
    fault: &Fault,
) -> Result<(), AllocError>
    ensures before { writer.new.before ≡ writer.old.before }
    ensures tokens { OnOk result (writer.new.tokens
        ≡ writer.old.tokens ++ json_tokens (sheet_value which.now fault.now)) }
{
    match fault {
        Fault::Memory(_) => write_reasoned(alloc, writer, "failed", b"out of memory"),
        Fault::Line { rule, at } => write_broken(writer, which, *rule, Some(*at), None),
        Fault::Entry { rule, at } => write_broken(writer, which, *rule, None, Some(*at)),
    }
}

/// The word for one of a schema's files.
fn source_word(file: Source) -> &'static str
    ensures { result.now ≡ source_word file }
{
    match file {
        Source::Scd => "scd",
        Source::Dic => "dic",
    }
}

/// The word for the first sheet, where there are so many names.
fn first_word(count: usize) -> &'static str
    ensures { result.now ≡ first_word count }
{
    if count == 5 || count == 6 {
        "first"
    } else {
        "sheet"
    }
}
