//! Parts of the line of an answer, written token by token. Each error means that memory ran out.

ghost use Rattle.std.specs.Prelude.{◌≡◌, ◌++◌, OnOk, codes};
ghost use Rattle.json.specs.Json.{no_members};
ghost use Rattle.json.specs.Tree.{json_tokens};
ghost use Rattle.edi_json.specs.Members.{member_tokens};
ghost use Rattle.edi_json_answers.specs.Answers.{answer_value, broken_at_value, broken_value, number_or_null, reasoned_value, wrong_pairing_value};
ghost use Rattle.edi_json_answers.specs.inner.Tokens.{answer_tokens, refused_tokens};

use edi_json::members::{begin, put_bytes, put_null, put_number, put_text};
use json::Writer;
use std::alloc::{AllocError, Global};

/// Begins the line of an answer.
pub(crate) fn begin_answer(writer: &mut Writer, answer: &str) -> Result<(), AllocError>
    ensures before { writer.new.before ≡ writer.old.before }
    ensures tokens { OnOk result (writer.new.tokens ≡ writer.old.tokens ++ answer_tokens answer.now) }
{
    begin(writer, "answer")?;
    put_text(writer, "answer", answer)
}

/// Writes an answer of which nothing more is told.
pub(crate) fn write_bare(writer: &mut Writer, answer: &str) -> Result<(), AllocError>
    ensures before { writer.new.before ≡ writer.old.before }
    ensures tokens { OnOk result (writer.new.tokens
        ≡ writer.old.tokens ++ json_tokens (answer_value answer.now no_members)) }
{
    begin_answer(writer, answer)?;
    writer.end_object()
}

/// Writes an answer with its reason in words.
pub(crate) fn write_reasoned(
    alloc: Global,
    writer: &mut Writer,
    answer: &str,
    why: &[u8],
) -> Result<(), AllocError>
    ensures before { writer.new.before ≡ writer.old.before }
    ensures tokens { OnOk result (writer.new.tokens
        ≡ writer.old.tokens ++ json_tokens (reasoned_value answer.now why.now)) }
{
    begin_answer(writer, answer)?;
    put_bytes(alloc, writer, "why", why)?;
    writer.end_object()
}

/// Begins the line of a refusal.
fn begin_refused(writer: &mut Writer, file: &str) -> Result<(), AllocError>
    ensures before { writer.new.before ≡ writer.old.before }
    ensures tokens { OnOk result (writer.new.tokens ≡ writer.old.tokens ++ refused_tokens file.now) }
{
    begin_answer(writer, "refused")?;
    put_text(writer, "file", file)
}

/// Writes that a file breaks a rule, and the line or the record where it does.
pub(crate) fn write_broken(
    writer: &mut Writer,
    file: &str,
    rule: u16,
    line: Option<u64>,
    place: Option<u64>,
) -> Result<(), AllocError>
    ensures before { writer.new.before ≡ writer.old.before }
    ensures tokens { OnOk result (writer.new.tokens
        ≡ writer.old.tokens ++ json_tokens (broken_value file.now rule line place)) }
{
    begin_refused(writer, file)?;
    put_number(writer, "rule", rule as u64)?;
    put_number_or_null(writer, "line", line)?;
    put_number_or_null(writer, "record", place)?;
    put_null(writer, "why")?;
    writer.end_object()
}

/// Writes what a line says of the sheet of a name: a rule that it breaks, and the line or the record where it does.
pub(crate) fn write_broken_at(
    alloc: Global,
    writer: &mut Writer,
    what: &str,
    name: &[u8],
    rule: u16,
    line: Option<u64>,
    place: Option<u64>,
) -> Result<(), AllocError>
    ensures before { writer.new.before ≡ writer.old.before }
    ensures tokens { OnOk result (writer.new.tokens
        ≡ writer.old.tokens ++ json_tokens (broken_at_value what.now name.now rule line place)) }
{
    begin(writer, what)?;
    put_bytes(alloc, writer, "name", name)?;
    put_number(writer, "rule", rule as u64)?;
    put_number_or_null(writer, "line", line)?;
    put_number_or_null(writer, "record", place)?;
    writer.end_object()
}

/// Writes that the file of a pairing states none, its first wrong line, and why it is wrong.
pub(crate) fn write_wrong_pairing(
    alloc: Global,
    writer: &mut Writer,
    line: u64,
    why: &[u8],
) -> Result<(), AllocError>
    ensures before { writer.new.before ≡ writer.old.before }
    ensures tokens { OnOk result (writer.new.tokens
        ≡ writer.old.tokens ++ json_tokens (wrong_pairing_value line why.now)) }
{
    begin_refused(writer, "pairing")?;
    put_null(writer, "rule")?;
    put_number(writer, "line", line)?;
    put_null(writer, "record")?;
    put_bytes(alloc, writer, "why", why)?;
    writer.end_object()
}

/// Appends a name and its value, a number where there is one.
pub(crate) fn put_number_or_null(
    writer: &mut Writer,
    name: &str,
    value: Option<u64>,
) -> Result<(), AllocError>
    ensures before { writer.new.before ≡ writer.old.before }
    ensures tokens { OnOk result (writer.new.tokens
        ≡ writer.old.tokens ++ member_tokens name.now (number_or_null value)) }
{
    match value {
        Some(number) => put_number(writer, name, number),
        None => put_null(writer, name),
    }
}
