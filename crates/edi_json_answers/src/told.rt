//! Words, as lines of JSON (docs/JSON.md, "Explanations").

ghost use Rattle.std.specs.Prelude.{◌≡◌, ◌++◌, ◌∷◌, ◌==◌, [], IfOk, OnOk, map};
ghost use Rattle.std.specs.List.{slice_split};
ghost use Rattle.json.specs.Tree.{json_tokens};
ghost use Rattle.edi_line.specs.Bytes.{line_feed};
ghost use Rattle.edi_outcome.specs.Words.{texts};
ghost use Rattle.edi_json.specs.Texts.{ReadsAs, json_text};
ghost use Rattle.edi_json.specs.inner.Lines.{HasLines};
ghost use Rattle.edi_json_answers.specs.Told.{text_lines, told_values, without_empty_end, words_value};
ghost use Rattle.edi_json_answers.specs.inner.Told.{ends_empty};

use edi_json::lines::{begin_line, end_line};
use edi_json::members::{begin, put_bytes};
use json::Writer;
use std::alloc::{AllocError, Global};

/// A line of JSON for each line of a text. It fails only if memory runs out.
pub fn told_lines(alloc: Global, text: &[u8]) -> Result<Vec<u8>, AllocError>
    ensures text { IfOk result (λ told. told.items ≡ json_text (told_values text.now)) }
    ensures read { IfOk result (λ told. ReadsAs told.items (told_values text.now)) }
{
    let lines = text_lines(alloc, text)?;
    let mut told = Vec::new(alloc);
    push_lines(alloc, &mut told, &lines)?;
    Ok(told)
}

/// The lines of a text, without their line feeds.
fn text_lines(alloc: Global, text: &[u8]) -> Result<Vec<&[u8]>, AllocError>
    ensures { IfOk result (λ lines. texts lines.items ≡ text_lines text.now) }
{
    let mut lines = pieces_of(alloc, text)?;
    drop_empty_end(&mut lines);
    Ok(lines)
}

/// What stands before, between and behind the line feeds of a text.
fn pieces_of(alloc: Global, text: &[u8]) -> Result<Vec<&[u8]>, AllocError>
    ensures { IfOk result (λ pieces. texts pieces.items ≡ slice_split (λ byte. byte == line_feed) text.now) }
{
    text.split(|byte| *byte == b'\n').collect(alloc)
}

/// Drops the last piece, if it is empty.
fn drop_empty_end(pieces: &mut Vec<&[u8]>)
    ensures { texts pieces.new.items ≡ without_empty_end (texts pieces.old.items) }
{
    if ends_empty(pieces) {
        let _ = pieces.pop();
    }
}

/// Whether there is a last piece, and it is empty.
fn ends_empty(pieces: &[&[u8]]) -> bool
    ensures { result ≡ ends_empty (texts pieces.now) }
{
    match pieces.last() {
        Some(piece) => piece.is_empty(),
        None => false,
    }
}

/// Appends a line of JSON for each of these lines.
fn push_lines(alloc: Global, told: &mut Vec<u8>, lines: &[&[u8]]) -> Result<(), AllocError>
    ensures { OnOk result (HasLines told.old.items told.new.items (map words_value (texts lines.now))) }
{
    for line in lines {
        push_line(alloc, told, line)?;
    }
    Ok(())
}

/// Appends the line of JSON of a line of words.
fn push_line(alloc: Global, told: &mut Vec<u8>, words: &[u8]) -> Result<(), AllocError>
    ensures { OnOk result (HasLines told.old.items told.new.items (words_value words.now ∷ [])) }
{
    let mut writer = begin_line(alloc, told);
    write_words(alloc, &mut writer, words)?;
    end_line(told, writer)
}

/// Writes the value of a line of words.
fn write_words(alloc: Global, writer: &mut Writer, words: &[u8]) -> Result<(), AllocError>
    ensures before { writer.new.before ≡ writer.old.before }
    ensures tokens { OnOk result (writer.new.tokens ≡ writer.old.tokens ++ json_tokens (words_value words.now)) }
{
    begin(writer, "words")?;
    put_bytes(alloc, writer, "words", words)?;
    writer.end_object()
}
