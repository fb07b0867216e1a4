//! Reading a list of digests.

ghost use Rattle.std.specs.Prelude.{◌≡◌, ◌≢◌, ◌++◌, ◌<◌, ℕ, Bool, List, [], ◌∷◌, codes, length, map, option_map, slice_index, IfOk, IfSome, MatchOption};
ghost use Rattle.std.specs.List.{AllByRecursion};
ghost use Rattle.edi_shown.specs.Shown.{backslash};
ghost use Rattle.edi_answers.specs.Hashes.{escaped_byte, escaped_name};
ghost use Rattle.edi_changes.specs.ListText.{IsListLine, IsNoList, list_text, schema_word};
ghost use Rattle.edi_changes.specs.inner.Reading.{FindsDigits, FindsShown, FindsListLine, FindsListLines, FindsSchemaWord, mark};

use crate::list::{ListLine, list};
use edi_line::Text;
use edi_manifest::reading::{digest_in, read_lines};
use std::alloc::{AllocError, Global};

/// How many bytes the digits of a digest have.
const DIGITS: usize = 64;

/// The lines of a list, or none where the text is that of no list.
pub fn read_list(alloc: Global, text: &[u8]) -> Result<Option<Vec<ListLine>>, AllocError>
    ensures reads { IfOk result (λ found.
        MatchOption found (IsNoList text.now) (λ lines. list_text lines.items ≡ text.now)) }
    ensures are { IfOk result (λ found. IfSome found (λ lines. AllByRecursion IsListLine lines.items)) }
{
    let Some(lines) = lines_in(alloc, text)? else {
        return Ok(None);
    };
    if list(alloc, &lines)?.as_slice() == text {
        Ok(Some(lines))
    } else {
        Ok(None)
    }
}

// The lines of these bytes, or none where one of them isn't in form.
fn lines_in(alloc: Global, text: &[u8]) -> Result<Option<Vec<ListLine>>, AllocError>
    ensures finds { IfOk result (λ found. FindsListLines text.now (option_map (λ lines. lines.items) found)) }
    ensures are { IfOk result (λ found. IfSome found (λ lines. AllByRecursion IsListLine lines.items)) }
{
    read_lines(alloc, text, |content| line_in(alloc, content))
}

// The line with this content, which has no line feed.
fn line_in(alloc: Global, content: &[u8]) -> Result<Option<ListLine>, AllocError>
    ensures finds { IfOk result (FindsListLine content.now) }
    ensures is { IfOk result (λ found. IfSome found IsListLine) }
{
    let (is_schema, marked) = word_in(content);
    let Some((digits, name)) = digits_in(without_mark(marked)) else {
        return Ok(None);
    };
    let Some(digest) = digest_in(digits) else {
        return Ok(None);
    };
    let name = unescape(alloc, name)?;
    Ok(Some(ListLine {
        is_schema,
        name,
        digest,
    }))
}

// Whether the word of a schema is in front, and what stands behind it.
fn word_in(text: &[u8]) -> (bool, &[u8])
    ensures { FindsSchemaWord text.now result }
{
    match text.strip_prefix(b"schema ") {
        Some(behind) => (true, behind),
        None => (false, text),
    }
}

// What stands behind the mark of an escape, if it is in front.
fn without_mark(text: &[u8]) -> &[u8]
    ensures { (marked : Bool) (rest : List ℕ) → slice_index rest 0 ≢ backslash → text.now ≡ mark marked ++ rest
        → result.now ≡ rest }
{
    match text.strip_prefix(b"\\") {
        Some(behind) => behind,
        None => text,
    }
}

// The digits in front, and what stands behind them and two more bytes.
fn digits_in(text: &[u8]) -> Option<(&[u8], &[u8])>
    ensures { FindsDigits text.now result }
{
    if text.len() < DIGITS + 2 {
        return None;
    }
    let (digits, behind) = text.split_at(DIGITS);
    let (_, name) = behind.split_at(2);
    Some((digits, name))
}

// The byte that is in front, perhaps by an escape, and what stands behind it.
fn first_in(text: &[u8]) -> Option<(u8, &[u8])>
    ensures finds { FindsShown text.now result }
    ensures shorter { IfSome result (λ p. length p.1.now < length text.now) }
{
    if let Some(behind) = text.strip_prefix(b"\\n") {
        return Some((b'\n', behind));
    }
    if let Some(behind) = text.strip_prefix(b"\\r") {
        return Some((b'\r', behind));
    }
    if let Some(behind) = text.strip_prefix(b"\\\\") {
        return Some((b'\\', behind));
    }
    match text {
        [first, behind @ ..] => Some((*first, behind)),
        [] => None,
    }
}

// The name that a text shows with escapes.
fn unescape(alloc: Global, text: &[u8]) -> Result<Text, AllocError>
    ensures { IfOk result (λ found. (name : List ℕ) → text.now ≡ escaped_name name → found ≡ name) }
{
    let mut name = Vec::with_capacity(alloc, text.len())?;
    let mut rest = text;
    while let Some((byte, behind)) = first_in(rest) {
        name.push(byte)?;
        rest = behind;
    }
    Text::from_slice(alloc, &name)
}
