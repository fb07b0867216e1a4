//! The lines of a text of differences.

ghost use Rattle.std.specs.Prelude.{◌≡◌, ◌++◌, ◌<◌, OnOk, codes, length, option_copied};
ghost use Rattle.edi_plan.specs.Plans.{IsPlace};
ghost use Rattle.edi_report.specs.Lines.{both_lines, charset_change, charset_change_line, counted, lone_line, parts_text, record_name_text, word_if, words_text};
ghost use Rattle.edi_report.specs.Reports.{HasSites};
ghost use Rattle.edi_shown.specs.Shown.{shown_bytes};

use crate::parts::DifferingParts;
use crate::sheet::LocatedSheet;
use edi_line::push_number;
use edi_shown::push_shown;
use std::alloc::AllocError;

/// Appends the type and the identifier of a record.
pub(crate) fn push_name(
    text: &mut Vec<u8>,
    sheet: &LocatedSheet,
    place: u32,
) -> Result<(), AllocError>
    requires all { HasSites sheet.now }
    requires place { IsPlace sheet.now.accepted place }
    ensures { OnOk result (text.new.items ≡ text.old.items ++ record_name_text sheet.now place) }
{
    text.extend_from_slice(sheet.plan().kind(place).code())?;
    text.push(b' ')?;
    push_shown(text, sheet.site(place).rid.as_slice())
}

/// Appends the line of a record that stands in this sheet alone.
pub(crate) fn push_lone(
    text: &mut Vec<u8>,
    sign: &[u8],
    sheet: &LocatedSheet,
    place: u32,
) -> Result<(), AllocError>
    requires all { HasSites sheet.now }
    requires place { IsPlace sheet.now.accepted place }
    ensures { OnOk result (text.new.items ≡ text.old.items ++ lone_line sign.now sheet.now place) }
{
    text.extend_from_slice(sign)?;
    push_name(text, sheet, place)?;
    text.extend_from_slice(b" (line ")?;
    push_number(text, sheet.site(place).line)?;
    text.extend_from_slice(b")\n")
}

/// Appends a word, if there is one.
fn push_word(text: &mut Vec<u8>, said: bool, word: &[u8]) -> Result<(), AllocError>
    ensures { OnOk result (text.new.items ≡ text.old.items ++ word_if said word.now) }
{
    if said {
        text.extend_from_slice(word)
    } else {
        Ok(())
    }
}

/// Appends the words for the parts that differ.
pub fn push_words(text: &mut Vec<u8>, parts: &DifferingParts) -> Result<(), AllocError>
    ensures { OnOk result (text.new.items ≡ text.old.items ++ words_text parts.now) }
{
    push_word(text, parts.class, b" class")?;
    push_word(text, parts.attributes, b" attributes")?;
    push_word(text, parts.extras, b" extras")?;
    push_word(text, parts.points, b" points")?;
    push_word(text, parts.ends, b" ends")
}

/// Appends the parts that differ, or that none does.
pub(crate) fn push_parts(text: &mut Vec<u8>, parts: &DifferingParts) -> Result<(), AllocError>
    ensures { OnOk result (text.new.items ≡ text.old.items ++ parts_text parts.now) }
{
    if parts.some_differ() {
        push_words(text, parts)
    } else {
        text.extend_from_slice(b" linked records")
    }
}

/// Appends the lines of two records.
pub fn push_both_lines(text: &mut Vec<u8>, line: u64, other: u64) -> Result<(), AllocError>
    ensures { OnOk result (text.new.items ≡ text.old.items ++ both_lines line other) }
{
    text.extend_from_slice(b" (lines ")?;
    push_number(text, line)?;
    text.extend_from_slice(b" and ")?;
    push_number(text, other)?;
    text.extend_from_slice(b"):")
}

/// Appends a count and what it counts.
pub(crate) fn push_counted(text: &mut Vec<u8>, count: usize, words: &[u8]) -> Result<(), AllocError>
    ensures { OnOk result (text.new.items ≡ text.old.items ++ counted count words.now) }
{
    push_number(text, count as u64)?;
    text.extend_from_slice(words)
}

/// Appends an identifier behind a space.
pub(crate) fn push_other(text: &mut Vec<u8>, rid: &[u8]) -> Result<(), AllocError>
    ensures { OnOk result (text.new.items ≡ text.old.items ++ (codes " " ++ shown_bytes rid.now)) }
{
    text.push(b' ')?;
    push_shown(text, rid)
}

/// Appends the line of two character sets.
fn push_charsets(text: &mut Vec<u8>, one: &[u8], other: &[u8]) -> Result<(), AllocError>
    ensures { OnOk result (text.new.items ≡ text.old.items ++ charset_change one.now other.now) }
{
    text.extend_from_slice(b"~ CSE ")?;
    push_shown(text, one)?;
    text.push(b' ')?;
    push_shown(text, other)?;
    text.extend_from_slice(b"\n")
}

/// Appends the line of the character sets, if they differ.
pub(crate) fn push_charset(
    text: &mut Vec<u8>,
    first: Option<&[u8]>,
    second: Option<&[u8]>,
) -> Result<(), AllocError>
    ensures { OnOk result (text.new.items ≡ text.old.items
        ++ charset_change_line (option_copied first.entry) (option_copied second.entry)) }
{
    match (first, second) {
        (None, None) => Ok(()),
        (Some(one), None) => push_charsets(text, one, b"none"),
        (None, Some(other)) => push_charsets(text, b"none", other),
        (Some(one), Some(other)) => {
            if one == other {
                Ok(())
            } else {
                push_charsets(text, one, other)
            }
        }
    }
}
