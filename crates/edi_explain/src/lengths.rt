//! Lengths that count characters.

ghost use Rattle.std.specs.Prelude.{◌≡◌, ◌↔◌, ◌++◌, ◌==◌, IsTrue, OnOk};
ghost use Rattle.std.specs.List.{list_all};
ghost use Rattle.edi_line.specs.Bytes.{space};
ghost use Rattle.edi_line.specs.LineRules.{BreaksLineRule};
ghost use Rattle.edi_line.specs.Refusal.{IsLeastBroken};
ghost use Rattle.edi_line.specs.Spelling.{HasMore};
ghost use Rattle.edi_explain.specs.Lengths.{CountsCharacters, IsMiscounted, character_count, is_continuation, length_hint};
ghost use Rattle.edi_explain.specs.inner.Lengths.{HasCharacters};

use crate::contents::content_numbered;
use crate::hints::push_hint;
use std::alloc::AllocError;

/// Whether no character of UTF-8 begins in a byte.
fn continues(byte: u8) -> bool
    ensures { result ≡ is_continuation byte }
{
    (0x80..=0xBF).contains(&byte)
}

/// How many characters bytes are as UTF-8.
fn characters(bytes: &[u8]) -> usize
    ensures { result ≡ character_count bytes.now }
{
    bytes.iter().filter(|byte| !continues(**byte)).count()
}

/// Whether bytes are spaces alone.
fn are_spaces(bytes: &[u8]) -> bool
    ensures { result ≡ list_all (λ c. c == space) bytes.now }
{
    bytes.iter().all(|byte| *byte == b' ')
}

/// Whether bytes are a value of so many characters, and more bytes, and spaces.
fn has_characters(bytes: &[u8], stated: usize) -> bool
    ensures { IsTrue result ↔ HasCharacters bytes.now stated }
{
    let count = characters(bytes);
    if count < stated || count >= bytes.len() {
        return false;
    }
    let (_, behind) = bytes.split_at(bytes.len() - (count - stated));
    are_spaces(behind)
}

/// Whether the length that a content states counts the characters of its value, and not the bytes.
fn is_miscounted(content: &[u8]) -> bool
    requires { HasMore content.now }
    ensures { IsTrue result ↔ IsMiscounted content.now }
{
    let [_, _, _, _, _, tens, ones, _, behind @ ..] = content else {
        return false;
    };
    let stated = usize::from(*tens - b'0') * 10 + usize::from(*ones - b'0');
    has_characters(behind, stated)
}

/// Whether the line of a refusal by rule 103 states a length that counts the characters of its value, and not the
/// bytes.
pub(crate) fn counts_characters(bytes: &[u8], rule: u16, at: u64) -> bool
    requires { IsLeastBroken (BreaksLineRule bytes.now) rule at }
    ensures { IsTrue result ↔ ((rule ≡ 103) × CountsCharacters bytes.now at) }
{
    if rule != 103 {
        return false;
    }
    match content_numbered(bytes, at) {
        Some(content) => is_miscounted(content),
        None => false,
    }
}

/// Appends that the lengths of a file seem to count characters, if one of them does.
pub(crate) fn push_length_hint(
    text: &mut Vec<u8>,
    name: &[u8],
    counts: bool,
) -> Result<(), AllocError>
    ensures { OnOk result (text.new.items ≡ text.old.items ++ length_hint name.now counts) }
{
    if counts {
        push_hint(
            text,
            name,
            " seems to have been turned into UTF-8: its lengths count characters, so take the file as it was delivered",
        )
    } else {
        Ok(())
    }
}
