//! Texts that are what their zones have to be.

ghost use Rattle.std.specs.Prelude.{◌≡◌, ◌↔◌, ℕ, IsTrue, Some};
ghost use Rattle.edi_record.specs.Texts.{IsCount, IsPointer, IsPosition, PointerText};
ghost use Rattle.edi_record.specs.declared.record.Point.{Point as Points};
ghost use Rattle.edi_explain.specs.ZoneLines.{IsRightText};

use crate::breaking::is_identifier;
use edi_record::{Pointer, is_count, is_position};

/// Whether a text is a pointer.
fn is_pointer(text: &[u8]) -> bool
    ensures { IsTrue result ↔ ((p : PointerText) × IsPointer text.now p) }
{
    Pointer::read(text).is_some()
}

/// Whether a text is the count that it should be, if it should be one.
fn is_the_count(text: &[u8], count: Option<usize>) -> bool
    ensures { IsTrue result ↔ ((n : ℕ) × (count ≡ Some n) × IsCount text.now n) }
{
    match count {
        Some(count) => is_count(text, count),
        None => false,
    }
}

/// Whether a text is a position.
fn is_a_position(text: &[u8]) -> bool
    ensures { IsTrue result ↔ ((p : Points) × IsPosition text.now p) }
{
    is_position(text)
}

/// Whether the text of a zone, which should count so many, is what its rule wants, where the rule is also of second
/// zones.
pub(crate) fn is_right_text(rule: u16, count: Option<usize>, text: &[u8]) -> bool
    ensures { IsTrue result ↔ IsRightText rule count text.now }
{
    match rule {
        202 | 601 => is_identifier(text),
        203 => is_pointer(text),
        205 => is_the_count(text, count),
        206 => is_a_position(text),
        _ => false,
    }
}
