//! Texts that aren't what their zones have to be.

ghost use Rattle.std.specs.Prelude.{◌↔◌, IsTrue};
ghost use Rattle.edi_record.specs.Texts.{IsCount, IsPosition};
ghost use Rattle.edi_record.specs.declared.record.Point.{Point as Points};

use edi_record::{is_count, is_position};

/// Whether a text is no count of so many.
pub(crate) fn is_other_count(text: &[u8], number: usize) -> bool
    ensures { IsTrue result ↔ ¬ (IsCount text.now number) }
{
    !is_count(text, number)
}

/// Whether a text is no position.
pub(crate) fn is_no_position(text: &[u8]) -> bool
    ensures { IsTrue result ↔ ((p : Points) → ¬ (IsPosition text.now p)) }
{
    !is_position(text)
}
