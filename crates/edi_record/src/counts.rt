//! Counts of zones.

ghost use Rattle.std.specs.Prelude.{◌≡◌, ◌↔◌, ℕ, ◌+◌, ◌*◌, ◌^◌, ◌<◌, List, [], ◌∷◌, not, true, IsTrue};
ghost use Rattle.std.specs.Char.{is_ascii_digit, digit_value};
ghost use Rattle.std.specs.Option.{SomeIff};
ghost use Rattle.edi_record.specs.inner.RecordRules.{counts_right};
ghost use Rattle.edi_record.specs.inner.Stored.{AreCounts, is_number};
ghost use Rattle.edi_record.specs.Texts.{IsCount};

use crate::only::Only;

/// A number with one more digit, or none where the byte is no digit or the number is too large.
fn with_digit(number: usize, byte: u8) -> Option<usize>
    ensures { SomeIff result ((is_ascii_digit byte ≡ true) × (number * 10 + digit_value byte < 2 ^ 64))
        (number * 10 + digit_value byte) }
{
    if !byte.is_ascii_digit() {
        return None;
    }
    number
        .checked_mul(10)?
        .checked_add(usize::from(byte - b'0'))
}

/// The number that a text of digits counts, one at least; or none where it isn't digits, or is worth more than there
/// can be zones.
pub(crate) fn read_count(text: &[u8]) -> Option<usize>
    ensures { (number : ℕ) → number < 2 ^ 64 → is_number result number ≡ counts_right (text.now ∷ []) number }
{
    if text.is_empty() {
        return None;
    }
    let mut number = 0;
    let mut rest = text;
    while let [byte, behind @ ..] = rest {
        number = with_digit(number, *byte)?;
        rest = behind;
    }
    Some(number)
}

/// Whether a number was read, and is this one.
fn is_read(read: Option<usize>, number: usize) -> bool
    ensures { result ≡ is_number read number }
{
    match read {
        Some(said) => said == number,
        None => false,
    }
}

/// Whether a text is digits, one at least, that are worth the number.
pub(crate) fn says(text: &[u8], number: usize) -> bool
    ensures { result ≡ counts_right (text.now ∷ []) number }
{
    is_read(read_count(text), number)
}

/// Whether a text is a count of so many: digits, one at least, that are worth the number.
pub fn is_count(text: &[u8], number: usize) -> bool
    ensures { IsTrue result ↔ IsCount text.now number }
{
    says(text, number)
}

/// Whether a count is repeated, isn't digits, or isn't this number. It may be absent.
pub(crate) fn is_wrong(count: &Only<Option<usize>>, number: usize) -> bool
    ensures { (all : List (List ℕ)) → AreCounts count.now [] all → result ≡ not (counts_right all number) }
{
    match count {
        Only::Absent => false,
        Only::One(read) => !is_read(*read, number),
        Only::Repeated => true,
    }
}
