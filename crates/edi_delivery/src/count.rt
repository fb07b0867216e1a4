//! Counts of files.

ghost use Rattle.std.specs.Prelude.{◌≡◌, ◌∷◌, [], map};
ghost use Rattle.edi_record.specs.inner.RecordRules.{counts_right};

use edi_record::is_count;

/// Whether a text is digits, one at least, that are worth the number.
fn says(text: &[u8], number: usize) -> bool
    ensures { result ≡ counts_right (text.now ∷ []) number }
{
    is_count(text, number)
}

/// Whether there is no count, or just one, of this number.
pub(crate) fn count_right(counts: &[&[u8]], number: usize) -> bool
    ensures { result ≡ counts_right (map (λ t. t.now) counts.now) number }
{
    match counts {
        [] => true,
        [text] => says(*text, number),
        _ => false,
    }
}
