//! The first and the last bytes of a text, as numbers by which slots are chosen.

ghost use Rattle.std.specs.Prelude.{◌≤◌, length};

// How many bytes a word has.
pub(crate) const LAST: usize = 8;

// An odd number of 64 bits, by which the bytes that choose a slot are spread.
pub(crate) const SPREAD: u64 = 0x9E37_79B9_7F4A_7C15;

/// Eight bytes as a number, and of other lists none.
fn word(bytes: &[u8]) -> u64 {
    let [a, b, c, d, e, f, g, h] = bytes else {
        return 0;
    };
    u64::from_le_bytes([*a, *b, *c, *d, *e, *f, *g, *h])
}

/// The first eight bytes of a text.
pub(crate) fn first_word(text: &[u8]) -> u64
    requires { 8 ≤ length text.now }
{
    let (first, _) = text.split_at(LAST);
    word(first)
}

/// The last eight bytes of a text.
pub(crate) fn last_word(text: &[u8]) -> u64
    requires { 8 ≤ length text.now }
{
    let (_, last) = text.split_at(text.len() - LAST);
    word(last)
}
