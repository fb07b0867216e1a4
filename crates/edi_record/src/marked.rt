//! Texts that are cut at their semicolons.

ghost use Rattle.std.specs.Prelude.{◌≡◌, ◌+◌, ◌<◌, ◌≤◌, ◌==◌, length, drop, map, position, option_map};
ghost use Rattle.std.specs.Option.{ForSome};
ghost use Rattle.std.specs.Simd.Lanes.{mask_l};
ghost use Rattle.edi_record.specs.inner.Texts.{AreCut, AreSemicolons, semicolon_marks};

use std::simd::prelude::*;

// How many bytes are looked at at once.
const LANES: usize = 16;

/// A text, and its semicolons, a bit each, if it has 16 to 63 bytes, as nearly each text of a pointer or a position
/// has. Two vectors cover 32, and four as many as there are bits; then a cut takes some instructions where a search takes
/// some for each byte.
#[derive(Clone, Copy)]
pub(crate) struct Marked<'a> {
    pub(crate) text: &'a [u8],
    marks: Option<u64>,
    pub ghost right: { ForSome marks (AreSemicolons text.now) },
}

/// The lanes that are semicolons, a bit each.
fn semicolons_among(lanes: u8x16) -> u64
    ensures { result ≡ mask_l (map (λ c. c == 59) lanes) }
{
    lanes.simd_eq(u8x16::splat(b';')).to_bitmask()
}

/// The semicolons of a text that two vectors cover: one has its first bytes, and one its last.
fn marks_of(text: &[u8]) -> u64
    requires long { 16 ≤ length text.now }
    requires short { length text.now ≤ 32 }
    ensures { result ≡ semicolon_marks text.now }
{
    let first = semicolons_among(u8x16::from_slice(text));
    let last = semicolons_among(u8x16::from_slice(&text[text.len() - LANES..]));
    let others = last >> (2 * LANES - text.len());
    first + (others << LANES)
}

/// The semicolons of a text that four vectors cover: two have its first bytes, and two its last.
fn marks_of_long(text: &[u8]) -> u64
    requires long { 32 ≤ length text.now }
    requires short { length text.now < 64 }
    ensures { result ≡ semicolon_marks text.now }
{
    let (first, _) = text.split_at(2 * LANES);
    let (_, last) = text.split_at(text.len() - 2 * LANES);
    let others = marks_of(last) >> (4 * LANES - text.len());
    marks_of(first) + (others << (2 * LANES))
}

/// The bytes before the first semicolon of a text, and those after it.
pub(crate) fn split_at_semicolon(text: &[u8]) -> Option<(&[u8], Marked<'_>)>
    ensures { AreCut text.now (option_map (λ p. (p.0.now, p.1.text.now)) result) }
{
    Marked::of(text).split_at_semicolon()
}

/// The semicolons of a text, if vectors cover it.
fn marks_if_covered(text: &[u8]) -> Option<u64>
    ensures { ForSome result (AreSemicolons text.now) }
{
    if text.len() < LANES || text.len() >= 4 * LANES {
        return None;
    }
    if text.len() <= 2 * LANES {
        return Some(marks_of(text));
    }
    Some(marks_of_long(text))
}

impl<'a> Marked<'a> {
    /// A text, of which nothing has been cut yet.
    fn of(text: &'a [u8]) -> Marked<'a>
        ensures { result.text.now ≡ text.entry.now }
    {
        Marked {
            text,
            marks: marks_if_covered(text),
        }
    }

    /// The bytes before the first semicolon, and those after it.
    pub(crate) fn split_at_semicolon(self) -> Option<(&'a [u8], Marked<'a>)>
        ensures { AreCut self.entry.text.now (option_map (λ p. (p.0.now, p.1.text.now)) result) }
    {
        let at = self.semicolon()?;
        let rest = Marked {
            text: &self.text[at + 1..],
            marks: self.marks_behind(at),
        };
        Some((&self.text[..at], rest))
    }

    fn semicolon(&self) -> Option<usize>
        ensures { result ≡ position (λ c. c == 59) self.now.text.now }
    {
        let Some(marks) = self.marks else {
            return self.text.iter().position(|c| *c == b';');
        };
        if marks == 0 {
            return None;
        }
        Some(marks.trailing_zeros() as usize)
    }

    /// The semicolons of what follows a place.
    fn marks_behind(&self, at: usize) -> Option<u64>
        requires { at < length self.now.text.now }
        ensures { ForSome result (AreSemicolons (drop (at + 1) self.now.text.now)) }
    {
        match self.marks {
            Some(marks) => Some(marks >> (at + 1)),
            None => None,
        }
    }
}
