//! The lines of a file.

ghost use Rattle.std.specs.Prelude.{◌≡◌, ℕ, List, ◌+◌, ◌<◌, ◌≤◌, [], ◌∷◌, ◌++◌, length, ◌==◌, take, drop, map, position, IfSome, IsNone};
ghost use Rattle.std.specs.Simd.Lanes.{mask_l};
ghost use Rattle.edi_line.specs.Lines.{HasNoFeed, IsEnded, IsLinesOf, without_last, content_of};
ghost use Rattle.edi_line.specs.inner.Lines.{lines_in};

use memchr::memchr;
use std::simd::prelude::*;

// How many bytes are looked at at once. Most lines end among so many.
const LANES: usize = 32;

/// The first line, with its line feed if it has one, and the bytes behind it.
pub fn first_line(bytes: &[u8]) -> (&[u8], &[u8])
    requires { 0 < length bytes.now }
    ensures lines { lines_in bytes.now ≡ result.0.now ∷ lines_in result.1.now }
    ensures shorter { length result.1.now < length bytes.now }
{
    bytes.split_at(first_end(bytes))
}

/// The first line that has ended, with its line feed, and the bytes behind it, if a line has.
pub(crate) fn first_ended_line(bytes: &[u8]) -> Option<(&[u8], &[u8])>
    ensures none { IsNone result → HasNoFeed bytes.now }
    ensures joined { IfSome result (λ cut. bytes.now ≡ cut.0.now ++ cut.1.now) }
    ensures ended { IfSome result (λ cut. IsEnded cut.0.now) }
{
    let feed = feed_in(bytes)?;
    Some(bytes.split_at(feed + 1))
}

/// Where the first line ends.
fn first_end(bytes: &[u8]) -> usize
    requires { 0 < length bytes.now }
    ensures some { 0 < result }
    ensures within { result ≤ length bytes.now }
    ensures lines { lines_in bytes.now ≡ take result bytes.now ∷ lines_in (drop result bytes.now) }
{
    match feed_in(bytes) {
        Some(feed) => feed + 1,
        None => bytes.len(),
    }
}

/// The lanes that are line feeds, a bit each.
fn feeds_among(lanes: u8x32) -> u64
    ensures { result ≡ mask_l (map (λ c. c == 10) lanes) }
{
    lanes.simd_eq(u8x32::splat(b'\n')).to_bitmask()
}

/// Where the first line feed stands. It mostly stands near, and `memchr` has more to do before it looks there.
fn feed_in(bytes: &[u8]) -> Option<usize>
    ensures { result ≡ position (λ c. c == 10) bytes.now }
{
    let mut seen = 0;
    while bytes.len() - seen >= LANES {
        let feeds = feeds_among(u8x32::from_slice(&bytes[seen..]));
        if feeds != 0 {
            return Some(seen + feeds.trailing_zeros() as usize);
        }
        seen += LANES;
    }
    let left = memchr(b'\n', &bytes[seen..])?;
    Some(seen + left)
}

/// A line without its line feed, and then without one carriage return.
pub fn content(line: &[u8]) -> &[u8]
    ensures { result.now ≡ content_of line.now }
{
    without(b'\r', without(b'\n', line))
}

fn without(last: u8, bytes: &[u8]) -> &[u8]
    ensures { result.now ≡ without_last last bytes.now }
{
    match bytes {
        [front @ .., end] if *end == last => front,
        _ => bytes,
    }
}

/// A file has just one list of lines.
pub fn lines_are_unique()
    ensures lines { (bytes : List ℕ) → (lines : List (List ℕ)) × IsLinesOf bytes lines }
    ensures unique { (bytes : List ℕ) (lines others : List (List ℕ)) → IsLinesOf bytes lines → IsLinesOf bytes others
        → lines ≡ others }
{}
