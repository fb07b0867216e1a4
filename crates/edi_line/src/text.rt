//! A byte string that owns its memory.

ghost use Rattle.std.specs.Prelude.{◌≡◌, ◌+◌, ◌≤◌, ◌<◌, ℕ, nat_le, nat_eq, refl, length, take, IfOk, Some};
ghost use Rattle.std.specs.Ordering.{nat_cmp};
ghost use Rattle.std.specs.Cmp.{partial_equiv_from_equiv};
ghost use Rattle.std.specs.Cmp.Lexicographic.{pointwise, slice_cmp, nat_list_eq_equiv, nat_list_cmp_total, texts_ties, texts_po};
ghost use Rattle.std.specs.Hash as fed;
ghost use Rattle.std.specs.Hash.{items_Alike};
ghost use Rattle.edi_line.specs.Texts.{bytes_alike};
ghost use Rattle.edi_line.specs.inner.Texts.{bytes_in, IsWithin};

use std::alloc::{AllocError, Global};
use std::cmp::Ordering;
use std::hash::{Hash, Hasher};
use std::marker::Model;
use std::simd::prelude::*;
use std::sync::Arc;

// How many bytes a short text has at most.
const SHORT: usize = 14;

// How many bytes a text of middling length has at most: an identifier of 25 bytes has fewer. It takes one piece of memory,
// and not two as a long one.
const MIDDLING: usize = 32;

/// Where the bytes of a text lie. It has 16 bytes itself, since a sheet's records consist of texts for the most part.
/// Copies of a text that isn't short share its memory.
enum Bytes {
    Short { len: u8, bytes: [u8; SHORT] },
    Middling { len: u8, bytes: Arc<[u8; MIDDLING]> },
    Long(Arc<Vec<u8>>),
}

impl Drop for Bytes {
    fn drop(self) {
        match self {
            Bytes::Short { len: _, bytes: _ } => {}
            Bytes::Middling { len: _, bytes: _ } => {}
            Bytes::Long(_) => {}
        }
    }
}

/// A byte string that owns its memory, compared, ordered and hashed as its bytes in their order.
/// Up to 14 bytes lie in the value itself, and up to 32 in one piece of memory. A copy of a longer one shares its memory,
/// so it takes none. Contracts see the list of the bytes alone.
pub struct Text {
    alloc: Global,
    bytes: Bytes,
}

impl Drop for Text {
    fn drop(self) {
        let Text { alloc: _, bytes: _ } = self;
    }
}

impl Model for Text {
    ghost use Rattle.std.specs.Prelude.{List, ℕ};
    ghost use Rattle.edi_line.specs.inner.Texts.{bytes_in, IsWithin};

    ghost Value = { List ℕ };

    ghost view = { λ t. bytes_in t.bytes };

    ghost invariant = { λ t. IsWithin t.bytes };
}

impl Text {
    /// How many bytes a short text has at most.
    pub const SHORT: usize = SHORT;

    /// A copy of these bytes.
    pub fn from_slice(alloc: Global, bytes: &[u8]) -> Result<Text, AllocError>
        ensures { IfOk result (λ t. t ≡ bytes.now) }
    {
        if bytes.len() <= SHORT {
            return Ok(Text::short(alloc, bytes));
        }
        let bytes = if bytes.len() <= MIDDLING {
            text_of_middle_length(alloc, bytes)?
        } else {
            Bytes::Long(Arc::new(alloc, Vec::from_slice(alloc, bytes)?)?)
        };
        Ok(Text { alloc, bytes })
    }

    /// A copy of a short text, which takes no memory.
    pub fn short(alloc: Global, bytes: &[u8]) -> Text
        requires { length bytes.now ≤ 14 }
        ensures { result ≡ bytes.now }
    {
        Text {
            alloc,
            bytes: short(bytes),
        }
    }

    /// The bytes, borrowed.
    pub fn as_slice(&self) -> &[u8]
        ensures { result.now ≡ self.now }
    {
        match &self.bytes {
            Bytes::Short { len, bytes } => &bytes[..usize::from(*len)],
            Bytes::Middling { len, bytes } => &bytes[..usize::from(*len)],
            Bytes::Long(bytes) => bytes.as_slice(),
        }
    }
}

/// The bytes in the value itself.
fn short(text: &[u8]) -> Bytes
    requires { length text.now ≤ 14 }
    ensures value { bytes_in result ≡ text.now }
    ensures within { IsWithin result }
{
    let mut bytes = [0; SHORT];
    match text.len() {
        0 => {}
        1 => bytes[0] = text[0],
        2 | 3 => copy_both_ends(&mut bytes, text, 2),
        4..=7 => copy_both_ends(&mut bytes, text, 4),
        _ => copy_both_ends(&mut bytes, text, 8),
    }
    Bytes::Short {
        len: text.len() as u8,
        bytes,
    }
}

/// The bytes in one piece of memory.
fn text_of_middle_length(alloc: Global, text: &[u8]) -> Result<Bytes, AllocError>
    requires long { 14 < length text.now }
    requires short { length text.now ≤ 32 }
    ensures value { IfOk result (λ bytes. bytes_in bytes ≡ text.now) }
    ensures within { IfOk result IsWithin }
{
    let mut bytes = [0; MIDDLING];
    if text.len() < 16 {
        copy_both_ends(&mut bytes, text, 8);
    } else {
        copy_both_ends(&mut bytes, text, 16);
    }
    Ok(Bytes::Middling {
        len: text.len() as u8,
        bytes: Arc::new(alloc, bytes)?,
    })
}

/// Copies a text by its first bytes and its last ones, so many, which may overlap. Copies of a known size take no call.
#[inline(always)]
pub fn copy_both_ends(bytes: &mut [u8], text: &[u8], size: usize)
    requires enough { size ≤ length text.now }
    requires all { length text.now ≤ size + size }
    requires room { length text.now ≤ length bytes.old }
    ensures { take (length text.now) bytes.new ≡ text.now }
{
    let len = text.len();
    let (first, _) = text.split_at(size);
    let (_, last) = text.split_at(len - size);
    bytes[..size].copy_from_slice(first);
    bytes[len - size..len].copy_from_slice(last);
}

/// How many lanes at the front are equal; more than there are if all are.
fn equal_lanes(lanes: u8x8, others: u8x8) -> u32
    ensures { (k : ℕ) → k ≤ 8 → nat_le k result ≡ pointwise nat_eq (take k lanes) (take k others) }
{
    lanes.simd_ne(others).to_bitmask().trailing_zeros()
}

/// Whether so many bytes at the front are equal. Two vectors, which overlap, cover the room of a short text, and to
/// compare these takes a fraction of what two slices take.
fn same_front(first: &[u8; SHORT], second: &[u8; SHORT], len: u8) -> bool
    requires { len ≤ 14 }
    ensures { result ≡ pointwise nat_eq (take len first.now) (take len second.now) }
{
    let len = u32::from(len);
    let heads = equal_lanes(u8x8::from_slice(first), u8x8::from_slice(second));
    if len <= 8 {
        return len <= heads;
    }
    if heads < 8 {
        return false;
    }
    len - 6
        <= equal_lanes(
            u8x8::from_slice(&first[6..]),
            u8x8::from_slice(&second[6..]),
        )
}

/// Whether two short texts are equal.
fn same_short(first: &[u8; SHORT], len: u8, second: &[u8; SHORT], other_len: u8) -> bool
    requires len { len ≤ 14 }
    requires other_len { other_len ≤ 14 }
    ensures { result ≡ pointwise nat_eq (take len first.now) (take other_len second.now) }
{
    if len != other_len {
        return false;
    }
    same_front(first, second, len)
}

impl PartialEq for Text {
    ghost eq = { pointwise nat_eq };

    ghost laws = { partial_equiv_from_equiv nat_list_eq_equiv };

    fn eq(&self, other: &Self) -> bool {
        if let Bytes::Short { len, bytes } = &self.bytes
            && let Bytes::Short {
                len: other_len,
                bytes: other_bytes,
            } = &other.bytes
        {
            return same_short(bytes, *len, other_bytes, *other_len);
        }
        self.as_slice() == other.as_slice()
    }
}

impl Eq for Text {
    ghost laws = { nat_list_eq_equiv };
}

impl PartialOrd for Text {
    ghost partial_cmp = { λ x y. Some (slice_cmp nat_cmp x y) };

    ghost laws = { texts_po };

    fn partial_cmp(&self, other: &Self) -> Option<Ordering> {
        Some(self.cmp(other))
    }
}

impl Ord for Text {
    ghost cmp = { slice_cmp nat_cmp };

    ghost total = { nat_list_cmp_total };

    ghost matches_partial_cmp = { λ x y. refl };

    ghost matches_eq = { texts_ties };

    fn cmp(&self, other: &Self) -> Ordering {
        self.as_slice().cmp(other.as_slice())
    }
}

impl Hash for Text {
    ghost hash_input = { fed.slice fed.u8 };

    ghost respects_eq = { (items_Alike bytes_alike).fed };

    fn hash<H: Hasher>(&self, state: &mut H) {
        self.as_slice().hash(state);
    }
}

impl Clone for Text {
    ghost is_clone = { λ t copy. copy ≡ t };

    fn clone(&self) -> Result<Text, AllocError> {
        let bytes = match &self.bytes {
            Bytes::Short { len, bytes } => Bytes::Short {
                len: *len,
                bytes: *bytes,
            },
            Bytes::Middling { len, bytes } => Bytes::Middling {
                len: *len,
                bytes: bytes.clone()?,
            },
            Bytes::Long(bytes) => Bytes::Long(bytes.clone()?),
        };
        Ok(Text {
            alloc: self.alloc,
            bytes,
        })
    }
}
