//! Parts of pointers that come again.

ghost use Rattle.std.specs.Prelude.{◌≡◌, ◌<◌, IfOk, true};
ghost use Rattle.edi_record.specs.Texts.{PointerText, shown};

use crate::name::Name;
use crate::read_pointer::ReadPointer;
use crate::words::{LAST, SPREAD, first_word, last_word};
use edi_line::{Text, same_bytes};
use std::alloc::{AllocError, Global};
use std::marker::Model;
use std::sync::Arc;

// How many parts of a sort are kept.
const SLOTS: usize = 64;

// How far the spread bytes are shifted, so that the number of a slot is left.
const SHIFT: u32 = 58;

/// A part that many pointers of a sheet have in common.
pub(crate) trait SharedPart {
    /// It is this part of a pointer with these texts.
    ghost is_part: { Self → PointerText → Type 0 };

    /// The bytes of a pointer by which its slot is chosen.
    fn bytes<'a>(pointer: &ReadPointer<'a>) -> &'a [u8];

    /// Whether it is that part of a pointer.
    fn is_of(&self, pointer: &ReadPointer<'_>) -> bool
        ensures { result ≡ true → is_part self.now (shown pointer.now.parts) };

    /// That part of a pointer.
    fn of(alloc: Global, pointer: &ReadPointer<'_>) -> Result<Self, AllocError>
        ensures { IfOk result (λ part. is_part part (shown pointer.now.parts)) };
}

/// A pointer but for its identifier: its bytes, by which it is told from others at once, and where its lot and its
/// subset end in them. It takes 48 bytes with the counts of its sharing, where a text for each part would take 80.
/// Contracts see the parts.
pub(crate) struct PointerStart {
    bytes: Text,
    lot_end: usize,
    subset_end: usize,
}

impl Drop for PointerStart {
    fn drop(self) {
        let PointerStart {
            bytes: _,
            lot_end: _,
            subset_end: _,
        } = self;
    }
}

impl Model for PointerStart {
    ghost use Rattle.edi_record.specs.inner.SharedParts.{StartParts, parts_of_start, IsStartAt};

    ghost Value = { StartParts };

    ghost view = { λ s. parts_of_start s.bytes s.lot_end s.subset_end };

    ghost invariant = { λ s. IsStartAt s.bytes s.lot_end s.subset_end };
}

impl PointerStart {
    /// The lot.
    pub(crate) fn lot(&self) -> &[u8]
        ensures { result.now ≡ self.now.lot }
    {
        &self.bytes.as_slice()[..self.lot_end]
    }

    /// The subset.
    pub(crate) fn subset(&self) -> &[u8]
        ensures { result.now ≡ self.now.subset }
    {
        &self.bytes.as_slice()[self.lot_end + 1..self.subset_end]
    }

    /// The type.
    pub(crate) fn rty(&self) -> &[u8]
        ensures { result.now ≡ self.now.rty }
    {
        let bytes = self.bytes.as_slice();
        &bytes[self.subset_end + 1..bytes.len() - 1]
    }
}

impl SharedPart for PointerStart {
    ghost is_part = { λ start p. (start.lot ≡ p.lot) × (start.subset ≡ p.subset) × (start.rty ≡ p.rty) };

    fn bytes<'a>(pointer: &ReadPointer<'a>) -> &'a [u8] {
        pointer.start()
    }

    fn is_of(&self, pointer: &ReadPointer<'_>) -> bool {
        same_bytes(self.bytes.as_slice(), pointer.start())
    }

    fn of(alloc: Global, pointer: &ReadPointer<'_>) -> Result<PointerStart, AllocError> {
        let start = pointer.start();
        let lot_end = pointer.parts.lot.len();
        Ok(PointerStart {
            bytes: Text::from_slice(alloc, start)?,
            lot_end,
            subset_end: lot_end + 1 + pointer.parts.subset.len(),
        })
    }
}

impl SharedPart for Name {
    ghost is_part = { λ name p. name ≡ record { rty = p.rty; rid = p.rid } };

    fn bytes<'a>(pointer: &ReadPointer<'a>) -> &'a [u8] {
        pointer.text
    }

    fn is_of(&self, pointer: &ReadPointer<'_>) -> bool {
        same_bytes(self.rid.as_slice(), pointer.parts.rid)
            && same_bytes(self.rty.as_slice(), pointer.parts.rty)
    }

    fn of(alloc: Global, pointer: &ReadPointer<'_>) -> Result<Name, AllocError> {
        Ok(Name {
            rty: Text::from_slice(alloc, pointer.parts.rty)?,
            rid: Text::from_slice(alloc, pointer.parts.rid)?,
        })
    }
}

/// The parts of a sort that came last, each in its slot. The ends of a sheet have four
/// starts between them for the most part, and its records some twenty classes: each is made once, and its copies share
/// its memory. Which parts are kept decides how much memory is taken, and nothing else.
#[derive(Drop)]
pub(crate) struct SharedParts<P> {
    /// None before the first pointer has come.
    slots: Vec<Arc<P>>,
}

/// The bytes of a short text as one number.
fn number_of(bytes: &[u8]) -> u64 {
    let mut number: u64 = 0;
    for byte in bytes {
        number = number.wrapping_mul(256).wrapping_add(u64::from(*byte));
    }
    number
}

/// The slot of a part, by its first and its last bytes.
fn slot_of(bytes: &[u8]) -> usize
    ensures { result < 64 }
{
    let number = if bytes.len() < LAST {
        number_of(bytes)
    } else {
        first_word(bytes)
            .wrapping_mul(SPREAD)
            .wrapping_add(last_word(bytes))
    };
    (number.wrapping_mul(SPREAD) >> SHIFT) as usize
}

impl<P: SharedPart + Drop> SharedParts<P> {
    /// None has come.
    pub(crate) fn new(alloc: Global) -> SharedParts<P> {
        SharedParts {
            slots: Vec::new(alloc),
        }
    }

    /// The part of a pointer.
    pub(crate) fn part(
        &mut self,
        alloc: Global,
        pointer: &ReadPointer<'_>,
    ) -> Result<Arc<P>, AllocError>
        ensures { IfOk result (λ part. P.is_part part.value (shown pointer.now.parts)) }
    {
        if let Some(known) = self.slots.get(slot_of(P::bytes(pointer)))
            && known.is_of(pointer)
        {
            return known.clone();
        }
        self.new_part(alloc, pointer)
    }

    /// The part of a pointer, which is kept.
    #[inline(never)]
    fn new_part(&mut self, alloc: Global, pointer: &ReadPointer<'_>) -> Result<Arc<P>, AllocError>
        ensures { IfOk result (λ part. P.is_part part.value (shown pointer.now.parts)) }
    {
        let part = Arc::new(alloc, P::of(alloc, pointer)?)?;
        for _ in self.slots.len()..SLOTS {
            self.slots.push(part.clone()?)?;
        }
        if let Some(slot) = self.slots.get_mut(slot_of(P::bytes(pointer))) {
            *slot = part.clone()?;
        }
        Ok(part)
    }
}
