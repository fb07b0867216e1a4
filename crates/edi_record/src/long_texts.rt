//! Texts that come again: long ones, and the starts of pointers and the classes that many share.

ghost use Rattle.std.specs.Prelude.{◌≡◌, ◌<◌, ◌≤◌, length, IfOk};

use crate::name::Name;
use crate::read_pointer::ReadPointer;
use crate::shared_parts::{PointerStart, SharedParts};
use crate::words::{SPREAD, last_word};
use edi_line::Text;
use std::alloc::{AllocError, Global};
use std::sync::Arc;

// How many long texts are kept.
const SLOTS: usize = 1024;

// How far the spread bytes are shifted, so that the number of a slot is left.
const SHIFT: u32 = 54;

/// The last long texts that came, each in the slot that its last bytes choose, and the shared parts of pointers. The
/// identifier of an arc comes with each link that joins it: a long one is made once, and its copies share its memory.
/// Which texts are kept decides how much memory is taken, and nothing else.
#[derive(Drop)]
pub(crate) struct LongTexts {
    pub(crate) alloc: Global,
    /// None before the first long text has come.
    slots: Vec<Text>,
    starts: SharedParts<PointerStart>,
    classes: SharedParts<Name>,
}

/// The slot of a text.
fn slot_of(text: &[u8]) -> usize
    requires { 8 ≤ length text.now }
    ensures { result < 1024 }
{
    (last_word(text).wrapping_mul(SPREAD) >> SHIFT) as usize
}

impl LongTexts {
    /// None has come.
    pub(crate) fn new(alloc: Global) -> LongTexts {
        LongTexts {
            alloc,
            slots: Vec::new(alloc),
            starts: SharedParts::new(alloc),
            classes: SharedParts::new(alloc),
        }
    }

    /// Makes empty slots.
    #[inline(never)]
    fn make_slots(&mut self) -> Result<(), AllocError> {
        for _ in 0..SLOTS {
            self.slots.push(Text::short(self.alloc, &[]))?;
        }
        Ok(())
    }

    /// A text of these bytes. A short one takes no memory.
    pub(crate) fn text(&mut self, bytes: &[u8]) -> Result<Text, AllocError>
        ensures { IfOk result (λ text. text ≡ bytes.now) }
    {
        if bytes.len() <= Text::SHORT {
            return Ok(Text::short(self.alloc, bytes));
        }
        self.long_text(bytes)
    }

    /// The start of a pointer.
    pub(crate) fn start(
        &mut self,
        pointer: &ReadPointer<'_>,
    ) -> Result<Arc<PointerStart>, AllocError>
        ensures { IfOk result (λ start. (start.value.lot ≡ pointer.now.parts.lot.now)
            × (start.value.subset ≡ pointer.now.parts.subset.now) × (start.value.rty ≡ pointer.now.parts.rty.now)) }
    {
        self.starts.part(self.alloc, pointer)
    }

    /// The name of the class that a pointer names.
    pub(crate) fn class(&mut self, pointer: &ReadPointer<'_>) -> Result<Arc<Name>, AllocError>
        ensures { IfOk result (λ class. class.value
            ≡ record { rty = pointer.now.parts.rty.now; rid = pointer.now.parts.rid.now }) }
    {
        self.classes.part(self.alloc, pointer)
    }

    /// A text of these bytes, which shares the memory of the one in its slot where that has the same.
    #[inline(never)]
    fn long_text(&mut self, bytes: &[u8]) -> Result<Text, AllocError>
        requires { 14 < length bytes.now }
        ensures { IfOk result (λ text. text ≡ bytes.now) }
    {
        if self.slots.is_empty() {
            self.make_slots()?;
        }
        let Some(known) = self.slots.get_mut(slot_of(bytes)) else {
            return Text::from_slice(self.alloc, bytes);
        };
        if known.as_slice() != bytes {
            *known = Text::from_slice(self.alloc, bytes)?;
        }
        known.clone()
    }
}
