//! The slots in which hints of where names stand lie.

ghost use Rattle.std.specs.Prelude.{◌≡◌, ◌≤◌, length};
ghost use Rattle.edi_line.specs.Bytes.{most_records};
ghost use Rattle.edi_plan.specs.inner.Slots.{tagged, slot_tag, slot_place};

use std::alloc::{AllocError, Global};

// How many slots are looked at for a name.
pub(crate) const WINDOW: usize = 8;

// How many slots there are for a name at least; there are nearly twice as many at most.
const SLOTS: usize = 3;

// What a free slot has: the place of no record.
pub(crate) const FREE: u32 = u32::MAX;

// What the tag of a name counts in a slot, above the place: a sheet has fewer records.
const TAG_UNIT: u32 = 16_777_216;

/// What the slot of a place has: the place, and the tag of its name above.
pub(crate) fn slot_of(tag: u8, place: u32) -> u32
    requires { place ≤ most_records }
    ensures { result ≡ tagged tag place }
{
    u32::from(tag) * TAG_UNIT + place
}

/// The tag in a slot.
pub(crate) fn tag_in(slot: u32) -> u8
    ensures { result ≡ slot_tag slot }
{
    (slot / TAG_UNIT) as u8
}

/// The place in a slot.
pub(crate) fn place_in(slot: u32) -> u32
    ensures { result ≡ slot_place slot }
{
    slot % TAG_UNIT
}

/// Places of records in slots, each with a tag of its name. The last bytes of an identifier, read as a number, say where
/// its eight slots begin, and eight more where these are full. Identifiers that are numbered so stand apart. Others may
/// not, and then there are no hints: someone who chooses names can do no more harm than that.
#[derive(Drop)]
pub(crate) struct NameHints {
    pub(crate) slots: Vec<u32>,
    pub ghost long: { 8 ≤ length slots.items },
}

impl NameHints {
    /// Free slots for so many names. How many of them can be the first of eight is a power of two, so that the last bits
    /// of a number say which is.
    pub(crate) fn with_room(alloc: Global, names: usize) -> Result<NameHints, AllocError>
        requires { names ≤ most_records }
    {
        let starts = (names * SLOTS).next_power_of_two();
        let slots = vec![in alloc; FREE; starts - 1 + WINDOW]?;
        Ok(NameHints { slots })
    }
}
