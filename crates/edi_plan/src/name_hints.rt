//! Where a record of a name can stand, without a hash.

ghost use Rattle.std.specs.Prelude.{◌≡◌, ℕ, ◌+◌, ◌%◌, ◌<◌, ◌≤◌, true, false, length, IfOk, IfSome};
ghost use Rattle.std.specs.List.{fold};
ghost use Rattle.edi_line.specs.Bytes.{most_records};
ghost use Rattle.edi_record.specs.Records.{is_link};
ghost use Rattle.edi_plan.specs.inner.Hints.{three_bytes as number_at, with_bits as bits_added, last_bytes as number_in, front_bytes as number_in_front, own_number, near_from, tag_from, farther, start_of, kind_slot as slot_of_kind, slots_at, tag_of, is_held as holds, first_held as first_in, found, HasAll, HasTabled, KeepsPlaces, StandsAt, ArePassedAt, StandsUnder};
ghost use Rattle.edi_plan.specs.inner.LinkNames.{LinksDiffer};
ghost use Rattle.edi_plan.specs.inner.Names.{name_lent};
ghost use Rattle.edi_plan.specs.inner.Slots.{slot_tag};
ghost use Rattle.edi_plan.specs.PlanOf.{place_named};
ghost use Rattle.edi_plan.specs.declared.name_hints.Putting.TheVariants.{Put, Full};

use crate::name_slots::{FREE, NameHints, WINDOW, place_in, slot_of, tag_in};
use crate::names::{RecordNameRef, count_tabled, has_name, is_tabled, name_at};
use edi_record::{Kind, SheetRecords};
use std::alloc::{AllocError, Global};

// How many bytes at the end of an identifier are read as one number.
const LAST: usize = 6;

const HALF: usize = 3;

// How far apart the slots of names begin that differ in the bytes before these.
const SPREAD: u64 = 7919;

// An odd number without a pattern: the first bits of its product with a number depend on all bits of that.
const MIXER: u64 = 11_400_714_819_323_198_485;

/// The last four bits of a byte: of a digit its number.
fn last_bits(byte: u8) -> u64
    ensures value { result ≡ byte % 16 }
    ensures few { result < 16 }
{
    u64::from(byte % 16)
}

/// Three bytes of a text from a place on, read as digits of a number.
fn three_bytes(text: &[u8], at: usize) -> u64
    requires { at + 3 ≤ length text.now }
    ensures value { result ≡ number_at text.now at }
    ensures few { result < 2000 }
{
    last_bits(text[at]) * 100 + last_bits(text[at + 1]) * 10 + last_bits(text[at + 2])
}

/// A number with the last four bits of a byte as its next digit.
fn with_bits(number: u64, byte: u8) -> u64
    ensures { result ≡ bits_added number byte }
{
    number.wrapping_mul(10).wrapping_add(last_bits(byte))
}

/// The bytes of a short text, read as digits of a number.
fn all_bytes(text: &[u8]) -> u64
    ensures { result ≡ fold bits_added 0 text.now }
{
    let mut number: u64 = 0;
    for byte in text {
        number = with_bits(number, *byte);
    }
    number
}

/// The last six bytes of a text, or all if it has fewer, read as digits of a number. Six are read without a loop.
#[tactic(auto, unfolding(crate::specs::inner::Hints::last_bytes))]
pub(crate) fn last_bytes(text: &[u8]) -> u64
    ensures { result ≡ number_in text.now }
{
    let len = text.len();
    if len < LAST {
        return all_bytes(text);
    }
    three_bytes(text, len - LAST) * 1000 + three_bytes(text, len - HALF)
}

/// The three bytes before the last six of a text, read as digits of a number, or 0 if it has fewer. They part names that
/// end alike, as those of a grid do (`v12_106`, `h112_106`).
#[tactic(auto, unfolding(crate::specs::inner::Hints::front_bytes))]
fn front_bytes(text: &[u8]) -> u64
    ensures { result ≡ number_in_front text.now }
{
    let len = text.len();
    if len < LAST + HALF {
        return 0;
    }
    three_bytes(text, len - LAST - HALF)
}

/// Which of the eight slots of a number come first for a type.
fn kind_slot(kind: Kind) -> u64
    ensures { result ≡ slot_of_kind kind }
{
    match kind {
        Kind::Pno => 0,
        Kind::Par => 2,
        Kind::Pfe => 4,
        Kind::Fea | Kind::Lnk => 6,
    }
}

/// The number of an identifier: its last nine bytes have a share in it.
#[tactic(auto, unfolding(crate::specs::inner::Hints::own_number))]
fn own_number(rid: &[u8]) -> u64
    ensures { result ≡ own_number rid.now }
{
    last_bytes(rid).wrapping_add(front_bytes(rid).wrapping_mul(SPREAD))
}

/// The number by which the first slots of a name are found.
#[tactic(auto, unfolding(crate::specs::inner::Hints::near_from))]
fn near_from(kind: Kind, own: u64) -> u64
    ensures { result ≡ near_from kind own }
{
    own.wrapping_mul(WINDOW as u64)
        .wrapping_add(kind_slot(kind))
}

/// The tag of an identifier: a byte in which those that share slots mostly differ, whether by their numbers or by their
/// first bytes, as `v12_106` and `h12_106` do.
#[tactic(auto, unfolding(crate::specs::inner::Hints::tag_from))]
fn tag_from(rid: &[u8], own: u64) -> u8
    ensures { result ≡ tag_from rid.now own }
{
    let first = if rid.is_empty() { 0 } else { rid[0] };
    ((own.wrapping_mul(MIXER) >> 56) as u8).wrapping_add(first)
}

/// Whether a slot has the place of a record of this name. The record is looked at only if the tag is that of the name, so
/// that few records of other names are.
fn is_held(records: &SheetRecords, slot: u32, tag: u8, name: &RecordNameRef<'_>) -> bool
    requires { tag ≡ tag_of name.now.rid.now }
    ensures { result ≡ holds records.now (name_lent name.now) slot }
{
    tag_in(slot) == tag && has_name(records, place_in(slot), name)
}

/// The place in the first of these slots that has one of this name.
fn first_held(
    records: &SheetRecords,
    slots: &[u32],
    tag: u8,
    name: &RecordNameRef<'_>,
) -> Option<u32>
    requires { tag ≡ tag_of name.now.rid.now }
    ensures { result ≡ first_in records.now (name_lent name.now) slots.now }
{
    for slot in slots {
        if is_held(records, *slot, tag, name) {
            return Some(place_in(*slot));
        }
    }
    None
}

/// What becomes of a place that is to go into the slots of a number.
#[derive(Drop)]
enum Putting {
    /// It has a slot.
    Put,
    /// A record of its name stands in one.
    Repeats,
    /// In each stands a record of another name.
    Full,
}

impl NameHints {
    /// The number by which a name's other slots are found, half of all slots further on than its own. Where links are
    /// among the names, those of two numbers may begin at one place; the others then lie where fewer names begin.
    #[tactic(auto, unfolding(crate::specs::inner::Hints::farther))]
    fn farther(&self, number: u64) -> u64
        ensures { result ≡ farther (length self.now.slots.items) number }
    {
        number.wrapping_add(self.slots.len() as u64 / 2)
    }

    /// Where the slots of a number begin: its last bits say it. A remainder would take several times as long.
    #[tactic(auto, unfolding(crate::specs::inner::Hints::start_of), using(std::proofs::lemmas::Nat::and_le_r))]
    fn start(&self, number: u64) -> usize
        ensures start { result ≡ start_of (length self.now.slots.items) number }
        ensures within { result + 8 ≤ length self.now.slots.items }
    {
        (number & (self.slots.len() - WINDOW) as u64) as usize
    }

    /// The slots of a number.
    fn slots_at(&self, number: u64) -> &[u32]
        ensures { result.now ≡ slots_at self.now.slots.items number }
    {
        let start = self.start(number);
        &self.slots[start..start + WINDOW]
    }

    /// The place in the slots of a name at which a record of this name stands.
    fn find(&self, records: &SheetRecords, name: &RecordNameRef<'_>) -> Option<u32>
        ensures { result ≡ found records.now self.now name.now.kind name.now.rid.now }
    {
        let rid = name.rid.as_slice();
        let own = own_number(rid);
        let tag = tag_from(rid, own);
        let number = near_from(name.kind, own);
        let near = first_held(records, self.slots_at(number), tag, name);
        if near.is_some() {
            return near;
        }
        first_held(records, self.slots_at(self.farther(number)), tag, name)
    }

    /// Puts a tagged place into the first free one of the slots of a number, if no record of the name stands before it.
    fn put_at(
        &mut self,
        records: &SheetRecords,
        name: &RecordNameRef<'_>,
        number: u64,
        tagged: u32,
    ) -> Putting
        requires { slot_tag tagged ≡ tag_of name.now.rid.now }
        ensures kept { KeepsPlaces self.old.slots.items self.new.slots.items }
        ensures put { result ≡ Put → StandsAt records.now (name_lent name.now) self.new.slots.items number tagged }
        ensures full { result ≡ Full → ArePassedAt records.now (name_lent name.now) self.new.slots.items number }
    {
        let start = self.start(number);
        for at in start..start + WINDOW {
            let there = self.slots[at];
            if there == FREE {
                self.slots[at] = tagged;
                return Putting::Put;
            }
            if is_held(records, there, tag_in(tagged), name) {
                return Putting::Repeats;
            }
        }
        Putting::Full
    }

    /// Puts a place into the first free slot of a name, if no record of the name stands before it. Then the place is
    /// found by the name, and stays so whatever is put into the slots that are still free.
    fn put(&mut self, records: &SheetRecords, name: &RecordNameRef<'_>, place: u32) -> bool
        requires { place ≤ most_records }
        ensures kept { KeepsPlaces self.old.slots.items self.new.slots.items }
        ensures put { result ≡ true → StandsUnder records.now self.new.slots.items name.now.kind name.now.rid.now place }
    {
        let rid = name.rid.as_slice();
        let own = own_number(rid);
        let tagged = slot_of(tag_from(rid, own), place);
        let number = near_from(name.kind, own);
        match self.put_at(records, name, number, tagged) {
            Putting::Put => true,
            Putting::Repeats => false,
            Putting::Full => {
                let number = self.farther(number);
                matches!(self.put_at(records, name, number, tagged), Putting::Put)
            }
        }
    }

    /// The places of all records, but for links where these rise, each in a slot of its name; or nothing, if a name has
    /// no slot left or two of these records have one name.
    pub(crate) fn among(
        alloc: Global,
        links_rise: bool,
        records: &SheetRecords,
    ) -> Result<Option<NameHints>, AllocError>
        requires { length records.now ≤ most_records }
        ensures { IfOk result (λ hints. IfSome hints (HasTabled links_rise records.now)) }
    {
        let mut hints = NameHints::with_room(alloc, count_tabled(links_rise, records))?;
        for place in 0..records.len() {
            let name = name_at(records, place);
            if !is_tabled(links_rise, name.kind) {
                continue;
            }
            if !hints.put(records, &name, place as u32) {
                return Ok(None);
            }
        }
        Ok(Some(hints))
    }

    /// The place of the record of a name.
    pub(crate) fn place(&self, records: &SheetRecords, name: &RecordNameRef<'_>) -> Option<u32>
        requires no_link { is_link name.now.kind ≡ false }
        requires links { LinksDiffer records.now }
        requires all { HasAll records.now self.now }
        ensures { result ≡ place_named records.now (name_lent name.now) }
    {
        self.find(records, name)
    }
}
