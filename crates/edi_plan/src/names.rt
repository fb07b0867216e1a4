//! The names of records: rule 301.

ghost use Rattle.std.specs.Prelude.{◌≡◌, ◌∷◌, [], ◌<◌, ◌≤◌, true, length, map, unwrap_or, IfOk, OnOk};
ghost use Rattle.std.specs.Cmp.Rules.{hashing};
ghost use Rattle.std.proofs.Common.{rules};
ghost use Rattle.edi_line.specs.Bytes.{most_records};
ghost use Rattle.edi_hash.specs.Keys.{keyed_by};
ghost use Rattle.edi_record.specs.Shapes.{stated_at};
ghost use Rattle.edi_plan.specs.PlanOf.{own_name};
ghost use Rattle.edi_plan.specs.inner.Names.{name_lent, place_in, is_tabled as tabled_test, tabled, IsPlaceAdded, AreFirstPlaces, IsFirstRepeatedNameIfAny};
ghost use Rattle.edi_plan.specs.inner.Targets.{HasNameAt};
ghost use Rattle.edi_plan.specs.inner.Hints.{is_named_at};
ghost use Rattle.edi_plan.specs.inner.LinkNames.{with_digit, end_number, length_and_end, link_number, LinksDiffer};

use crate::name_hints::last_bytes;
use edi_hash::{KeyNames, NameHash};
use edi_record::{Identifier, Kind, SheetRecords};
use indexmap::IndexMap;
use std::alloc::{AllocError, Global};
use std::hash::{Hash, Hasher};

// What the length of an identifier counts, above its last bytes.
const LENGTH_UNIT: u64 = 4_294_967_296;

/// The type and the identifier of a record, borrowed from it.
#[derive(Clone, Copy, PartialEq, Eq)]
pub(crate) struct RecordNameRef<'a> {
    pub(crate) kind: Kind,
    pub(crate) rid: &'a Identifier,
}

// The type is left out: an identifier makes five names at most.
impl<'a> Hash for RecordNameRef<'a> {
    ghost hash_input = { λ n. n.rid.now ∷ [] };

    ghost respects_eq = { Prim.search (hashing, rules) };

    fn hash<H: Hasher>(&self, state: &mut H) {
        state.write(self.rid.as_slice());
    }
}

/// The place of the first record of each name, and that of the first record with the name of an earlier one.
pub(crate) struct NameTable<'a> {
    pub(crate) places: IndexMap<RecordNameRef<'a>, u32, NameHash>,
    pub(crate) repeat: Option<usize>,
}

impl Drop for NameTable<'_> {
    fn drop(self) {
        let NameTable {
            places: _,
            repeat: _,
        } = self;
    }
}

/// The name of the record at a place, from 0.
pub(crate) fn name_at(records: &SheetRecords, place: usize) -> RecordNameRef<'_>
    requires { place < length records.now }
    ensures { name_lent result ≡ own_name (stated_at records.now place) }
{
    RecordNameRef {
        kind: records.kind(place),
        rid: records.rid(place),
    }
}

/// Whether the record at a place has this name.
pub(crate) fn has_name(records: &SheetRecords, place: u32, name: &RecordNameRef<'_>) -> bool
    ensures has { result ≡ true → HasNameAt records.now (name_lent name.now) place }
    ensures is { result ≡ is_named_at records.now (name_lent name.now) place }
{
    let place = place as usize;
    place < records.len() && name_at(records, place) == *name
}

/// A number with a digit more, or 0 behind any other byte.
fn with_digit(number: u64, byte: u8) -> u64
    ensures { result ≡ with_digit number byte }
{
    if byte.is_ascii_digit() {
        number.wrapping_mul(10).wrapping_add(u64::from(byte - b'0'))
    } else {
        0
    }
}

/// The number that the digits at the end of an identifier spell, as far as 64 bits hold it.
#[tactic(auto, unfolding(crate::specs::inner::LinkNames::end_number))]
fn end_number(rid: &[u8]) -> u64
    ensures { result ≡ end_number rid.now }
{
    let mut number: u64 = 0;
    for byte in rid {
        number = with_digit(number, *byte);
    }
    number
}

/// The length of an identifier, and its last six bytes read as digits. Where one identifier is as another but for a
/// greater number at its end, of six digits at most, this is greater too; and it takes a tenth of the steps of
/// `end_number`.
#[tactic(auto, unfolding(crate::specs::inner::LinkNames::length_and_end))]
fn length_and_end(rid: &[u8]) -> u64
    ensures { result ≡ length_and_end rid.now }
{
    (rid.len() as u64)
        .wrapping_mul(LENGTH_UNIT)
        .wrapping_add(last_bytes(rid))
}

/// The number of a link's identifier, in one of two ways.
#[tactic(auto, unfolding(crate::specs::inner::LinkNames::link_number))]
fn link_number(by_digits: bool, rid: &[u8]) -> u64
    ensures { result ≡ link_number by_digits rid.now }
{
    if by_digits {
        end_number(rid)
    } else {
        length_and_end(rid)
    }
}

/// Whether the numbers of the links rise, as they do in most sheets. Then no two links have one identifier.
pub(crate) fn links_rise(records: &SheetRecords) -> bool
    ensures { result ≡ true → LinksDiffer records.now }
{
    numbers_rise(false, records) || numbers_rise(true, records)
}

/// Whether the numbers that the links have in one of the two ways rise.
fn numbers_rise(by_digits: bool, records: &SheetRecords) -> bool
    ensures { result ≡ true → LinksDiffer records.now }
{
    let mut least: u64 = 0;
    for place in 0..records.len() {
        if !records.kind(place).is_link() {
            continue;
        }
        let number = link_number(by_digits, records.rid(place).as_slice());
        if number < least || number == u64::MAX {
            return false;
        }
        least = number + 1;
    }
    true
}

/// Whether a name goes into the table. Nothing looks links up, so where these are known to differ theirs stay out.
pub(crate) fn is_tabled(links_rise: bool, kind: Kind) -> bool
    ensures { result ≡ tabled_test links_rise kind }
{
    !(links_rise && kind.is_link())
}

/// The hash for the names of these records that go into the table, under a key made of their identifiers. Their types
/// are left out: one identifier makes five names at most, too few to choose among.
pub(crate) fn hash_of(links_rise: bool, records: &SheetRecords) -> NameHash
    ensures { result ≡ keyed_by (map (λ r. r.rid) (tabled links_rise records.now)) }
{
    let mut names = KeyNames::new();
    for place in 0..records.len() {
        if is_tabled(links_rise, records.kind(place)) {
            names.add(records.rid(place).as_slice());
        }
    }
    names.hash()
}

/// How many names go into the table.
pub(crate) fn count_tabled(links_rise: bool, records: &SheetRecords) -> usize
    ensures count { result ≡ length (tabled links_rise records.now) }
    ensures few { result ≤ length records.now }
{
    let mut count: usize = 0;
    for place in 0..records.len() {
        if is_tabled(links_rise, records.kind(place)) {
            count += 1;
        }
    }
    count
}

/// The place of a name, which is this one if it had none.
pub(crate) fn place_or<'a>(
    places: &mut IndexMap<RecordNameRef<'a>, u32, NameHash>,
    name: RecordNameRef<'a>,
    place: u32,
) -> Result<u32, AllocError>
    ensures first { IfOk result (λ first. first ≡ unwrap_or (place_in places.old.entries name.entry) place) }
    ensures put { OnOk result (IsPlaceAdded places.old.entries name.entry place places.new.entries) }
{
    Ok(*places.entry(name)?.or_insert(place))
}

impl<'a> NameTable<'a> {
    /// The names of records, by their places from 0.
    pub(crate) fn among(
        alloc: Global,
        records: &'a SheetRecords,
    ) -> Result<NameTable<'a>, AllocError>
        requires { length records.now ≤ most_records }
        ensures names { IfOk result (AreFirstPlaces records.now) }
        ensures repeat { IfOk result (λ names. IsFirstRepeatedNameIfAny records.now names.repeat) }
    {
        let links_rise = links_rise(records);
        let hash = hash_of(links_rise, records);
        let count = count_tabled(links_rise, records);
        let mut places = IndexMap::with_capacity_and_hasher(alloc, count, hash)?;
        let mut repeat: Option<usize> = None;
        for place in 0..records.len() {
            let name = name_at(records, place);
            if !is_tabled(links_rise, name.kind) {
                continue;
            }
            let first = place_or(&mut places, name, place as u32)?;
            if first as usize != place {
                repeat = repeat.or(Some(place));
            }
        }
        Ok(NameTable { places, repeat })
    }
}
