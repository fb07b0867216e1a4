//! The zone with which a record breaks a rule.

ghost use Rattle.std.specs.Prelude.{◌≡◌, ◌↔◌, ◌<◌, ℕ, false, true, IsTrue, List, MatchOption, Option, codes, count_by, length, take};
ghost use Rattle.std.specs.List.{list_any};
ghost use Rattle.edi_line.specs.ZoneData.{ZoneData, entries, entry, has_code};
ghost use Rattle.edi_record.specs.RecordRules.{IsNoPointer, is_identifier as is_identifier_text};
ghost use Rattle.edi_record.specs.Texts.{IsPosition};
ghost use Rattle.edi_record.specs.declared.record.Point.{Point as Points};
ghost use Rattle.edi_explain.specs.BreakingZones.{IsBreakingZoneOf, IsFirstPassing, IsSecond, NamesType, Passes, PassesAt, count_beside as count_beside_code, counted_by as counted_by_code, is_typed, test_of as test_of_rule};
ghost use Rattle.edi_explain.specs.declared.breaking.ZoneTest.TheVariants.{BadCount};
ghost use Rattle.edi_explain.specs.inner.OpenAttributes.{LeaveOpen};

use crate::unknown::{is_open_behind, is_unknown_pointer};
use crate::wrong_texts::{is_no_position, is_other_count};
use edi_line::Zone;
use edi_line::codes::RID;
use edi_record::Pointer;

const ATC: [u8; 3] = *b"ATC";

const ATP: [u8; 3] = *b"ATP";

const COR: [u8; 3] = *b"COR";

const DIP: [u8; 3] = *b"DIP";

const FTC: [u8; 3] = *b"FTC";

const FTP: [u8; 3] = *b"FTP";

const PAR: [u8; 3] = *b"PAR";

const PTC: [u8; 3] = *b"PTC";

const SCP: [u8; 3] = *b"SCP";

/// What a zone is looked for by, in a record that breaks a rule.
#[derive(Clone, Copy)]
pub enum ZoneTest {
    /// It has this code.
    OfCode([u8; 3]),
    /// It is the last with this code.
    LastOf([u8; 3]),
    /// It is an RID and no identifier, or a second one.
    BadIdentifier,
    /// It has this code and is no pointer.
    NoPointer([u8; 3]),
    /// It is an SCP and no pointer, or a second one.
    BadClass,
    /// It counts other zones and isn't their count, or is a second one.
    BadCount,
    /// It is a COR and no position, or a second one of a node.
    BadPosition,
    /// It is a pointer that isn't empty, and its code isn't known in records of the type.
    UnknownPointer,
    /// It is an end that names a record of this type.
    EndOf([u8; 3]),
}

/// The zones of a record in front of one, and whether they leave an attribute open. That goes along from zone to zone:
/// looked for anew at each zone, it would take the square of their number.
#[derive(Clone, Copy)]
pub(crate) struct Front<'a, 'b> {
    pub(crate) zones: &'b [Zone<'a>],
    pub(crate) is_open: bool,
}

/// What a rule looks for among the zones of the record that breaks it. Some rules are of no single zone.
fn test_of(rule: u16) -> Option<ZoneTest>
    ensures { result ≡ test_of_rule rule }
{
    match rule {
        202 | 601 => Some(ZoneTest::BadIdentifier),
        203 => Some(ZoneTest::BadClass),
        204 => Some(ZoneTest::NoPointer(ATP)),
        205 => Some(ZoneTest::BadCount),
        206 => Some(ZoneTest::BadPosition),
        207 => Some(ZoneTest::NoPointer(FTP)),
        208 => Some(ZoneTest::UnknownPointer),
        301 | 602 => Some(ZoneTest::OfCode(RID)),
        302 | 306 => Some(ZoneTest::OfCode(SCP)),
        307 => Some(ZoneTest::EndOf(PAR)),
        401 | 403 => Some(ZoneTest::OfCode(COR)),
        402 => Some(ZoneTest::LastOf(COR)),
        603 => Some(ZoneTest::OfCode(DIP)),
        _ => None,
    }
}

/// Whether a zone among these has a code.
fn has(zones: &[Zone<'_>], code: [u8; 3]) -> bool
    ensures { result ≡ list_any (has_code code) (entries zones.now) }
{
    zones.iter().any(|zone| zone.code == code)
}

/// How many zones among these have a code.
fn count_of_code(zones: &[Zone<'_>], code: [u8; 3]) -> usize
    ensures { result ≡ count_by (has_code code) (entries zones.now) }
{
    zones.iter().filter(|zone| zone.code == code).count()
}

/// Whether a text may name a record.
pub(crate) fn is_identifier(text: &[u8]) -> bool
    ensures { result ≡ is_identifier_text text.now }
{
    !text.is_empty() && text.len() <= 255 && !text.contains(&b';')
}

/// Whether a text is no pointer.
fn is_no_pointer(text: &[u8]) -> bool
    ensures { IsTrue result ↔ IsNoPointer text.now }
{
    Pointer::read(text).is_none()
}

/// Whether the first zone of a record states this type.
pub(crate) fn is_of_type(group: &[Zone<'_>], rty: &[u8]) -> bool
    ensures { result ≡ is_typed rty.now (entries group.now) }
{
    match group {
        [head, ..] => head.value.as_slice() == rty,
        [] => false,
    }
}

/// The code of the zones that a zone with this code counts.
fn counted_by(group: &[Zone<'_>], code: [u8; 3]) -> Option<[u8; 3]>
    ensures { result ≡ counted_by_code (entries group.now) code }
{
    if code == ATC {
        Some(ATP)
    } else if code == PTC && is_of_type(group, b"PAR") {
        Some(COR)
    } else if code == FTC && is_of_type(group, b"LNK") {
        Some(FTP)
    } else {
        None
    }
}

/// Whether a zone has a code, and one of those before it has that code.
fn is_second(code: [u8; 3], front: &[Zone<'_>], zone: &Zone<'_>) -> bool
    ensures { IsTrue result ↔ IsSecond code (entries front.now) (entry zone.now) }
{
    zone.code == code && has(front, code)
}

/// Whether a zone has a code and is no identifier.
fn names_nothing(zone: &Zone<'_>) -> bool
    ensures { IsTrue result ↔ ((has_code (codes "RID") (entry zone.now) ≡ true)
        × (is_identifier_text (entry zone.now).value ≡ false)) }
{
    zone.code == RID && !is_identifier(zone.value.as_slice())
}

/// Whether a zone has a code and is no pointer.
fn points_nowhere(code: [u8; 3], zone: &Zone<'_>) -> bool
    ensures { IsTrue result ↔ ((has_code code (entry zone.now) ≡ true) × IsNoPointer (entry zone.now).value) }
{
    zone.code == code && is_no_pointer(zone.value.as_slice())
}

/// Whether a zone counts other zones and isn't their count, or is a second one with its code.
fn miscounts(group: &[Zone<'_>], front: &[Zone<'_>], zone: &Zone<'_>) -> bool
    ensures { (behind : List ZoneData) → IsTrue result
        ↔ Passes (entries group.now) (entries front.now) (entry zone.now) behind BadCount }
{
    let Some(counted) = counted_by(group, zone.code) else {
        return false;
    };
    is_other_count(zone.value.as_slice(), count_of_code(group, counted)) || has(front, zone.code)
}

/// Whether a zone is a COR and no position.
fn places_nothing(zone: &Zone<'_>) -> bool
    ensures { IsTrue result ↔ ((has_code (codes "COR") (entry zone.now) ≡ true) × ((p : Points)
        → ¬ (IsPosition (entry zone.now).value p))) }
{
    zone.code == COR && is_no_position(zone.value.as_slice())
}

/// Whether a zone is a second COR of a node.
fn is_second_position(group: &[Zone<'_>], front: &[Zone<'_>], zone: &Zone<'_>) -> bool
    ensures { IsTrue result ↔ ((is_typed (codes "PNO") (entries group.now) ≡ true)
        × IsSecond (codes "COR") (entries front.now) (entry zone.now)) }
{
    is_of_type(group, b"PNO") && is_second(COR, front, zone)
}

/// Whether two texts are the same.
pub(crate) fn is_same(text: &[u8], other: &[u8]) -> bool
    ensures { IsTrue result ↔ (text.now ≡ other.now) }
{
    text == other
}

/// Whether a pointer names a record of a type.
fn names_type(rty: &[u8], text: &[u8]) -> bool
    ensures { IsTrue result ↔ NamesType rty.now text.now }
{
    match Pointer::read(text) {
        Some(pointer) => is_same(pointer.rty, rty),
        None => false,
    }
}

/// Whether a zone is an end that names a record of a type.
fn ends_at(rty: [u8; 3], zone: &Zone<'_>) -> bool
    ensures { IsTrue result ↔ ((has_code (codes "FTP") (entry zone.now) ≡ true)
        × NamesType rty (entry zone.now).value) }
{
    zone.code == FTP && names_type(&rty, zone.value.as_slice())
}

/// Whether a zone of a record, with those in front of it and those behind it, passes a test.
fn passes(
    group: &[Zone<'_>],
    front: Front<'_, '_>,
    zone: &Zone<'_>,
    behind: &[Zone<'_>],
    test: ZoneTest,
) -> bool
    requires { LeaveOpen front.is_open (entries front.zones.now) }
    ensures { IsTrue result ↔ Passes (entries group.now) (entries front.entry.zones.now) (entry zone.now)
        (entries behind.now) test }
{
    match test {
        ZoneTest::OfCode(code) => zone.code == code,
        ZoneTest::LastOf(code) => zone.code == code && !has(behind, code),
        ZoneTest::BadIdentifier => names_nothing(zone) || is_second(RID, front.zones, zone),
        ZoneTest::NoPointer(code) => points_nowhere(code, zone),
        ZoneTest::BadClass => points_nowhere(SCP, zone) || is_second(SCP, front.zones, zone),
        ZoneTest::BadCount => miscounts(group, front.zones, zone),
        ZoneTest::BadPosition => places_nothing(zone)
            || is_second_position(group, front.zones, zone),
        ZoneTest::UnknownPointer => is_unknown_pointer(group, front, zone),
        ZoneTest::EndOf(rty) => ends_at(rty, zone),
    }
}

/// Whether the zone at a place of a record passes a test, where the zones in front leave an attribute open or not.
/// Places are counted from 0.
fn passes_at(group: &[Zone<'_>], is_open: bool, test: ZoneTest, place: usize) -> bool
    requires within { place < length group.now }
    requires open { LeaveOpen is_open (entries (take place group.now)) }
    ensures { IsTrue result ↔ PassesAt test (entries group.now) place }
{
    let front = Front {
        zones: &group[..place],
        is_open,
    };
    passes(group, front, &group[place], &group[place + 1..], test)
}

/// The first zone of a record that passes a test.
fn first_passing<'a, 'b>(group: &'b [Zone<'a>], test: ZoneTest) -> Option<&'b Zone<'a>>
    ensures { MatchOption result ((z : ZoneData) → ¬ (IsFirstPassing test (entries group.now) z))
        (λ z. IsFirstPassing test (entries group.now) (entry z.now)) }
{
    let mut is_open = false;
    for place in 0..group.len() {
        if passes_at(group, is_open, test, place) {
            return Some(&group[place]);
        }
        is_open = is_open_behind(is_open, &group[place]);
    }
    None
}

/// How many zones there are that a zone with this code counts, if it counts any.
fn count_beside(group: &[Zone<'_>], code: [u8; 3]) -> Option<usize>
    ensures { result ≡ count_beside_code (entries group.now) code }
{
    let counted = counted_by(group, code)?;
    Some(count_of_code(group, counted))
}

/// The zone with which a record breaks a rule, and how many zones it should count: the first that passes the test of
/// the rule. `None` where the rule has no test, and where no zone of the record passes it.
pub(crate) fn breaking_zone<'a, 'b>(
    group: &'b [Zone<'a>],
    rule: u16,
) -> Option<(&'b Zone<'a>, Option<usize>)>
    ensures { MatchOption result ((z : ZoneData) (count : Option ℕ)
        → ¬ (IsBreakingZoneOf (entries group.now) rule z count))
        (λ found. IsBreakingZoneOf (entries group.now) rule (entry found.0.now) found.1) }
{
    let test = test_of(rule)?;
    let zone = first_passing(group, test)?;
    Some((zone, count_beside(group, zone.code)))
}
