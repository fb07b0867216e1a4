//! Whether the zones of a record break the rules 201 to 208, each rule by itself.

ghost use Rattle.std.specs.Prelude.{◌≡◌, ◌∷◌, [], List, codes, length, is_none, true, false, MatchOption};
ghost use Rattle.std.specs.List.{list_any, before_first};
ghost use Rattle.edi_line.specs.ZoneData.{ZoneData, entry, entries, has_code};
ghost use Rattle.edi_record.specs.Records.{values, points_at};
ghost use Rattle.edi_record.specs.inner.GroupRules.{closes_by, repeats_from, stretch_with_one, bad_ends};
ghost use Rattle.edi_record.specs.inner.Records.{zones_placed, is_open_after, is_extra as is_extra_zone};
ghost use Rattle.edi_record.specs.inner.RecordRules.{kind_in, has_no_kind, has_no_class, some_no_pointer as some_no_pointer_text, repeats_code as repeats_code, has_bad_attribute as bad_attribute, counts_wrong as counts_wrong_by, has_wrong_count as wrong_count, has_bad_point as bad_point, has_bad_end as bad_end, is_unknown_pointer, has_unknown_pointer as unknown_pointer};
ghost use Rattle.edi_record.specs.inner.Stored.{is_stray};
ghost use Rattle.edi_record.specs.inner.Texts.{pointer, point_in};

use crate::counts::says;
use crate::extras::is_pointer;
use crate::groups::{cut_value, first_value, only_value};
use crate::pointer::Pointer;
use crate::record::{Kind, Point};
use crate::role::{ZoneRole, role_of};
use crate::stating::kind_named;
use edi_line::Zone;
use edi_line::codes::RTY;

const SCP: [u8; 3] = *b"SCP";

const ATC: [u8; 3] = *b"ATC";

const ATP: [u8; 3] = *b"ATP";

const ATV: [u8; 3] = *b"ATV";

const TEX: [u8; 3] = *b"TEX";

const PTC: [u8; 3] = *b"PTC";

const COR: [u8; 3] = *b"COR";

const FTC: [u8; 3] = *b"FTC";

const FTP: [u8; 3] = *b"FTP";

const SNS: [u8; 3] = *b"SNS";

/// The type of a record, if it is one of the five.
fn kind_of(group: &[Zone<'_>]) -> Option<Kind>
    ensures { result ≡ kind_in (entries group.now) }
{
    kind_named(first_value(group, RTY)?)
}

/// How many zones have a code.
fn count_of(zones: &[Zone<'_>], code: [u8; 3]) -> usize
    ensures { result ≡ length (values code (entries zones.now)) }
{
    let mut count = 0;
    let mut left = zones;
    while let [zone, behind @ ..] = left {
        if zone.code == code {
            count += 1;
        }
        left = behind;
    }
    count
}

/// Whether a text is no pointer.
fn is_no_pointer(text: &[u8]) -> bool
    ensures { result ≡ is_none (pointer text.now) }
{
    Pointer::read(text).is_none()
}

/// Whether the value of some zone with a code is no pointer.
fn some_no_pointer(zones: &[Zone<'_>], code: [u8; 3]) -> bool
    ensures { result ≡ some_no_pointer_text (values code (entries zones.now)) }
{
    let mut left = zones;
    while let [zone, behind @ ..] = left {
        if zone.code == code && is_no_pointer(zone.value.as_slice()) {
            return true;
        }
        left = behind;
    }
    false
}

/// Whether the value of some zone with a code is no position.
fn some_no_position(zones: &[Zone<'_>], code: [u8; 3]) -> bool
    ensures { result ≡ list_any (λ text. is_none (point_in text)) (values code (entries zones.now)) }
{
    let mut left = zones;
    while let [zone, behind @ ..] = left {
        if zone.code == code && Point::read(zone.value.as_slice()).is_none() {
            return true;
        }
        left = behind;
    }
    false
}

/// What has come of the stretch of zones that is open.
#[derive(Clone, Copy)]
enum Stretch {
    Closed,
    Opened,
    HasOne,
}

impl Stretch {
    /// What has come with one zone more, unless the code comes twice then.
    fn next(
        self,
        zone: &Zone<'_>,
        opens: [u8; 3],
        closes: [u8; 3],
        code: [u8; 3],
    ) -> Option<Stretch>
        ensures { MatchOption result
            ((left : List ZoneData) → repeats_from self opens closes code (entry zone.now ∷ left) ≡ true)
            (λ next. (left : List ZoneData) → repeats_from self opens closes code (entry zone.now ∷ left)
            ≡ repeats_from next opens closes code left) }
    {
        if zone.code == opens {
            return Some(Stretch::Opened);
        }
        if zone.code == closes {
            return Some(Stretch::Closed);
        }
        if zone.code == code {
            return self.with_one();
        }
        Some(self)
    }

    /// What has come with the code, unless it comes twice then.
    fn with_one(self) -> Option<Stretch>
        ensures { result ≡ stretch_with_one self }
    {
        match self {
            Stretch::Closed => Some(Stretch::Closed),
            Stretch::Opened => Some(Stretch::HasOne),
            Stretch::HasOne => None,
        }
    }
}

/// Whether a code comes twice among the zones behind one that opens a stretch, before the next that opens or closes one.
fn repeats(zones: &[Zone<'_>], opens: [u8; 3], closes: [u8; 3], code: [u8; 3]) -> bool
    ensures { result ≡ repeats_code (has_code opens) (closes_by opens closes) code (entries zones.now) }
{
    let mut stretch = Stretch::Closed;
    let mut left = zones;
    while let [zone, behind @ ..] = left {
        match stretch.next(zone, opens, closes, code) {
            Some(next) => stretch = next,
            None => return true,
        }
        left = behind;
    }
    false
}

/// Whether rule 201 is broken: the type isn't one of the five.
pub(crate) fn lacks_kind(group: &[Zone<'_>]) -> bool
    ensures { result ≡ has_no_kind (entries group.now) }
{
    kind_of(group).is_none()
}

/// Whether rule 203 is broken: there isn't exactly one SCP that is a pointer.
pub(crate) fn lacks_class(group: &[Zone<'_>]) -> bool
    ensures { result ≡ has_no_class (entries group.now) }
{
    match only_value(group, SCP) {
        Some(text) => is_no_pointer(text),
        None => true,
    }
}

/// Whether an attribute is open behind a zone, where one is open before it or none is.
fn is_open_behind(is_open: bool, zone: &Zone<'_>) -> bool
    ensures { result ≡ is_open_after is_open (entry zone.now) }
{
    if zone.code == ATP {
        return true;
    }
    if zone.code == ATV {
        return false;
    }
    is_open
}

/// Whether a zone is a value where no attribute is open.
fn is_stray_value(is_open: bool, zone: &Zone<'_>) -> bool
    ensures { result ≡ is_stray (record { open_before = is_open; zone = entry zone.now }) }
{
    zone.code == ATV && !is_open
}

/// Whether a value comes where no attribute is open.
fn has_stray_value(group: &[Zone<'_>]) -> bool
    ensures { result ≡ list_any is_stray (zones_placed false (entries group.now)) }
{
    let mut is_open = false;
    let mut left = group;
    while let [zone, behind @ ..] = left {
        if is_stray_value(is_open, zone) {
            return true;
        }
        is_open = is_open_behind(is_open, zone);
        left = behind;
    }
    false
}

/// Whether rule 204 is broken: an ATP is no pointer, an ATV comes where no attribute is open, or a second TEX in one
/// open attribute.
pub(crate) fn has_bad_attribute(group: &[Zone<'_>]) -> bool
    ensures { result ≡ bad_attribute (entries group.now) }
{
    if some_no_pointer(group, ATP) {
        return true;
    }
    if has_stray_value(group) {
        return true;
    }
    repeats(group, ATP, ATV, TEX)
}

/// Whether the zones with one code aren't as many as the zone with the other says.
fn counts_wrong(group: &[Zone<'_>], counting: [u8; 3], counted: [u8; 3]) -> bool
    ensures { result ≡ counts_wrong_by counting counted (entries group.now) }
{
    let Some((text, rest)) = cut_value(group, counting) else {
        return false;
    };
    cut_value(rest, counting).is_some() || !says(text, count_of(group, counted))
}

/// Whether rule 205 is broken: a wrong ATC, a wrong PTC of an arc, or a wrong FTC of a link.
pub(crate) fn has_wrong_count(group: &[Zone<'_>]) -> bool
    ensures { result ≡ wrong_count (entries group.now) }
{
    if counts_wrong(group, ATC, ATP) {
        return true;
    }
    match kind_of(group) {
        Some(Kind::Par) => counts_wrong(group, PTC, COR),
        Some(Kind::Lnk) => counts_wrong(group, FTC, FTP),
        _ => false,
    }
}

/// Whether rule 206 is broken: a COR of a node or an arc is no position, a node hasn't exactly one, or an arc has fewer
/// than two.
pub(crate) fn has_bad_point(group: &[Zone<'_>]) -> bool
    ensures { result ≡ bad_point (entries group.now) }
{
    match kind_of(group) {
        Some(Kind::Pno) => some_no_position(group, COR) || count_of(group, COR) != 1,
        Some(Kind::Par) => some_no_position(group, COR) || count_of(group, COR) < 2,
        _ => false,
    }
}

/// Whether an SNS comes before any FTP.
fn has_stray_sense(group: &[Zone<'_>]) -> bool
    ensures { result ≡ list_any (has_code (codes "SNS")) (before_first points_at (entries group.now)) }
{
    let mut left = group;
    while let [zone, behind @ ..] = left {
        if zone.code == FTP {
            return false;
        }
        if zone.code == SNS {
            return true;
        }
        left = behind;
    }
    false
}

/// Whether an FTP is no pointer, there are fewer than two, or an SNS comes before any or twice behind one.
fn has_bad_ends(group: &[Zone<'_>]) -> bool
    ensures { result ≡ bad_ends (entries group.now) }
{
    if some_no_pointer(group, FTP) {
        return true;
    }
    if count_of(group, FTP) < 2 {
        return true;
    }
    if has_stray_sense(group) {
        return true;
    }
    repeats(group, FTP, FTP, SNS)
}

/// Whether rule 207 is broken: the ends of a link aren't in order.
pub(crate) fn has_bad_end(group: &[Zone<'_>]) -> bool
    ensures { result ≡ bad_end (entries group.now) }
{
    match kind_of(group) {
        Some(Kind::Lnk) => has_bad_ends(group),
        _ => false,
    }
}

/// Whether a zone is an extra of a record of this type.
fn is_extra(kind: Kind, is_open: bool, zone: &Zone<'_>) -> bool
    ensures { result ≡ is_extra_zone kind (record { open_before = is_open; zone = entry zone.now }) }
{
    match role_of(kind, zone.code) {
        ZoneRole::Unknown => true,
        ZoneRole::AttributeSet => !is_open,
        _ => false,
    }
}

/// Whether a zone is an extra that is a pointer and isn't empty.
fn is_unknown(kind: Kind, is_open: bool, zone: &Zone<'_>) -> bool
    ensures { result ≡ is_unknown_pointer kind (record { open_before = is_open; zone = entry zone.now }) }
{
    is_extra(kind, is_open, zone) && is_pointer(zone)
}

/// Whether some extra of a record of this type is a pointer and isn't empty.
fn has_unknown(kind: Kind, group: &[Zone<'_>]) -> bool
    ensures { result ≡ list_any (is_unknown_pointer kind) (zones_placed false (entries group.now)) }
{
    let mut is_open = false;
    let mut left = group;
    while let [zone, behind @ ..] = left {
        if is_unknown(kind, is_open, zone) {
            return true;
        }
        is_open = is_open_behind(is_open, zone);
        left = behind;
    }
    false
}

/// Whether rule 208 is broken: an extra is a pointer and isn't empty.
pub(crate) fn has_unknown_pointer(group: &[Zone<'_>]) -> bool
    ensures { result ≡ unknown_pointer (entries group.now) }
{
    match kind_of(group) {
        Some(kind) => has_unknown(kind, group),
        None => false,
    }
}
