//! The zones of each record.

ghost use Rattle.std.specs.Prelude.{◌≡◌, List, ◌+◌, ◌<◌, ◌≤◌, [], ◌∷◌, ◌==◌, length, position, option_map, MatchOption};
ghost use Rattle.std.specs.List.{position_or_len};
ghost use Rattle.edi_line.specs.ZoneData.{ZoneData, entry, entries, first};
ghost use Rattle.edi_line.specs.Zones.{ends_group, before_end};
ghost use Rattle.edi_record.specs.Records.{values, group_at as group_in};
ghost use Rattle.edi_record.specs.inner.Records.{only};
ghost use Rattle.edi_record.specs.RecordRules.{is_identifier as is_identifier_text, has_no_identifier};

use edi_line::Zone;
use edi_line::codes::{EOM, RID, RTY};

fn end_in(zones: &[Zone<'_>]) -> Option<usize>
    ensures { result ≡ position (λ z. ends_group (entry z)) zones.now }
{
    zones
        .iter()
        .position(|zone| zone.code == RTY || zone.code == EOM)
}

/// How many zones come before the next record or the end.
fn count_to_end(zones: &[Zone<'_>]) -> usize
    ensures place { result ≡ position_or_len (λ z. ends_group (entry z)) zones.now }
    ensures within { result ≤ length zones.now }
{
    match end_in(zones) {
        Some(place) => place,
        None => zones.len(),
    }
}

/// The zones of the record that begins with the first of these, if one does.
pub fn group_here<'a, 'b>(zones: &'b [Zone<'a>]) -> Option<&'b [Zone<'a>]>
    ensures { option_map (λ g. entries g.now) result ≡ group_in (entries zones.now) }
{
    match zones {
        [head, behind @ ..] if head.code == RTY => Some(&zones[..1 + count_to_end(behind)]),
        _ => None,
    }
}

/// The value of the first zone with a code, and the zones behind it.
pub(crate) fn cut_value<'a, 'b>(
    zones: &'b [Zone<'a>],
    code: [u8; 3],
) -> Option<(&'b [u8], &'b [Zone<'a>])>
    ensures { MatchOption result (values code (entries zones.now) ≡ [])
        (λ cut. values code (entries zones.now) ≡ cut.0.now ∷ values code (entries cut.1.now)) }
{
    let mut rest = zones;
    while let [zone, after @ ..] = rest {
        if zone.code == code {
            return Some((zone.value.as_slice(), after));
        }
        rest = after;
    }
    None
}

/// The value of the first zone with a code.
pub fn first_value<'b>(zones: &'b [Zone<'_>], code: [u8; 3]) -> Option<&'b [u8]>
    ensures { option_map (λ v. v.now) result ≡ first (values code (entries zones.now)) }
{
    let (value, _) = cut_value(zones, code)?;
    Some(value)
}

/// The value of the zone with a code, where there is just one.
pub(crate) fn only_value<'b>(zones: &'b [Zone<'_>], code: [u8; 3]) -> Option<&'b [u8]>
    ensures { option_map (λ v. v.now) result ≡ only (values code (entries zones.now)) }
{
    let (value, rest) = cut_value(zones, code)?;
    match cut_value(rest, code) {
        Some(_) => None,
        None => Some(value),
    }
}

/// Whether a text may name a record: 1 to 255 bytes without a semicolon.
pub(crate) fn is_identifier(text: &[u8]) -> bool
    ensures { result ≡ is_identifier_text text.now }
{
    !text.is_empty() && text.len() <= 255 && !text.contains(&b';')
}

/// Whether a record has not exactly one identifier in form: rules 202 and 601.
pub fn lacks_identifier(group: &[Zone<'_>]) -> bool
    ensures { result ≡ has_no_identifier (entries group.now) }
{
    match only_value(group, RID) {
        Some(text) => !is_identifier(text),
        None => true,
    }
}
