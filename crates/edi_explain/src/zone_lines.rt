//! The line on the zone with which a record breaks a rule.

ghost use Rattle.std.specs.Prelude.{◌≡◌, ◌≢◌, ◌++◌, ℕ, List, Option, suc, IfOk, OnOk, codes, option_and_then, option_map, unwrap_or};
ghost use Rattle.edi_line.specs.ZoneData.{ZoneData, entries, entry, first};
ghost use Rattle.edi_line.specs.Zones.{groups_of};
ghost use Rattle.edi_record.specs.Records.{values};
ghost use Rattle.edi_schema.specs.Classes.{Classes};
ghost use Rattle.edi_explain.specs.AstrayZones.{IsZoneOfRecord, IsZoneOfSheet, first_end_at};
ghost use Rattle.edi_explain.specs.BreakingZones.{IsBreakingZone, IsBreakingZoneOf};
ghost use Rattle.edi_explain.specs.Lines.{position_text, rule_mark};
ghost use Rattle.edi_explain.specs.inner.LostEnds.{IsLostEndOf};
ghost use Rattle.edi_explain.specs.inner.Found.{AreFound};
ghost use Rattle.edi_explain.specs.ZoneLines.{IsSaidOfZone, IsZoneLine, count_text, second_sentence, zone_line, zone_sentence};
ghost use Rattle.edi_shown.specs.Shown.{shown_bytes};

use crate::astray::zone_of_record;
use crate::breaking::breaking_zone;
use crate::lines::{push_position, push_sentence};
use crate::lost_ends::{first_lost_end, names_of_records};
use crate::refused::FoundRecords;
use crate::right_texts::is_right_text;
use edi_line::{Zone, push_number};
use edi_record::first_value;
use edi_schema::Schema;
use edi_shown::push_shown;
use std::alloc::{AllocError, Global};

const FTP: [u8; 3] = *b"FTP";

/// What is said of a zone whose text is right, but which is a second one.
fn sentence_of_second(rule: u16) -> &'static [u8]
    ensures { result.now ≡ second_sentence rule }
{
    match rule {
        203 => b"a second class",
        205 => b"a second count",
        206 => b"a second position of the node",
        _ => b"a second identifier",
    }
}

/// What is said of any other zone with which a record breaks a rule.
fn sentence_of_zone(rule: u16) -> &'static [u8]
    ensures { result.now ≡ zone_sentence rule }
{
    match rule {
        202 | 601 => b"no identifier",
        203 | 204 | 207 => b"no pointer",
        205 => b"not the count",
        206 => b"no position",
        208 => b"a pointer that isn't known",
        301 | 602 => b"the identifier",
        302 => b"the class",
        303 => b"no class of an attribute",
        304 => b"another lot or subset",
        305 => b"no node, arc, face or object",
        306 => b"the class, which is of a kind",
        307 => b"the arc",
        401 => b"the first point",
        402 => b"the last point",
        403 => b"the position",
        603 => b"the word of the class",
        _ => b"",
    }
}

/// Appends how many there are of what a zone counts, if it counts any.
fn push_count(text: &mut Vec<u8>, count: Option<usize>) -> Result<(), AllocError>
    ensures { OnOk result (text.new.items ≡ text.old.items ++ count_text count) }
{
    let Some(count) = count else {
        return Ok(());
    };
    text.extend_from_slice(b"; there are ")?;
    push_number(text, count as u64)
}

/// Appends where a zone stands, its code and its value.
fn push_zone(text: &mut Vec<u8>, name: &[u8], zone: &Zone<'_>) -> Result<(), AllocError>
    ensures { OnOk result (text.new.items ≡ text.old.items ++ (position_text name.now zone.now.line
        ++ (entry zone.now).code ++ codes " "
        ++ shown_bytes (entry zone.now).value)) }
{
    push_position(text, name, zone.line)?;
    text.extend_from_slice(&zone.code)?;
    text.extend_from_slice(b" ")?;
    push_shown(text, zone.value.as_slice())
}

/// Appends what is said of the zone with which a record breaks a rule, which should count so many.
fn push_said(
    text: &mut Vec<u8>,
    zone: &Zone<'_>,
    count: Option<usize>,
    rule: u16,
) -> Result<(), AllocError>
    ensures { OnOk result ((said : List ℕ) × IsSaidOfZone rule (entry zone.now) count said
        × (text.new.items ≡ text.old.items ++ said)) }
{
    if is_right_text(rule, count, zone.value.as_slice()) {
        return text.extend_from_slice(sentence_of_second(rule));
    }
    text.extend_from_slice(sentence_of_zone(rule))?;
    push_count(text, count)
}

/// Appends the line on a zone.
fn push_line(
    text: &mut Vec<u8>,
    name: &[u8],
    zone: &Zone<'_>,
    count: Option<usize>,
    rule: u16,
) -> Result<(), AllocError>
    ensures { OnOk result ((said : List ℕ) × IsSaidOfZone rule (entry zone.now) count said
        × (text.new.items ≡ text.old.items ++ zone_line name.now (entry zone.now) said rule)) }
{
    push_zone(text, name, zone)?;
    text.extend_from_slice(b": ")?;
    push_said(text, zone, count, rule)?;
    push_sentence(text, b"", rule)
}

/// The line on the zone with which a record breaks a rule of schemas, if there is such a zone.
fn line_of_row(
    alloc: Global,
    group: &[Zone<'_>],
    name: &[u8],
    rule: u16,
) -> Result<Vec<u8>, AllocError>
    ensures { IfOk result (λ lines. IsZoneLine (IsBreakingZoneOf (entries group.now) rule) name.now rule lines.items) }
{
    let mut text = Vec::new(alloc);
    let Some((zone, count)) = breaking_zone(group, rule) else {
        return Ok(text);
    };
    push_line(&mut text, name, zone, count, rule)?;
    Ok(text)
}

/// The same of a sheet, with the first end of all links.
fn line_of_record(
    alloc: Global,
    schema: &Schema,
    group: &[Zone<'_>],
    name: &[u8],
    end: Option<&[u8]>,
    rule: u16,
) -> Result<Vec<u8>, AllocError>
    ensures { IfOk result (λ lines. IsZoneLine (IsZoneOfRecord schema.now (entries group.now)
        (option_map (λ e. e.now) end.entry) rule) name.now rule lines.items) }
{
    let mut text = Vec::new(alloc);
    let Some((zone, count)) = zone_of_record(alloc, schema, group, end, rule)? else {
        return Ok(text);
    };
    push_line(&mut text, name, zone, count, rule)?;
    Ok(text)
}

/// The first end of a record whose zones may have been found, if it has one.
fn end_of<'b>(found: Option<&'b [Zone<'_>]>) -> Option<&'b [u8]>
    ensures { option_map (λ e. e.now) result ≡ option_and_then (λ group. first (values (codes "FTP") group))
        (option_map (λ g. entries g.now) found.entry) }
{
    match found {
        Some(group) => first_value(group, FTP),
        None => None,
    }
}

/// The first end of all links: that of the earlier record that rule 304 speaks of, or else of the refused one.
fn first_end<'b>(records: &FoundRecords<'_, 'b>, earlier: Option<u64>) -> Option<&'b [u8]>
    ensures { (zones : List ZoneData) (place : ℕ) → AreFound zones (suc place) earlier records.now
        → option_map (λ e. e.now) result ≡ first_end_at zones (unwrap_or earlier place) }
{
    match earlier {
        Some(_) => end_of(records.earlier),
        None => end_of(records.here),
    }
}

/// The line on the zone with which a record of a schema's file breaks a rule, if there is such a zone. The zones of the
/// record may have been found.
pub(crate) fn explain_zone(
    alloc: Global,
    records: &FoundRecords<'_, '_>,
    name: &[u8],
    rule: u16,
) -> Result<Vec<u8>, AllocError>
    ensures { IfOk result (λ lines. (zones : List ZoneData) (number : ℕ) (earlier : Option ℕ)
        → AreFound zones number earlier records.now
        → IsZoneLine (IsBreakingZone zones rule number) name.now rule lines.items) }
{
    match records.here {
        Some(group) => line_of_row(alloc, group, name, rule),
        None => Ok(Vec::new(alloc)),
    }
}

/// The line on the end with which a record of these zones breaks rule 305, if there is such an end.
fn line_of_lost_end(
    alloc: Global,
    zones: &[Zone<'_>],
    group: &[Zone<'_>],
    name: &[u8],
) -> Result<Vec<u8>, AllocError>
    ensures { IfOk result (λ lines.
        IsZoneLine (IsLostEndOf (groups_of (entries zones.now)) (entries group.now)) name.now 305 lines.items) }
{
    let mut text = Vec::new(alloc);
    let names = names_of_records(alloc, zones)?;
    let Some(zone) = first_lost_end(alloc, &names, group)? else {
        return Ok(text);
    };
    push_line(&mut text, name, zone, None, 305)?;
    Ok(text)
}

/// The same of a record of a sheet whose zones may have been found.
fn explain_lost_end(
    alloc: Global,
    zones: &[Zone<'_>],
    records: &FoundRecords<'_, '_>,
    name: &[u8],
) -> Result<Vec<u8>, AllocError>
    ensures { IfOk result (λ lines. (s : Classes) (number : ℕ) (earlier : Option ℕ)
        → AreFound (entries zones.now) number earlier records.now
        → IsZoneLine (IsZoneOfSheet s (entries zones.now) earlier 305 number) name.now 305 lines.items) }
{
    match records.here {
        Some(group) => line_of_lost_end(alloc, zones, group, name),
        None => Ok(Vec::new(alloc)),
    }
}

/// The line on the zone with which a record of a sheet breaks a rule, if there is such a zone. The zones of the record
/// may have been found among those of the sheet, with those of the earlier one that the rule speaks of.
pub(crate) fn explain_zone_of_sheet(
    alloc: Global,
    schema: &Schema,
    zones: &[Zone<'_>],
    records: &FoundRecords<'_, '_>,
    name: &[u8],
    earlier: Option<u64>,
    rule: u16,
) -> Result<Vec<u8>, AllocError>
    ensures { IfOk result (λ lines. (number : ℕ) → AreFound (entries zones.now) number earlier records.now
        → IsZoneLine (IsZoneOfSheet schema.now (entries zones.now) earlier rule number) name.now rule lines.items) }
{
    if rule == 305 {
        explain_lost_end(alloc, zones, records, name)
    } else {
        explain_zone_of_record(alloc, schema, records, name, earlier, rule)
    }
}

/// The same of another rule than 305.
fn explain_zone_of_record(
    alloc: Global,
    schema: &Schema,
    records: &FoundRecords<'_, '_>,
    name: &[u8],
    earlier: Option<u64>,
    rule: u16,
) -> Result<Vec<u8>, AllocError>
    requires { rule ≢ 305 }
    ensures { IfOk result (λ lines. (zones : List ZoneData) (number : ℕ) → AreFound zones number earlier records.now
        → IsZoneLine (IsZoneOfSheet schema.now zones earlier rule number) name.now rule lines.items) }
{
    let end = first_end(records, earlier);
    match records.here {
        Some(group) => line_of_record(alloc, schema, group, name, end, rule),
        None => Ok(Vec::new(alloc)),
    }
}
