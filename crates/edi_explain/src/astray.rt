//! The zone with which a record breaks rule 303 or 304: a pointer that names what it may not.

ghost use Rattle.std.specs.Prelude.{◌≡◌, ◌≢◌, ◌↔◌, ◌<◌, ℕ, List, None, true, IfOk, IsTrue, MatchOption, Option, Some, codes, length, option_map};
ghost use Rattle.edi_line.specs.ZoneData.{ZoneData, entries, entry, has_code};
ghost use Rattle.edi_schema.specs.Classes.{place_of};
ghost use Rattle.edi_explain.specs.AstrayZones.{AreApart, IsAstray, IsAstrayAt, IsFirstAstray, IsZoneOfRecord, NamesNoAttribute};

use crate::breaking::breaking_zone;
use edi_line::{Text, Zone};
use edi_record::{Name, Pointer};
use edi_schema::Schema;
use std::alloc::{AllocError, Global};

const ATP: [u8; 3] = *b"ATP";

const FTP: [u8; 3] = *b"FTP";

/// Whether two texts differ.
fn differ(text: &[u8], other: &[u8]) -> bool
    ensures { IsTrue result ↔ (text.now ≢ other.now) }
{
    text != other
}

/// Whether the schema has no class of this type and identifier.
fn has_no_class(alloc: Global, schema: &Schema, rty: &[u8], rid: &[u8]) -> Result<bool, AllocError>
    ensures { IfOk result (λ t. IsTrue t ↔ (place_of schema.now (record { rty = rty.now; rid = rid.now }) ≡ None)) }
{
    let name = Name {
        rty: Text::from_slice(alloc, rty)?,
        rid: Text::from_slice(alloc, rid)?,
    };
    Ok(schema.class(&name).is_none())
}

/// Whether a pointer names no class of an attribute.
fn names_no_attribute(alloc: Global, schema: &Schema, text: &[u8]) -> Result<bool, AllocError>
    ensures { IfOk result (λ t. IsTrue t ↔ NamesNoAttribute schema.now text.now) }
{
    let Some(pointer) = Pointer::read(text) else {
        return Ok(true);
    };
    if differ(pointer.rty, b"ATT") {
        return Ok(true);
    }
    has_no_class(alloc, schema, pointer.rty, pointer.rid)
}

/// Whether two pointers are of different lots or subsets.
pub(crate) fn are_apart(text: &[u8], other: &[u8]) -> bool
    ensures { IsTrue result ↔ AreApart text.now other.now }
{
    let Some(pointer) = Pointer::read(text) else {
        return false;
    };
    let Some(named) = Pointer::read(other) else {
        return false;
    };
    differ(pointer.lot, named.lot) || differ(pointer.subset, named.subset)
}

/// Whether a zone is an end and is apart from an end, if there is one.
fn leaves(end: Option<&[u8]>, zone: &Zone<'_>) -> bool
    ensures { IsTrue result ↔ ((has_code (codes "FTP") (entry zone.now) ≡ true)
        × ((text : List ℕ) × (option_map (λ e. e.now) end.entry ≡ Some text) × AreApart (entry zone.now).value text)) }
{
    match end {
        Some(end) => zone.code == FTP && are_apart(zone.value.as_slice(), end),
        None => false,
    }
}

/// Whether a zone is the class of an attribute and names none.
fn lacks_attribute(alloc: Global, schema: &Schema, zone: &Zone<'_>) -> Result<bool, AllocError>
    ensures { IfOk result (λ t. IsTrue t ↔ ((has_code (codes "ATP") (entry zone.now) ≡ true)
        × NamesNoAttribute schema.now (entry zone.now).value)) }
{
    if zone.code == ATP {
        names_no_attribute(alloc, schema, zone.value.as_slice())
    } else {
        Ok(false)
    }
}

/// Whether a zone breaks 303, or 304 with this end.
fn is_astray(
    alloc: Global,
    schema: &Schema,
    end: Option<&[u8]>,
    rule: u16,
    zone: &Zone<'_>,
) -> Result<bool, AllocError>
    ensures { IfOk result (λ t. IsTrue t ↔
        IsAstray schema.now (option_map (λ e. e.now) end.entry) rule (entry zone.now)) }
{
    match rule {
        303 => lacks_attribute(alloc, schema, zone),
        304 => Ok(leaves(end, zone)),
        _ => Ok(false),
    }
}

/// The first zone of a record that breaks 303, or 304 with this end.
fn first_astray<'a, 'b>(
    alloc: Global,
    schema: &Schema,
    end: Option<&[u8]>,
    rule: u16,
    group: &'b [Zone<'a>],
) -> Result<Option<&'b Zone<'a>>, AllocError>
    ensures { IfOk result (λ found. MatchOption found
        ((z : ZoneData) → ¬ (IsFirstAstray schema.now (option_map (λ e. e.now) end.entry) rule (entries group.now) z))
        (λ z. IsFirstAstray schema.now (option_map (λ e. e.now) end.entry) rule (entries group.now) (entry z.now))) }
{
    for place in 0..group.len() {
        if is_astray(alloc, schema, end, rule, &group[place])? {
            return Ok(Some(&group[place]));
        }
    }
    Ok(None)
}

/// The zone with which a record of a sheet breaks a rule, with this first end of all links, and how many zones it
/// should count. `None` where the rule isn't of one zone, and where no zone of the record breaks it.
pub(crate) fn zone_of_record<'a, 'b>(
    alloc: Global,
    schema: &Schema,
    group: &'b [Zone<'a>],
    end: Option<&[u8]>,
    rule: u16,
) -> Result<Option<(&'b Zone<'a>, Option<usize>)>, AllocError>
    ensures { IfOk result (λ found. MatchOption found ((z : ZoneData) (count : Option ℕ)
        → ¬ (IsZoneOfRecord schema.now (entries group.now) (option_map (λ e. e.now) end.entry) rule z count))
        (λ f. IsZoneOfRecord schema.now (entries group.now) (option_map (λ e. e.now) end.entry) rule
        (entry f.0.now) f.1)) }
{
    if let Some(found) = breaking_zone(group, rule) {
        return Ok(Some(found));
    }
    match first_astray(alloc, schema, end, rule, group)? {
        Some(zone) => Ok(Some((zone, None))),
        None => Ok(None),
    }
}
