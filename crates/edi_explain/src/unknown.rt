//! Zones that aren't known in records of their type.

ghost use Rattle.std.specs.Prelude.{◌≡◌, ◌≢◌, ◌↔◌, [], true, Bool, IsTrue, List, bytes_eq, codes};
ghost use Rattle.std.specs.List.{list_any};
ghost use Rattle.edi_line.specs.ZoneData.{ZoneData, entries, entry, has_code};
ghost use Rattle.edi_record.specs.Bytes.{letter_p};
ghost use Rattle.edi_record.specs.Records.{IsExtraAt, IsOpen, is_known as is_known_code, known_anywhere, known_in};
ghost use Rattle.edi_record.specs.Shapes.{kind_code};
ghost use Rattle.edi_record.specs.declared.record.Kind.{Kind as Kinds};
ghost use Rattle.edi_record.specs.inner.Records.{is_open_after};
ghost use Rattle.edi_explain.specs.BreakingZones.{IsUnknownPointer, is_typed};
ghost use Rattle.edi_explain.specs.inner.OpenAttributes.{LeaveOpen};

use crate::breaking::{Front, is_of_type};
use edi_line::Zone;
use edi_line::codes::{RID, RTY};
use edi_record::Kind;

/// Whether a code is known in every record.
fn is_known_anywhere(code: [u8; 3]) -> bool
    ensures { result ≡ list_any (bytes_eq code) known_anywhere }
{
    code == RTY
        || code == RID
        || code == *b"SCP"
        || code == *b"ATC"
        || code == *b"ATP"
        || code == *b"ATV"
        || code == *b"QAC"
        || code == *b"QAP"
}

/// Whether a code is known in records of this type alone.
fn is_known_in(kind: Kind, code: [u8; 3]) -> bool
    ensures { result ≡ list_any (bytes_eq code) (known_in kind) }
{
    match kind {
        Kind::Pno => code == *b"COR",
        Kind::Par => code == *b"COR" || code == *b"PTC",
        Kind::Pfe | Kind::Fea => false,
        Kind::Lnk => code == *b"FTC" || code == *b"FTP" || code == *b"SNS",
    }
}

/// Whether a code is known in records of this type.
fn is_known(kind: Kind, code: [u8; 3]) -> bool
    ensures { result ≡ is_known_code kind code }
{
    is_known_anywhere(code) || is_known_in(kind, code)
}

/// Whether an attribute is open behind a zone.
pub(crate) fn is_open_behind(is_open: bool, zone: &Zone<'_>) -> bool
    ensures { result ≡ is_open_after is_open (entry zone.now) }
{
    zone.code == *b"ATP" || (zone.code != *b"ATV" && is_open)
}

/// Whether a zone behind others is the character set of an attribute.
fn is_set(front: Front<'_, '_>, zone: &Zone<'_>) -> bool
    requires { LeaveOpen front.is_open (entries front.zones.now) }
    ensures { (result ≡ true) ↔ ((has_code (codes "TEX") (entry zone.now) ≡ true)
        × ((since : List ZoneData) × IsOpen (entries front.entry.zones.now) since)) }
{
    zone.code == *b"TEX" && front.is_open
}

/// Whether a zone behind others isn't known in a record of this type.
fn is_extra(kind: Kind, front: Front<'_, '_>, zone: &Zone<'_>) -> bool
    requires { LeaveOpen front.is_open (entries front.zones.now) }
    ensures { IsTrue result ↔ IsExtraAt kind (entries front.entry.zones.now) (entry zone.now) }
{
    !is_known(kind, zone.code) && !is_set(front, zone)
}

/// Whether a record is of this type, and a zone behind others of it isn't known there.
fn is_extra_of(kind: Kind, group: &[Zone<'_>], front: Front<'_, '_>, zone: &Zone<'_>) -> bool
    requires { LeaveOpen front.is_open (entries front.zones.now) }
    ensures { IsTrue result ↔ ((is_typed (kind_code kind) (entries group.now) ≡ true)
        × IsExtraAt kind (entries front.entry.zones.now) (entry zone.now)) }
{
    is_of_type(group, kind.code()) && is_extra(kind, front, zone)
}

/// Whether a zone of a record, behind others, isn't known in records of its type.
fn is_unknown(group: &[Zone<'_>], front: Front<'_, '_>, zone: &Zone<'_>) -> bool
    requires { LeaveOpen front.is_open (entries front.zones.now) }
    ensures { IsTrue result ↔ ((kind : Kinds) × (is_typed (kind_code kind) (entries group.now) ≡ true)
        × IsExtraAt kind (entries front.entry.zones.now) (entry zone.now)) }
{
    is_extra_of(Kind::Pno, group, front, zone)
        || is_extra_of(Kind::Par, group, front, zone)
        || is_extra_of(Kind::Pfe, group, front, zone)
        || is_extra_of(Kind::Fea, group, front, zone)
        || is_extra_of(Kind::Lnk, group, front, zone)
}

/// Whether a zone is of format `P` and isn't empty.
fn is_full_pointer(zone: &Zone<'_>) -> bool
    ensures { IsTrue result ↔ (((entry zone.now).format ≡ letter_p) × ((entry zone.now).value ≢ [])) }
{
    zone.format == b'P' && !zone.value.as_slice().is_empty()
}

/// Whether a zone of a record, behind others, is a pointer that isn't empty and isn't known in records of its type.
pub(crate) fn is_unknown_pointer(group: &[Zone<'_>], front: Front<'_, '_>, zone: &Zone<'_>) -> bool
    requires { LeaveOpen front.is_open (entries front.zones.now) }
    ensures { IsTrue result ↔ IsUnknownPointer (entries group.now) (entries front.entry.zones.now) (entry zone.now) }
{
    is_full_pointer(zone) && is_unknown(group, front, zone)
}
