//! Why a line of a pairing's file is wrong.

ghost use Rattle.std.specs.Prelude.{◌≡◌, ◌≢◌, ℕ, ◌+◌, ◌<◌, Bool, List, ◌∷◌, ◌++◌, MatchOption, false, length};
ghost use Rattle.std.specs.Bool.{MatchBool};
ghost use Rattle.std.specs.List.{list_any};
ghost use Rattle.edi_line.specs.Bytes.{semicolon};
ghost use Rattle.edi_record.specs.inner.RecordRules.{kind_named as kind_by};
ghost use Rattle.edi_pairing.specs.Names.{is_mark, name_at};
ghost use Rattle.edi_pairing.specs.PairingText.{head, line_end};
ghost use Rattle.edi_pairing.specs.WrongLines.{HasIdentifier, HasName, IsFirstReason, IsLineOf};
ghost use Rattle.edi_pairing.specs.inner.Reading.{BeginsWith};
ghost use Rattle.edi_pairing.specs.inner.Wrong.{IsNoPair, IsUnreadLine, BeginsWithLine};
ghost use Rattle.edi_pairing.specs.declared.names.RecordName.{RecordName as Name};

use crate::fault::WrongLine;
use crate::lines::{behind, behind_end, cut_at_mark};
use crate::names::RecordName;
use edi_record::Kind;
use memchr::memchr;

/// A line in form: the type and the identifier of its record, and its second identifier.
#[derive(Clone, Copy)]
struct LineParts<'f> {
    kind: Kind,
    rid: &'f [u8],
    other: &'f [u8],
}

/// Why a file doesn't begin with the first line of a pairing.
pub(crate) fn why_no_head(first: &[RecordName], second: &[RecordName], file: &[u8]) -> WrongLine
    ensures { (next : Name) → IsFirstReason first.now second.now 1 next file.now result }
{
    match why_unread(file) {
        Some(why) => why,
        None => WrongLine::Head,
    }
}

/// Why a text doesn't begin with the line of the next record.
pub(crate) fn why_no_line(
    first: &[RecordName],
    second: &[RecordName],
    place: usize,
    text: &[u8],
) -> WrongLine
    requires within { place < length first.now }
    requires none { (to : ℕ) (turned : Bool) (rest : List ℕ)
        → ¬ (BeginsWith second.now (name_at first.now place) text.now to turned rest) }
    ensures { IsFirstReason first.now second.now (place + 2) (name_at first.now place) text.now result }
{
    if let Some(why) = why_unread(text) {
        return why;
    }
    match parts_of(text) {
        Some(parts) => why_no_pair(first, second, &first[place], parts),
        None => WrongLine::Form,
    }
}

/// Why a text can't be read as a line.
fn why_unread(text: &[u8]) -> Option<WrongLine>
    ensures { MatchOption result (BeginsWithLine text.now) (IsUnreadLine text.now) }
{
    if text.is_empty() {
        return Some(WrongLine::Missing);
    }
    let Some(at) = memchr(b'\n', text) else {
        return Some(WrongLine::Unended);
    };
    if at > 0 && text[at - 1] == b'\r' {
        return Some(WrongLine::CarriageReturn);
    }
    None
}

/// The parts of the first line of a text, if it is in form.
fn parts_of(text: &[u8]) -> Option<LineParts<'_>>
    ensures { MatchOption result ((name : Name) (other : List ℕ) → ¬ (IsLineOf text.now name other))
        (λ p. IsLineOf text.now (record { kind = p.kind; rid = p.rid.now }) p.other.now) }
{
    let Some((code, rest)) = field_at(text) else {
        return None;
    };
    let Some(kind) = kind_named(code) else {
        return None;
    };
    let Some((rid, rest)) = field_at(rest) else {
        return None;
    };
    match last_at(rest) {
        Some(other) => Some(LineParts { kind, rid, other }),
        None => None,
    }
}

/// What stands before the first semicolon of a line, and what behind it.
fn field_at(text: &[u8]) -> Option<(&[u8], &[u8])>
    ensures { MatchOption result ((field : List ℕ) (rest : List ℕ) → list_any is_mark field ≡ false
        → text.now ≢ field ++ semicolon ∷ rest)
        (λ r. (list_any is_mark r.0.now ≡ false) × (text.now ≡ r.0.now ++ semicolon ∷ r.1.now)) }
{
    let Some((field, end)) = cut_at_mark(text) else {
        return None;
    };
    match behind(end, b";") {
        Some(rest) => Some((field, rest)),
        None => None,
    }
}

/// What stands before the end of a line.
fn last_at(text: &[u8]) -> Option<&[u8]>
    ensures { MatchOption result ((field : List ℕ) (turned : Bool) (rest : List ℕ) → list_any is_mark field ≡ false
        → text.now ≢ field ++ (line_end turned ++ rest))
        (λ f. (list_any is_mark f.now ≡ false)
        × ((turned : Bool) × (rest : List ℕ) × (text.now ≡ f.now ++ (line_end turned ++ rest)))) }
{
    let Some((field, end)) = cut_at_mark(text) else {
        return None;
    };
    match behind_end(end) {
        Some(_) => Some(field),
        None => None,
    }
}

/// The type that a code names.
pub(crate) fn kind_named(code: &[u8]) -> Option<Kind>
    ensures { result ≡ kind_by code.now }
{
    match code {
        b"PNO" => Some(Kind::Pno),
        b"PAR" => Some(Kind::Par),
        b"PFE" => Some(Kind::Pfe),
        b"FEA" => Some(Kind::Fea),
        b"LNK" => Some(Kind::Lnk),
        _ => None,
    }
}

/// Why a line in form doesn't pair the next record of A.
fn why_no_pair(
    first: &[RecordName],
    second: &[RecordName],
    next: &RecordName,
    parts: LineParts<'_>,
) -> WrongLine
    ensures { IsNoPair first.now second.now next.now
        (record { kind = parts.entry.kind; rid = parts.entry.rid.now }) parts.entry.other.now result }
{
    if is_named(next, parts.kind, parts.rid) {
        if has_identifier(second, parts.other) {
            return WrongLine::OtherType;
        }
        return WrongLine::NoPartner;
    }
    if has_name(first, parts.kind, parts.rid) {
        return WrongLine::OtherRecord;
    }
    if has_name(second, parts.kind, parts.rid) {
        return WrongLine::SecondSheet;
    }
    WrongLine::NoRecord
}

/// Whether a record has this name.
fn is_named(name: &RecordName, kind: Kind, rid: &[u8]) -> bool
    ensures { MatchBool result (name.now ≡ record { kind = kind; rid = rid.now })
        (name.now ≢ record { kind = kind; rid = rid.now }) }
{
    name.kind == kind && name.rid.as_slice() == rid
}

/// Whether one of the names is this.
fn has_name(names: &[RecordName], kind: Kind, rid: &[u8]) -> bool
    ensures { MatchBool result (HasName names.now (record { kind = kind; rid = rid.now }))
        (¬ (HasName names.now (record { kind = kind; rid = rid.now }))) }
{
    for name in names {
        if is_named(name, kind, rid) {
            return true;
        }
    }
    false
}

/// Whether one of the names has this identifier.
fn has_identifier(names: &[RecordName], rid: &[u8]) -> bool
    ensures { MatchBool result (HasIdentifier names.now rid.now) (¬ (HasIdentifier names.now rid.now)) }
{
    for name in names {
        if name.rid.as_slice() == rid {
            return true;
        }
    }
    false
}
