//! What differs between two sheets, as lines of JSON.

ghost use Rattle.std.specs.Prelude.{◌≡◌, ◌<◌, ◌∷◌, [], IfOk, OnOk, flat_map, option_copied};
ghost use Rattle.edi_plan.specs.Places.{places_of};
ghost use Rattle.edi_plan.specs.Plans.{IsPlace};
ghost use Rattle.edi_json.specs.Listed.{added, changed, first_listed, gone, listed, listed_of, second_listed};
ghost use Rattle.edi_json.specs.Texts.{ReadsAs, differences_json};
ghost use Rattle.edi_json.specs.Values.{charsets_values, difference_values, listed_values};
ghost use Rattle.edi_json.specs.inner.Lines.{HasLines};

use crate::lines::{self, RecordLine};
use edi_record::Kind;
use edi_report::{NO_PARTS, Reporter, parts_at};
use std::alloc::{AllocError, Global};

/// What differs between two sheets, as lines of JSON (docs/JSON.md). It fails only if memory runs out.
pub fn differences_json(alloc: Global, report: &Reporter<'_>) -> Result<Vec<u8>, AllocError>
    ensures text { IfOk result (λ text. text.items ≡ differences_json report.now) }
    ensures read { IfOk result (λ text. ReadsAs text.items (difference_values report.now)) }
{
    let mut text = Vec::new(alloc);
    push_charsets(alloc, &mut text, report)?;
    push_records(alloc, &mut text, report)?;
    lines::push_counts(alloc, &mut text, report)?;
    Ok(text)
}

/// Appends the line of the character sets, where they differ.
fn push_charsets(alloc: Global, text: &mut Vec<u8>, report: &Reporter<'_>) -> Result<(), AllocError>
    ensures { OnOk result (HasLines text.old.items text.new.items
        (charsets_values report.now.first.accepted.cse report.now.second.accepted.cse)) }
{
    push_unlike(
        alloc,
        text,
        report.first.plan().cse(),
        report.second.plan().cse(),
    )
}

/// Appends the line of two character sets, where they differ.
fn push_unlike(
    alloc: Global,
    text: &mut Vec<u8>,
    a: Option<&[u8]>,
    b: Option<&[u8]>,
) -> Result<(), AllocError>
    ensures { OnOk result (HasLines text.old.items text.new.items
        (charsets_values (option_copied a.entry) (option_copied b.entry))) }
{
    match (a, b) {
        (None, None) => Ok(()),
        (Some(one), Some(other)) => {
            if one == other {
                Ok(())
            } else {
                lines::push_charsets(alloc, text, a, b)
            }
        }
        (Some(_), None) => lines::push_charsets(alloc, text, a, b),
        (None, Some(_)) => lines::push_charsets(alloc, text, a, b),
    }
}

/// Appends the lines of the records that differ.
fn push_records(alloc: Global, text: &mut Vec<u8>, report: &Reporter<'_>) -> Result<(), AllocError>
    ensures { OnOk result (HasLines text.old.items text.new.items (listed_values report.now (listed report.now))) }
{
    push_type(alloc, text, report, Kind::Fea)?;
    push_type(alloc, text, report, Kind::Pfe)?;
    push_type(alloc, text, report, Kind::Par)?;
    push_type(alloc, text, report, Kind::Pno)?;
    push_type(alloc, text, report, Kind::Lnk)
}

/// Appends the lines of the records of a type.
fn push_type(
    alloc: Global,
    text: &mut Vec<u8>,
    report: &Reporter<'_>,
    kind: Kind,
) -> Result<(), AllocError>
    ensures { OnOk result (HasLines text.old.items text.new.items
        (listed_values report.now (listed_of report.now kind))) }
{
    push_firsts(alloc, text, report, kind)?;
    push_seconds(alloc, text, report, kind)
}

/// Appends the lines of the records of a type of the first sheet.
fn push_firsts(
    alloc: Global,
    text: &mut Vec<u8>,
    report: &Reporter<'_>,
    kind: Kind,
) -> Result<(), AllocError>
    ensures { OnOk result (HasLines text.old.items text.new.items
        (listed_values report.now (flat_map (first_listed report.now) (places_of kind report.now.first.accepted)))) }
{
    for place in report.first.places(kind) {
        push_first(alloc, text, report, *place)?;
    }
    Ok(())
}

/// Appends the lines of the records of a type of the second sheet.
fn push_seconds(
    alloc: Global,
    text: &mut Vec<u8>,
    report: &Reporter<'_>,
    kind: Kind,
) -> Result<(), AllocError>
    ensures { OnOk result (HasLines text.old.items text.new.items
        (listed_values report.now (flat_map (second_listed report.now) (places_of kind report.now.second.accepted)))) }
{
    for place in report.second.places(kind) {
        push_second(alloc, text, report, *place)?;
    }
    Ok(())
}

/// Appends the line of a record of the first sheet, if it differs.
fn push_first(
    alloc: Global,
    text: &mut Vec<u8>,
    report: &Reporter<'_>,
    place: u32,
) -> Result<(), AllocError>
    requires { IsPlace report.now.first.accepted place }
    ensures { OnOk result (HasLines text.old.items text.new.items
        (listed_values report.now (first_listed report.now place))) }
{
    if report.unchanged[place as usize].is_some() {
        return Ok(());
    }
    match report.became[place as usize] {
        Some(target) => push_changed(alloc, text, report, place, target),
        None => push_gone(alloc, text, report, place),
    }
}

/// Appends the line of a record of the first sheet that is gone.
fn push_gone(
    alloc: Global,
    text: &mut Vec<u8>,
    report: &Reporter<'_>,
    place: u32,
) -> Result<(), AllocError>
    requires { IsPlace report.now.first.accepted place }
    ensures { OnOk result (HasLines text.old.items text.new.items (listed_values report.now (gone place ∷ []))) }
{
    let line = RecordLine {
        mark: "only_in_a",
        kind: report.first.plan().kind(place),
        a: Some(report.first.site(place)),
        b: None,
        parts: NO_PARTS,
    };
    lines::push_record(alloc, text, &line)
}

/// Appends the line of a record that changed.
fn push_changed(
    alloc: Global,
    text: &mut Vec<u8>,
    report: &Reporter<'_>,
    place: u32,
    target: u32,
) -> Result<(), AllocError>
    requires place { IsPlace report.now.first.accepted place }
    requires target { IsPlace report.now.second.accepted target }
    ensures { OnOk result (HasLines text.old.items text.new.items
        (listed_values report.now (changed place target ∷ []))) }
{
    let line = RecordLine {
        mark: "changed",
        kind: report.first.plan().kind(place),
        a: Some(report.first.site(place)),
        b: Some(report.second.site(target)),
        parts: parts_at(report.parts, place as usize),
    };
    lines::push_record(alloc, text, &line)
}

/// Appends the line of a record of the second sheet, if it is new.
fn push_second(
    alloc: Global,
    text: &mut Vec<u8>,
    report: &Reporter<'_>,
    place: u32,
) -> Result<(), AllocError>
    requires { IsPlace report.now.second.accepted place }
    ensures { OnOk result (HasLines text.old.items text.new.items
        (listed_values report.now (second_listed report.now place))) }
{
    if report.reached[place as usize] {
        Ok(())
    } else {
        push_added(alloc, text, report, place)
    }
}

/// Appends the line of a record of the second sheet that is new.
fn push_added(
    alloc: Global,
    text: &mut Vec<u8>,
    report: &Reporter<'_>,
    place: u32,
) -> Result<(), AllocError>
    requires { IsPlace report.now.second.accepted place }
    ensures { OnOk result (HasLines text.old.items text.new.items (listed_values report.now (added place ∷ []))) }
{
    let line = RecordLine {
        mark: "only_in_b",
        kind: report.second.plan().kind(place),
        a: None,
        b: Some(report.second.site(place)),
        parts: NO_PARTS,
    };
    lines::push_record(alloc, text, &line)
}
