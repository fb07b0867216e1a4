//! What sheets hold and are called, what differs between two, and a picture of one.

ghost use Rattle.std.specs.Prelude.{◌≡◌, ◌<◌, ◌==◌, ◌&&◌, filter, length, map, position, IfOk, IfErr, IfSome};
ghost use Rattle.std.specs.List.{list_any};
ghost use Rattle.edi_record.specs.declared.record.Kind.TheVariants.{Fea, Lnk};
ghost use Rattle.edi_plan.specs.Places.{places_of};
ghost use Rattle.edi_plan.specs.Plans.{IsPlace, record_at};
ghost use Rattle.edi_compare.specs.Refused.{IsPairRefusal, IsRefusal};
ghost use Rattle.edi_diff.specs.Differences.{IsDifference};
ghost use Rattle.edi_diff.specs.declared.form.TextForm.TheVariants.{Objects};
ghost use Rattle.uses.specs.Callers.{IsDrawnAlone, IsNumberOfName, has_text, is_text, same_name};

use edi_compare::comparing_accepted::labels_of;
use edi_compare::{CompareFault, Fault};
use edi_diff::{Difference, TextForm, diff};
use edi_line::FileBytes;
use edi_pairing::{RecordName, RecordNames, name_sheet};
use edi_picture::{Looks, Mark, Shown, picture};
use edi_plan::{Plan, PlanAttribute};
use edi_record::{Kind, Value};
use edi_schema::{ClassRef, Schema};
use std::alloc::{AllocError, Global};
use std::borrow::CowSlice;

/// The places of the objects of a class that have an attribute of this class with this text, in file order: of the
/// parcels, say, with this number. `Schema::class` finds a class by its name; the plan of an accepted sheet is
/// `accepted.sound().plan()`.
pub fn objects_with_text(
    alloc: Global,
    plan: &Plan,
    class: ClassRef,
    attribute: ClassRef,
    text: &[u8],
) -> Result<Vec<u32>, AllocError>
    ensures { IfOk result (λ found. found.items ≡ filter (λ k. (record_at plan.now k).class == class
        && list_any (has_text attribute text.now) (record_at plan.now k).attributes) (places_of Fea plan.now)) }
{
    let mut found = Vec::new(alloc);
    for place in plan.places(Kind::Fea) {
        if plan.scp(*place) == class && any_has_text(plan.attributes(*place), attribute, text) {
            found.push(*place)?;
        }
    }
    Ok(found)
}

// Whether one of these attributes is of this class and has this text.
fn any_has_text(attributes: &[PlanAttribute], class: ClassRef, text: &[u8]) -> bool
    ensures { result ≡ list_any (has_text class text.now) attributes.now }
{
    attributes.iter().any(|attribute| attribute.atp == class && is_text(&attribute.value, text))
}

// Whether a value is this text.
fn is_text(value: &Value, text: &[u8]) -> bool
    ensures { result ≡ is_text text.now value.now }
{
    match value {
        Value::Number(_) => false,
        Value::Bytes(bytes) => bytes.as_slice() == text,
    }
}

/// The places of the links that name a record, in file order: of an object those that are its pieces, and those that
/// join it with other objects. `Plan::ends` has what a link names, its origin first, and `Plan::kind` the type of that.
/// Each call looks at all links: to ask for many records, go through the links once.
pub fn links_naming(alloc: Global, plan: &Plan, place: u32) -> Result<Vec<u32>, AllocError>
    ensures { IfOk result (λ found. found.items
        ≡ filter (λ link. list_any (λ e. e.target == place) (record_at plan.now link).ends) (places_of Lnk plan.now)) }
{
    let mut found = Vec::new(alloc);
    for link in plan.places(Kind::Lnk) {
        if names(plan, *link, place) {
            found.push(*link)?;
        }
    }
    Ok(found)
}

// Whether a link names a record.
fn names(plan: &Plan, link: u32, place: u32) -> bool
    requires { IsPlace plan.now link }
    ensures { result ≡ list_any (λ e. e.target == place) (record_at plan.now link).ends }
{
    plan.ends(link).iter().any(|end| end.target == place)
}

/// The place of the record of this type and identifier, from 0 in file order; none where no record has this name.
pub fn place_named(names: &RecordNames, kind: Kind, identifier: &[u8]) -> Option<u32>
    ensures place { result ≡ position (same_name (record { kind = kind; rid = identifier.now })) names.now }
    ensures within { IfSome result (λ place. place < length names.now) }
{
    match position_of(names.as_slice(), kind, identifier) {
        Some(place) => Some(place as u32),
        None => None,
    }
}

// The first of these names that has this type and this identifier.
fn position_of(names: &[RecordName], kind: Kind, identifier: &[u8]) -> Option<usize>
    ensures place { result ≡ position (same_name (record { kind = kind; rid = identifier.now })) names.now }
    ensures within { IfSome result (λ place. place < length names.now) }
{
    names
        .iter()
        .position(|name| is_named(name, kind, identifier))
}

// Whether a record has this type and this identifier.
fn is_named(name: &RecordName, kind: Kind, identifier: &[u8]) -> bool
    ensures { result ≡ same_name (record { kind = kind; rid = identifier.now }) name.now }
{
    kind == name.kind && identifier == name.rid.as_slice()
}

/// The number of the record of this type and identifier in the canonical file of its sheet, among those of its type from
/// 1; none where no record has this name. There its identifier is the letter of its type and this number.
/// Each call reads and numbers the sheet: to ask for many records, keep the names and the labels.
pub fn canonical_number(
    alloc: Global,
    schema: &Schema,
    sheet: &[u8],
    kind: Kind,
    identifier: &[u8],
) -> Result<Option<u32>, Fault>
    ensures number { IfOk result (IsNumberOfName schema.now sheet.now (record { kind = kind; rid = identifier.now })) }
    ensures refusal { IfErr result (IsRefusal schema.now sheet.now) }
{
    let bytes = FileBytes::Whole(CowSlice::Borrowed(sheet));
    let named = name_sheet(alloc, schema, bytes)?;
    let labels = labels_of(alloc, schema, named.accepted.sound())?;
    match place_named(&named.names, kind, identifier) {
        Some(place) => Ok(Some(labels.number(place))),
        None => Ok(None),
    }
}

/// What differs between two sheets, told object by object, and whether they state the same plan.
pub fn difference_by_objects(
    alloc: Global,
    schema: &Schema,
    first: &[u8],
    second: &[u8],
) -> Result<Difference, CompareFault>
    ensures difference { IfOk result (IsDifference schema.now first.now second.now Objects) }
    ensures refusal { IfErr result (IsPairRefusal schema.now first.now second.now) }
{
    diff(alloc, schema, first, second, TextForm::Objects)
}

/// A picture of a sheet under the name of its file, as the text of an SVG file: its nodes, arcs and faces with their
/// identifiers, none marked or tinted, and nothing written on faces.
pub fn draw_sheet(
    alloc: Global,
    schema: &Schema,
    name: &str,
    sheet: &[u8],
) -> Result<Vec<u8>, Fault>
    ensures picture { IfOk result (λ picture. IsDrawnAlone schema.now name.now sheet.now picture.items) }
    ensures refusal { IfErr result (IsRefusal schema.now sheet.now) }
{
    let bytes = FileBytes::Whole(CowSlice::Borrowed(sheet));
    let named = name_sheet(alloc, schema, bytes)?;
    let plan = named.accepted.sound().plan();
    let looks = Looks {
        marks: vec![in alloc; Mark::Plain; plan.len() as usize]?,
        tints: Vec::new(alloc),
        labels: Vec::new(alloc),
    };
    let identifiers = identifiers_of(alloc, &named.names)?;
    let shown = Shown::new(plan, name.as_bytes(), identifiers, looks);
    Ok(picture(alloc, schema, &[shown])?)
}

// The identifiers of records, borrowed.
fn identifiers_of(alloc: Global, names: &RecordNames) -> Result<Vec<&[u8]>, AllocError>
    ensures { IfOk result (λ identifiers. map (λ i. i.now) identifiers.items ≡ map (λ n. n.rid) names.now) }
{
    let mut identifiers = Vec::new(alloc);
    for name in names.as_slice() {
        identifiers.push(name.rid.as_slice())?;
    }
    Ok(identifiers)
}
