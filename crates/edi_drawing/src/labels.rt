//! What people call records on a plan.

ghost use Rattle.std.specs.Prelude.{◌≡◌, ◌==◌, ◌<◌, [], IfOk, IfSome, IsTrue, None, Some, ℕ, find, if◌then◌else◌, length, map, slice_index_or, take, unwrap_or};
ghost use Rattle.std.specs.List.{AllByRecursion, list_any};
ghost use Rattle.std.specs.Option.{option_or};
ghost use Rattle.edi_plan.specs.Agreeing.{Agrees, AttributeAgrees};
ghost use Rattle.edi_plan.specs.Plans.{IsPlace, is_object, record_at};
ghost use Rattle.edi_drawing.specs.Labels.{attribute_label, both_labels, calls, is_label, is_something, label_of, label_there, label_value, link_label, names_few};
ghost use Rattle.edi_drawing.specs.Drawn.{first_label};
ghost use Rattle.edi_drawing.specs.Marked.{of_each};
ghost use Rattle.edi_drawing.specs.Tints.{first_tint};
ghost use Rattle.edi_drawing.specs.inner.Labels.{AreCallers};

use crate::pair::{SheetPair, entry_at};
use edi_plan::{Plan, PlanAttribute, PlanEnd};
use edi_record::{Kind, Value};
use edi_schema::Schema;
use std::alloc::{AllocError, Global};

/// How many attributes of an object its label is sought among, so that an object of many attributes that many links
/// name costs no more.
const MOST_SOUGHT: usize = 32;

/// How many records a link may name that says something of each: those of parcels name few, and those of communes and
/// sections mostly more.
const MOST_NAMED: usize = 4;

/// How many bytes of a value stand in a label.
const MOST_SHOWN: usize = 40;

/// Whether the values of a class of this identifier stand on maps.
fn is_label(identifier: &[u8]) -> bool
    ensures { result ≡ is_label identifier.now }
{
    identifier == b"TEX_id".as_slice()
        || identifier == b"TEX2_id".as_slice()
        || identifier == b"NUM_id".as_slice()
        || identifier == b"NOM_id".as_slice()
}

/// The first so many elements, or all if there are fewer.
fn first_few<T>(items: &[T], most: usize) -> &[T]
    ensures { result.now ≡ take most items.now }
{
    if items.len() < most {
        return items;
    }
    &items[..most]
}

/// The first bytes of a value.
fn label_value(value: &Value) -> &[u8]
    ensures { result.now ≡ label_value value.now }
{
    match value {
        Value::Number(_) => b"",
        Value::Bytes(bytes) => first_few(bytes.as_slice(), MOST_SHOWN),
    }
}

/// What an attribute calls its object, if anything.
fn attribute_label<'a>(schema: &Schema, attribute: &'a PlanAttribute) -> &'a [u8]
    requires { attribute.now.atp < length schema.now }
    ensures { result.now ≡ attribute_label schema.now attribute.now }
{
    if is_label(schema.name(attribute.atp).rid.as_slice()) {
        label_value(&attribute.value)
    } else {
        b""
    }
}

/// What people call the object of these attributes.
fn object_label<'a>(schema: &Schema, attributes: &'a [PlanAttribute]) -> &'a [u8]
    requires { AllByRecursion (AttributeAgrees schema.now) attributes.now }
    ensures { result.now
        ≡ unwrap_or (find is_something (map (attribute_label schema.now) (take 32 attributes.now))) [] }
{
    for attribute in first_few(attributes, MOST_SOUGHT) {
        let label = attribute_label(schema, attribute);
        if !label.is_empty() {
            return label;
        }
    }
    b""
}

/// Whether there is an object at a place.
fn is_object(plan: &Plan, place: u32) -> bool
    ensures object { result ≡ is_object (record_at plan.now place).kind }
    ensures within { IsTrue result → IsPlace plan.now place }
{
    place < plan.len() && plan.kind(place) == Kind::Fea
}

/// The object that comes first among these ends, if there is one.
fn first_object(plan: &Plan, ends: &[PlanEnd]) -> Option<u32>
    ensures object { result ≡ find (λ k. is_object (record_at plan.now k).kind) (map (λ e. e.target) ends.now) }
    ensures within { IfSome result (IsPlace plan.now) }
{
    for end in ends {
        if is_object(plan, end.target) {
            return Some(end.target);
        }
    }
    None
}

/// What a link calls whatever it names.
fn link_label<'a>(schema: &Schema, plan: &'a Plan, link: u32) -> &'a [u8]
    requires agrees { Agrees schema.now plan.now }
    requires link { IsPlace plan.now link }
    ensures { result.now ≡ link_label schema.now plan.now link }
{
    match first_object(plan, plan.ends(link)) {
        Some(object) => object_label(schema, plan.attributes(object)),
        None => b"",
    }
}

/// Whether a link names so few records that it says something of each.
pub(crate) fn names_few(plan: &Plan, link: u32) -> bool
    requires { IsPlace plan.now link }
    ensures { result ≡ names_few plan.now link }
{
    plan.ends(link).len() <= MOST_NAMED
}

/// Notes a link for a record that has none yet.
fn note(callers: &mut Vec<Option<u32>>, place: u32, link: u32)
    ensures length { length callers.new.items ≡ length callers.old.items }
    ensures each { (k : ℕ) → k < length callers.old.items → slice_index_or callers.new.items k None
        ≡ option_or (slice_index_or callers.old.items k None) (if place == k then Some link else None) }
{
    if (place as usize) < callers.len() && callers[place as usize].is_none() {
        callers[place as usize] = Some(link);
    }
}

/// Notes a link for each record that its ends name and that has none yet.
fn note_all(callers: &mut Vec<Option<u32>>, ends: &[PlanEnd], link: u32)
    ensures length { length callers.new.items ≡ length callers.old.items }
    ensures each { (k : ℕ) → k < length callers.old.items → slice_index_or callers.new.items k None
        ≡ option_or (slice_index_or callers.old.items k None)
        (if list_any (λ e. e.target == k) ends.now then Some link else None) }
{
    for end in ends {
        note(callers, end.target, link);
    }
}

/// Notes a link for each record that it calls something and that has none yet.
fn call_all(callers: &mut Vec<Option<u32>>, schema: &Schema, plan: &Plan, link: u32)
    requires agrees { Agrees schema.now plan.now }
    requires link { IsPlace plan.now link }
    ensures length { length callers.new.items ≡ length callers.old.items }
    ensures each { (k : ℕ) → k < length callers.old.items → slice_index_or callers.new.items k None
        ≡ option_or (slice_index_or callers.old.items k None)
        (if calls schema.now plan.now k link then Some link else None) }
{
    if names_few(plan, link) && !link_label(schema, plan, link).is_empty() {
        note_all(callers, plan.ends(link), link);
    }
}

/// For each record the first link that calls it something.
fn callers_of(alloc: Global, schema: &Schema, plan: &Plan) -> Result<Vec<Option<u32>>, AllocError>
    requires { Agrees schema.now plan.now }
    ensures { IfOk result (λ callers. AreCallers schema.now plan.now callers.items) }
{
    let mut callers = vec![in alloc; None; plan.len() as usize]?;
    for link in plan.places(Kind::Lnk) {
        call_all(&mut callers, schema, plan, *link);
    }
    Ok(callers)
}

/// What the record at a place is called.
fn label_of<'a>(schema: &Schema, plan: &'a Plan, callers: &[Option<u32>], place: u32) -> &'a [u8]
    requires agrees { Agrees schema.now plan.now }
    requires callers { AreCallers schema.now plan.now callers.now }
    ensures { result.now ≡ label_of schema.now plan.now place }
{
    match entry_at(callers, place) {
        Some(link) => link_label(schema, plan, link),
        None => b"",
    }
}

/// What the records of a sheet are called, in file order.
pub(crate) fn record_labels(
    alloc: Global,
    schema: &Schema,
    plan: &Plan,
) -> Result<Vec<Vec<u8>>, AllocError>
    requires { Agrees schema.now plan.now }
    ensures { IfOk result (λ labels. map (λ l. l.items) labels.items
        ≡ of_each (label_of schema.now plan.now) plan.now) }
{
    let callers = callers_of(alloc, schema, plan)?;
    let mut labels = Vec::new(alloc);
    for place in 0..plan.len() {
        labels.push(Vec::from_slice(alloc, label_of(schema, plan, &callers, place))?)?;
    }
    Ok(labels)
}

/// What a record is called in one sheet, and, if it is called otherwise there, in the other.
fn both_labels(alloc: Global, here: &[u8], there: &[u8]) -> Result<Vec<u8>, AllocError>
    ensures { IfOk result (λ label. label.items ≡ both_labels here.now there.now) }
{
    let mut label = Vec::from_slice(alloc, here)?;
    if here == there || there.is_empty() {
        return Ok(label);
    }
    label.extend_from_slice(b" -> ")?;
    label.extend_from_slice(there)?;
    Ok(label)
}

/// What the records of two sheets are called.
#[derive(Drop)]
struct Callers {
    first: Vec<Option<u32>>,
    second: Vec<Option<u32>>,
}

/// What a record that another may be is called.
fn label_there<'a>(
    schema: &Schema,
    plan: &'a Plan,
    callers: &[Option<u32>],
    place: Option<u32>,
) -> &'a [u8]
    requires agrees { Agrees schema.now plan.now }
    requires callers { AreCallers schema.now plan.now callers.now }
    ensures { result.now ≡ label_there schema.now plan.now place }
{
    match place {
        Some(place) => label_of(schema, plan, callers, place),
        None => b"",
    }
}

/// What stands on a record of the first sheet.
fn first_label(
    alloc: Global,
    schema: &Schema,
    pair: &SheetPair<'_>,
    callers: &Callers,
    is_tinted: bool,
    place: u32,
) -> Result<Vec<u8>, AllocError>
    requires first { Agrees schema.now pair.now.first.accepted }
    requires second { Agrees schema.now pair.now.second.accepted }
    requires callers { AreCallers schema.now pair.now.first.accepted callers.now.first.items }
    requires others { AreCallers schema.now pair.now.second.accepted callers.now.second.items }
    requires tinted { is_tinted ≡ first_tint pair.now place }
    ensures { IfOk result (λ label. label.items ≡ first_label schema.now pair.now place) }
{
    if !is_tinted {
        return Ok(Vec::new(alloc));
    }
    let here = label_of(schema, pair.plan(), &callers.first, place);
    let there = label_there(schema, pair.other(), &callers.second, pair.twin_of(place));
    both_labels(alloc, here, there)
}

/// What stands on the records of the first of two sheets, by which of them are tinted.
pub(crate) fn first_labels(
    alloc: Global,
    schema: &Schema,
    pair: &SheetPair<'_>,
    tints: &[bool],
) -> Result<Vec<Vec<u8>>, AllocError>
    requires first { Agrees schema.now pair.now.first.accepted }
    requires second { Agrees schema.now pair.now.second.accepted }
    requires tints { tints.now ≡ of_each (first_tint pair.now) pair.now.first.accepted }
    ensures { IfOk result (λ labels.
        map (λ l. l.items) labels.items ≡ of_each (first_label schema.now pair.now) pair.now.first.accepted) }
{
    let callers = Callers {
        first: callers_of(alloc, schema, pair.plan())?,
        second: callers_of(alloc, schema, pair.other())?,
    };
    let mut labels = Vec::new(alloc);
    for place in 0..pair.plan().len() {
        labels.push(first_label(alloc, schema, pair, &callers, tints[place as usize], place)?)?;
    }
    Ok(labels)
}
