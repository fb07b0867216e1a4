//! How many records of a plan have each class.

ghost use Rattle.std.specs.Prelude.{◌≡◌, ◌≤◌, ◌<◌, ◌+◌, ◌==◌, ◌^◌, ◌++◌, IfOk, OnOk, codes, if◌then◌else◌, length, slice_index_or, ℕ};
ghost use Rattle.edi_explain.specs.ClassCounts.{DescribesClasses, DescribesSheet, count_of_class, class_count_line};
ghost use Rattle.edi_shown.specs.Shown.{shown_bytes};

use crate::explained::describe_plan;
use crate::extra_zones::push_extra_zones;
use edi_line::push_number;
use edi_plan::Plan;
use edi_schema::Schema;
use edi_shown::push_shown;
use std::alloc::{AllocError, Global};

/// For so many classes, of which no record is counted.
fn no_counts(alloc: Global, count: usize) -> Result<Vec<u64>, AllocError>
    ensures length { IfOk result (λ counts. length counts.items ≡ count) }
    ensures each { IfOk result (λ counts. (k : ℕ) → slice_index_or counts.items k 0 ≡ 0) }
{
    let mut counts = Vec::new(alloc);
    for _ in 0..count {
        counts.push(0)?;
    }
    Ok(counts)
}

/// Counts one more at a place, if it is one of these.
fn count_one(counts: &mut Vec<u64>, place: usize)
    requires { slice_index_or counts.old.items place 0 < 2 ^ 32 }
    ensures length { length counts.new.items ≡ length counts.old.items }
    ensures each { (k : ℕ) → k < length counts.old.items → slice_index_or counts.new.items k 0
        ≡ slice_index_or counts.old.items k 0 + (if place == k then 1 else 0) }
{
    if place < counts.len() {
        counts[place] += 1;
    }
}

/// How many records of a plan have each class of a schema.
fn class_counts(alloc: Global, schema: &Schema, plan: &Plan) -> Result<Vec<u64>, AllocError>
    ensures length { IfOk result (λ counts. length counts.items ≡ length schema.now) }
    ensures each { IfOk result (λ counts. (k : ℕ) → k < length schema.now
        → slice_index_or counts.items k 0 ≡ count_of_class plan.now k) }
{
    let mut counts = no_counts(alloc, schema.class_count())?;
    for place in 0..plan.len() {
        count_one(&mut counts, plan.scp(place).place() as usize);
    }
    Ok(counts)
}

/// Appends the line on a class, if it has records.
fn push_class(text: &mut Vec<u8>, rty: &[u8], rid: &[u8], count: u64) -> Result<(), AllocError>
    ensures { OnOk result (text.new.items ≡ text.old.items
        ++ class_count_line (record { rty = rty.now; rid = rid.now }) count) }
{
    if count == 0 {
        return Ok(());
    }
    push_class_name(text, rty, rid)?;
    push_number(text, count)?;
    text.extend_from_slice(b"\n")
}

/// Appends the name of a class.
fn push_class_name(text: &mut Vec<u8>, rty: &[u8], rid: &[u8]) -> Result<(), AllocError>
    ensures { OnOk result (text.new.items ≡ text.old.items ++ (codes "class " ++ shown_bytes rty.now
        ++ codes " " ++ shown_bytes rid.now ++ codes ": ")) }
{
    text.extend_from_slice(b"class ")?;
    push_shown(text, rty)?;
    text.extend_from_slice(b" ")?;
    push_shown(text, rid)?;
    text.extend_from_slice(b": ")
}

/// The lines on the classes that records of a plan have, in the order of their names.
pub fn describe_classes(alloc: Global, schema: &Schema, plan: &Plan) -> Result<Vec<u8>, AllocError>
    ensures { IfOk result (λ lines. DescribesClasses schema.now plan.now lines.items) }
{
    let counts = class_counts(alloc, schema, plan)?;
    let mut text = Vec::new(alloc);
    for place in 0..schema.class_count() {
        let name = schema.name(schema.class_at(place));
        push_class(
            &mut text,
            name.rty.as_slice(),
            name.rid.as_slice(),
            counts[place],
        )?;
    }
    Ok(text)
}

/// The lines on an accepted sheet: those on its plan, those on its classes, and the line on its extra zones.
pub fn describe_sheet(alloc: Global, schema: &Schema, plan: &Plan) -> Result<Vec<u8>, AllocError>
    ensures { IfOk result (λ lines. DescribesSheet schema.now plan.now lines.items) }
{
    let mut lines = describe_plan(alloc, plan)?;
    let classes = describe_classes(alloc, schema, plan)?;
    lines.extend_from_slice(&classes)?;
    push_extra_zones(&mut lines, plan)?;
    Ok(lines)
}
