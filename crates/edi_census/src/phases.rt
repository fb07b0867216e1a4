//! All that the first broken phase of a sheet breaks.

ghost use Rattle.std.specs.Prelude.{◌≡◌, [], List, IfOk, IsTrue};
ghost use Rattle.edi_line.specs.ZoneData.{ZoneData};
ghost use Rattle.edi_line.specs.LineRules.{BreaksLineRule, IsZonesOf};
ghost use Rattle.edi_line.specs.Refusal.{IsUnbroken};
ghost use Rattle.edi_record.specs.RecordRules.{BreaksRecordRule};
ghost use Rattle.edi_compare.specs.PlanOfFile.{IsPlanOfFile, IsSheetOf};
ghost use Rattle.edi_compare.specs.Rules.{Breaks, RecordsHold, ReferencesHold};
ghost use Rattle.edi_line.specs.AllBroken.{AreAllBroken};

use crate::findings::{broken_objects, broken_references, broken_topology};
use edi_line::{BrokenRule, FileBytes, LineFault, broken_lines};
use edi_plan::{Plan, RefFault};
use edi_record::{RecordFault, Sheet, SheetFault, broken_records_from, read_sheet};
use edi_schema::Schema;
use edi_topo::{Sound, TopoFault};
use std::alloc::{AllocError, Global};
use std::borrow::CowSlice;

/// Whether nothing is broken.
fn is_none(list: &[BrokenRule]) -> bool
    ensures none { IsTrue result → list.now ≡ [] }
    ensures some { list.now ≡ [] → IsTrue result }
{
    list.is_empty()
}

/// All that the records of a file break that breaks no rule of lines.
fn broken_in_records(alloc: Global, bytes: &[u8]) -> Result<Vec<BrokenRule>, AllocError>
    requires { IsUnbroken (BreaksLineRule bytes.now) }
    ensures { IfOk result (λ list. (zones : List ZoneData) × IsZonesOf bytes.now zones
        × AreAllBroken (BreaksRecordRule zones) list.items) }
{
    match broken_records_from(alloc, FileBytes::Whole(CowSlice::Borrowed(bytes))) {
        Ok(list) => Ok(list),
        Err(LineFault::Memory(error)) => Err(error),
        Err(LineFault::Broken { .. }) => unreachable!(),
    }
}

/// The records of a file that breaks no rule of lines or records.
fn sheet_of(alloc: Global, schema: &Schema, bytes: &[u8]) -> Result<Sheet, AllocError>
    requires { RecordsHold schema.now bytes.now }
    ensures { IfOk result (IsSheetOf bytes.now) }
{
    let _ = schema;
    match read_sheet(alloc, bytes) {
        Ok(sheet) => Ok(sheet),
        Err(SheetFault::Line(LineFault::Memory(error))) => Err(error),
        Err(SheetFault::Record(RecordFault::Memory(error))) => Err(error),
        Err(SheetFault::Line(LineFault::Broken { .. })) => unreachable!(),
        Err(SheetFault::Record(RecordFault::Broken { .. })) => unreachable!(),
    }
}

/// The plan of a sheet that breaks no rule of references.
fn plan_of(alloc: Global, schema: &Schema, bytes: &[u8], sheet: Sheet) -> Result<Plan, AllocError>
    requires held { ReferencesHold schema.now bytes.now }
    requires sheet { IsSheetOf bytes.now sheet }
    ensures { IfOk result (IsPlanOfFile schema.now bytes.now) }
{
    let _ = bytes;
    match Plan::build(alloc, schema, sheet) {
        Ok(plan) => Ok(plan),
        Err(RefFault::Memory(error)) => Err(error),
        Err(RefFault::Broken { .. }) => unreachable!(),
    }
}

/// All that a sheet breaks whose plan breaks no rule but perhaps those of topology and of objects.
fn broken_in_plan(
    alloc: Global,
    schema: &Schema,
    bytes: &[u8],
    plan: Plan,
) -> Result<Vec<BrokenRule>, AllocError>
    requires held { ReferencesHold schema.now bytes.now }
    requires plan { IsPlanOfFile schema.now bytes.now plan }
    ensures { IfOk result (λ list. AreAllBroken (Breaks schema.now bytes.now) list.items) }
{
    let _ = schema;
    let _ = bytes;
    let list = broken_topology(alloc, &plan)?;
    if !is_none(&list) {
        return Ok(list);
    }
    match Sound::check(alloc, plan) {
        Ok(sound) => broken_objects(alloc, &sound),
        Err(TopoFault::Memory(error)) => Err(error),
        Err(TopoFault::Broken { .. }) => unreachable!(),
    }
}

/// All that a sheet breaks that breaks no rule of lines or records.
fn broken_in_sheet(
    alloc: Global,
    schema: &Schema,
    bytes: &[u8],
) -> Result<Vec<BrokenRule>, AllocError>
    requires { RecordsHold schema.now bytes.now }
    ensures { IfOk result (λ list. AreAllBroken (Breaks schema.now bytes.now) list.items) }
{
    let sheet = sheet_of(alloc, schema, bytes)?;
    sheet.keeps();
    let list = broken_references(alloc, schema, sheet.list())?;
    if !is_none(&list) {
        return Ok(list);
    }
    let plan = plan_of(alloc, schema, bytes, sheet)?;
    broken_in_plan(alloc, schema, bytes, plan)
}

/// Every rule that the first broken phase of a sheet breaks under a schema, with its place, by places and at one place
/// by rules; none of an accepted sheet. A place is the number of a line for a rule of lines (101 to 110), and of a
/// record for any other, from 1 (docs/FORMAT.md, "The order of the rules").
pub fn all_broken(
    alloc: Global,
    schema: &Schema,
    bytes: &[u8],
) -> Result<Vec<BrokenRule>, AllocError>
    ensures { IfOk result (λ list. AreAllBroken (Breaks schema.now bytes.now) list.items) }
{
    let lines = broken_lines(alloc, bytes)?;
    if !is_none(&lines) {
        return Ok(lines);
    }
    let records = broken_in_records(alloc, bytes)?;
    if !is_none(&records) {
        return Ok(records);
    }
    broken_in_sheet(alloc, schema, bytes)
}
