//! A sheet through the calls of each phase, one after the other. A call that lacks memory is made again where it takes
//! what is borrowed: a schema, a sound plan, labels.

ghost use Rattle.std.specs.Prelude.{IfOk};
ghost use Rattle.edi_rank.specs.Labelling.{AreLabels};
ghost use Rattle.edi_plan.specs.Agreeing.{Agrees};

use crate::refusals::{push_lines_fault, push_record, push_records_fault};
use crate::text::push_file;
use edi_plan::{Plan, RefFault};
use edi_rank::{Labels, RankFault};
use edi_record::{Sheet, SheetFault, read_sheet};
use edi_schema::Schema;
use edi_topo::{Sound, TopoFault};
use edi_write::write_canon;
use std::alloc::{AllocError, Global};

/// The canonical file of a sheet, or its refusal.
pub(crate) fn push_canonical(
    alloc: Global,
    schema: &Schema,
    sheet: &[u8],
    text: &mut String,
) -> Result<(), AllocError> {
    match read_sheet(alloc, sheet) {
        Ok(sheet) => push_planned(alloc, schema, sheet, text),
        Err(SheetFault::Line(fault)) => push_lines_fault(text, fault),
        Err(SheetFault::Record(fault)) => push_records_fault(text, fault),
    }
}

// The canonical file of the plan of records, or their refusal.
fn push_planned(
    alloc: Global,
    schema: &Schema,
    sheet: Sheet,
    text: &mut String,
) -> Result<(), AllocError> {
    match Plan::build(alloc, schema, sheet) {
        Ok(plan) => push_checked(alloc, schema, plan, text),
        Err(RefFault::Memory(fault)) => Err(fault),
        Err(RefFault::Broken { rule, at }) => push_record(text, "", rule, at),
    }
}

// The canonical file of a plan, or its refusal.
fn push_checked(
    alloc: Global,
    schema: &Schema,
    plan: Plan,
    text: &mut String,
) -> Result<(), AllocError>
    requires { Agrees schema.now plan }
{
    match Sound::check(alloc, plan) {
        Ok(sound) => push_labelled(alloc, schema, &sound, text),
        Err(TopoFault::Memory(fault)) => Err(fault),
        Err(TopoFault::Broken { rule, at }) => push_record(text, "", rule, at),
    }
}

// The canonical file of a sound plan, or the object that is equal to an earlier one.
fn push_labelled(
    alloc: Global,
    schema: &Schema,
    sound: &Sound,
    text: &mut String,
) -> Result<(), AllocError>
    requires { Agrees schema.now sound.now }
{
    match labels_or_fault(alloc, schema, sound) {
        Ok(labels) => push_written(alloc, schema, sound, &labels, text),
        Err(RankFault::Memory(fault)) => Err(fault),
        Err(RankFault::Broken { rule, at }) => push_record(text, "", rule, at),
    }
}

fn labels_or_fault(alloc: Global, schema: &Schema, sound: &Sound) -> Result<Labels, RankFault>
    requires { Agrees schema.now sound.now }
    ensures { IfOk result (AreLabels schema.now sound.now) }
{
    match Labels::of(alloc, schema, sound) {
        Err(RankFault::Memory(_)) => Labels::of(alloc, schema, sound),
        answer => answer,
    }
}

// The canonical file of a labelled plan.
fn push_written(
    alloc: Global,
    schema: &Schema,
    sound: &Sound,
    labels: &Labels,
    text: &mut String,
) -> Result<(), AllocError>
    requires agrees { Agrees schema.now sound.now }
    requires labels { AreLabels schema.now sound.now labels.now }
{
    let file = file_of(alloc, schema, sound, labels)?;
    push_file(alloc, text, &file)
}

fn file_of(
    alloc: Global,
    schema: &Schema,
    sound: &Sound,
    labels: &Labels,
) -> Result<Vec<u8>, AllocError>
    requires agrees { Agrees schema.now sound.now }
    requires labels { AreLabels schema.now sound.now labels.now }
{
    match write_canon(alloc, schema, sound, labels) {
        Err(_) => write_canon(alloc, schema, sound, labels),
        answer => answer,
    }
}
