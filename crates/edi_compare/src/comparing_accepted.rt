//! Comparing two accepted sheets, neither of which is read again.

ghost use Rattle.std.specs.Prelude.{IfOk};
ghost use Rattle.edi_rank.specs.Labelling.{AreLabels};
ghost use Rattle.edi_compare.specs.inner.Forms.{HasFirst, IsPlanForm};
ghost use Rattle.edi_compare.specs.HeldPlans.{IsHeldPlan};
ghost use Rattle.edi_compare.specs.Laws.{IsAcceptedPlan};
ghost use Rattle.edi_compare.specs.Verdicts.{IsPlanVerdict};

use crate::accepted::{Accepted, hold_bytes};
use crate::comparing::{FirstForm, verdict_of};
use crate::numbered::numbered_records;
use crate::pairing::Verdict;
use edi_rank::{Labels, RankFault};
use edi_schema::Schema;
use edi_topo::Sound;
use edi_write::write_canon;
use std::alloc::{AllocError, Global};

/// Whether two sheets that were accepted under this schema state the same plan, as `compare` says it of their files:
/// `Verdict::Same` with a pairing that carries the first plan onto the second, or `Verdict::Different` with the number
/// of the first line in which their canonical files differ, where no pairing carries. It fails only if memory runs out.
pub fn compare_accepted(
    alloc: Global,
    schema: &Schema,
    a: &Accepted,
    b: &Accepted,
) -> Result<Verdict, AllocError>
    requires first { IsHeldPlan schema.now a.now }
    requires second { IsHeldPlan schema.now b.now }
    ensures { IfOk result (IsPlanVerdict schema.now a.now b.now) }
{
    let first = stored_form(alloc, schema, a)?;
    let labels = labels_of(alloc, schema, b.sound())?;
    verdict_of(alloc, schema, &first, b.sound(), &labels)
}

/// What is stored of an accepted sheet while the form of another is made.
fn stored_form(alloc: Global, schema: &Schema, sheet: &Accepted) -> Result<FirstForm, AllocError>
    requires { IsHeldPlan schema.now sheet.now }
    ensures { IfOk result (HasFirst schema.now sheet.now) }
{
    let form = form_of_plan(alloc, schema, sheet)?;
    let PlanForm { labels, file } = form;
    let records = numbered_records(alloc, sheet.sound().plan(), labels)?;
    Ok(FirstForm { records, file })
}

/// The labels of a plan, and its canonical file.
#[derive(Drop)]
struct PlanForm {
    labels: Labels,
    file: Vec<u8>,
}

/// The form of an accepted plan.
fn form_of_plan(alloc: Global, schema: &Schema, sheet: &Accepted) -> Result<PlanForm, AllocError>
    requires { IsHeldPlan schema.now sheet.now }
    ensures { IfOk result (λ form. IsPlanForm schema.now sheet.now form.labels form.file.items) }
{
    schema.keeps();
    let sound = sheet.sound();
    let labels = labels_of(alloc, schema, sound)?;
    let file = write_canon(alloc, schema, sound, &labels)?;
    hold_bytes(&file);
    Ok(PlanForm { labels, file })
}

/// The labels of the plan of an accepted sheet, in which no two objects are equal. It fails only if memory runs out.
pub fn labels_of(alloc: Global, schema: &Schema, sound: &Sound) -> Result<Labels, AllocError>
    requires { IsAcceptedPlan schema.now sound.now }
    ensures { IfOk result (AreLabels schema.now sound.now) }
{
    match Labels::of(alloc, schema, sound) {
        Ok(labels) => Ok(labels),
        Err(RankFault::Memory(error)) => Err(error),
        Err(RankFault::Broken { .. }) => unreachable!(),
    }
}
