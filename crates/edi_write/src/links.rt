//! The bytes of the ends of links.

ghost use Rattle.std.specs.Prelude.{◌≡◌, ◌++◌, length, map, flat_map, OnOk};
ghost use Rattle.std.specs.List.{AllByRecursion};
ghost use Rattle.edi_line.specs.Printing.{printed};
ghost use Rattle.edi_plan.specs.Plans.{IsPlace, record_at};
ghost use Rattle.edi_rank.specs.EndOrder.{GivesEach, OthersInOrder, ends_at};
ghost use Rattle.edi_rank.specs.Keys.{ends_key, numbered};
ghost use Rattle.edi_rank.specs.Labelling.{number_of};
ghost use Rattle.edi_write.specs.inner.Numbered.{numbered_end_zones};

use crate::heads::SENSE;
use crate::names::write_end_pointer;
use crate::page::Page;
use edi_plan::{Plan, PlanEnd};
use edi_rank::{Labels, NumberedEnd, end_in_order, numbered_end};
use std::alloc::AllocError;

/// Writes an end: its pointer, and its SNS if it has one.
fn write_end(page: &mut Page, end: &NumberedEnd<'_>) -> Result<(), AllocError>
    ensures { OnOk result (page.new.file.items ≡ page.old.file.items ++ printed (numbered_end_zones end.now)) }
{
    write_end_pointer(page, end.kind, end.number)?;
    match &end.sns {
        Some(sns) => page.write(SENSE, sns.as_slice()),
        None => Ok(()),
    }
}

/// Writes the ends of a link that stand behind its origin, in this order.
fn write_others(
    page: &mut Page,
    plan: &Plan,
    labels: &Labels,
    order: &[usize],
    others: &[PlanEnd],
) -> Result<(), AllocError>
    requires numbered { length labels.now.numbers ≡ length plan.now.list }
    requires there { AllByRecursion (λ e. IsPlace plan.now e.target) others.now }
    requires order { GivesEach order.now others.now }
    ensures { OnOk result (page.new.file.items ≡ page.old.file.items
        ++ printed (flat_map numbered_end_zones
        (map (numbered plan.now (number_of labels.now)) (ends_at order.now others.now)))) }
{
    for index in 0..others.len() {
        let end = end_in_order(order, others, index);
        write_end(page, &numbered_end(plan, labels.numbers(), end))?;
    }
    Ok(())
}

/// Writes the ends of a link: the origin, and then the others in their order.
pub(crate) fn write_ends(
    page: &mut Page,
    plan: &Plan,
    labels: &Labels,
    place: u32,
) -> Result<(), AllocError>
    requires numbered { length labels.now.numbers ≡ length plan.now.list }
    requires ordered { length labels.now.others ≡ length plan.now.list }
    requires place { IsPlace plan.now place }
    requires order { OthersInOrder plan.now (number_of labels.now) labels.now.others place }
    ensures { OnOk result (page.new.file.items ≡ page.old.file.items
        ++ printed
        (flat_map numbered_end_zones (ends_key plan.now (number_of labels.now) (record_at plan.now place).ends))) }
{
    plan.keeps();
    match plan.ends(place) {
        [] => Ok(()),
        [origin, others @ ..] => {
            write_end(page, &numbered_end(plan, labels.numbers(), origin))?;
            // Nearly each link has one other end. Its order needn't be fetched.
            if let [other] = others {
                return write_end(page, &numbered_end(plan, labels.numbers(), other));
            }
            write_others(page, plan, labels, labels.others(place), others)
        }
    }
}
