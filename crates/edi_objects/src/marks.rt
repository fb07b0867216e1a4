//! Which records differ between two sheets.

ghost use Rattle.std.specs.Prelude.{◌≡◌, ◌<◌, ◌||◌, ℕ, IfOk, IfSome, None, false, length, map, not, slice_index_or};
ghost use Rattle.edi_plan.specs.Plans.{IsPlace};
ghost use Rattle.edi_objects.specs.Differing.{arrives, became_of, is_differing, moved_to, same_of};
ghost use Rattle.edi_objects.specs.inner.Marks.{is_moved_onto};
ghost use Rattle.edi_objects.specs.inner.Sheets.{AreTested};
ghost use Rattle.edi_report.specs.Lines.{went_to};
ghost use Rattle.edi_report.specs.Reports.{parts_at};

use edi_report::{DifferingParts, LocatedSheet, Reporter, values_of_places};
use std::alloc::{AllocError, Global};

/// Of each record of the first sheet, whether it differs.
pub(crate) fn differing_marks(alloc: Global, report: &Reporter<'_>) -> Result<Vec<bool>, AllocError>
    ensures { IfOk result (λ marks.
        AreTested (is_differing report.now) (length report.now.first.accepted.list) marks.items) }
{
    values_of_places(
        alloc,
        record_count(report.first),
        |place| is_differing(report, place),
    )
}

/// How many records a sheet has.
pub(crate) fn record_count(sheet: &LocatedSheet) -> u32
    ensures { result ≡ length sheet.now.accepted.list }
{
    sheet.plan().len()
}

/// Whether a record of the first sheet differs.
fn is_differing(report: &Reporter<'_>, place: u32) -> bool
    requires { place < length report.now.first.accepted.list }
    ensures { result ≡ is_differing report.now place }
{
    match (same_of(report, place), became_of(report, place)) {
        (Some(_), _) => false,
        (None, None) => true,
        (None, Some(_)) => parts_at(report, place).some_differ(),
    }
}

/// Which record of the second sheet one of the first is, if any.
pub(crate) fn same_of(report: &Reporter<'_>, place: u32) -> Option<u32>
    ensures { result ≡ same_of report.now place }
{
    target_at(report.unchanged, place as usize)
}

/// Which record of the second sheet one of the first is or became, if any.
pub(crate) fn became_of(report: &Reporter<'_>, place: u32) -> Option<u32>
    ensures became { result ≡ became_of report.now place }
    ensures within { IfSome result (IsPlace report.now.second.accepted) }
{
    target_at(report.became, place as usize)
}

/// The parts in which a record that changed differs.
pub(crate) fn parts_at(report: &Reporter<'_>, place: u32) -> DifferingParts
    ensures { result ≡ parts_at report.now.parts place }
{
    edi_report::parts_at(report.parts, place as usize)
}

/// Where a record goes, if anywhere.
fn target_at(to: &[Option<u32>], place: usize) -> Option<u32>
    ensures { result ≡ slice_index_or to.now place None }
{
    match to.get(place) {
        Some(target) => *target,
        None => None,
    }
}

/// Of each record of the second sheet, whether it is new, or one became it that had other ends.
pub(crate) fn arriving_marks(alloc: Global, report: &Reporter<'_>) -> Result<Vec<bool>, AllocError>
    ensures { IfOk result (λ marks.
        AreTested (arrives report.now) (length report.now.second.accepted.list) marks.items) }
{
    let mut marks = unreached_marks(alloc, report.reached)?;
    mark_moved(report, &mut marks);
    Ok(marks)
}

/// Of each record of the second sheet, whether none became it.
fn unreached_marks(alloc: Global, reached: &[bool]) -> Result<Vec<bool>, AllocError>
    ensures { IfOk result (λ marks. marks.items ≡ map not reached.now) }
{
    reached.iter().map(|mark| !*mark).collect(alloc)
}

/// Marks the records of the second sheet that one became which had other ends.
fn mark_moved(report: &Reporter<'_>, marks: &mut [bool])
    ensures length { length marks.new ≡ length marks.old }
    ensures each { (j : ℕ) → j < length marks.old
        → slice_index_or marks.new j false
        ≡ (slice_index_or marks.old j false || is_moved_onto report.now (length report.now.became) j) }
{
    for place in 0..report.became.len() {
        mark(marks, moved_to(report, place));
    }
}

/// The record of the second sheet that one of the first became, if it had other ends.
fn moved_to(report: &Reporter<'_>, place: usize) -> Option<u32>
    ensures { result ≡ moved_to report.now place }
{
    if target_at(report.unchanged, place).is_some()
        || !edi_report::parts_at(report.parts, place).ends
    {
        return None;
    }
    target_at(report.became, place)
}

/// Marks a place, if there is one.
fn mark(marks: &mut [bool], went: Option<u32>)
    ensures length { length marks.new ≡ length marks.old }
    ensures each { (j : ℕ) → j < length marks.old
        → slice_index_or marks.new j false ≡ (slice_index_or marks.old j false || went_to j went) }
{
    if let Some(place) = went
        && (place as usize) < marks.len()
    {
        marks[place as usize] = true;
    }
}
