//! Whose outlines differ in either sheet, and which links name such a record behind the first few.

ghost use Rattle.std.specs.Prelude.{◌≡◌, IfOk, IfSome, drop, length, map};
ghost use Rattle.std.specs.List.{range_with_len};
ghost use Rattle.edi_plan.specs.Plans.{IsPlace};
ghost use Rattle.edi_objects.specs.Differing.{arrives, is_differing};
ghost use Rattle.edi_objects.specs.Objects.{has_other_outline, outline_there};
ghost use Rattle.edi_objects.specs.inner.Sheets.{AreFurther, AreOthers, AreOutlined, names_further, is_marked_place};

use crate::elements::MOST_NAMED;
use crate::marks::{became_of, record_count};
use crate::objects::is_object;
use crate::outlines::{is_marked, some_marked};
use edi_plan::{Plan, PlanEnd};
use edi_report::{Reporter, values_of_places};
use std::alloc::{AllocError, Global};

/// Of each record of the first sheet, whether the outline differs of one that it names behind the first few.
pub(crate) fn further_outlines(
    alloc: Global,
    report: &Reporter<'_>,
    here: &[bool],
    there: &[bool],
) -> Result<Vec<bool>, AllocError>
    requires here { AreOutlined (is_differing report.now) report.now.first.accepted here.now }
    requires there { AreOutlined (arrives report.now) report.now.second.accepted there.now }
    ensures { IfOk result (λ further. AreFurther report.now further.items) }
{
    let plan = report.first.accepted.sound().plan();
    plan.keeps();
    let others = other_outlines(alloc, report, here, there)?;
    further_marks(alloc, plan, &others)
}

/// Of each record of the first sheet, whether it is a node, an arc or a face whose outline differs in either sheet.
fn other_outlines(
    alloc: Global,
    report: &Reporter<'_>,
    here: &[bool],
    there: &[bool],
) -> Result<Vec<bool>, AllocError>
    requires here { AreOutlined (is_differing report.now) report.now.first.accepted here.now }
    requires there { AreOutlined (arrives report.now) report.now.second.accepted there.now }
    ensures { IfOk result (λ others. AreOthers report.now others.items) }
{
    values_of_places(
        alloc,
        record_count(report.first),
        |place| has_other_outline(report, here, there, place),
    )
}

/// Whether this is a node, an arc or a face whose outline differs in either sheet.
#[tactic(auto, unfolding(crate::specs::Objects::has_other_outline))]
pub(crate) fn has_other_outline(
    report: &Reporter<'_>,
    here: &[bool],
    there: &[bool],
    place: u32,
) -> bool
    requires here { AreOutlined (is_differing report.now) report.now.first.accepted here.now }
    requires there { AreOutlined (arrives report.now) report.now.second.accepted there.now }
    requires place { IsPlace report.now.first.accepted place }
    ensures { result ≡ has_other_outline report.now place }
{
    !is_object(report.first.accepted.sound().plan().kind(place))
        && (is_marked(here, place) || outline_there(report, there, became_of(report, place)))
}

/// Whether the outline of what a record went to differs.
fn outline_there(report: &Reporter<'_>, there: &[bool], target: Option<u32>) -> bool
    requires there { AreOutlined (arrives report.now) report.now.second.accepted there.now }
    requires target { IfSome target (IsPlace report.now.second.accepted) }
    ensures { result ≡ outline_there report.now target }
{
    match target {
        Some(target) => is_marked(there, target),
        None => false,
    }
}

/// Of each record of a plan, whether one that it names behind the first few is marked.
fn further_marks(alloc: Global, plan: &Plan, marks: &[bool]) -> Result<Vec<bool>, AllocError>
    ensures { IfOk result (λ further. further.items
        ≡ map (names_further (is_marked_place marks.now) plan.now) (range_with_len 0 (length plan.now.list))) }
{
    values_of_places(alloc, plan.len(), |place| names_further(plan, marks, place))
}

/// Whether one that a record names behind the first few is marked.
fn names_further(plan: &Plan, marks: &[bool], place: u32) -> bool
    requires { IsPlace plan.now place }
    ensures { result ≡ names_further (is_marked_place marks.now) plan.now place }
{
    some_marked(marks, ends_behind_few(plan.ends(place)))
}

/// The ends behind the first few.
fn ends_behind_few(ends: &[PlanEnd]) -> &[PlanEnd]
    ensures { result.now ≡ drop 4 ends.now }
{
    if ends.len() < MOST_NAMED {
        return &ends[ends.len()..];
    }
    &ends[MOST_NAMED..]
}
