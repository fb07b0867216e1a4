//! How many of the links that bound a face or an arc are gone, new or changed.

ghost use Rattle.std.specs.Prelude.{◌≡◌, ℕ, false, IfOk, OnOk, ◌++◌, length, map, slice_index_or};
ghost use Rattle.std.specs.List.{list_any, range_with_len};
ghost use Rattle.edi_plan.specs.Plans.{IsPlace, record_at};
ghost use Rattle.edi_plan.specs.Sides.{targets};
ghost use Rattle.edi_objects.specs.Bounds.{bends, bounds_and, bounds_count, bounds_text, bounds_with, is_bent, is_lost, is_lost_by, outline_counts_by};
ghost use Rattle.edi_objects.specs.Differing.{arrives, bounds_type as bounds_type_of, is_differing, is_initial_or_final, is_left_or_right};
ghost use Rattle.edi_schema.specs.declared.role.Role.{Role as Roles};
ghost use Rattle.edi_objects.specs.LinksOf.{entries_of, index_of};
ghost use Rattle.edi_objects.specs.inner.Sheets.{AreBoundCounts, AreNotes, AreTested, is_marked_place};

use crate::account::Notes;
use crate::index::entries_of;
use crate::marks::{became_of, parts_at, record_count};
use crate::outlines::{bounds_type, is_marked};
use edi_line::push_number;
use edi_plan::Plan;
use edi_record::Kind;
use edi_report::{DifferingParts, Reporter, values_of_places};
use edi_schema::Role;
use std::alloc::{AllocError, Global};

/// How many links that bound a record are gone, new or changed.
#[derive(Drop)]
pub(crate) struct BoundCounts {
    /// Of each record of the first sheet, how many are gone or got other ends.
    pub(crate) gone: Vec<usize>,
    /// Of each record of the second sheet, how many are new or got other ends.
    pub(crate) new: Vec<usize>,
    /// Of each record of the first sheet, how many changed, or what they bound it by.
    pub(crate) changed: Vec<usize>,
}

impl BoundCounts {
    /// Those of the records of two sheets, of which it is noted which differ.
    pub(crate) fn of(
        alloc: Global,
        report: &Reporter<'_>,
        here: &Notes,
        there: &Notes,
    ) -> Result<BoundCounts, AllocError>
        requires here { AreNotes (is_differing report.now) report.now.first.accepted here.now }
        requires there { AreNotes (arrives report.now) report.now.second.accepted there.now }
        ensures { IfOk result (AreBoundCounts report.now) }
    {
        let plan = report.first.accepted.sound().plan();
        let other = report.second.accepted.sound().plan();
        let lost = lost_marks(alloc, report, &here.marks)?;
        let bent = bent_marks(alloc, report, &here.marks, &lost)?;
        Ok(BoundCounts {
            gone: bounds_counts(alloc, plan, &here.index, &lost)?,
            new: bounds_counts(alloc, other, &there.index, &there.marks)?,
            changed: bounds_counts(alloc, plan, &here.index, &bent)?,
        })
    }
}

/// Of each record of the first sheet, whether it is gone or got other ends, where it is marked which differ.
fn lost_marks(alloc: Global, report: &Reporter<'_>, marks: &[bool]) -> Result<Vec<bool>, AllocError>
    requires { AreTested (is_differing report.now) (length report.now.first.accepted.list) marks.now }
    ensures { IfOk result (λ lost. AreTested (is_lost report.now) (length report.now.first.accepted.list) lost.items) }
{
    values_of_places(
        alloc,
        record_count(report.first),
        |place| is_lost(report, marks, place),
    )
}

/// Whether a record of the first sheet is gone or got other ends.
fn is_lost(report: &Reporter<'_>, marks: &[bool], place: u32) -> bool
    requires { AreTested (is_differing report.now) (length report.now.first.accepted.list) marks.now }
    ensures { result ≡ is_lost report.now place }
{
    is_marked(marks, place) && is_lost_by(became_of(report, place), &parts_at(report, place))
}

/// Whether a record that differs is gone or got other ends.
fn is_lost_by(became: Option<u32>, parts: &DifferingParts) -> bool
    ensures { result ≡ is_lost_by became parts.now }
{
    match became {
        Some(_) => parts.ends,
        None => true,
    }
}

/// Of each record of the first sheet, whether it is a link that is not lost, and it differs or a record by which it
/// bounds.
fn bent_marks(
    alloc: Global,
    report: &Reporter<'_>,
    marks: &[bool],
    lost: &[bool],
) -> Result<Vec<bool>, AllocError>
    requires marks { AreTested (is_differing report.now) (length report.now.first.accepted.list) marks.now }
    requires lost { AreTested (is_lost report.now) (length report.now.first.accepted.list) lost.now }
    ensures { IfOk result (λ bent. AreTested (is_bent report.now) (length report.now.first.accepted.list) bent.items) }
{
    values_of_places(
        alloc,
        record_count(report.first),
        |place| is_bent(report, marks, lost, place),
    )
}

/// Whether a link of the first sheet is not lost, and it differs or a record by which it bounds.
fn is_bent(report: &Reporter<'_>, marks: &[bool], lost: &[bool], link: u32) -> bool
    requires marks { AreTested (is_differing report.now) (length report.now.first.accepted.list) marks.now }
    requires lost { AreTested (is_lost report.now) (length report.now.first.accepted.list) lost.now }
    requires link { IsPlace report.now.first.accepted link }
    ensures { result ≡ is_bent report.now link }
{
    !is_marked(lost, link)
        && (is_marked(marks, link) || some_bends(report.first.accepted.sound().plan(), marks, link))
}

/// Whether a record by which a link bounds is marked.
fn some_bends(plan: &Plan, marks: &[bool], link: u32) -> bool
    requires { IsPlace plan.now link }
    ensures { result ≡ list_any (bends (is_marked_place marks.now) plan.now link) (targets (record_at plan.now link)) }
{
    plan.keeps();
    let role = plan.role(link);
    for end in plan.ends(link) {
        if bounds_with(role, plan.kind(end.target)) && is_marked(marks, end.target) {
            return true;
        }
    }
    false
}

/// Whether a link of this kind bounds by a record of this type.
fn bounds_with(role: Role, kind: Kind) -> bool
    ensures { result ≡ bounds_with role kind }
{
    match kind {
        Kind::Pno => matches!(role, Role::Initial | Role::Final),
        Kind::Par => matches!(role, Role::Left | Role::Right),
        Kind::Pfe | Kind::Fea | Kind::Lnk => false,
    }
}

/// Of each record of a plan, how many links that bound it are marked.
fn bounds_counts(
    alloc: Global,
    plan: &Plan,
    index: &[(u32, u32)],
    marks: &[bool],
) -> Result<Vec<usize>, AllocError>
    requires { index.now ≡ index_of plan.now }
    ensures { IfOk result (λ counts. counts.items
        ≡ map (bounds_count (is_marked_place marks.now) plan.now) (range_with_len 0 (length plan.now.list))) }
{
    values_of_places(
        alloc,
        plan.len(),
        |place| bounds_count(plan, index, marks, place),
    )
}

/// How many links that bound a record are marked.
fn bounds_count(plan: &Plan, index: &[(u32, u32)], marks: &[bool], place: u32) -> usize
    requires { index.now ≡ index_of plan.now }
    ensures { result ≡ bounds_count (is_marked_place marks.now) plan.now place }
{
    // Only arcs and faces have bounds. Most records are links, of which nothing is looked up.
    if !is_bounded(plan, place) {
        return 0;
    }
    entries_of(index, place)
        .iter()
        .filter(|(_, link)| bounds_and(plan, marks, place, *link))
        .count()
}

/// Whether there is a record at a place that links can bound: an arc or a face.
fn is_bounded(plan: &Plan, place: u32) -> bool
    ensures { result ≡ false → (role : Roles) → bounds_type_of role (record_at plan.now place).kind ≡ false }
{
    place >= plan.len()
        || match plan.kind(place) {
            Kind::Par | Kind::Pfe => true,
            Kind::Pno | Kind::Fea | Kind::Lnk => false,
        }
}

/// Whether a link bounds a record, and is marked.
fn bounds_and(plan: &Plan, marks: &[bool], place: u32, link: u32) -> bool
    ensures { result ≡ bounds_and (is_marked_place marks.now) plan.now place link }
{
    place < plan.len()
        && link < plan.len()
        && bounds_type(plan.role(link), plan.kind(place))
        && is_marked(marks, link)
}

/// What is counted of a record, if anything is.
pub(crate) fn count_at(counts: &[usize], place: u32) -> usize
    ensures { result ≡ slice_index_or counts.now place 0 }
{
    match counts.get(place as usize) {
        Some(count) => *count,
        None => 0,
    }
}

/// Appends how many arcs of a face, or nodes of an arc, are gone, new and changed.
pub(crate) fn push_outline_counts(
    text: &mut Vec<u8>,
    kind: Kind,
    gone: usize,
    new: usize,
    changed: usize,
) -> Result<(), AllocError>
    ensures { OnOk result (text.new.items ≡ text.old.items ++ outline_counts_by kind (bounds_text gone new changed)) }
{
    match kind {
        Kind::Par => text.extend_from_slice(b": nodes ")?,
        Kind::Pfe => text.extend_from_slice(b": arcs ")?,
        Kind::Pno | Kind::Fea | Kind::Lnk => return Ok(()),
    }
    push_bounds(text, gone, new, changed)
}

/// Appends so many gone, so many new, so many changed.
fn push_bounds(
    text: &mut Vec<u8>,
    gone: usize,
    new: usize,
    changed: usize,
) -> Result<(), AllocError>
    ensures { OnOk result (text.new.items ≡ text.old.items ++ bounds_text gone new changed) }
{
    push_number(text, gone as u64)?;
    text.extend_from_slice(b" gone, ")?;
    push_number(text, new as u64)?;
    text.extend_from_slice(b" new, ")?;
    push_number(text, changed as u64)?;
    text.extend_from_slice(b" changed")
}
