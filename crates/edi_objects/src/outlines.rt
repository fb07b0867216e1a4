//! Whether the outlines of records differ.

ghost use Rattle.std.specs.Prelude.{◌≡◌, IfOk, length, map};
ghost use Rattle.std.specs.List.{list_any, range_with_len};
ghost use Rattle.edi_plan.specs.Plans.{IsPlace, record_at};
ghost use Rattle.edi_objects.specs.Differing.{bounds_type, bounds_anew, is_initial_or_final, is_left_or_right, outline_differs};
ghost use Rattle.edi_objects.specs.LinksOf.{entries_of, index_of};
ghost use Rattle.edi_objects.specs.inner.Sheets.{is_marked_place};

use crate::index::entries_of;
use edi_plan::{Plan, PlanEnd};
use edi_record::Kind;
use edi_report::values_of_places;
use edi_schema::Role;
use std::alloc::{AllocError, Global};

/// Of each record of a plan, whether its outline differs, where it is marked which records do.
pub(crate) fn outlines(
    alloc: Global,
    plan: &Plan,
    index: &[(u32, u32)],
    marks: &[bool],
) -> Result<Vec<bool>, AllocError>
    requires { index.now ≡ index_of plan.now }
    ensures { IfOk result (λ outlines. outlines.items
        ≡ map (outline_differs (is_marked_place marks.now) plan.now) (range_with_len 0 (length plan.now.list))) }
{
    values_of_places(
        alloc,
        plan.len(),
        |place| outline_differs(plan, index, marks, place),
    )
}

/// Whether the outline of a record differs.
fn outline_differs(plan: &Plan, index: &[(u32, u32)], marks: &[bool], place: u32) -> bool
    requires index { index.now ≡ index_of plan.now }
    requires place { IsPlace plan.now place }
    ensures { result ≡ outline_differs (is_marked_place marks.now) plan.now place }
{
    if is_marked(marks, place) {
        return true;
    }
    for (_, link) in entries_of(index, place) {
        if bounds_anew(plan, marks, place, *link) {
            return true;
        }
    }
    false
}

/// Whether a link bounds a record, and it differs or a record that it names.
fn bounds_anew(plan: &Plan, marks: &[bool], place: u32, link: u32) -> bool
    requires place { IsPlace plan.now place }
    ensures { result ≡ bounds_anew (is_marked_place marks.now) plan.now place link }
{
    link < plan.len()
        && bounds_type(plan.role(link), plan.kind(place))
        && (is_marked(marks, link) || some_marked(marks, plan.ends(link)))
}

/// Whether some end is marked.
pub(crate) fn some_marked(marks: &[bool], ends: &[PlanEnd]) -> bool
    ensures { result ≡ list_any (is_marked_place marks.now) (map (λ e. e.target) ends.now) }
{
    for end in ends {
        if is_marked(marks, end.target) {
            return true;
        }
    }
    false
}

/// Whether a record is marked.
pub(crate) fn is_marked(marks: &[bool], place: u32) -> bool
    ensures { result ≡ is_marked_place marks.now place }
{
    match marks.get(place as usize) {
        Some(mark) => *mark,
        None => false,
    }
}

/// Whether a link of this kind bounds a record of this type.
pub(crate) fn bounds_type(role: Role, kind: Kind) -> bool
    ensures { result ≡ bounds_type role kind }
{
    match kind {
        Kind::Par => matches!(role, Role::Initial | Role::Final),
        Kind::Pfe => matches!(role, Role::Left | Role::Right),
        Kind::Pno | Kind::Fea | Kind::Lnk => false,
    }
}
