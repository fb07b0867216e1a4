//! The ends of arcs.

ghost use Rattle.std.specs.Prelude.{◌≡◌, ◌++◌, ◌∷◌, [], IfOk, List, OnOk};
ghost use Rattle.std.specs.List.{All};
ghost use Rattle.edi_record.specs.declared.record.Point.{Point as Points};
ghost use Rattle.edi_plan.specs.Plans.{IsPlace};
ghost use Rattle.edi_picture.specs.Faces.{ends_of, form_rings, tips};
ghost use Rattle.edi_picture.specs.inner.Odd.{HasOdd};

use edi_plan::Plan;
use edi_record::Point;
use std::alloc::{AllocError, AllocFailed, Global};
use std::collections::BTreeSet;

/// Appends the first and the last of some points.
fn push_tips(ends: &mut Vec<Point>, points: &[Point]) -> Result<(), AllocError>
    ensures { OnOk result (ends.new.items ≡ ends.old.items ++ tips points.now) }
{
    let (first, _) = points.split_at(points.len().min(1));
    let (_, last) = points.split_at(points.len().saturating_sub(1));
    ends.extend_from_slice(first)?;
    ends.extend_from_slice(last)
}

/// The ends of some arcs.
pub(crate) fn ends_of_arcs(
    alloc: Global,
    plan: &Plan,
    arcs: &[u32],
) -> Result<Vec<Point>, AllocError>
    requires { All (IsPlace plan.now) arcs.now }
    ensures { IfOk result (λ ends. ends.items ≡ ends_of plan.now arcs.now) }
{
    let mut ends = Vec::new(alloc);
    for arc in arcs {
        push_tips(&mut ends, plan.points(*arc))?;
    }
    Ok(ends)
}

/// Adds an end to those of which an odd number is at each of these places.
fn add_end(odd: &mut BTreeSet<(i64, i64)>, end: &Point) -> Result<(), AllocError>
    ensures { OnOk result ((ends : List Points) → HasOdd odd.old ends → HasOdd odd.new (ends ++ end.now ∷ [])) }
{
    let spot = (end.x.millionths(), end.y.millionths());
    if odd.remove(&spot) {
        return Ok(());
    }
    match odd.insert(spot) {
        Ok(_) => Ok(()),
        Err(AllocFailed { .. }) => Err(AllocError),
    }
}

/// Whether an even number of ends is at each.
pub(crate) fn closes(alloc: Global, ends: &[Point]) -> Result<bool, AllocError>
    ensures { IfOk result (λ answer. answer ≡ form_rings ends.now) }
{
    let mut odd = BTreeSet::new(alloc);
    for end in ends {
        add_end(&mut odd, end)?;
    }
    Ok(odd.is_empty())
}
