//! The frame of a picture, and its scale.

ghost use Rattle.std.specs.Prelude.{◌≡◌, ◌++◌, ◌∷◌, ◌<◌, ◌≤◌, [], List, filter};
ghost use Rattle.edi_record.specs.declared.record.Point.{Point as Points};
ghost use Rattle.edi_plan.specs.Extents.{IsExtentIfAny, points_of};
ghost use Rattle.edi_picture.specs.Frames.{IsBar, IsFrame, distance, is_beyond, is_near, is_near_span, is_outside, pixel, plan_height, side_length, width_pixel};
ghost use Rattle.edi_picture.specs.Sheets.{all_points, arc_points, arc_points_of};

use crate::shown::Shown;
use edi_line::Num;
use edi_plan::{Extent, Plan, Span, extent_with_point};
use edi_record::{Kind, Point};

/// How far two coordinates are apart, in millionths of the file's unit.
pub(crate) fn distance_between(one: Num, other: Num) -> u64
    ensures { result ≡ distance one other }
{
    one.millionths().abs_diff(other.millionths())
}

/// The length of a side of a frame with this span, in millionths of the file's unit.
pub(crate) fn side(span: Span) -> u64
    ensures side { result ≡ side_length span }
    ensures some { 0 < result }
{
    match distance_between(span.greatest, span.least) {
        0 => 1_000_000,
        length => length,
    }
}

// ---- what the frame holds

/// Whether a coordinate lies in a span, or no farther from it than the span is long.
fn is_near_span(span: &Span, number: Num) -> bool
    ensures { result ≡ is_near_span span.now number }
{
    let length = side(*span);
    distance_between(number, span.least) / 2 <= length
        && distance_between(number, span.greatest) / 2 <= length
}

/// The same of a point, if there are arcs, by their extent.
fn is_near(arcs: &Option<Extent>, point: &Point) -> bool
    ensures { result ≡ is_near arcs.now point.now }
{
    match arcs {
        Some(extent) => is_near_span(&extent.x, point.x) && is_near_span(&extent.y, point.y),
        None => true,
    }
}

/// The extent of some points and these.
fn with_points(found: Option<Extent>, points: &[Point]) -> Option<Extent>
    ensures { (before : List Points) → IsExtentIfAny before found → IsExtentIfAny (before ++ points.now) result }
{
    let mut found = found;
    for point in points {
        found = Some(extent_with_point(found, point));
    }
    found
}

/// The extent of some points and those of the arcs of a plan.
fn with_arcs(found: Option<Extent>, plan: &Plan) -> Option<Extent>
    ensures { (before : List Points) → IsExtentIfAny before found
        → IsExtentIfAny (before ++ arc_points_of plan.now) result }
{
    let mut found = found;
    for place in plan.places(Kind::Par) {
        found = with_points(found, plan.points(*place));
    }
    found
}

/// The extent of all arcs, if there are any.
fn arcs_extent(sheets: &[Shown<'_>]) -> Option<Extent>
    ensures { IsExtentIfAny (arc_points sheets.now) result }
{
    let mut found = None;
    for sheet in sheets {
        found = with_arcs(found, sheet.plan());
    }
    found
}

/// The extent of some points and a point that is near the arcs.
fn with_near_point(found: Option<Extent>, arcs: &Option<Extent>, point: &Point) -> Option<Extent>
    ensures { (before : List Points) → IsExtentIfAny before found
        → IsExtentIfAny (before ++ filter (is_near arcs.now) (point.now ∷ [])) result }
{
    if is_near(arcs, point) {
        Some(extent_with_point(found, point))
    } else {
        found
    }
}

/// The extent of some points and of these those near the arcs.
fn with_near_points(
    found: Option<Extent>,
    arcs: &Option<Extent>,
    points: &[Point],
) -> Option<Extent>
    ensures { (before : List Points) → IsExtentIfAny before found
        → IsExtentIfAny (before ++ filter (is_near arcs.now) points.now) result }
{
    let mut found = found;
    for point in points {
        found = with_near_point(found, arcs, point);
    }
    found
}

/// The extent of some points and of those of a plan those near the arcs.
fn with_near_plan(found: Option<Extent>, arcs: &Option<Extent>, plan: &Plan) -> Option<Extent>
    ensures { (before : List Points) → IsExtentIfAny before found
        → IsExtentIfAny (before ++ filter (is_near arcs.now) (points_of plan.now)) result }
{
    let mut found = found;
    for place in 0..plan.len() {
        found = with_near_points(found, arcs, plan.points(place));
    }
    found
}

/// The extent of all points near the arcs, or `None` where there are none.
fn near_extent(arcs: &Option<Extent>, sheets: &[Shown<'_>]) -> Option<Extent>
    ensures { IsExtentIfAny (filter (is_near arcs.now) (all_points sheets.now)) result }
{
    let mut found = None;
    for sheet in sheets {
        found = with_near_plan(found, arcs, sheet.plan());
    }
    found
}

/// The frame of all arcs and of the nodes that aren't far off, or `None` where there are none.
pub(crate) fn frame_of(sheets: &[Shown<'_>]) -> Option<Extent>
    ensures { IsFrame sheets.now result }
{
    near_extent(&arcs_extent(sheets), sheets)
}

/// Whether a coordinate lies outside of a span.
fn is_beyond(span: Span, number: Num) -> bool
    ensures { result ≡ is_beyond span number }
{
    let number = number.millionths();
    number < span.least.millionths() || span.greatest.millionths() < number
}

/// Whether a point lies outside of the frame.
pub(crate) fn is_outside(frame: &Extent, point: &Point) -> bool
    ensures { result ≡ is_outside frame.now point.now }
{
    is_beyond(frame.x, point.x) || is_beyond(frame.y, point.y)
}

// ---- the scale

/// The bar of the scale of a picture of this width.
pub(crate) fn bar_within(width: u64) -> u64
    requires { 0 < width }
    ensures { IsBar width result }
{
    10u64.pow(width.ilog10())
}

/// How many millionths of the file's unit a pixel stands for, where 960 of them are as wide as the frame.
fn width_pixel(frame: &Extent) -> u64
    ensures pixel { result ≡ width_pixel frame.now }
    ensures some { 0 < result }
    ensures small { result ≤ 20000000000000000 }
{
    side(frame.x) / 960 + 1
}

/// How many pixels the plan is high.
pub(crate) fn plan_height(frame: &Extent) -> u64
    ensures height { result ≡ plan_height frame.now }
    ensures small { result ≤ 1200 }
{
    let height = side(frame.y) / width_pixel(frame);
    height.saturating_add(1).min(1200)
}

/// How many millionths of the file's unit a pixel stands for, where both sides fit.
pub(crate) fn pixel(frame: &Extent) -> u64
    ensures pixel { result ≡ pixel frame.now }
    ensures some { 0 < result }
    ensures small { result ≤ 20000000000000000 }
{
    width_pixel(frame).max(side(frame.y) / 1200 + 1)
}
