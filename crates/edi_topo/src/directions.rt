//! The direction of arcs.

ghost use Rattle.std.specs.Prelude.{◌≡◌, ◌<◌, ◌↔◌, IsTrue, length, reverse, slice_index_or};
ghost use Rattle.edi_record.specs.Orders.{point_cmp, points_cmp};
ghost use Rattle.edi_record.specs.declared.record.Point.{Point};
ghost use Rattle.edi_topo.specs.Directions.{is_forward};

use edi_record::Point;
use std::cmp::Ordering;

/// How the point at a place goes with the one as far from the other end.
fn compare_across(points: &[Point], i: usize) -> Ordering
    requires { i < length points.now }
    ensures { (d : Point)
        → result ≡ point_cmp (slice_index_or points.now i d) (slice_index_or (reverse points.now) i d) }
{
    points[i].cmp(&points[points.len() - 1 - i])
}

/// How the points go with their reverse: the first that differs from the one as far from the other end decides.
fn direction(points: &[Point]) -> Ordering
    ensures { result ≡ points_cmp points.now (reverse points.now) }
{
    for i in 0..points.len() {
        let order = compare_across(points, i);
        if order.is_ne() {
            return order;
        }
    }
    Ordering::Equal
}

/// Whether the points are less than their reverse. Points go by x, then y, then z, of which a missing one comes first.
pub fn is_forward(points: &[Point]) -> bool
    ensures { result ≡ is_forward points.now }
{
    direction(points).is_lt()
}

/// Whether the points are their reverse: rule 404.
pub(crate) fn equals_reverse(points: &[Point]) -> bool
    ensures { IsTrue result ↔ (points.now ≡ reverse points.now) }
{
    direction(points).is_eq()
}
