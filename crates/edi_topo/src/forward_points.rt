//! The points of an arc in their forward direction.

ghost use Rattle.std.specs.Prelude.{◌≡◌, ◌<◌, length, refl, slice_index_or};
ghost use Rattle.std.specs.Ordering.{as_partial_cmp, eq_by_cmp};
ghost use Rattle.std.specs.Cmp.{eq_by_cmp_equiv, partial_equiv_from_equiv, partial_order_from_total};
ghost use Rattle.edi_record.specs.Orders.{points_cmp};
ghost use Rattle.edi_plan.proofs.Orders.{points_total};
ghost use Rattle.edi_record.specs.declared.record.Point.{Point};
ghost use Rattle.edi_topo.specs.Directions.{forward};

use crate::directions::is_forward;
use edi_record::Point;
use std::cmp::Ordering;
use std::marker::Model;

/// Points in their forward direction, borrowed. They are compared and ordered as these in their order, and
/// contracts see the list of these.
#[derive(Drop)]
pub struct ForwardPoints<'a> {
    points: &'a [Point],
    backward: bool,
}

impl<'a> Model for ForwardPoints<'a> {
    ghost use Rattle.std.specs.Prelude.{List, reverse, if◌then◌else◌};
    ghost use Rattle.edi_record.specs.declared.record.Point.{Point};

    ghost Value = { List Point };

    ghost view = { λ p. if p.backward then reverse p.points.now else p.points.now };
}

impl<'a> ForwardPoints<'a> {
    /// These points, or their reverse where that is forward.
    pub fn of(points: &'a [Point]) -> ForwardPoints<'a>
        ensures { result ≡ forward points.now }
    {
        ForwardPoints {
            points,
            backward: !is_forward(points),
        }
    }

    fn len(&self) -> usize
        ensures { result ≡ length self.now }
    {
        self.points.len()
    }

    fn point(&self, place: usize) -> &'a Point
        requires { place < length self.now }
        ensures { (d : Point) → result.now ≡ slice_index_or self.now place d }
    {
        if self.backward {
            &self.points[self.points.len() - 1 - place]
        } else {
            &self.points[place]
        }
    }
}

/// How points go: the first that differ decide, and else the counts do.
fn compare(a: &ForwardPoints<'_>, b: &ForwardPoints<'_>) -> Ordering
    ensures { result ≡ points_cmp a.now b.now }
{
    for i in 0..a.len().min(b.len()) {
        let order = a.point(i).cmp(b.point(i));
        if order.is_ne() {
            return order;
        }
    }
    a.len().cmp(&b.len())
}

impl<'a> PartialEq for ForwardPoints<'a> {
    ghost eq = { eq_by_cmp points_cmp };

    ghost laws = { partial_equiv_from_equiv (eq_by_cmp_equiv points_total) };

    fn eq(&self, other: &Self) -> bool {
        compare(self, other).is_eq()
    }
}

impl<'a> Eq for ForwardPoints<'a> {
    ghost laws = { eq_by_cmp_equiv points_total };
}

impl<'a> PartialOrd for ForwardPoints<'a> {
    ghost partial_cmp = { as_partial_cmp points_cmp };

    ghost laws = { partial_order_from_total points_total };

    fn partial_cmp(&self, other: &Self) -> Option<Ordering> {
        Some(compare(self, other))
    }
}

impl<'a> Ord for ForwardPoints<'a> {
    ghost cmp = { points_cmp };

    ghost total = { points_total };

    ghost matches_partial_cmp = { λ x y. refl };

    ghost matches_eq = { λ x y. refl };

    fn cmp(&self, other: &Self) -> Ordering {
        compare(self, other)
    }
}
