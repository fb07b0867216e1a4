//! The nodes at the ends of arcs: rules 401 and 402.

ghost use Rattle.std.specs.Prelude.{◌≡◌, ◌<◌, ◌↔◌, ◌-◌, IsTrue, length, slice_index_or, suc};
ghost use Rattle.std.specs.Ordering.{is_ne};
ghost use Rattle.edi_record.specs.Orders.{point_cmp};
ghost use Rattle.edi_record.specs.declared.record.Kind.TheVariants.{Par};
ghost use Rattle.edi_plan.specs.Joined.{IsJoined};
ghost use Rattle.edi_plan.specs.Plans.{IsPlace, record_at};
ghost use Rattle.edi_topo.specs.NodeKeys.{no_point};
ghost use Rattle.edi_topo.specs.TopologyRules.{EndsElsewhere, StartsElsewhere};

use crate::node_key::first_point;
use edi_plan::Plan;
use edi_record::Point;
use edi_schema::Role;

fn last_point(points: &[Point]) -> Point
    requires { 0 < length points.now }
    ensures { result ≡ slice_index_or points.now (length points.now - 1) no_point }
{
    points[points.len() - 1]
}

/// Whether two points differ.
fn differ(a: Point, b: Point) -> bool
    ensures { result ≡ is_ne (point_cmp a b) }
{
    a.cmp(&b).is_ne()
}

/// Whether the initial node of an arc isn't at its first point.
pub(crate) fn starts_elsewhere(plan: &Plan, arc: u32) -> bool
    requires joined { IsJoined plan.now }
    requires place { IsPlace plan.now arc }
    requires arc { (record_at plan.now arc).kind ≡ Par }
    ensures { IsTrue result ↔ StartsElsewhere plan.now (suc arc) }
{
    plan.keeps();
    match plan.side(arc, Role::Initial) {
        Some(node) => differ(
            first_point(plan.points(node)),
            first_point(plan.points(arc)),
        ),
        None => false,
    }
}

/// Whether the final node of an arc isn't at its last point.
pub(crate) fn ends_elsewhere(plan: &Plan, arc: u32) -> bool
    requires joined { IsJoined plan.now }
    requires place { IsPlace plan.now arc }
    requires arc { (record_at plan.now arc).kind ≡ Par }
    ensures { IsTrue result ↔ EndsElsewhere plan.now (suc arc) }
{
    plan.keeps();
    match plan.side(arc, Role::Final) {
        Some(node) => differ(first_point(plan.points(node)), last_point(plan.points(arc))),
        None => false,
    }
}
