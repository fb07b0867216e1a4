//! The least and the greatest coordinates of plans.

ghost use Rattle.std.specs.Prelude.{◌≡◌, ◌⊎◌, ◌++◌, ◌∷◌, [], List, ℤ};
ghost use Rattle.std.specs.Int.Signed.{◌≤ℤ◌};
ghost use Rattle.edi_record.specs.declared.record.Point.{Point as Points};
ghost use Rattle.edi_plan.specs.Extents.{IsExtent, IsExtentIfAny, IsSpan, points_of};

use crate::plan::Plan;
use edi_line::Num;
use edi_record::Point;

/// The least and the greatest of some numbers, in millionths of the file's unit.
#[derive(Clone, Copy)]
pub struct Span {
    pub least: Num,
    pub greatest: Num,
}

/// The least and the greatest coordinates of some points.
#[derive(Clone, Copy)]
pub struct Extent {
    pub x: Span,
    pub y: Span,
}

fn lesser(first: Num, second: Num) -> Num
    ensures one { (result ≡ first) ⊎ (result ≡ second) }
    ensures first { result ≤ℤ first }
    ensures second { result ≤ℤ second }
{
    if second.cmp(&first).is_lt() {
        second
    } else {
        first
    }
}

fn greater(first: Num, second: Num) -> Num
    ensures one { (result ≡ first) ⊎ (result ≡ second) }
    ensures first { first ≤ℤ result }
    ensures second { second ≤ℤ result }
{
    if first.cmp(&second).is_lt() {
        second
    } else {
        first
    }
}

impl Span {
    ghost use Rattle.std.specs.Prelude.{◌++◌, ◌∷◌, [], List, ℤ};
    ghost use Rattle.edi_plan.specs.Extents.{IsSpan};

    /// The span of one number.
    fn at(number: Num) -> Span
        ensures { IsSpan (number ∷ []) result }
    {
        Span {
            least: number,
            greatest: number,
        }
    }

    /// The span with one number more.
    fn with_number(self, number: Num) -> Span
        ensures { (numbers : List ℤ) → IsSpan numbers self → IsSpan (numbers ++ number ∷ []) result }
    {
        Span {
            least: lesser(self.least, number),
            greatest: greater(self.greatest, number),
        }
    }
}

/// The extent of some points and one more.
pub fn extent_with_point(found: Option<Extent>, point: &Point) -> Extent
    ensures { (points : List Points) → IsExtentIfAny points found → IsExtent (points ++ point.now ∷ []) result }
{
    match found {
        Some(extent) => Extent {
            x: extent.x.with_number(point.x),
            y: extent.y.with_number(point.y),
        },
        None => Extent {
            x: Span::at(point.x),
            y: Span::at(point.y),
        },
    }
}

/// The extent of some points and these.
fn with_points(found: Option<Extent>, points: &[Point]) -> Option<Extent>
    ensures { (before : List Points) → IsExtentIfAny before found → IsExtentIfAny (before ++ points.now) result }
{
    let mut found = found;
    for point in points {
        found = Some(extent_with_point(found, point));
    }
    found
}

/// The extent of some points and those of a plan.
pub fn extent_with(found: Option<Extent>, plan: &Plan) -> Option<Extent>
    ensures { (before : List Points) → IsExtentIfAny before found
        → IsExtentIfAny (before ++ points_of plan.now) result }
{
    let mut found = found;
    for place in 0..plan.len() {
        found = with_points(found, plan.points(place));
    }
    found
}

/// The least and the greatest x and y of all nodes and arcs, or `None` where there are none.
pub fn extent_of(plan: &Plan) -> Option<Extent>
    ensures { IsExtentIfAny (points_of plan.now) result }
{
    extent_with(None, plan)
}
