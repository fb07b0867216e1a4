//! Which way an arc runs that became another one.

ghost use Rattle.std.specs.Prelude.{◌≡◌, ◌<◌, length, reverse, slice_index_or};
ghost use Rattle.edi_record.specs.declared.record.Point.{Point as AnyPoint};
ghost use Rattle.edi_rank.specs.Same.{directed};
ghost use Rattle.edi_diff.specs.Directions.{RunsBackwards, SharesEnds, SharesFirst};

use edi_record::Point;
use edi_topo::is_forward;

/// Whether the points of an arc run the other way than those of the one that it became: backwards it shares more of
/// them with that one, from both ends on. Where it shares as many, each runs as its direction says.
pub(crate) fn runs_backwards(points: &[Point], others: &[Point]) -> bool
    ensures { RunsBackwards points.now others.now result }
{
    let ahead = shared_ends(points, others, false);
    let back = shared_ends(points, others, true);
    if ahead == back {
        is_forward(points) != is_forward(others)
    } else {
        ahead < back
    }
}

/// How many points two lists share from both ends on, the second as it is or backwards.
fn shared_ends(points: &[Point], others: &[Point], backwards: bool) -> u128
    ensures { SharesEnds points.now (directed backwards others.now) result }
{
    let first = count_shared(points, false, others, backwards);
    let last = count_shared(points, true, others, !backwards);
    first as u128 + last as u128
}

/// How many first points two lists share, each as it is or backwards.
fn count_shared(
    points: &[Point],
    backwards: bool,
    others: &[Point],
    others_backwards: bool,
) -> usize
    ensures { SharesFirst (directed backwards points.now) (directed others_backwards others.now) result }
{
    let most = points.len().min(others.len());
    for count in 0..most {
        let point = point_at(points, backwards, count);
        if point.cmp(point_at(others, others_backwards, count)).is_ne() {
            return count;
        }
    }
    most
}

/// The point at a place, of the points as they are or backwards.
fn point_at(points: &[Point], backwards: bool, place: usize) -> &Point
    requires { place < length points.now }
    ensures { (d : AnyPoint) → result.now ≡ slice_index_or (directed backwards points.now) place d }
{
    if backwards {
        &points[points.len() - 1 - place]
    } else {
        &points[place]
    }
}
