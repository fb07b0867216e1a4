//! How far two positions lie from each other.

ghost use Rattle.std.specs.Prelude.{◌≡◌, ◌-ℤ◌, ◌<◌, ◌^◌, reverse, zip};
ghost use Rattle.edi_objects.specs.Distances.{distance_between, distance_of_first, farthest, root, side_by_side, square_of, unlike_count};

use edi_line::Num;
use edi_record::Point;

/// The square root, rounded down.
fn root(number: u128) -> u64
    ensures { result ≡ root number }
{
    number.isqrt() as u64
}

/// The square of the difference of two numbers, in millionths of millionths.
fn square_between(number: Num, other: Num) -> u128
    ensures square { result ≡ square_of (number -ℤ other) }
    ensures bound { result < 2 ^ 127 }
{
    let difference = u128::from(number.millionths().abs_diff(other.millionths()));
    difference * difference
}

/// The distance of two positions in the plane, in millionths of the file's unit and rounded down.
fn distance_between(point: &Point, other: &Point) -> u64
    ensures { result ≡ distance_between point.now other.now }
{
    root(square_between(point.x, other.x) + square_between(point.y, other.y))
}

/// How the points of a list became those of another of the same length.
#[derive(Clone, Copy)]
pub(crate) struct Moves {
    /// How many of them differ.
    pub(crate) count: usize,
    /// The greatest distance.
    pub(crate) farthest: u64,
}

/// How many points differ, one by one.
fn unlike_ahead(points: &[Point], others: &[Point]) -> usize
    ensures { result ≡ unlike_count (zip points.now others.now) }
{
    points
        .iter()
        .zip(others)
        .filter(|(point, other)| point.cmp(other).is_ne())
        .count()
}

/// The same, where the others are gone over backwards.
fn unlike_back(points: &[Point], others: &[Point]) -> usize
    ensures { result ≡ unlike_count (zip points.now (reverse others.now)) }
{
    points
        .iter()
        .zip(others.iter().rev())
        .filter(|(point, other)| point.cmp(other).is_ne())
        .count()
}

/// The greatest distance of two points side by side.
fn farthest_ahead(points: &[Point], others: &[Point]) -> u64
    ensures { result ≡ farthest (zip points.now others.now) }
{
    points.iter().zip(others).fold(
        0,
        |most, (point, other)| most.max(distance_between(point, other)),
    )
}

/// The same, where the others are gone over backwards.
fn farthest_back(points: &[Point], others: &[Point]) -> u64
    ensures { result ≡ farthest (zip points.now (reverse others.now)) }
{
    points.iter().zip(others.iter().rev()).fold(
        0,
        |most, (point, other)| most.max(distance_between(point, other)),
    )
}

/// How the points of a list became those of another, in the direction in which fewer differ.
pub(crate) fn moves_between(points: &[Point], others: &[Point]) -> Moves
    ensures count { result.count ≡ unlike_count (side_by_side points.now others.now) }
    ensures farthest { result.farthest ≡ farthest (side_by_side points.now others.now) }
{
    let ahead = unlike_ahead(points, others);
    let back = unlike_back(points, others);
    if ahead <= back {
        Moves {
            count: ahead,
            farthest: farthest_ahead(points, others),
        }
    } else {
        Moves {
            count: back,
            farthest: farthest_back(points, others),
        }
    }
}

/// The distance of the first points of two lists; 0 where one has none.
pub(crate) fn distance_of_first(points: &[Point], others: &[Point]) -> u64
    ensures { result ≡ distance_of_first points.now others.now }
{
    match (points.first(), others.first()) {
        (Some(point), Some(other)) => distance_between(point, other),
        _ => 0,
    }
}
