//! Whether two records hold the same.

ghost use Rattle.std.specs.Prelude.{◌≡◌, ◌↔◌, IsTrue, IfOk, IsPermutation, option_copied, reverse};
ghost use Rattle.edi_rank.specs.Same.{directed};

use edi_line::ListOfBorrowed;
use edi_plan::{PlanAttribute, sorted_attributes};
use edi_record::{Extra, Point};
use std::alloc::{AllocError, Global};

/// Whether these are the points, backwards where their arc is turned.
pub fn same_points(points: &[Point], turned: bool, others: &[Point]) -> bool
    ensures { IsTrue result ↔ (others.now ≡ directed turned points.now) }
{
    if turned {
        are_reverse(points, others)
    } else {
        others == points
    }
}

fn are_reverse(points: &[Point], others: &[Point]) -> bool
    ensures { IsTrue result ↔ (others.now ≡ reverse points.now) }
{
    if others.len() != points.len() {
        return false;
    }
    for (i, point) in others.iter().enumerate() {
        if *point != points[points.len() - 1 - i] {
            return false;
        }
    }
    true
}

/// Whether these are the extra zones, in their order.
pub fn same_extras(extras: &[Extra], others: &[Extra]) -> bool
    ensures { IsTrue result ↔ (others.now ≡ extras.now) }
{
    others == extras
}

/// Whether these are the attributes, in any order.
pub fn same_attributes(
    alloc: Global,
    attributes: &[PlanAttribute],
    others: &[PlanAttribute],
) -> Result<bool, AllocError>
    ensures { IfOk result (λ answer. IsTrue answer ↔ IsPermutation attributes.now others.now) }
{
    if others == attributes {
        return Ok(true);
    }
    let first = sorted_attributes(alloc, attributes)?;
    let second = sorted_attributes(alloc, others)?;
    Ok(ListOfBorrowed::from_vec(first) == ListOfBorrowed::from_vec(second))
}

/// Whether two texts are equal, or both are missing.
pub fn same_texts(first: Option<&[u8]>, second: Option<&[u8]>) -> bool
    ensures { IsTrue result ↔ (option_copied first.entry ≡ option_copied second.entry) }
{
    match (first, second) {
        (Some(one), Some(other)) => one == other,
        (None, None) => true,
        (Some(_), None) | (None, Some(_)) => false,
    }
}
