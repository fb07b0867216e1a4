//! The ends of links, renamed.

ghost use Rattle.std.specs.Prelude.{◌≡◌, ◌↔◌, ◌<◌, IsTrue, IfOk, IsPermutation, length, map, option_map, slice_index};
ghost use Rattle.std.specs.List.{AllByRecursion};
ghost use Rattle.edi_plan.specs.Plans.{first_of, rest_of};
ghost use Rattle.edi_rank.specs.Same.{moved};
ghost use Rattle.edi_compare.specs.inner.Checking.{placed_end};

use edi_line::BorrowedList;
use edi_plan::PlanEnd;
use std::alloc::{AllocError, Global};

/// An end by the place of what it names, with its SNS borrowed from the plan. Ends go by place, then SNS.
#[derive(Drop, PartialEq, Eq, PartialOrd, Ord)]
pub(crate) struct MovedEnd<'a> {
    target: u32,
    sns: Option<BorrowedList<'a, u8>>,
}

fn end_at(target: u32, end: &PlanEnd) -> MovedEnd<'_>
    ensures { result ≡ record { target = target; sns = end.now.sns } }
{
    let sns = match &end.sns {
        Some(text) => Some(BorrowedList::of(text.as_slice())),
        None => None,
    };
    MovedEnd { target, sns }
}

/// Whether the end, renamed, is this other.
fn same_end(to: &[u32], end: &PlanEnd, other: &PlanEnd) -> bool
    requires { end.now.target < length to.now }
    ensures { IsTrue result ↔ (other.now ≡ moved (slice_index to.now) end.now) }
{
    end_at(other.target, other) == end_at(to[end.target as usize], end)
}

fn moved_ends<'a>(
    alloc: Global,
    to: &[u32],
    ends: &'a [PlanEnd],
) -> Result<Vec<MovedEnd<'a>>, AllocError>
    requires { AllByRecursion (λ e. e.target < length to.now) ends.now }
    ensures { IfOk result (λ moves. moves.items ≡ map (λ e. placed_end (moved (slice_index to.now) e)) ends.now) }
{
    let mut moves = Vec::with_capacity(alloc, ends.len())?;
    for end in ends {
        moves.push(end_at(to[end.target as usize], end))?;
    }
    Ok(moves)
}

fn placed_ends(alloc: Global, ends: &[PlanEnd]) -> Result<Vec<MovedEnd<'_>>, AllocError>
    ensures { IfOk result (λ places. places.items ≡ map placed_end ends.now) }
{
    let mut places = Vec::with_capacity(alloc, ends.len())?;
    for end in ends {
        places.push(end_at(end.target, end))?;
    }
    Ok(places)
}

/// Whether the ends, renamed, are these others in any order.
fn same_in_order(
    alloc: Global,
    to: &[u32],
    ends: &[PlanEnd],
    others: &[PlanEnd],
) -> Result<bool, AllocError>
    requires { AllByRecursion (λ e. e.target < length to.now) ends.now }
    ensures { IfOk result (λ answer. IsTrue answer
        ↔ IsPermutation (map (moved (slice_index to.now)) ends.now) others.now) }
{
    let mut moves = moved_ends(alloc, to, ends)?;
    let mut places = placed_ends(alloc, others)?;
    moves.sort_unstable();
    places.sort_unstable();
    Ok(moves == places)
}

fn same_others(
    alloc: Global,
    to: &[u32],
    ends: &[PlanEnd],
    others: &[PlanEnd],
) -> Result<bool, AllocError>
    requires { AllByRecursion (λ e. e.target < length to.now) ends.now }
    ensures { IfOk result (λ answer. IsTrue answer
        ↔ IsPermutation (map (moved (slice_index to.now)) ends.now) others.now) }
{
    if ends.len() == 1 && others.len() == 1 {
        return Ok(same_end(to, &ends[0], &others[0]));
    }
    same_in_order(alloc, to, ends, others)
}

/// Whether the ends, renamed, are these others: the first is the first, and the rest are the rest in any order.
pub fn same_ends(
    alloc: Global,
    to: &[u32],
    ends: &[PlanEnd],
    others: &[PlanEnd],
) -> Result<bool, AllocError>
    requires { AllByRecursion (λ e. e.target < length to.now) ends.now }
    ensures { IfOk result (λ answer. IsTrue answer
        ↔ ((first_of others.now ≡ option_map (moved (slice_index to.now)) (first_of ends.now))
        × IsPermutation (map (moved (slice_index to.now)) (rest_of ends.now)) (rest_of others.now))) }
{
    match (ends.split_first(), others.split_first()) {
        (Some((origin, rest)), Some((other, more))) => {
            if !same_end(to, origin, other) {
                return Ok(false);
            }
            same_others(alloc, to, rest, more)
        }
        (None, None) => Ok(true),
        (Some(_), None) | (None, Some(_)) => Ok(false),
    }
}
