//! The ends of links by the numbers of what they name.

ghost use Rattle.std.specs.Prelude.{◌≡◌, ◌<◌, length, slice_index, slice_index_or};
ghost use Rattle.edi_plan.specs.Plans.{IsPlace, record_at, others_of};
ghost use Rattle.edi_rank.specs.EndOrder.{GivesEach, ends_at, no_end};
ghost use Rattle.edi_rank.specs.Keys.{numbered};

use crate::keys::NumberedEnd;
use edi_line::BorrowedList;
use edi_plan::{Plan, PlanEnd};

/// An end, with the number of what it names.
pub fn numbered_end<'a>(plan: &Plan, numbers: &[u32], end: &'a PlanEnd) -> NumberedEnd<'a>
    requires place { IsPlace plan.now end.now.target }
    requires numbers { length numbers.now ≡ length plan.now.list }
    ensures { result ≡ numbered plan.now (slice_index numbers.now) end.now }
{
    let sns = match &end.sns {
        Some(text) => Some(BorrowedList::of(text.as_slice())),
        None => None,
    };
    NumberedEnd {
        kind: plan.kind(end.target),
        number: numbers[end.target as usize],
        sns,
    }
}

/// The end at an index, where the ends are taken by their positions, or as they stand if there are no positions.
pub fn end_in_order<'a>(positions: &[usize], ends: &'a [PlanEnd], index: usize) -> &'a PlanEnd
    requires each { GivesEach positions.now ends.now }
    requires index { index < length ends.now }
    ensures { result.now ≡ slice_index_or (ends_at positions.now ends.now) index no_end }
{
    match positions {
        [] => &ends[index],
        _ => &ends[positions[index]],
    }
}

/// The ends of a record but its origin.
pub(crate) fn other_ends(plan: &Plan, place: u32) -> &[PlanEnd]
    requires { IsPlace plan.now place }
    ensures { result.now ≡ others_of (record_at plan.now place) }
{
    let ends = plan.ends(place);
    match ends {
        [_, others @ ..] => others,
        [] => ends,
    }
}
