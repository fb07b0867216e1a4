//! The order of the ends of links behind their origins. It is found once: before the objects have
//! numbers where at most one of these ends is an object, since ends go by type before they go by number.

ghost use Rattle.std.specs.Prelude.{◌≡◌, ◌≤◌, ◌<◌, ℕ, [], length, map, slice_index, slice_index_or, IfOk, MatchBool};
ghost use Rattle.std.specs.List.{AllByRecursion};
ghost use Rattle.edi_plan.specs.Plans.{IsPlace, record_at, others_of};
ghost use Rattle.edi_topo.specs.Ranking.{keyed};
ghost use Rattle.edi_rank.specs.EndOrder.{OthersInOrder, PutsInOrder, no_end};
ghost use Rattle.edi_rank.specs.Keys.{numbered};
ghost use Rattle.edi_rank.specs.Pieces.{object_count};

use crate::ends::{numbered_end, other_ends};
use crate::keys::NumberedEnd;
use crate::object_layer::is_object;
use crate::sparse_list::SparseList;
use edi_plan::{Plan, PlanEnd};
use std::alloc::{AllocError, Global};

/// Each end by the number of what it names, with its position.
fn placed_ends<'a>(
    alloc: Global,
    plan: &Plan,
    numbers: &[u32],
    ends: &'a [PlanEnd],
) -> Result<Vec<(NumberedEnd<'a>, usize)>, AllocError>
    requires places { AllByRecursion (λ e. IsPlace plan.now e.target) ends.now }
    requires numbers { length numbers.now ≡ length plan.now.list }
    ensures { IfOk result (λ pairs. pairs.items
        ≡ keyed (λ i. numbered plan.now (slice_index numbers.now) (slice_index_or ends.now i no_end))
        (length ends.now)) }
{
    let mut pairs = Vec::with_capacity(alloc, ends.len())?;
    for index in 0..ends.len() {
        pairs.push((numbered_end(plan, numbers, &ends[index]), index))?;
    }
    Ok(pairs)
}

fn positions_in(alloc: Global, pairs: &[(NumberedEnd<'_>, usize)]) -> Result<Vec<usize>, AllocError>
    ensures { IfOk result (λ positions. positions.items ≡ map (λ pair. pair.1) pairs.now) }
{
    let mut positions = Vec::with_capacity(alloc, pairs.len())?;
    for pair in pairs {
        positions.push(pair.1)?;
    }
    Ok(positions)
}

/// The positions of two or more ends in their order. It stands apart, since nearly each record has one at most, for
/// which nothing is made ready.
#[inline(never)]
fn positions_of_many(
    alloc: Global,
    plan: &Plan,
    numbers: &[u32],
    ends: &[PlanEnd],
) -> Result<SparseList<usize>, AllocError>
    requires places { AllByRecursion (λ e. IsPlace plan.now e.target) ends.now }
    requires numbers { length numbers.now ≡ length plan.now.list }
    requires many { 2 ≤ length ends.now }
    ensures { IfOk result (λ positions. PutsInOrder plan.now (slice_index numbers.now) positions ends.now) }
{
    let mut pairs = placed_ends(alloc, plan, numbers, ends)?;
    pairs.sort_unstable();
    let positions = positions_in(alloc, &pairs)?;
    let order = SparseList::from_vec(alloc, positions)?;
    Ok(order)
}

/// The positions of these ends in their order; none where there is one end at most.
fn sorted_positions(
    alloc: Global,
    plan: &Plan,
    numbers: &[u32],
    ends: &[PlanEnd],
) -> Result<SparseList<usize>, AllocError>
    requires places { AllByRecursion (λ e. IsPlace plan.now e.target) ends.now }
    requires numbers { length numbers.now ≡ length plan.now.list }
    ensures { IfOk result (λ positions. PutsInOrder plan.now (slice_index numbers.now) positions ends.now) }
{
    if ends.len() < 2 {
        return Ok(SparseList::new());
    }
    positions_of_many(alloc, plan, numbers, ends)
}

/// How many of these ends are objects.
fn count_objects(plan: &Plan, ends: &[PlanEnd]) -> usize
    requires { AllByRecursion (λ e. IsPlace plan.now e.target) ends.now }
    ensures { result ≡ object_count plan.now ends.now }
{
    let mut count: usize = 0;
    for end in ends {
        if is_object(plan, end.target) {
            count += 1;
        }
    }
    count
}

/// Whether two or more of these ends are objects.
fn has_two_objects(plan: &Plan, ends: &[PlanEnd]) -> bool
    requires { AllByRecursion (λ e. IsPlace plan.now e.target) ends.now }
    ensures { MatchBool result (1 < object_count plan.now ends.now) (object_count plan.now ends.now ≤ 1) }
{
    ends.len() > 1 && count_objects(plan, ends) > 1
}

/// The positions of these ends in their order, if at most one of them is an object; else none.
fn lower_positions(
    alloc: Global,
    plan: &Plan,
    numbers: &[u32],
    ends: &[PlanEnd],
) -> Result<SparseList<usize>, AllocError>
    requires places { AllByRecursion (λ e. IsPlace plan.now e.target) ends.now }
    requires numbers { length numbers.now ≡ length plan.now.list }
    ensures { IfOk result (λ positions. object_count plan.now ends.now ≤ 1
        → PutsInOrder plan.now (slice_index numbers.now) positions ends.now) }
{
    if has_two_objects(plan, ends) {
        return Ok(SparseList::new());
    }
    sorted_positions(alloc, plan, numbers, ends)
}

/// The positions of the other ends of each record in their order, by place, where at most one of these ends is an
/// object, and the nodes, arcs and faces have these numbers; none where two or more are objects.
pub(crate) fn lower_orders(
    alloc: Global,
    plan: &Plan,
    numbers: &[u32],
) -> Result<Vec<SparseList<usize>>, AllocError>
    requires { length numbers.now ≡ length plan.now.list }
    ensures length { IfOk result (λ orders. length orders.items ≡ length plan.now.list) }
    ensures orders { IfOk result (λ orders. (k : ℕ) → IsPlace plan.now k
        → object_count plan.now (others_of (record_at plan.now k)) ≤ 1
        → OthersInOrder plan.now (slice_index numbers.now) orders.items k) }
{
    plan.keeps();
    let mut orders = Vec::with_capacity(alloc, plan.len() as usize)?;
    for place in 0..plan.len() {
        let order = lower_positions(alloc, plan, numbers, other_ends(plan, place))?;
        orders.push(order)?;
    }
    Ok(orders)
}

/// The positions of the other ends of each record in their order, by place, from those where at most one of these ends
/// is an object.
pub(crate) fn all_orders(
    alloc: Global,
    plan: &Plan,
    numbers: &[u32],
    lower: Vec<SparseList<usize>>,
) -> Result<Vec<SparseList<usize>>, AllocError>
    requires numbers { length numbers.now ≡ length plan.now.list }
    requires length { length lower.items ≡ length plan.now.list }
    requires lower { (k : ℕ) → IsPlace plan.now k → object_count plan.now (others_of (record_at plan.now k)) ≤ 1
        → OthersInOrder plan.now (slice_index numbers.now) lower.items k }
    ensures length { IfOk result (λ orders. length orders.items ≡ length plan.now.list) }
    ensures orders { IfOk result (λ orders. (k : ℕ) → IsPlace plan.now k
        → OthersInOrder plan.now (slice_index numbers.now) orders.items k) }
{
    plan.keeps();
    let mut orders = lower;
    for place in 0..plan.len() {
        let others = other_ends(plan, place);
        if has_two_objects(plan, others) {
            orders[place as usize] = sorted_positions(alloc, plan, numbers, others)?;
        }
    }
    Ok(orders)
}
