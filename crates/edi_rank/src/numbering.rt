//! Numbers by place, and places by number.

ghost use Rattle.std.specs.Prelude.{◌≡◌, ◌≢◌, ◌<◌, ◌≤◌, ◌-◌, ℕ, length, slice_index, IfOk};
ghost use Rattle.edi_line.specs.Bytes.{most_records};
ghost use Rattle.edi_record.specs.declared.record.Kind.TheVariants.{Pno, Par, Pfe};
ghost use Rattle.edi_plan.specs.Places.{places_of, member_of};
ghost use Rattle.edi_plan.specs.Plans.{IsPlace, record_at};
ghost use Rattle.edi_rank.specs.Labelling.{NumbersEach};
ghost use Rattle.edi_rank.specs.Layers.{ranked};

use edi_plan::Plan;
use edi_record::Kind;
use edi_topo::Ranks;
use std::alloc::{AllocError, Global};

/// The numbers by place, with those of the records of a kind written at their places.
pub(crate) fn number_kind(plan: &Plan, kind: Kind, ranks: &Ranks, mut numbers: Vec<u32>) -> Vec<u32>
    requires ranks { length ranks.now ≡ length (places_of kind plan.now) }
    requires numbers { length numbers.items ≡ length plan.now.list }
    ensures length { length result.items ≡ length plan.now.list }
    ensures each { (k : ℕ) → IsPlace plan.now k → (record_at plan.now k).kind ≡ kind
        → slice_index result.items k ≡ slice_index ranks.now (member_of plan.now k) }
    ensures others { (k : ℕ) → IsPlace plan.now k → (record_at plan.now k).kind ≢ kind
        → slice_index result.items k ≡ slice_index numbers.items k }
{
    plan.keeps();
    let mut member: u32 = 0;
    for place in plan.places(kind) {
        numbers[*place as usize] = ranks.number(member);
        member += 1;
    }
    numbers
}

/// The numbers of the nodes, the arcs and the faces by place, and 0 at the places of other records.
pub(crate) fn lower_numbers(
    alloc: Global,
    plan: &Plan,
    nodes: &Ranks,
    arcs: &Ranks,
    faces: &Ranks,
) -> Result<Vec<u32>, AllocError>
    requires nodes { length nodes.now ≡ length (places_of Pno plan.now) }
    requires arcs { length arcs.now ≡ length (places_of Par plan.now) }
    requires faces { length faces.now ≡ length (places_of Pfe plan.now) }
    ensures length { IfOk result (λ numbers. length numbers.items ≡ length plan.now.list) }
    ensures ranked { IfOk result (λ numbers. (k : ℕ) → IsPlace plan.now k
        → slice_index numbers.items k ≡ ranked plan.now nodes.now arcs.now faces.now k) }
{
    let unnumbered = vec![in alloc; 0; plan.len() as usize]?;
    let by_node = number_kind(plan, Kind::Pno, nodes, unnumbered);
    let by_arc = number_kind(plan, Kind::Par, arcs, by_node);
    Ok(number_kind(plan, Kind::Pfe, faces, by_arc))
}

/// The places by the numbers of what stands there.
pub(crate) fn places_by_number(
    alloc: Global,
    places: &[u32],
    ranks: &Ranks,
) -> Result<Vec<u32>, AllocError>
    requires few { length places.now ≤ most_records }
    requires long { length ranks.now ≡ length places.now }
    requires each { NumbersEach ranks.now }
    ensures length { IfOk result (λ order. length order.items ≡ length places.now) }
    ensures places { IfOk result (λ order. (m : ℕ) → m < length places.now
        → slice_index order.items (slice_index ranks.now m - 1) ≡ slice_index places.now m) }
{
    let mut order = vec![in alloc; 0; places.len()]?;
    let mut member: u32 = 0;
    for place in places {
        order[ranks.number(member) as usize - 1] = *place;
        member += 1;
    }
    Ok(order)
}
