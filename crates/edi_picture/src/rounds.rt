//! The arcs round faces.

ghost use Rattle.std.specs.Prelude.{◌≡◌, ◌++◌, ◌∷◌, ◌<◌, [], List, ℕ, IfOk, OnOk, length, if◌then◌else◌};
ghost use Rattle.edi_plan.specs.Plans.{IsPlace};
ghost use Rattle.edi_picture.specs.inner.Rounds.{AreRounds, HaveArcs, arcs_at, is_face};

use edi_plan::Plan;
use edi_record::Kind;
use edi_schema::Role;
use std::alloc::{AllocError, Global};

/// So many lists with nothing in them.
fn empty_lists(alloc: Global, count: u32) -> Result<Vec<Vec<u32>>, AllocError>
    ensures length { IfOk result (λ lists. length lists.items ≡ count) }
    ensures each { IfOk result (λ lists. (k : ℕ) → arcs_at lists.items k ≡ []) }
{
    let mut lists = Vec::new(alloc);
    for _ in 0..count {
        lists.push(Vec::new(alloc))?;
    }
    Ok(lists)
}

/// Appends an arc to the list of a face, if there is one.
fn add_to(lists: &mut Vec<Vec<u32>>, face: Option<u32>, arc: u32) -> Result<(), AllocError>
    ensures length { OnOk result (length lists.new.items ≡ length lists.old.items) }
    ensures each { OnOk result ((k : ℕ) → k < length lists.old.items
        → arcs_at lists.new.items k ≡ arcs_at lists.old.items k ++ (if is_face k face then arc ∷ [] else [])) }
{
    if let Some(place) = face
        && (place as usize) < lists.len()
    {
        lists[place as usize].push(arc)?;
    }
    Ok(())
}

/// Appends an arc to the lists of the faces that it has on one side alone.
fn add_arc(lists: &mut Vec<Vec<u32>>, plan: &Plan, arc: u32) -> Result<(), AllocError>
    requires { IsPlace plan.now arc }
    ensures { OnOk result ((arcs : List ℕ) → HaveArcs plan.now arcs lists.old.items
        → HaveArcs plan.now (arcs ++ arc ∷ []) lists.new.items) }
{
    plan.keeps();
    let left = plan.side(arc, Role::Left);
    let right = plan.side(arc, Role::Right);
    if left == right {
        return Ok(());
    }
    add_to(lists, left, arc)?;
    add_to(lists, right, arc)?;
    Ok(())
}

/// The arcs round each record that is a face, by its place, in file order.
pub(crate) fn rounds_of(alloc: Global, plan: &Plan) -> Result<Vec<Vec<u32>>, AllocError>
    ensures { IfOk result (λ lists. AreRounds plan.now lists.items) }
{
    let mut lists = empty_lists(alloc, plan.len())?;
    for arc in plan.places(Kind::Par) {
        add_arc(&mut lists, plan, *arc)?;
    }
    Ok(lists)
}
