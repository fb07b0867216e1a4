//! The faces on the sides of arcs: rule 406.

ghost use Rattle.std.specs.Prelude.{◌≡◌, ◌≢◌, ◌⊎◌, ◌<◌, ◌+◌, ℕ, length, slice_index_or, false, true, ◌↔◌, IfOk};
ghost use Rattle.edi_record.specs.declared.record.Kind.TheVariants.{Par};
ghost use Rattle.edi_schema.specs.declared.role.Role.TheVariants.{Left, Right, Plain};
ghost use Rattle.edi_plan.specs.Joined.{IsJoined};
ghost use Rattle.edi_plan.specs.Plans.{IsPlace, record_at};
ghost use Rattle.edi_plan.specs.Sides.{Side};
ghost use Rattle.edi_topo.specs.inner.Faces.{AreFaced, AreFacedBelow};

use edi_plan::Plan;
use edi_record::Kind;
use edi_schema::Role;
use std::alloc::{AllocError, Global};

/// Marks what the arc at a place has by a role.
fn mark(faced: &mut Vec<bool>, plan: &Plan, arc: u32, role: Role)
    requires joined { IsJoined plan.now }
    requires place { IsPlace plan.now arc }
    requires arc { (record_at plan.now arc).kind ≡ Par }
    requires role { role ≢ Plain }
    requires long { length faced.old.items ≡ length plan.now.list }
    ensures long { length faced.new.items ≡ length plan.now.list }
    ensures marked { (x : ℕ) → (slice_index_or faced.new.items x false ≡ true)
        ↔ ((slice_index_or faced.old.items x false ≡ true) ⊎ Side plan.now arc role x) }
{
    plan.keeps();
    if let Some(face) = plan.side(arc, role) {
        faced[face as usize] = true;
    }
}

/// Marks what the record at a place has on its left and right, if it is an arc.
fn mark_sides(faced: &mut Vec<bool>, plan: &Plan, place: u32)
    requires joined { IsJoined plan.now }
    requires place { IsPlace plan.now place }
    requires before { AreFacedBelow plan.now place faced.old.items }
    ensures { AreFacedBelow plan.now (place + 1) faced.new.items }
{
    match plan.kind(place) {
        Kind::Par => {
            mark(faced, plan, place, Role::Left);
            mark(faced, plan, place, Role::Right);
        }
        Kind::Pno | Kind::Pfe | Kind::Fea | Kind::Lnk => {}
    }
}

/// Of each record, whether some arc has it on its left or right.
pub(crate) fn side_marks(alloc: Global, plan: &Plan) -> Result<Vec<bool>, AllocError>
    requires { IsJoined plan.now }
    ensures { IfOk result (λ faced. AreFaced plan.now faced.items) }
{
    let mut faced = vec![in alloc; false; plan.len() as usize]?;
    for place in 0..plan.len() {
        mark_sides(&mut faced, plan, place);
    }
    Ok(faced)
}
