//! The direction of arcs.

ghost use Rattle.std.specs.Prelude.{◌≡◌, ℕ, length, IfOk};
ghost use Rattle.edi_plan.specs.Plans.{IsPlace};
ghost use Rattle.edi_rank.specs.Labelling.{turned_at};
ghost use Rattle.edi_rank.specs.Turned.{is_backward};

use edi_plan::Plan;
use edi_record::Kind;
use edi_topo::is_forward;
use std::alloc::{AllocError, Global};

/// Whether the record is an arc that isn't forward.
pub(crate) fn is_turned(plan: &Plan, place: u32) -> bool
    requires { IsPlace plan.now place }
    ensures { result ≡ is_backward plan.now place }
{
    match plan.kind(place) {
        Kind::Par => !is_forward(plan.points(place)),
        Kind::Pno | Kind::Pfe | Kind::Fea | Kind::Lnk => false,
    }
}

/// Whether the record is an arc that isn't forward, by the list of those.
pub(crate) fn is_turned_in(plan: &Plan, turned: &[bool], place: u32) -> bool
    requires place { IsPlace plan.now place }
    requires long { length turned.now ≡ length plan.now.list }
    requires turned { (k : ℕ) → IsPlace plan.now k → turned_at turned.now k ≡ is_backward plan.now k }
    ensures { result ≡ is_backward plan.now place }
{
    turned[place as usize]
}

/// Which records are arcs that aren't forward, by place.
pub(crate) fn turned_arcs(alloc: Global, plan: &Plan) -> Result<Vec<bool>, AllocError>
    ensures length { IfOk result (λ turned. length turned.items ≡ length plan.now.list) }
    ensures turned { IfOk result (λ turned. (k : ℕ) → IsPlace plan.now k
        → turned_at turned.items k ≡ is_backward plan.now k) }
{
    let mut turned = Vec::new(alloc);
    for place in 0..plan.len() {
        turned.push(is_turned(plan, place))?;
    }
    Ok(turned)
}
