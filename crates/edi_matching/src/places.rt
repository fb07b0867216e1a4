//! Places that records go to.

ghost use Rattle.std.specs.Prelude.{◌≡◌, ◌↔◌, ℕ, IfOk, IsTrue, MatchBool, false, length, slice_index_or};
ghost use Rattle.edi_matching.specs.Matchings.{targets_of};
ghost use Rattle.edi_matching.specs.inner.Marks.{GoApart, IsMarking, IsMarkedOrNone, Marks};

use std::alloc::{AllocError, Global};

/// Whether the places are of the first so many, and none is met twice.
pub(crate) fn are_apart(alloc: Global, to: &[Option<u32>], count: u32) -> Result<bool, AllocError>
    ensures { IfOk result (λ answer. IsTrue answer ↔ GoApart to.now count) }
{
    let mut met = vec![in alloc; false; count as usize]?;
    Ok(mark_all(&mut met, to))
}

/// Marks the places, of which none is marked yet, until one is met that there isn't or that is marked already.
fn mark_all(met: &mut [bool], to: &[Option<u32>]) -> bool
    requires { (j : ℕ) → slice_index_or met.old j false ≡ false }
    ensures { IsTrue result ↔ GoApart to.now (length met.old) }
{
    for target in to {
        if !mark(met, *target) {
            return false;
        }
    }
    true
}

/// Marks the place, if there is one; or says that it may not be.
fn mark(met: &mut [bool], target: Option<u32>) -> bool
    ensures { IsMarking met.old met.new target result }
{
    match target {
        Some(place) => mark_place(met, place),
        None => true,
    }
}

fn mark_place(met: &mut [bool], place: u32) -> bool
    ensures { MatchBool result (Marks met.old met.new place) (IsMarkedOrNone met.old place) }
{
    let at = place as usize;
    if at >= met.len() || met[at] {
        return false;
    }
    met[at] = true;
    true
}

/// Where the records go, with 0 for one that goes nowhere.
pub fn targets_of(alloc: Global, to: &[Option<u32>]) -> Result<Vec<u32>, AllocError>
    ensures { IfOk result (λ targets. targets.items ≡ targets_of to.now) }
{
    to.iter().map(|target| target.unwrap_or(0)).collect(alloc)
}
