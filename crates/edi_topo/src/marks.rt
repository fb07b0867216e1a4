//! Marks of members, and of the places that they have.

ghost use Rattle.std.specs.Prelude.{◌≡◌, ◌<◌, ◌+◌, length, All, IfOk};
ghost use Rattle.edi_topo.specs.Marks.{AreMarksOf, IsPlaceOfMark};
ghost use Rattle.edi_topo.specs.inner.Placed.{IsPlaceOfMarkBelow};

use std::alloc::{AllocError, Global};

/// Marks the place of a member, if the member is marked.
fn mark_place(by_place: &mut Vec<bool>, places: &[u32], marks: &[bool], member: usize)
    requires here { member < length places.now }
    requires long { length marks.now ≡ length places.now }
    requires within { All (λ place. place < length by_place.old.items) places.now }
    requires before { AreMarksOf (length by_place.old.items) (IsPlaceOfMarkBelow places.now marks.now member)
        by_place.old.items }
    ensures { AreMarksOf (length by_place.old.items) (IsPlaceOfMarkBelow places.now marks.now (member + 1))
        by_place.new.items }
{
    if marks[member] {
        by_place[places[member] as usize] = true;
    }
}

/// Of each of so many places, whether a marked member has it.
pub fn marks_by_place(
    alloc: Global,
    places: &[u32],
    marks: &[bool],
    count: u32,
) -> Result<Vec<bool>, AllocError>
    requires long { length marks.now ≡ length places.now }
    requires within { All (λ place. place < count) places.now }
    ensures { IfOk result (λ by_place. AreMarksOf count (IsPlaceOfMark places.now marks.now) by_place.items) }
{
    let mut by_place = vec![in alloc; false; count as usize]?;
    for member in 0..places.len() {
        mark_place(&mut by_place, places, marks, member);
    }
    Ok(by_place)
}
