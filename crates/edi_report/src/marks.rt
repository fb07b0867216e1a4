//! Places that records went to.

ghost use Rattle.std.specs.Prelude.{◌≡◌, ◌<◌, ◌||◌, ℕ, IfOk, false, length, slice_index_or};
ghost use Rattle.edi_report.specs.Lines.{went_to};
ghost use Rattle.edi_report.specs.Tables.{AreMarks};

use std::alloc::{AllocError, Global};

/// Of the first so many places, whether a record went there.
pub fn reached_marks(
    alloc: Global,
    became: &[Option<u32>],
    count: u32,
) -> Result<Vec<bool>, AllocError>
    ensures { IfOk result (λ marks. AreMarks became.now count marks.items) }
{
    let mut marks = vec![in alloc; false; count as usize]?;
    mark_all(&mut marks, became);
    Ok(marks)
}

/// Marks the places that records went to, of which none is marked yet.
fn mark_all(marks: &mut [bool], became: &[Option<u32>])
    requires { (j : ℕ) → slice_index_or marks.old j false ≡ false }
    ensures { AreMarks became.now (length marks.old) marks.new }
{
    for went in became {
        mark(marks, *went);
    }
}

/// Marks a place, if there is one.
fn mark(marks: &mut [bool], went: Option<u32>)
    ensures length { length marks.new ≡ length marks.old }
    ensures each { (j : ℕ) → j < length marks.old
        → slice_index_or marks.new j false ≡ (slice_index_or marks.old j false || went_to j went) }
{
    if let Some(place) = went
        && (place as usize) < marks.len()
    {
        marks[place as usize] = true;
    }
}
