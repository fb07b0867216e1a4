//! The marks of the records of two sheets.

ghost use Rattle.std.specs.Prelude.{◌≡◌, ◌<◌, ℕ, IfOk, if◌then◌else◌, length, map, slice_index_or};
ghost use Rattle.std.specs.List.{range_with_len};
ghost use Rattle.edi_report.specs.Lines.{is_reached, went_to};
ghost use Rattle.edi_drawing.specs.Marked.{first_mark, mark_by, second_mark};
ghost use Rattle.edi_picture.specs.declared.mark.Mark.TheVariants.{Hidden};

use crate::pair::entry_at;
use edi_matching::Matching;
use edi_picture::Mark;
use edi_report::values_of_places;
use std::alloc::{AllocError, Global};

/// The mark of a record of the first sheet, by the one of the second that it is, and the one that it is or became.
fn mark_of(unchanged: Option<u32>, became: Option<u32>) -> Mark
    ensures { result ≡ mark_by unchanged became }
{
    match unchanged {
        Some(_) => Mark::Plain,
        None => match became {
            Some(_) => Mark::Before,
            None => Mark::OnlyFirst,
        },
    }
}

/// The mark of the record of the first sheet at a place.
fn first_mark_at(unchanged: &Matching, became: &Matching, place: u32) -> Mark
    ensures { result ≡ first_mark unchanged.now became.now place }
{
    mark_of(
        entry_at(unchanged.to.as_slice(), place),
        entry_at(became.to.as_slice(), place),
    )
}

/// The marks of the records of the first sheet, in file order.
pub(crate) fn first_marks(
    alloc: Global,
    unchanged: &Matching,
    became: &Matching,
    count: u32,
) -> Result<Vec<Mark>, AllocError>
    ensures { IfOk result (λ marks. marks.items ≡ map (first_mark unchanged.now became.now) (range_with_len 0 count)) }
{
    values_of_places(
        alloc,
        count,
        |place| first_mark_at(unchanged, became, place),
    )
}

/// One value for each of so many records.
pub(crate) fn one_for_each<T: Copy + Drop>(
    alloc: Global,
    value: T,
    count: u32,
) -> Result<Vec<T>, AllocError>
    ensures { IfOk result (λ values. values.items ≡ map (λ k. value) (range_with_len 0 count)) }
{
    values_of_places(alloc, count, |_| value)
}

/// Gives this mark to the record that one went to, if there is one.
fn stamp(marks: &mut Vec<Mark>, went: Option<u32>, mark: Mark)
    ensures length { length marks.new.items ≡ length marks.old.items }
    ensures each { (j : ℕ) → j < length marks.old.items → slice_index_or marks.new.items j Hidden
        ≡ (if went_to j went then mark else slice_index_or marks.old.items j Hidden) }
{
    if let Some(place) = went
        && (place as usize) < marks.len()
    {
        marks[place as usize] = mark;
    }
}

/// Gives this mark to the records that some went to.
fn stamp_all(marks: &mut Vec<Mark>, to: &[Option<u32>], mark: Mark)
    ensures length { length marks.new.items ≡ length marks.old.items }
    ensures each { (j : ℕ) → j < length marks.old.items → slice_index_or marks.new.items j Hidden
        ≡ (if is_reached to.now j then mark else slice_index_or marks.old.items j Hidden) }
{
    for went in to {
        stamp(marks, *went, mark);
    }
}

/// The marks of the records of the second sheet, in file order.
pub(crate) fn second_marks(
    alloc: Global,
    unchanged: &Matching,
    became: &Matching,
    count: u32,
) -> Result<Vec<Mark>, AllocError>
    ensures { IfOk result (λ marks. marks.items ≡ map (second_mark unchanged.now became.now) (range_with_len 0 count)) }
{
    let mut marks = one_for_each(alloc, Mark::OnlySecond, count)?;
    stamp_all(&mut marks, became.to.as_slice(), Mark::After);
    stamp_all(&mut marks, unchanged.to.as_slice(), Mark::Hidden);
    Ok(marks)
}
