//! Which records are tinted where two sheets are drawn.

ghost use Rattle.std.specs.Prelude.{◌≡◌, ◌<◌, ◌||◌, ◌==◌, IfOk, ℕ, false, length, slice_index_or};
ghost use Rattle.std.specs.List.{list_any};
ghost use Rattle.edi_plan.specs.Plans.{IsPlace};
ghost use Rattle.edi_drawing.specs.Marked.{first_marks, of_each, twin_of, second_marks};
ghost use Rattle.edi_drawing.specs.Tints.{first_tint, is_out, links_out, stands_out, tint_by, touches};
ghost use Rattle.edi_drawing.specs.inner.Tints.{AreTouched};
ghost use Rattle.edi_picture.specs.declared.mark.Mark.TheVariants.{Hidden};

use crate::labels::names_few;
use crate::pair::SheetPair;
use edi_picture::Mark;
use edi_plan::{Plan, PlanEnd};
use edi_record::Kind;
use std::alloc::{AllocError, Global};

/// Whether a record of this mark isn't in both sheets as it is.
fn stands_out(mark: Mark) -> bool
    ensures { result ≡ stands_out mark }
{
    match mark {
        Mark::Plain | Mark::Hidden => false,
        Mark::OnlyFirst | Mark::OnlySecond | Mark::Before | Mark::After => true,
    }
}

/// The same of the record at a place.
fn is_out(marks: &[Mark], place: u32) -> bool
    ensures { result ≡ is_out marks.now place }
{
    match marks.get(place as usize) {
        Some(mark) => stands_out(*mark),
        None => false,
    }
}

/// The same of something that a link names.
fn names_out(marks: &[Mark], ends: &[PlanEnd]) -> bool
    ensures { result ≡ list_any (λ e. is_out marks.now e.target) ends.now }
{
    ends.iter().any(|end| is_out(marks, end.target))
}

/// Whether a link isn't in both sheets as it is, or something that it names.
fn links_out(marks: &[Mark], plan: &Plan, link: u32) -> bool
    requires { IsPlace plan.now link }
    ensures { result ≡ links_out marks.now plan.now link }
{
    is_out(marks, link) || names_out(marks, plan.ends(link))
}

/// Marks a place.
fn touch(touched: &mut Vec<bool>, place: u32)
    ensures length { length touched.new.items ≡ length touched.old.items }
    ensures each { (k : ℕ) → k < length touched.old.items
        → slice_index_or touched.new.items k false ≡ (slice_index_or touched.old.items k false || (place == k)) }
{
    if (place as usize) < touched.len() {
        touched[place as usize] = true;
    }
}

/// Marks each record that these ends name.
fn touch_all(touched: &mut Vec<bool>, ends: &[PlanEnd])
    ensures length { length touched.new.items ≡ length touched.old.items }
    ensures each { (k : ℕ) → k < length touched.old.items → slice_index_or touched.new.items k false
        ≡ (slice_index_or touched.old.items k false || list_any (λ e. e.target == k) ends.now) }
{
    for end in ends {
        touch(touched, end.target);
    }
}

/// Marks each record that a link touches.
fn touch_by(touched: &mut Vec<bool>, marks: &[Mark], plan: &Plan, link: u32)
    requires { IsPlace plan.now link }
    ensures length { length touched.new.items ≡ length touched.old.items }
    ensures each { (k : ℕ) → k < length touched.old.items → slice_index_or touched.new.items k false
        ≡ (slice_index_or touched.old.items k false || touches marks.now plan.now k link) }
{
    if names_few(plan, link) && links_out(marks, plan, link) {
        touch_all(touched, plan.ends(link));
    }
}

/// Which records are touched.
fn touched_records(alloc: Global, marks: &[Mark], plan: &Plan) -> Result<Vec<bool>, AllocError>
    ensures { IfOk result (λ touched. AreTouched marks.now plan.now touched.items) }
{
    let mut touched = vec![in alloc; false; plan.len() as usize]?;
    for link in plan.places(Kind::Lnk) {
        touch_by(&mut touched, marks, plan, *link);
    }
    Ok(touched)
}

/// Whether a place is marked.
fn is_marked(touched: &[bool], place: u32) -> bool
    ensures { result ≡ slice_index_or touched.now place false }
{
    match touched.get(place as usize) {
        Some(mark) => *mark,
        None => false,
    }
}

/// Whether a record is tinted, by its mark and whether it is touched.
fn tint_by(mark: Mark, touched: bool) -> bool
    ensures { result ≡ tint_by mark touched }
{
    match mark {
        Mark::Plain => touched,
        Mark::OnlyFirst => true,
        Mark::OnlySecond | Mark::Before | Mark::After | Mark::Hidden => false,
    }
}

/// Which records of two sheets are touched.
#[derive(Drop)]
struct TouchedRecords {
    first: Vec<bool>,
    second: Vec<bool>,
}

/// Whether a record of the first sheet is tinted.
fn is_tinted(pair: &SheetPair<'_>, mark: Mark, touched: &TouchedRecords, place: u32) -> bool
    requires mark { mark ≡ slice_index_or (first_marks pair.now) place Hidden }
    requires first { AreTouched (first_marks pair.now) pair.now.first.accepted touched.now.first.items }
    requires second { AreTouched (second_marks pair.now) pair.now.second.accepted touched.now.second.items }
    ensures { result ≡ first_tint pair.now place }
{
    let there = match pair.twin_of(place) {
        Some(target) => is_marked(&touched.second, target),
        None => false,
    };
    tint_by(mark, is_marked(&touched.first, place) || there)
}

/// Which records of the first sheet are tinted, by the marks of both.
pub(crate) fn first_tints(
    alloc: Global,
    pair: &SheetPair<'_>,
    marks: &[Mark],
    others: &[Mark],
) -> Result<Vec<bool>, AllocError>
    requires marks { marks.now ≡ first_marks pair.now }
    requires others { others.now ≡ second_marks pair.now }
    ensures { IfOk result (λ tints. tints.items ≡ of_each (first_tint pair.now) pair.now.first.accepted) }
{
    let touched = TouchedRecords {
        first: touched_records(alloc, marks, pair.plan())?,
        second: touched_records(alloc, others, pair.other())?,
    };
    let mut tints = Vec::new(alloc);
    for place in 0..pair.plan().len() {
        tints.push(is_tinted(pair, marks[place as usize], &touched, place))?;
    }
    Ok(tints)
}
