//! What is written on faces.

ghost use Rattle.std.specs.Prelude.{◌≡◌, ◌≤◌, ◌++◌, IfOk, OnOk, map};
ghost use Rattle.std.specs.List.{All, flat_map};
ghost use Rattle.edi_plan.specs.Plans.{IsPlace, record_at};
ghost use Rattle.edi_picture.specs.inner.Rounds.{AreRounds};
ghost use Rattle.edi_picture.specs.Faces.{arcs_round};
ghost use Rattle.edi_picture.specs.Labels.{has_label, label_amid, label_place, label_text, sheet_labels, middle, middle_across, middle_down, midway, page_across, page_down};

use crate::frame::{distance_between, pixel};
use crate::mark::Mark;
use crate::rounds::rounds_of;
use crate::shown::Shown;
use crate::titles::push_escaped_text;
use crate::writing::put;
use edi_line::push_number;
use edi_plan::{Extent, Plan};
use edi_record::{Kind, Point};
use std::alloc::{AllocError, Global};

/// The middle between two numbers.
fn midway(least: u64, greatest: u64) -> u64
    ensures { result ≡ midway least greatest }
{
    least + greatest.saturating_sub(least) / 2
}

/// The middle between the least and the greatest of some numbers.
fn middle(numbers: &[u64]) -> u64
    ensures { result ≡ middle numbers.now }
{
    let [first, more @ ..] = numbers else {
        return 0;
    };
    let mut least = *first;
    let mut greatest = *first;
    for number in more {
        least = least.min(*number);
        greatest = greatest.max(*number);
    }
    midway(least, greatest)
}

/// How far the middle of some points is to the right of the least x of the frame.
fn middle_across(alloc: Global, frame: &Extent, points: &[Point]) -> Result<u64, AllocError>
    ensures { IfOk result (λ across. across ≡ middle_across frame.now points.now) }
{
    let distances: Vec<u64> = points
        .iter()
        .map(|point| distance_between(point.x, frame.x.least))
        .collect(alloc)?;
    Ok(middle(&distances))
}

/// How far it is below the greatest y.
fn middle_down(alloc: Global, frame: &Extent, points: &[Point]) -> Result<u64, AllocError>
    ensures { IfOk result (λ down. down ≡ middle_down frame.now points.now) }
{
    let distances: Vec<u64> = points
        .iter()
        .map(|point| distance_between(frame.y.greatest, point.y))
        .collect(alloc)?;
    Ok(middle(&distances))
}

/// How far to the right the middle of some points is on the page.
fn page_across(alloc: Global, frame: &Extent, points: &[Point]) -> Result<u64, AllocError>
    ensures { IfOk result (λ across. across ≡ page_across frame.now points.now) }
{
    let across = middle_across(alloc, frame, points)?;
    Ok(20 + (across / pixel(frame)).min(960))
}

/// How far down it is, where the frame begins so far below the top.
fn page_down(alloc: Global, frame: &Extent, top: u64, points: &[Point]) -> Result<u64, AllocError>
    requires { top ≤ 1000 }
    ensures { IfOk result (λ down. down ≡ page_down frame.now top points.now) }
{
    let down = middle_down(alloc, frame, points)?;
    Ok(top + (down / pixel(frame)).min(1200))
}

/// Appends where the middle of some points is on a page on which the frame begins so far below the top.
fn push_label_place(
    alloc: Global,
    text: &mut Vec<u8>,
    frame: &Extent,
    top: u64,
    points: &[Point],
) -> Result<(), AllocError>
    requires { top ≤ 1000 }
    ensures { OnOk result (text.new.items ≡ text.old.items ++ label_place frame.now top points.now) }
{
    put(text, b"<text x='")?;
    push_number(text, page_across(alloc, frame, points)?)?;
    put(text, b"' y='")?;
    push_number(text, page_down(alloc, frame, top, points)?)
}

/// Appends words that stand there, if there are any points.
fn push_label_amid(
    alloc: Global,
    text: &mut Vec<u8>,
    frame: &Extent,
    top: u64,
    points: &[Point],
    label: &[u8],
) -> Result<(), AllocError>
    requires { top ≤ 1000 }
    ensures { OnOk result (text.new.items
        ≡ text.old.items ++ label_amid frame.now top points.now label.now) }
{
    match points {
        [] => Ok(()),
        [_, ..] => {
            push_label_place(alloc, text, frame, top, points)?;
            put(text, b"' dy='0.35em'>")?;
            push_escaped_text(text, label)?;
            put(text, b"</text>\n")
        }
    }
}

/// The points of some arcs.
fn points_of_arcs(alloc: Global, plan: &Plan, arcs: &[u32]) -> Result<Vec<Point>, AllocError>
    requires { All (IsPlace plan.now) arcs.now }
    ensures { IfOk result (λ points. points.items ≡ flat_map (λ a. (record_at plan.now a).points) arcs.now) }
{
    let mut points = Vec::new(alloc);
    for arc in arcs {
        points.extend_from_slice(plan.points(*arc))?;
    }
    Ok(points)
}

/// Whether something is written on a face.
fn has_label(sheet: &Shown<'_>, face: u32) -> bool
    ensures { result ≡ has_label sheet.now face }
{
    !sheet.mark(face).is(Mark::Hidden) && !sheet.label(face).is_empty()
}

/// Appends what is written on a face with these arcs round it.
fn push_label(
    alloc: Global,
    text: &mut Vec<u8>,
    frame: &Extent,
    top: u64,
    sheet: &Shown<'_>,
    face: u32,
    arcs: &[u32],
) -> Result<(), AllocError>
    requires top { top ≤ 1000 }
    requires place { IsPlace sheet.now.plan face }
    requires arcs { arcs.now ≡ arcs_round sheet.now.plan face }
    ensures { OnOk result (text.new.items ≡ text.old.items ++ label_text frame.now top sheet.now face) }
{
    if !has_label(sheet, face) {
        return Ok(());
    }
    let points = points_of_arcs(alloc, sheet.plan(), arcs)?;
    push_label_amid(alloc, text, frame, top, &points, sheet.label(face))
}

/// Appends what is written on the faces of a sheet, with the arcs round each.
fn push_each_label(
    alloc: Global,
    text: &mut Vec<u8>,
    frame: &Extent,
    top: u64,
    sheet: &Shown<'_>,
    rounds: &[Vec<u32>],
) -> Result<(), AllocError>
    requires top { top ≤ 1000 }
    requires rounds { AreRounds sheet.now.plan rounds.now }
    ensures { OnOk result (text.new.items ≡ text.old.items ++ sheet_labels frame.now top sheet.now) }
{
    for place in sheet.plan().places(Kind::Pfe) {
        push_label(
            alloc,
            text,
            frame,
            top,
            sheet,
            *place,
            &rounds[*place as usize],
        )?;
    }
    Ok(())
}

/// Appends what is written on the faces of a sheet, where the frame begins so far below the top of the page.
pub(crate) fn push_labels(
    alloc: Global,
    text: &mut Vec<u8>,
    frame: &Extent,
    top: u64,
    sheet: &Shown<'_>,
) -> Result<(), AllocError>
    requires { top ≤ 1000 }
    ensures { OnOk result (text.new.items ≡ text.old.items ++ sheet_labels frame.now top sheet.now) }
{
    let rounds = rounds_of(alloc, sheet.plan())?;
    push_each_label(alloc, text, frame, top, sheet, &rounds)
}
