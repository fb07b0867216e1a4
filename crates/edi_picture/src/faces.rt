//! What is drawn of faces.

ghost use Rattle.std.specs.Prelude.{◌≡◌, ◌++◌, OnOk};
ghost use Rattle.std.specs.List.{All, flat_map};
ghost use Rattle.edi_plan.specs.Agreeing.{HasClasses};
ghost use Rattle.edi_plan.specs.Plans.{IsPlace};
ghost use Rattle.edi_picture.specs.inner.Rounds.{AreRounds};
ghost use Rattle.edi_picture.specs.Faces.{arcs_round, band_text, bands, bands_begin, closed_face, face_by_ends, face_end, face_text, faces_of, fan_text, fill_text};

use crate::canvas::{Canvas, push_pixels, push_spot};
use crate::ends::{closes, ends_of_arcs};
use crate::mark::Mark;
use crate::rounds::rounds_of;
use crate::shown::Shown;
use crate::titles::push_title;
use crate::writing::put;
use edi_record::{Kind, Point};
use std::alloc::{AllocError, Global};

/// Appends an arc, with lines from its end to the base and from there to its begin.
fn push_fan(
    canvas: &Canvas<'_>,
    text: &mut Vec<u8>,
    sheet: &Shown<'_>,
    base: &Point,
    arc: u32,
) -> Result<(), AllocError>
    requires { IsPlace sheet.now.plan arc }
    ensures { OnOk result (text.new.items ≡ text.old.items ++ fan_text canvas.now.frame sheet.now base.now arc) }
{
    put(text, b"M")?;
    canvas.push_spots(text, sheet, arc)?;
    push_spot(text, &canvas.frame, base)?;
    put(text, b"Z")
}

/// Appends some arcs, each so.
fn push_fans(
    canvas: &Canvas<'_>,
    text: &mut Vec<u8>,
    sheet: &Shown<'_>,
    base: &Point,
    arcs: &[u32],
) -> Result<(), AllocError>
    requires { All (IsPlace sheet.now.plan) arcs.now }
    ensures { OnOk result (text.new.items
        ≡ text.old.items ++ flat_map (fan_text canvas.now.frame sheet.now base.now) arcs.now) }
{
    for arc in arcs {
        push_fan(canvas, text, sheet, base, *arc)?;
    }
    Ok(())
}

/// Appends the begin of the path of a face.
fn push_fill(text: &mut Vec<u8>, is_tinted: bool) -> Result<(), AllocError>
    ensures { OnOk result (text.new.items ≡ text.old.items ++ fill_text is_tinted) }
{
    if is_tinted {
        put(text, b"<path fill='#F0E442' d='")
    } else {
        put(text, b"<path d='")
    }
}

/// Appends the title of a face, with these words, and the end of its path.
fn push_face_end(
    canvas: &Canvas<'_>,
    text: &mut Vec<u8>,
    sheet: &Shown<'_>,
    face: u32,
    words: &[u8],
) -> Result<(), AllocError>
    requires classes { HasClasses canvas.now.schema.now sheet.now.plan }
    requires place { IsPlace sheet.now.plan face }
    ensures { OnOk result (text.new.items
        ≡ text.old.items ++ face_end canvas.now.schema.now sheet.now face words.now) }
{
    put(text, b"'>")?;
    push_title(text, canvas.schema, sheet, face, words)?;
    put(text, b"</path>\n")
}

/// Appends a face with these arcs round it, which close.
fn push_closed(
    canvas: &Canvas<'_>,
    text: &mut Vec<u8>,
    sheet: &Shown<'_>,
    face: u32,
    base: &Point,
    arcs: &[u32],
) -> Result<(), AllocError>
    requires classes { HasClasses canvas.now.schema.now sheet.now.plan }
    requires place { IsPlace sheet.now.plan face }
    requires arcs { All (IsPlace sheet.now.plan) arcs.now }
    ensures { OnOk result (text.new.items
        ≡ text.old.items ++ closed_face canvas.now.schema.now canvas.now.frame sheet.now face base.now arcs.now) }
{
    push_fill(text, sheet.is_tinted(face))?;
    push_fans(canvas, text, sheet, base, arcs)?;
    push_face_end(canvas, text, sheet, face, b"")
}

/// Appends a band along an arc.
fn push_band(
    canvas: &Canvas<'_>,
    text: &mut Vec<u8>,
    sheet: &Shown<'_>,
    arc: u32,
) -> Result<(), AllocError>
    requires { IsPlace sheet.now.plan arc }
    ensures { OnOk result (text.new.items ≡ text.old.items ++ band_text canvas.now.frame sheet.now arc) }
{
    put(text, b"M")?;
    canvas.push_spots(text, sheet, arc)
}

/// Appends bands along some arcs.
fn push_each_band(
    canvas: &Canvas<'_>,
    text: &mut Vec<u8>,
    sheet: &Shown<'_>,
    arcs: &[u32],
) -> Result<(), AllocError>
    requires { All (IsPlace sheet.now.plan) arcs.now }
    ensures { OnOk result (text.new.items
        ≡ text.old.items ++ flat_map (band_text canvas.now.frame sheet.now) arcs.now) }
{
    for arc in arcs {
        push_band(canvas, text, sheet, *arc)?;
    }
    Ok(())
}

/// Appends the begin of a path of bands.
fn push_bands_begin(canvas: &Canvas<'_>, text: &mut Vec<u8>) -> Result<(), AllocError>
    ensures { OnOk result (text.new.items ≡ text.old.items ++ bands_begin canvas.now.frame) }
{
    put(text, b"<path fill='none' stroke='#F0E442' stroke-width='")?;
    push_pixels(text, &canvas.frame, 8)?;
    put(text, b"' d='")
}

/// Appends bands along these arcs of a face, which don't close.
fn push_bands(
    canvas: &Canvas<'_>,
    text: &mut Vec<u8>,
    sheet: &Shown<'_>,
    face: u32,
    arcs: &[u32],
) -> Result<(), AllocError>
    requires classes { HasClasses canvas.now.schema.now sheet.now.plan }
    requires place { IsPlace sheet.now.plan face }
    requires arcs { All (IsPlace sheet.now.plan) arcs.now }
    ensures { OnOk result (text.new.items
        ≡ text.old.items ++ bands canvas.now.schema.now canvas.now.frame sheet.now face arcs.now) }
{
    push_bands_begin(canvas, text)?;
    push_each_band(canvas, text, sheet, arcs)?;
    let words = b", not filled, since its arcs do not close";
    push_face_end(canvas, text, sheet, face, words)
}

/// Appends a face by the ends of the arcs round it: one that doesn't close only if it is tinted.
fn push_by_ends(
    alloc: Global,
    canvas: &Canvas<'_>,
    text: &mut Vec<u8>,
    sheet: &Shown<'_>,
    face: u32,
    arcs: &[u32],
    ends: &[Point],
) -> Result<(), AllocError>
    requires classes { HasClasses canvas.now.schema.now sheet.now.plan }
    requires place { IsPlace sheet.now.plan face }
    requires arcs { All (IsPlace sheet.now.plan) arcs.now }
    ensures { OnOk result (text.new.items
        ≡ text.old.items ++ face_by_ends canvas.now.schema.now canvas.now.frame sheet.now face arcs.now ends.now) }
{
    let [base, ..] = ends else {
        return Ok(());
    };
    if closes(alloc, ends)? {
        push_closed(canvas, text, sheet, face, base, arcs)
    } else if sheet.is_tinted(face) {
        push_bands(canvas, text, sheet, face, arcs)
    } else {
        Ok(())
    }
}

/// Appends a face with the arcs round it, if its mark doesn't hide it.
fn push_face(
    alloc: Global,
    canvas: &Canvas<'_>,
    text: &mut Vec<u8>,
    sheet: &Shown<'_>,
    face: u32,
    arcs: &[u32],
) -> Result<(), AllocError>
    requires classes { HasClasses canvas.now.schema.now sheet.now.plan }
    requires place { IsPlace sheet.now.plan face }
    requires arcs { arcs.now ≡ arcs_round sheet.now.plan face }
    ensures { OnOk result (text.new.items
        ≡ text.old.items ++ face_text canvas.now.schema.now canvas.now.frame sheet.now face) }
{
    if sheet.mark(face).is(Mark::Hidden) {
        return Ok(());
    }
    let ends = ends_of_arcs(alloc, sheet.plan(), arcs)?;
    push_by_ends(alloc, canvas, text, sheet, face, arcs, &ends)
}

/// Appends the faces of a sheet, with the arcs round each.
fn push_each_face(
    alloc: Global,
    canvas: &Canvas<'_>,
    text: &mut Vec<u8>,
    sheet: &Shown<'_>,
    rounds: &[Vec<u32>],
) -> Result<(), AllocError>
    requires classes { HasClasses canvas.now.schema.now sheet.now.plan }
    requires rounds { AreRounds sheet.now.plan rounds.now }
    ensures { OnOk result (text.new.items
        ≡ text.old.items ++ faces_of canvas.now.schema.now canvas.now.frame sheet.now) }
{
    for place in sheet.plan().places(Kind::Pfe) {
        push_face(alloc, canvas, text, sheet, *place, &rounds[*place as usize])?;
    }
    Ok(())
}

/// Appends the faces of a sheet.
pub(crate) fn push_faces(
    alloc: Global,
    canvas: &Canvas<'_>,
    text: &mut Vec<u8>,
    sheet: &Shown<'_>,
) -> Result<(), AllocError>
    requires { HasClasses canvas.now.schema.now sheet.now.plan }
    ensures { OnOk result (text.new.items
        ≡ text.old.items ++ faces_of canvas.now.schema.now canvas.now.frame sheet.now) }
{
    let rounds = rounds_of(alloc, sheet.plan())?;
    push_each_face(alloc, canvas, text, sheet, &rounds)
}
