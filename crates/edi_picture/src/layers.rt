//! The faces, the arcs, the nodes and the labels of sheets.

ghost use Rattle.std.specs.Prelude.{◌≡◌, ◌≤◌, ◌++◌, OnOk};
ghost use Rattle.std.specs.List.{flat_map};
ghost use Rattle.edi_picture.specs.Elements.{drawn_records};
ghost use Rattle.edi_picture.specs.Faces.{faces_of};
ghost use Rattle.edi_picture.specs.Labels.{sheet_labels};
ghost use Rattle.edi_picture.specs.Pictures.{arcs_begin, arcs_text, dashes, faces_text, labels_text, layers, nodes_begin, nodes_text, plan_text, rim_text};
ghost use Rattle.edi_picture.specs.Sheets.{AllHaveClasses};
ghost use Rattle.edi_picture.specs.declared.mark.Ink.TheVariants.{Old};

use crate::canvas::{Canvas, push_pixels};
use crate::faces::push_faces;
use crate::labels::push_labels;
use crate::legend::push_inset;
use crate::mark::Ink;
use crate::shown::Shown;
use crate::writing::put;
use edi_plan::Extent;
use edi_record::Kind;
use std::alloc::{AllocError, Global};

/// Appends the faces of all sheets.
fn push_all_faces(
    alloc: Global,
    canvas: &Canvas<'_>,
    text: &mut Vec<u8>,
    sheets: &[Shown<'_>],
) -> Result<(), AllocError>
    requires { AllHaveClasses canvas.now.schema.now sheets.now }
    ensures { OnOk result (text.new.items
        ≡ text.old.items ++ flat_map (faces_of canvas.now.schema.now canvas.now.frame) sheets.now) }
{
    for sheet in sheets {
        push_faces(alloc, canvas, text, sheet)?;
    }
    Ok(())
}

/// Appends the records of a type of all sheets that are drawn in an ink.
fn push_all_records(
    canvas: &Canvas<'_>,
    text: &mut Vec<u8>,
    sheets: &[Shown<'_>],
    kind: Kind,
    ink: Ink,
) -> Result<(), AllocError>
    requires { AllHaveClasses canvas.now.schema.now sheets.now }
    ensures { OnOk result (text.new.items
        ≡ text.old.items ++ flat_map (drawn_records kind canvas.now.schema.now canvas.now.frame ink) sheets.now) }
{
    for sheet in sheets {
        canvas.push_records(text, kind, ink, sheet)?;
    }
    Ok(())
}

/// Appends the faces of all sheets, with how they are drawn.
fn push_face_layer(
    alloc: Global,
    canvas: &Canvas<'_>,
    text: &mut Vec<u8>,
    sheets: &[Shown<'_>],
) -> Result<(), AllocError>
    requires { AllHaveClasses canvas.now.schema.now sheets.now }
    ensures { OnOk result (text.new.items
        ≡ text.old.items ++ faces_text canvas.now.schema.now canvas.now.frame sheets.now) }
{
    put(
        text,
        b"<g fill='none' fill-rule='evenodd' fill-opacity='0.5' pointer-events='all'>\n",
    )?;
    push_all_faces(alloc, canvas, text, sheets)?;
    put(text, b"</g>\n")
}

/// Appends the colour and the width of lines in an ink.
fn push_arcs_begin(text: &mut Vec<u8>, frame: &Extent, ink: Ink) -> Result<(), AllocError>
    ensures { OnOk result (text.new.items ≡ text.old.items ++ arcs_begin frame.now ink) }
{
    put(text, b"<g fill='none' stroke-linejoin='round' stroke='")?;
    put(text, ink.colour())?;
    put(text, b"' stroke-width='")?;
    push_pixels(text, frame, ink.stroke_width())
}

/// Appends how long dashes are.
fn push_dash_length(text: &mut Vec<u8>, frame: &Extent) -> Result<(), AllocError>
    ensures { OnOk result (text.new.items ≡ text.old.items ++ dashes frame.now Old) }
{
    put(text, b"' stroke-dasharray='")?;
    push_pixels(text, frame, 6)?;
    put(text, b"'>\n")
}

/// Appends whether they are dashed.
fn push_dashes(text: &mut Vec<u8>, frame: &Extent, ink: Ink) -> Result<(), AllocError>
    ensures { OnOk result (text.new.items ≡ text.old.items ++ dashes frame.now ink) }
{
    match ink {
        Ink::Old => push_dash_length(text, frame),
        Ink::Grey | Ink::New => put(text, b"'>\n"),
    }
}

/// Appends the arcs of all sheets in an ink, with how they are drawn.
fn push_arc_layer(
    canvas: &Canvas<'_>,
    text: &mut Vec<u8>,
    sheets: &[Shown<'_>],
    ink: Ink,
) -> Result<(), AllocError>
    requires { AllHaveClasses canvas.now.schema.now sheets.now }
    ensures { OnOk result (text.new.items
        ≡ text.old.items ++ arcs_text canvas.now.schema.now canvas.now.frame sheets.now ink) }
{
    push_arcs_begin(text, &canvas.frame, ink)?;
    push_dashes(text, &canvas.frame, ink)?;
    push_all_records(canvas, text, sheets, Kind::Par, ink)?;
    put(text, b"</g>\n")
}

/// Appends the colours of nodes in an ink.
fn push_nodes_begin(text: &mut Vec<u8>, ink: Ink) -> Result<(), AllocError>
    ensures { OnOk result (text.new.items ≡ text.old.items ++ nodes_begin ink) }
{
    put(text, b"<g fill='")?;
    put(text, ink.filling())?;
    put(text, b"' stroke='")?;
    put(text, ink.colour())
}

/// Appends how wide their rims are.
fn push_rim(text: &mut Vec<u8>, frame: &Extent) -> Result<(), AllocError>
    ensures { OnOk result (text.new.items ≡ text.old.items ++ rim_text frame.now) }
{
    put(text, b"' stroke-width='")?;
    push_pixels(text, frame, 1)?;
    put(text, b"'>\n")
}

/// Appends the nodes of all sheets in an ink, with how they are drawn.
fn push_node_layer(
    canvas: &Canvas<'_>,
    text: &mut Vec<u8>,
    sheets: &[Shown<'_>],
    ink: Ink,
) -> Result<(), AllocError>
    requires { AllHaveClasses canvas.now.schema.now sheets.now }
    ensures { OnOk result (text.new.items
        ≡ text.old.items ++ nodes_text canvas.now.schema.now canvas.now.frame sheets.now ink) }
{
    push_nodes_begin(text, ink)?;
    push_rim(text, &canvas.frame)?;
    push_all_records(canvas, text, sheets, Kind::Pno, ink)?;
    put(text, b"</g>\n")
}

/// Appends all of these. Arcs that both sheets have lie below those of the second, and these below those of the first;
/// nodes of the second lie above the wider ones of the first.
fn push_layers(
    alloc: Global,
    canvas: &Canvas<'_>,
    text: &mut Vec<u8>,
    sheets: &[Shown<'_>],
) -> Result<(), AllocError>
    requires { AllHaveClasses canvas.now.schema.now sheets.now }
    ensures { OnOk result (text.new.items
        ≡ text.old.items ++ layers canvas.now.schema.now canvas.now.frame sheets.now) }
{
    push_face_layer(alloc, canvas, text, sheets)?;
    push_arc_layer(canvas, text, sheets, Ink::Grey)?;
    push_arc_layer(canvas, text, sheets, Ink::New)?;
    push_arc_layer(canvas, text, sheets, Ink::Old)?;
    push_node_layer(canvas, text, sheets, Ink::Grey)?;
    push_node_layer(canvas, text, sheets, Ink::Old)?;
    push_node_layer(canvas, text, sheets, Ink::New)
}

/// Appends the plan, so far below the top.
pub(crate) fn push_plan(
    alloc: Global,
    canvas: &Canvas<'_>,
    text: &mut Vec<u8>,
    sheets: &[Shown<'_>],
    top: u64,
) -> Result<(), AllocError>
    requires { AllHaveClasses canvas.now.schema.now sheets.now }
    ensures { OnOk result (text.new.items
        ≡ text.old.items ++ plan_text canvas.now.schema.now canvas.now.frame sheets.now top) }
{
    push_inset(text, &canvas.frame, top)?;
    push_layers(alloc, canvas, text, sheets)?;
    put(text, b"</svg>\n")
}

/// Appends what is written on the faces of each sheet.
fn push_each_label(
    alloc: Global,
    text: &mut Vec<u8>,
    frame: &Extent,
    top: u64,
    sheets: &[Shown<'_>],
) -> Result<(), AllocError>
    requires { top ≤ 1000 }
    ensures { OnOk result (text.new.items ≡ text.old.items ++ flat_map (sheet_labels frame.now top) sheets.now) }
{
    for sheet in sheets {
        push_labels(alloc, text, frame, top, sheet)?;
    }
    Ok(())
}

/// Appends what is written on the faces of all sheets, where the plan begins so far below the top.
pub(crate) fn push_label_layer(
    alloc: Global,
    canvas: &Canvas<'_>,
    text: &mut Vec<u8>,
    sheets: &[Shown<'_>],
    top: u64,
) -> Result<(), AllocError>
    requires { top ≤ 1000 }
    ensures { OnOk result (text.new.items ≡ text.old.items ++ labels_text canvas.now.frame sheets.now top) }
{
    put(text, b"<g text-anchor='middle' font-size='12'>\n")?;
    push_each_label(alloc, text, &canvas.frame, top, sheets)?;
    put(text, b"</g>\n")
}
