//! Pictures of sheets.

ghost use Rattle.std.specs.Prelude.{◌≡◌, ◌≤◌, ◌++◌, ◌+◌, IfOk, OnOk, ℕ};
ghost use Rattle.edi_picture.specs.Frames.{IsBar, side_length};
ghost use Rattle.edi_picture.specs.Legends.{legend_height, tail_text};
ghost use Rattle.edi_picture.specs.Pictures.{IsPage, IsPicture, drawn_text, page_top, plan_bottom, plan_top};
ghost use Rattle.edi_picture.specs.Sheets.{AllHaveClasses};

use crate::canvas::Canvas;
use crate::frame::{bar_within, frame_of, plan_height, side};
use crate::layers::{push_label_layer, push_plan};
use crate::legend::{legend_height, push_bar, push_head, push_legend};
use crate::shown::Shown;
use crate::writing::put;
use edi_plan::Extent;
use edi_schema::Schema;
use std::alloc::{AllocError, Global};

/// How far below the top the plan begins.
fn plan_top(sheets: &[Shown<'_>]) -> u64
    ensures top { result ≡ plan_top sheets.now }
    ensures small { result ≤ 128 }
{
    legend_height(sheets) + 28
}

/// How far below the top it ends.
fn plan_bottom(sheets: &[Shown<'_>], frame: &Extent) -> u64
    ensures bottom { result ≡ plan_bottom sheets.now frame.now }
    ensures small { result ≤ 1328 }
{
    plan_top(sheets) + plan_height(frame)
}

/// Appends the head of a page so high, and the legend.
fn push_page_top(
    alloc: Global,
    text: &mut Vec<u8>,
    sheets: &[Shown<'_>],
    height: u64,
) -> Result<(), AllocError>
    ensures { OnOk result (text.new.items ≡ text.old.items ++ page_top sheets.now height) }
{
    push_head(text, height)?;
    push_legend(alloc, text, sheets)
}

/// Appends the bar, the plan with what is written on it, and the line of what is far off.
fn push_drawn(
    alloc: Global,
    text: &mut Vec<u8>,
    canvas: &Canvas<'_>,
    sheets: &[Shown<'_>],
    bar: u64,
) -> Result<(), AllocError>
    requires { AllHaveClasses canvas.now.schema.now sheets.now }
    ensures { OnOk result (text.new.items
        ≡ text.old.items ++ drawn_text canvas.now.schema.now sheets.now canvas.now.frame bar) }
{
    let height = legend_height(sheets);
    let top = plan_top(sheets);
    push_bar(text, &canvas.frame, height + 10, bar)?;
    push_plan(alloc, canvas, text, sheets, top)?;
    push_label_layer(alloc, canvas, text, sheets, top)?;
    canvas.push_far(alloc, text, sheets, plan_bottom(sheets, &canvas.frame) + 22)
}

/// A page with a frame.
fn page_with_frame(
    alloc: Global,
    canvas: &Canvas<'_>,
    sheets: &[Shown<'_>],
) -> Result<Vec<u8>, AllocError>
    requires { AllHaveClasses canvas.now.schema.now sheets.now }
    ensures { IfOk result (λ text. (bar : ℕ) × IsBar (side_length canvas.now.frame.x) bar
        × (text.items ≡ page_top sheets.now (plan_bottom sheets.now canvas.now.frame + 32)
        ++ drawn_text canvas.now.schema.now sheets.now canvas.now.frame bar ++ tail_text)) }
{
    let bottom = plan_bottom(sheets, &canvas.frame);
    let bar = bar_within(side(canvas.frame.x));
    let mut text = Vec::new(alloc);
    push_page_top(alloc, &mut text, sheets, bottom + 32)?;
    push_drawn(alloc, &mut text, canvas, sheets, bar)?;
    put(&mut text, b"</svg>\n")?;
    Ok(text)
}

/// The picture of some sheets, as the text of an SVG file (docs/FORMAT.md, "Pictures"): of one sheet, or of two of
/// which the second shows what the first doesn't. Points are written in units of the file, as exact decimals. The only
/// error is a lack of memory.
pub fn picture(alloc: Global, schema: &Schema, sheets: &[Shown<'_>]) -> Result<Vec<u8>, AllocError>
    requires { AllHaveClasses schema.now sheets.now }
    ensures { IfOk result (λ text. IsPicture schema.now sheets.now text.items) }
{
    if let Some(frame) = frame_of(sheets) {
        return page_with_frame(alloc, &Canvas { schema, frame }, sheets);
    }
    let mut text = Vec::new(alloc);
    push_page_top(alloc, &mut text, sheets, legend_height(sheets))?;
    put(&mut text, b"</svg>\n")?;
    Ok(text)
}
