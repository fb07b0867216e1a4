//! What stands round the plan.

ghost use Rattle.std.specs.Prelude.{◌≡◌, ◌≤◌, ◌++◌, ◌∷◌, IfOk, OnOk, codes};
ghost use Rattle.std.specs.List.{flat_map};
ghost use Rattle.edi_plan.specs.Agreeing.{HasClasses};
ghost use Rattle.edi_plan.specs.Plans.{IsPlace};
ghost use Rattle.edi_picture.specs.Legends.{bar_below, bar_line, bar_text, bar_words, changed_words, far_line, far_name, far_names, far_text, first_words, head_text, inset_height, inset_text, is_far, legend_height, legend_of_two, legend_row, legend_text, north_text, sample, sample_end, sample_place, second_words, sheet_words, sides_text, tint_row, words_at};
ghost use Rattle.edi_picture.specs.Sheets.{AllHaveClasses};
ghost use Rattle.edi_picture.specs.declared.mark.Ink.TheVariants.{Grey, New, Old};
ghost use Rattle.edi_picture.specs.Titles.{file_name_text};

use crate::canvas::{Canvas, push_pixels};
use crate::frame::{is_outside, plan_height, side};
use crate::mark::{Ink, Mark};
use crate::shown::Shown;
use crate::titles::{push_file_name, push_name};
use crate::writing::put;
use edi_line::{push_millionths, push_number};
use edi_plan::Extent;
use edi_record::Kind;
use std::alloc::{AllocError, Global};

/// Appends the head of a file whose page is so high.
pub(crate) fn push_head(text: &mut Vec<u8>, height: u64) -> Result<(), AllocError>
    ensures { OnOk result (text.new.items ≡ text.old.items ++ head_text height) }
{
    put(
        text,
        b"<svg xmlns='http://www.w3.org/2000/svg' font-family='sans-serif' font-size='14' viewBox='0 0 1000 ",
    )?;
    push_number(text, height)?;
    put(text, b"'>\n<rect width='1000' height='")?;
    push_number(text, height)?;
    put(text, b"' fill='white'/>\n")
}

/// Appends words, so far below the top.
fn push_words_at(text: &mut Vec<u8>, y: u64, words: &[u8]) -> Result<(), AllocError>
    ensures { OnOk result (text.new.items ≡ text.old.items ++ words_at y words.now) }
{
    put(text, b"' y='")?;
    push_number(text, y)?;
    put(text, b"'>")?;
    put(text, words)?;
    put(text, b"</text>\n")
}

// ---- the legend

/// Appends where a line in an ink stands.
fn push_sample_place(text: &mut Vec<u8>, y: u64) -> Result<(), AllocError>
    ensures { OnOk result (text.new.items ≡ text.old.items ++ sample_place y) }
{
    put(text, b"<path fill='none' stroke-width='2' d='M20,")?;
    push_number(text, y)?;
    put(text, b"h30' stroke='")
}

/// Appends a line in an ink.
fn push_sample(text: &mut Vec<u8>, y: u64, ink: Ink) -> Result<(), AllocError>
    ensures { OnOk result (text.new.items ≡ text.old.items ++ sample y ink) }
{
    push_sample_place(text, y)?;
    put(text, ink.colour())?;
    match ink {
        Ink::Old => put(text, b"' stroke-dasharray='6'/>\n"),
        Ink::Grey | Ink::New => put(text, b"'/>\n"),
    }
}

/// Appends that, and words behind it.
fn push_row(text: &mut Vec<u8>, y: u64, ink: Ink, words: &[u8]) -> Result<(), AllocError>
    requires { y ≤ 1000 }
    ensures { OnOk result (text.new.items ≡ text.old.items ++ legend_row y ink words.now) }
{
    push_sample(text, y, ink)?;
    put(text, b"<text x='60")?;
    push_words_at(text, y + 5, words)
}

/// Appends a sheet by a letter and the name of its file, and how many of its records the other sheet hasn't.
fn push_sheet_words(
    words: &mut Vec<u8>,
    letter: &[u8],
    sheet: &Shown<'_>,
    count: usize,
) -> Result<(), AllocError>
    ensures { OnOk result (words.new.items ≡ words.old.items ++ sheet_words letter.now sheet.now count) }
{
    put(words, letter)?;
    push_file_name(words, sheet.name())?;
    put(words, b", records only here: ")?;
    push_number(words, count as u64)
}

/// How many records changed, in words.
fn changed_words(alloc: Global, sheet: &Shown<'_>) -> Result<Vec<u8>, AllocError>
    ensures { IfOk result (λ words. words.items ≡ changed_words sheet.now) }
{
    let mut words = Vec::new(alloc);
    put(&mut words, b"records changed: ")?;
    push_number(&mut words, sheet.count(Mark::Before) as u64)?;
    put(&mut words, b"; grey: the same in both")?;
    Ok(words)
}

/// Appends a patch of the tint, and what it says.
fn push_tint_row(text: &mut Vec<u8>) -> Result<(), AllocError>
    ensures { OnOk result (text.new.items ≡ text.old.items ++ tint_row) }
{
    put(
        text,
        b"<rect x='20' y='73' width='30' height='14' fill='#F0E442' fill-opacity='0.5'/>\n",
    )?;
    put(
        text,
        b"<text x='60' y='85'>an outline, an object or a link changed</text>\n",
    )
}

/// Appends the row of the first of two sheets.
fn push_first_row(alloc: Global, text: &mut Vec<u8>, sheet: &Shown<'_>) -> Result<(), AllocError>
    ensures { OnOk result (text.new.items ≡ text.old.items ++ legend_row 20 Old (first_words sheet.now)) }
{
    let mut words = Vec::new(alloc);
    push_sheet_words(&mut words, b"A: ", sheet, sheet.count(Mark::OnlyFirst))?;
    push_row(text, 20, Ink::Old, &words)
}

/// Appends the row of the second.
fn push_second_row(alloc: Global, text: &mut Vec<u8>, sheet: &Shown<'_>) -> Result<(), AllocError>
    ensures { OnOk result (text.new.items ≡ text.old.items ++ legend_row 40 New (second_words sheet.now)) }
{
    let mut words = Vec::new(alloc);
    push_sheet_words(&mut words, b"B: ", sheet, sheet.count(Mark::OnlySecond))?;
    push_row(text, 40, Ink::New, &words)
}

/// Appends the row of what changed.
fn push_changed_row(alloc: Global, text: &mut Vec<u8>, sheet: &Shown<'_>) -> Result<(), AllocError>
    ensures { OnOk result (text.new.items ≡ text.old.items ++ legend_row 60 Grey (changed_words sheet.now)) }
{
    let words = changed_words(alloc, sheet)?;
    push_row(text, 60, Ink::Grey, &words)
}

/// Appends what the inks say where there are two sheets.
fn push_legend_of_two(
    alloc: Global,
    text: &mut Vec<u8>,
    first: &Shown<'_>,
    second: &Shown<'_>,
) -> Result<(), AllocError>
    ensures { OnOk result (text.new.items ≡ text.old.items ++ legend_of_two first.now second.now) }
{
    push_first_row(alloc, text, first)?;
    push_second_row(alloc, text, second)?;
    push_changed_row(alloc, text, first)?;
    push_tint_row(text)
}

/// Appends the name of the file of a sheet that is drawn alone.
fn push_name_alone(alloc: Global, text: &mut Vec<u8>, sheet: &Shown<'_>) -> Result<(), AllocError>
    ensures { OnOk result (text.new.items
        ≡ text.old.items ++ (codes "<text x='20" ++ words_at 25 (file_name_text sheet.now.name))) }
{
    let mut words = Vec::new(alloc);
    push_file_name(&mut words, sheet.name())?;
    put(text, b"<text x='20")?;
    push_words_at(text, 25, &words)
}

/// Appends the legend of a sheet and of those behind it.
fn push_legend_from(
    alloc: Global,
    text: &mut Vec<u8>,
    first: &Shown<'_>,
    more: &[Shown<'_>],
) -> Result<(), AllocError>
    ensures { OnOk result (text.new.items ≡ text.old.items ++ legend_text (first.now ∷ more.now)) }
{
    let [second, ..] = more else {
        return push_name_alone(alloc, text, first);
    };
    push_legend_of_two(alloc, text, first, second)
}

/// Appends the legend.
pub(crate) fn push_legend(
    alloc: Global,
    text: &mut Vec<u8>,
    sheets: &[Shown<'_>],
) -> Result<(), AllocError>
    ensures { OnOk result (text.new.items ≡ text.old.items ++ legend_text sheets.now) }
{
    let [first, more @ ..] = sheets else {
        return Ok(());
    };
    push_legend_from(alloc, text, first, more)
}

/// How far below the top it ends.
pub(crate) fn legend_height(sheets: &[Shown<'_>]) -> u64
    ensures height { result ≡ legend_height sheets.now }
    ensures small { result ≤ 100 }
{
    if sheets.len() < 2 { 40 } else { 100 }
}

// ---- the scale

/// Appends the size of an inner picture.
fn push_sides(text: &mut Vec<u8>, frame: &Extent) -> Result<(), AllocError>
    ensures { OnOk result (text.new.items ≡ text.old.items ++ sides_text frame.now) }
{
    push_millionths(text, side(frame.x))?;
    text.push(b' ')?;
    push_millionths(text, side(frame.y))?;
    put(text, b"'>\n")
}

/// Appends how high an inner picture is on the page.
fn push_inset_height(text: &mut Vec<u8>, frame: &Extent) -> Result<(), AllocError>
    ensures { OnOk result (text.new.items ≡ text.old.items ++ inset_height frame.now) }
{
    put(text, b"' width='960' height='")?;
    push_number(text, plan_height(frame))?;
    put(
        text,
        b"' overflow='visible' preserveAspectRatio='xMinYMin' viewBox='0 0 ",
    )
}

/// Appends the begin of an inner picture, so far below the top.
pub(crate) fn push_inset(text: &mut Vec<u8>, frame: &Extent, top: u64) -> Result<(), AllocError>
    ensures { OnOk result (text.new.items ≡ text.old.items ++ inset_text frame.now top) }
{
    put(text, b"<svg x='20' y='")?;
    push_number(text, top)?;
    push_inset_height(text, frame)?;
    push_sides(text, frame)
}

/// Appends a line of this length, in millionths of the file's unit.
fn push_bar_line(text: &mut Vec<u8>, frame: &Extent, bar: u64) -> Result<(), AllocError>
    ensures { OnOk result (text.new.items ≡ text.old.items ++ bar_line frame.now bar) }
{
    put(text, b"<path fill='none' stroke='black' stroke-width='")?;
    push_pixels(text, frame, 3)?;
    put(text, b"' d='M0,0h")?;
    push_millionths(text, bar)
}

/// Appends how many units a bar is long, in words.
fn push_bar_words(text: &mut Vec<u8>, top: u64, bar: u64) -> Result<(), AllocError>
    ensures { OnOk result (text.new.items ≡ text.old.items ++ bar_words top bar) }
{
    put(text, b"<text x='20' y='")?;
    push_number(text, top)?;
    put(text, b"'>")?;
    push_millionths(text, bar)?;
    put(text, b" unit(s)</text>\n")
}

/// Appends an arrow to the north.
fn push_north(text: &mut Vec<u8>) -> Result<(), AllocError>
    ensures { OnOk result (text.new.items ≡ text.old.items ++ north_text) }
{
    put(
        text,
        b"<path fill='none' stroke='black' stroke-width='2' d='M970,30v-22m-5,8l5,-8l5,8'/>\n",
    )?;
    put(text, b"<text x='965' y='46'>N</text>\n")
}

/// Appends the bar below words that stand so far below the top.
fn push_bar_below(text: &mut Vec<u8>, frame: &Extent, top: u64, bar: u64) -> Result<(), AllocError>
    requires { top ≤ 1000 }
    ensures { OnOk result (text.new.items ≡ text.old.items ++ bar_below frame.now top bar) }
{
    push_bar_words(text, top, bar)?;
    push_inset(text, frame, top + 8)?;
    push_bar_line(text, frame, bar)?;
    put(text, b"'/>\n</svg>\n")
}

/// Appends an arrow to the north, and that bar.
pub(crate) fn push_bar(
    text: &mut Vec<u8>,
    frame: &Extent,
    top: u64,
    bar: u64,
) -> Result<(), AllocError>
    requires { top ≤ 1000 }
    ensures { OnOk result (text.new.items ≡ text.old.items ++ bar_text frame.now top bar) }
{
    push_north(text)?;
    push_bar_below(text, frame, top, bar)
}

// ---- what isn't drawn

impl<'a> Canvas<'a> {
    /// Whether a node whose mark doesn't hide it lies outside of the frame.
    fn is_far(&self, sheet: &Shown<'_>, place: u32) -> bool
        requires { IsPlace sheet.now.plan place }
        ensures { result ≡ is_far self.now.frame sheet.now place }
    {
        if sheet.mark(place).is(Mark::Hidden) {
            return false;
        }
        for point in sheet.plan().points(place) {
            if is_outside(&self.frame, point) {
                return true;
            }
        }
        false
    }

    /// Appends the name of a node that is far off.
    fn push_far_name(
        &self,
        names: &mut Vec<u8>,
        sheet: &Shown<'_>,
        place: u32,
    ) -> Result<(), AllocError>
        requires classes { HasClasses self.now.schema.now sheet.now.plan }
        requires place { IsPlace sheet.now.plan place }
        ensures { OnOk result (names.new.items
            ≡ names.old.items ++ far_name self.now.schema.now sheet.now place) }
    {
        names.push(b' ')?;
        push_name(names, self.schema, sheet, place)?;
        put(names, b";")
    }

    /// Appends the names of the nodes of a sheet that are far off.
    fn push_far_names(&self, names: &mut Vec<u8>, sheet: &Shown<'_>) -> Result<(), AllocError>
        requires { HasClasses self.now.schema.now sheet.now.plan }
        ensures { OnOk result (names.new.items
            ≡ names.old.items ++ far_names self.now.schema.now self.now.frame sheet.now) }
    {
        for place in sheet.plan().places(Kind::Pno) {
            if self.is_far(sheet, *place) {
                self.push_far_name(names, sheet, *place)?;
            }
        }
        Ok(())
    }

    /// The names of the nodes of all sheets that are far off.
    fn far_names(&self, alloc: Global, sheets: &[Shown<'_>]) -> Result<Vec<u8>, AllocError>
        requires { AllHaveClasses self.now.schema.now sheets.now }
        ensures { IfOk result (λ names. names.items
            ≡ flat_map (far_names self.now.schema.now self.now.frame) sheets.now) }
    {
        let mut names = Vec::new(alloc);
        for sheet in sheets {
            self.push_far_names(&mut names, sheet)?;
        }
        Ok(names)
    }

    /// Appends a line that names the nodes that are far off, if there are any.
    pub(crate) fn push_far(
        &self,
        alloc: Global,
        text: &mut Vec<u8>,
        sheets: &[Shown<'_>],
        y: u64,
    ) -> Result<(), AllocError>
        requires { AllHaveClasses self.now.schema.now sheets.now }
        ensures { OnOk result (text.new.items
            ≡ text.old.items ++ far_text self.now.schema.now self.now.frame sheets.now y) }
    {
        let names = self.far_names(alloc, sheets)?;
        push_far_line(alloc, text, &names, y)
    }
}

/// Appends a line of these names, if there are any.
fn push_far_line(alloc: Global, text: &mut Vec<u8>, names: &[u8], y: u64) -> Result<(), AllocError>
    ensures { OnOk result (text.new.items ≡ text.old.items ++ far_line y names.now) }
{
    if names.is_empty() {
        return Ok(());
    }
    let mut words = Vec::new(alloc);
    put(&mut words, b"far off:")?;
    put(&mut words, names)?;
    put(text, b"<text x='20")?;
    push_words_at(text, y, &words)
}
