//! What is drawn of the arcs and nodes of a sheet.

ghost use Rattle.std.specs.Prelude.{◌≡◌, ◌++◌, ◌≤◌, OnOk};
ghost use Rattle.edi_picture.specs.Elements.{across_text, dot_place, dot_size, down_text, spot_text};
ghost use Rattle.edi_picture.specs.Frames.{pixels};

use crate::frame::{distance_between, is_outside, pixel};
use crate::mark::Ink;
use crate::shown::Shown;
use crate::titles::push_title;
use crate::writing::put;
use edi_line::push_millionths;
use edi_plan::Extent;
use edi_record::{Kind, Point};
use edi_schema::Schema;
use std::alloc::AllocError;

/// Appends how far a point is to the right of the least x.
fn push_across(text: &mut Vec<u8>, frame: &Extent, point: &Point) -> Result<(), AllocError>
    ensures { OnOk result (text.new.items ≡ text.old.items ++ across_text frame.now point.now) }
{
    push_millionths(text, distance_between(point.x, frame.x.least))
}

/// Appends how far it is below the greatest y.
fn push_down(text: &mut Vec<u8>, frame: &Extent, point: &Point) -> Result<(), AllocError>
    ensures { OnOk result (text.new.items ≡ text.old.items ++ down_text frame.now point.now) }
{
    push_millionths(text, distance_between(frame.y.greatest, point.y))
}

/// Appends a space and a point.
pub(crate) fn push_spot(text: &mut Vec<u8>, frame: &Extent, point: &Point) -> Result<(), AllocError>
    ensures { OnOk result (text.new.items ≡ text.old.items ++ spot_text frame.now point.now) }
{
    text.push(b' ')?;
    push_across(text, frame, point)?;
    text.push(b',')?;
    push_down(text, frame, point)
}

/// Appends so many pixels, in units of the file.
pub(crate) fn push_pixels(text: &mut Vec<u8>, frame: &Extent, count: u64) -> Result<(), AllocError>
    requires { count ≤ 12 }
    ensures { OnOk result (text.new.items ≡ text.old.items ++ pixels frame.now count) }
{
    push_millionths(text, count * pixel(frame))
}

/// Appends the middle of a dot.
fn push_dot_place(text: &mut Vec<u8>, frame: &Extent, point: &Point) -> Result<(), AllocError>
    ensures { OnOk result (text.new.items ≡ text.old.items ++ dot_place frame.now point.now) }
{
    put(text, b"<circle cx='")?;
    push_across(text, frame, point)?;
    put(text, b"' cy='")?;
    push_down(text, frame, point)
}

/// Appends how large it is.
fn push_dot_size(text: &mut Vec<u8>, frame: &Extent, ink: Ink) -> Result<(), AllocError>
    ensures { OnOk result (text.new.items ≡ text.old.items ++ dot_size frame.now ink) }
{
    put(text, b"' r='")?;
    push_pixels(text, frame, ink.node_radius())?;
    put(text, b"'>")
}

/// What is drawn stands in this frame, and its classes are of this schema.
#[derive(Drop)]
pub(crate) struct Canvas<'a> {
    pub(crate) schema: &'a Schema,
    pub(crate) frame: Extent,
}

impl<'a> Canvas<'a> {
    ghost use Rattle.std.specs.Prelude.{◌≡◌, ◌++◌, [], OnOk};
    ghost use Rattle.std.specs.List.{flat_map};
    ghost use Rattle.edi_plan.specs.Agreeing.{HasClasses};
    ghost use Rattle.edi_plan.specs.Plans.{IsPlace, record_at};
    ghost use Rattle.edi_picture.specs.Elements.{arc_element, dot_element, dot_text, record_text, drawn_records, spots_text};
    ghost use Rattle.edi_picture.specs.Titles.{title_text};

    /// Appends the points of a record.
    pub(crate) fn push_spots(
        &self,
        text: &mut Vec<u8>,
        sheet: &Shown<'_>,
        place: u32,
    ) -> Result<(), AllocError>
        requires { IsPlace sheet.now.plan place }
        ensures { OnOk result (text.new.items ≡ text.old.items ++ spots_text self.now.frame sheet.now place) }
    {
        for point in sheet.plan().points(place) {
            push_spot(text, &self.frame, point)?;
        }
        Ok(())
    }

    /// Appends an arc: a line through its points.
    fn push_line(&self, text: &mut Vec<u8>, sheet: &Shown<'_>, place: u32) -> Result<(), AllocError>
        requires classes { HasClasses self.now.schema.now sheet.now.plan }
        requires place { IsPlace sheet.now.plan place }
        ensures { OnOk result (text.new.items
            ≡ text.old.items ++ arc_element self.now.schema.now self.now.frame sheet.now place) }
    {
        put(text, b"<polyline points='")?;
        self.push_spots(text, sheet, place)?;
        put(text, b"'>")?;
        push_title(text, self.schema, sheet, place, b"")?;
        put(text, b"</polyline>\n")
    }

    /// Appends a dot at a point of a node, if it lies in the frame.
    fn push_dot(
        &self,
        text: &mut Vec<u8>,
        ink: Ink,
        sheet: &Shown<'_>,
        place: u32,
        point: &Point,
    ) -> Result<(), AllocError>
        requires classes { HasClasses self.now.schema.now sheet.now.plan }
        requires place { IsPlace sheet.now.plan place }
        ensures { OnOk result (text.new.items
            ≡ text.old.items ++ dot_text self.now.schema.now self.now.frame ink sheet.now place point.now) }
    {
        if is_outside(&self.frame, point) {
            return Ok(());
        }
        push_dot_place(text, &self.frame, point)?;
        push_dot_size(text, &self.frame, ink)?;
        push_title(text, self.schema, sheet, place, b"")?;
        put(text, b"</circle>\n")
    }

    /// Appends the dots of a node.
    fn push_dots(
        &self,
        text: &mut Vec<u8>,
        ink: Ink,
        sheet: &Shown<'_>,
        place: u32,
    ) -> Result<(), AllocError>
        requires classes { HasClasses self.now.schema.now sheet.now.plan }
        requires place { IsPlace sheet.now.plan place }
        ensures { OnOk result (text.new.items ≡ text.old.items
            ++ flat_map (dot_text self.now.schema.now self.now.frame ink sheet.now place)
            (record_at sheet.now.plan place).points) }
    {
        for point in sheet.plan().points(place) {
            self.push_dot(text, ink, sheet, place, point)?;
        }
        Ok(())
    }

    /// Appends a record of a type, if it is drawn in an ink.
    fn push_record(
        &self,
        text: &mut Vec<u8>,
        kind: Kind,
        ink: Ink,
        sheet: &Shown<'_>,
        place: u32,
    ) -> Result<(), AllocError>
        requires classes { HasClasses self.now.schema.now sheet.now.plan }
        requires place { IsPlace sheet.now.plan place }
        ensures { OnOk result (text.new.items
            ≡ text.old.items ++ record_text kind self.now.schema.now self.now.frame ink sheet.now place) }
    {
        if sheet.mark(place).is_drawn_in(ink) {
            match kind {
                Kind::Par => self.push_line(text, sheet, place),
                Kind::Pno => self.push_dots(text, ink, sheet, place),
                Kind::Pfe | Kind::Fea | Kind::Lnk => Ok(()),
            }
        } else {
            Ok(())
        }
    }

    /// Appends the records of a type of the sheet that are drawn in an ink.
    pub(crate) fn push_records(
        &self,
        text: &mut Vec<u8>,
        kind: Kind,
        ink: Ink,
        sheet: &Shown<'_>,
    ) -> Result<(), AllocError>
        requires { HasClasses self.now.schema.now sheet.now.plan }
        ensures { OnOk result (text.new.items
            ≡ text.old.items ++ drawn_records kind self.now.schema.now self.now.frame ink sheet.now) }
    {
        for place in sheet.plan().places(kind) {
            self.push_record(text, kind, ink, sheet, *place)?;
        }
        Ok(())
    }
}
