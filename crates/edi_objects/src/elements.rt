//! Nodes, arcs, faces and other records, as the text calls them, and how it tells that they differ.

ghost use Rattle.std.specs.Prelude.{◌≡◌, ◌++◌, ◌<◌, OnOk, codes, decimal, length};
ghost use Rattle.edi_line.specs.Number.{size_text};
ghost use Rattle.edi_plan.specs.Agreeing.{Agrees};
ghost use Rattle.edi_plan.specs.Plans.{IsPlace, record_at};
ghost use Rattle.edi_report.specs.Reports.{HasSites, site_at};
ghost use Rattle.edi_objects.specs.Distances.{farthest, side_by_side, unlike_count};
ghost use Rattle.edi_objects.specs.Elements.{arc_change, element_text, first_position, last_position, lone_element, more_text, name_of_record, node_change, other_text, others_text, points_change, coordinates_text, third_coordinate_text};
ghost use Rattle.edi_objects.specs.Names.{shown_class};

use crate::distances::{distance_of_first, moves_between};
use crate::names::{Namer, first_few};
use edi_line::{Num, push_millionths, push_number};
use edi_plan::Plan;
use edi_record::{Kind, Point};
use edi_report::LocatedSheet;
use std::alloc::AllocError;

/// Of how many of the records that a link names the text says which.
pub(crate) const MOST_NAMED: usize = 4;

/// A sheet whose records the text names.
#[derive(Clone, Copy)]
pub(crate) struct SheetNamer<'a> {
    pub(crate) namer: &'a Namer<'a>,
    pub(crate) sheet: &'a LocatedSheet,
}

impl<'a> SheetNamer<'a> {
    /// The plan of the sheet.
    pub(crate) fn plan(&self) -> &'a Plan
        ensures { result.now ≡ self.now.sheet.now.accepted }
    {
        self.sheet.plan()
    }

    /// The line in which a record begins.
    pub(crate) fn line(&self, place: u32) -> u64
        requires sites { HasSites self.now.sheet.now }
        requires place { IsPlace self.now.sheet.now.accepted place }
        ensures { result ≡ (site_at self.now.sheet.now place).line }
    {
        self.sheet.site(place).line
    }

    /// Appends what the text calls a record.
    pub(crate) fn push_name(&self, text: &mut Vec<u8>, place: u32) -> Result<(), AllocError>
        requires agrees { Agrees self.now.namer.now.classes self.now.sheet.now.accepted }
        requires place { IsPlace self.now.sheet.now.accepted place }
        ensures { OnOk result (text.new.items
            ≡ text.old.items ++ name_of_record self.now.namer.now self.now.sheet.now place) }
    {
        let plan = self.plan();
        match plan.kind(place) {
            Kind::Pno => push_node(text, plan.points(place)),
            Kind::Par => push_arc(text, plan.points(place)),
            Kind::Pfe => text.extend_from_slice(b"face"),
            Kind::Fea => {
                self.namer
                    .push_object(text, plan.scp(place), plan.attributes(place))
            }
            Kind::Lnk => self.push_link(text, place),
        }
    }

    /// Appends what the text calls a link.
    fn push_link(&self, text: &mut Vec<u8>, place: u32) -> Result<(), AllocError>
        requires agrees { Agrees self.now.namer.now.classes self.now.sheet.now.accepted }
        requires place { IsPlace self.now.sheet.now.accepted place }
        ensures { OnOk result (text.new.items ≡ text.old.items ++ (codes "link "
            ++ shown_class self.now.namer.now.classes (record_at self.now.sheet.now.accepted place).class)) }
    {
        text.extend_from_slice(b"link ")?;
        self.namer.push_class(text, self.plan().scp(place))
    }

    /// Appends what the text calls a record, and its line.
    #[tactic(auto, unfolding(crate::specs::Elements::element_text))]
    pub(crate) fn push_element(&self, text: &mut Vec<u8>, place: u32) -> Result<(), AllocError>
        requires agrees { Agrees self.now.namer.now.classes self.now.sheet.now.accepted }
        requires sites { HasSites self.now.sheet.now }
        requires place { IsPlace self.now.sheet.now.accepted place }
        ensures { OnOk result (text.new.items
            ≡ text.old.items ++ element_text self.now.namer.now self.now.sheet.now place) }
    {
        self.push_name(text, place)?;
        text.extend_from_slice(b" (line ")?;
        push_number(text, self.line(place))?;
        text.extend_from_slice(b")")
    }

    /// Appends a sign, what the text calls a record, and its line.
    pub(crate) fn push_signed(
        &self,
        text: &mut Vec<u8>,
        sign: &[u8],
        place: u32,
    ) -> Result<(), AllocError>
        requires agrees { Agrees self.now.namer.now.classes self.now.sheet.now.accepted }
        requires sites { HasSites self.now.sheet.now }
        requires place { IsPlace self.now.sheet.now.accepted place }
        ensures { OnOk result (text.new.items
            ≡ text.old.items ++ (sign.now ++ element_text self.now.namer.now self.now.sheet.now place)) }
    {
        text.extend_from_slice(sign)?;
        self.push_element(text, place)
    }

    /// Appends the line of a record that stands in this sheet alone.
    pub(crate) fn push_lone(
        &self,
        text: &mut Vec<u8>,
        sign: &[u8],
        place: u32,
    ) -> Result<(), AllocError>
        requires agrees { Agrees self.now.namer.now.classes self.now.sheet.now.accepted }
        requires sites { HasSites self.now.sheet.now }
        requires place { IsPlace self.now.sheet.now.accepted place }
        ensures { OnOk result (text.new.items
            ≡ text.old.items ++ lone_element sign.now self.now.namer.now self.now.sheet.now place) }
    {
        self.push_signed(text, sign, place)?;
        text.extend_from_slice(b"\n")
    }

    /// Appends what a link names, beside the record at a place if one is given.
    pub(crate) fn push_others(
        &self,
        text: &mut Vec<u8>,
        place: Option<u32>,
        link: u32,
    ) -> Result<(), AllocError>
        requires agrees { Agrees self.now.namer.now.classes self.now.sheet.now.accepted }
        requires sites { HasSites self.now.sheet.now }
        requires link { IsPlace self.now.sheet.now.accepted link }
        ensures { OnOk result (text.new.items ≡ text.old.items
            ++ others_text self.now.namer.now self.now.sheet.now place (record_at self.now.sheet.now.accepted link)) }
    {
        let plan = self.plan();
        plan.keeps();
        let ends = plan.ends(link);
        for end in first_few(ends, MOST_NAMED) {
            self.push_other(text, place, end.target)?;
        }
        push_more(text, ends.len())
    }

    /// Appends a record that a link names, unless it is the one that isn't meant.
    fn push_other(
        &self,
        text: &mut Vec<u8>,
        place: Option<u32>,
        other: u32,
    ) -> Result<(), AllocError>
        requires agrees { Agrees self.now.namer.now.classes self.now.sheet.now.accepted }
        requires sites { HasSites self.now.sheet.now }
        requires other { IsPlace self.now.sheet.now.accepted other }
        ensures { OnOk result (text.new.items
            ≡ text.old.items ++ other_text self.now.namer.now self.now.sheet.now place other) }
    {
        if place == Some(other) {
            return Ok(());
        }
        text.push(b' ')?;
        self.push_element(text, other)
    }
}

/// Appends that a link names more records, if it does.
fn push_more(text: &mut Vec<u8>, count: usize) -> Result<(), AllocError>
    ensures { OnOk result (text.new.items ≡ text.old.items ++ more_text count) }
{
    if count > MOST_NAMED {
        text.extend_from_slice(b" and others")
    } else {
        Ok(())
    }
}

/// Appends a position.
fn push_position(text: &mut Vec<u8>, point: &Point) -> Result<(), AllocError>
    ensures { OnOk result (text.new.items ≡ text.old.items ++ coordinates_text point.now) }
{
    point.x.push_plain(text)?;
    text.push(b';')?;
    point.y.push_plain(text)?;
    push_third(text, point.z)
}

/// Appends the third coordinate, where there is one.
fn push_third(text: &mut Vec<u8>, third: Option<Num>) -> Result<(), AllocError>
    ensures { OnOk result (text.new.items ≡ text.old.items ++ third_coordinate_text third) }
{
    match third {
        Some(z) => {
            text.push(b';')?;
            z.push_plain(text)
        }
        None => Ok(()),
    }
}

/// Appends the first position, if there is one.
fn push_first(text: &mut Vec<u8>, points: &[Point]) -> Result<(), AllocError>
    ensures { OnOk result (text.new.items ≡ text.old.items ++ first_position points.now) }
{
    match points.split_first() {
        Some((point, _)) => {
            text.push(b' ')?;
            push_position(text, point)
        }
        None => Ok(()),
    }
}

/// Appends the last position, if there are two or more.
fn push_last(text: &mut Vec<u8>, points: &[Point]) -> Result<(), AllocError>
    ensures { OnOk result (text.new.items ≡ text.old.items ++ last_position points.now) }
{
    if points.len() <= 1 {
        return Ok(());
    }
    text.extend_from_slice(b" .. ")?;
    push_position(text, &points[points.len() - 1])
}

/// Appends what the text calls a node.
fn push_node(text: &mut Vec<u8>, points: &[Point]) -> Result<(), AllocError>
    ensures { OnOk result (text.new.items ≡ text.old.items ++ (codes "node" ++ first_position points.now)) }
{
    text.extend_from_slice(b"node")?;
    push_first(text, points)
}

/// Appends what the text calls an arc.
fn push_arc(text: &mut Vec<u8>, points: &[Point]) -> Result<(), AllocError>
    ensures { OnOk result (text.new.items
        ≡ text.old.items ++ (codes "arc" ++ first_position points.now ++ last_position points.now)) }
{
    text.extend_from_slice(b"arc")?;
    push_first(text, points)?;
    push_last(text, points)
}

/// Appends how many points of an arc differ, of how many, and by how much at most.
fn push_moves(text: &mut Vec<u8>, points: &[Point], others: &[Point]) -> Result<(), AllocError>
    ensures { OnOk result (text.new.items ≡ text.old.items
        ++ (codes " points (" ++ decimal (unlike_count (side_by_side points.now others.now))
        ++ codes " of " ++ decimal (length points.now) ++ codes ", by at most "
        ++ size_text (farthest (side_by_side points.now others.now)) ++ codes ")")) }
{
    let moves = moves_between(points, others);
    text.extend_from_slice(b" points (")?;
    push_number(text, moves.count as u64)?;
    text.extend_from_slice(b" of ")?;
    push_number(text, points.len() as u64)?;
    text.extend_from_slice(b", by at most ")?;
    push_millionths(text, moves.farthest)?;
    text.extend_from_slice(b")")?;
    Ok(())
}

/// Appends how many points an arc had, and how many it has.
fn push_lengths(text: &mut Vec<u8>, had: usize, has: usize) -> Result<(), AllocError>
    ensures { OnOk result (text.new.items
        ≡ text.old.items ++ (codes " points (" ++ decimal had ++ codes ", then " ++ decimal has ++ codes ")")) }
{
    text.extend_from_slice(b" points (")?;
    push_number(text, had as u64)?;
    text.extend_from_slice(b", then ")?;
    push_number(text, has as u64)?;
    text.extend_from_slice(b")")
}

/// Appends how the points of an arc became those of another.
fn push_arc_change(text: &mut Vec<u8>, points: &[Point], others: &[Point]) -> Result<(), AllocError>
    ensures { OnOk result (text.new.items ≡ text.old.items ++ arc_change points.now others.now) }
{
    if points.len() == others.len() {
        push_moves(text, points, others)
    } else {
        push_lengths(text, points.len(), others.len())
    }
}

/// Appends where a node went, and how far.
fn push_node_change(
    text: &mut Vec<u8>,
    points: &[Point],
    others: &[Point],
) -> Result<(), AllocError>
    ensures { OnOk result (text.new.items ≡ text.old.items ++ node_change points.now others.now) }
{
    text.extend_from_slice(b" points (to")?;
    push_first(text, others)?;
    text.extend_from_slice(b", by ")?;
    push_millionths(text, distance_of_first(points, others))?;
    text.extend_from_slice(b")")
}

/// Appends how the points of a record became those of another.
pub(crate) fn push_points_change(
    text: &mut Vec<u8>,
    kind: Kind,
    points: &[Point],
    others: &[Point],
) -> Result<(), AllocError>
    ensures { OnOk result (text.new.items ≡ text.old.items ++ points_change kind points.now others.now) }
{
    match kind {
        Kind::Pno => push_node_change(text, points, others),
        Kind::Par => push_arc_change(text, points, others),
        Kind::Pfe | Kind::Fea | Kind::Lnk => Ok(()),
    }
}
