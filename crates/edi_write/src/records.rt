//! The bytes of records.

ghost use Rattle.std.specs.Prelude.{◌≡◌, ◌≤◌, length, ◌++◌, OnOk, decimal, flat_map, map, reverse};
ghost use Rattle.std.specs.List.{AllByRecursion};
ghost use Rattle.edi_line.specs.Printing.{printed, printed_zone};
ghost use Rattle.edi_record.specs.CanonicalZones.{extra_zone, point_zone};
ghost use Rattle.edi_plan.specs.Agreeing.{Agrees, AttributeAgrees};
ghost use Rattle.edi_plan.specs.Plans.{IsPlace, record_at};
ghost use Rattle.edi_rank.specs.Arranged.{arranged_record, old_places};
ghost use Rattle.edi_rank.specs.EndOrder.{OthersInOrder};
ghost use Rattle.edi_rank.specs.Labelling.{AreLabels, number_of, order_of};
ghost use Rattle.edi_write.specs.inner.SharedFronts.{all_written};
ghost use Rattle.edi_write.specs.inner.ClassLines.{IsLineOfItsClass};
ghost use Rattle.edi_write.specs.inner.Heads.{headed};
ghost use Rattle.edi_write.specs.Layout.{attribute_zones, head_zones};
ghost use Rattle.edi_write.specs.inner.Openings.{opening_of};
ghost use Rattle.edi_write.specs.inner.Numbered.{
  arc_body,
  link_body,
  numbered_body,
  numbered_zones,
  ordered_attributes,
  ordered_tail,
};

use crate::class_line::ClassLine;
use crate::heads::{ATTRIBUTE_COUNT, END_COUNT, POINT_COUNT, ZoneHead};
use crate::labelled_plan::LabelledPlan;
use crate::links::write_ends;
use crate::names::{type_zone, write_identifier};
use crate::openings::{BATCH, Opening};
use crate::page::Page;
use crate::parts::{write_attribute, write_extra, write_point};
use crate::shared_front::SharedFront;
use edi_plan::{PlanAttribute, sorted_attributes};
use edi_record::{Extra, Kind, Point};
use edi_schema::Schema;
use itoa::Buffer;
use std::alloc::{AllocError, Global};

fn write_number(page: &mut Page, head: ZoneHead, number: usize) -> Result<(), AllocError>
    ensures { OnOk result (page.new.file.items ≡ page.old.file.items ++ printed_zone (headed head (decimal number))) }
{
    let mut digits = Buffer::new();
    page.write(head, digits.format(number).as_bytes())
}

/// The zone of the count where there are no attributes.
#[tactic(auto, using(crate::proofs::Counts::no_attributes))]
fn zone_of_none() -> &'static [u8]
    ensures { result.now ≡ printed_zone (headed ATTRIBUTE_COUNT (decimal 0)) }
{
    b"ATCSN01:0\r\n"
}

/// The zone of the count where there are two ends.
#[tactic(auto, using(crate::proofs::Counts::two_ends))]
fn zone_of_two() -> &'static [u8]
    ensures { result.now ≡ printed_zone (headed END_COUNT (decimal 2)) }
{
    b"FTCSN01:2\r\n"
}

/// Writes the count of a link's ends. Nearly each link has two.
fn write_end_count(page: &mut Page, count: usize) -> Result<(), AllocError>
    ensures { OnOk result (page.new.file.items
        ≡ page.old.file.items ++ printed_zone (headed END_COUNT (decimal count))) }
{
    if count == 2 {
        return page.file.extend_from_slice(zone_of_two());
    }
    write_number(page, END_COUNT, count)
}

fn write_forward(page: &mut Page, points: &[Point]) -> Result<(), AllocError>
    ensures { OnOk result (page.new.file.items ≡ page.old.file.items ++ printed (map point_zone points.now)) }
{
    for point in points {
        write_point(page, *point)?;
    }
    Ok(())
}

fn write_backward(page: &mut Page, points: &[Point]) -> Result<(), AllocError>
    ensures { OnOk result (page.new.file.items ≡ page.old.file.items ++ printed (map point_zone (reverse points.now))) }
{
    for place in (0..points.len()).rev() {
        write_point(page, points[place])?;
    }
    Ok(())
}

fn write_attributes(
    page: &mut Page,
    schema: &Schema,
    attributes: &[&PlanAttribute],
) -> Result<(), AllocError>
    requires { AllByRecursion (λ a. AttributeAgrees schema.now a.now) attributes.now }
    ensures { OnOk result (page.new.file.items
        ≡ page.old.file.items ++ printed (flat_map (attribute_zones schema.now) (map (λ a. a.now) attributes.now))) }
{
    for attribute in attributes {
        write_attribute(page, schema, attribute)?;
    }
    Ok(())
}

/// Writes the count of a record's attributes, and these in their order.
fn write_in_order(
    alloc: Global,
    page: &mut Page,
    schema: &Schema,
    attributes: &[PlanAttribute],
) -> Result<(), AllocError>
    requires { AllByRecursion (AttributeAgrees schema.now) attributes.now }
    ensures { OnOk result (page.new.file.items
        ≡ page.old.file.items ++ printed (ordered_attributes schema.now attributes.now)) }
{
    let sorted = sorted_attributes(alloc, attributes)?;
    write_number(page, ATTRIBUTE_COUNT, sorted.len())?;
    write_attributes(page, schema, &sorted)
}

fn write_extras(page: &mut Page, extras: &[Extra]) -> Result<(), AllocError>
    ensures { OnOk result (page.new.file.items ≡ page.old.file.items ++ printed (map extra_zone extras.now)) }
{
    for extra in extras {
        write_extra(page, extra)?;
    }
    Ok(())
}

/// Writes the count of an arc's points, and these in its direction.
fn write_arc(page: &mut Page, points: &[Point], turned: bool) -> Result<(), AllocError>
    ensures { OnOk result (page.new.file.items ≡ page.old.file.items ++ printed (arc_body turned points.now)) }
{
    write_number(page, POINT_COUNT, points.len())?;
    if turned {
        write_backward(page, points)
    } else {
        write_forward(page, points)
    }
}

impl<'a> LabelledPlan<'a> {
    /// Writes the type, the identifier and the class of a record.
    fn write_head(
        &self,
        page: &mut Page,
        line: &mut ClassLine,
        opening: &Opening,
    ) -> Result<(), AllocError>
        requires place { IsPlace self.now.plan opening.now.place }
        requires opening { opening.now ≡ opening_of self.now opening.now.place }
        requires line { IsLineOfItsClass self.now.classes line.old }
        ensures line { OnOk result (IsLineOfItsClass self.now.classes line.new) }
        ensures written { OnOk result (page.new.file.items ≡ page.old.file.items
            ++ printed (head_zones self.now.classes (number_of self.now.labels opening.now.place)
            (arranged_record self.now.classes self.now.labels self.now.plan opening.now.place))) }
    {
        page.file.extend_from_slice(type_zone(opening.kind))?;
        write_identifier(page, opening.kind, opening.number)?;
        line.write(page, self.schema, opening.class)
    }

    /// Writes the count of a link's ends, and these in their order.
    fn write_link(&self, page: &mut Page, place: u32) -> Result<(), AllocError>
        requires { IsPlace self.now.plan place }
        ensures { OnOk result (page.new.file.items ≡ page.old.file.items
            ++ printed (link_body self.now.labels self.now.plan (record_at self.now.plan place).ends)) }
    {
        write_end_count(page, self.plan.ends(place).len())?;
        write_ends(page, self.plan, self.labels, place)
    }

    /// Writes what stands between the class and the attributes: points or ends.
    fn write_body(&self, page: &mut Page, opening: &Opening) -> Result<(), AllocError>
        requires place { IsPlace self.now.plan opening.now.place }
        requires opening { opening.now ≡ opening_of self.now opening.now.place }
        ensures { OnOk result (page.new.file.items ≡ page.old.file.items ++ printed
            (numbered_body self.now.labels self.now.plan opening.now.place
            (record_at self.now.plan opening.now.place).kind)) }
    {
        let place = opening.place;
        match opening.kind {
            Kind::Pno => write_forward(page, self.plan.points(place)),
            Kind::Par => write_arc(page, self.plan.points(place), self.labels.turned(place)),
            Kind::Pfe | Kind::Fea => Ok(()),
            Kind::Lnk => self.write_link(page, place),
        }
    }

    /// Writes the count of a record's attributes, these in their order, and its extra zones.
    fn write_tail(&self, alloc: Global, page: &mut Page, place: u32) -> Result<(), AllocError>
        requires { IsPlace self.now.plan place }
        ensures { OnOk result (page.new.file.items
            ≡ page.old.file.items ++ printed (ordered_tail self.now.classes (record_at self.now.plan place))) }
    {
        let attributes = self.plan.attributes(place);
        // Most records have none. The zone of their count is copied, and no list of them in order is made.
        if attributes.is_empty() {
            page.file.extend_from_slice(zone_of_none())?;
        } else {
            write_in_order(alloc, page, self.schema, attributes)?;
        }
        write_extras(page, self.plan.extras(place))
    }

    /// Writes a record.
    fn write_record(
        &self,
        alloc: Global,
        page: &mut Page,
        line: &mut ClassLine,
        opening: &Opening,
    ) -> Result<(), AllocError>
        requires place { IsPlace self.now.plan opening.now.place }
        requires opening { opening.now ≡ opening_of self.now opening.now.place }
        requires line { IsLineOfItsClass self.now.classes line.old }
        ensures line { OnOk result (IsLineOfItsClass self.now.classes line.new) }
        ensures written { OnOk result (page.new.file.items ≡ page.old.file.items
            ++ printed (numbered_zones self.now.classes self.now.labels self.now.plan opening.now.place)) }
    {
        self.write_head(page, line, opening)?;
        self.write_body(page, opening)?;
        self.write_tail(alloc, page, opening.place)
    }

    /// Writes the records that open so, one after the other.
    fn write_opened(
        &self,
        alloc: Global,
        page: &mut Page,
        line: &mut ClassLine,
        openings: &[Opening],
    ) -> Result<(), AllocError>
        requires openings { AllByRecursion (λ o. IsPlace self.now.plan o.place × (o ≡ opening_of self.now o.place))
            openings.now }
        requires line { IsLineOfItsClass self.now.classes line.old }
        ensures line { OnOk result (IsLineOfItsClass self.now.classes line.new) }
        ensures written { OnOk result (page.new.file.items ≡ page.old.file.items
            ++ printed (flat_map (numbered_zones self.now.classes self.now.labels self.now.plan)
            (map (λ o. o.place) openings.now))) }
    {
        for opening in openings {
            self.write_record(alloc, page, line, opening)?;
        }
        Ok(())
    }

    /// Writes the records at these places. What the other file has too is dropped batch by batch.
    fn write_places(
        &self,
        alloc: Global,
        file: &mut SharedFront<'_>,
        places: &[u32],
    ) -> Result<(), AllocError>
        requires places { AllByRecursion (IsPlace self.now.plan) places.now }
        requires within { file.old.front ≤ length file.old.other.now }
        ensures other { OnOk result (file.new.other.now ≡ file.old.other.now) }
        ensures within { OnOk result (file.new.front ≤ length file.new.other.now) }
        ensures written { OnOk result (all_written file.new ≡ all_written file.old
            ++ printed (flat_map (numbered_zones self.now.classes self.now.labels self.now.plan) places.now)) }
    {
        let mut line = ClassLine::new(alloc);
        let mut openings = Vec::new(alloc);
        let mut rest = places;
        while !rest.is_empty() {
            let (batch, behind) = rest.split_at(rest.len().min(BATCH));
            self.look_up(batch, &mut openings)?;
            self.write_opened(alloc, &mut file.page, &mut line, &openings)?;
            file.drop_shared();
            rest = behind;
        }
        Ok(())
    }

    /// Writes the records of a kind, by their numbers.
    fn write_kind(
        &self,
        alloc: Global,
        file: &mut SharedFront<'_>,
        kind: Kind,
    ) -> Result<(), AllocError>
        requires within { file.old.front ≤ length file.old.other.now }
        ensures other { OnOk result (file.new.other.now ≡ file.old.other.now) }
        ensures within { OnOk result (file.new.front ≤ length file.new.other.now) }
        ensures written { OnOk result (all_written file.new ≡ all_written file.old
            ++ printed (flat_map (numbered_zones self.now.classes self.now.labels self.now.plan)
            (order_of self.now.labels kind))) }
    {
        self.write_places(alloc, file, self.labels.order(kind))
    }

    /// Writes the records: nodes, arcs, faces, objects and links, each by their numbers.
    pub(crate) fn write_records(
        &self,
        alloc: Global,
        file: &mut SharedFront<'_>,
    ) -> Result<(), AllocError>
        requires within { file.old.front ≤ length file.old.other.now }
        ensures other { OnOk result (file.new.other.now ≡ file.old.other.now) }
        ensures within { OnOk result (file.new.front ≤ length file.new.other.now) }
        ensures written { OnOk result (all_written file.new ≡ all_written file.old
            ++ printed (flat_map (numbered_zones self.now.classes self.now.labels self.now.plan)
            (old_places self.now.labels))) }
    {
        self.write_kind(alloc, file, Kind::Pno)?;
        self.write_kind(alloc, file, Kind::Par)?;
        self.write_kind(alloc, file, Kind::Pfe)?;
        self.write_kind(alloc, file, Kind::Fea)?;
        self.write_kind(alloc, file, Kind::Lnk)
    }
}
