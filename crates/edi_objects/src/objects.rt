//! How the text tells that an object differs.

ghost use Rattle.std.specs.Prelude.{◌≡◌, ◌++◌, IfOk, IfSome, None, OnOk, Some, flat_map, take};
ghost use Rattle.edi_plan.specs.Plans.{IsPlace, is_object, record_at};
ghost use Rattle.edi_plan.specs.Sides.{targets};
ghost use Rattle.edi_objects.specs.Bounds.{outline_counts};
ghost use Rattle.edi_objects.specs.Counts.{changed_class, changed_classes, is_told_changed};
ghost use Rattle.edi_objects.specs.Differing.{became_of, same_of};
ghost use Rattle.edi_objects.specs.Objects.{attributes_change, class_change, differing_link, extras_change, first_link, first_links, first_object, first_objects, further_line, has_other_outline, link_text, object_block, object_header, object_lines, outline_line, outline_lines, outline_name, outline_text, own_lines, second_link, second_links, second_object, second_objects};
ghost use Rattle.edi_report.specs.Reports.{parts_at};

use crate::account::ObjectReporter;
use crate::attributes::push_attribute_lines;
use crate::bounds::push_outline_counts;
use crate::counts::push_class_if;
use crate::elements::MOST_NAMED;
use crate::further::has_other_outline;
use crate::index::entries_of;
use crate::names::first_few;
use edi_record::Kind;
use edi_report::DifferingParts;
use edi_report::lines::{push_both_lines, push_words};
use edi_schema::ClassRef;
use std::alloc::{AllocError, Global};

/// Whether records of this type are objects.
pub(crate) fn is_object(kind: Kind) -> bool
    ensures { result ≡ is_object kind }
{
    match kind {
        Kind::Fea => true,
        Kind::Pno | Kind::Par | Kind::Pfe | Kind::Lnk => false,
    }
}

/// Appends that extra zones differ, if they do.
#[tactic(auto, unfolding(crate::specs::Objects::extras_change))]
fn push_extras_change(lines: &mut Vec<u8>, differ: bool) -> Result<(), AllocError>
    ensures { OnOk result (lines.new.items ≡ lines.old.items ++ extras_change differ) }
{
    if differ {
        lines.extend_from_slice(b"    extra zones\n")
    } else {
        Ok(())
    }
}

impl<'a> ObjectReporter<'a> {
    /// Appends the objects of the first sheet that differ, and the classes of those that changed.
    pub(crate) fn push_first_objects(
        &self,
        alloc: Global,
        text: &mut Vec<u8>,
        changed: &mut Vec<ClassRef>,
    ) -> Result<(), AllocError>
        ensures text { OnOk result (text.new.items
            ≡ text.old.items ++ first_objects self.now.naming self.now.report) }
        ensures classes { OnOk result (changed.new.items
            ≡ changed.old.items ++ changed_classes self.now.naming self.now.report) }
    {
        for place in self.first().plan().places(Kind::Fea) {
            self.push_first_object(alloc, text, changed, *place)?;
        }
        Ok(())
    }

    /// Appends the new objects of the second sheet.
    pub(crate) fn push_second_objects(&self, text: &mut Vec<u8>) -> Result<(), AllocError>
        ensures { OnOk result (text.new.items ≡ text.old.items ++ second_objects self.now.naming self.now.report) }
    {
        for place in self.second().plan().places(Kind::Fea) {
            self.push_second_object(text, *place)?;
        }
        Ok(())
    }

    /// Appends an object of the first sheet, if it is gone or differs, and its class if it changed.
    fn push_first_object(
        &self,
        alloc: Global,
        text: &mut Vec<u8>,
        changed: &mut Vec<ClassRef>,
        place: u32,
    ) -> Result<(), AllocError>
        requires { IsPlace self.now.report.first.accepted place }
        ensures text { OnOk result (text.new.items
            ≡ text.old.items ++ first_object self.now.naming self.now.report place) }
        ensures classes { OnOk result (changed.new.items
            ≡ changed.old.items ++ changed_class self.now.naming self.now.report place) }
    {
        match self.became_of(place) {
            Some(target) => {
                let is_told = self.push_block(alloc, text, place, target)?;
                push_class_if(changed, is_told, self.first().plan(), place)
            }
            None => self.first().push_lone(text, b"- ", place),
        }
    }

    /// Appends an object of the second sheet, if it is new.
    fn push_second_object(&self, text: &mut Vec<u8>, place: u32) -> Result<(), AllocError>
        requires { IsPlace self.now.report.second.accepted place }
        ensures { OnOk result (text.new.items ≡ text.old.items ++ second_object self.now.naming self.now.report place) }
    {
        if self.is_reached(place) {
            return Ok(());
        }
        self.second().push_lone(text, b"+ ", place)
    }

    /// Appends an object that is or became one of the second sheet, and below it what differs. Says whether it does.
    fn push_block(
        &self,
        alloc: Global,
        text: &mut Vec<u8>,
        place: u32,
        target: u32,
    ) -> Result<bool, AllocError>
        requires place { IsPlace self.now.report.first.accepted place }
        requires target { IsPlace self.now.report.second.accepted target }
        ensures text { OnOk result (text.new.items ≡ text.old.items
            ++ object_block self.now.naming self.now.report place target
            (object_lines self.now.naming self.now.report place target)) }
        ensures told { IfOk result (λ told. told
            ≡ is_told_changed self.now.naming self.now.report place (Some target)) }
    {
        let lines = self.lines(alloc, place, target)?;
        if lines.len() == 0 {
            return Ok(false);
        }
        self.push_header(text, place, target)?;
        text.extend_from_slice(&lines)?;
        Ok(true)
    }

    /// Appends the names of an object and its lines in both files.
    fn push_header(&self, text: &mut Vec<u8>, place: u32, target: u32) -> Result<(), AllocError>
        requires place { IsPlace self.now.report.first.accepted place }
        requires target { IsPlace self.now.report.second.accepted target }
        ensures { OnOk result (text.new.items
            ≡ text.old.items ++ object_header self.now.naming self.now.report place target) }
    {
        text.extend_from_slice(b"~ ")?;
        self.first().push_name(text, place)?;
        push_both_lines(text, self.first().line(place), self.second().line(target))?;
        text.extend_from_slice(b"\n")
    }

    /// What differs of an object that is or became one of the second sheet.
    fn lines(&self, alloc: Global, place: u32, target: u32) -> Result<Vec<u8>, AllocError>
        requires place { IsPlace self.now.report.first.accepted place }
        requires target { IsPlace self.now.report.second.accepted target }
        ensures { IfOk result (λ lines. lines.items ≡ object_lines self.now.naming self.now.report place target) }
    {
        let mut lines = Vec::new(alloc);
        self.push_own(alloc, &mut lines, place, target)?;
        self.push_first_links(&mut lines, place)?;
        self.push_second_links(&mut lines, target)?;
        Ok(lines)
    }

    /// Appends what differs of the object itself.
    fn push_own(
        &self,
        alloc: Global,
        lines: &mut Vec<u8>,
        place: u32,
        target: u32,
    ) -> Result<(), AllocError>
        requires place { IsPlace self.now.report.first.accepted place }
        requires target { IsPlace self.now.report.second.accepted target }
        ensures { OnOk result (lines.new.items ≡ lines.old.items
            ++ own_lines self.now.naming self.now.report place target (same_of self.now.report place)) }
    {
        match self.same_of(place) {
            Some(_) => Ok(()),
            None => self.push_own_changes(alloc, lines, place, target),
        }
    }

    /// Appends how an object became another one.
    fn push_own_changes(
        &self,
        alloc: Global,
        lines: &mut Vec<u8>,
        place: u32,
        target: u32,
    ) -> Result<(), AllocError>
        requires place { IsPlace self.now.report.first.accepted place }
        requires target { IsPlace self.now.report.second.accepted target }
        ensures { OnOk result (lines.new.items
            ≡ lines.old.items ++ own_lines self.now.naming self.now.report place target None) }
    {
        let parts = self.parts_at(place);
        self.push_class_change(lines, parts.class, place, target)?;
        self.push_attributes_change(alloc, lines, parts.attributes, place, target)?;
        push_extras_change(lines, parts.extras)
    }

    /// Appends the class that an object had, and the one that it has, if they differ.
    #[tactic(auto, unfolding(crate::specs::Objects::class_change))]
    fn push_class_change(
        &self,
        lines: &mut Vec<u8>,
        differ: bool,
        place: u32,
        target: u32,
    ) -> Result<(), AllocError>
        requires place { IsPlace self.now.report.first.accepted place }
        requires target { IsPlace self.now.report.second.accepted target }
        ensures { OnOk result (lines.new.items ≡ lines.old.items
            ++ class_change self.now.naming differ (record_at self.now.report.first.accepted place)
            (record_at self.now.report.second.accepted target)) }
    {
        if !differ {
            return Ok(());
        }
        let here = self.first().plan().scp(place);
        let there = self.second().plan().scp(target);
        lines.extend_from_slice(b"    class: ")?;
        self.namer.push_class(lines, here)?;
        lines.extend_from_slice(b" -> ")?;
        self.namer.push_class(lines, there)?;
        lines.extend_from_slice(b"\n")
    }

    /// Appends a line for each class of which the attributes of an object differ, if they do.
    #[tactic(auto, unfolding(crate::specs::Objects::attributes_change))]
    fn push_attributes_change(
        &self,
        alloc: Global,
        lines: &mut Vec<u8>,
        differ: bool,
        place: u32,
        target: u32,
    ) -> Result<(), AllocError>
        requires place { IsPlace self.now.report.first.accepted place }
        requires target { IsPlace self.now.report.second.accepted target }
        ensures { OnOk result (lines.new.items ≡ lines.old.items
            ++ attributes_change self.now.naming differ (record_at self.now.report.first.accepted place)
            (record_at self.now.report.second.accepted target)) }
    {
        if !differ {
            return Ok(());
        }
        let here = self.first().plan().attributes(place);
        let there = self.second().plan().attributes(target);
        push_attribute_lines(alloc, lines, self.namer, here, there)
    }

    /// Appends the lines of the links of the first sheet that name an object.
    fn push_first_links(&self, lines: &mut Vec<u8>, place: u32) -> Result<(), AllocError>
        ensures { OnOk result (lines.new.items ≡ lines.old.items ++ first_links self.now.naming self.now.report place) }
    {
        for (_, link) in entries_of(&self.here.index, place) {
            self.push_first_link(lines, place, *link)?;
        }
        Ok(())
    }

    /// Appends the lines of the new links of the second sheet that name an object.
    fn push_second_links(&self, lines: &mut Vec<u8>, place: u32) -> Result<(), AllocError>
        ensures { OnOk result (lines.new.items
            ≡ lines.old.items ++ second_links self.now.naming self.now.report place) }
    {
        for (_, link) in entries_of(&self.there.index, place) {
            self.push_second_link(lines, place, *link)?;
        }
        Ok(())
    }

    /// Appends the lines of a link of the first sheet that names an object: its own if it differs, else those of what
    /// it names.
    fn push_first_link(&self, lines: &mut Vec<u8>, place: u32, link: u32) -> Result<(), AllocError>
        requires { IsPlace self.now.report.first.accepted link }
        ensures { OnOk result (lines.new.items
            ≡ lines.old.items ++ first_link self.now.naming self.now.report place link) }
    {
        if self.is_differing(link) {
            return self.push_differing_link(lines, place, link);
        }
        self.push_outlines(lines, link)
    }

    /// Appends the line of a link of the first sheet that differs.
    fn push_differing_link(
        &self,
        lines: &mut Vec<u8>,
        place: u32,
        link: u32,
    ) -> Result<(), AllocError>
        requires { IsPlace self.now.report.first.accepted link }
        ensures { OnOk result (lines.new.items ≡ lines.old.items
            ++ differing_link self.now.naming self.now.report place link (became_of self.now.report link)
            (parts_at self.now.report.parts link)) }
    {
        let parts = self.parts_at(link);
        if self.became_of(link).is_none() || parts.ends {
            self.push_link(lines, b"    - ", place, link)?;
            return lines.extend_from_slice(b"\n");
        }
        self.push_link(lines, b"    ~ ", place, link)?;
        lines.push(b':')?;
        push_words(lines, &parts)?;
        lines.extend_from_slice(b"\n")
    }

    /// Appends a sign, the class of a link of the first sheet, and what it names beside an object.
    fn push_link(
        &self,
        lines: &mut Vec<u8>,
        sign: &[u8],
        place: u32,
        link: u32,
    ) -> Result<(), AllocError>
        requires { IsPlace self.now.report.first.accepted link }
        ensures { OnOk result (lines.new.items
            ≡ lines.old.items ++ link_text sign.now self.now.naming self.now.report place link) }
    {
        lines.extend_from_slice(sign)?;
        self.namer.push_class(lines, self.first().plan().scp(link))?;
        lines.push(b':')?;
        self.first().push_others(lines, Some(place), link)
    }

    /// Appends the lines of what a link of the first sheet names, where outlines differ.
    fn push_outlines(&self, lines: &mut Vec<u8>, link: u32) -> Result<(), AllocError>
        requires { IsPlace self.now.report.first.accepted link }
        ensures { OnOk result (lines.new.items
            ≡ lines.old.items ++ outline_lines self.now.naming self.now.report link) }
    {
        self.push_few_outlines(lines, link)?;
        self.push_further(lines, link)
    }

    /// Appends that the outline differs of one more of the records that a link names, if it does.
    fn push_further(&self, lines: &mut Vec<u8>, link: u32) -> Result<(), AllocError>
        requires { IsPlace self.now.report.first.accepted link }
        ensures { OnOk result (lines.new.items ≡ lines.old.items ++ further_line self.now.report link) }
    {
        if self.has_further_outline(link) {
            lines.extend_from_slice(b"    outline of others\n")
        } else {
            Ok(())
        }
    }

    /// Appends the lines of the first few nodes, arcs and faces that a link of the first sheet names and whose outlines
    /// differ.
    fn push_few_outlines(&self, lines: &mut Vec<u8>, link: u32) -> Result<(), AllocError>
        requires { IsPlace self.now.report.first.accepted link }
        ensures { OnOk result (lines.new.items ≡ lines.old.items
            ++ flat_map (outline_line self.now.naming self.now.report)
            (take 4 (targets (record_at self.now.report.first.accepted link)))) }
    {
        let plan = self.first().plan();
        plan.keeps();
        let ends = plan.ends(link);
        for end in first_few(ends, MOST_NAMED) {
            self.push_outline(lines, end.target)?;
        }
        Ok(())
    }

    /// Appends the line of a node, an arc or a face whose outline differs.
    fn push_outline(&self, lines: &mut Vec<u8>, place: u32) -> Result<(), AllocError>
        requires { IsPlace self.now.report.first.accepted place }
        ensures { OnOk result (lines.new.items
            ≡ lines.old.items ++ outline_line self.now.naming self.now.report place) }
    {
        if self.has_other_outline(place) {
            self.push_outline_text(lines, place)
        } else {
            Ok(())
        }
    }

    /// Appends that the outline of a record differs, and how many arcs of a face, or nodes of an arc, are gone, new and
    /// changed.
    fn push_outline_text(&self, lines: &mut Vec<u8>, place: u32) -> Result<(), AllocError>
        requires { IsPlace self.now.report.first.accepted place }
        ensures { OnOk result (lines.new.items
            ≡ lines.old.items ++ outline_text self.now.naming self.now.report place) }
    {
        self.push_outline_name(lines, place)?;
        self.push_outline_counts(lines, place)?;
        lines.extend_from_slice(b"\n")
    }

    /// Appends that the outline of a record differs.
    #[tactic(auto, unfolding(crate::specs::Objects::outline_name))]
    fn push_outline_name(&self, lines: &mut Vec<u8>, place: u32) -> Result<(), AllocError>
        requires { IsPlace self.now.report.first.accepted place }
        ensures { OnOk result (lines.new.items
            ≡ lines.old.items ++ outline_name self.now.naming self.now.report place) }
    {
        self.first().push_signed(lines, b"    outline of ", place)
    }

    /// Appends how many arcs of a face, or nodes of an arc, are gone, new and changed.
    #[tactic(auto, unfolding(crate::specs::Bounds::outline_counts))]
    fn push_outline_counts(&self, lines: &mut Vec<u8>, place: u32) -> Result<(), AllocError>
        requires { IsPlace self.now.report.first.accepted place }
        ensures { OnOk result (lines.new.items ≡ lines.old.items ++ outline_counts self.now.report place) }
    {
        let kind = self.first().plan().kind(place);
        let gone = self.gone_bounds(place);
        let new = self.new_bounds(self.became_of(place));
        let changed = self.changed_bounds(place);
        push_outline_counts(lines, kind, gone, new, changed)
    }

    /// Whether this is a node, an arc or a face whose outline differs in either sheet.
    fn has_other_outline(&self, place: u32) -> bool
        requires { IsPlace self.now.report.first.accepted place }
        ensures { result ≡ has_other_outline self.now.report place }
    {
        has_other_outline(
            self.report,
            &self.here.outlines,
            &self.there.outlines,
            place,
        )
    }

    /// Appends the line of a link of the second sheet that names an object, if it is new.
    fn push_second_link(&self, lines: &mut Vec<u8>, place: u32, link: u32) -> Result<(), AllocError>
        requires { IsPlace self.now.report.second.accepted link }
        ensures { OnOk result (lines.new.items
            ≡ lines.old.items ++ second_link self.now.naming self.now.report place link) }
    {
        if !self.arrives(link) {
            return Ok(());
        }
        lines.extend_from_slice(b"    + ")?;
        self.namer
            .push_class(lines, self.second().plan().scp(link))?;
        lines.push(b':')?;
        self.second().push_others(lines, Some(place), link)?;
        lines.extend_from_slice(b"\n")
    }
}
