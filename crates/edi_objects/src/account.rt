//! The text of what differs between two sheets, object by object.

ghost use Rattle.std.specs.Prelude.{◌≡◌, ◌++◌, ◌<◌, IfOk, IfSome, OnOk, length, map};
ghost use Rattle.std.specs.List.{range_with_len};
ghost use Rattle.edi_plan.specs.Agreeing.{Agrees};
ghost use Rattle.edi_objects.specs.LinksOf.{index_of};
ghost use Rattle.edi_plan.specs.Plans.{IsPlace, record_at};
ghost use Rattle.edi_objects.specs.Accounts.{account_text, objects_of, shapes_of};
ghost use Rattle.edi_objects.specs.Bounds.{bounds_count, is_bent, is_lost, new_bounds_count};
ghost use Rattle.edi_objects.specs.Counts.{changed_classes};
ghost use Rattle.edi_objects.specs.Differing.{arrives, became_of, is_differing, outline_differs, same_of};
ghost use Rattle.edi_objects.specs.Elements.{change_text, changed_element, elements_of, first_element, first_elements, second_element, second_elements};
ghost use Rattle.edi_objects.specs.Objects.{has_further_outline};
ghost use Rattle.edi_objects.specs.inner.Sheets.{is_marked_place};
ghost use Rattle.edi_report.specs.Lines.{is_reached};
ghost use Rattle.edi_report.specs.Reports.{HasSites, parts_at};

use crate::bounds::{BoundCounts, count_at};
use crate::elements::{SheetNamer, push_points_change};
use crate::further::further_outlines;
use crate::index::index_of;
use crate::marks::{arriving_marks, became_of, differing_marks, parts_at, same_of};
use crate::names::Namer;
use crate::outlines::{is_marked, outlines};
use edi_plan::Plan;
use edi_record::Kind;
use edi_report::lines::{push_both_lines, push_words};
use edi_report::{DifferingParts, Reporter};
use edi_schema::ClassRef;
use std::alloc::{AllocError, Global};
use std::marker::Model;

/// What is noted of the records of a sheet.
#[derive(Drop)]
pub(crate) struct Notes {
    /// What all links name, each with the link, in order.
    pub(crate) index: Vec<(u32, u32)>,
    /// Which records differ.
    pub(crate) marks: Vec<bool>,
    /// Whose outlines differ.
    pub(crate) outlines: Vec<bool>,
}

impl Notes {
    /// The notes on a plan, of whose records it is marked which differ.
    fn of(alloc: Global, plan: &Plan, marks: Vec<bool>) -> Result<Notes, AllocError>
        ensures index { IfOk result (λ notes. notes.index.items ≡ index_of plan.now) }
        ensures marks { IfOk result (λ notes. notes.marks.items ≡ marks.items) }
        ensures outlines { IfOk result (λ notes. notes.outlines.items
            ≡ map (outline_differs (is_marked_place marks.items) plan.now) (range_with_len 0 (length plan.now.list))) }
    {
        let index = index_of(alloc, plan)?;
        let outlines = outlines(alloc, plan, &index, &marks)?;
        Ok(Notes {
            index,
            marks,
            outlines,
        })
    }
}

/// Two sheets, what became of the records of the first in the second, and how objects are named.
#[derive(Drop)]
pub struct ObjectReporter<'a> {
    pub(crate) namer: &'a Namer<'a>,
    pub(crate) report: &'a Reporter<'a>,
    pub(crate) here: Notes,
    pub(crate) there: Notes,
    /// Which records of the first sheet name one behind the first few whose outline differs.
    pub(crate) further: Vec<bool>,
    /// How many links that bound the records are gone, new or changed.
    pub(crate) bounds: BoundCounts,
}

impl<'a> Model for ObjectReporter<'a> {
    ghost use Rattle.std.specs.Prelude.{length};
    ghost use Rattle.edi_plan.specs.Agreeing.{Agrees};
    ghost use Rattle.edi_objects.specs.Accounts.{NamedReport};
    ghost use Rattle.edi_objects.specs.Differing.{arrives, is_differing};
    ghost use Rattle.edi_objects.specs.inner.Sheets.{AreBoundCounts, AreFurther, AreNotes};

    ghost Value = { NamedReport };

    ghost view = { λ a. record { naming = a.namer.now; report = a.report.now } };

    ghost invariant = { λ a. AreNotes (is_differing a.report.now) a.report.now.first.accepted a.here
        × AreNotes (arrives a.report.now) a.report.now.second.accepted a.there
        × Agrees a.namer.now.classes a.report.now.first.accepted
        × Agrees a.namer.now.classes a.report.now.second.accepted
        × AreFurther a.report.now a.further.items
        × AreBoundCounts a.report.now a.bounds };
}

/// The text of what differs between two sheets, object by object (docs/FORMAT.md, "Differences by object"). The only
/// error is a lack of memory.
pub fn account_text(
    alloc: Global,
    namer: &Namer<'_>,
    report: &Reporter<'_>,
) -> Result<Vec<u8>, AllocError>
    requires first { Agrees namer.now.classes report.now.first.accepted }
    requires second { Agrees namer.now.classes report.now.second.accepted }
    ensures { IfOk result (λ text. text.items ≡ account_text namer.now report.now) }
{
    let account = ObjectReporter::new(alloc, namer, report)?;
    account.text(alloc)
}

impl<'a> ObjectReporter<'a> {
    /// What is noted of two sheets.
    fn new(
        alloc: Global,
        namer: &'a Namer<'a>,
        report: &'a Reporter<'a>,
    ) -> Result<ObjectReporter<'a>, AllocError>
        requires first { Agrees namer.now.classes report.now.first.accepted }
        requires second { Agrees namer.now.classes report.now.second.accepted }
        ensures { IfOk result (λ account. account ≡ record { naming = namer.now; report = report.now }) }
    {
        let differing = differing_marks(alloc, report)?;
        let arriving = arriving_marks(alloc, report)?;
        let here = Notes::of(alloc, report.first.accepted.sound().plan(), differing)?;
        let there = Notes::of(alloc, report.second.accepted.sound().plan(), arriving)?;
        let further = further_outlines(alloc, report, &here.outlines, &there.outlines)?;
        let bounds = BoundCounts::of(alloc, report, &here, &there)?;
        Ok(ObjectReporter {
            namer,
            report,
            here,
            there,
            further,
            bounds,
        })
    }

    /// The first sheet.
    pub(crate) fn first(&self) -> SheetNamer<'a>
        ensures namer { result.namer.now ≡ self.now.naming }
        ensures sheet { result.sheet.now ≡ self.now.report.first }
        ensures agrees { Agrees result.namer.now.classes result.sheet.now.accepted }
        ensures sites { HasSites result.sheet.now }
    {
        let report = self.report;
        SheetNamer {
            namer: self.namer,
            sheet: report.first,
        }
    }

    /// The second sheet.
    pub(crate) fn second(&self) -> SheetNamer<'a>
        ensures namer { result.namer.now ≡ self.now.naming }
        ensures sheet { result.sheet.now ≡ self.now.report.second }
        ensures agrees { Agrees result.namer.now.classes result.sheet.now.accepted }
        ensures sites { HasSites result.sheet.now }
    {
        let report = self.report;
        SheetNamer {
            namer: self.namer,
            sheet: report.second,
        }
    }

    /// Whether a record of the first sheet differs.
    pub(crate) fn is_differing(&self, place: u32) -> bool
        ensures { result ≡ is_differing self.now.report place }
    {
        is_marked(&self.here.marks, place)
    }

    /// Whether a record of the second sheet is new, or one became it that had other ends.
    pub(crate) fn arrives(&self, place: u32) -> bool
        ensures { result ≡ arrives self.now.report place }
    {
        is_marked(&self.there.marks, place)
    }

    /// Whether the outline differs of one of the records that a link of the first sheet names behind the first few.
    pub(crate) fn has_further_outline(&self, link: u32) -> bool
        requires { IsPlace self.now.report.first.accepted link }
        ensures { result ≡ has_further_outline self.now.report link }
    {
        is_marked(&self.further, link)
    }

    /// How many links that bound a record of the first sheet are gone or got other ends.
    pub(crate) fn gone_bounds(&self, place: u32) -> usize
        requires { IsPlace self.now.report.first.accepted place }
        ensures { result ≡ bounds_count (is_lost self.now.report) self.now.report.first.accepted place }
    {
        count_at(&self.bounds.gone, place)
    }

    /// How many that bound one of the second are new or got other ends.
    pub(crate) fn new_bounds(&self, target: Option<u32>) -> usize
        requires { IfSome target (IsPlace self.now.report.second.accepted) }
        ensures { result ≡ new_bounds_count self.now.report target }
    {
        match target {
            Some(target) => count_at(&self.bounds.new, target),
            None => 0,
        }
    }

    /// How many that bound one of the first changed, or what they bound it by.
    pub(crate) fn changed_bounds(&self, place: u32) -> usize
        requires { IsPlace self.now.report.first.accepted place }
        ensures { result ≡ bounds_count (is_bent self.now.report) self.now.report.first.accepted place }
    {
        count_at(&self.bounds.changed, place)
    }

    /// Which record of the second sheet one of the first is, if any.
    pub(crate) fn same_of(&self, place: u32) -> Option<u32>
        ensures { result ≡ same_of self.now.report place }
    {
        same_of(self.report, place)
    }

    /// Which one it is or became.
    pub(crate) fn became_of(&self, place: u32) -> Option<u32>
        ensures became { result ≡ became_of self.now.report place }
        ensures within { IfSome result (IsPlace self.now.report.second.accepted) }
    {
        became_of(self.report, place)
    }

    /// The parts in which a record that changed differs.
    pub(crate) fn parts_at(&self, place: u32) -> DifferingParts
        ensures { result ≡ parts_at self.now.report.parts place }
    {
        parts_at(self.report, place)
    }

    /// Whether a record of the second sheet is one of the first, or one became it.
    pub(crate) fn is_reached(&self, place: u32) -> bool
        requires { IsPlace self.now.report.second.accepted place }
        ensures { result ≡ is_reached self.now.report.became place }
    {
        let report = self.report;
        report.reached[place as usize]
    }

    /// The text.
    fn text(&self, alloc: Global) -> Result<Vec<u8>, AllocError>
        ensures { IfOk result (λ text. text.items ≡ account_text self.now.naming self.now.report) }
    {
        let mut text = Vec::new(alloc);
        let mut changed = Vec::new(alloc);
        self.report.push_charsets(&mut text)?;
        self.push_objects(alloc, &mut text, &mut changed)?;
        self.push_shapes(&mut text)?;
        self.push_bare_links(&mut text)?;
        self.push_class_totals(alloc, &mut text, changed)?;
        text.extend_from_slice(b"records: ")?;
        self.report.push_counts(&mut text)?;
        Ok(text)
    }

    /// Appends the objects that differ, and the classes of those that changed.
    fn push_objects(
        &self,
        alloc: Global,
        text: &mut Vec<u8>,
        changed: &mut Vec<ClassRef>,
    ) -> Result<(), AllocError>
        ensures text { OnOk result (text.new.items ≡ text.old.items ++ objects_of self.now.naming self.now.report) }
        ensures classes { OnOk result (changed.new.items
            ≡ changed.old.items ++ changed_classes self.now.naming self.now.report) }
    {
        self.push_first_objects(alloc, text, changed)?;
        self.push_second_objects(text)
    }

    /// Appends the faces, the arcs and the nodes that differ.
    fn push_shapes(&self, text: &mut Vec<u8>) -> Result<(), AllocError>
        ensures { OnOk result (text.new.items ≡ text.old.items ++ shapes_of self.now.naming self.now.report) }
    {
        self.push_elements(text, Kind::Pfe)?;
        self.push_elements(text, Kind::Par)?;
        self.push_elements(text, Kind::Pno)
    }

    /// Appends the lines of the records of a type: those of the first sheet, and those of the second.
    fn push_elements(&self, text: &mut Vec<u8>, kind: Kind) -> Result<(), AllocError>
        ensures { OnOk result (text.new.items ≡ text.old.items ++ elements_of self.now.naming self.now.report kind) }
    {
        self.push_first_elements(text, kind)?;
        self.push_second_elements(text, kind)
    }

    /// Appends the lines of the records of a type of the first sheet.
    fn push_first_elements(&self, text: &mut Vec<u8>, kind: Kind) -> Result<(), AllocError>
        ensures { OnOk result (text.new.items ≡ text.old.items ++ first_elements self.now.naming self.now.report kind) }
    {
        for place in self.first().plan().places(kind) {
            self.push_first_element(text, *place)?;
        }
        Ok(())
    }

    /// Appends the lines of the records of a type of the second sheet.
    fn push_second_elements(&self, text: &mut Vec<u8>, kind: Kind) -> Result<(), AllocError>
        ensures { OnOk result (text.new.items
            ≡ text.old.items ++ second_elements self.now.naming self.now.report kind) }
    {
        for place in self.second().plan().places(kind) {
            self.push_second_element(text, *place)?;
        }
        Ok(())
    }

    /// Appends the line of a record of the first sheet, if it differs.
    fn push_first_element(&self, text: &mut Vec<u8>, place: u32) -> Result<(), AllocError>
        requires { IsPlace self.now.report.first.accepted place }
        ensures { OnOk result (text.new.items ≡ text.old.items ++ first_element self.now.naming self.now.report place) }
    {
        if !self.is_differing(place) {
            return Ok(());
        }
        match self.became_of(place) {
            Some(target) => self.push_changed_element(text, place, target),
            None => self.first().push_lone(text, b"- ", place),
        }
    }

    /// Appends the line of a record of the second sheet, if it is new.
    fn push_second_element(&self, text: &mut Vec<u8>, place: u32) -> Result<(), AllocError>
        requires { IsPlace self.now.report.second.accepted place }
        ensures { OnOk result (text.new.items
            ≡ text.old.items ++ second_element self.now.naming self.now.report place) }
    {
        if self.is_reached(place) {
            return Ok(());
        }
        self.second().push_lone(text, b"+ ", place)
    }

    /// Appends the line of a record that changed.
    fn push_changed_element(
        &self,
        text: &mut Vec<u8>,
        place: u32,
        target: u32,
    ) -> Result<(), AllocError>
        requires place { IsPlace self.now.report.first.accepted place }
        requires target { IsPlace self.now.report.second.accepted target }
        ensures { OnOk result (text.new.items
            ≡ text.old.items ++ changed_element self.now.naming self.now.report place target) }
    {
        text.extend_from_slice(b"~ ")?;
        self.first().push_name(text, place)?;
        push_both_lines(text, self.first().line(place), self.second().line(target))?;
        self.push_change(text, place, target)?;
        text.extend_from_slice(b"\n")
    }

    /// Appends the words for the parts in which a record that changed differs, and how its points do.
    fn push_change(&self, text: &mut Vec<u8>, place: u32, target: u32) -> Result<(), AllocError>
        requires place { IsPlace self.now.report.first.accepted place }
        requires target { IsPlace self.now.report.second.accepted target }
        ensures { OnOk result (text.new.items ≡ text.old.items
            ++ change_text (parts_at self.now.report.parts place) (record_at self.now.report.first.accepted place)
            (record_at self.now.report.second.accepted target)) }
    {
        let parts = self.parts_at(place);
        let plan = self.first().plan();
        push_words(
            text,
            &DifferingParts {
                points: false,
                ..parts
            },
        )?;
        if !parts.points {
            return Ok(());
        }
        push_points_change(
            text,
            plan.kind(place),
            plan.points(place),
            self.second().plan().points(target),
        )
    }
}
