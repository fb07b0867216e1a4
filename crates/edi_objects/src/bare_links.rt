//! Links that are told nowhere else.

ghost use Rattle.std.specs.Prelude.{◌≡◌, ◌++◌, OnOk};
ghost use Rattle.edi_plan.specs.Agreeing.{Agrees};
ghost use Rattle.edi_report.specs.Reports.{HasSites};
ghost use Rattle.edi_plan.specs.Plans.{IsPlace};
ghost use Rattle.edi_objects.specs.Accounts.{record_line_text, bare_link, bare_links, changed_link, changed_parts, first_bare_link, first_bare_links, is_told_beside, second_bare_link, second_bare_links};
ghost use Rattle.edi_objects.specs.Differing.{arrives, is_differing};
ghost use Rattle.edi_objects.specs.inner.Sheets.{is_marked_place};

use crate::account::ObjectReporter;
use crate::elements::SheetNamer;
use crate::objects::is_object;
use crate::outlines::is_marked;
use edi_line::push_number;
use edi_plan::Plan;
use edi_record::Kind;
use edi_report::lines::{push_both_lines, push_words};
use std::alloc::AllocError;

/// Whether a link names an object, or a record that is marked.
fn is_told_beside(plan: &Plan, marks: &[bool], link: u32) -> bool
    requires { IsPlace plan.now link }
    ensures { result ≡ is_told_beside (is_marked_place marks.now) plan.now link }
{
    for end in plan.ends(link) {
        if end.target < plan.len() && is_object(plan.kind(end.target))
            || is_marked(marks, end.target)
        {
            return true;
        }
    }
    false
}

impl<'a> SheetNamer<'a> {
    /// Appends what the text calls a link, and what it names.
    fn push_bare_link(&self, text: &mut Vec<u8>, link: u32) -> Result<(), AllocError>
        requires agrees { Agrees self.now.namer.now.classes self.now.sheet.now.accepted }
        requires sites { HasSites self.now.sheet.now }
        requires link { IsPlace self.now.sheet.now.accepted link }
        ensures { OnOk result (text.new.items
            ≡ text.old.items ++ bare_link self.now.namer.now self.now.sheet.now link) }
    {
        self.push_name(text, link)?;
        text.push(b':')?;
        self.push_others(text, None, link)
    }

    /// Appends the line in which a record begins, and ends the line of the text.
    fn push_at_line(&self, text: &mut Vec<u8>, place: u32) -> Result<(), AllocError>
        requires sites { HasSites self.now.sheet.now }
        requires place { IsPlace self.now.sheet.now.accepted place }
        ensures { OnOk result (text.new.items ≡ text.old.items ++ record_line_text self.now.sheet.now place) }
    {
        text.extend_from_slice(b" (line ")?;
        push_number(text, self.line(place))?;
        text.extend_from_slice(b")\n")
    }

    /// Appends the line of a link that stands in this sheet alone.
    fn push_lone_link(&self, text: &mut Vec<u8>, sign: &[u8], link: u32) -> Result<(), AllocError>
        requires agrees { Agrees self.now.namer.now.classes self.now.sheet.now.accepted }
        requires sites { HasSites self.now.sheet.now }
        requires link { IsPlace self.now.sheet.now.accepted link }
        ensures { OnOk result (text.new.items ≡ text.old.items ++ (sign.now
            ++ bare_link self.now.namer.now self.now.sheet.now link ++ record_line_text self.now.sheet.now link)) }
    {
        text.extend_from_slice(sign)?;
        self.push_bare_link(text, link)?;
        self.push_at_line(text, link)
    }
}

impl<'a> ObjectReporter<'a> {
    /// Appends the links that differ and are told nowhere else.
    pub(crate) fn push_bare_links(&self, text: &mut Vec<u8>) -> Result<(), AllocError>
        ensures { OnOk result (text.new.items ≡ text.old.items ++ bare_links self.now.naming self.now.report) }
    {
        self.push_first_bare_links(text)?;
        self.push_second_bare_links(text)
    }

    /// Appends those of the first sheet.
    fn push_first_bare_links(&self, text: &mut Vec<u8>) -> Result<(), AllocError>
        ensures { OnOk result (text.new.items ≡ text.old.items ++ first_bare_links self.now.naming self.now.report) }
    {
        for place in self.first().plan().places(Kind::Lnk) {
            self.push_first_bare_link(text, *place)?;
        }
        Ok(())
    }

    /// Appends those of the second sheet.
    fn push_second_bare_links(&self, text: &mut Vec<u8>) -> Result<(), AllocError>
        ensures { OnOk result (text.new.items ≡ text.old.items ++ second_bare_links self.now.naming self.now.report) }
    {
        for place in self.second().plan().places(Kind::Lnk) {
            self.push_second_bare_link(text, *place)?;
        }
        Ok(())
    }

    /// Appends the line of a link of the first sheet, if it differs and is told nowhere else.
    fn push_first_bare_link(&self, text: &mut Vec<u8>, link: u32) -> Result<(), AllocError>
        requires { IsPlace self.now.report.first.accepted link }
        ensures { OnOk result (text.new.items
            ≡ text.old.items ++ first_bare_link self.now.naming self.now.report link) }
    {
        if !self.is_differing(link) || self.is_first_told(link) {
            return Ok(());
        }
        match self.became_of(link) {
            Some(target) => self.push_changed_link(text, link, target),
            None => self.first().push_lone_link(text, b"- ", link),
        }
    }

    /// Appends the line of a link that changed.
    fn push_changed_link(
        &self,
        text: &mut Vec<u8>,
        link: u32,
        target: u32,
    ) -> Result<(), AllocError>
        requires link { IsPlace self.now.report.first.accepted link }
        requires target { IsPlace self.now.report.second.accepted target }
        ensures { OnOk result (text.new.items
            ≡ text.old.items ++ changed_link self.now.naming self.now.report link target) }
    {
        text.extend_from_slice(b"~ ")?;
        self.first().push_bare_link(text, link)?;
        self.push_changed_parts(text, link, target)
    }

    /// Appends the lines of a link that changed in both files, and the parts in which it differs.
    fn push_changed_parts(
        &self,
        text: &mut Vec<u8>,
        link: u32,
        target: u32,
    ) -> Result<(), AllocError>
        requires link { IsPlace self.now.report.first.accepted link }
        requires target { IsPlace self.now.report.second.accepted target }
        ensures { OnOk result (text.new.items ≡ text.old.items ++ changed_parts self.now.report link target) }
    {
        push_both_lines(text, self.first().line(link), self.second().line(target))?;
        push_words(text, &self.parts_at(link))?;
        text.extend_from_slice(b"\n")
    }

    /// Whether a link of the first sheet is told where a record stands that it names.
    fn is_first_told(&self, link: u32) -> bool
        requires { IsPlace self.now.report.first.accepted link }
        ensures { result ≡ is_told_beside (is_differing self.now.report) self.now.report.first.accepted link }
    {
        is_told_beside(self.first().plan(), &self.here.marks, link)
    }

    /// Whether one of the second is.
    fn is_second_told(&self, link: u32) -> bool
        requires { IsPlace self.now.report.second.accepted link }
        ensures { result ≡ is_told_beside (arrives self.now.report) self.now.report.second.accepted link }
    {
        is_told_beside(self.second().plan(), &self.there.marks, link)
    }

    /// Appends the line of a link of the second sheet, if it is new and told nowhere else.
    fn push_second_bare_link(&self, text: &mut Vec<u8>, link: u32) -> Result<(), AllocError>
        requires { IsPlace self.now.report.second.accepted link }
        ensures { OnOk result (text.new.items
            ≡ text.old.items ++ second_bare_link self.now.naming self.now.report link) }
    {
        if self.is_reached(link) || self.is_second_told(link) {
            return Ok(());
        }
        self.second().push_lone_link(text, b"+ ", link)
    }
}
