//! Texts of differences.

ghost use Rattle.std.specs.Prelude.{◌≡◌, ◌++◌, ◌<◌, IfOk, OnOk, count_by, length, not};
ghost use Rattle.edi_plan.specs.Plans.{IsPlace};
ghost use Rattle.edi_report.specs.Lines.{added_count, brief_text, changed_count, changed_line, changed_names, charsets_line, first_line, gone_count, lines_of, lines_of_first, lines_of_second, report_text, second_line, text_of_report, totals_line};

use crate::lines::{
    push_both_lines, push_charset, push_counted, push_lone, push_name, push_other, push_parts,
};
use crate::parts::{DifferingParts, parts_at};
use crate::sheet::LocatedSheet;
use edi_record::Kind;
use std::alloc::{AllocError, Global};
use std::marker::Model;

/// Two sheets, and what became of the records of the first in the second.
#[derive(Drop)]
pub struct Reporter<'a> {
    pub first: &'a LocatedSheet,
    pub second: &'a LocatedSheet,
    /// For each record of the first sheet the one of the second that it is.
    pub unchanged: &'a [Option<u32>],
    /// For each record of the first sheet the one of the second that it is or became.
    pub became: &'a [Option<u32>],
    /// The parts in which those that changed differ.
    pub parts: &'a [DifferingParts],
    /// Of each record of the second sheet, whether it is one of the first, or one of these became it.
    pub reached: &'a [bool],
}

impl<'a> Model for Reporter<'a> {
    ghost use Rattle.std.specs.Prelude.{length};
    ghost use Rattle.edi_report.specs.Reports.{Report};
    ghost use Rattle.edi_report.specs.Tables.{AreMarks, IsFitting};

    ghost Value = { Report };

    ghost view = { λ t. record {
      first = t.first.now;
      second = t.second.now;
      unchanged = t.unchanged.now;
      became = t.became.now;
      parts = t.parts.now;
    } };

    ghost invariant = { λ t. IsFitting (record {
      first = t.first.now;
      second = t.second.now;
      unchanged = t.unchanged.now;
      became = t.became.now;
      parts = t.parts.now;
    })
        × AreMarks t.became.now (length t.second.now.accepted.list) t.reached.now };
}

impl<'a> Reporter<'a> {
    /// The text: all lines, or without those of records.
    pub fn text(&self, alloc: Global, brief: bool) -> Result<Vec<u8>, AllocError>
        ensures { IfOk result (λ text. text.items ≡ text_of_report brief self.now) }
    {
        if brief {
            self.brief_text(alloc)
        } else {
            self.whole_text(alloc)
        }
    }

    /// The line of the character sets, where they differ, and that of the counts.
    fn brief_text(&self, alloc: Global) -> Result<Vec<u8>, AllocError>
        ensures { IfOk result (λ text. text.items ≡ brief_text self.now) }
    {
        let mut text = Vec::new(alloc);
        self.push_charsets(&mut text)?;
        self.push_counts(&mut text)?;
        Ok(text)
    }

    /// The whole text.
    fn whole_text(&self, alloc: Global) -> Result<Vec<u8>, AllocError>
        ensures { IfOk result (λ text. text.items ≡ report_text self.now) }
    {
        let mut text = Vec::new(alloc);
        self.push_charsets(&mut text)?;
        self.push_type(&mut text, Kind::Fea)?;
        self.push_type(&mut text, Kind::Pfe)?;
        self.push_type(&mut text, Kind::Par)?;
        self.push_type(&mut text, Kind::Pno)?;
        self.push_type(&mut text, Kind::Lnk)?;
        self.push_counts(&mut text)?;
        Ok(text)
    }

    /// Appends the line of the character sets, where they differ.
    pub fn push_charsets(&self, text: &mut Vec<u8>) -> Result<(), AllocError>
        ensures { OnOk result (text.new.items ≡ text.old.items ++ charsets_line self.now) }
    {
        push_charset(text, self.first.plan().cse(), self.second.plan().cse())
    }

    /// Appends the lines of the records of a type.
    fn push_type(&self, text: &mut Vec<u8>, kind: Kind) -> Result<(), AllocError>
        ensures { OnOk result (text.new.items ≡ text.old.items ++ lines_of self.now kind) }
    {
        self.push_firsts(text, kind)?;
        self.push_seconds(text, kind)
    }

    /// Appends the lines of the records of a type of the first sheet.
    fn push_firsts(&self, text: &mut Vec<u8>, kind: Kind) -> Result<(), AllocError>
        ensures { OnOk result (text.new.items ≡ text.old.items ++ lines_of_first self.now kind) }
    {
        for place in self.first.places(kind) {
            self.push_first(text, *place)?;
        }
        Ok(())
    }

    /// Appends the lines of the records of a type of the second sheet.
    fn push_seconds(&self, text: &mut Vec<u8>, kind: Kind) -> Result<(), AllocError>
        ensures { OnOk result (text.new.items ≡ text.old.items ++ lines_of_second self.now kind) }
    {
        for place in self.second.places(kind) {
            self.push_second(text, *place)?;
        }
        Ok(())
    }

    /// Appends the line of a record of the first sheet.
    fn push_first(&self, text: &mut Vec<u8>, place: u32) -> Result<(), AllocError>
        requires { IsPlace self.now.first.accepted place }
        ensures { OnOk result (text.new.items ≡ text.old.items ++ first_line self.now place) }
    {
        if self.unchanged[place as usize].is_some() {
            return Ok(());
        }
        match self.became[place as usize] {
            Some(target) => self.push_changed(text, place, target),
            None => push_lone(text, b"- ", self.first, place),
        }
    }

    /// Appends the line of a record that changed.
    fn push_changed(&self, text: &mut Vec<u8>, place: u32, target: u32) -> Result<(), AllocError>
        requires place { IsPlace self.now.first.accepted place }
        requires target { IsPlace self.now.second.accepted target }
        ensures { OnOk result (text.new.items ≡ text.old.items ++ changed_line self.now place target) }
    {
        let here = self.first.site(place);
        let there = self.second.site(target);
        self.push_names(text, place, there.rid.as_slice())?;
        push_both_lines(text, here.line, there.line)?;
        push_parts(text, &parts_at(self.parts, place as usize))?;
        text.extend_from_slice(b"\n")
    }

    /// Appends the mark of a change, the record of the first sheet, and the identifier of what it became.
    fn push_names(&self, text: &mut Vec<u8>, place: u32, other: &[u8]) -> Result<(), AllocError>
        requires { IsPlace self.now.first.accepted place }
        ensures { OnOk result (text.new.items ≡ text.old.items ++ changed_names self.now place other.now) }
    {
        text.extend_from_slice(b"~ ")?;
        push_name(text, self.first, place)?;
        push_other(text, other)
    }

    /// Appends the line of a record of the second sheet.
    fn push_second(&self, text: &mut Vec<u8>, place: u32) -> Result<(), AllocError>
        requires { IsPlace self.now.second.accepted place }
        ensures { OnOk result (text.new.items ≡ text.old.items ++ second_line self.now place) }
    {
        if self.reached[place as usize] {
            Ok(())
        } else {
            push_lone(text, b"+ ", self.second, place)
        }
    }

    /// Appends the line of the counts.
    pub fn push_counts(&self, text: &mut Vec<u8>) -> Result<(), AllocError>
        ensures { OnOk result (text.new.items ≡ text.old.items ++ totals_line self.now) }
    {
        push_counted(text, self.gone_count(), b" only in A, ")?;
        push_counted(text, self.added_count(), b" only in B, ")?;
        push_counted(text, self.changed_count(), b" changed\n")?;
        Ok(())
    }

    /// How many records of the first sheet are and became none of the second.
    pub fn gone_count(&self) -> usize
        ensures { result ≡ gone_count self.now }
    {
        self.became.iter().filter(|went| went.is_none()).count()
    }

    /// How many records of the second sheet are and were none of the first.
    pub fn added_count(&self) -> usize
        ensures { result ≡ added_count self.now }
    {
        unmarked_count(self.reached)
    }

    /// How many records of the first sheet became others of the second.
    pub fn changed_count(&self) -> usize
        ensures { result ≡ changed_count self.now }
    {
        self.unchanged
            .iter()
            .zip(self.became)
            .filter(|(unchanged, became)| unchanged.is_none() && became.is_some())
            .count()
    }
}

/// How many places are not marked.
fn unmarked_count(marks: &[bool]) -> usize
    ensures { result ≡ count_by not marks.now }
{
    marks.iter().filter(|mark| !**mark).count()
}
