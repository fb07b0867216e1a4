//! The zones of a file.

ghost use Rattle.std.specs.Prelude.{Option, Some, None, true, false, ◌≡◌, ℕ, List, ◌+◌, ◌^◌, ◌<◌, ◌≤◌, [], ◌∷◌, ◌++◌, length, map, OnOk, IfOk, IfErr, IfSome, option_map, option_to_list};
ghost use Rattle.edi_line.specs.Bytes.{most_records};
ghost use Rattle.edi_line.specs.ZoneData.{ZoneData, entry, entries};
ghost use Rattle.edi_line.specs.Zones.{HasShape, IsFileOf, IsBorrowedUnlessContinued, IsZonesIn, groups_of, charset_of};
ghost use Rattle.edi_line.specs.inner.Zones.{part_by};
ghost use Rattle.edi_line.specs.inner.Kinds.{kind_of as kind_in};
ghost use Rattle.edi_line.specs.LineRules.{BreaksLineRule, IsZonesOf};
ghost use Rattle.edi_line.specs.Refusal.{IsUnbroken, IsLineRefusal, IfBroken};
ghost use Rattle.std.specs.List.{AllByRecursion};
ghost use Rattle.std.specs.Cow.{cow_slice_items};
ghost use Rattle.edi_line.specs.Printing.{IsPrintable, printed, line_numbered};
ghost use Rattle.edi_line.specs.inner.Borrowed.{BorrowsLines, Leaves, LeavesAfter};
ghost use Rattle.edi_line.specs.inner.ZoneLists.{done_in, open_in};
ghost use Rattle.edi_line.specs.inner.Held.{rule_of_kind, noted_kind, opened, Steps, TakesNextLine, BreaksAtNext, Stands, zoned, zoned_step, closed};
ghost use Rattle.edi_line.specs.Spelling.{Reading, AreReadings};
ghost use Rattle.edi_line.specs.inner.Spelling.{reading_of, spelling_shown};

use crate::fault::LineFault;
use crate::lines;
use crate::order::{Order, ZoneKind, kind_of};
use crate::spelling::{Spelled, read_content};
use crate::zone::Zone;
use crate::zone_list::ZoneList;
use std::alloc::{AllocError, Global};
use std::borrow::CowSlice;

/// What is stored of the lines that have come.
#[derive(Drop)]
pub(crate) struct Reader<'a> {
    line: u64,
    order: Order,
    zones: ZoneList<'a>,
}

impl<'a> Reader<'a> {
    pub(crate) fn new(alloc: Global) -> Reader<'a>
        ensures { Stands [] result }
    {
        Reader {
            line: 0,
            order: Order::new(),
            zones: ZoneList::new(alloc),
        }
    }

    /// Takes the content of the next line, whose value a zone that begins there borrows. It is inlined where lines are
    /// gone through, with all that a line mostly needs: then no registers are saved for a line, and no answer is written
    /// and read again, some 25 of the 180 instructions that reading a line took.
    #[inline(always)]
    pub(crate) fn take_line(&mut self, alloc: Global, content: &'a [u8]) -> Result<(), LineFault>
        requires line { self.old.line + 1 < 2 ^ 64 }
        requires records { self.old.order.records ≤ self.old.line }
        ensures ok { OnOk result (TakesNextLine self.old (reading_of content.now) self.new) }
        ensures borrows { OnOk result ((lines : List Reading) → length lines ≡ self.old.line
            → BorrowsLines lines self.old
            → BorrowsLines (lines ++ reading_of content.now ∷ []) self.new) }
        ensures broken { IfErr result (IfBroken (BreaksAtNext self.old (reading_of content.now))) }
    {
        if let Some(spelled) = self.step(alloc, content)? {
            self.begin(spelled, CowSlice::Borrowed(spelled.value))?;
        }
        Ok(())
    }

    /// Takes the content of the next line, of whose value a zone that begins there has a copy.
    pub(crate) fn take_copied(&mut self, alloc: Global, content: &[u8]) -> Result<(), LineFault>
        requires line { self.old.line + 1 < 2 ^ 64 }
        requires records { self.old.order.records ≤ self.old.line }
        ensures ok { OnOk result (TakesNextLine self.old (reading_of content.now) self.new) }
        ensures broken { IfErr result (IfBroken (BreaksAtNext self.old (reading_of content.now))) }
    {
        if let Some(spelled) = self.step(alloc, content)? {
            let value = Vec::from_slice(alloc, spelled.value)?;
            self.begin(spelled, CowSlice::Owned(value))?;
        }
        Ok(())
    }

    /// Takes the content of the next line, but for the zone that begins there, which is given back.
    #[inline(always)]
    fn step<'b>(
        &mut self,
        alloc: Global,
        content: &'b [u8],
    ) -> Result<Option<Spelled<'b>>, LineFault>
        requires line { self.old.line + 1 < 2 ^ 64 }
        requires records { self.old.order.records ≤ self.old.line }
        ensures ok { IfOk result (λ begun.
            Steps self.old (reading_of content.now) (option_map spelling_shown begun) self.new) }
        ensures leaves { OnOk result (LeavesAfter (reading_of content.now) self.old self.new) }
        ensures begun { IfOk result (λ begun. IfSome begun (λ s. open_in self.new.zones ≡ None)) }
        ensures broken { IfErr result (IfBroken (BreaksAtNext self.old (reading_of content.now))) }
    {
        self.line += 1;
        match read_content(content) {
            Ok(None) => Ok(None),
            Ok(Some(spelled)) => self.take_spelled(alloc, spelled),
            Err(rule) => Err(LineFault::Broken {
                rule,
                at: self.line,
            }),
        }
    }

    /// Takes what this line spells, but for the zone that it begins.
    #[inline(always)]
    fn take_spelled<'b>(
        &mut self,
        alloc: Global,
        spelled: Spelled<'b>,
    ) -> Result<Option<Spelled<'b>>, LineFault>
        requires { self.old.order.records + 1 < 2 ^ 64 }
        ensures line { OnOk result (self.new.line ≡ self.old.line) }
        ensures no_rule { OnOk result (rule_of_kind self.old.order (kind_in spelled.entry.code) ≡ None) }
        ensures order { OnOk result (self.new.order ≡ noted_kind self.old.order (kind_in spelled.entry.code)) }
        ensures zones { IfOk result (λ begun. opened self.old.line (option_map spelling_shown begun) (zoned self.new)
            ≡ zoned_step (part_by (kind_in spelled.entry.code) self.old.line (spelling_shown spelled.entry))
            (zoned self.old)) }
        ensures leaves { OnOk result (Leaves (kind_in spelled.entry.code) self.old self.new) }
        ensures begun { IfOk result (λ begun. IfSome begun (λ s. open_in self.new.zones ≡ None)) }
        ensures broken { IfErr result (IfBroken (λ rule at.
            (at ≡ self.old.line) × (rule_of_kind self.old.order (kind_in spelled.entry.code) ≡ Some rule))) }
    {
        let kind = kind_of(spelled.code);
        if let Some(rule) = self.order.rule(kind) {
            return Err(LineFault::Broken {
                rule,
                at: self.line,
            });
        }
        self.order.note(kind);
        Ok(self.take_part(alloc, kind, spelled)?)
    }

    /// Continues the open zone, or closes it. The next one, if it begins, is given back.
    #[inline(always)]
    fn take_part<'b>(
        &mut self,
        alloc: Global,
        kind: ZoneKind,
        spelled: Spelled<'b>,
    ) -> Result<Option<Spelled<'b>>, AllocError>
        ensures line { OnOk result (self.new.line ≡ self.old.line) }
        ensures order { OnOk result (self.new.order ≡ self.old.order) }
        ensures zones { IfOk result (λ begun. opened self.old.line (option_map spelling_shown begun) (zoned self.new)
            ≡ zoned_step (part_by kind self.old.line (spelling_shown spelled.entry)) (zoned self.old)) }
        ensures leaves { OnOk result (Leaves kind self.old self.new) }
        ensures begun { IfOk result (λ begun. IfSome begun (λ s. open_in self.new.zones ≡ None)) }
    {
        match kind {
            ZoneKind::Next => self.zones.lengthen(alloc, spelled.value)?,
            ZoneKind::Remark => self.zones.close(),
            _ => {
                self.zones.close();
                return Ok(Some(spelled));
            }
        }
        Ok(None)
    }

    /// Opens the zone that the last line begins, with its value.
    #[inline(always)]
    fn begin(&mut self, spelled: Spelled<'_>, value: CowSlice<'a, u8>) -> Result<(), AllocError>
        requires value { cow_slice_items value ≡ spelled.value.now }
        requires none { open_in self.old.zones ≡ None }
        ensures line { OnOk result (self.new.line ≡ self.old.line) }
        ensures order { OnOk result (self.new.order ≡ self.old.order) }
        ensures zones { OnOk result (zoned self.new
            ≡ opened self.old.line (Some (spelling_shown spelled.entry)) (zoned self.old)) }
        ensures done { OnOk result (done_in self.new.zones ≡ done_in self.old.zones) }
        ensures open_zone { OnOk result (IfSome (open_in self.new.zones) (λ z. (z.line ≡ self.old.line)
            × (z.value ≡ value.entry))) }
    {
        self.zones.open(Zone {
            line: self.line,
            code: spelled.code,
            nature: spelled.nature,
            format: spelled.format,
            value,
        })
    }

    /// Whether so many zones have begun that those which are done should be used and dropped.
    pub(crate) fn has_many(&self) -> bool {
        self.zones.has_many()
    }

    /// The zones that are done.
    pub(crate) fn done(&self) -> &[Zone<'a>]
        ensures { entries result.now ≡ (zoned self.now).done }
    {
        self.zones.done()
    }

    /// Lets the zones go that are done.
    pub(crate) fn let_go(&mut self)
        ensures line { self.new.line ≡ self.old.line }
        ensures order { self.new.order ≡ self.old.order }
        ensures zones { zoned self.new ≡ record { done = []; open_zone = (zoned self.old).open_zone } }
    {
        self.zones.let_go();
    }

    /// The same with zones that own their values, so that nothing is borrowed.
    pub(crate) fn into_owned(self, alloc: Global) -> Result<Reader<'static>, AllocError>
        ensures line { IfOk result (λ owned. owned.line ≡ self.entry.line) }
        ensures order { IfOk result (λ owned. owned.order ≡ self.entry.order) }
        ensures zones { IfOk result (λ owned. zoned owned ≡ zoned self.entry) }
    {
        let Reader { line, order, zones } = self;
        let zones = zones.into_owned(alloc)?;
        Ok(Reader { line, order, zones })
    }

    /// All lines have come.
    pub(crate) fn finish(self) -> Result<Vec<Zone<'a>>, LineFault>
        requires { self.line + 1 < 2 ^ 64 }
        ensures ok { IfOk result (λ zones. (entries zones.items ≡ closed (zoned self.entry))
            × (self.entry.order.eom ≡ true)) }
        ensures zones { IfOk result (λ zones. zones.items
            ≡ done_in self.entry.zones ++ option_to_list (open_in self.entry.zones)) }
        ensures broken { IfErr result (IfBroken (λ rule at. (rule ≡ 106) × (at ≡ self.entry.line + 1)
            × (self.entry.order.eom ≡ false))) }
    {
        if !self.order.eom {
            return Err(LineFault::Broken {
                rule: 106,
                at: self.line + 1,
            });
        }
        let Reader { zones, .. } = self;
        Ok(zones.into_zones())
    }
}

/// The zones of a file in the order of its lines, without remarks: BOM, then CSE or nothing, then
/// records each led by RTY, then EOM. A value that no NEX line continues is borrowed from the file, and not copied.
///
/// Where one of the rules 101 to 110 is broken, the fault names the least line with a broken rule,
/// and the least rule that is broken there.
pub fn zones<'a>(alloc: Global, bytes: &'a [u8]) -> Result<Vec<Zone<'a>>, LineFault>
    ensures zones { IfOk result (λ zones. IsZonesOf bytes.now (entries zones.items)) }
    ensures shape { IfOk result (λ zones. HasShape (entries zones.items)) }
    ensures few { IfOk result (λ zones. length (groups_of (entries zones.items)) ≤ most_records) }
    ensures borrowed { IfOk result (λ zones. (readings : List Reading) → AreReadings bytes.now readings
        → AllByRecursion (IsBorrowedUnlessContinued readings) zones.items) }
    ensures sound { OnOk result (IsUnbroken (BreaksLineRule bytes.now)) }
    ensures least { IfErr result (IsLineRefusal (BreaksLineRule bytes.now)) }
{
    let mut reader = Reader::new(alloc);
    let mut rest = bytes;
    while !rest.is_empty() {
        let (line, after) = lines::first_line(rest);
        reader.take_line(alloc, lines::content(line))?;
        rest = after;
    }
    reader.finish()
}

/// Printed zones are read as they were, each at its line, and break no rule where they have the shape of a file.
pub fn printed_zones_are_read_again()
    ensures zones { (zs : List ZoneData) (readings : List Reading) → AllByRecursion IsPrintable zs
        → AreReadings (printed zs) readings → IsZonesIn readings (line_numbered 1 zs) }
    ensures unbroken { (zs : List ZoneData) (charset : Option ZoneData) (groups : List (List ZoneData))
        → IsFileOf zs charset groups
        → AllByRecursion IsPrintable zs → length groups ≤ most_records → IsUnbroken (BreaksLineRule (printed zs)) }
{}

/// A file that breaks no rule of lines has zones, of at most 9,999,999 records.
pub fn zones_are_there()
    ensures { (bytes : List ℕ) → IsUnbroken (BreaksLineRule bytes)
        → (zones : List ZoneData) × IsZonesOf bytes zones × (length (groups_of zones) ≤ most_records) }
{}

/// A file has one list of zones at most, and these one character set and one list of groups.
pub fn zones_are_unique()
    ensures zones { (bytes : List ℕ) (zones others : List ZoneData) → IsZonesOf bytes zones → IsZonesOf bytes others
        → zones ≡ others }
    ensures groups { (zones : List ZoneData) (charset : Option ZoneData) (groups : List (List ZoneData))
        → IsFileOf zones charset groups → (charset_of zones ≡ charset) × (groups_of zones ≡ groups) }
{}
