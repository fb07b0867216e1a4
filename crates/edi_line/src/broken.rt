//! Rules that are broken, each with its place.

ghost use Rattle.std.specs.Prelude.{◌≡◌, ◌+◌, ◌<◌, ◌^◌, ◌&&◌, ◌||◌, ◌==◌, not, [], ◌∷◌, ◌++◌, if◌then◌else◌, IfOk, OnOk};
ghost use Rattle.edi_line.specs.AllBroken.{AreAllBroken};
ghost use Rattle.edi_line.specs.Bytes.{most_records};
ghost use Rattle.edi_line.specs.inner.Kinds.{is_bom, is_cse, is_rty, is_other_kind, is_next, is_zone_kind};
ghost use Rattle.edi_line.specs.LineRules.{BreaksLineRule};
ghost use Rattle.edi_line.specs.inner.AllBroken.{with_broken, TakesLine, HoldsBroken};
ghost use Rattle.edi_line.specs.inner.Held.{kind_tests, noted_kind};
ghost use Rattle.edi_line.specs.inner.Spelling.{reading_of};

use crate::lines;
use crate::order::{MOST_RECORDS, Order, ZoneKind, kind_of};
use crate::spelling::read_content;
use std::alloc::{AllocError, Global};

/// A rule that is broken, and its place: the number of a line, or of a record, from 1.
#[derive(Clone, Copy)]
pub struct BrokenRule {
    pub rule: u16,
    pub at: u64,
}

/// Puts a rule and its place behind others, where the rule is broken.
pub fn push_if_broken(
    list: &mut Vec<BrokenRule>,
    is_broken: bool,
    rule: u16,
    at: u64,
) -> Result<(), AllocError>
    ensures { OnOk result (list.new.items
        ≡ (if is_broken then list.old.items ++ record { rule = rule; at = at } ∷ [] else list.old.items)) }
{
    if is_broken {
        list.push(BrokenRule { rule, at })?;
    }
    Ok(())
}

/// Whether a line of this kind is a zone: NEX lines and remarks are none.
fn is_zone(kind: ZoneKind) -> bool
    ensures { result ≡ is_zone_kind kind }
{
    !matches!(kind, ZoneKind::Next | ZoneKind::Remark)
}

impl Order {
    /// Whether rule 104 is broken: NEX with no zone or remark before it.
    fn continues_nothing(&self, kind: ZoneKind) -> bool
        ensures { result ≡ (is_next kind && not self.now.started) }
    {
        match kind {
            ZoneKind::Next => !self.started,
            _ => false,
        }
    }

    /// Whether rule 105 is broken: the first zone isn't BOM.
    fn begins_otherwise(&self, kind: ZoneKind) -> bool
        ensures { result ≡ (is_zone_kind kind && (not (is_bom kind) && not self.now.begun)) }
    {
        match kind {
            ZoneKind::Bom => false,
            _ => is_zone(kind) && !self.begun,
        }
    }

    /// Whether rule 107 is broken: a zone after an EOM.
    fn has_ended(&self, kind: ZoneKind) -> bool
        ensures { result ≡ (is_zone_kind kind && self.now.eom) }
    {
        is_zone(kind) && self.eom
    }

    /// Whether rule 108 is broken: a BOM after a BOM, or a CSE after a CSE or an RTY.
    fn comes_again(&self, kind: ZoneKind) -> bool
        ensures { result ≡ ((is_bom kind && self.now.bom) || (is_cse kind && (self.now.cse || self.now.rty))) }
    {
        match kind {
            ZoneKind::Bom => self.bom,
            ZoneKind::Cse => self.cse || self.rty,
            _ => false,
        }
    }

    /// Whether rule 109 is broken: a zone of a record with no RTY before it.
    fn belongs_to_nothing(&self, kind: ZoneKind) -> bool
        ensures { result ≡ (is_other_kind kind && not self.now.rty) }
    {
        match kind {
            ZoneKind::Other => !self.rty,
            _ => false,
        }
    }

    /// Whether rule 110 is broken: the RTY of record 10,000,000.
    fn is_one_too_many(&self, kind: ZoneKind) -> bool
        ensures { result ≡ (is_rty kind && (self.now.records == most_records)) }
    {
        match kind {
            ZoneKind::Rty => self.records == MOST_RECORDS,
            _ => false,
        }
    }

    /// Puts each rule behind others that a line of this kind breaks by its place, the least first.
    fn push_broken(
        &self,
        list: &mut Vec<BrokenRule>,
        kind: ZoneKind,
        at: u64,
    ) -> Result<(), AllocError>
        ensures { OnOk result (list.new.items ≡ with_broken list.old.items at (kind_tests self.now kind)) }
    {
        push_if_broken(list, self.continues_nothing(kind), 104, at)?;
        push_if_broken(list, self.begins_otherwise(kind), 105, at)?;
        push_if_broken(list, self.has_ended(kind), 107, at)?;
        push_if_broken(list, self.comes_again(kind), 108, at)?;
        push_if_broken(list, self.belongs_to_nothing(kind), 109, at)?;
        push_if_broken(list, self.is_one_too_many(kind), 110, at)?;
        Ok(())
    }
}

/// What is known of the lines that have come, and each rule that they break.
#[derive(Drop)]
struct BrokenLines {
    line: u64,
    order: Order,
    list: Vec<BrokenRule>,
}

impl BrokenLines {
    /// No lines have come.
    fn new(alloc: Global) -> BrokenLines
        ensures { HoldsBroken [] result }
    {
        BrokenLines {
            line: 0,
            order: Order::new(),
            list: Vec::new(alloc),
        }
    }

    /// Takes the content of the next line. One that can't be read leaves what is known of the lines before it.
    fn take(&mut self, content: &[u8]) -> Result<(), AllocError>
        requires line { self.old.line + 1 < 2 ^ 64 }
        requires records { self.old.order.records + 1 < 2 ^ 64 }
        ensures { OnOk result (TakesLine (reading_of content.now) self.old self.new) }
    {
        self.line += 1;
        match read_content(content) {
            Ok(None) => Ok(()),
            Ok(Some(spelled)) => self.take_kind(kind_of(spelled.code)),
            Err(rule) => self.take_unread(rule),
        }
    }

    /// Takes this line, which is of this kind.
    fn take_kind(&mut self, kind: ZoneKind) -> Result<(), AllocError>
        requires { self.old.order.records + 1 < 2 ^ 64 }
        ensures line { OnOk result (self.new.line ≡ self.old.line) }
        ensures order { OnOk result (self.new.order ≡ noted_kind self.old.order kind) }
        ensures list { OnOk result (self.new.list.items
            ≡ with_broken self.old.list.items self.old.line (kind_tests self.old.order kind)) }
    {
        self.order.push_broken(&mut self.list, kind, self.line)?;
        self.order.note(kind);
        Ok(())
    }

    /// Takes this line, which breaks a rule of its own.
    fn take_unread(&mut self, rule: u16) -> Result<(), AllocError>
        ensures line { OnOk result (self.new.line ≡ self.old.line) }
        ensures order { OnOk result (self.new.order ≡ self.old.order) }
        ensures list { OnOk result (self.new.list.items
            ≡ self.old.list.items ++ record { rule = rule; at = self.old.line } ∷ []) }
    {
        let at = self.line;
        self.list.push(BrokenRule { rule, at })?;
        Ok(())
    }

    /// All lines have come.
    fn finish(self) -> Result<Vec<BrokenRule>, AllocError>
        requires { self.line + 1 < 2 ^ 64 }
        ensures { IfOk result (λ list. list.items ≡ (if self.order.eom then self.list.items
            else self.list.items ++ record { rule = 106; at = self.line + 1 } ∷ [])) }
    {
        let BrokenLines {
            line,
            order,
            mut list,
        } = self;
        push_if_broken(&mut list, !order.eom, 106, line + 1)?;
        Ok(list)
    }
}

/// Each of the rules 101 to 110 that the lines of a file break, with the number of its line, from 1, by lines and in one
/// line by rules. A line that breaks 101, 102 or 103 breaks no other, and counts for nothing in the rules of the lines
/// behind it. A file without its last zone breaks 106 one line past its last (docs/FORMAT.md, "The order of the rules").
pub fn broken_lines(alloc: Global, bytes: &[u8]) -> Result<Vec<BrokenRule>, AllocError>
    ensures { IfOk result (λ list. AreAllBroken (BreaksLineRule bytes.now) list.items) }
{
    let mut broken = BrokenLines::new(alloc);
    let mut rest = bytes;
    while !rest.is_empty() {
        let (line, after) = lines::first_line(rest);
        broken.take(lines::content(line))?;
        rest = after;
    }
    broken.finish()
}
