//! A file that comes in pieces.

ghost use Rattle.std.specs.Prelude.{◌≡◌, ℕ, List, Option, Some, None, ◌+◌, ◌-◌, ◌^◌, ◌<◌, ◌≤◌, ◌++◌, [], length, option_map, IfOk, IfErr, OnOk, IsErr};
ghost use Rattle.edi_line.specs.Bytes.{most_records};
ghost use Rattle.edi_line.specs.ZoneData.{entries};
ghost use Rattle.edi_line.specs.Feeding.{Refused, FeedState, HoldsFault, StandsFor, fault_seen, joined};
ghost use Rattle.edi_line.specs.inner.Feeding.{refusal_seen, TakesAll, TakesFront, RefusesOne, RefusesIn};
ghost use Rattle.edi_line.specs.inner.Held.{TakesNextLine, BreaksAtNext, Stands, zoned};
ghost use Rattle.edi_line.specs.Lines.{HasNoFeed, content_of};
ghost use Rattle.edi_line.specs.LineRules.{BreaksLineRule, IsZonesOf};
ghost use Rattle.edi_line.specs.Refusal.{IsUnbroken, IsLineRefusal, IfBroken};
ghost use Rattle.edi_line.specs.Spelling.{Reading};
ghost use Rattle.edi_line.specs.inner.Spelling.{reading_of};
ghost use Rattle.edi_line.specs.Zones.{HasShape, groups_of};
ghost use Rattle.edi_line.specs.inner.Zones.{readings_of};

use crate::fault::LineFault;
use crate::lines;
use crate::reading::Reader;
use crate::zone::Zone;
use std::alloc::{AllocError, Global};
use std::marker::Model;

/// Why a feed takes no more.
#[derive(Clone, Copy)]
enum Refusal {
    Memory,
    Broken { rule: u16, at: u64 },
}

impl Refusal {
    fn of(fault: &LineFault) -> Refusal
        ensures { refusal_seen result ≡ fault_seen fault.now }
    {
        match fault {
            LineFault::Memory(_) => Refusal::Memory,
            LineFault::Broken { rule, at } => Refusal::Broken {
                rule: *rule,
                at: *at,
            },
        }
    }

    fn fault(self) -> LineFault
        ensures { fault_seen result ≡ refusal_seen self }
    {
        match self {
            Refusal::Memory => LineFault::Memory(AllocError),
            Refusal::Broken { rule, at } => LineFault::Broken { rule, at },
        }
    }
}

/// A file on its way, in pieces that may be cut anywhere. It stores the zones so far and the bytes of
/// the line that hasn't ended.
pub struct Feed {
    alloc: Global,
    reader: Reader<'static>,
    pending: Vec<u8>,
    refused: Option<Refusal>,
}

impl Drop for Feed {
    fn drop(self) {
        let Feed {
            alloc: _,
            reader: _,
            pending: _,
            refused: _,
        } = self;
    }
}

impl Model for Feed {
    ghost use Rattle.std.specs.Prelude.{option_map};
    ghost use Rattle.edi_line.specs.Feeding.{FeedState};
    ghost use Rattle.edi_line.specs.inner.Feeding.{refusal_seen};
    ghost use Rattle.edi_line.specs.inner.Held.{zoned};

    ghost Value = { FeedState };

    ghost view = { λ f. record {
      line = f.reader.line;
      order = f.reader.order;
      zones = zoned f.reader;
      pending = f.pending.items;
      refused = option_map refusal_seen f.refused;
    } };
}

impl Feed {
    /// A feed of no bytes.
    pub fn new(alloc: Global) -> Feed
        ensures none { StandsFor [] result }
        ensures fresh { result.refused ≡ None }
    {
        Feed {
            alloc,
            reader: Reader::new(alloc),
            pending: Vec::new(alloc),
            refused: None,
        }
    }

    /// Takes the next bytes of the file, of which there are at most 2^64 - 2 in all.
    ///
    /// Where a line that has ended breaks one of the rules 101 to 105 or 107 to 110, the fault names
    /// the least such line, counted from 1 in the whole file, and the least rule that is broken
    /// there. It comes with the piece that brings the line's feed. A line without its feed is judged
    /// later, and 106 at the end. After a fault, lack of memory too, each call answers that fault.
    pub fn feed(&mut self, piece: &[u8]) -> Result<(), LineFault>
        requires { self.old.refused ≡ None
            → (b : List ℕ) × StandsFor b self.old × (length b + length piece.now < 2 ^ 64 - 1) }
        ensures takes { (b : List ℕ) → StandsFor b self.old → OnOk result (StandsFor (b ++ piece.now) self.new) }
        ensures clean { OnOk result (self.new.refused ≡ None) }
        ensures broken { (b : List ℕ) → StandsFor b self.old → IfErr result (IfBroken (HoldsFault (b ++ piece.now))) }
        ensures says { IfErr result (λ e. self.new.refused ≡ Some (fault_seen e)) }
        ensures stays { (r : Refused) → self.old.refused ≡ Some r → (self.new ≡ self.old) × IsErr result }
    {
        if let Some(refusal) = self.refused {
            return Err(refusal.fault());
        }
        match take_piece(self.alloc, &mut self.reader, &mut self.pending, piece) {
            Ok(()) => Ok(()),
            Err(fault) => {
                self.refused = Some(Refusal::of(&fault));
                Err(fault)
            }
        }
    }

    /// The zones of the file, each value owned by its zone. All pieces have come.
    ///
    /// The answer is that of `zones` on the joined pieces, but for lack of memory, and for where the
    /// values lie: the last line is judged even without its feed, and then whether there was an end.
    pub fn finish(self) -> Result<Vec<Zone<'static>>, LineFault>
        requires { self.refused ≡ None → (b : List ℕ) × StandsFor b self × (length b < 2 ^ 64 - 1) }
        ensures zones { (b : List ℕ) → StandsFor b self → IfOk result (λ zones. IsZonesOf b (entries zones.items)) }
        ensures shape { (b : List ℕ) → StandsFor b self → IfOk result (λ zones. HasShape (entries zones.items)) }
        ensures few { (b : List ℕ) → StandsFor b self
            → IfOk result (λ zones. length (groups_of (entries zones.items)) ≤ most_records) }
        ensures sound { (b : List ℕ) → StandsFor b self → OnOk result (IsUnbroken (BreaksLineRule b)) }
        ensures least { (b : List ℕ) → StandsFor b self → IfErr result (IsLineRefusal (BreaksLineRule b)) }
        ensures says { (r : Refused) → self.refused ≡ Some r → IfErr result (λ e. fault_seen e ≡ r) }
        ensures stays { (r : Refused) → self.refused ≡ Some r → IsErr result }
    {
        let Feed {
            alloc,
            mut reader,
            pending,
            refused,
        } = self;
        if let Some(refusal) = refused {
            return Err(refusal.fault());
        }
        take_last(alloc, &mut reader, &pending)?;
        reader.finish()
    }
}

/// The zones of a file that comes in these pieces, each value owned by its zone: for every cutting, the
/// answer of `zones` on the joined pieces, but for lack of memory.
///
/// The file has at most 2^64 - 2 bytes. Where one of the rules 101 to 110 is broken, the fault names the
/// least line with a broken rule, and the least rule that is broken there.
pub fn zones_of_pieces(alloc: Global, pieces: &[&[u8]]) -> Result<Vec<Zone<'static>>, LineFault>
    requires { length (joined pieces.now) < 2 ^ 64 - 1 }
    ensures zones { IfOk result (λ zones. IsZonesOf (joined pieces.now) (entries zones.items)) }
    ensures shape { IfOk result (λ zones. HasShape (entries zones.items)) }
    ensures few { IfOk result (λ zones. length (groups_of (entries zones.items)) ≤ most_records) }
    ensures sound { OnOk result (IsUnbroken (BreaksLineRule (joined pieces.now))) }
    ensures least { IfErr result (IsLineRefusal (BreaksLineRule (joined pieces.now))) }
{
    let mut feed = Feed::new(alloc);
    for piece in pieces {
        feed.feed(piece)?;
    }
    feed.finish()
}

/// Takes a piece: the lines that it ends, and then what is left of it to those that are pending.
fn take_piece(
    alloc: Global,
    reader: &mut Reader<'static>,
    pending: &mut Vec<u8>,
    piece: &[u8],
) -> Result<(), LineFault>
    requires room { reader.old.line + length piece.now + 1 < 2 ^ 64 }
    requires holds { (done : List Reading) × Stands done reader.old }
    requires no_feed { HasNoFeed pending.old.items }
    ensures ok { OnOk result (TakesFront reader.old (pending.old.items ++ piece.now) pending.new.items reader.new) }
    ensures broken { IfErr result (IfBroken (RefusesIn reader.old (pending.old.items ++ piece.now))) }
{
    let Some((line, after)) = lines::first_ended_line(piece) else {
        pending.extend_from_slice(piece)?;
        return Ok(());
    };
    take_first(alloc, reader, pending, line)?;
    let rest = take_ended(alloc, reader, after)?;
    pending.extend_from_slice(rest)?;
    Ok(())
}

/// Takes the line that is pending, of which this is the end.
fn take_first(
    alloc: Global,
    reader: &mut Reader<'static>,
    pending: &mut Vec<u8>,
    line: &[u8],
) -> Result<(), LineFault>
    requires room { reader.old.line + 1 < 2 ^ 64 }
    requires records { reader.old.order.records ≤ reader.old.line }
    ensures ok { OnOk result (TakesNextLine reader.old (reading_of (content_of (pending.old.items ++ line.now))) reader.new) }
    ensures empty { OnOk result (pending.new.items ≡ []) }
    ensures broken { IfErr result
        (IfBroken (BreaksAtNext reader.old (reading_of (content_of (pending.old.items ++ line.now))))) }
{
    if pending.is_empty() {
        return reader.take_copied(alloc, lines::content(line));
    }
    pending.extend_from_slice(line)?;
    reader.take_copied(alloc, lines::content(pending))?;
    pending.clear();
    Ok(())
}

/// Takes the lines that have ended, and gives the bytes behind them.
fn take_ended<'b>(
    alloc: Global,
    reader: &mut Reader<'static>,
    bytes: &'b [u8],
) -> Result<&'b [u8], LineFault>
    requires room { reader.old.line + length bytes.now + 1 < 2 ^ 64 }
    requires holds { (done : List Reading) × Stands done reader.old }
    ensures ok { IfOk result (λ rest. TakesFront reader.old bytes.now rest.now reader.new) }
    ensures broken { IfErr result (IfBroken (RefusesIn reader.old bytes.now)) }
{
    let mut rest = bytes;
    while let Some((line, after)) = lines::first_ended_line(rest) {
        reader.take_copied(alloc, lines::content(line))?;
        rest = after;
    }
    Ok(rest)
}

/// Takes the last line, if bytes are left behind the others.
fn take_last(alloc: Global, reader: &mut Reader<'static>, pending: &[u8]) -> Result<(), LineFault>
    requires room { reader.old.line + 1 < 2 ^ 64 }
    requires records { reader.old.order.records ≤ reader.old.line }
    requires no_feed { HasNoFeed pending.now }
    ensures ok { OnOk result (TakesAll reader.old (readings_of pending.now) reader.new) }
    ensures broken { IfErr result (IfBroken (RefusesOne reader.old (readings_of pending.now))) }
{
    if pending.is_empty() {
        return Ok(());
    }
    reader.take_copied(alloc, lines::content(pending))
}
