//! Devices for tests, which give, take and fail as a script says.
ghost use Rattle.std.specs.Prelude.{◌≡◌, ◌+◌, ◌-◌, ◌≤◌, ◌^◌, ◌||◌, ◌++◌, ℕ, Some, List, [], length, take, drop, min, max, IsTrue, IfSome, IsNone, IfOk, is_none, vec_len, vec_capacity, false};
ghost use Rattle.edi_line.specs.Device.{Reads, Writes, is_refusal};
ghost use Rattle.edi_line.specs.Script.{InScript, OutScript, one_more, is_past, left_at, start_at, piece_at, is_zero_answer};

use crate::device::{ByteIn, ByteOut};
use std::alloc::{AllocError, Global};
use std::marker::Model;

/// A source that gives some bytes, at most `piece` a read, and fails from call `fault_at` on.
#[derive(Drop)]
pub struct ScriptIn<'a> {
    bytes: &'a [u8],
    at: usize,
    piece: usize,
    fault_at: u64,
    endless: bool,
    reads: u64,
}

impl<'a> Model for ScriptIn<'a> {
    ghost use Rattle.std.specs.Prelude.{◌≤◌, length};
    ghost use Rattle.edi_line.specs.Script.{InScript};

    ghost Value = { InScript };

    ghost view = { λ s. record {
      bytes = s.bytes.now;
      at = s.at;
      piece = s.piece;
      fault_at = s.fault_at;
      endless = s.endless;
      calls = s.reads;
    } };

    ghost invariant = { λ s. s.at ≤ length s.bytes.now };
}

impl<'a> ScriptIn<'a> {
    /// A source of these bytes, of which no call has been made. A piece of 0 counts as 1, and a
    /// `fault_at` of 0 never comes. An endless source begins again at its end, unless there are
    /// no bytes.
    pub fn new(bytes: &'a [u8], piece: usize, fault_at: u64, endless: bool) -> ScriptIn<'a>
        ensures { result ≡ record {
          bytes = bytes.entry.now;
          at = 0;
          piece = piece;
          fault_at = fault_at;
          endless = endless;
          calls = 0;
        } }
    {
        ScriptIn {
            bytes,
            at: 0,
            piece,
            fault_at,
            endless,
            reads: 0,
        }
    }

    /// How many calls of `read` there were, up to the greatest number.
    pub fn calls(&self) -> u64
        ensures { result ≡ self.now.calls }
    {
        self.reads
    }

    // Where the next read begins.
    fn start(&self) -> usize
        ensures place { result ≡ start_at self.now.bytes self.now.endless self.now.at }
        ensures within { result ≤ length self.now.bytes }
    {
        if self.endless && self.at == self.bytes.len() {
            0
        } else {
            self.at
        }
    }
}

// Copies a piece of the bytes to the front of the buffer, and says how many.
fn copy_piece(from: &[u8], piece: usize, buffer: &mut [u8]) -> usize
    ensures count { result ≡ min (min (max piece 1) (length buffer.new)) (length from.now) }
    ensures copied { take result buffer.new ≡ take result from.now }
{
    let count = piece.max(1).min(buffer.len()).min(from.len());
    buffer[..count].copy_from_slice(&from[..count]);
    count
}

impl<'a> ByteIn for ScriptIn<'a> {
    ghost contents = { λ s. left_at s.bytes s.endless s.at };

    ghost has_failed = { λ s. is_past s.fault_at s.calls };

    ghost reads = { λ s. s.calls };

    ghost device = { λ _. 0 };

    /// Counts the call, and gives the next piece, or fails if its turn to fail has come. The
    /// script stays as it is.
    fn read(&mut self, buffer: &mut [u8]) -> Option<usize>
        ensures bound { IfSome result (λ n. n ≤ length buffer.new) }
        ensures bytes { Reads (left_at self.old.bytes self.old.endless self.old.at)
            (left_at self.new.bytes self.new.endless self.new.at) result buffer.new }
        ensures fails { is_past self.new.fault_at self.new.calls ≡ is_none result }
        ensures for_good { IsTrue (is_past self.old.fault_at self.old.calls) → IsNone result }
        ensures at_least { self.old.calls ≤ self.new.calls }
        ensures at_most { self.new.calls ≤ self.old.calls + 1 }

        // What the script says of this call.
        ensures script { self.new ≡ record self.old { at = self.new.at; calls = self.new.calls } }
        ensures counted { self.new.calls ≡ one_more self.old.calls }
        ensures script_fails { is_past self.old.fault_at self.new.calls ≡ is_none result }
        ensures rests { IsNone result → self.new.at ≡ self.old.at }
        ensures gives { let start = start_at self.old.bytes self.old.endless self.old.at in
            IfSome result (λ n. (n ≡ piece_at self.old.bytes self.old.piece start (length buffer.new))
            × (take n buffer.new ≡ take n (drop start self.old.bytes)) × (self.new.at ≡ start + n)) }
    {
        self.reads = self.reads.saturating_add(1);
        if self.fault_at != 0 && self.fault_at <= self.reads {
            return None;
        }
        let start = self.start();
        let count = copy_piece(&self.bytes[start..], self.piece, buffer);
        self.at = start + count;
        Some(count)
    }
}

/// A sink with room for some bytes, that takes at most `piece` a write, and fails from call
/// `fault_at` on.
#[derive(Drop)]
pub struct ScriptOut {
    out: Vec<u8>,
    room: usize,
    piece: usize,
    fault_at: u64,
    writes: u64,
    refused: bool,
}

impl Model for ScriptOut {
    ghost use Rattle.std.specs.Prelude.{◌≡◌, ◌-◌, ◌≤◌, IsTrue, min, vec_len, vec_capacity};
    ghost use Rattle.edi_line.specs.Script.{OutScript};

    ghost Value = { OutScript };

    ghost view = { λ s. record {
      out = s.out.items;
      room = s.room;
      piece = s.piece;
      fault_at = s.fault_at;
      calls = s.writes;
      refused = s.refused;
    } };

    ghost invariant = { λ s. (vec_len s.out ≤ s.room) × (s.room ≤ vec_capacity s.out)
        × (IsTrue s.refused → min s.piece (s.room - vec_len s.out) ≡ 0) };
}

impl ScriptOut {
    /// A sink that has taken nothing, of which no call has been made. The room, in bytes, is
    /// reserved here, and lack of memory is answered here alone. A `fault_at` of 0 never comes.
    pub fn new(
        alloc: Global,
        room: usize,
        piece: usize,
        fault_at: u64,
    ) -> Result<ScriptOut, AllocError>
        ensures { IfOk result (λ s. s
            ≡ record { out = []; room = room; piece = piece; fault_at = fault_at; calls = 0; refused = false }) }
    {
        let out = Vec::with_capacity(alloc, room)?;
        Ok(ScriptOut {
            out,
            room,
            piece,
            fault_at,
            writes: 0,
            refused: false,
        })
    }

    /// How many calls of `write` there were, up to the greatest number.
    pub fn calls(&self) -> u64
        ensures { result ≡ self.now.calls }
    {
        self.writes
    }

    /// What it took.
    pub fn out(&self) -> &[u8]
        ensures { result.now ≡ self.now.out }
    {
        self.out.as_slice()
    }
}

impl ByteOut for ScriptOut {
    ghost contents = { λ s. Some s.out };

    ghost has_failed = { λ s. is_past s.fault_at s.calls || s.refused };

    ghost writes = { λ s. s.calls };

    /// Counts the call, and takes a piece while there is room, or fails if its turn to fail has
    /// come. The script stays as it is.
    fn write(&mut self, bytes: &[u8]) -> Option<usize>
        ensures bound { IfSome result (λ n. n ≤ length bytes.now) }
        ensures bytes { Writes (Some self.old.out) (Some self.new.out) result bytes.now }
        ensures fails { (is_past self.new.fault_at self.new.calls || self.new.refused)
            ≡ ((is_past self.old.fault_at self.old.calls || self.old.refused) || is_refusal result bytes.now) }
        ensures for_good { IsTrue (is_past self.old.fault_at self.old.calls || self.old.refused)
            → IfSome result (λ n. n ≡ 0) }
        ensures at_least { self.old.calls ≤ self.new.calls }
        ensures at_most { self.new.calls ≤ self.old.calls + 1 }

        // What the script says of this call.
        ensures script { self.new
            ≡ record self.old { out = self.new.out; calls = self.new.calls; refused = self.new.refused } }
        ensures counted { self.new.calls ≡ one_more self.old.calls }
        ensures script_fails { is_past self.old.fault_at self.new.calls ≡ is_none result }
        ensures refuses { self.new.refused ≡ (self.old.refused || is_zero_answer result bytes.now) }
        ensures takes { IfSome result (λ n. n
            ≡ min (min self.old.piece (self.old.room - length self.old.out)) (length bytes.now)) }
    {
        self.writes = self.writes.saturating_add(1);
        if self.fault_at != 0 && self.fault_at <= self.writes {
            return None;
        }
        let count = self.piece.min(self.room - self.out.len()).min(bytes.len());
        self.refused = self.refused || (count == 0 && !bytes.is_empty());
        self.out.extend_from_slice(&bytes[..count]).unwrap();
        Some(count)
    }
}
