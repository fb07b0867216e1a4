//! A source and a sink of bytes that may fail for good.
ghost use Rattle.std.specs.Prelude.{◌≡◌, ◌+◌, ◌≤◌, ℕ, List, Option, Bool, ◌||◌, length, IsTrue, IfSome, IsNone, is_none, false};
ghost use Rattle.edi_line.specs.Device.{Reads, Writes, is_refusal};

use std::io::{Read, Write};

/// A source of bytes.
///
/// `None` says that it has failed, and nothing else does; from then on it answers `None`.
pub trait ByteIn {
    /// The bytes that are left, or none claimed.
    ghost contents: { Self → Option (List ℕ) };

    /// Whether it has failed.
    ghost has_failed: { Self → Bool };

    /// How many calls of `read` it has counted.
    ghost reads: { Self → ℕ };

    /// Which device it reads, as a number. No read changes it.
    ghost device: { Self → ℕ };

    /// Puts the next bytes at the front of the buffer and says how many, at most as many as the
    /// buffer has. 0 for a buffer of one byte or more comes only where no bytes are left, if the
    /// bytes are known.
    fn read(&mut self, buffer: &mut [u8]) -> Option<usize>
        ensures bound { IfSome result (λ n. n ≤ length buffer.new) }
        ensures bytes { Reads (contents self.old) (contents self.new) result buffer.new }
        ensures fails { has_failed self.new ≡ is_none result }
        ensures for_good { IsTrue (has_failed self.old) → IsNone result }
        ensures at_least { reads self.old ≤ reads self.new }
        ensures at_most { reads self.new ≤ reads self.old + 1 }
        ensures same { device self.new ≡ device self.old };

    /// So many bytes are left at least, where that can be told without reading.
    fn left(&self) -> Option<u64>
        ensures { IfSome result (λ n. IfSome (contents self.now) (λ bytes. n ≤ length bytes)) }
    {
        None
    }
}

/// A sink of bytes.
///
/// `None`, and 0 for one byte or more, say that it has failed, and nothing else does; from then on
/// it answers one of the two.
pub trait ByteOut {
    /// The bytes that it has taken, or none claimed.
    ghost contents: { Self → Option (List ℕ) };

    /// Whether it has failed.
    ghost has_failed: { Self → Bool };

    /// How many calls of `write` it has counted.
    ghost writes: { Self → ℕ };

    /// Takes bytes off the front of these and says how many.
    fn write(&mut self, bytes: &[u8]) -> Option<usize>
        ensures bound { IfSome result (λ n. n ≤ length bytes.now) }
        ensures bytes { Writes (contents self.old) (contents self.new) result bytes.now }
        ensures fails { has_failed self.new ≡ (has_failed self.old || is_refusal result bytes.now) }
        ensures for_good { IsTrue (has_failed self.old) → IfSome result (λ n. n ≡ 0) }
        ensures at_least { writes self.old ≤ writes self.new }
        ensures at_most { writes self.new ≤ writes self.old + 1 };
}

/// A reader of std as a source. Any error is a failure, an interrupted read too. It counts no calls, and no device is
/// told from another.
#[derive(Drop)]
pub struct FromRead<R> {
    inner: R,
    failed: bool,
}

impl<R: Read> FromRead<R> {
    /// The source of what the reader has left. Nothing is read yet.
    pub fn new(inner: R) -> FromRead<R>
        ensures contents { ⟦<FromRead<R> as ByteIn>⟧.contents result ≡ R.remaining inner }
        ensures fresh { ⟦<FromRead<R> as ByteIn>⟧.has_failed result ≡ false }
    {
        FromRead {
            inner,
            failed: false,
        }
    }
}

impl<R: Read> ByteIn for FromRead<R> {
    ghost contents = { λ s. R.remaining s.inner };

    ghost has_failed = { λ s. s.failed };

    ghost reads = { λ _. 0 };

    ghost device = { λ _. 0 };

    fn read(&mut self, buffer: &mut [u8]) -> Option<usize> {
        if self.failed {
            return None;
        }
        match self.inner.read(buffer) {
            Ok(count) => Some(count),
            Err(_) => {
                self.failed = true;
                None
            }
        }
    }
}

/// A writer of std as a sink. Any error is a failure, an interrupted write too. It counts no calls.
#[derive(Drop)]
pub struct ToWrite<W> {
    inner: W,
    failed: bool,
}

impl<W: Write> ToWrite<W> {
    /// The sink that writes to the writer. Nothing is written yet.
    pub fn new(inner: W) -> ToWrite<W>
        ensures contents { ⟦<ToWrite<W> as ByteOut>⟧.contents result ≡ W.contents inner }
        ensures fresh { ⟦<ToWrite<W> as ByteOut>⟧.has_failed result ≡ false }
    {
        ToWrite {
            inner,
            failed: false,
        }
    }
}

impl<W: Write> ByteOut for ToWrite<W> {
    ghost contents = { λ s. W.contents s.inner };

    ghost has_failed = { λ s. s.failed };

    ghost writes = { λ _. 0 };

    fn write(&mut self, bytes: &[u8]) -> Option<usize> {
        if self.failed {
            return None;
        }
        match self.inner.write(bytes) {
            Ok(count) => {
                self.failed = count == 0 && !bytes.is_empty();
                Some(count)
            }
            Err(_) => {
                self.failed = true;
                None
            }
        }
    }
}
