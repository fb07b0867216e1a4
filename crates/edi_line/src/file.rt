//! The bytes of a file, whole or in pieces.

ghost use Rattle.std.specs.Prelude.{◌≡◌, ◌+◌, ◌-◌, ◌^◌, ◌<◌, ◌==◌, [], ◌++◌, length, position, IfOk, IfSome};
ghost use Rattle.edi_line.specs.Bytes.{IsBytes};
ghost use Rattle.edi_line.specs.FileBytes.{file_bytes};
ghost use Rattle.edi_line.specs.inner.FilePieces.{EachEnded, EndsInFeed, pieces_joined};

use memchr::memmem;
use std::alloc::{AllocError, Global};
use std::borrow::CowSlice;
use std::marker::Model;

/// The bytes of a file in pieces, cut behind lines, so that each can be freed once its lines are read. They are fewer
/// than 2^64 - 1.
pub struct Pieces {
    /// Each ends with a line feed.
    ended: Vec<Vec<u8>>,
    last: Vec<u8>,
    len: u64,
}

impl Drop for Pieces {
    fn drop(self) {
        let Pieces {
            ended: _,
            last: _,
            len: _,
        } = self;
    }
}

impl Model for Pieces {
    ghost use Rattle.std.specs.Prelude.{ℕ, List};
    ghost use Rattle.edi_line.specs.inner.FilePieces.{AreKept, pieces_joined};

    ghost Value = { List ℕ };

    ghost view = { λ p. pieces_joined p.ended.items p.last.items };

    ghost invariant = { λ p. AreKept p.ended.items p.last.items p.len };
}

impl Pieces {
    /// No bytes.
    pub(crate) fn new(alloc: Global) -> Pieces
        ensures { result ≡ [] }
    {
        Pieces {
            ended: Vec::new(alloc),
            last: Vec::new(alloc),
            len: 0,
        }
    }

    /// How many bytes there are.
    pub(crate) fn len(&self) -> u64
        ensures { result ≡ length self.now }
    {
        self.len
    }

    /// What the bytes of any file keep.
    pub(crate) fn keeps(&self)
        ensures bytes { IsBytes self.now }
        ensures short { length self.now < 2 ^ 64 - 1 }
    {
        let _len = self.len;
    }

    /// These bytes, and others behind them, which make a piece as far as they have a record whose first line has ended.
    pub(crate) fn with_more(self, alloc: Global, bytes: &[u8]) -> Result<Pieces, AllocError>
        ensures { IfOk result (λ pieces. pieces ≡ self ++ bytes.now) }
    {
        let Pieces {
            mut ended,
            mut last,
            len,
        } = self;
        let more = bytes.len() as u64;
        if more >= u64::MAX - len {
            return Err(AllocError);
        }
        let len = len + more;
        let Some((front, behind)) = split_behind_records(bytes) else {
            last.extend_from_slice(bytes)?;
            return Ok(Pieces { ended, last, len });
        };
        last.extend_from_slice(front)?;
        ended.push(last)?;
        let last = Vec::from_slice(alloc, behind)?;
        Ok(Pieces { ended, last, len })
    }

    /// The pieces that end with a line feed, and the bytes behind them.
    pub(crate) fn into_parts(self) -> (Vec<Vec<u8>>, Vec<u8>)
        ensures joined { self ≡ pieces_joined result.0.items result.1.items }
        ensures ended { EachEnded result.0.items }
        ensures short { length self < 2 ^ 64 - 1 }
    {
        let Pieces {
            ended,
            last,
            len: _,
        } = self;
        (ended, last)
    }
}

/// The bytes of a file, at once or in pieces.
#[derive(Drop)]
pub enum FileBytes<'a> {
    /// All of them, lent or owned.
    Whole(CowSlice<'a, u8>),
    /// Piece by piece.
    InPieces(Pieces),
}

impl<'a> FileBytes<'a> {
    /// What the bytes of any file keep.
    pub fn keeps(&self)
        ensures bytes { IsBytes (file_bytes self.now) }
        ensures short { length (file_bytes self.now) < 2 ^ 64 }
    {
        match self {
            FileBytes::Whole(bytes) => hold(bytes.as_slice()),
            FileBytes::InPieces(pieces) => pieces.keeps(),
        }
    }
}

/// What every slice of bytes keeps.
fn hold(bytes: &[u8])
    ensures bytes { IsBytes bytes.now }
    ensures short { length bytes.now < 2 ^ 64 }
{
    let _ = bytes;
}

/// The bytes in front of the place behind the first line of the last record that begins in them, and those behind it.
///
/// A reader that is there holds one zone alone: the one that this line begins.
fn split_behind_records(bytes: &[u8]) -> Option<(&[u8], &[u8])>
    ensures joined { IfSome result (λ cut. bytes.now ≡ cut.0.now ++ cut.1.now) }
    ensures ended { IfSome result (λ cut. EndsInFeed cut.0.now) }
{
    let start = memmem::rfind(bytes, b"\nRTY")? + 1;
    let (_, behind) = bytes.split_at(start);
    let feed = feed_in(behind)?;
    Some(bytes.split_at(start + feed + 1))
}

/// Where the first line feed is, found byte by byte: the first line of a record is short.
fn feed_in(bytes: &[u8]) -> Option<usize>
    ensures { result ≡ position (λ c. c == 10) bytes.now }
{
    bytes.iter().position(|c| *c == b'\n')
}
