//! Reading a source to its end.

ghost use Rattle.std.specs.Prelude.{◌≡◌, ◌+◌, ◌-◌, ◌≤◌, ◌<◌, ◌++◌, [], ℕ, List, length, IsTrue, IfSome, IfOk, OnOk, IsErrOf, vec_len, false};
ghost use Rattle.std.specs.Io.KnownBytes.{Consumes, IsAtEnd};

use crate::device::ByteIn;
use crate::file::Pieces;
use std::alloc::{AllocError, Global};
use thiserror::Error;

/// Why a source was not read whole.
#[derive(Clone, Copy, Debug, PartialEq, Eq, Error)]
pub enum ReadFault {
    /// A growth was refused.
    #[error("out of memory")]
    Memory(AllocError),
    /// The source has failed, in this call or before it.
    #[error("the input cannot be read")]
    Read,
    /// More bytes came than the limit.
    #[error("the input is too long")]
    TooLong,
}

/// How many bytes a read asks for.
const CHUNK: usize = 65536;

/// What the bytes of a source are put into as they come.
pub trait Gathering {
    /// The bytes that it has.
    ghost bytes: { Self → List ℕ };

    /// No bytes.
    fn none(alloc: Global) -> Self
        ensures { bytes result ≡ [] };

    /// How many bytes there are.
    fn count(&self) -> u64
        ensures { result ≡ length (bytes self.now) };

    /// These bytes, and others behind them.
    fn with(self, alloc: Global, more: &[u8]) -> Result<Self, AllocError>
        ensures { IfOk result (λ all. bytes all ≡ bytes self ++ more.now) };
}

impl Gathering for Vec<u8> {
    ghost bytes = { λ bytes. bytes.items };

    fn none(alloc: Global) -> Vec<u8> {
        Vec::new(alloc)
    }

    fn count(&self) -> u64 {
        self.len() as u64
    }

    fn with(self, _alloc: Global, more: &[u8]) -> Result<Vec<u8>, AllocError> {
        let mut all = self;
        all.extend_from_slice(more)?;
        Ok(all)
    }
}

impl Gathering for Pieces {
    ghost bytes = { λ pieces. pieces };

    fn none(alloc: Global) -> Pieces {
        Pieces::new(alloc)
    }

    fn count(&self) -> u64 {
        self.len()
    }

    fn with(self, alloc: Global, more: &[u8]) -> Result<Pieces, AllocError> {
        self.with_more(alloc, more)
    }
}

/// All bytes that the source gives before it has none left, which are at most `limit`: in a list, or in pieces that can
/// be freed one by one.
///
/// It makes at most `limit` + 2 reads. After a fault the source has lost what was read. It isn't inlined, so that callers
/// who read several sources take the stack of one buffer.
#[inline(never)]
pub fn read_whole<R: ByteIn, G: Gathering + Drop>(
    alloc: Global,
    reader: &mut R,
    limit: u64,
) -> Result<G, ReadFault>
    ensures all { IfOk result (λ all. IfSome (R.contents reader.old) (λ contents. G.bytes all ≡ contents)) }
    ensures end { OnOk result (IsAtEnd (R.contents reader.new)) }
    ensures sound { OnOk result (R.has_failed reader.new ≡ false) }
    ensures bound { IfOk result (λ all. length (G.bytes all) ≤ limit) }
    ensures failed { IsErrOf result ReadFault.Read → IsTrue (R.has_failed reader.new) }
    ensures too_long { IsErrOf result ReadFault.TooLong → (came : List ℕ)
        × Consumes (R.contents reader.old) (R.contents reader.new) came × (limit < length came) }
    ensures cost { R.reads reader.new ≤ R.reads reader.old + limit + 2 }
    ensures same { R.device reader.new ≡ R.device reader.old }
{
    let mut gathered = G::none(alloc);
    let mut buffer = [0u8; CHUNK];
    loop {
        match reader.read(&mut buffer) {
            None => return Err(ReadFault::Read),
            Some(0) => return Ok(gathered),
            Some(count) => {
                if limit - gathered.count() < count as u64 {
                    return Err(ReadFault::TooLong);
                }
                gathered = gathered
                    .with(alloc, &buffer[..count])
                    .map_err(ReadFault::Memory)?;
            }
        }
    }
}

/// All bytes that the source gives before it has none left, which are at most `limit`, as `read_whole` reads them.
pub fn read_all<R: ByteIn>(alloc: Global, reader: &mut R, limit: u64) -> Result<Vec<u8>, ReadFault>
    ensures all { IfOk result (λ bytes. IfSome (R.contents reader.old) (λ contents. bytes.items ≡ contents)) }
    ensures end { OnOk result (IsAtEnd (R.contents reader.new)) }
    ensures sound { OnOk result (R.has_failed reader.new ≡ false) }
    ensures bound { IfOk result (λ bytes. vec_len bytes ≤ limit) }
    ensures failed { IsErrOf result ReadFault.Read → IsTrue (R.has_failed reader.new) }
    ensures too_long { IsErrOf result ReadFault.TooLong → (came : List ℕ)
        × Consumes (R.contents reader.old) (R.contents reader.new) came × (limit < length came) }
    ensures cost { R.reads reader.new ≤ R.reads reader.old + limit + 2 }
    ensures same { R.device reader.new ≡ R.device reader.old }
{
    read_whole(alloc, reader, limit)
}
