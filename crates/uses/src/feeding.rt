//! A file that comes from a stream, cut into zones as it comes.

ghost use Rattle.std.specs.Prelude.{◌≡◌, IfOk, IfErr, IfSome};
ghost use Rattle.edi_line.specs.ZoneData.{entries};
ghost use Rattle.edi_line.specs.LineRules.{IsZonesOf};
ghost use Rattle.uses.specs.Streams.{IsStreamFault};
ghost use Rattle.uses.specs.declared.feeding.StreamFault.TheVariants.{Line};

use edi_line::{ByteIn, Feed, LineFault, Zone};
use std::alloc::Global;

/// Why a stream has no zones.
#[derive(Drop)]
pub enum StreamFault {
    /// A line breaks a rule, or memory is wanting.
    Line(LineFault),
    /// The stream has failed.
    Failed,
    /// The stream went on after 2^32 - 1 reads.
    TooLong,
}

impl From<LineFault> for StreamFault {
    ghost from_gives = { λ f e. e ≡ Line f };

    fn from(fault: LineFault) -> StreamFault {
        StreamFault::Line(fault)
    }
}

/// The zones of what a stream holds, read in pieces of 4096 bytes and never whole in memory.
pub fn zones_of_stream<R: ByteIn>(
    alloc: Global,
    stream: &mut R,
) -> Result<Vec<Zone<'static>>, StreamFault>
    ensures zones { IfOk result (λ zones.
        IfSome (R.contents stream.old) (λ bytes. IsZonesOf bytes (entries zones.items))) }
    ensures fault { IfErr result (IsStreamFault (R.contents stream.old) (R.has_failed stream.new)) }
{
    let mut feed = Feed::new(alloc);
    let mut buffer = [0u8; 4096];
    for _turn in 0..u32::MAX {
        match stream.read(&mut buffer) {
            None => return Err(StreamFault::Failed),
            Some(0) => return Ok(feed.finish()?),
            Some(count) => feed.feed(&buffer[..count])?,
        }
    }
    Err(StreamFault::TooLong)
}
