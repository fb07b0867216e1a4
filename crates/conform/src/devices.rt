//! Readers and writers that give and take little, or fail.

use crate::case::Case;
use edi_line::{ByteIn, FromRead, ReadFault, ScriptIn, ScriptOut, ToWrite, read_all};
use edi_write::{Written, put_all};
use std::alloc::{AllocError, Global};
use std::io::{self, Read};

/// What `read_all` answers. The first input is three numbers: the bytes that a read gives at most, the read that fails
/// (0: none) and the limit; and `endless` where the second input, the bytes, begins again at its end.
pub(crate) fn push_read(
    alloc: Global,
    case: &Case<'_>,
    text: &mut String,
) -> Result<(), AllocError> {
    let endless = case.input(0).split_whitespace().nth(3) == Some("endless");
    let mut reader = ScriptIn::new(
        case.input(1).as_bytes(),
        case.number(0) as usize,
        case.number(1),
        endless,
    );
    let answer = read_all(alloc, &mut reader, case.number(2));
    push_length(answer, text)?;
    writeln!(text, ", after {} reads", reader.calls())
}

// How many bytes were read, or why they were not.
fn push_length(answer: Result<Vec<u8>, ReadFault>, text: &mut String) -> Result<(), AllocError> {
    match answer {
        Ok(bytes) => write!(text, "{} bytes", bytes.len()),
        Err(ReadFault::Memory(fault)) => Err(fault),
        Err(ReadFault::Read) => text.push_str("can't be read"),
        Err(ReadFault::TooLong) => text.push_str("too long"),
    }
}

/// What `put_all` answers, and what went out. The first input is three numbers: the room of the writer, the bytes that
/// a write takes at most, and the write that fails (0: none). The second input is the bytes.
pub(crate) fn push_written(
    alloc: Global,
    case: &Case<'_>,
    text: &mut String,
) -> Result<(), AllocError> {
    let room = case.number(0).min(1 << 20) as usize;
    let mut writer = ScriptOut::new(alloc, room, case.number(1) as usize, case.number(2))?;
    match put_all(&mut writer, case.input(1).as_bytes()) {
        Ok(()) => text.push_str("all went out:\n")?,
        Err(written) => writeln!(text, "{} bytes went out:", written.count)?,
    }
    crate::text::push_bytes(text, writer.out())?;
    text.push_str("\n")
}

/// A reader that is interrupted once, and is at its end then.
#[derive(Drop)]
struct Interrupted {
    is_past: bool,
}

impl Read for Interrupted {
    fn read(&mut self, _buffer: &mut [u8]) -> io::Result<usize> {
        if self.is_past {
            return Ok(0);
        }
        self.is_past = true;
        Err(io::Error::from(io::ErrorKind::Interrupted))
    }
}

/// What comes of a read that is interrupted, of the next one, and of reading all.
pub(crate) fn push_interrupted(alloc: Global, text: &mut String) -> Result<(), AllocError> {
    let mut buffer = [0u8; 4];
    let mut reader = FromRead::new(Interrupted { is_past: false });
    write!(text, "{} ", reader.read(&mut buffer).is_none())?;
    write!(text, "{} ", reader.read(&mut buffer).is_none())?;
    let mut whole = FromRead::new(Interrupted { is_past: false });
    push_length(read_all(alloc, &mut whole, 100), text)?;
    text.push_str("\n")
}

/// How many bytes went out to a writer of the standard library that has room, whether they are those of the case, and
/// how many to one with room for four bytes.
pub(crate) fn push_passed_on(
    alloc: Global,
    case: &Case<'_>,
    text: &mut String,
) -> Result<(), AllocError> {
    let bytes = case.input(0).as_bytes();
    push_to_list(alloc, bytes, text)?;
    let mut room = [0u8; 4];
    let some = put_all(&mut ToWrite::new(room.as_mut_slice()), bytes);
    writeln!(text, ", {}", count_of(some, bytes.len()))
}

// The same of a list, which has room.
fn push_to_list(alloc: Global, bytes: &[u8], text: &mut String) -> Result<(), AllocError> {
    let mut taken = Vec::with_capacity(alloc, 100)?;
    let all = put_all(&mut ToWrite::new(&mut taken), bytes);
    let same = taken.as_slice() == bytes;
    write!(text, "{} {same}", count_of(all, bytes.len()))
}

// How many bytes of so many went out.
fn count_of(answer: Result<(), Written>, length: usize) -> u64 {
    match answer {
        Ok(()) => length as u64,
        Err(written) => written.count,
    }
}
