//! The bytes of zones.

ghost use Rattle.std.specs.Prelude.{◌≡◌, ℕ, List, ◌+◌, ◌<◌, ◌≤◌, ◌++◌, drop, length, take, OnOk, IfOk};
ghost use Rattle.edi_line.specs.Printing.{line_text, printed_zone, zone_text};
ghost use Rattle.edi_write.specs.inner.Heads.{headed, with_own_length};

use crate::heads::{NEXT, ZoneHead};
use std::alloc::AllocError;

/// How many bytes of a value a line has at most.
const LINE_ROOM: usize = 72;

/// How many bytes stand before the value of a line.
const LINE_FRONT: usize = 8;

/// Writes a line at the end.
fn write_line(out: &mut Vec<u8>, head: ZoneHead, value: &[u8]) -> Result<(), AllocError>
    requires { length value.now < 100 }
    ensures { OnOk result (out.new.items ≡ out.old.items ++ line_text (headed head value.now)) }
{
    let [a, b, c] = head.code;
    let len = value.len() as u8;
    let front = [
        a,
        b,
        c,
        head.nature,
        head.format,
        b'0' + len / 10,
        b'0' + len % 10,
        b':',
    ];
    out.extend_from_slice(&front)?;
    out.extend_from_slice(value)?;
    out.extend_from_slice(b"\r\n")
}

/// Puts the digits of the length of its value into the line from a place to the end.
pub(crate) fn put_length(out: &mut Vec<u8>, start: usize)
    requires begun { start + 8 ≤ length out.old.items }
    requires short { length out.old.items < start + 108 }
    ensures { out.new.items ≡ take start out.old.items ++ with_own_length (drop start out.old.items) }
{
    let len = (out.len() - start - LINE_FRONT) as u8;
    out[start + 5] = b'0' + len / 10;
    out[start + 6] = b'0' + len % 10;
}

/// Writes a zone at the end, in lines of at most 72 bytes of its value.
pub(crate) fn write_zone(out: &mut Vec<u8>, head: ZoneHead, value: &[u8]) -> Result<(), AllocError>
    ensures { OnOk result (out.new.items ≡ out.old.items ++ printed_zone (headed head value.now)) }
{
    let mut line_head = head;
    let mut rest = value;
    while rest.len() > LINE_ROOM {
        let (front, back) = rest.split_at(LINE_ROOM);
        write_line(out, line_head, front)?;
        line_head = NEXT;
        rest = back;
    }
    write_line(out, line_head, rest)
}
