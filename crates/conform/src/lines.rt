//! Files cut into zones, whole and in pieces.

ghost use Rattle.std.specs.Prelude.{◌≡◌, ◌+◌, ◌^◌, ◌<◌, IfSome, IsSome};

use crate::case::Case;
use crate::refusals::push_lines_fault;
use crate::text::push_bytes;
use edi_line::{Feed, LineFault, Zone, zones};
use std::alloc::{AllocError, Global};

/// The zones of a file, a line each, or its refusal.
pub(crate) fn push_cut(alloc: Global, file: &str, text: &mut String) -> Result<(), AllocError> {
    push_answer(zones(alloc, file.as_bytes()), text)
}

/// What a feed answers to each piece, of which each is an input, and what it answers at the end: the zones, or the
/// refusal.
pub(crate) fn push_fed(
    alloc: Global,
    case: &Case<'_>,
    text: &mut String,
) -> Result<(), AllocError> {
    let mut pieces = Vec::new(alloc);
    for input in case.inputs.as_slice() {
        pieces.push(input.as_str().as_bytes())?;
    }
    answers(alloc, &pieces, text)
}

/// The zones of a file, or its refusal; and in which pieces it is answered otherwise, of all two into which it can be
/// cut.
pub(crate) fn push_in_pieces(
    alloc: Global,
    case: &Case<'_>,
    text: &mut String,
) -> Result<(), AllocError> {
    push_cut(alloc, case.input(0), text)?;
    let bytes = case.input(0).as_bytes();
    let mut differing = 0u64;
    for length in 0..=bytes.len() {
        let (front, behind) = bytes.split_at(length);
        if !ends_as(alloc, &[front, behind], text.as_str())? {
            differing = differing.saturating_add(1);
        }
    }
    if differing > 0 {
        writeln!(
            text,
            "cut in two in {differing} ways it is answered otherwise"
        )?;
    }
    push_byte_by_byte(alloc, bytes, text)
}

// Whether a file that comes byte by byte is answered otherwise than this text.
fn push_byte_by_byte(alloc: Global, bytes: &[u8], text: &mut String) -> Result<(), AllocError> {
    let mut pieces = Vec::new(alloc);
    for piece in bytes.chunks(1) {
        pieces.push(piece)?;
    }
    if ends_as(alloc, &pieces, text.as_str())? {
        Ok(())
    } else {
        text.push_str("byte by byte it is answered otherwise\n")
    }
}

// Whether what a feed answers to these pieces ends in this text.
fn ends_as(alloc: Global, pieces: &[&[u8]], end: &str) -> Result<bool, AllocError> {
    let mut text = String::new(alloc);
    answers(alloc, pieces, &mut text)?;
    Ok(text.as_str().ends_with(end))
}

// What a feed answers to each of these pieces, and at the end.
fn answers(alloc: Global, pieces: &[&[u8]], text: &mut String) -> Result<(), AllocError> {
    let mut feed = Feed::new(alloc);
    let mut length = 0usize;
    for piece in pieces {
        let Some(sum) = length_with(length, piece.len()) else {
            return text.push_str("pieces of more than 4 GiB\n");
        };
        length = sum;
        let taken = feed.feed(piece);
        if let Err(LineFault::Memory(fault)) = taken {
            return push_again(feed, fault, text);
        }
        push_taken(taken, text)?;
    }
    push_answer(feed.finish(), text)
}

// What a feed answers to one piece.
fn push_taken(taken: Result<(), LineFault>, text: &mut String) -> Result<(), AllocError> {
    match taken {
        Ok(()) => text.push_str("taken\n"),
        Err(fault) => push_lines_fault(text, fault),
    }
}

// A feed that lacked memory once answers so again, to a piece and at the end.
fn push_again(mut feed: Feed, fault: AllocError, text: &mut String) -> Result<(), AllocError>
    requires { IsSome feed.refused }
{
    let again = feed.feed(b"");
    match (again, feed.finish()) {
        (Err(LineFault::Memory(_)), Err(LineFault::Memory(_))) => Err(fault),
        _ => text.push_str("a feed goes on without memory\n"),
    }
}

// The length with that of one more piece. Cases are far shorter than a feed may be.
fn length_with(length: usize, more: usize) -> Option<usize>
    ensures { IfSome result (λ sum. (sum ≡ length + more) × (sum < 2 ^ 32)) }
{
    match length.checked_add(more) {
        Some(sum) if sum < 1 << 32 => Some(sum),
        _ => None,
    }
}

// The zones of a file, or its refusal.
fn push_answer(
    answer: Result<Vec<Zone<'_>>, LineFault>,
    text: &mut String,
) -> Result<(), AllocError> {
    match answer {
        Ok(zones) => push_zones(&zones, text),
        Err(fault) => push_lines_fault(text, fault),
    }
}

// Each zone with its line, its head and its value.
fn push_zones(zones: &[Zone<'_>], text: &mut String) -> Result<(), AllocError> {
    for zone in zones {
        write!(text, "{} ", zone.line)?;
        push_bytes(text, &zone.code)?;
        push_bytes(text, &[zone.nature, zone.format])?;
        text.push_str(":")?;
        push_bytes(text, zone.value.as_slice())?;
        text.push_str("\n")?;
    }
    Ok(())
}
