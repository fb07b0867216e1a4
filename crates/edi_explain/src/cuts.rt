//! Files that were cut in a line.

ghost use Rattle.std.specs.Prelude.{◌≡◌, ◌↔◌, ◌++◌, ◌==◌, IsTrue, OnOk, length};
ghost use Rattle.edi_line.specs.inner.Lines.{lines_in};
ghost use Rattle.edi_explain.specs.Cuts.{IsCutAt, ShowsCut, cut_hint, is_ended as is_ended_text};

use crate::hints::{END, push_hint};
use edi_line::lines::first_line;
use std::alloc::AllocError;

/// The byte that ends a line.
const FEED: [u8; 1] = [b'\n'];

/// Whether a file has so many lines.
fn has_lines(bytes: &[u8], count: u64) -> bool
    ensures { result ≡ (count == length (lines_in bytes.now)) }
{
    let mut left = count;
    let mut rest = bytes;
    while !rest.is_empty() {
        let (_, behind) = first_line(rest);
        if left == 0 {
            return false;
        }
        left -= 1;
        rest = behind;
    }
    left == 0
}

/// Whether bytes end in a line feed, or in the byte with which some systems end a text.
fn is_ended(bytes: &[u8]) -> bool
    ensures { result ≡ is_ended_text bytes.now }
{
    bytes.ends_with(&FEED) || bytes.ends_with(&END)
}

/// Whether the line with a number is the last of a file, which isn't ended.
fn is_cut_at(bytes: &[u8], at: u64) -> bool
    ensures { IsTrue result ↔ IsCutAt bytes.now at }
{
    has_lines(bytes, at) && !is_ended(bytes)
}

/// Whether a line that breaks rule 101 or 102 is the last of a file, which isn't ended.
pub(crate) fn shows_cut(bytes: &[u8], rule: u16, at: u64) -> bool
    ensures { IsTrue result ↔ ShowsCut bytes.now rule at }
{
    (rule == 101 || rule == 102) && is_cut_at(bytes, at)
}

/// Appends that a file seems to be cut, if it does.
pub(crate) fn push_cut_hint(text: &mut Vec<u8>, name: &[u8], cut: bool) -> Result<(), AllocError>
    ensures { OnOk result (text.new.items ≡ text.old.items ++ cut_hint name.now cut) }
{
    if cut {
        push_hint(text, name, " seems to be cut: its last line has no end")
    } else {
        Ok(())
    }
}
