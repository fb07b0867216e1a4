//! What the reader leaves out of a sheet.

ghost use Rattle.std.specs.Prelude.{◌≡◌, ◌++◌, IfOk, OnOk, codes, if◌then◌else◌, nat_eq};
ghost use Rattle.std.specs.List.{starts_with};
ghost use Rattle.edi_line.specs.LineRules.{BreaksLineRule};
ghost use Rattle.edi_line.specs.Refusal.{IsUnbroken};
ghost use Rattle.edi_explain.specs.Skipped.{DescribesSkipped, HasQuality, HasRemarks, left_out_line};
ghost use Rattle.edi_explain.specs.inner.Skipped.{is_quality_content};

use edi_line::lines::{content, first_line};
use edi_line::push_number;
use std::alloc::{AllocError, Global};

/// How many zones of quality (QAC, QAP) the records of a file have, and how many of its lines are remarks (REM).
#[derive(Drop)]
struct LeftOut {
    quality: u64,
    remarks: u64,
}

/// Whether a content is that of a zone of quality.
fn is_quality(content: &[u8]) -> bool
    ensures { result ≡ is_quality_content content.now }
{
    content.starts_with(b"QAC") || content.starts_with(b"QAP")
}

/// Whether a content is that of a remark.
fn is_remark(content: &[u8]) -> bool
    ensures { result ≡ starts_with nat_eq content.now (codes "REM") }
{
    content.starts_with(b"REM")
}

fn one_if(counts: bool) -> u64
    ensures { result ≡ (if counts then 1 else 0) }
{
    if counts { 1 } else { 0 }
}

/// What is read of a file and not compared, where it breaks no rule of lines.
fn count_left_out(bytes: &[u8]) -> LeftOut
    requires { IsUnbroken (BreaksLineRule bytes.now) }
    ensures quality { HasQuality bytes.now result.quality }
    ensures remarks { HasRemarks bytes.now result.remarks }
{
    let mut quality = 0;
    let mut remarks = 0;
    let mut rest = bytes;
    while !rest.is_empty() {
        let (line, behind) = first_line(rest);
        let own = content(line);
        quality += one_if(is_quality(own));
        remarks += one_if(is_remark(own));
        rest = behind;
    }
    LeftOut { quality, remarks }
}

/// Appends how many of something are left out.
fn push_left_out(text: &mut Vec<u8>, words: &[u8], count: u64) -> Result<(), AllocError>
    ensures { OnOk result (text.new.items ≡ text.old.items ++ left_out_line words.now count) }
{
    text.extend_from_slice(words)?;
    text.extend_from_slice(b" left out: ")?;
    push_number(text, count)?;
    text.extend_from_slice(b"\n")
}

/// The lines on what a file has that is read and not compared, where it breaks no rule of lines.
pub fn describe_skipped(alloc: Global, bytes: &[u8]) -> Result<Vec<u8>, AllocError>
    requires { IsUnbroken (BreaksLineRule bytes.now) }
    ensures { IfOk result (λ lines. DescribesSkipped bytes.now lines.items) }
{
    let left_out = count_left_out(bytes);
    let mut lines = Vec::new(alloc);
    push_left_out(&mut lines, b"quality zones", left_out.quality)?;
    push_left_out(&mut lines, b"remarks", left_out.remarks)?;
    Ok(lines)
}
