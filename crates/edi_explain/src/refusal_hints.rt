//! What a file hints at that is refused as a sheet.

ghost use Rattle.std.specs.Prelude.{IfErr, IfOk, OnOk};
ghost use Rattle.edi_line.specs.LineRules.{BreaksLineRule};
ghost use Rattle.edi_line.specs.Refusal.{IsLeastBroken, IsLineRefusal, IsUnbroken};
ghost use Rattle.edi_explain.specs.RefusalHints.{AreRefusalHints, HintAtLine, HintAtLines};

use crate::cuts::{push_cut_hint, shows_cut};
use crate::explained::NamedFile;
use crate::hints::{DeliveryPart, hints_on};
use crate::lengths::{counts_characters, push_length_hint};
use edi_line::{LineFault, read_groups};
use edi_record::NoObserver;
use std::alloc::{AllocError, Global};

/// Whether a file breaks no rule of lines, or the first that it breaks.
fn judge_lines(alloc: Global, bytes: &[u8]) -> Result<(), LineFault>
    ensures sound { OnOk result (IsUnbroken (BreaksLineRule bytes.now)) }
    ensures least { IfErr result (IsLineRefusal (BreaksLineRule bytes.now)) }
{
    let mut nothing = NoObserver;
    read_groups(alloc, bytes, &mut nothing)?;
    Ok(())
}

/// The hints on the line with which a file breaks its first rule of lines.
pub(crate) fn hints_at_line(
    alloc: Global,
    file: &NamedFile<'_>,
    rule: u16,
    at: u64,
) -> Result<Vec<u8>, AllocError>
    requires { IsLeastBroken (BreaksLineRule file.now.bytes.now) rule at }
    ensures { IfOk result (λ lines. HintAtLine file.now.name.now file.now.bytes.now rule at lines.items) }
{
    let counts = counts_characters(file.bytes, rule, at);
    let cut = shows_cut(file.bytes, rule, at);
    let mut lines = Vec::new(alloc);
    push_length_hint(&mut lines, file.name, counts)?;
    push_cut_hint(&mut lines, file.name, cut)?;
    Ok(lines)
}

/// The hints on the first broken line of a file, if it has one.
fn hints_at_lines(alloc: Global, file: &NamedFile<'_>) -> Result<Vec<u8>, AllocError>
    ensures { IfOk result (λ lines. HintAtLines file.now.name.now file.now.bytes.now lines.items) }
{
    match judge_lines(alloc, file.bytes) {
        Ok(()) => Ok(Vec::new(alloc)),
        Err(LineFault::Broken { rule, at }) => hints_at_line(alloc, file, rule, at),
        Err(LineFault::Memory(error)) => Err(error),
    }
}

/// The lines that name what a file shows of why it is refused as a sheet: that the length of its first broken line
/// counts characters, or that it was cut in that line; that it can't be read as it is; or else a byte order mark, a byte
/// 0x1A at its end, and that it is another part of a delivery.
pub fn hints_on_refused(alloc: Global, file: &NamedFile<'_>) -> Result<Vec<u8>, AllocError>
    ensures { IfOk result (λ lines. AreRefusalHints file.now.name.now file.now.bytes.now lines.items) }
{
    let mut lines = hints_at_lines(alloc, file)?;
    let of_file = hints_on(alloc, file, DeliveryPart::Vec)?;
    lines.extend_from_slice(&of_file)?;
    Ok(lines)
}
