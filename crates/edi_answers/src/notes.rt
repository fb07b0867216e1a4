//! The note on the kinds of links that no class has.
ghost use Rattle.std.specs.Prelude.{◌≡◌, ◌++◌, IfOk, IsTrue, OnOk};
ghost use Rattle.edi_explain.specs.KindClasses.{codes_of};
ghost use Rattle.edi_answers.specs.Effects.{written};
ghost use Rattle.edi_answers.specs.Notes.{IsNoteOn, WritesNoteIfAny, lacking_line, note_line};

use crate::report::warn;
use edi_explain::lacking_kinds;
use edi_line::{ByteOut, LineFault};
use edi_schema::ByRole;
use std::alloc::{AllocError, Global};

/// The note on a file of classes, by its name; nothing where each kind has a class, or the file breaks a rule of lines.
pub fn note_of(
    alloc: Global,
    codes: &ByRole<&[u8]>,
    scd: &[u8],
    name: &[u8],
) -> Result<Vec<u8>, AllocError>
    ensures { IfOk result (λ note. IsNoteOn (codes_of codes.now) scd.now name.now note.items) }
{
    let words = match lacking_kinds(alloc, scd, codes) {
        Ok(words) => words,
        Err(LineFault::Memory(error)) => return Err(error),
        Err(LineFault::Broken { .. }) => return Ok(Vec::new(alloc)),
    };
    let mut note = Vec::new(alloc);
    push_note(&mut note, name, &words)?;
    Ok(note)
}

// Appends the line on a file of classes where kinds in these words have no class.
fn push_lacking_line(note: &mut Vec<u8>, name: &[u8], words: &[u8]) -> Result<(), AllocError>
    ensures { OnOk result (note.new.items ≡ note.old.items ++ lacking_line name.now words.now) }
{
    note.extend_from_slice(b"edicad: ")?;
    note.extend_from_slice(name)?;
    note.extend_from_slice(b": no class for ")?;
    note.extend_from_slice(words)?;
    note.extend_from_slice(b": see --kinds\n")
}

// Appends that line, unless there are no words.
fn push_note(note: &mut Vec<u8>, name: &[u8], words: &[u8]) -> Result<(), AllocError>
    ensures { OnOk result (note.new.items ≡ note.old.items ++ note_line name.now words.now) }
{
    match words {
        [] => Ok(()),
        _ => push_lacking_line(note, name, words),
    }
}

/// Writes a note, if there is one.
pub fn say<E: ByteOut>(err: &mut E, note: &[u8])
    ensures text { WritesNoteIfAny (written E.ByteOut err.old err.new) note.now }
    ensures stays { IsTrue (E.has_failed err.old) → IsTrue (E.has_failed err.new) }
{
    if !note.is_empty() {
        warn(err, note);
    }
}
