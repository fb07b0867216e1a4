//! The file of classes of a run over sheets, which is read once.
ghost use Rattle.std.specs.Prelude.{◌≡◌, Some, IfErr, IfOk, IfSome, OnOk, false, length, min, take};
ghost use Rattle.edi_compare.specs.Runs.{HasFailed, IsRead, IsTooLong, MatchFault, seen};
ghost use Rattle.edi_shown.specs.Shown.{shown_bytes};
ghost use Rattle.edi_answers.specs.Notes.{IsNoteOn};
ghost use Rattle.edi_answers.specs.Paths.{input_name};

use crate::notes::note_of;
use crate::paths::input_name;
use edi_compare::{Input, RunFault, read_input};
use edi_line::ByteIn;
use edi_shown::push_shown;
use edi_words::GivenKinds;
use std::alloc::{AllocError, Global};

/// An input of bytes that were read already, from which a run reads them once more. It never fails.
#[derive(Drop)]
pub struct Kept<'a> {
    left: &'a [u8],
}

impl<'a> Kept<'a> {
    /// The input of these bytes.
    pub fn new(bytes: &'a [u8]) -> Kept<'a>
        ensures { ⟦<Kept<'a> as ByteIn>⟧.contents result ≡ Some bytes.entry.now }
    {
        Kept { left: bytes }
    }
}

// Copies as many bytes as there is room for to the front of the buffer, and says how many.
fn copy_front(from: &[u8], buffer: &mut [u8]) -> usize
    ensures count { result ≡ min (length buffer.new) (length from.now) }
    ensures copied { take result buffer.new ≡ take result from.now }
{
    let count = buffer.len().min(from.len());
    buffer[..count].copy_from_slice(&from[..count]);
    count
}

impl<'a> ByteIn for Kept<'a> {
    ghost contents = { λ s. Some s.left.now };

    ghost has_failed = { λ _. false };

    ghost reads = { λ _. 0 };

    ghost device = { λ _. 0 };

    fn read(&mut self, buffer: &mut [u8]) -> Option<usize> {
        let count = copy_front(self.left, buffer);
        self.left = &self.left[count..];
        Some(count)
    }
}

/// The bytes of the file of classes, input 1, of which the path is given; and the note on the kinds that have no class
/// there.
pub fn read_classes<R: ByteIn>(
    alloc: Global,
    kinds: &GivenKinds<'_>,
    path: &str,
    reader: &mut R,
    note: &mut Vec<u8>,
) -> Result<Vec<u8>, RunFault>
    ensures all { IfOk result (λ classes. IfSome (R.contents reader.old) (λ contents. classes.items ≡ contents)) }
    ensures read { OnOk result (IsRead (seen R.ByteIn reader.old reader.new)) }
    ensures note { IfOk result (λ classes.
        IsNoteOn kinds.now classes.items (shown_bytes (input_name path.now)) note.new.items) }
    ensures err { IfErr result (λ e. MatchFault e (λ n. (n ≡ 1) × HasFailed (seen R.ByteIn reader.old reader.new))
        (λ n. (n ≡ 1) × IsTooLong (R.contents reader.old)) (λ _. ⊥) (λ _. ⊥) (λ _. ⊥) (λ _. ⊥)) }
    ensures unnoted { IfErr result (λ _. note.new.items ≡ note.old.items) }
{
    let classes: Vec<u8> = read_input(alloc, reader, Input::Scd)?;
    match note_at(alloc, kinds, path, &classes) {
        Ok(text) => {
            *note = text;
            Ok(classes)
        }
        Err(error) => Err(RunFault::Memory(error)),
    }
}

// The note on the file of classes of a path.
fn note_at(
    alloc: Global,
    kinds: &GivenKinds<'_>,
    path: &str,
    classes: &[u8],
) -> Result<Vec<u8>, AllocError>
    ensures { IfOk result (λ note. IsNoteOn kinds.now classes.now (shown_bytes (input_name path.now)) note.items) }
{
    let name = shown_name(alloc, path)?;
    note_of(alloc, kinds.codes(), classes, &name)
}

// The name of the input of a path, as a line shows it.
fn shown_name(alloc: Global, path: &str) -> Result<Vec<u8>, AllocError>
    ensures { IfOk result (λ name. name.items ≡ shown_bytes (input_name path.now)) }
{
    let mut name = Vec::new(alloc);
    push_shown(&mut name, input_name(path))?;
    Ok(name)
}
