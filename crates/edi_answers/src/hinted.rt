//! The hints on the file of a refused sheet.
ghost use Rattle.std.specs.Prelude.{◌≡◌, IfOk, MatchOption, None, OnOk, Some, map};
ghost use Rattle.std.specs.Bool.{MatchBool};
ghost use Rattle.edi_record.specs.Texts.{IsPointer, PointerText, shown};
ghost use Rattle.edi_answers.specs.Effects.{inputs};
ghost use Rattle.edi_answers.specs.Hinted.{AreElsewhereLines, AreFaultHints, AreHintsAtPath, AreHintsElsewhere, AreSheetHints, HasRecord, IsElsewhereLine, IsReadAgain, IsUnreadable, LacksRecord};
ghost use Rattle.edi_answers.specs.WholeInputs.{OfWholeInput};
ghost use Rattle.edi_answers.specs.inner.Hinted.{IsOther};

use crate::whole::read_path;
use edi_compare::{Fault, RunFault};
use edi_explain::explained::NamedFile;
use edi_explain::{elsewhere_hint, has_named, hints_on_refused, stray_ends};
use edi_files::{Destination, Folder};
use edi_record::Pointer;
use edi_words::is_standard;
use std::alloc::{AllocError, Global};

/// The rule that all ends of links are of one lot and subset.
const ONE_SUBSET: u16 = 304;

// The path of a refused sheet, and those of its siblings, in a folder.
#[derive(Drop)]
struct RefusedSheet<'a, F> {
    alloc: Global,
    folder: &'a F,
    siblings: &'a [&'a str],
    path: &'a str,
}

/// The hints behind a fault of the sheet of a path: of a refused sheet those on its file, and where its links point at
/// records of its siblings, in which of them these are. Siblings are the VEC files of its lot, where that is known.
pub fn hints_at<F: Folder>(
    alloc: Global,
    folder: &F,
    siblings: &[&str],
    fault: &RunFault,
    path: &str,
) -> Result<Vec<u8>, AllocError>
    ensures { IfOk result (λ lines. AreFaultHints (inputs F.Folder F.Reader.ByteIn folder.now)
        (map (λ p. p.now) siblings.now) fault.now path.now lines.items) }
{
    match fault {
        RunFault::First(fault) => {
            let sheet = RefusedSheet {
                alloc,
                folder,
                siblings,
                path,
            };
            sheet.hints_at_path(fault)
        }
        RunFault::Memory(_)
        | RunFault::Read { .. }
        | RunFault::TooLong { .. }
        | RunFault::Schema(_)
        | RunFault::Second(_)
        | RunFault::Write(_) => Ok(Vec::new(alloc)),
    }
}

// What is read once more of a path: nothing of standard input, nor of a device or a pipe, whose bytes are gone; and
// nothing where the file can't be read.
fn read_again<F: Folder>(
    alloc: Global,
    folder: &F,
    path: &str,
) -> Result<Option<Vec<u8>>, AllocError>
    ensures { IfOk result (λ found. MatchOption found
        (IsReadAgain (inputs F.Folder F.Reader.ByteIn folder.now) path.now None)
        (λ bytes. IsReadAgain (inputs F.Folder F.Reader.ByteIn folder.now) path.now (Some bytes.items))) }
{
    if is_standard(path) {
        return Ok(None);
    }
    match folder.target(path) {
        Some(Destination::File) => read_file(alloc, folder, path),
        Some(Destination::Stream) | None => Ok(None),
    }
}

// The bytes of the file of a path, or nothing where it can't be read.
fn read_file<F: Folder>(
    alloc: Global,
    folder: &F,
    path: &str,
) -> Result<Option<Vec<u8>>, AllocError>
    ensures { IfOk result (λ found. MatchOption found
        (IsUnreadable (inputs F.Folder F.Reader.ByteIn folder.now) path.now)
        (λ bytes. OfWholeInput (inputs F.Folder F.Reader.ByteIn folder.now) path.now
        (λ contents. bytes.items ≡ contents))) }
{
    match read_path(alloc, folder, path) {
        Ok(bytes) => Ok(Some(bytes)),
        Err(fault) => {
            but_memory(&fault)?;
            Ok(None)
        }
    }
}

// Whether a fault is lack of memory, as an error.
fn but_memory(fault: &RunFault) -> Result<(), AllocError>
    ensures { OnOk result (IsOther fault.now) }
{
    match fault {
        RunFault::Memory(error) => Err(*error),
        RunFault::Read { .. }
        | RunFault::TooLong { .. }
        | RunFault::Schema(_)
        | RunFault::First(_)
        | RunFault::Second(_)
        | RunFault::Write(_) => Ok(()),
    }
}

impl<'a, F: Folder> RefusedSheet<'a, F> {
    // The hints on what is read once more of a path.
    fn hints_at_path(&self, fault: &Fault) -> Result<Vec<u8>, AllocError>
        ensures { IfOk result (λ lines. AreHintsAtPath (inputs F.Folder F.Reader.ByteIn self.now.folder.now)
            (map (λ p. p.now) self.now.siblings.now) fault.now self.now.path.now lines.items) }
    {
        match read_again(self.alloc, self.folder, self.path)? {
            Some(bytes) => self.sheet_hints(fault, &bytes),
            None => Ok(Vec::new(self.alloc)),
        }
    }

    // The hints on the file of a refused sheet, and on records of its siblings.
    fn sheet_hints(&self, fault: &Fault, bytes: &[u8]) -> Result<Vec<u8>, AllocError>
        ensures { IfOk result (λ lines. AreSheetHints (inputs F.Folder F.Reader.ByteIn self.now.folder.now)
            (map (λ p. p.now) self.now.siblings.now) fault.now self.now.path.now bytes.now lines.items) }
    {
        let name = self.path.as_bytes();
        let mut lines = hints_on_refused(self.alloc, &NamedFile { name, bytes })?;
        let elsewhere = self.hints_elsewhere(fault, bytes)?;
        lines.extend_from_slice(&elsewhere)?;
        Ok(lines)
    }

    // Where a sheet is refused by 304, the lines on records of its siblings.
    fn hints_elsewhere(&self, fault: &Fault, bytes: &[u8]) -> Result<Vec<u8>, AllocError>
        ensures { IfOk result (λ lines. AreHintsElsewhere (inputs F.Folder F.Reader.ByteIn self.now.folder.now)
            (map (λ p. p.now) self.now.siblings.now) fault.now self.now.path.now bytes.now lines.items) }
    {
        match fault {
            Fault::Entry { rule, .. } if *rule == ONE_SUBSET => self.elsewhere_lines(bytes),
            Fault::Entry { .. } | Fault::Line { .. } | Fault::Memory(_) => Ok(Vec::new(self.alloc)),
        }
    }

    // Where a sheet has ends of two lots or subsets, the lines on the records that the first ends of the two name.
    fn elsewhere_lines(&self, bytes: &[u8]) -> Result<Vec<u8>, AllocError>
        ensures { IfOk result (λ lines. AreElsewhereLines (inputs F.Folder F.Reader.ByteIn self.now.folder.now)
            (map (λ p. p.now) self.now.siblings.now) self.now.path.now bytes.now lines.items) }
    {
        let Some(ends) = stray_ends(self.alloc, bytes)? else {
            return Ok(Vec::new(self.alloc));
        };
        let mut lines = self.line_of_end(&ends.stray)?;
        let of_home = self.line_of_end(&ends.home)?;
        lines.extend_from_slice(&of_home)?;
        Ok(lines)
    }

    // The line on the record that an end names.
    fn line_of_end(&self, end: &[u8]) -> Result<Vec<u8>, AllocError>
        ensures { IfOk result (λ line. (p : PointerText) → IsPointer end.now p
            → IsElsewhereLine (inputs F.Folder F.Reader.ByteIn self.now.folder.now) self.now.path.now p
            (map (λ p. p.now) self.now.siblings.now) line.items) }
    {
        match Pointer::read(end) {
            Some(pointer) => self.elsewhere_line(pointer),
            None => Ok(Vec::new(self.alloc)),
        }
    }

    // The line on the first of these sheets that has the record that a pointer names, if one does.
    fn elsewhere_line(&self, pointer: Pointer<'_>) -> Result<Vec<u8>, AllocError>
        ensures { IfOk result (λ line. IsElsewhereLine (inputs F.Folder F.Reader.ByteIn self.now.folder.now)
            self.now.path.now (shown pointer.entry) (map (λ p. p.now) self.now.siblings.now) line.items) }
    {
        for other in self.siblings {
            if self.has_record(pointer, other)? {
                return elsewhere_hint(self.alloc, self.path.as_bytes(), pointer, other.as_bytes());
            }
        }
        Ok(Vec::new(self.alloc))
    }

    // Whether the sheet of another path has the record that a pointer names.
    fn has_record(&self, pointer: Pointer<'_>, other: &str) -> Result<bool, AllocError>
        ensures { IfOk result (λ t. MatchBool t
            (HasRecord (inputs F.Folder F.Reader.ByteIn self.now.folder.now) self.now.path.now (shown pointer.entry)
            other.now)
            (LacksRecord (inputs F.Folder F.Reader.ByteIn self.now.folder.now) self.now.path.now (shown pointer.entry)
            other.now)) }
    {
        if other == self.path {
            return Ok(false);
        }
        match read_again(self.alloc, self.folder, other)? {
            Some(bytes) => has_named(self.alloc, &bytes, pointer),
            None => Ok(false),
        }
    }
}
