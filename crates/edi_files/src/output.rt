//! Where a canonical file goes: to a file, which is replaced whole or not at all, or to a stream.
ghost use Rattle.std.specs.Prelude.{◌≡◌, ◌≤◌, ℕ, Option, IfErr, OnOk, IsTrue, length, take};
ghost use Rattle.std.specs.Io.KnownBytes.{Appends};
ghost use Rattle.edi_compare.specs.Runs.{BeforeWriting, MatchFault};
ghost use Rattle.edi_files.specs.Folders.{Goes, IsSpare};
ghost use Rattle.edi_files.specs.Outputs.{IsFilled, IsUnmade, IsWholeOrNew, Pours, Reaches, StopsAfter};

use crate::folder::{Destination, FileDraft, Folder, OutFault};
use edi_compare::RunFault;
use edi_write::{Written, put_all};

/// Puts the bytes at a path. A file is replaced whole or not at all: at any moment the path has the file that it had,
/// or all the bytes. A device or a pipe gets the bytes as they come.
pub fn put<F: Folder>(folder: &mut F, path: &str, bytes: &[u8]) -> Result<(), RunFault>
    ensures ok { OnOk result (Reaches F.Sink (F.holds folder.new path.now) (F.sinks folder.old path.now)
        (F.ends folder.new path.now) F.Sink.contents bytes.now) }
    ensures err { IfErr result (λ e. MatchFault e (λ _. ⊥) (λ _. ⊥) (λ _. ⊥) (λ _. ⊥) (λ _. ⊥)
        (λ count. StopsAfter F.Sink (IsUnmade F.NewFile (F.unwritable folder.new path.now) F.NewFile.has_failed)
        (F.sinks folder.old path.now) F.Sink.contents F.Sink.has_failed count bytes.now)) }
    ensures unmade { IfErr result (λ e. BeforeWriting e (folder.new ≡ folder.old)) }
    ensures replaced { F.tells folder.old
        → Goes (F.moment folder.old) (F.moment folder.new) (F.left_since folder.old) (F.left_since folder.new)
        (IsWholeOrNew path.now (IsSpare (F.is_stray folder.old) (F.moment folder.old) (F.left_since folder.old))
        (λ c. c ≡ bytes.now)) }
{
    match folder.target(path) {
        Some(Destination::File) => replace(folder, path, bytes),
        Some(Destination::Stream) => pour(folder, path, bytes),
        None => Err(RunFault::Write(Written { count: 0 })),
    }
}

// Replaces a file: the bytes go to a draft, which then takes the place of the file.
fn replace<F: Folder>(folder: &mut F, path: &str, bytes: &[u8]) -> Result<(), RunFault>
    requires { F.leads folder.old path.now Destination.File }
    ensures ok { OnOk result (IsFilled (F.holds folder.new path.now) bytes.now) }
    ensures err { IfErr result (λ e. MatchFault e (λ _. ⊥) (λ _. ⊥) (λ _. ⊥) (λ _. ⊥) (λ _. ⊥)
        (λ count. (count ≡ 0) × IsUnmade F.NewFile (F.unwritable folder.new path.now) F.NewFile.has_failed)) }
    ensures unmade { IfErr result (λ e. BeforeWriting e (folder.new ≡ folder.old)) }
    ensures replaced { F.tells folder.old
        → Goes (F.moment folder.old) (F.moment folder.new) (F.left_since folder.old) (F.left_since folder.new)
        (IsWholeOrNew path.now (IsSpare (F.is_stray folder.old) (F.moment folder.old) (F.left_since folder.old))
        (λ c. c ≡ bytes.now)) }
{
    let FileDraft { mut file, name } = match folder.draft(path) {
        Ok(draft) => draft,
        Err(OutFault::Memory(error)) => return Err(RunFault::Memory(error)),
        Err(OutFault::Unwritable) => return Err(RunFault::Write(Written { count: 0 })),
    };
    match put_all(&mut file, bytes) {
        Ok(()) => {
            if folder.publish(file, name, path) {
                Ok(())
            } else {
                Err(RunFault::Write(Written { count: 0 }))
            }
        }
        Err(_) => {
            folder.discard(file, name);
            Err(RunFault::Write(Written { count: 0 }))
        }
    }
}

// Writes to the stream of a path.
fn pour<F: Folder>(folder: &F, path: &str, bytes: &[u8]) -> Result<(), RunFault>
    requires { F.leads folder.now path.now Destination.Stream }
    ensures ok { OnOk result
        (Pours F.Sink (F.sinks folder.now path.now) (F.ends folder.now path.now) F.Sink.contents bytes.now) }
    ensures err { IfErr result (λ e. MatchFault e (λ _. ⊥) (λ _. ⊥) (λ _. ⊥) (λ _. ⊥) (λ _. ⊥)
        (λ count. StopsAfter F.Sink (F.unwritable folder.now path.now) (F.sinks folder.now path.now) F.Sink.contents
        F.Sink.has_failed count bytes.now)) }
{
    let Some(mut sink) = folder.sink(path) else {
        return Err(RunFault::Write(Written { count: 0 }));
    };
    match put_all(&mut sink, bytes) {
        Ok(()) => {
            folder.end(path, sink);
            Ok(())
        }
        Err(written) => {
            folder.give_up(sink);
            Err(RunFault::Write(written))
        }
    }
}
