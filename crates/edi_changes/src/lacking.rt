//! Why there isn't at a path what is read there.

ghost use Rattle.std.specs.Prelude.{IfErr, IfOk, IsTrue, None, Some};
ghost use Rattle.std.proofs.Common.{Ok};
ghost use Rattle.std.specs.Fn.{FnOnceReturnsAt};
ghost use Rattle.edi_answers.specs.Effects.{inputs, written};
ghost use Rattle.edi_answers.specs.Statuses.{IsPairStatus};
ghost use Rattle.edi_answers.specs.WholeInputs.{OfWholeInput};
ghost use Rattle.edi_changes.specs.Lacking.{MatchLack, TellsLack};

use edi_answers::hashes::{line_of_path, tell_fault};
use edi_answers::report;
use edi_answers::whole::read_path;
use edi_compare::RunFault;
use edi_files::Folder;
use edi_line::ByteOut;
use std::alloc::{AllocError, Global};

const REFUSED_STATUS: u8 = 2;

/// Why the input of a path isn't what is read there.
#[derive(Drop)]
pub enum Lack {
    /// It can't be read.
    Unread(RunFault),
    /// It is something else.
    Other,
}

/// What the text of the input of a path is read as; or why it is nothing of the kind.
pub fn read_at<F: Folder, T, R: FnOnce(&[u8]) -> Result<Option<T>, AllocError>>(
    alloc: Global,
    folder: &F,
    path: &str,
    read: R,
) -> Result<T, Lack>
    requires { R.IsAlwaysCallable read }
    ensures ok { IfOk result (λ found. OfWholeInput (inputs F.Folder F.Reader.ByteIn folder.now) path.now
        (λ text. FnOnceReturnsAt R.FnOnce read text (Ok (Some found)))) }
    ensures err { IfErr result (MatchLack (λ text. FnOnceReturnsAt R.FnOnce read text (Ok None))
        (inputs F.Folder F.Reader.ByteIn folder.now) path.now) }
{
    match read_path(alloc, folder, path) {
        Ok(bytes) => match read(&bytes) {
            Ok(Some(found)) => Ok(found),
            Ok(None) => Err(Lack::Other),
            Err(error) => Err(Lack::Unread(RunFault::Memory(error))),
        },
        Err(fault) => Err(Lack::Unread(fault)),
    }
}

/// Says why the input of a path isn't what is read there, in these words where it is something else, and gives the
/// status.
pub fn tell_lack<F: Folder, E: ByteOut>(
    alloc: Global,
    folder: &F,
    lack: &Lack,
    path: &str,
    words: &[u8],
    err: &mut E,
) -> u8
    ensures status { IsPairStatus result }
    ensures told { TellsLack words.now (F.why folder.now) (written E.ByteOut err.old err.new) path.now lack.now result }
    ensures stays { IsTrue (E.has_failed err.old) → IsTrue (E.has_failed err.new) }
{
    match lack {
        Lack::Unread(fault) => tell_fault(alloc, folder, fault, path, err),
        Lack::Other => match line_of_path(alloc, path, words) {
            Ok(line) => {
                report::warn(err, &line);
                REFUSED_STATUS
            }
            Err(_) => report::out_of_memory(err),
        },
    }
}
