//! What `changed` answers.
ghost use Rattle.std.specs.Prelude.{◌≡◌, ◌⊎◌, IfErr, IfOk};
ghost use Rattle.edi_answers.specs.Effects.{effects, inputs, written};
ghost use Rattle.edi_answers.specs.Statuses.{IsPairStatus, OnlyLacksMemory};
ghost use Rattle.edi_answers.specs.WholeInputs.{OfWholeInput};
ghost use Rattle.edi_changes.specs.Lacking.{MatchLack};
ghost use Rattle.edi_changes.specs.Stated.{StatesDigests, StatesNoDigests};
ghost use Rattle.edi_changes.specs.Statuses.{ChangesSince, IsChangedStatus, TellsChangesOf};
ghost use Rattle.edi_changes.specs.inner.Answering.{IsToldOf};

use crate::changes::changes_of;
use crate::entry::Entry;
use crate::lacking::{Lack, read_at, tell_lack};
use crate::stated::read_digests;
use crate::told::{Told, changes_text, put_told, status_of_changes};
use edi_answers::report;
use edi_files::Folder;
use edi_line::ByteOut;
use std::alloc::{AllocError, Global};

const NEITHER: &[u8] = b"neither a manifest nor a list of digests";

/// Writes which digests of two inputs are new, gone or changed, and how many. Gives 0 where none is, and else 1; 2
/// where an input states no digests, 4 where one can't be read or `out` fails, and 5 where memory runs out, which `err`
/// says. The second input is opened once the first is read.
pub fn tell_changes_between<F: Folder, O: ByteOut, E: ByteOut>(
    alloc: Global,
    folder: &F,
    before: &str,
    after: &str,
    out: &mut O,
    err: &mut E,
) -> u8
    ensures status { IsPairStatus result }
    ensures answer { IsChangedStatus
        (effects F.Folder F.Reader.ByteIn F.Sink.ByteOut F.NewFile.ByteOut folder.now folder.now)
        (written O.ByteOut out.old out.new) (written E.ByteOut err.old err.new) before.now after.now result }
{
    match entries_at(alloc, folder, before) {
        Ok(old) => tell_changes_since(alloc, folder, old, after, out, err),
        Err(lack) => tell_lack(alloc, folder, &lack, before, NEITHER, err),
    }
}

// Writes what has changed since a list of digests.
fn tell_changes_since<F: Folder, O: ByteOut, E: ByteOut>(
    alloc: Global,
    folder: &F,
    old: Vec<Entry>,
    after: &str,
    out: &mut O,
    err: &mut E,
) -> u8
    ensures status { IsPairStatus result }
    ensures answer { ChangesSince
        (effects F.Folder F.Reader.ByteIn F.Sink.ByteOut F.NewFile.ByteOut folder.now folder.now)
        (written O.ByteOut out.old out.new) (written E.ByteOut err.old err.new) old.items after.now result }
{
    match entries_at(alloc, folder, after) {
        Ok(new) => tell_changes(alloc, old, new, out, err),
        Err(lack) => tell_lack(alloc, folder, &lack, after, NEITHER, err),
    }
}

// The digests that the input of a path states.
fn entries_at<F: Folder>(alloc: Global, folder: &F, path: &str) -> Result<Vec<Entry>, Lack>
    ensures ok { IfOk result (λ entries.
        OfWholeInput (inputs F.Folder F.Reader.ByteIn folder.now) path.now (λ b. StatesDigests b entries.items)) }
    ensures err { IfErr result (MatchLack StatesNoDigests (inputs F.Folder F.Reader.ByteIn folder.now) path.now) }
{
    read_at(alloc, folder, path, |text| read_digests(alloc, text))
}

// Writes what has changed between two lists of digests.
fn tell_changes<O: ByteOut, E: ByteOut>(
    alloc: Global,
    old: Vec<Entry>,
    new: Vec<Entry>,
    out: &mut O,
    err: &mut E,
) -> u8
    ensures status { IsPairStatus result }
    ensures answer { TellsChangesOf (written O.ByteOut out.old out.new) (written E.ByteOut err.old err.new)
        old.items new.items result
        ⊎ (OnlyLacksMemory (written O.ByteOut out.old out.new) (written E.ByteOut err.old err.new) × (result ≡ 5)) }
{
    match told_of(alloc, old, new) {
        Ok(told) => put_told(&told, out, err),
        Err(_) => report::out_of_memory(err),
    }
}

// What is said of the changes between two lists of digests.
fn told_of(alloc: Global, old: Vec<Entry>, new: Vec<Entry>) -> Result<Told, AllocError>
    ensures { IfOk result (λ told. IsToldOf old.items new.items told.text.items told.status) }
{
    let changes = changes_of(alloc, old, new)?;
    Ok(Told {
        text: changes_text(alloc, &changes)?,
        status: status_of_changes(&changes),
    })
}
