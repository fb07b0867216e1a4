//! A delivery that is held against a manifest.
ghost use Rattle.std.specs.Prelude.{◌≡◌, ◌⊎◌, ◌++◌, IfErr, IfOk, IsTrue, OnOk, map};
ghost use Rattle.edi_answers.specs.Effects.{effects, inputs, written};
ghost use Rattle.edi_answers.specs.Statuses.{IsPairStatus, OnlyLacksMemory};
ghost use Rattle.edi_answers.specs.WholeInputs.{OfWholeInput};
ghost use Rattle.edi_changes.specs.Lacking.{MatchLack};
ghost use Rattle.edi_manifest.specs.ManifestText.{IsNoManifest};
ghost use Rattle.edi_deliveries.specs.Checks.{AreHeld, IsCheckStatus, IsHeldAgainst, StatesManifest, held_line, held_text, held_word, name_part_of, named_entry};
ghost use Rattle.edi_deliveries.specs.Deliveries.{listings};
ghost use Rattle.edi_deliveries.specs.inner.Checking.{AreChangesSaid, FindsThenHolds};
ghost use Rattle.edi_deliveries.specs.inner.Opening.{opened_of};

use crate::found::FolderNames;
use crate::opening::{OpenDelivery, open_delivery};
use crate::parts::find_lines;
use edi_answers::hashes::push_named;
use edi_answers::report;
use edi_changes::lacking::{Lack, read_at, tell_lack};
use edi_changes::told::{Told, put_told, status_of_changes};
use edi_changes::verdict::verdict_word;
use edi_changes::{Change, Entry, Fate, changes_of};
use edi_files::{Folder, Listing, Progress};
use edi_line::{ByteOut, Text};
use edi_manifest::reading::cut_at;
use edi_manifest::{ManifestLine, read_manifest};
use edi_words::GivenKinds;
use std::alloc::{AllocError, Global};

/// Writes for each name of a manifest, and of the delivery that a path leads to, whether its digest is the one that is
/// found. Gives 0 where each is, and else the greatest of 1 and of what `err` says: of the delivery as for
/// `put_manifest`, and 2 where the input is no manifest. The manifest is read first.
pub fn check_manifest<F: Folder + Listing, O: ByteOut, E: ByteOut + Progress>(
    alloc: Global,
    folder: &F,
    kinds: &GivenKinds<'_>,
    manifest: &str,
    path: &str,
    out: &mut O,
    err: &mut E,
) -> u8
    ensures status { IsPairStatus result }
    ensures answer { IsCheckStatus
        (effects F.Folder F.Reader.ByteIn F.Sink.ByteOut F.NewFile.ByteOut folder.now folder.now)
        (listings F.Listing folder.now) kinds.now manifest.now path.now (written O.ByteOut out.old out.new)
        (written E.ByteOut err.old err.new) result }
{
    match manifest_at(alloc, folder, manifest) {
        Ok(known) => check_against(alloc, folder, kinds, &known, path, out, err),
        Err(lack) => tell_lack(alloc, folder, &lack, manifest, b"no manifest", err),
    }
}

// The lines of the manifest at a path.
fn manifest_at<F: Folder>(alloc: Global, folder: &F, path: &str) -> Result<Vec<ManifestLine>, Lack>
    ensures ok { IfOk result
        (λ known. OfWholeInput (inputs F.Folder F.Reader.ByteIn folder.now) path.now (StatesManifest known.items)) }
    ensures err { IfErr result (MatchLack IsNoManifest (inputs F.Folder F.Reader.ByteIn folder.now) path.now) }
{
    read_at(alloc, folder, path, |text| read_manifest(alloc, text))
}

// Holds the delivery that a path leads to against these lines.
fn check_against<F: Folder + Listing, O: ByteOut, E: ByteOut + Progress>(
    alloc: Global,
    folder: &F,
    kinds: &GivenKinds<'_>,
    known: &[ManifestLine],
    path: &str,
    out: &mut O,
    err: &mut E,
) -> u8
    ensures status { IsPairStatus result }
    ensures answer { IsHeldAgainst
        (effects F.Folder F.Reader.ByteIn F.Sink.ByteOut F.NewFile.ByteOut folder.now folder.now)
        (listings F.Listing folder.now) kinds.now known.now path.now (written O.ByteOut out.old out.new)
        (written E.ByteOut err.old err.new) result }
{
    match open_delivery(alloc, folder, path, err) {
        Ok(opened) => check_open_delivery(alloc, folder, kinds, known, &opened, out, err),
        Err(status) => status,
    }
}

// Holds a delivery that was opened against these lines.
fn check_open_delivery<F: Folder, O: ByteOut, E: ByteOut + Progress>(
    alloc: Global,
    folder: &F,
    kinds: &GivenKinds<'_>,
    known: &[ManifestLine],
    opened: &OpenDelivery,
    out: &mut O,
    err: &mut E,
) -> u8
    ensures status { IsPairStatus result }
    ensures answer { FindsThenHolds (inputs F.Folder F.Reader.ByteIn folder.now) (F.why folder.now) kinds.now
        (opened_of opened.now) known.now (written O.ByteOut out.old out.new) (written E.ByteOut err.old err.new) result
        ⊎ (OnlyLacksMemory (written O.ByteOut out.old out.new) (written E.ByteOut err.old err.new) × (result ≡ 5)) }
{
    let Ok(names) = FolderNames::new(alloc, &opened.names) else {
        return report::out_of_memory(err);
    };
    let mut lines = Vec::new(alloc);
    let found = find_lines(alloc, folder, kinds, opened, &names, &mut lines, err);
    let held = hold(alloc, known, &lines, out, err);
    found.max(held)
}

// Writes what has become of known lines among those that were found, and gives the status of that.
fn hold<O: ByteOut, E: ByteOut>(
    alloc: Global,
    known: &[ManifestLine],
    lines: &[ManifestLine],
    out: &mut O,
    err: &mut E,
) -> u8
    ensures status { IsPairStatus result }
    ensures answer { AreHeld known.now lines.now (written O.ByteOut out.old out.new) (written E.ByteOut err.old err.new)
        result }
    ensures stays { IsTrue (E.has_failed err.old) → IsTrue (E.has_failed err.new) }
{
    match held_lines(alloc, known, lines) {
        Ok(held) => put_told(&held, out, err),
        Err(_) => report::out_of_memory(err),
    }
}

// What is said of known lines and those that were found.
fn held_lines(
    alloc: Global,
    known: &[ManifestLine],
    lines: &[ManifestLine],
) -> Result<Told, AllocError>
    ensures { IfOk result (λ held. AreChangesSaid known.now lines.now held.text.items held.status) }
{
    let before = named_entries(alloc, known)?;
    let after = named_entries(alloc, lines)?;
    let changes = changes_of(alloc, before, after)?;
    Ok(Told {
        text: held_text(alloc, &changes)?,
        status: status_of_changes(&changes),
    })
}

// The digests of lines, by their names and what they are of.
fn named_entries(alloc: Global, lines: &[ManifestLine]) -> Result<Vec<Entry>, AllocError>
    ensures { IfOk result (λ entries. entries.items ≡ map named_entry lines.now) }
{
    let mut entries = Vec::new(alloc);
    for line in lines {
        entries.push(named_entry(alloc, line)?)?;
    }
    Ok(entries)
}

// The digest of a line, by its name and what it is of.
fn named_entry(alloc: Global, line: &ManifestLine) -> Result<Entry, AllocError>
    ensures { IfOk result (λ entry. entry ≡ named_entry line.now) }
{
    let mut subject = Vec::from_slice(alloc, line.name.as_slice())?;
    subject.push(b' ')?;
    subject.extend_from_slice(line.digested.text())?;
    Ok(Entry {
        subject: Text::from_slice(alloc, &subject)?,
        digest: line.digest,
    })
}

// What is said of changes: a line for each name.
fn held_text(alloc: Global, changes: &[Change]) -> Result<Vec<u8>, AllocError>
    ensures { IfOk result (λ text. text.items ≡ held_text changes.now) }
{
    let mut text = Vec::new(alloc);
    for change in changes {
        push_held(alloc, &mut text, change)?;
    }
    Ok(text)
}

// Appends the line on a change.
fn push_held(alloc: Global, text: &mut Vec<u8>, change: &Change) -> Result<(), AllocError>
    ensures { OnOk result (text.new.items ≡ text.old.items ++ held_line change.now) }
{
    let name = name_of(change.subject.as_slice());
    push_named(alloc, text, name, held_word(change.fate))
}

// What stands before the first space.
fn name_of(subject: &[u8]) -> &[u8]
    ensures { result.now ≡ name_part_of subject.now }
{
    match cut_at(subject, b' ') {
        Some((name, _)) => name,
        None => subject,
    }
}

// The word for what has become of a digest.
fn held_word(fate: Fate) -> &'static [u8]
    ensures { result.now ≡ held_word fate }
{
    match fate {
        Fate::New => b"NEW",
        Fate::Gone | Fate::Changed => verdict_word(false),
        Fate::Same => verdict_word(true),
    }
}
