//! The answers of the commands that only read sheets, and of the one that writes a pairing.
ghost use Rattle.std.specs.Prelude.{◌≡◌, ◌<◌, MatchOption};
ghost use Rattle.edi_answers.specs.Effects.{effects, inputs, written};
ghost use Rattle.edi_answers.specs.Notes.{HasNoteOf};
ghost use Rattle.edi_answers.specs.inner.Outcome.{outcome_for, paired_outcome, verified_outcome};
ghost use Rattle.edi_answers.specs.Statuses.{IsBundleStatus, IsCompareStatus, IsFileStatus, IsPairStatus, IsPairingStatus, IsSheetStatus, IsVerifyStatus};

use crate::form::AnswerForm;
use crate::{report, sheets};
use edi_compare::{RunFault, Verdict};
use edi_files::Folder;
use edi_line::ByteOut;
use edi_outcome::Outcome;
use edi_pairing::{Verified, VerifyRunFault};
use edi_words::{GivenKinds, PairFiles, SheetFiles};
use std::alloc::Global;

/// The bundle on standard input, of which only a fault has a line.
pub fn bundle<F: Folder, O: ByteOut, E: ByteOut>(
    alloc: Global,
    folder: &F,
    out: &mut O,
    err: &mut E,
) -> u8
    ensures status { IsSheetStatus result }
    ensures answer { IsBundleStatus
        (effects F.Folder F.Reader.ByteIn F.Sink.ByteOut F.NewFile.ByteOut folder.now folder.now)
        (written O.ByteOut out.old out.new) (written E.ByteOut err.old err.new) result }
{
    match sheets::bundle(alloc, folder, out) {
        Ok(()) => 0,
        Err(fault) => report::answer(
            alloc,
            folder,
            out,
            err,
            AnswerForm::Words,
            &Outcome::Fault(fault),
            &["-", "-"],
        ),
    }
}

/// Says in a form whether a sheet is accepted.
pub fn check<F: Folder, O: ByteOut, E: ByteOut>(
    alloc: Global,
    folder: &F,
    kinds: &GivenKinds<'_>,
    files: &SheetFiles<'_>,
    form: AnswerForm,
    out: &mut O,
    err: &mut E,
    note: &mut Vec<u8>,
) -> u8
    ensures status { IsSheetStatus result }
    ensures answer { IsFileStatus
        (effects F.Folder F.Reader.ByteIn F.Sink.ByteOut F.NewFile.ByteOut folder.now folder.now)
        (written O.ByteOut out.old out.new) (written E.ByteOut err.old err.new) kinds.now files.now form result }
    ensures note { HasNoteOf
        (inputs F.Folder F.Reader.ByteIn folder.now) kinds.now files.now.scd.now result note.old.items note.new.items }
{
    let paths = [files.scd, files.dic, files.vec, "-"];
    match sheets::check(alloc, folder, kinds, files, note) {
        Ok(()) => report::answer(alloc, folder, out, err, form, &Outcome::Accepted, &paths),
        Err(fault) => report::answer(
            alloc,
            folder,
            out,
            err,
            form,
            &Outcome::Fault(fault),
            &paths,
        ),
    }
}

/// Says in a form whether two sheets state the same plan, and puts a pairing of them at a path, where one is named.
pub fn compare_or_pair<F: Folder, O: ByteOut, E: ByteOut>(
    alloc: Global,
    folder: &mut F,
    kinds: &GivenKinds<'_>,
    files: &PairFiles<'_>,
    form: AnswerForm,
    pairing: Option<&str>,
    out: &mut O,
    err: &mut E,
    note: &mut Vec<u8>,
) -> u8
    ensures status { IsPairStatus result }
    ensures answer { MatchOption pairing.entry ((folder.new ≡ folder.old)
        × IsCompareStatus (effects F.Folder F.Reader.ByteIn F.Sink.ByteOut F.NewFile.ByteOut folder.old folder.new)
        (written O.ByteOut out.old out.new) (written E.ByteOut err.old err.new) kinds.now files.now form result)
        (λ path. IsPairingStatus
        (effects F.Folder F.Reader.ByteIn F.Sink.ByteOut F.NewFile.ByteOut folder.old folder.new)
        (written O.ByteOut out.old out.new) (written E.ByteOut err.old err.new) kinds.now files.now form path.now
        result) }
    ensures note { HasNoteOf
        (inputs F.Folder F.Reader.ByteIn folder.old) kinds.now files.now.scd.now result note.old.items note.new.items }
{
    match pairing {
        Some(path) => {
            let paths = [files.scd, files.dic, files.first, files.second, path];
            let outcome = outcome_of_paired(sheets::pair(alloc, folder, kinds, files, path, note));
            report::answer(alloc, folder, out, err, form, &outcome, &paths)
        }
        None => {
            let paths = [files.scd, files.dic, files.first, files.second, "-"];
            let outcome = outcome_of(sheets::compare(alloc, folder, kinds, files, note));
            report::answer(alloc, folder, out, err, form, &outcome, &paths)
        }
    }
}

/// Says in a form whether a file states a pairing that carries the one plan onto the other, and why it doesn't.
pub fn verify<F: Folder, O: ByteOut, E: ByteOut>(
    alloc: Global,
    folder: &F,
    kinds: &GivenKinds<'_>,
    files: &PairFiles<'_>,
    form: AnswerForm,
    pairing: &str,
    out: &mut O,
    err: &mut E,
    note: &mut Vec<u8>,
) -> u8
    ensures status { IsPairStatus result }
    ensures answer { IsVerifyStatus
        (effects F.Folder F.Reader.ByteIn F.Sink.ByteOut F.NewFile.ByteOut folder.now folder.now)
        (written O.ByteOut out.old out.new) (written E.ByteOut err.old err.new) kinds.now files.now form pairing.now
        result }
    ensures note { HasNoteOf
        (inputs F.Folder F.Reader.ByteIn folder.now) kinds.now files.now.scd.now result note.old.items note.new.items }
{
    let paths = [
        files.scd,
        files.dic,
        files.first,
        files.second,
        pairing,
        "-",
    ];
    let outcome = outcome_of_verified(sheets::verify(alloc, folder, kinds, files, pairing, note));
    report::answer(alloc, folder, out, err, form, &outcome, &paths)
}

// What a comparison to a pairing's file came to.
fn outcome_of_paired(paired: Result<Option<u64>, RunFault>) -> Outcome
    ensures { result ≡ paired_outcome paired }
{
    match paired {
        Ok(None) => Outcome::Same,
        Ok(Some(line)) => Outcome::Different(line),
        Err(fault) => Outcome::Fault(fault),
    }
}

// What the check of a pairing's file came to.
fn outcome_of_verified(verified: Result<Verified, VerifyRunFault>) -> Outcome
    ensures { result ≡ verified_outcome verified }
{
    match verified {
        Ok(Verified::Carries) => Outcome::Pairs,
        Ok(Verified::Fails(why)) => Outcome::Unpaired(why),
        Err(VerifyRunFault::Run(fault)) => Outcome::Fault(fault),
        Err(VerifyRunFault::Pairing { at, why }) => Outcome::WrongPairing(at, why),
    }
}

// What a comparison came to.
fn outcome_of(compared: Result<Verdict, RunFault>) -> Outcome
    ensures { result ≡ outcome_for compared }
{
    match compared {
        Ok(Verdict::Same(_)) => Outcome::Same,
        Ok(Verdict::Different { line }) => Outcome::Different(line),
        Err(fault) => Outcome::Fault(fault),
    }
}
