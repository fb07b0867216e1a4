//! The sheets that a command names: whether they are accepted, and whether two state the same plan.
ghost use Rattle.std.specs.Prelude.{◌≡◌, ℕ, List, MatchOption, Option, OnOk, IfOk, IfErr, IfSome, IsTrue, ⊤};
ghost use Rattle.std.specs.Bool.{MatchBool};
ghost use Rattle.edi_compare.specs.Inputs.{input_number};
ghost use Rattle.edi_compare.specs.Bundle.{OfParts};
ghost use Rattle.edi_compare.specs.Runs.{BeforeWriting, IsSheetUnder, IsVerdictOf, WritesAll, WritesFirst};
ghost use Rattle.edi_compare.specs.declared.pairing.Verdict.TheVariants.{Different};
ghost use Rattle.edi_pairing.specs.UnderFiles.{IsComparedUnder, IsPairingFileOf, IsVerifiedUnder, MatchRun, RefusesFile};
ghost use Rattle.edi_answers.specs.Notes.{LeavesNote, LeavesNoteOfFive};
ghost use Rattle.edi_answers.specs.PairRuns.{IsPairRun};
ghost use Rattle.edi_outcome.specs.Words.{FaultHasNames};
ghost use Rattle.edi_words.specs.Requests.{usual_kinds};
ghost use Rattle.edi_answers.specs.Effects.{effects, inputs};
ghost use Rattle.edi_answers.specs.SheetRuns.{FileFault, Gives, IsApart, IsDeviceOf, IsMissing, IsNoPairInput, IsPairInput, IsPairPut, IsPairReplaced, Meets, OfFiles, OfFive, OfPair, PutPairFault, StandardFault, VerifyFileFault};

use crate::classes::{Kept, read_classes};
use crate::pair_inputs::{load_pair, load_pair_and_file};
use edi_compare::{Input, RunFault, Verdict, compare_from, run_bundle, run_check};
use edi_files::{Folder, output};
use edi_line::ByteOut;
use edi_pairing::{Compared, Verified, VerifyRunFault};
use edi_schema::Kinds;
use edi_words::{GivenKinds, PairFiles, SheetFiles, is_standard};
use edi_write::Written;
use std::alloc::Global;

/// The bundle on standard input, to its canonical file.
pub fn bundle<F: Folder, O: ByteOut>(alloc: Global, folder: &F, out: &mut O) -> Result<(), RunFault>
    ensures ok { OnOk result ((contents : Option (List ℕ)) × F.standard folder.now contents
        × IfSome contents (λ b.
        OfParts b (λ s d v. WritesAll usual_kinds s d v (O.contents out.old) (O.contents out.new)))) }
    ensures err { IfErr result (λ e. (contents : Option (List ℕ)) × F.standard folder.now contents
        × StandardFault (inputs F.Folder F.Reader.ByteIn folder.now) contents
        (λ count. IsTrue (O.has_failed out.new) × IfSome contents (λ b. OfParts b (λ s d v.
        WritesFirst usual_kinds s d v count (O.contents out.old) (O.contents out.new)))) e) }
    ensures unwritten { IfErr result (λ e. BeforeWriting e (out.new ≡ out.old)) }
    ensures names { IfErr result (λ e. FaultHasNames e 2) }
{
    let mut input = folder.input();
    run_bundle(alloc, &Kinds::usual(), &mut input, out)
}

/// Whether the sheet of three files is accepted. All are opened before the first is read.
pub fn check<F: Folder>(
    alloc: Global,
    folder: &F,
    kinds: &GivenKinds<'_>,
    files: &SheetFiles<'_>,
    note: &mut Vec<u8>,
) -> Result<(), RunFault>
    ensures ok { OnOk result (OfFiles (inputs F.Folder F.Reader.ByteIn folder.now) files.now (IsSheetUnder kinds.now)) }
    ensures err { IfErr result (FileFault (inputs F.Folder F.Reader.ByteIn folder.now) kinds.now files.now (λ _. ⊥)) }
    ensures names { IfErr result (λ e. FaultHasNames e 4) }
    ensures note { LeavesNote (inputs F.Folder F.Reader.ByteIn folder.now) kinds.now files.now.scd.now note.old.items
        note.new.items result }
{
    let mut scd = open_input(folder, files.scd, Input::Scd)?;
    let mut dic = open_input(folder, files.dic, Input::Dic)?;
    let mut vec = open_input(folder, files.vec, Input::First)?;
    let classes = read_classes(alloc, kinds, files.scd, &mut scd, note)?;
    let mut kept = Kept::new(&classes);
    run_check(alloc, kinds.kinds(), &mut kept, &mut dic, &mut vec)
}

/// Whether the two sheets of four files state the same plan. All are opened before the first is read.
pub fn compare<F: Folder>(
    alloc: Global,
    folder: &F,
    kinds: &GivenKinds<'_>,
    files: &PairFiles<'_>,
    note: &mut Vec<u8>,
) -> Result<Verdict, RunFault>
    ensures { IsPairRun (inputs F.Folder F.Reader.ByteIn folder.now) kinds.now files.now note.old.items note.new.items
        (λ verdict s d a b. IsVerdictOf kinds.now s d a b verdict) result }
{
    let (schema, first, second) = load_pair(alloc, folder, kinds, files, note)?;
    let verdict = compare_from(alloc, &schema, first, second)?;
    Ok(verdict)
}

/// Whether the two sheets of four files state the same plan, with the line at which their canonical files first differ,
/// counted from 1, if they don't. If they do, a pairing that carries the first plan onto the second goes to a path that
/// is none of the four; a file is replaced whole or not at all.
pub fn pair<F: Folder>(
    alloc: Global,
    folder: &mut F,
    kinds: &GivenKinds<'_>,
    files: &PairFiles<'_>,
    out: &str,
    note: &mut Vec<u8>,
) -> Result<Option<u64>, RunFault>
    ensures ok { IfOk result (λ line. MatchOption line (IsPairPut
        (effects F.Folder F.Reader.ByteIn F.Sink.ByteOut F.NewFile.ByteOut folder.old folder.new)
        (IsPairingFileOf kinds.now) files.now out.now)
        (λ at. OfPair (inputs F.Folder F.Reader.ByteIn folder.old) files.now
        (λ s d a b. IsVerdictOf kinds.now s d a b (Different at))
        × IsNoPairInput (F.is_one folder.old) files.now out.now × (folder.new ≡ folder.old))) }
    ensures err { IfErr result
        (PutPairFault (effects F.Folder F.Reader.ByteIn F.Sink.ByteOut F.NewFile.ByteOut folder.old folder.new)
        (IsPairingFileOf kinds.now) kinds.now files.now out.now) }
    ensures replaced { IsPairReplaced
        (effects F.Folder F.Reader.ByteIn F.Sink.ByteOut F.NewFile.ByteOut folder.old folder.new)
        (IsPairingFileOf kinds.now) files.now out.now }
    ensures names { IfErr result (λ e. FaultHasNames e 5) }
    ensures note { LeavesNote (inputs F.Folder F.Reader.ByteIn folder.old) kinds.now files.now.scd.now note.old.items
        note.new.items result }
{
    if is_pair_input(folder, files, out) {
        return Err(RunFault::Write(Written { count: 0 }));
    }
    match compare_to_file(alloc, folder, kinds, files, note) {
        Ok(Compared::Same { file }) => match output::put(folder, out, &file) {
            Ok(()) => Ok(None),
            Err(fault) => Err(fault),
        },
        Ok(Compared::Different { line }) => Ok(Some(line)),
        Err(fault) => Err(fault),
    }
}

/// Whether a file states a pairing that carries the plan of the first sheet onto that of the second, and why it
/// doesn't. All five files are opened before the first is read, and all are read before one is looked at.
pub fn verify<F: Folder>(
    alloc: Global,
    folder: &F,
    kinds: &GivenKinds<'_>,
    files: &PairFiles<'_>,
    pairing: &str,
    note: &mut Vec<u8>,
) -> Result<Verified, VerifyRunFault>
    ensures ok { IfOk result (λ answer. OfFive (inputs F.Folder F.Reader.ByteIn folder.now) files.now pairing.now
        (λ s d a b f. IsVerifiedUnder kinds.now s d a b f answer)) }
    ensures err { IfErr result (λ e. MatchRun e (VerifyFileFault (inputs F.Folder F.Reader.ByteIn folder.now) kinds.now
        files.now pairing.now) (λ at why. OfFive (inputs F.Folder F.Reader.ByteIn folder.now) files.now pairing.now
        (λ s d a b f. RefusesFile kinds.now s d a b f at why))) }
    ensures names { IfErr result (λ e. MatchRun e (λ f. FaultHasNames f 6) (λ _ _. ⊤)) }
    ensures note { LeavesNoteOfFive (inputs F.Folder F.Reader.ByteIn folder.now) kinds.now files.now.scd.now
        note.old.items note.new.items result }
{
    let ((schema, first, second), file) = load_pair_and_file(
        alloc, folder, kinds, files, pairing, note,
    )?;
    let answer = edi_pairing::verify(alloc, &schema, first, second, &file)?;
    Ok(answer)
}

// What comparing the two sheets of four files answers, with a pairing's file.
fn compare_to_file<F: Folder>(
    alloc: Global,
    folder: &F,
    kinds: &GivenKinds<'_>,
    files: &PairFiles<'_>,
    note: &mut Vec<u8>,
) -> Result<Compared, RunFault>
    ensures { IsPairRun (inputs F.Folder F.Reader.ByteIn folder.now) kinds.now files.now note.old.items note.new.items
        (λ compared s d a b. IsComparedUnder kinds.now s d a b compared) result }
{
    let (schema, first, second) = load_pair(alloc, folder, kinds, files, note)?;
    let compared = edi_pairing::compare_to_file(alloc, &schema, first, second)?;
    Ok(compared)
}

/// An input that is there to read.
pub fn open_input<F: Folder>(folder: &F, path: &str, input: Input) -> Result<F::Reader, RunFault>
    ensures ok { IfOk result (λ file.
        Gives (inputs F.Folder F.Reader.ByteIn folder.now) path.now (F.Reader.contents file)) }
    ensures device { IfOk result (λ file.
        IsDeviceOf (inputs F.Folder F.Reader.ByteIn folder.now) path.now (F.Reader.device file)) }
    ensures err { IfErr result (λ e. IsMissing (inputs F.Folder F.Reader.ByteIn folder.now) path.now
        × (e ≡ RunFault.Read (input_number input))) }
{
    if is_standard(path) {
        return Ok(folder.input());
    }
    match folder.open(path) {
        Some(file) => Ok(file),
        None => Err(RunFault::Read {
            input: input.number(),
        }),
    }
}

/// Whether a path is that of an input of a comparison, or leads to its file.
pub fn is_pair_input<F: Folder>(folder: &F, files: &PairFiles<'_>, out: &str) -> bool
    ensures { MatchBool result (IsPairInput (F.is_one folder.now) files.now out.now)
        (IsNoPairInput (F.is_one folder.now) files.now out.now) }
{
    meets(folder, files.scd, out)
        || meets(folder, files.dic, out)
        || meets(folder, files.first, out)
        || meets(folder, files.second, out)
}

/// Whether the path of an input is this one, or leads to its file.
pub fn meets<F: Folder>(folder: &F, path: &str, out: &str) -> bool
    ensures { MatchBool result (Meets (F.is_one folder.now) out.now path.now)
        (IsApart (F.is_one folder.now) out.now path.now) }
{
    if is_standard(path) {
        return false;
    }
    folder.is_one_file(path, out) || path == out
}
