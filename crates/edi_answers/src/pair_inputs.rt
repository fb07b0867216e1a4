//! The inputs of a run over two sheets: opened, read, and loaded under their schema.
ghost use Rattle.std.specs.Prelude.{◌≡◌, ◌<◌, ℕ, IfErr, IfOk};
ghost use Rattle.edi_compare.specs.Inputs.{input_number};
ghost use Rattle.edi_compare.specs.Runs.{MatchFault, RefusesSchema};
ghost use Rattle.edi_outcome.specs.Status.{status_of_fault};
ghost use Rattle.edi_outcome.specs.Words.{FaultHasNames};
ghost use Rattle.edi_answers.specs.Effects.{inputs};
ghost use Rattle.edi_answers.specs.Notes.{GivesNote, LeavesNote};
ghost use Rattle.edi_answers.specs.PairRuns.{IsPairRun};
ghost use Rattle.edi_answers.specs.SheetRuns.{FirstOfFourMissing, OfPair, VerifyFileFault, pair_path_at};
ghost use Rattle.edi_answers.specs.PairInputs.{ArePairBytes, ArePairInputs, ArePairReaders, AreUnread, IsLoadedPair, IsOpenedAt, IsReadAt, IsUnreadAt};

use crate::classes::read_classes;
use crate::sheets::open_input;
use edi_compare::{Input, RunFault, load_or_fault, read_input};
use edi_files::Folder;
use edi_line::{FileBytes, Gathering, Pieces};
use edi_schema::Schema;
use edi_words::{GivenKinds, PairFiles};
use std::alloc::Global;

/// A schema, and two sheets that were read and stand under it.
pub type LoadedPair = (Schema, FileBytes<'static>, FileBytes<'static>);

// What was read of the file of classes, and the other three inputs, which are open.
#[derive(Drop)]
struct PairInputs<R> {
    classes: Vec<u8>,
    dic: R,
    first: R,
    second: R,
}

// Four inputs, which are open.
#[derive(Drop)]
struct PairReaders<R> {
    scd: R,
    dic: R,
    first: R,
    second: R,
}

// What was read of four inputs.
#[derive(Drop)]
struct PairBytes {
    classes: Vec<u8>,
    dic: Vec<u8>,
    first: Pieces,
    second: Pieces,
}

/// The two sheets of four files with their schema, and the note on the kinds that no class has. All are opened before
/// the first is read, and all are read before the schema is loaded.
pub fn load_pair<F: Folder>(
    alloc: Global,
    folder: &F,
    kinds: &GivenKinds<'_>,
    files: &PairFiles<'_>,
    note: &mut Vec<u8>,
) -> Result<LoadedPair, RunFault>
    ensures { IsPairRun (inputs F.Folder F.Reader.ByteIn folder.now) kinds.now files.now note.old.items note.new.items
        (IsLoadedPair kinds.now) result }
{
    let readers = open_files(folder, files)?;
    let pair = with_classes(alloc, folder, kinds, files, readers, note)?;
    let bytes = read_pair(alloc, folder, files, pair)?;
    load(alloc, kinds, bytes)
}

/// What `load_pair` gives, and the bytes of the file of a pairing, which is opened behind the other four, and read
/// behind them.
pub fn load_pair_and_file<F: Folder>(
    alloc: Global,
    folder: &F,
    kinds: &GivenKinds<'_>,
    files: &PairFiles<'_>,
    pairing: &str,
    note: &mut Vec<u8>,
) -> Result<(LoadedPair, Vec<u8>), RunFault>
    ensures ok { IfOk result (λ r.
        OfPair (inputs F.Folder F.Reader.ByteIn folder.now) files.now (IsLoadedPair kinds.now r.0)) }
    ensures file { IfOk result (λ r.
        IsReadAt (inputs F.Folder F.Reader.ByteIn folder.now) pairing.now r.1.items) }
    ensures err { IfErr result
        (VerifyFileFault (inputs F.Folder F.Reader.ByteIn folder.now) kinds.now files.now pairing.now) }
    ensures names { IfErr result (λ e. FaultHasNames e 6) }
    ensures note { LeavesNote (inputs F.Folder F.Reader.ByteIn folder.now) kinds.now files.now.scd.now note.old.items
        note.new.items result }
{
    let readers = open_files(folder, files)?;
    let mut file = open_input(folder, pairing, Input::Pairing)?;
    let pair = with_classes(alloc, folder, kinds, files, readers, note)?;
    let bytes = read_pair(alloc, folder, files, pair)?;
    let file: Vec<u8> = read_at(alloc, folder, pairing, &mut file, Input::Pairing)?;
    let loaded = load(alloc, kinds, bytes)?;
    Ok((loaded, file))
}

// Opens four files.
fn open_files<F: Folder>(
    folder: &F,
    files: &PairFiles<'_>,
) -> Result<PairReaders<F::Reader>, RunFault>
    ensures opened { IfOk result (λ readers. ArePairReaders (inputs F.Folder F.Reader.ByteIn folder.now)
        F.Reader.ByteIn files.now readers.scd readers.dic readers.first readers.second) }
    ensures err { IfErr result (λ e. (n : ℕ)
        × FirstOfFourMissing (inputs F.Folder F.Reader.ByteIn folder.now) files.now n × (e ≡ RunFault.Read n)) }
    ensures names { IfErr result (λ e. FaultHasNames e 5) }
    ensures unread { IfErr result (λ e. 2 < status_of_fault e) }
{
    let scd = open_input(folder, files.scd, Input::Scd)?;
    let dic = open_input(folder, files.dic, Input::Dic)?;
    let first = open_input(folder, files.first, Input::First)?;
    let second = open_input(folder, files.second, Input::Second)?;
    Ok(PairReaders {
        scd,
        dic,
        first,
        second,
    })
}

// Reads the file of classes, and gives the note on the kinds that it has no class for.
fn with_classes<F: Folder>(
    alloc: Global,
    folder: &F,
    kinds: &GivenKinds<'_>,
    files: &PairFiles<'_>,
    readers: PairReaders<F::Reader>,
    note: &mut Vec<u8>,
) -> Result<PairInputs<F::Reader>, RunFault>
    requires { ArePairReaders (inputs F.Folder F.Reader.ByteIn folder.now) F.Reader.ByteIn files.now
        readers.scd readers.dic readers.first readers.second }
    ensures opened { IfOk result (λ pair.
        ArePairInputs (inputs F.Folder F.Reader.ByteIn folder.now) F.Reader.ByteIn files.now
        pair.classes.items pair.dic pair.first pair.second) }
    ensures err { IfErr result (IsUnreadAt (inputs F.Folder F.Reader.ByteIn folder.now) files.now.scd.now 1) }
    ensures noted { IfOk result (λ _. GivesNote (inputs F.Folder F.Reader.ByteIn folder.now) kinds.now files.now.scd.now
        note.new.items) }
    ensures unnoted { IfErr result (λ _. note.new.items ≡ note.old.items) }
{
    let PairReaders {
        mut scd,
        dic,
        first,
        second,
    } = readers;
    let classes = read_classes(alloc, kinds, files.scd, &mut scd, note)?;
    Ok(PairInputs {
        classes,
        dic,
        first,
        second,
    })
}

// Reads the inputs that are still open.
fn read_pair<F: Folder>(
    alloc: Global,
    folder: &F,
    files: &PairFiles<'_>,
    pair: PairInputs<F::Reader>,
) -> Result<PairBytes, RunFault>
    requires { ArePairInputs (inputs F.Folder F.Reader.ByteIn folder.now) F.Reader.ByteIn files.now
        pair.classes.items pair.dic pair.first pair.second }
    ensures read { IfOk result (λ bytes. ArePairBytes (inputs F.Folder F.Reader.ByteIn folder.now) files.now
        bytes.classes.items bytes.dic.items bytes.first bytes.second) }
    ensures err { IfErr result
        (AreUnread (inputs F.Folder F.Reader.ByteIn folder.now) (pair_path_at files.now) 4) }
{
    let PairInputs {
        classes,
        mut dic,
        mut first,
        mut second,
    } = pair;
    let dic: Vec<u8> = read_at(alloc, folder, files.dic, &mut dic, Input::Dic)?;
    let first: Pieces = read_at(alloc, folder, files.first, &mut first, Input::First)?;
    let second: Pieces = read_at(alloc, folder, files.second, &mut second, Input::Second)?;
    Ok(PairBytes {
        classes,
        dic,
        first,
        second,
    })
}

// The schema of two files that were read, with the sheets.
fn load(alloc: Global, kinds: &GivenKinds<'_>, bytes: PairBytes) -> Result<LoadedPair, RunFault>
    ensures ok { IfOk result (λ pair. IsLoadedPair kinds.now pair bytes.classes.items bytes.dic.items
        bytes.first bytes.second) }
    ensures err { IfErr result (λ e. MatchFault e (λ _. ⊥) (λ _. ⊥)
        (RefusesSchema kinds.now bytes.classes.items bytes.dic.items) (λ _. ⊥) (λ _. ⊥) (λ _. ⊥)) }
{
    let schema = load_or_fault(alloc, kinds.kinds(), &bytes.classes, &bytes.dic)?;
    let first = FileBytes::InPieces(bytes.first);
    let second = FileBytes::InPieces(bytes.second);
    Ok((schema, first, second))
}

// All bytes of the input that was opened for a path: in a list, or in pieces of which each is freed when its lines are
// read.
fn read_at<F: Folder, G: Gathering + Drop>(
    alloc: Global,
    folder: &F,
    path: &str,
    reader: &mut F::Reader,
    input: Input,
) -> Result<G, RunFault>
    requires { IsOpenedAt (inputs F.Folder F.Reader.ByteIn folder.now) F.Reader.ByteIn path.now reader.old }
    ensures read { IfOk result (λ bytes.
        IsReadAt (inputs F.Folder F.Reader.ByteIn folder.now) path.now (G.bytes bytes)) }
    ensures err { IfErr result (IsUnreadAt (inputs F.Folder F.Reader.ByteIn folder.now) path.now (input_number input)) }
{
    read_input(alloc, reader, input)
}
