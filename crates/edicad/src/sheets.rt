//! What is made of the sheets that a command names: canonical files, differences and pictures.
ghost use Rattle.std.specs.Prelude.{◌≡◌, ◌≤◌, length, take, OnOk, IfOk, IfErr, IsTrue};
ghost use Rattle.std.specs.Bool.{MatchBool};
ghost use Rattle.std.specs.Io.KnownBytes.{Appends};
ghost use Rattle.edi_compare.specs.Runs.{BeforeWriting, FilesFault, MatchFault, IfThreeKnown, seen};
ghost use Rattle.edi_diff.specs.UnderFiles.{IsDifferenceUnder};
ghost use Rattle.edi_drawing.specs.UnderFiles.{IsDrawnDifferenceUnder};
ghost use Rattle.edi_answers.specs.Notes.{LeavesNote};
ghost use Rattle.edi_answers.specs.PairRuns.{IsPairRun};
ghost use Rattle.edi_outcome.specs.Words.{FaultHasNames};
ghost use Rattle.edi_answers.specs.Effects.{effects, inputs};
ghost use Rattle.edi_answers.specs.SheetRuns.{FileFault, IsPairPut, IsPairReplaced, OfFiles, PutPairFault};
ghost use Rattle.edicad.specs.Made.{IsInput, IsMadeOf, IsNoInput, IsPictureOfPair, IsPut, IsReplaced, OfMade, PutFault, ShowsDifference, names_of_pair};

use edi_answers::classes::{Kept, read_classes};
use edi_answers::pair_inputs::load_pair;
use edi_answers::sheets::{is_pair_input, meets, open_input};
use edi_compare::{Input, RunFault, canon_of};
use edi_diff::{Difference, TextForm, diff_from};
use edi_drawing::{DrawnDifference, FileNames, draw_difference_from, run_draw};
use edi_files::{Folder, Product, output};
use edi_line::{ByteIn, ByteOut};
use edi_schema::Kinds;
use edi_words::{GivenKinds, PairFiles, SheetFiles};
use edi_write::{Written, put_all};
use std::alloc::Global;

/// What is made of the sheet of three files, to a path that is none of them. It is written once the sheet is accepted,
/// and replaces a file whole or not at all.
pub fn put<F: Folder>(
    alloc: Global,
    folder: &mut F,
    product: Product,
    kinds: &GivenKinds<'_>,
    files: &SheetFiles<'_>,
    out: &str,
    note: &mut Vec<u8>,
) -> Result<(), RunFault>
    ensures ok { OnOk result
        (IsPut (effects F.Folder F.Reader.ByteIn F.Sink.ByteOut F.NewFile.ByteOut folder.old folder.new)
        product kinds.now files.now out.now) }
    ensures err { IfErr result
        (PutFault (effects F.Folder F.Reader.ByteIn F.Sink.ByteOut F.NewFile.ByteOut folder.old folder.new)
        product kinds.now files.now out.now) }
    ensures replaced { IsReplaced
        (effects F.Folder F.Reader.ByteIn F.Sink.ByteOut F.NewFile.ByteOut folder.old folder.new)
        product kinds.now files.now out.now }
    ensures names { IfErr result (λ e. FaultHasNames e 4) }
    ensures note { LeavesNote (inputs F.Folder F.Reader.ByteIn folder.old) kinds.now files.now.scd.now note.old.items
        note.new.items result }
{
    if is_input(folder, files, out) {
        return Err(RunFault::Write(Written { count: 0 }));
    }
    match make(alloc, folder, product, kinds, files, note) {
        Ok(bytes) => output::put(folder, out, &bytes),
        Err(fault) => Err(fault),
    }
}

/// What is made of the sheet of three files, to a writer, and nothing else.
pub fn send<F: Folder, O: ByteOut>(
    alloc: Global,
    folder: &F,
    product: Product,
    kinds: &GivenKinds<'_>,
    files: &SheetFiles<'_>,
    out: &mut O,
    note: &mut Vec<u8>,
) -> Result<(), RunFault>
    ensures ok { OnOk result (OfMade (inputs F.Folder F.Reader.ByteIn folder.now) product kinds.now
        files.now (Appends (O.contents out.old) (O.contents out.new))) }
    ensures err { IfErr result (FileFault (inputs F.Folder F.Reader.ByteIn folder.now) kinds.now files.now
        (λ count. IsTrue (O.has_failed out.new)
        × OfMade (inputs F.Folder F.Reader.ByteIn folder.now) product kinds.now files.now
        (λ bytes. (count ≤ length bytes)
        × Appends (O.contents out.old) (O.contents out.new) (take count bytes)))) }
    ensures unwritten { IfErr result (λ e. BeforeWriting e (out.new ≡ out.old)) }
    ensures names { IfErr result (λ e. FaultHasNames e 4) }
    ensures note { LeavesNote (inputs F.Folder F.Reader.ByteIn folder.now) kinds.now files.now.scd.now note.old.items
        note.new.items result }
{
    match make(alloc, folder, product, kinds, files, note) {
        Ok(bytes) => write_all(out, &bytes),
        Err(fault) => Err(fault),
    }
}

/// What differs between the two sheets of four files, or that without the lines of records. All are opened before the
/// first is read.
pub fn diff<F: Folder>(
    alloc: Global,
    folder: &F,
    kinds: &GivenKinds<'_>,
    files: &PairFiles<'_>,
    form: TextForm<'_>,
    note: &mut Vec<u8>,
) -> Result<Difference, RunFault>
    ensures { IsPairRun (inputs F.Folder F.Reader.ByteIn folder.now) kinds.now files.now note.old.items note.new.items
        (λ difference s d a b. IsDifferenceUnder kinds.now s d a b form.entry difference) result }
{
    let (schema, first, second) = load_pair(alloc, folder, kinds, files, note)?;
    let difference = diff_from(alloc, &schema, first, second, form)?;
    Ok(difference)
}

/// What differs between the two sheets of four files, or that without the lines of records. A picture of both that
/// shows it goes to a path that is none of the four, whether they differ or not; a file is replaced whole or not at
/// all.
pub fn draw_difference<F: Folder>(
    alloc: Global,
    folder: &mut F,
    kinds: &GivenKinds<'_>,
    files: &PairFiles<'_>,
    form: TextForm<'_>,
    out: &str,
    note: &mut Vec<u8>,
) -> Result<Difference, RunFault>
    ensures ok { IfOk result (λ difference.
        IsPairPut (effects F.Folder F.Reader.ByteIn F.Sink.ByteOut F.NewFile.ByteOut folder.old folder.new)
        (ShowsDifference kinds.now (names_of_pair files.now) form.entry difference) files.now out.now) }
    ensures err { IfErr result
        (PutPairFault (effects F.Folder F.Reader.ByteIn F.Sink.ByteOut F.NewFile.ByteOut folder.old folder.new)
        (IsPictureOfPair kinds.now (names_of_pair files.now) form.entry) kinds.now files.now out.now) }
    ensures replaced { IsPairReplaced
        (effects F.Folder F.Reader.ByteIn F.Sink.ByteOut F.NewFile.ByteOut folder.old folder.new)
        (IsPictureOfPair kinds.now (names_of_pair files.now) form.entry) files.now out.now }
    ensures names { IfErr result (λ e. FaultHasNames e 5) }
    ensures note { LeavesNote (inputs F.Folder F.Reader.ByteIn folder.old) kinds.now files.now.scd.now note.old.items
        note.new.items result }
{
    if is_pair_input(folder, files, out) {
        return Err(RunFault::Write(Written { count: 0 }));
    }
    match drawn_difference(alloc, folder, kinds, files, form, note) {
        Ok(
            DrawnDifference {
                difference,
                picture,
            },
        ) => match output::put(folder, out, &picture) {
            Ok(()) => Ok(difference),
            Err(fault) => Err(fault),
        },
        Err(fault) => Err(fault),
    }
}

// What differs between the two sheets of four files, with a picture of both.
fn drawn_difference<F: Folder>(
    alloc: Global,
    folder: &F,
    kinds: &GivenKinds<'_>,
    files: &PairFiles<'_>,
    form: TextForm<'_>,
    note: &mut Vec<u8>,
) -> Result<DrawnDifference, RunFault>
    ensures { IsPairRun (inputs F.Folder F.Reader.ByteIn folder.now) kinds.now files.now note.old.items note.new.items
        (λ drawn s d a b. IsDrawnDifferenceUnder kinds.now (names_of_pair files.now) s d a b form.entry drawn) result }
{
    let (schema, first, second) = load_pair(alloc, folder, kinds, files, note)?;
    let names = FileNames {
        first: files.first,
        second: files.second,
    };
    let drawn = draw_difference_from(alloc, &schema, &names, first, second, form)?;
    Ok(drawn)
}

// Writes all bytes.
fn write_all<O: ByteOut>(out: &mut O, bytes: &[u8]) -> Result<(), RunFault>
    ensures ok { OnOk result (Appends (O.contents out.old) (O.contents out.new) bytes.now) }
    ensures err { IfErr result (λ e. MatchFault e (λ _. ⊥) (λ _. ⊥) (λ _. ⊥) (λ _. ⊥) (λ _. ⊥)
        (λ count. IsTrue (O.has_failed out.new) × (count ≤ length bytes.now)
        × Appends (O.contents out.old) (O.contents out.new) (take count bytes.now))) }
    ensures unwritten { IfErr result (λ e. BeforeWriting e (out.new ≡ out.old)) }
    ensures names { IfErr result (λ e. FaultHasNames e 4) }
{
    match put_all(out, bytes) {
        Ok(()) => Ok(()),
        Err(written) => Err(RunFault::Write(written)),
    }
}

// What is made of the sheet of three files.
fn make<F: Folder>(
    alloc: Global,
    folder: &F,
    product: Product,
    kinds: &GivenKinds<'_>,
    files: &SheetFiles<'_>,
    note: &mut Vec<u8>,
) -> Result<Vec<u8>, RunFault>
    ensures ok { IfOk result (λ bytes. OfFiles (inputs F.Folder F.Reader.ByteIn folder.now) files.now
        (λ s d v. IsMadeOf product kinds.now files.now.vec.now s d v bytes.items)) }
    ensures err { IfErr result (FileFault (inputs F.Folder F.Reader.ByteIn folder.now) kinds.now files.now (λ _. ⊥)) }
    ensures names { IfErr result (λ e. FaultHasNames e 4) }
    ensures note { LeavesNote (inputs F.Folder F.Reader.ByteIn folder.now) kinds.now files.now.scd.now note.old.items
        note.new.items result }
{
    let mut scd = open_input(folder, files.scd, Input::Scd)?;
    let mut dic = open_input(folder, files.dic, Input::Dic)?;
    let mut vec = open_input(folder, files.vec, Input::First)?;
    let classes = read_classes(alloc, kinds, files.scd, &mut scd, note)?;
    let mut kept = Kept::new(&classes);
    product_of(
        alloc,
        product,
        kinds.kinds(),
        files.vec,
        &mut kept,
        &mut dic,
        &mut vec,
    )
}

// What is made of the sheet of three inputs, of this name.
fn product_of<S: ByteIn, D: ByteIn, V: ByteIn>(
    alloc: Global,
    product: Product,
    kinds: &Kinds<'_>,
    name: &str,
    scd: &mut S,
    dic: &mut D,
    vec: &mut V,
) -> Result<Vec<u8>, RunFault>
    ensures ok { IfOk result (λ bytes. IfThreeKnown (S.contents scd.old) (D.contents dic.old) (V.contents vec.old)
        (λ s d v. IsMadeOf product kinds.now name.now s d v bytes.items)) }
    ensures err { IfErr result (FilesFault kinds.now
        (seen S.ByteIn scd.old scd.new) (seen D.ByteIn dic.old dic.new) (seen V.ByteIn vec.old vec.new) (λ _. ⊥)) }
{
    match product {
        Product::Canonical => canon_of(alloc, kinds, scd, dic, vec),
        Product::Picture => run_draw(alloc, kinds, name, scd, dic, vec),
    }
}

// Whether a path is that of an input, or leads to its file.
fn is_input<F: Folder>(folder: &F, files: &SheetFiles<'_>, out: &str) -> bool
    ensures { MatchBool result (IsInput (F.is_one folder.now) files.now out.now)
        (IsNoInput (F.is_one folder.now) files.now out.now) }
{
    meets(folder, files.scd, out) || meets(folder, files.dic, out) || meets(folder, files.vec, out)
}
