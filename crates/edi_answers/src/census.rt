//! All that many sheets break, and how often each rule is broken, in a form.
ghost use Rattle.std.specs.Prelude.{◌≡◌, ◌++◌, IfErr, IfOk, IsTrue, OnErr, ℕ, List, [], map};
ghost use Rattle.edi_answers.specs.Census.{IsCensusStatus, AnswersCensus, SheetReadFault, TellsAll, TellsAllOf, status_of_all};
ghost use Rattle.edi_answers.specs.Effects.{effects, inputs, written};
ghost use Rattle.edi_answers.specs.Statuses.{IsSheetStatus};
ghost use Rattle.edi_answers.specs.inner.Census.{AddShares, AddsShare, StopsInOne, StopsInSheet};

use crate::census_texts::{text_of_all_broken, text_of_counts};
use crate::form::AnswerForm;
use crate::hashes::{load_schema, path_of_schema, tell_fault};
use crate::sheets::open_input;
use crate::{notes, report};
use edi_census::all_broken;
use edi_compare::{Input, RunFault, read_input};
use edi_files::Folder;
use edi_line::{BrokenRule, ByteOut};
use edi_schema::Schema;
use edi_words::{GivenKinds, ManyFiles};
use edi_write::{Written, put_all};
use std::alloc::{AllocError, Global};

const REFUSED_STATUS: u8 = 2;

// All that a sheet breaks, and the lines on it.
#[derive(Drop)]
struct AllTold {
    broken: Vec<BrokenRule>,
    text: Vec<u8>,
}

/// Writes in a form a line for each rule that the first broken phase of a sheet breaks, with its place, or one that
/// says that the sheet is accepted, sheet by sheet; and then how often each rule is broken in all of them. A sheet that
/// can't be read is said on `err`, in words. Gives the greatest of their statuses, or 4 as soon as `out` fails. The
/// schema is loaded once, before any sheet is opened; where there is none, `err` says why by the name of its file.
pub fn explain_all<F: Folder, O: ByteOut, E: ByteOut>(
    alloc: Global,
    folder: &F,
    kinds: &GivenKinds<'_>,
    files: &ManyFiles<'_>,
    form: AnswerForm,
    out: &mut O,
    err: &mut E,
) -> u8
    ensures status { IsSheetStatus result }
    ensures answer { IsCensusStatus
        (effects F.Folder F.Reader.ByteIn F.Sink.ByteOut F.NewFile.ByteOut folder.now folder.now)
        (written O.ByteOut out.old out.new) (written E.ByteOut err.old err.new) kinds.now files.now form result }
{
    match load_schema(alloc, folder, kinds, files) {
        Ok(loaded) => {
            notes::say(err, &loaded.note);
            count_under(alloc, folder, &loaded.schema, form, &files.sheets, out, err)
        }
        Err(fault) => tell_fault(alloc, folder, &fault, path_of_schema(files, &fault), err),
    }
}

// Answers each sheet in order, and then counts.
fn count_under<F: Folder, O: ByteOut, E: ByteOut>(
    alloc: Global,
    folder: &F,
    schema: &Schema,
    form: AnswerForm,
    sheets: &[&str],
    out: &mut O,
    err: &mut E,
) -> u8
    ensures status { IsSheetStatus result }
    ensures answer { AnswersCensus (inputs F.Folder F.Reader.ByteIn folder.now) (F.why folder.now) schema.now form
        (written O.ByteOut out.old out.new) (written E.ByteOut err.old err.new) (map (λ p. p.now) sheets.now) result }
    ensures stays { IsTrue (E.has_failed err.old) → IsTrue (E.has_failed err.new) }
{
    let mut rules = Vec::new(alloc);
    let Ok(worst) = answer_each(alloc, folder, schema, form, sheets, &mut rules, out, err) else {
        return report::say_unwritten(err);
    };
    let Ok(counts) = text_of_counts(alloc, form, &rules) else {
        return report::out_of_memory(err);
    };
    match put_all(out, &counts) {
        Ok(()) => worst,
        Err(_) => report::say_unwritten(err),
    }
}

// Answers each sheet in order, and gives the greatest status, unless the lines of one can't be written.
fn answer_each<F: Folder, O: ByteOut, E: ByteOut>(
    alloc: Global,
    folder: &F,
    schema: &Schema,
    form: AnswerForm,
    sheets: &[&str],
    rules: &mut Vec<u16>,
    out: &mut O,
    err: &mut E,
) -> Result<u8, Written>
    requires { rules.old.items ≡ [] }
    ensures status { IfOk result IsSheetStatus }
    ensures ok { IfOk result (λ worst. AddShares (inputs F.Folder F.Reader.ByteIn folder.now) (F.why folder.now)
        schema.now form (map (λ p. p.now) sheets.now) (written O.ByteOut out.old out.new)
        (written E.ByteOut err.old err.new) worst rules.new.items) }
    ensures err { OnErr result (StopsInOne (inputs F.Folder F.Reader.ByteIn folder.now) (F.why folder.now)
        schema.now form (map (λ p. p.now) sheets.now) (written O.ByteOut out.old out.new)
        (written E.ByteOut err.old err.new)) }
    ensures stays { IsTrue (E.has_failed err.old) → IsTrue (E.has_failed err.new) }
{
    let mut worst = 0;
    for path in sheets {
        match answer_one(alloc, folder, schema, form, path, rules, out, err) {
            Ok(status) => worst = worst.max(status),
            Err(written) => return Err(written),
        }
    }
    Ok(worst)
}

// Answers a sheet, and gives its status, unless its lines can't be written. The rules that it breaks are noted.
fn answer_one<F: Folder, O: ByteOut, E: ByteOut>(
    alloc: Global,
    folder: &F,
    schema: &Schema,
    form: AnswerForm,
    path: &str,
    rules: &mut Vec<u16>,
    out: &mut O,
    err: &mut E,
) -> Result<u8, Written>
    ensures status { IfOk result IsSheetStatus }
    ensures ok { IfOk result (λ status. (own : List ℕ) × (rules.new.items ≡ rules.old.items ++ own)
        × AddsShare (inputs F.Folder F.Reader.ByteIn folder.now) (F.why folder.now) schema.now form path.now
        (written O.ByteOut out.old out.new) (written E.ByteOut err.old err.new) status own) }
    ensures err { OnErr result (StopsInSheet (inputs F.Folder F.Reader.ByteIn folder.now) schema.now form path.now
        (written O.ByteOut out.old out.new) × (err.new ≡ err.old)) }
    ensures stays { IsTrue (E.has_failed err.old) → IsTrue (E.has_failed err.new) }
{
    match all_told(alloc, folder, schema, form, path, rules) {
        Ok(told) => match put_all(out, &told.text) {
            Ok(()) => Ok(status_of(&told.broken)),
            Err(written) => Err(written),
        },
        Err(fault) => Ok(tell_fault(alloc, folder, &fault, path, err)),
    }
}

// 0 where nothing is broken, and else 2.
fn status_of(broken: &[BrokenRule]) -> u8
    ensures { result ≡ status_of_all broken.now }
{
    if broken.is_empty() { 0 } else { REFUSED_STATUS }
}

// All that the sheet of a path breaks, with the lines on it, where it can be read. The rules are noted.
fn all_told<F: Folder>(
    alloc: Global,
    folder: &F,
    schema: &Schema,
    form: AnswerForm,
    path: &str,
    rules: &mut Vec<u16>,
) -> Result<AllTold, RunFault>
    ensures ok { IfOk result (λ told. TellsAllOf
        (inputs F.Folder F.Reader.ByteIn folder.now) schema.now form path.now told.broken.items told.text.items
        × (rules.new.items ≡ rules.old.items ++ map (λ it. it.rule) told.broken.items)) }
    ensures err { IfErr result (λ e. SheetReadFault (inputs F.Folder F.Reader.ByteIn folder.now) path.now e
        × (rules.new.items ≡ rules.old.items)) }
{
    let mut sheet = open_input(folder, path, Input::First)?;
    let bytes: Vec<u8> = read_input(alloc, &mut sheet, Input::First)?;
    match told_of(alloc, schema, form, &bytes, path, rules) {
        Ok(told) => Ok(told),
        Err(error) => Err(RunFault::Memory(error)),
    }
}

// All that a sheet breaks, with the lines on it. The rules are noted.
fn told_of(
    alloc: Global,
    schema: &Schema,
    form: AnswerForm,
    bytes: &[u8],
    path: &str,
    rules: &mut Vec<u16>,
) -> Result<AllTold, AllocError>
    ensures ok { IfOk result (λ told. TellsAll schema.now form bytes.now path.now told.broken.items told.text.items
        × (rules.new.items ≡ rules.old.items ++ map (λ it. it.rule) told.broken.items)) }
    ensures err { OnErr result (rules.new.items ≡ rules.old.items) }
{
    let broken = all_broken(alloc, schema, bytes)?;
    let text = text_of_all_broken(alloc, schema, form, bytes, path, &broken)?;
    let own = rules_of(alloc, &broken)?;
    rules.extend_from_slice(&own)?;
    Ok(AllTold { broken, text })
}

// The rule of each place.
fn rules_of(alloc: Global, broken: &[BrokenRule]) -> Result<Vec<u16>, AllocError>
    ensures { IfOk result (λ rules. rules.items ≡ map (λ it. it.rule) broken.now) }
{
    let mut rules = Vec::with_capacity(alloc, broken.len())?;
    for it in broken {
        rules.push(it.rule)?;
    }
    Ok(rules)
}
