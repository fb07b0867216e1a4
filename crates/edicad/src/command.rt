//! What the program does with its words.
ghost use Rattle.std.specs.Prelude.{◌≡◌, ◌⊎◌, ◌<◌, ℕ, List, MatchOption, map, string_bytes};
ghost use Rattle.std.specs.Bool.{MatchBool};
ghost use Rattle.edicad.specs.Answered.{AnswersWords, IsAnswered, IsMadeStatus, IsManyReplied, IsPairReplied, IsReplied, IsSheetReplied, IsUnread};
ghost use Rattle.edi_answers.specs.Effects.{effects, inputs, written};
ghost use Rattle.edi_answers.specs.Notes.{HasNoteOf};
ghost use Rattle.edicad.specs.inner.Notes.{LeavesNoteOf};
ghost use Rattle.edi_answers.specs.Statuses.{Answers, IsPairStatus, IsSheetStatus, IsUnsaid};
ghost use Rattle.edi_deliveries.specs.Deliveries.{listings};
ghost use Rattle.edicad.specs.Forms.{answer_form_asked, form_asked};
ghost use Rattle.edicad.specs.Statuses.{HasStatus, IsDiffStatus, IsManyStatus, IsPictureStatus, IsPutStatus, IsSendStatus, IsStatus, IsStatusOf};

use crate::sheets;
use edi_answers::census::explain_all;
use edi_answers::commands::{bundle, check, compare_or_pair, verify};
use edi_answers::explains::{explain, explain_rule, explain_rules};
use edi_answers::form::AnswerForm;
use edi_answers::hashes::hash;
use edi_answers::{notes, report};
use edi_changes::answer::tell_changes_between;
use edi_changes::checks::check_list;
use edi_deliveries::checks::check_manifest;
use edi_deliveries::deliveries::answer_paths;
use edi_deliveries::manifests::put_manifest;
use edi_diff::{Difference, TextForm};
use edi_files::Product::{self, Canonical, Picture};
use edi_files::{CommandLine, Disk, Errors, Folder, Listing, Progress, WordSource};
use edi_line::{ByteOut, ToWrite};
use edi_outcome::Outcome;
use edi_words::{
    GivenKinds, ManyFiles, ManyRequest, PairFiles, PairRequest, Request, SheetFiles, SheetRequest,
    is_standard, request_asked,
};
use edi_write::put_all;
use std::alloc::Global;
use std::fs::File;
use std::io;
use std::rt::{Files, Runtime};

const DIFFERENT_STATUS: u8 = 1;

const WORDS: AnswerForm = AnswerForm::Words;

/// Does what the words of the command line ask for, and gives the exit status. Where standard error is a terminal, it
/// shows how far a run over many deliveries or lots has come.
pub fn run<R: Runtime + Files<File = File> + AllocGlobal>(rt: &R, is_terminal: bool) -> u8
    ensures { IsStatus result }
{
    let line = CommandLine { rt };
    let mut folder = Disk::new(rt);
    let mut out = ToWrite::new(io::writer(rt));
    let mut err = Errors::new(rt, is_terminal);
    run_line(rt, &line, &mut folder, &mut out, &mut err)
}

/// Does what the words of a line ask for, over a folder and two streams, and gives the exit status.
pub fn run_line<
    R: Eprint + AllocGlobal,
    W: WordSource,
    F: Folder + Listing,
    O: ByteOut,
    E: ByteOut + Progress,
>(rt: &R, line: &W, folder: &mut F, out: &mut O, err: &mut E) -> u8
    ensures { ((words : List (List ℕ)) × W.gives line.now words × HasStatus words result
        × AnswersWords (effects F.Folder F.Reader.ByteIn F.Sink.ByteOut F.NewFile.ByteOut folder.old folder.new)
        (listings F.Listing folder.old)
        (written O.ByteOut out.old out.new) (written E.ByteOut err.old err.new) words result)
        ⊎ IsUnread (effects F.Folder F.Reader.ByteIn F.Sink.ByteOut F.NewFile.ByteOut folder.old folder.new)
        (written O.ByteOut out.old out.new) (written E.ByteOut err.old err.new) result }
{
    match line.words() {
        Ok(words) => run_over(rt, folder, out, err, &words),
        Err(error) if error.kind() == io::ErrorKind::OutOfMemory => report::out_of_memory(err),
        Err(_) => report::not_text(err),
    }
}

/// Does what the words ask for, over the files and the streams of the system.
pub fn run_words<R: Runtime + Files<File = File> + AllocGlobal>(rt: &R, words: &[String]) -> u8
    ensures { HasStatus (map string_bytes words.now) result }
{
    let mut folder = Disk::new(rt);
    let mut out = ToWrite::new(io::writer(rt));
    let mut err = Errors::new(rt, false);
    run_over(rt, &mut folder, &mut out, &mut err, words)
}

/// Does what the words ask for, over a folder and two streams, and gives the exit status. What `clap` says of the
/// words is said through `rt`.
pub fn run_over<R: Eprint + AllocGlobal, F: Folder + Listing, O: ByteOut, E: ByteOut + Progress>(
    rt: &R,
    folder: &mut F,
    out: &mut O,
    err: &mut E,
    words: &[String],
) -> u8
    ensures status { HasStatus (map string_bytes words.now) result }
    ensures answer { AnswersWords
        (effects F.Folder F.Reader.ByteIn F.Sink.ByteOut F.NewFile.ByteOut folder.old folder.new)
        (listings F.Listing folder.old)
        (written O.ByteOut out.old out.new) (written E.ByteOut err.old err.new) (map string_bytes words.now) result }
{
    let request = request_asked(rt, words);
    answer_request(rt.alloc(), folder, out, err, request)
}

/// Does what is asked for, and gives the exit status. Behind the answer to a request over one or two sheets, the errors
/// get a note on the kinds of links that no class has.
pub fn answer_request<F: Folder + Listing, O: ByteOut, E: ByteOut + Progress>(
    alloc: Global,
    folder: &mut F,
    out: &mut O,
    err: &mut E,
    request: Request<'_>,
) -> u8
    ensures status { IsStatusOf request.entry result }
    ensures answer { IsAnswered
        (effects F.Folder F.Reader.ByteIn F.Sink.ByteOut F.NewFile.ByteOut folder.old folder.new)
        (listings F.Listing folder.old)
        (written O.ByteOut out.old out.new) (written E.ByteOut err.old err.new) request.entry result }
{
    let mut note = Vec::new(alloc);
    let status = reply(alloc, folder, out, err, &mut note, request);
    notes::say(err, &note);
    status
}

// Does what is asked for but for the note, which it hands on, and gives the exit status.
fn reply<F: Folder + Listing, O: ByteOut, E: ByteOut + Progress>(
    alloc: Global,
    folder: &mut F,
    out: &mut O,
    err: &mut E,
    note: &mut Vec<u8>,
    request: Request<'_>,
) -> u8
    ensures status { IsStatusOf request.entry result }
    ensures answer { IsReplied (effects F.Folder F.Reader.ByteIn F.Sink.ByteOut F.NewFile.ByteOut folder.old folder.new)
        (listings F.Listing folder.old)
        (written O.ByteOut out.old out.new) (written E.ByteOut err.old err.new) request.entry result }
    ensures note { LeavesNoteOf
        (inputs F.Folder F.Reader.ByteIn folder.old) request.entry result note.old.items note.new.items }
{
    match request {
        Request::Bundle => bundle(alloc, folder, out, err),
        Request::Sheet { kinds, files, what } => {
            reply_on_sheet(alloc, folder, &kinds, &files, what, out, err, note)
        }
        Request::Pair { kinds, files, what } => {
            reply_on_pair(alloc, folder, &kinds, &files, what, out, err, note)
        }
        Request::Many { kinds, files, what } => {
            reply_on_many(alloc, folder, &kinds, &files, what, out, err)
        }
        Request::Delivery { kinds, paths } => answer_paths(alloc, folder, &kinds, &paths, out, err),
        Request::Manifest { kinds, path, file } => {
            put_manifest(alloc, folder, &kinds, path, file, out, err)
        }
        Request::CheckManifest {
            kinds,
            path,
            manifest,
        } => check_manifest(alloc, folder, &kinds, manifest, path, out, err),
        Request::Changed { before, after } => tell_changes_between(
            alloc, folder, before, after, out, err,
        ),
        Request::Explain { kinds, files, json } => {
            let form = answer_form_asked(json);
            explain(alloc, folder, &kinds, &files, form, out, err)
        }
        Request::Rule { word, json } => {
            let form = answer_form_asked(json);
            explain_rule(alloc, word, form, out, err)
        }
        Request::Rules { json } => explain_rules(alloc, answer_form_asked(json), out, err),
        Request::Misused(misuse) => report::say_misuse(alloc, err, misuse),
        Request::Answered(status) => status,
    }
}

// What is asked of one sheet.
fn reply_on_sheet<F: Folder, O: ByteOut, E: ByteOut>(
    alloc: Global,
    folder: &mut F,
    kinds: &GivenKinds<'_>,
    files: &SheetFiles<'_>,
    what: SheetRequest<'_>,
    out: &mut O,
    err: &mut E,
    note: &mut Vec<u8>,
) -> u8
    ensures status { IsSheetStatus result }
    ensures answer { IsSheetReplied
        (effects F.Folder F.Reader.ByteIn F.Sink.ByteOut F.NewFile.ByteOut folder.old folder.new)
        (written O.ByteOut out.old out.new) (written E.ByteOut err.old err.new) kinds.now files.now what.entry result }
    ensures note { HasNoteOf
        (inputs F.Folder F.Reader.ByteIn folder.old) kinds.now files.now.scd.now result note.old.items note.new.items }
{
    match what {
        SheetRequest::Check { json } => {
            let form = answer_form_asked(json);
            check(alloc, folder, kinds, files, form, out, err, note)
        }
        SheetRequest::Canon { out: path } => {
            make(alloc, folder, Canonical, kinds, files, path, out, err, note)
        }
        SheetRequest::Draw { out: path } => {
            make(alloc, folder, Picture, kinds, files, path, out, err, note)
        }
    }
}

// What is asked of many sheets.
fn reply_on_many<F: Folder, O: ByteOut, E: ByteOut>(
    alloc: Global,
    folder: &F,
    kinds: &GivenKinds<'_>,
    files: &ManyFiles<'_>,
    what: ManyRequest<'_>,
    out: &mut O,
    err: &mut E,
) -> u8
    ensures status { IsManyStatus what.entry result }
    ensures answer { IsManyReplied
        (effects F.Folder F.Reader.ByteIn F.Sink.ByteOut F.NewFile.ByteOut folder.now folder.now)
        (written O.ByteOut out.old out.new) (written E.ByteOut err.old err.new) kinds.now files.now what.entry result }
{
    match what {
        ManyRequest::Hash { with_schema, json } => {
            let form = answer_form_asked(json);
            hash(
                alloc,
                folder,
                kinds,
                files,
                form,
                with_schema,
                &[],
                out,
                err,
            )
        }
        ManyRequest::CheckList { list } => check_list(alloc, folder, kinds, files, list, out, err),
        ManyRequest::ExplainAll { json } => {
            let form = answer_form_asked(json);
            explain_all(alloc, folder, kinds, files, form, out, err)
        }
    }
}

// What is asked of two sheets.
fn reply_on_pair<F: Folder, O: ByteOut, E: ByteOut>(
    alloc: Global,
    folder: &mut F,
    kinds: &GivenKinds<'_>,
    files: &PairFiles<'_>,
    what: PairRequest<'_>,
    out: &mut O,
    err: &mut E,
    note: &mut Vec<u8>,
) -> u8
    ensures status { IsPairStatus result }
    ensures answer { IsPairReplied
        (effects F.Folder F.Reader.ByteIn F.Sink.ByteOut F.NewFile.ByteOut folder.old folder.new)
        (written O.ByteOut out.old out.new) (written E.ByteOut err.old err.new) kinds.now files.now what.entry result }
    ensures note { HasNoteOf
        (inputs F.Folder F.Reader.ByteIn folder.old) kinds.now files.now.scd.now result note.old.items note.new.items }
{
    match what {
        PairRequest::Compare { pairing, json } => {
            let form = answer_form_asked(json);
            compare_or_pair(alloc, folder, kinds, files, form, pairing, out, err, note)
        }
        PairRequest::Verify { pairing, json } => {
            let form = answer_form_asked(json);
            verify(alloc, folder, kinds, files, form, pairing, out, err, note)
        }
        PairRequest::Diff {
            brief,
            records,
            json,
            named_by,
            picture,
        } => {
            let form = form_asked(brief, records, json, named_by);
            diff_or_draw(alloc, folder, kinds, files, form, picture, out, err, note)
        }
    }
}

// What is made of a sheet, to a path or to the output.
fn make<F: Folder, O: ByteOut, E: ByteOut>(
    alloc: Global,
    folder: &mut F,
    product: Product,
    kinds: &GivenKinds<'_>,
    files: &SheetFiles<'_>,
    path: &str,
    out: &mut O,
    err: &mut E,
    note: &mut Vec<u8>,
) -> u8
    ensures status { IsSheetStatus result }
    ensures answer { IsMadeStatus
        (effects F.Folder F.Reader.ByteIn F.Sink.ByteOut F.NewFile.ByteOut folder.old folder.new)
        (written O.ByteOut out.old out.new) (written E.ByteOut err.old err.new) product kinds.now files.now path.now
        result }
    ensures note { HasNoteOf
        (inputs F.Folder F.Reader.ByteIn folder.old) kinds.now files.now.scd.now result note.old.items note.new.items }
{
    if is_standard(path) {
        return send(alloc, folder, product, kinds, files, out, err, note);
    }
    let paths = [files.scd, files.dic, files.vec, path];
    match sheets::put(alloc, folder, product, kinds, files, path, note) {
        Ok(()) => report::answer(alloc, folder, out, err, WORDS, &Outcome::Accepted, &paths),
        Err(fault) => {
            let outcome = Outcome::Fault(fault);
            report::answer(alloc, folder, out, err, WORDS, &outcome, &paths)
        }
    }
}

// What is made of a sheet, to the output, which gets nothing else.
fn send<F: Folder, O: ByteOut, E: ByteOut>(
    alloc: Global,
    folder: &F,
    product: Product,
    kinds: &GivenKinds<'_>,
    files: &SheetFiles<'_>,
    out: &mut O,
    err: &mut E,
    note: &mut Vec<u8>,
) -> u8
    ensures status { IsSheetStatus result }
    ensures answer { IsSendStatus
        (effects F.Folder F.Reader.ByteIn F.Sink.ByteOut F.NewFile.ByteOut folder.now folder.now)
        (written O.ByteOut out.old out.new) (written E.ByteOut err.old err.new) product kinds.now files.now result }
    ensures note { HasNoteOf
        (inputs F.Folder F.Reader.ByteIn folder.now) kinds.now files.now.scd.now result note.old.items note.new.items }
{
    let paths = [files.scd, files.dic, files.vec, "-"];
    match sheets::send(alloc, folder, product, kinds, files, out, note) {
        Ok(()) => 0,
        Err(fault) => report::say_fault(alloc, folder, err, &fault, &paths),
    }
}

/// In which form the words ask for an answer.
fn answer_form_asked(json: bool) -> AnswerForm
    ensures { result ≡ answer_form_asked json }
{
    if json {
        AnswerForm::Json
    } else {
        AnswerForm::Words
    }
}

/// In which form the words ask for what differs.
fn form_asked(brief: bool, records: bool, json: bool, named_by: Option<&str>) -> TextForm<'_>
    ensures { result ≡ form_asked brief records json named_by.entry }
{
    match (brief, records, json, named_by) {
        (true, _, _, _) => TextForm::Brief,
        (false, _, true, _) => TextForm::Json,
        (false, true, false, _) => TextForm::Records,
        (false, false, false, Some(identifiers)) => TextForm::ObjectsNamedBy(identifiers),
        (false, false, false, None) => TextForm::Objects,
    }
}

// What differs between two sheets, in this form, and a picture of it to a path, where one is named.
fn diff_or_draw<F: Folder, O: ByteOut, E: ByteOut>(
    alloc: Global,
    folder: &mut F,
    kinds: &GivenKinds<'_>,
    files: &PairFiles<'_>,
    form: TextForm<'_>,
    picture: Option<&str>,
    out: &mut O,
    err: &mut E,
    note: &mut Vec<u8>,
) -> u8
    ensures status { IsPairStatus result }
    ensures answer { MatchOption picture.entry ((folder.new ≡ folder.old)
        × IsDiffStatus (effects F.Folder F.Reader.ByteIn F.Sink.ByteOut F.NewFile.ByteOut folder.old folder.new)
        (written O.ByteOut out.old out.new) (written E.ByteOut err.old err.new) kinds.now files.now form.entry result)
        (λ path. IsPictureStatus
        (effects F.Folder F.Reader.ByteIn F.Sink.ByteOut F.NewFile.ByteOut folder.old folder.new)
        (written O.ByteOut out.old out.new) (written E.ByteOut err.old err.new) kinds.now files.now form.entry path.now
        result) }
    ensures note { HasNoteOf
        (inputs F.Folder F.Reader.ByteIn folder.old) kinds.now files.now.scd.now result note.old.items note.new.items }
{
    let Some(path) = picture else {
        return diff(alloc, folder, kinds, files, form, out, err, note);
    };
    match sheets::draw_difference(alloc, folder, kinds, files, form, path, note) {
        Ok(difference) => put_difference(&difference, out, err),
        Err(fault) => {
            let paths = [files.scd, files.dic, files.first, files.second, path];
            let outcome = Outcome::Fault(fault);
            report::answer(alloc, folder, out, err, WORDS, &outcome, &paths)
        }
    }
}

// What differs between two sheets, or that without the lines of records.
fn diff<F: Folder, O: ByteOut, E: ByteOut>(
    alloc: Global,
    folder: &F,
    kinds: &GivenKinds<'_>,
    files: &PairFiles<'_>,
    form: TextForm<'_>,
    out: &mut O,
    err: &mut E,
    note: &mut Vec<u8>,
) -> u8
    ensures status { IsPairStatus result }
    ensures answer { IsDiffStatus
        (effects F.Folder F.Reader.ByteIn F.Sink.ByteOut F.NewFile.ByteOut folder.now folder.now)
        (written O.ByteOut out.old out.new) (written E.ByteOut err.old err.new) kinds.now files.now form.entry result }
    ensures note { HasNoteOf
        (inputs F.Folder F.Reader.ByteIn folder.now) kinds.now files.now.scd.now result note.old.items note.new.items }
{
    match sheets::diff(alloc, folder, kinds, files, form, note) {
        Ok(difference) => put_difference(&difference, out, err),
        Err(fault) => {
            let paths = [files.scd, files.dic, files.first, files.second, "-"];
            let outcome = Outcome::Fault(fault);
            report::answer(alloc, folder, out, err, WORDS, &outcome, &paths)
        }
    }
}

// Writes what differs, and gives the status.
fn put_difference<O: ByteOut, E: ByteOut>(difference: &Difference, out: &mut O, err: &mut E) -> u8
    ensures status { (result ≡ 4) ⊎ MatchBool difference.now.same (result ≡ 0) (result ≡ 1) }
    ensures answer { result < 3
        → Answers (written O.ByteOut out.old out.new) (written E.ByteOut err.old err.new) difference.now.text.items }
    ensures unsaid { result ≡ 4 → IsUnsaid (written O.ByteOut out.old out.new) (written E.ByteOut err.old err.new) }
{
    if put_all(out, &difference.text).is_err() {
        return report::say_unwritten(err);
    }
    if difference.same { 0 } else { DIFFERENT_STATUS }
}
