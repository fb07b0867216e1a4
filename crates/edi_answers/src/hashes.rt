//! The digests of the canonical files of many sheets.
ghost use Rattle.std.specs.Prelude.{◌≡◌, ◌≢◌, ◌++◌, ℕ, [], IfErr, IfOk, IsTrue, List, OnErr, OnOk, Option, map, take};
ghost use Rattle.std.specs.Io.KnownBytes.{Appends};
ghost use Rattle.std.specs.List.{list_any};
ghost use Rattle.edi_answers.specs.Effects.{effects, inputs, written};
ghost use Rattle.edi_answers.specs.Hashes.{AnswersAll, AnswersHeaded, AnswersUnder, GivesSchema, IsAnswerOf, IsAnswerSaid, IsHashStatus, LoadFault, TellsFault, digest_line, escaped_name, fault_line, is_escaped, mark_of, named_line, refused_path, schema_fault_path, schema_line, schema_values};
ghost use Rattle.edi_schema.specs.SchemaRefusal.{IsGoodSchema};
ghost use Rattle.edi_compare.specs.Runs.{MatchFault, RefusesSchema};
ghost use Rattle.edi_answers.specs.Notes.{IsNote, IsNoteOn};
ghost use Rattle.edi_answers.specs.inner.Hashes.{IsAnswerText, IsSchemaText, StepsOn, OutputStopsAt, TellsSheetFault};
ghost use Rattle.edi_files.specs.Reasons.{reason_line};
ghost use Rattle.edi_files.specs.declared.reason.Reason.{Reason};
ghost use Rattle.edi_answers.specs.Reasons.{IsReasonOf};
ghost use Rattle.edi_answers.specs.Statuses.{IsSheetStatus, Warns};
ghost use Rattle.edi_json.specs.Texts.{ReadsAs, json_text};

use crate::form::AnswerForm;
use crate::hinted::hints_at;
use crate::notes::note_of;
use crate::reason::add_reason;
use crate::sheets::open_input;
use crate::{notes, report};
use edi_compare::{Input, RunFault, canon_under, load_or_fault, read_input};
use edi_files::Folder;
use edi_json_answers::digests::{
    json_of_refused_sheet, json_of_schema_digest, json_of_sheet_digest,
};
use edi_line::ByteOut;
use edi_outcome::{line_of_sheet, status_of_fault};
use edi_schema::{Schema, SchemaFault, Source};
use edi_schema_text::schema_digest;
use edi_words::{GivenKinds, ManyFiles};
use edi_write::{Written, put_all};
use sha2::{Digest, Sha256};
use std::alloc::{AllocError, Global};

/// Writes a line for each sheet, in order: the digest of its canonical file and its name to `out`, or its name and why
/// it has none to `err`; and above these that of the schema, where it is asked for. As JSON `out` also gets a line for
/// a sheet that is refused, before `err` says why (docs/JSON.md, "Digests"). Gives the greatest of their statuses, or 4
/// as soon as `out` fails. The schema is loaded once, before any sheet is opened; where there is none, `err` says why
/// by the name of its file, and where a kind of link has no class, `err` says so first. Behind the line of a sheet that
/// is refused by 304, `err` says which of the siblings, VEC files of the same lot, has the record that a link points
/// at.
pub fn hash<F: Folder, O: ByteOut, E: ByteOut>(
    alloc: Global,
    folder: &F,
    kinds: &GivenKinds<'_>,
    files: &ManyFiles<'_>,
    form: AnswerForm,
    with_schema: bool,
    siblings: &[&str],
    out: &mut O,
    err: &mut E,
) -> u8
    ensures status { IsSheetStatus result }
    ensures answer { IsHashStatus
        (effects F.Folder F.Reader.ByteIn F.Sink.ByteOut F.NewFile.ByteOut folder.now folder.now)
        (written O.ByteOut out.old out.new) (written E.ByteOut err.old err.new) kinds.now files.now form with_schema
        (map (λ p. p.now) siblings.now) result }
    ensures out_stays { IsTrue (O.has_failed out.old) → IsTrue (O.has_failed out.new) }
    ensures stays { IsTrue (E.has_failed err.old) → IsTrue (E.has_failed err.new) }
{
    match load_schema(alloc, folder, kinds, files) {
        Ok(loaded) => {
            notes::say(err, &loaded.note);
            let schema = &loaded.schema;
            answer_under(
                alloc,
                folder,
                schema,
                siblings,
                form,
                files,
                with_schema,
                out,
                err,
            )
        }
        Err(fault) => tell_fault(alloc, folder, &fault, path_of_schema(files, &fault), err),
    }
}

/// A schema, and the note on its kinds.
pub struct NotedSchema {
    pub schema: Schema,
    pub note: Vec<u8>,
}

impl Drop for NotedSchema {
    fn drop(self) {
        let NotedSchema { schema: _, note: _ } = self;
    }
}

/// The schema of two files, with the note on its kinds. Both are opened before the first is read.
pub fn load_schema<F: Folder>(
    alloc: Global,
    folder: &F,
    kinds: &GivenKinds<'_>,
    files: &ManyFiles<'_>,
) -> Result<NotedSchema, RunFault>
    ensures ok { IfOk result (λ loaded.
        GivesSchema (inputs F.Folder F.Reader.ByteIn folder.now) kinds.now files.now loaded.schema loaded.note.items) }
    ensures err { IfErr result (LoadFault (inputs F.Folder F.Reader.ByteIn folder.now) kinds.now files.now) }
{
    let mut scd = open_input(folder, files.scd, Input::Scd)?;
    let mut dic = open_input(folder, files.dic, Input::Dic)?;
    let scd: Vec<u8> = read_input(alloc, &mut scd, Input::Scd)?;
    let dic: Vec<u8> = read_input(alloc, &mut dic, Input::Dic)?;
    match noted_schema(alloc, kinds, files, &scd, &dic) {
        Ok(noted) => Ok(noted),
        Err(fault) => Err(fault),
    }
}

// The schema of two files that were read, with the note on its kinds.
fn noted_schema(
    alloc: Global,
    kinds: &GivenKinds<'_>,
    files: &ManyFiles<'_>,
    scd: &[u8],
    dic: &[u8],
) -> Result<NotedSchema, RunFault>
    ensures ok { IfOk result (λ noted. IsGoodSchema scd.now dic.now kinds.now noted.schema
        × IsNote kinds.now scd.now (escaped_name files.now.scd.now) noted.note.items) }
    ensures err { IfErr result (λ e.
        MatchFault e (λ _. ⊥) (λ _. ⊥) (RefusesSchema kinds.now scd.now dic.now) (λ _. ⊥) (λ _. ⊥) (λ _. ⊥)) }
{
    match load_or_fault(alloc, kinds.kinds(), scd, dic) {
        Ok(schema) => match note_on(alloc, kinds, files, scd) {
            Ok(note) => Ok(NotedSchema { schema, note }),
            Err(error) => Err(RunFault::Memory(error)),
        },
        Err(fault) => Err(fault),
    }
}

// The note on the file of classes, by its name.
fn note_on(
    alloc: Global,
    kinds: &GivenKinds<'_>,
    files: &ManyFiles<'_>,
    scd: &[u8],
) -> Result<Vec<u8>, AllocError>
    ensures { IfOk result (λ note. IsNoteOn kinds.now scd.now (escaped_name files.now.scd.now) note.items) }
{
    let name = escape_name(alloc, files.scd.as_bytes())?;
    note_of(alloc, kinds.codes(), scd, &name)
}

// Writes the line of the schema, where it is asked for, and answers each sheet.
fn answer_under<F: Folder, O: ByteOut, E: ByteOut>(
    alloc: Global,
    folder: &F,
    schema: &Schema,
    siblings: &[&str],
    form: AnswerForm,
    files: &ManyFiles<'_>,
    with_schema: bool,
    out: &mut O,
    err: &mut E,
) -> u8
    ensures status { IsSheetStatus result }
    ensures answer { AnswersUnder (inputs F.Folder F.Reader.ByteIn folder.now) (F.why folder.now) schema.now
        (map (λ p. p.now) siblings.now) form (written O.ByteOut out.old out.new) (written E.ByteOut err.old err.new)
        files.now with_schema result }
    ensures out_stays { IsTrue (O.has_failed out.old) → IsTrue (O.has_failed out.new) }
    ensures stays { IsTrue (E.has_failed err.old) → IsTrue (E.has_failed err.new) }
{
    let sheets = &files.sheets;
    if with_schema {
        answer_schema_and_sheets(alloc, folder, schema, siblings, form, files, out, err)
    } else {
        answer_all(alloc, folder, schema, siblings, form, sheets, out, err)
    }
}

// Writes the line of the schema, and answers each sheet.
fn answer_schema_and_sheets<F: Folder, O: ByteOut, E: ByteOut>(
    alloc: Global,
    folder: &F,
    schema: &Schema,
    siblings: &[&str],
    form: AnswerForm,
    files: &ManyFiles<'_>,
    out: &mut O,
    err: &mut E,
) -> u8
    ensures status { IsSheetStatus result }
    ensures answer { AnswersHeaded (inputs F.Folder F.Reader.ByteIn folder.now) (F.why folder.now) schema.now
        (map (λ p. p.now) siblings.now) form (written O.ByteOut out.old out.new) (written E.ByteOut err.old err.new)
        files.now result }
    ensures out_stays { IsTrue (O.has_failed out.old) → IsTrue (O.has_failed out.new) }
    ensures stays { IsTrue (E.has_failed err.old) → IsTrue (E.has_failed err.new) }
{
    let Ok(line) = text_of_schema_digest(alloc, form, schema, files.scd.as_bytes()) else {
        return report::out_of_memory(err);
    };
    match put_all(out, &line) {
        Ok(()) => answer_all(
            alloc,
            folder,
            schema,
            siblings,
            form,
            &files.sheets,
            out,
            err,
        ),
        Err(_) => report::say_unwritten(err),
    }
}

// Answers each sheet in order, and gives the greatest status.
fn answer_all<F: Folder, O: ByteOut, E: ByteOut>(
    alloc: Global,
    folder: &F,
    schema: &Schema,
    siblings: &[&str],
    form: AnswerForm,
    sheets: &[&str],
    out: &mut O,
    err: &mut E,
) -> u8
    ensures status { IsSheetStatus result }
    ensures answer { AnswersAll (inputs F.Folder F.Reader.ByteIn folder.now) (F.why folder.now) schema.now
        (map (λ p. p.now) siblings.now) form (written O.ByteOut out.old out.new) (written E.ByteOut err.old err.new)
        (map (λ p. p.now) sheets.now) result }
    ensures out_stays { IsTrue (O.has_failed out.old) → IsTrue (O.has_failed out.new) }
    ensures stays { IsTrue (E.has_failed err.old) → IsTrue (E.has_failed err.new) }
{
    let mut worst = 0;
    for path in sheets {
        match answer(alloc, folder, schema, siblings, form, path, out, err) {
            Ok(status) => worst = worst.max(status),
            Err(_) => return report::say_unwritten(err),
        }
    }
    worst
}

// Answers a sheet, and gives its status, unless its text can't be written.
fn answer<F: Folder, O: ByteOut, E: ByteOut>(
    alloc: Global,
    folder: &F,
    schema: &Schema,
    siblings: &[&str],
    form: AnswerForm,
    path: &str,
    out: &mut O,
    err: &mut E,
) -> Result<u8, Written>
    ensures status { IfOk result IsSheetStatus }
    ensures ok { IfOk result
        (StepsOn (inputs F.Folder F.Reader.ByteIn folder.now) (F.why folder.now) schema.now
        (map (λ p. p.now) siblings.now) form path.now (written O.ByteOut out.old out.new)
        (written E.ByteOut err.old err.new)) }
    ensures err { IfErr result (λ w. OutputStopsAt (inputs F.Folder F.Reader.ByteIn folder.now) schema.now form path.now
        (written O.ByteOut out.old out.new) × (err.new ≡ err.old)) }
    ensures out_stays { IsTrue (O.has_failed out.old) → IsTrue (O.has_failed out.new) }
    ensures stays { IsTrue (E.has_failed err.old) → IsTrue (E.has_failed err.new) }
{
    let answer = digest_of(alloc, folder, schema, path);
    let Ok(text) = text_of_answer(alloc, form, &answer, path.as_bytes()) else {
        return Ok(report::out_of_memory(err));
    };
    match put_unless_empty(out, &text) {
        Ok(()) => Ok(tell_answer(alloc, folder, siblings, &answer, path, err)),
        Err(written) => Err(written),
    }
}

// Writes a text, where it isn't empty.
fn put_unless_empty<O: ByteOut>(out: &mut O, text: &[u8]) -> Result<(), Written>
    ensures ok { OnOk result (Appends (O.contents out.old) (O.contents out.new) text.now) }
    ensures err { IfErr result (λ w. Appends (O.contents out.old) (O.contents out.new) (take w.count text.now)) }
    ensures some { OnErr result (text.now ≢ []) }
    ensures failed { OnErr result (IsTrue (O.has_failed out.new)) }
    ensures stays { IsTrue (O.has_failed out.old) → IsTrue (O.has_failed out.new) }
{
    if text.is_empty() {
        Ok(())
    } else {
        put_all(out, text)
    }
}

// Says what is wrong with the sheet of a path, where something is, and gives the status.
fn tell_answer<F: Folder, E: ByteOut>(
    alloc: Global,
    folder: &F,
    siblings: &[&str],
    answer: &Result<[u8; 32], RunFault>,
    path: &str,
    err: &mut E,
) -> u8
    ensures status { IsSheetStatus result }
    ensures contents { (said : List ℕ) × IsAnswerSaid (inputs F.Folder F.Reader.ByteIn folder.now) (F.why folder.now)
        (map (λ p. p.now) siblings.now) path.now answer.now said result
        × Warns (written E.ByteOut err.old err.new) said }
    ensures stays { IsTrue (E.has_failed err.old) → IsTrue (E.has_failed err.new) }
{
    match answer {
        Ok(_) => 0,
        Err(fault) => tell_sheet(alloc, folder, siblings, fault, path, err),
    }
}

// Says what is wrong with the sheet of a path, and then, where it is refused, what its file hints at. Gives the status.
fn tell_sheet<F: Folder, E: ByteOut>(
    alloc: Global,
    folder: &F,
    siblings: &[&str],
    fault: &RunFault,
    path: &str,
    err: &mut E,
) -> u8
    ensures status { IsSheetStatus result }
    ensures contents { TellsSheetFault (inputs F.Folder F.Reader.ByteIn folder.now) (F.why folder.now)
        (map (λ p. p.now) siblings.now) (written E.ByteOut err.old err.new) fault.now path.now result }
    ensures stays { IsTrue (E.has_failed err.old) → IsTrue (E.has_failed err.new) }
{
    let Ok(lines) = lines_of_fault(alloc, folder, fault, path) else {
        return report::out_of_memory(err);
    };
    report::warn(err, &lines);
    let Ok(hints) = hints_at(alloc, folder, siblings, fault, path) else {
        return report::out_of_memory(err);
    };
    report::warn(err, &hints);
    status_of_fault(fault)
}

/// Says what is wrong with the file of a path, and gives the status.
pub fn tell_fault<F: Folder, E: ByteOut>(
    alloc: Global,
    folder: &F,
    fault: &RunFault,
    path: &str,
    err: &mut E,
) -> u8
    ensures contents { TellsFault (F.why folder.now) (written E.ByteOut err.old err.new) fault.now path.now result }
    ensures stays { IsTrue (E.has_failed err.old) → IsTrue (E.has_failed err.new) }
{
    match lines_of_fault(alloc, folder, fault, path) {
        Ok(lines) => {
            report::warn(err, &lines);
            status_of_fault(fault)
        }
        Err(_) => report::out_of_memory(err),
    }
}

/// The file that keeps a schema from being loaded, by the fault that says why.
pub fn path_of_schema<'a>(files: &ManyFiles<'a>, fault: &RunFault) -> &'a str
    ensures { result.now ≡ schema_fault_path files.now fault.now }
{
    match fault {
        RunFault::Read { input: 1 } | RunFault::TooLong { input: 1 } | RunFault::Memory(_) => {
            files.scd
        }
        RunFault::Read { .. } | RunFault::TooLong { .. } => files.dic,
        RunFault::Schema(fault) => refused_path(files, fault),
        RunFault::First(_) | RunFault::Second(_) | RunFault::Write(_) => "",
    }
}

// The file of a refused schema.
fn refused_path<'a>(files: &ManyFiles<'a>, fault: &SchemaFault) -> &'a str
    ensures { result.now ≡ refused_path files.now fault.now }
{
    match fault {
        SchemaFault::Line { file, .. } | SchemaFault::Entry { file, .. } => match file {
            Source::Scd => files.scd,
            Source::Dic => files.dic,
        },
        SchemaFault::Kinds | SchemaFault::Memory(_) => files.scd,
    }
}

// The line of a fault, and then that of its reason, if the folder gives one.
fn lines_of_fault<F: Folder>(
    alloc: Global,
    folder: &F,
    fault: &RunFault,
    path: &str,
) -> Result<Vec<u8>, AllocError>
    ensures { IfOk result (λ lines. (reason : Option Reason) × IsReasonOf (F.why folder.now) fault.now path.now reason
        × (lines.items ≡ fault_line fault.now path.now ++ reason_line (escaped_name path.now) reason)) }
{
    let mut lines = line_of_fault(alloc, fault, path.as_bytes())?;
    let name = escape_name(alloc, path.as_bytes())?;
    add_reason(&mut lines, folder, fault, path, &name)?;
    Ok(lines)
}

/// The digest of the canonical file of the sheet of a path, or why it has none.
pub fn digest_of<F: Folder>(
    alloc: Global,
    folder: &F,
    schema: &Schema,
    path: &str,
) -> Result<[u8; 32], RunFault>
    ensures { IsAnswerOf (inputs F.Folder F.Reader.ByteIn folder.now) schema.now path.now result }
{
    let mut sheet = open_input(folder, path, Input::First)?;
    let canonical = canon_under(alloc, schema, &mut sheet)?;
    Ok(Sha256::digest(&canonical))
}

// The text in a form of what came of a sheet, by the name of its file.
fn text_of_answer(
    alloc: Global,
    form: AnswerForm,
    answer: &Result<[u8; 32], RunFault>,
    name: &[u8],
) -> Result<Vec<u8>, AllocError>
    ensures { IfOk result (λ text. IsAnswerText form name.now answer.now text.items) }
{
    match (form, answer) {
        (AnswerForm::Words, Ok(digest)) => line_of_digest(alloc, digest, name),
        (AnswerForm::Words, Err(_)) => Ok(Vec::new(alloc)),
        (AnswerForm::Json, Ok(digest)) => json_of_sheet_digest(alloc, name, digest),
        (AnswerForm::Json, Err(fault)) => json_of_refused_sheet(alloc, name, fault),
    }
}

// The line of a schema in a form, by the name of its file of classes.
fn text_of_schema_digest(
    alloc: Global,
    form: AnswerForm,
    schema: &Schema,
    name: &[u8],
) -> Result<Vec<u8>, AllocError>
    ensures { IfOk result (λ line. IsSchemaText form schema.now name.now line.items) }
{
    match form {
        AnswerForm::Words => line_of_schema(alloc, schema, name),
        AnswerForm::Json => json_of_schema(alloc, schema, name),
    }
}

// The line of JSON of a schema, by the name of its file of classes.
fn json_of_schema(alloc: Global, schema: &Schema, name: &[u8]) -> Result<Vec<u8>, AllocError>
    ensures text { IfOk result (λ line. line.items ≡ json_text (schema_values schema.now name.now)) }
    ensures read { IfOk result (λ line. ReadsAs line.items (schema_values schema.now name.now)) }
{
    let digest = schema_digest(alloc, schema)?;
    json_of_schema_digest(alloc, name, &digest)
}

// The line of words of a schema, by the name of its file of classes.
fn line_of_schema(alloc: Global, schema: &Schema, name: &[u8]) -> Result<Vec<u8>, AllocError>
    ensures { IfOk result (λ line. line.items ≡ schema_line schema.now name.now) }
{
    let digest = schema_digest(alloc, schema)?;
    let mut line = Vec::from_slice(alloc, b"schema ")?;
    line.extend_from_slice(&line_of_digest(alloc, &digest, name)?)?;
    Ok(line)
}

/// The line of a path, and words about it.
pub fn line_of_path(alloc: Global, path: &str, words: &[u8]) -> Result<Vec<u8>, AllocError>
    ensures { IfOk result (λ line. line.items ≡ named_line path.now words.now) }
{
    let mut line = Vec::new(alloc);
    push_named(alloc, &mut line, path.as_bytes(), words)?;
    Ok(line)
}

/// The line of a digest: a backslash where the name has an escape, the digits, two spaces and the name.
pub fn line_of_digest(alloc: Global, digest: &[u8], name: &[u8]) -> Result<Vec<u8>, AllocError>
    ensures { IfOk result (λ line. line.items ≡ digest_line digest.now name.now) }
{
    let mut line = escape_mark(alloc, name)?;
    line.extend_from_slice(hex::encode(alloc, digest)?.as_bytes())?;
    line.extend_from_slice(b"  ")?;
    line.extend_from_slice(&escape_name(alloc, name)?)?;
    line.push(b'\n')?;
    Ok(line)
}

// The line of a fault: a backslash where the name has an escape, the name, and what is wrong with its sheet.
fn line_of_fault(alloc: Global, fault: &RunFault, name: &[u8]) -> Result<Vec<u8>, AllocError>
    ensures { IfOk result (λ line. line.items ≡ fault_line fault.now name.now) }
{
    let mut line = escape_mark(alloc, name)?;
    line.extend_from_slice(&escape_name(alloc, name)?)?;
    line.extend_from_slice(b": ")?;
    line.extend_from_slice(&line_of_sheet(alloc, fault)?)?;
    Ok(line)
}

/// Appends the line of a name, as lines of digests show it, and words about it.
pub fn push_named(
    alloc: Global,
    lines: &mut Vec<u8>,
    name: &[u8],
    words: &[u8],
) -> Result<(), AllocError>
    ensures { OnOk result (lines.new.items ≡ lines.old.items ++ named_line name.now words.now) }
{
    lines.extend_from_slice(&escape_mark(alloc, name)?)?;
    lines.extend_from_slice(&escape_name(alloc, name)?)?;
    lines.extend_from_slice(b": ")?;
    lines.extend_from_slice(words)?;
    lines.push(b'\n')?;
    Ok(())
}

/// A backslash where the name has an escape, and else nothing.
pub fn escape_mark(alloc: Global, name: &[u8]) -> Result<Vec<u8>, AllocError>
    ensures { IfOk result (λ mark. mark.items ≡ mark_of name.now) }
{
    if has_escape(name) {
        Vec::from_slice(alloc, b"\\")
    } else {
        Ok(Vec::new(alloc))
    }
}

// Whether a line shows a byte of the name by an escape.
fn has_escape(name: &[u8]) -> bool
    ensures { result ≡ list_any is_escaped name.now }
{
    for byte in name {
        if is_escaped(*byte) {
            return true;
        }
    }
    false
}

// Whether a line shows a byte by an escape.
fn is_escaped(byte: u8) -> bool
    ensures { result ≡ is_escaped byte }
{
    matches!(byte, b'\\' | b'\n' | b'\r')
}

/// A name with its escapes.
pub fn escape_name(alloc: Global, name: &[u8]) -> Result<Vec<u8>, AllocError>
    ensures { IfOk result (λ text. text.items ≡ escaped_name name.now) }
{
    let mut text = Vec::with_capacity(alloc, name.len())?;
    for byte in name {
        match *byte {
            b'\\' => text.extend_from_slice(b"\\\\")?,
            b'\n' => text.extend_from_slice(b"\\n")?,
            b'\r' => text.extend_from_slice(b"\\r")?,
            other => text.push(other)?,
        }
    }
    Ok(text)
}
