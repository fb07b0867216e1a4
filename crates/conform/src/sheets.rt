//! Sheets through each call that takes one: all have to answer the same.

use crate::case::Case;
use crate::phases;
use crate::refusals::{push_run_fault, push_sheet_fault};
use crate::setting::Setting;
use crate::text::push_file;
use edi_compare::{RunFault, accept, canon, canon_of, run_bundle, run_canon, run_check};
use edi_line::{ScriptIn, ScriptOut};
use edi_schema::Schema;
use std::alloc::{AllocError, Global};

/// The calls that take a sheet and answer as `canon` does.
#[derive(Clone, Copy)]
enum Call {
    Accept,
    Phases,
    RunCheck,
    CanonOf,
    RunCanon,
    RunBundle,
}

impl Call {
    fn name(self) -> &'static str {
        match self {
            Call::Accept => "accept",
            Call::Phases => "a call of each phase",
            Call::RunCheck => "run_check",
            Call::CanonOf => "canon_of",
            Call::RunCanon => "run_canon",
            Call::RunBundle => "run_bundle",
        }
    }
}

/// The canonical file of a sheet, or its refusal; and each call that answers something else.
pub(crate) fn push_canonical(
    alloc: Global,
    setting: &Setting<'_>,
    schema: &Schema,
    case: &Case<'_>,
    text: &mut String,
) -> Result<(), AllocError> {
    let sheet = case.input(0).as_bytes();
    push_canon(alloc, schema, sheet, text)?;
    let answer = text.clone()?;
    for call in [
        Call::Accept,
        Call::Phases,
        Call::RunCheck,
        Call::CanonOf,
        Call::RunCanon,
        Call::RunBundle,
    ] {
        if !agrees(alloc, setting, schema, call, sheet, answer.as_str())? {
            writeln!(text, "{} answers something else", call.name())?;
        }
    }
    Ok(())
}

// What `canon` answers: the canonical file, its lines ended by LF alone here, or the refusal.
fn push_canon(
    alloc: Global,
    schema: &Schema,
    sheet: &[u8],
    text: &mut String,
) -> Result<(), AllocError> {
    match canon(alloc, schema, sheet) {
        Ok(file) => push_file(alloc, text, &file),
        Err(fault) => push_sheet_fault(text, "", fault),
    }
}

// Whether a call answers as `canon` did: the same, or that the sheet is accepted where `canon` gave a file.
fn agrees(
    alloc: Global,
    setting: &Setting<'_>,
    schema: &Schema,
    call: Call,
    sheet: &[u8],
    answer: &str,
) -> Result<bool, AllocError> {
    let mut verdict = String::new(alloc);
    push_verdict(alloc, setting, schema, call, sheet, &mut verdict)?;
    if verdict.as_str() == "accepted\n" {
        Ok(!answer.starts_with("refused"))
    } else {
        Ok(verdict.as_str() == answer)
    }
}

fn push_verdict(
    alloc: Global,
    setting: &Setting<'_>,
    schema: &Schema,
    call: Call,
    sheet: &[u8],
    text: &mut String,
) -> Result<(), AllocError> {
    match call {
        Call::Accept => push_accept(alloc, schema, sheet, text),
        Call::Phases => phases::push_canonical(alloc, schema, sheet, text),
        Call::RunCheck => push_run_check(alloc, setting, sheet, text),
        Call::CanonOf => push_canon_of(alloc, setting, sheet, text),
        Call::RunCanon => push_run_canon(alloc, setting, sheet, text),
        Call::RunBundle => push_run_bundle(alloc, setting, sheet, text),
    }
}

fn push_accept(
    alloc: Global,
    schema: &Schema,
    sheet: &[u8],
    text: &mut String,
) -> Result<(), AllocError> {
    match accept(alloc, schema, sheet) {
        Ok(_) => text.push_str("accepted\n"),
        Err(fault) => push_sheet_fault(text, "", fault),
    }
}

// Bytes to be read in pieces of 100 at most.
fn reader(bytes: &[u8]) -> ScriptIn<'_> {
    ScriptIn::new(bytes, 100, 0, false)
}

fn push_run_check(
    alloc: Global,
    setting: &Setting<'_>,
    sheet: &[u8],
    text: &mut String,
) -> Result<(), AllocError> {
    let mut scd = reader(setting.scd.as_bytes());
    let mut dic = reader(setting.dic.as_bytes());
    let mut vec = reader(sheet);
    match run_check(alloc, &setting.kinds, &mut scd, &mut dic, &mut vec) {
        Ok(()) => text.push_str("accepted\n"),
        Err(fault) => push_run_fault(text, "", fault),
    }
}

fn push_canon_of(
    alloc: Global,
    setting: &Setting<'_>,
    sheet: &[u8],
    text: &mut String,
) -> Result<(), AllocError> {
    let mut scd = reader(setting.scd.as_bytes());
    let mut dic = reader(setting.dic.as_bytes());
    let mut vec = reader(sheet);
    match canon_of(alloc, &setting.kinds, &mut scd, &mut dic, &mut vec) {
        Ok(file) => push_file(alloc, text, &file),
        Err(fault) => push_run_fault(text, "", fault),
    }
}

// Room for the canonical file of any case.
const ROOM: usize = 1 << 20;

// What `run_canon` writes, in pieces of 100 bytes at most.
fn push_run_canon(
    alloc: Global,
    setting: &Setting<'_>,
    sheet: &[u8],
    text: &mut String,
) -> Result<(), AllocError> {
    let mut out = ScriptOut::new(alloc, ROOM, 100, 0)?;
    let mut scd = reader(setting.scd.as_bytes());
    let mut dic = reader(setting.dic.as_bytes());
    let mut vec = reader(sheet);
    let kinds = &setting.kinds;
    let run = run_canon(alloc, kinds, &mut scd, &mut dic, &mut vec, &mut out);
    push_written(alloc, run, out.out(), text)
}

// What `run_bundle` writes of the three files, one after the other.
fn push_run_bundle(
    alloc: Global,
    setting: &Setting<'_>,
    sheet: &[u8],
    text: &mut String,
) -> Result<(), AllocError> {
    let bundle = bundle_of(alloc, setting, sheet)?;
    let mut out = ScriptOut::new(alloc, ROOM, 100, 0)?;
    let run = run_bundle(alloc, &setting.kinds, &mut reader(&bundle), &mut out);
    push_written(alloc, run, out.out(), text)
}

/// The schema file, the dictionary and a sheet, one after the other.
pub(crate) fn bundle_of(
    alloc: Global,
    setting: &Setting<'_>,
    sheet: &[u8],
) -> Result<Vec<u8>, AllocError> {
    let mut bundle = Vec::from_slice(alloc, setting.scd.as_bytes())?;
    bundle.extend_from_slice(setting.dic.as_bytes())?;
    bundle.extend_from_slice(sheet)?;
    Ok(bundle)
}

// What went out of a run that ended so. A refused sheet writes nothing.
fn push_written(
    alloc: Global,
    run: Result<(), RunFault>,
    out: &[u8],
    text: &mut String,
) -> Result<(), AllocError> {
    match run {
        Ok(()) => push_file(alloc, text, out),
        Err(fault) => {
            push_file(alloc, text, out)?;
            push_run_fault(text, "", fault)
        }
    }
}
