//! The lines that standard error is told of deliveries.
ghost use Rattle.std.specs.Prelude.{◌≡◌, ◌++◌, ◌&&◌, IfOk, IsTrue, MatchResult, OnOk, codes, filter, flat_map, map, not, option_to_list, string_bytes};
ghost use Rattle.std.specs.Fmt.{decimal};
ghost use Rattle.std.specs.List.{list_any};
ghost use Rattle.std.specs.Str.{bytes_eq};
ghost use Rattle.edi_answers.specs.Effects.{written};
ghost use Rattle.edi_answers.specs.Hashes.{named_line};
ghost use Rattle.edi_answers.specs.Notes.{WritesNoteIfAny};
ghost use Rattle.edi_answers.specs.Statuses.{LacksMemory};
ghost use Rattle.edi_delivery.specs.Lots.{files_of};
ghost use Rattle.edi_deliveries.specs.Deliveries.{found_name, found_names, is_unnamed, missing_line, missing_lines, refusal_words, unnamed_line, unnamed_lines};
ghost use Rattle.edi_deliveries.specs.inner.Paths.{HasJustNames};

use crate::found::{FolderNames, has_extension};
use edi_answers::hashes::{escape_name, push_named};
use edi_answers::{notes, report};
use edi_delivery::{DeliveryFault, Lot};
use edi_files::{Reason, push_reason};
use edi_hash::NameHash;
use edi_line::{ByteOut, LineFault};
use edi_record::RecordFault;
use indexmap::IndexSet;
use std::alloc::{AllocError, Global};

/// Writes lines, if there are any and there was memory for them, and gives this status, or that of lack of memory.
pub(crate) fn say_lines<E: ByteOut>(
    err: &mut E,
    lines: &Result<Vec<u8>, AllocError>,
    status: u8,
) -> u8
    ensures said { MatchResult lines.now (λ lines. (result ≡ status)
        × WritesNoteIfAny (written E.ByteOut err.old err.new) lines.items)
        (λ _. (result ≡ 5) × LacksMemory (written E.ByteOut err.old err.new)) }
    ensures stays { IsTrue (E.has_failed err.old) → IsTrue (E.has_failed err.new) }
{
    match lines {
        Ok(lines) => {
            notes::say(err, lines);
            status
        }
        Err(_) => report::out_of_memory(err),
    }
}

// What stands before a name, and the name.
fn path_bytes(alloc: Global, before: &str, name: &[u8]) -> Result<Vec<u8>, AllocError>
    ensures { IfOk result (λ path. path.items ≡ before.now ++ name.now) }
{
    let mut path = Vec::from_slice(alloc, before.as_bytes())?;
    path.extend_from_slice(name)?;
    Ok(path)
}

// Appends the lines on a file that is missing.
fn push_missing(
    alloc: Global,
    lines: &mut Vec<u8>,
    before: &str,
    file: &[u8],
) -> Result<(), AllocError>
    ensures { OnOk result (lines.new.items ≡ lines.old.items ++ missing_line (before.now ++ file.now)) }
{
    let path = path_bytes(alloc, before, file)?;
    push_named(alloc, lines, &path, b"cannot read")?;
    let name = escape_name(alloc, &path)?;
    push_reason(lines, &name, Reason::NoFile)
}

/// The lines on the files of a lot that are missing.
pub(crate) fn missing_lines(
    alloc: Global,
    before: &str,
    names: &FolderNames<'_>,
    lot: &Lot,
) -> Result<Vec<u8>, AllocError>
    ensures { IfOk result (λ lines. lines.items ≡ missing_lines before.now (names.now) lot.now) }
{
    let files = lot.files(alloc)?;
    let mut lines = Vec::new(alloc);
    for file in &files {
        if names.find(alloc, file)?.is_none() {
            push_missing(alloc, &mut lines, before, file.as_slice())?;
        }
    }
    Ok(lines)
}

// Appends the names of the files of a lot, as they lie there.
fn push_found<'a>(
    alloc: Global,
    found: &mut Vec<&'a str>,
    names: &FolderNames<'a>,
    lot: &Lot,
) -> Result<(), AllocError>
    ensures { OnOk result (map (λ name. name.now) found.new.items
        ≡ map (λ name. name.now) found.old.items
        ++ flat_map (λ file. option_to_list (found_name (names.now) file)) (files_of lot.now)) }
{
    let files = lot.files(alloc)?;
    for file in &files {
        if let Some(name) = names.find(alloc, file)? {
            found.push(name)?;
        }
    }
    Ok(())
}

/// The names of all the files of lots, as they lie there.
pub(crate) fn found_names<'a>(
    alloc: Global,
    names: &FolderNames<'a>,
    lots: &[Lot],
) -> Result<Vec<&'a str>, AllocError>
    ensures { IfOk result (λ found. map (λ name. name.now) found.items ≡ found_names (names.now) lots.now) }
{
    let mut found = Vec::new(alloc);
    for lot in lots {
        push_found(alloc, &mut found, names, lot)?;
    }
    Ok(found)
}

// The same in a table, so that each name in the folder is looked up in it.
fn found_table<'a>(
    alloc: Global,
    names: &FolderNames<'a>,
    lots: &[Lot],
) -> Result<IndexSet<&'a str, NameHash>, AllocError>
    ensures { IfOk result (HasJustNames (found_names (names.now) lots.now)) }
{
    let found = found_names(alloc, names, lots)?;
    let mut table = IndexSet::with_hasher(alloc, names.hash());
    for name in &found {
        table.insert(*name)?;
    }
    Ok(table)
}

// Whether a name is among these.
fn is_among(found: &IndexSet<&str, NameHash>, name: &str) -> bool
    ensures { result ≡ list_any (bytes_eq name.now) (map (λ other. other.now) found.now.keys) }
{
    found.contains(name)
}

// Whether it is the name of a VEC file that isn't among those that were found.
fn is_unnamed(found: &IndexSet<&str, NameHash>, name: &str) -> bool
    ensures { result ≡ is_unnamed (map (λ other. other.now) found.now.keys) name.now }
{
    has_extension("VEC", name) && !is_among(found, name)
}

/// The lines on the VEC files that are there and that no lot names.
pub(crate) fn unnamed_lines(
    alloc: Global,
    before: &str,
    names: &FolderNames<'_>,
    lots: &[Lot],
) -> Result<Vec<u8>, AllocError>
    ensures { IfOk result (λ lines. lines.items ≡ unnamed_lines before.now names.now lots.now) }
{
    let found = found_table(alloc, names, lots)?;
    lines_on_unnamed(alloc, before, names.all(), &found)
}

// The lines on the VEC files among names that aren't among those that were found.
fn lines_on_unnamed(
    alloc: Global,
    before: &str,
    names: &[String],
    found: &IndexSet<&str, NameHash>,
) -> Result<Vec<u8>, AllocError>
    ensures { IfOk result (λ lines. lines.items ≡ flat_map (λ name. unnamed_line (before.now ++ name))
        (filter (is_unnamed (map (λ other. other.now) found.now.keys)) (map string_bytes names.now))) }
{
    let mut lines = Vec::new(alloc);
    for name in names {
        if is_unnamed(found, name) {
            let path = path_bytes(alloc, before, name.as_bytes())?;
            push_named(alloc, &mut lines, &path, b"not named in the THF file")?;
        }
    }
    Ok(lines)
}

// The words of a rule that a THF file breaks, and where.
fn rule_words(alloc: Global, rule: u16, place: &[u8], at: u64) -> Result<Vec<u8>, AllocError>
    ensures { IfOk result (λ words. words.items ≡ codes "refused thf " ++ decimal rule ++ place.now ++ decimal at) }
{
    let mut words = Vec::from_slice(alloc, b"refused thf ")?;
    words.extend_from_slice(rule.to_string(alloc)?.as_bytes())?;
    words.extend_from_slice(place)?;
    words.extend_from_slice(at.to_string(alloc)?.as_bytes())?;
    Ok(words)
}

// The words of a refused THF file.
fn refusal_words(alloc: Global, fault: &DeliveryFault) -> Result<Vec<u8>, AllocError>
    ensures { IfOk result (λ words. words.items ≡ refusal_words fault.now) }
{
    match fault {
        DeliveryFault::Line(LineFault::Broken { rule, at }) => rule_words(
            alloc, *rule, b" line ", *at,
        ),
        DeliveryFault::Record(RecordFault::Broken { rule, at }) => {
            rule_words(alloc, *rule, b" record ", *at)
        }
        DeliveryFault::Line(LineFault::Memory(_)) | DeliveryFault::Record(RecordFault::Memory(_)) =>
            { Vec::from_slice(alloc, b"out of memory") }
    }
}

/// The line of a refused THF file.
pub(crate) fn refusal_line(
    alloc: Global,
    thf: &str,
    fault: &DeliveryFault,
) -> Result<Vec<u8>, AllocError>
    ensures { IfOk result (λ line. line.items ≡ named_line thf.now (refusal_words fault.now)) }
{
    let words = refusal_words(alloc, fault)?;
    let mut line = Vec::new(alloc);
    push_named(alloc, &mut line, thf.as_bytes(), &words)?;
    Ok(line)
}
