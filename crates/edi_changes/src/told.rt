//! What is said of changes.

ghost use Rattle.std.specs.Prelude.{◌≡◌, ◌⊎◌, ◌≤◌, ◌++◌, ℕ, IfOk, IsTrue, OnOk, length};
ghost use Rattle.std.specs.List.{list_all};
ghost use Rattle.edi_answers.specs.Effects.{written};
ghost use Rattle.edi_answers.specs.Statuses.{Answers, IsUnsaid, PrintsFirst};
ghost use Rattle.edi_changes.specs.Told.{change_line, changes_text, count_of, counts_line, fate_number, is_same, status_of_changes, word_line};

use crate::changes::{Change, Fate};
use edi_answers::hashes::{escape_mark, escape_name};
use edi_answers::report;
use edi_line::{ByteOut, push_number};
use edi_write::put_all;
use std::alloc::{AllocError, Global};

/// What is said of changes, and its status.
#[derive(Drop)]
pub struct Told {
    pub text: Vec<u8>,
    pub status: u8,
}

/// A line for each subject that is new, gone or changed, and then how many there are.
pub fn changes_text(alloc: Global, changes: &[Change]) -> Result<Vec<u8>, AllocError>
    ensures { IfOk result (λ text. text.items ≡ changes_text changes.now) }
{
    let mut text = Vec::new(alloc);
    for change in changes {
        push_change(alloc, &mut text, change.fate, change.subject.as_slice())?;
    }
    text.extend_from_slice(&counts_line(alloc, changes)?)?;
    Ok(text)
}

/// 0 where each subject is the same, and else 1.
pub fn status_of_changes(changes: &[Change]) -> u8
    ensures value { result ≡ status_of_changes changes.now }
    ensures small { (result ≡ 0) ⊎ (result ≡ 1) }
{
    if are_same(changes) { 0 } else { 1 }
}

// Whether each subject is the same.
fn are_same(changes: &[Change]) -> bool
    ensures { result ≡ list_all (λ c. is_same c.fate) changes.now }
{
    changes.iter().all(|change| is_same(change.fate))
}

// Whether nothing has become of a subject.
fn is_same(fate: Fate) -> bool
    ensures { result ≡ is_same fate }
{
    matches!(fate, Fate::Same)
}

// Appends the line on a change, if there is one.
fn push_change(
    alloc: Global,
    text: &mut Vec<u8>,
    fate: Fate,
    subject: &[u8],
) -> Result<(), AllocError>
    ensures { OnOk result (text.new.items ≡ text.old.items ++ change_line fate subject.now) }
{
    match fate {
        Fate::New => push_line(alloc, text, b"new ", subject),
        Fate::Gone => push_line(alloc, text, b"gone ", subject),
        Fate::Changed => push_line(alloc, text, b"changed ", subject),
        Fate::Same => Ok(()),
    }
}

// Appends the line on a subject, by a word.
fn push_line(
    alloc: Global,
    text: &mut Vec<u8>,
    word: &[u8],
    subject: &[u8],
) -> Result<(), AllocError>
    ensures { OnOk result (text.new.items ≡ text.old.items ++ word_line word.now subject.now) }
{
    text.extend_from_slice(&escape_mark(alloc, subject)?)?;
    text.extend_from_slice(word)?;
    text.extend_from_slice(&escape_name(alloc, subject)?)?;
    text.push(b'\n')?;
    Ok(())
}

// The last line.
fn counts_line(alloc: Global, changes: &[Change]) -> Result<Vec<u8>, AllocError>
    ensures { IfOk result (λ line. line.items ≡ counts_line changes.now) }
{
    let mut line = Vec::new(alloc);
    push_number(&mut line, count_of(Fate::New, changes) as u64)?;
    line.extend_from_slice(b" new, ")?;
    push_number(&mut line, count_of(Fate::Gone, changes) as u64)?;
    line.extend_from_slice(b" gone, ")?;
    push_number(&mut line, count_of(Fate::Changed, changes) as u64)?;
    line.extend_from_slice(b" changed, ")?;
    push_number(&mut line, count_of(Fate::Same, changes) as u64)?;
    line.extend_from_slice(b" the same\n")?;
    Ok(line)
}

// How many subjects have a fate.
fn count_of(fate: Fate, changes: &[Change]) -> usize
    ensures value { result ≡ count_of fate changes.now }
    ensures within { result ≤ length changes.now }
{
    changes
        .iter()
        .filter(|change| fate_number(change.fate) == fate_number(fate))
        .count()
}

// A number for each fate.
fn fate_number(fate: Fate) -> u8
    ensures { result ≡ fate_number fate }
{
    match fate {
        Fate::New => 0,
        Fate::Gone => 1,
        Fate::Changed => 2,
        Fate::Same => 3,
    }
}

/// Writes what is said, and gives the status.
pub fn put_told<O: ByteOut, E: ByteOut>(told: &Told, out: &mut O, err: &mut E) -> u8
    ensures said { (Answers (written O.ByteOut out.old out.new) (written E.ByteOut err.old err.new) told.now.text.items
        × (result ≡ told.now.status))
        ⊎ (((count : ℕ) × PrintsFirst (written O.ByteOut out.old out.new) count told.now.text.items)
        × IsUnsaid (written O.ByteOut out.old out.new) (written E.ByteOut err.old err.new) × (result ≡ 4)) }
    ensures stays { IsTrue (E.has_failed err.old) → IsTrue (E.has_failed err.new) }
{
    match put_all(out, &told.text) {
        Ok(()) => told.status,
        Err(_) => report::say_unwritten(err),
    }
}
