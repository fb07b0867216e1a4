//! Whether a matching leaves nothing out.

ghost use Rattle.std.specs.Prelude.{◌≡◌, ◌↔◌, ◌<◌, ℕ, IfOk, IsTrue, false, length, slice_index_or, true};
ghost use Rattle.edi_matching.specs.Matchings.{IsMatched, IsTotal};

use edi_compare::contents::same_texts;
use edi_matching::Matching;
use edi_report::{LocatedSheet, reached_marks};
use std::alloc::{AllocError, Global};

/// Whether a matching leaves nothing out of two sheets with one character set.
pub(crate) fn is_same(
    alloc: Global,
    first: &LocatedSheet,
    second: &LocatedSheet,
    matching: &Matching,
) -> Result<bool, AllocError>
    requires { length matching.now.to ≡ length first.now.accepted.list }
    ensures { IfOk result (λ answer. IsTrue answer ↔ (IsTotal first.now.accepted second.now.accepted matching.now
        × (second.now.accepted.cse ≡ first.now.accepted.cse))) }
{
    let charset = first.accepted.sound().plan().cse();
    if !same_texts(second.accepted.sound().plan().cse(), charset) {
        return Ok(false);
    }
    is_total(alloc, first, second, matching)
}

/// Whether a matching leaves nothing out.
fn is_total(
    alloc: Global,
    first: &LocatedSheet,
    second: &LocatedSheet,
    matching: &Matching,
) -> Result<bool, AllocError>
    requires { length matching.now.to ≡ length first.now.accepted.list }
    ensures { IfOk result (λ answer. IsTrue answer ↔ IsTotal first.now.accepted second.now.accepted matching.now) }
{
    let to = matching.to.as_slice();
    if all_went(to) {
        let marks = reached_marks(alloc, to, second.accepted.sound().plan().len())?;
        Ok(all_marked(&marks))
    } else {
        Ok(false)
    }
}

/// Whether each record went somewhere.
fn all_went(to: &[Option<u32>]) -> bool
    ensures { IsTrue result ↔ ((i : ℕ) → i < length to.now → IsMatched to.now i) }
{
    for went in to {
        if went.is_none() {
            return false;
        }
    }
    true
}

/// Whether each place is marked.
fn all_marked(marks: &[bool]) -> bool
    ensures { IsTrue result ↔ ((j : ℕ) → j < length marks.now → slice_index_or marks.now j false ≡ true) }
{
    for mark in marks {
        if !*mark {
            return false;
        }
    }
    true
}
