//! Two lists in order, gone over together.

ghost use Rattle.std.specs.Prelude.{◌≡◌, ◌≢◌, ◌⊎◌, ◌≤◌, ◌++◌, ◌∷◌, [], false, IfOk, MatchOption, length, map, take};
ghost use Rattle.std.specs.Ordering.{is_gt};
ghost use Rattle.std.specs.Bool.{MatchBool};
ghost use Rattle.std.specs.List.{AllByRecursion};
ghost use Rattle.std.specs.declared.cmp.Ordering.TheVariants.{Less};
ghost use Rattle.edi_record.specs.Orders.{bytes_cmp};
ghost use Rattle.edi_schema.specs.Sorted.{NeverFalls};
ghost use Rattle.edi_changes.specs.Changes.{AreListChanges, IsFate};
ghost use Rattle.edi_changes.specs.inner.Merging.{AllFrom, IsLeastSubject, digest_in, entry_cmp, run_length};

use crate::changes::{Change, Fate};
use crate::entry::Entry;
use edi_line::Text;
use std::alloc::{AllocError, Global};
use std::cmp::Ordering;

/// What has become of each subject of two lists in order.
pub(crate) fn changes_in_order(
    alloc: Global,
    before: &[Entry],
    after: &[Entry],
) -> Result<Vec<Change>, AllocError>
    requires before { NeverFalls entry_cmp before.now }
    requires after { NeverFalls entry_cmp after.now }
    ensures { IfOk result (λ changes. AreListChanges before.now after.now changes.items) }
{
    let mut changes = Vec::new(alloc);
    let mut old = before;
    let mut new = after;
    while let Some(subject) = least_subject(old, new) {
        let (old_run, old_behind) = run_of(subject, old);
        let (new_run, new_behind) = run_of(subject, new);
        changes.push(Change {
            subject: subject.clone()?,
            fate: fate_of(old_run, new_run),
        })?;
        old = old_behind;
        new = new_behind;
    }
    Ok(changes)
}

// The least subject of two lists in order, if one of them has an entry.
fn least_subject<'a>(before: &'a [Entry], after: &'a [Entry]) -> Option<&'a Text>
    requires before { NeverFalls entry_cmp before.now }
    requires after { NeverFalls entry_cmp after.now }
    ensures { MatchOption result ((before.now ≡ []) × (after.now ≡ [])) (λ s. IsLeastSubject s.now before.now after.now) }
{
    let Some((old, _)) = cut_first(before) else {
        return first_subject(after);
    };
    let Some((new, _)) = cut_first(after) else {
        return Some(&old.subject);
    };
    Some(lesser(&old.subject, &new.subject))
}

// The subject of the first entry, if there is one.
fn first_subject(entries: &[Entry]) -> Option<&Text>
    requires { NeverFalls entry_cmp entries.now }
    ensures { MatchOption result (entries.now ≡ []) (λ s. IsLeastSubject s.now [] entries.now) }
{
    let Some((first, _)) = cut_first(entries) else {
        return None;
    };
    Some(&first.subject)
}

// The first entry, and those behind it.
fn cut_first(entries: &[Entry]) -> Option<(&Entry, &[Entry])>
    ensures { MatchOption result (entries.now ≡ []) (λ p. entries.now ≡ p.0.now ∷ p.1.now) }
{
    entries.split_first()
}

// The lesser of two texts.
fn lesser<'a>(one: &'a Text, other: &'a Text) -> &'a Text
    ensures { ((result.now ≡ one.now) × (is_gt (bytes_cmp one.now other.now) ≡ false))
        ⊎ ((result.now ≡ other.now) × (bytes_cmp other.now one.now ≡ Less)) }
{
    match other.cmp(one) {
        Ordering::Less => other,
        Ordering::Equal | Ordering::Greater => one,
    }
}

// The entries of a subject, which come first in a list in order, and those behind them.
fn run_of<'a>(subject: &Text, entries: &'a [Entry]) -> (&'a [Entry], &'a [Entry])
    requires rises { NeverFalls entry_cmp entries.now }
    requires from { AllFrom subject.now entries.now }
    ensures cut { entries.now ≡ result.0.now ++ result.1.now }
    ensures run { AllByRecursion (λ e. e.subject ≡ subject.now) result.0.now }
    ensures behind { AllByRecursion (λ e. bytes_cmp subject.now e.subject ≡ Less) result.1.now }
    ensures first { result.0.now ≡ take (run_length subject.now entries.now) entries.now }
{
    entries.split_at(run_length(subject, entries))
}

// How many entries in front are of a subject.
fn run_length(subject: &Text, entries: &[Entry]) -> usize
    ensures value { result ≡ run_length subject.now entries.now }
    ensures within { result ≤ length entries.now }
{
    let mut count = 0;
    for entry in entries {
        if entry.subject.as_slice() != subject.as_slice() {
            return count;
        }
        count += 1;
    }
    count
}

// What has become of a subject that has these digests.
fn fate_of(before: &[Entry], after: &[Entry]) -> Fate
    requires { (before.now ≢ []) ⊎ (after.now ≢ []) }
    ensures { IsFate result (map digest_in before.now) (map digest_in after.now) }
{
    if before.is_empty() {
        return Fate::New;
    }
    if after.is_empty() {
        return Fate::Gone;
    }
    if have_same_digests(before, after) {
        Fate::Same
    } else {
        Fate::Changed
    }
}

// Whether two lists of entries have the same digests, in the same order.
fn have_same_digests(before: &[Entry], after: &[Entry]) -> bool
    ensures { MatchBool result (map digest_in before.now ≡ map digest_in after.now)
        (map digest_in before.now ≢ map digest_in after.now) }
{
    if before.len() != after.len() {
        return false;
    }
    for place in 0..before.len() {
        if before[place].digest.as_slice() != after[place].digest.as_slice() {
            return false;
        }
    }
    true
}
