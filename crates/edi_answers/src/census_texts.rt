//! The lines in a form on all that sheets break, and on how often each rule is broken. Each error means that memory
//! ran out.
ghost use Rattle.std.specs.Prelude.{◌≡◌, ◌++◌, ◌==◌, IfOk, OnOk, flat_map, count_by};
ghost use Rattle.edi_compare.specs.Rules.{Breaks};
ghost use Rattle.edi_line.specs.AllBroken.{AreAllBroken};
ghost use Rattle.edi_answers.specs.Census.{IsCountedIn, IsToldInWords, TellsAll, accepted_line, rule_count};
ghost use Rattle.edi_answers.specs.Census.{rule_count_line, rule_counts};

use crate::form::AnswerForm;
use crate::paths::input_name;
use edi_census::list_broken;
use edi_json_answers::{RuleCount, all_broken_json, rule_counts_json};
use edi_line::{BrokenRule, push_number};
use edi_schema::Schema;
use edi_shown::push_shown;
use std::alloc::{AllocError, Global};

// The rules of sheets, in the order of their numbers.
const SHEET_RULES: [u16; 32] = [
    101, 102, 103, 104, 105, 106, 107, 108, 109, 110, 201, 202, 203, 204, 205, 206, 207, 208, 301,
    302, 303, 304, 305, 306, 307, 401, 402, 403, 404, 405, 406, 501,
];

/// The lines in a form on all that a sheet breaks.
pub(crate) fn text_of_all_broken(
    alloc: Global,
    schema: &Schema,
    form: AnswerForm,
    bytes: &[u8],
    path: &str,
    broken: &[BrokenRule],
) -> Result<Vec<u8>, AllocError>
    requires { AreAllBroken (Breaks schema.now bytes.now) broken.now }
    ensures { IfOk result (λ text. TellsAll schema.now form bytes.now path.now broken.now text.items) }
{
    match form {
        AnswerForm::Words => words_of_all_broken(alloc, schema, bytes, path, broken),
        AnswerForm::Json => all_broken_json(alloc, input_name(path), broken),
    }
}

// The lines of words on all that a sheet breaks.
fn words_of_all_broken(
    alloc: Global,
    schema: &Schema,
    bytes: &[u8],
    path: &str,
    broken: &[BrokenRule],
) -> Result<Vec<u8>, AllocError>
    requires { AreAllBroken (Breaks schema.now bytes.now) broken.now }
    ensures { IfOk result (λ text. IsToldInWords bytes.now path.now broken.now text.items) }
{
    if broken.is_empty() {
        return line_of_accepted(alloc, path);
    }
    list_broken(alloc, schema, bytes, input_name(path), broken)
}

// The line of words of an accepted sheet.
fn line_of_accepted(alloc: Global, path: &str) -> Result<Vec<u8>, AllocError>
    ensures { IfOk result (λ text. text.items ≡ accepted_line path.now) }
{
    let mut text = Vec::new(alloc);
    push_shown(&mut text, input_name(path))?;
    text.extend_from_slice(b": accepted\n")?;
    Ok(text)
}

/// The lines in a form of how often each rule is broken, where a list has the rule of each place.
pub(crate) fn text_of_counts(
    alloc: Global,
    form: AnswerForm,
    broken: &[u16],
) -> Result<Vec<u8>, AllocError>
    ensures { IfOk result (λ text. IsCountedIn form broken.now text.items) }
{
    let counts = counts_of_rules(alloc, broken)?;
    match form {
        AnswerForm::Words => words_of_counts(alloc, &counts),
        AnswerForm::Json => rule_counts_json(alloc, &counts),
    }
}

// Each rule that is broken and how often, where a list has the rule of each place.
fn counts_of_rules(alloc: Global, broken: &[u16]) -> Result<Vec<RuleCount>, AllocError>
    ensures { IfOk result (λ counts. counts.items ≡ rule_counts broken.now) }
{
    let mut counts = Vec::new(alloc);
    push_counts(&mut counts, broken, &SHEET_RULES)?;
    Ok(counts)
}

// Appends how often each of these rules is broken, but for those that aren't.
fn push_counts(counts: &mut Vec<RuleCount>, broken: &[u16], rules: &[u16]) -> Result<(), AllocError>
    ensures { OnOk result (counts.new.items ≡ counts.old.items
        ++ flat_map (λ rule. rule_count rule (count_by (λ r. r == rule) broken.now)) rules.now) }
{
    for rule in rules {
        push_count(counts, *rule, count_of(broken, *rule))?;
    }
    Ok(())
}

// How often a rule is broken.
fn count_of(broken: &[u16], rule: u16) -> usize
    ensures { result ≡ count_by (λ r. r == rule) broken.now }
{
    broken.iter().filter(|it| **it == rule).count()
}

// Appends how often a rule is broken, if it is.
fn push_count(counts: &mut Vec<RuleCount>, rule: u16, count: usize) -> Result<(), AllocError>
    ensures { OnOk result (counts.new.items ≡ counts.old.items ++ rule_count rule count) }
{
    if count == 0 {
        return Ok(());
    }
    counts.push(RuleCount {
        rule,
        count: count as u64,
    })?;
    Ok(())
}

// The lines of words of how often each rule is broken.
fn words_of_counts(alloc: Global, counts: &[RuleCount]) -> Result<Vec<u8>, AllocError>
    ensures { IfOk result (λ text. text.items ≡ flat_map rule_count_line counts.now) }
{
    let mut text = Vec::new(alloc);
    for it in counts {
        push_count_line(&mut text, *it)?;
    }
    Ok(text)
}

// Appends the line of words of how often a rule is broken.
fn push_count_line(text: &mut Vec<u8>, it: RuleCount) -> Result<(), AllocError>
    ensures { OnOk result (text.new.items ≡ text.old.items ++ rule_count_line it) }
{
    text.extend_from_slice(b"rule ")?;
    push_number(text, u64::from(it.rule))?;
    text.extend_from_slice(b": ")?;
    push_number(text, it.count)?;
    text.extend_from_slice(b"\n")
}
