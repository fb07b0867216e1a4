//! Lines of JSON on all that sheets break (docs/JSON.md, "All that is broken"). Each error means that memory ran out.

ghost use Rattle.std.specs.Prelude.{◌≡◌, ◌++◌, ◌∷◌, [], IfOk, OnOk, map};
ghost use Rattle.json.specs.Tree.{json_tokens};
ghost use Rattle.edi_json.specs.Texts.{ReadsAs, json_text};
ghost use Rattle.edi_json.specs.inner.Lines.{HasLines};
ghost use Rattle.edi_json_answers.specs.BrokenSheets.{accepted_sheet_value, all_broken_values, broken_rule_value, rule_count_value};

use crate::parts::write_broken_at;
use edi_json::lines::{begin_line, end_line};
use edi_json::members::{begin, put_bytes, put_number};
use edi_line::BrokenRule;
use json::Writer;
use std::alloc::{AllocError, Global};

/// The first rule that is none of lines.
const FIRST_OF_RECORDS: u16 = 200;

/// A rule, and how often it is broken.
#[derive(Clone, Copy)]
pub struct RuleCount {
    pub rule: u16,
    pub count: u64,
}

/// The lines on all that the sheet of this name breaks: one for each place and rule, or one that says that the sheet is
/// accepted.
pub fn all_broken_json(
    alloc: Global,
    name: &[u8],
    broken: &[BrokenRule],
) -> Result<Vec<u8>, AllocError>
    ensures text { IfOk result (λ text. text.items ≡ json_text (all_broken_values name.now broken.now)) }
    ensures read { IfOk result (λ text. ReadsAs text.items (all_broken_values name.now broken.now)) }
{
    let mut text = Vec::new(alloc);
    push_all_broken(alloc, &mut text, name, broken)?;
    Ok(text)
}

/// A line for each of these rules, which says how often it is broken.
pub fn rule_counts_json(alloc: Global, counts: &[RuleCount]) -> Result<Vec<u8>, AllocError>
    ensures text { IfOk result (λ text. text.items ≡ json_text (map rule_count_value counts.now)) }
    ensures read { IfOk result (λ text. ReadsAs text.items (map rule_count_value counts.now)) }
{
    let mut text = Vec::new(alloc);
    push_rule_counts(alloc, &mut text, counts)?;
    Ok(text)
}

/// Appends the lines on all that a sheet breaks.
fn push_all_broken(
    alloc: Global,
    text: &mut Vec<u8>,
    name: &[u8],
    broken: &[BrokenRule],
) -> Result<(), AllocError>
    ensures { OnOk result (HasLines text.old.items text.new.items (all_broken_values name.now broken.now)) }
{
    if broken.is_empty() {
        push_accepted_sheet(alloc, text, name)
    } else {
        push_broken_rules(alloc, text, name, broken)
    }
}

/// Appends the lines of rules that a sheet breaks.
fn push_broken_rules(
    alloc: Global,
    text: &mut Vec<u8>,
    name: &[u8],
    broken: &[BrokenRule],
) -> Result<(), AllocError>
    ensures { OnOk result (HasLines text.old.items text.new.items (map (broken_rule_value name.now) broken.now)) }
{
    for it in broken {
        push_broken_rule(alloc, text, name, *it)?;
    }
    Ok(())
}

/// Appends the line of a rule that a sheet breaks.
fn push_broken_rule(
    alloc: Global,
    text: &mut Vec<u8>,
    name: &[u8],
    it: BrokenRule,
) -> Result<(), AllocError>
    ensures { OnOk result (HasLines text.old.items text.new.items (broken_rule_value name.now it ∷ [])) }
{
    let mut writer = begin_line(alloc, text);
    write_broken_rule(alloc, &mut writer, name, it)?;
    end_line(text, writer)
}

fn write_broken_rule(
    alloc: Global,
    writer: &mut Writer,
    name: &[u8],
    it: BrokenRule,
) -> Result<(), AllocError>
    ensures before { writer.new.before ≡ writer.old.before }
    ensures tokens { OnOk result (writer.new.tokens
        ≡ writer.old.tokens ++ json_tokens (broken_rule_value name.now it)) }
{
    if it.rule < FIRST_OF_RECORDS {
        write_broken_at(alloc, writer, "broken", name, it.rule, Some(it.at), None)
    } else {
        write_broken_at(alloc, writer, "broken", name, it.rule, None, Some(it.at))
    }
}

/// Appends the line of an accepted sheet.
fn push_accepted_sheet(alloc: Global, text: &mut Vec<u8>, name: &[u8]) -> Result<(), AllocError>
    ensures { OnOk result (HasLines text.old.items text.new.items (accepted_sheet_value name.now ∷ [])) }
{
    let mut writer = begin_line(alloc, text);
    write_accepted_sheet(alloc, &mut writer, name)?;
    end_line(text, writer)
}

fn write_accepted_sheet(alloc: Global, writer: &mut Writer, name: &[u8]) -> Result<(), AllocError>
    ensures before { writer.new.before ≡ writer.old.before }
    ensures tokens { OnOk result (writer.new.tokens
        ≡ writer.old.tokens ++ json_tokens (accepted_sheet_value name.now)) }
{
    begin(writer, "accepted")?;
    put_bytes(alloc, writer, "name", name)?;
    writer.end_object()
}

/// Appends a line for each of these rules.
fn push_rule_counts(
    alloc: Global,
    text: &mut Vec<u8>,
    counts: &[RuleCount],
) -> Result<(), AllocError>
    ensures { OnOk result (HasLines text.old.items text.new.items (map rule_count_value counts.now)) }
{
    for it in counts {
        push_rule_count(alloc, text, *it)?;
    }
    Ok(())
}

/// Appends the line of how often a rule is broken.
fn push_rule_count(alloc: Global, text: &mut Vec<u8>, it: RuleCount) -> Result<(), AllocError>
    ensures { OnOk result (HasLines text.old.items text.new.items (rule_count_value it ∷ [])) }
{
    let mut writer = begin_line(alloc, text);
    write_rule_count(&mut writer, it)?;
    end_line(text, writer)
}

fn write_rule_count(writer: &mut Writer, it: RuleCount) -> Result<(), AllocError>
    ensures before { writer.new.before ≡ writer.old.before }
    ensures tokens { OnOk result (writer.new.tokens ≡ writer.old.tokens ++ json_tokens (rule_count_value it)) }
{
    begin(writer, "count")?;
    put_number(writer, "rule", it.rule as u64)?;
    put_number(writer, "count", it.count)?;
    writer.end_object()
}
