//! What is said of a refusal, of a plan and of a rule.

ghost use Rattle.std.specs.Prelude.{◌≡◌, ◌↔◌, ◌++◌, ◌-◌, ◌∷◌, [], ℕ, List, Option, IsTrue, IfOk, IfSome, MatchOption, OnOk, codes, decimal, option_copied};
ghost use Rattle.edi_line.specs.ZoneData.{ZoneData, entries};
ghost use Rattle.edi_line.specs.LineRules.{BreaksLineRule, IsZonesOf};
ghost use Rattle.edi_line.specs.Refusal.{IsLeastBroken, IsUnbroken};
ghost use Rattle.edi_schema.specs.SchemaRefusal.{IsSchemaRefusal};
ghost use Rattle.edi_compare.specs.Refused.{IsRefusal};
ghost use Rattle.edi_compare.specs.declared.fault.Fault.TheVariants.{Entry as AtRecord};
ghost use Rattle.edi_explain.specs.Explained.{DescribesPlan, ExplainsLine, ExplainsSchema, ExplainsSheet, IsRuleWord, IsTextOfWord, charset_line, count_line, count_lines, extent_lines, of_source, reason_lines, rule_page, span_line, worded_line};
ghost use Rattle.edi_explain.specs.EndNodes.{IsEndNodeIfAny};
ghost use Rattle.edi_explain.specs.Found.{IsFound};
ghost use Rattle.edi_explain.specs.KindClasses.{codes_of};
ghost use Rattle.edi_explain.specs.Lines.{lines_of_sites, sentence_of};
ghost use Rattle.edi_explain.specs.Refusals.{AreSites, IsEarlierIfAny, IsRowRefusedAt};
ghost use Rattle.edi_explain.specs.inner.Found.{AreFound};
ghost use Rattle.edi_explain.specs.declared.refused.RefusalSites.{RefusalSites as Sites};
ghost use Rattle.edi_explain.specs.Texts.{IsRuleText};
ghost use Rattle.edi_explain.specs.ZoneLines.{ExplainsZone};
ghost use Rattle.edi_explain.specs.declared.text.RuleText.{RuleText as Texts};
ghost use Rattle.edi_shown.specs.Shown.{shown_bytes};

use crate::barring::barring_line;
use crate::counts::count_of;
use crate::end_nodes::line_of_node;
use crate::examined::Found;
use crate::kind_lines::explain_kinds;
use crate::lines::{lines_of_broken, lines_of_refused};
use crate::refusal_hints::hints_at_line;
use crate::refused::{FoundRecords, earlier_row, records_in, sites_of_records};
use crate::site::zones_of;
use crate::text::{RuleText, rule_text};
use crate::zone_lines::{explain_zone, explain_zone_of_sheet};
use edi_compare::Fault;
use edi_line::{Zone, push_number};
use edi_plan::{Extent, Plan, Span, extent_of};
use edi_record::Kind;
use edi_schema::{ByRole, Schema, SchemaFault, Source};
use edi_shown::push_shown;
use itoa::Buffer;
use std::alloc::{AllocError, Global};

/// A file of a schema, and its name in lines.
#[derive(Clone, Copy)]
pub struct NamedFile<'a> {
    pub name: &'a [u8],
    pub bytes: &'a [u8],
}

/// The sentence of a rule.
pub(crate) fn sentence_for(rule: u16) -> &'static str
    ensures { (text : Option Texts) × IsRuleText rule text × (result.now ≡ sentence_of text) }
{
    match rule_text(rule) {
        Some(text) => text.sentence,
        None => "",
    }
}

/// The lines that explain the refusal of a file by a rule of lines: where the broken line is, with the sentence of the
/// rule; the earlier line that bars it; a hint where its length counts characters; and one where the file was cut in
/// it.
fn explain_line(
    alloc: Global,
    file: &NamedFile<'_>,
    rule: u16,
    at: u64,
) -> Result<Vec<u8>, AllocError>
    requires { IsLeastBroken (BreaksLineRule file.now.bytes.now) rule at }
    ensures { IfOk result (λ lines. ExplainsLine file.now.bytes.now file.now.name.now rule at lines.items) }
{
    let earlier = barring_line(file.bytes, rule, at);
    let mut lines = lines_of_broken(alloc, file.name, at, earlier, sentence_for(rule), rule)?;
    let hints = hints_at_line(alloc, file, rule, at)?;
    lines.extend_from_slice(&hints)?;
    Ok(lines)
}

/// Where a refused record and the earlier one begin, with the sentence of the rule.
fn explain_place(
    alloc: Global,
    records: &FoundRecords<'_, '_>,
    name: &[u8],
    rule: u16,
) -> Result<Vec<u8>, AllocError>
    ensures { IfOk result (λ lines. (zones : List ZoneData) (number : ℕ) (earlier : Option ℕ)
        → AreFound zones number earlier records.now → (text : Option Texts) × (sites : Sites)
        × IsRuleText rule text × AreSites zones number earlier sites
        × (lines.items ≡ lines_of_sites name.now sites (sentence_of text) rule)) }
{
    let sites = sites_of_records(alloc, records)?;
    lines_of_refused(alloc, name, &sites, sentence_for(rule).as_bytes(), rule)
}

/// The lines that explain the refusal of a sheet at a record: where the record is, with the sentence of the rule; the
/// earlier one that the rule speaks of; the zone with which the record breaks it; and the node that the rule speaks of.
fn explain_record(
    alloc: Global,
    schema: &Schema,
    file: &NamedFile<'_>,
    found: &Found<'_>,
    rule: u16,
    at: u64,
) -> Result<Vec<u8>, AllocError>
    requires refusal { IsRefusal schema.now file.now.bytes.now (AtRecord rule at) }
    requires earlier { IsEarlierIfAny schema.now file.now.bytes.now rule (at - 1) found.now.earlier }
    requires node { IsEndNodeIfAny schema.now file.now.bytes.now rule (at - 1) found.now.node }
    requires zones { IfSome found.now.zones (λ zones. IsZonesOf file.now.bytes.now (entries zones.items)) }
    ensures { IfOk result (λ lines.
        ExplainsSheet schema.now file.now.bytes.now file.now.name.now (AtRecord rule at) lines.items) }
{
    match &found.zones {
        Some(zones) => explain_among(alloc, schema, file, zones, found, rule, at),
        None => {
            let zones = zones_of(alloc, file.bytes)?;
            explain_among(alloc, schema, file, &zones, found, rule, at)
        }
    }
}

/// The same with the zones of the file.
fn explain_among(
    alloc: Global,
    schema: &Schema,
    file: &NamedFile<'_>,
    zones: &[Zone<'_>],
    found: &Found<'_>,
    rule: u16,
    at: u64,
) -> Result<Vec<u8>, AllocError>
    requires earlier { IsEarlierIfAny schema.now file.now.bytes.now rule (at - 1) found.now.earlier }
    requires node { IsEndNodeIfAny schema.now file.now.bytes.now rule (at - 1) found.now.node }
    requires zones { IsZonesOf file.now.bytes.now (entries zones.now) }
    ensures { IfOk result (λ lines.
        ExplainsSheet schema.now file.now.bytes.now file.now.name.now (AtRecord rule at) lines.items) }
{
    let earlier = found.earlier;
    let records = records_in(zones, at, earlier);
    let mut lines = explain_place(alloc, &records, file.name, rule)?;
    let zone = explain_zone_of_sheet(alloc, schema, zones, &records, file.name, earlier, rule)?;
    let node = line_of_node(alloc, zones, file.name, rule, found.node)?;
    lines.extend_from_slice(&zone)?;
    lines.extend_from_slice(&node)?;
    Ok(lines)
}

/// The lines that explain the refusal of a sheet, whose file has this name: where the broken line or record is,
/// with the sentence of the rule; the earlier line or record that the rule speaks of; the zone with which the record
/// breaks it; and the node that the rule speaks of. A hint says where a line's length counts characters and not bytes,
/// or where the file was cut.
pub fn explain_sheet(
    alloc: Global,
    schema: &Schema,
    bytes: &[u8],
    name: &[u8],
    found: &Found<'_>,
) -> Result<Vec<u8>, AllocError>
    requires { IsFound schema.now bytes.now found.now }
    ensures { IfOk result (λ lines. ExplainsSheet schema.now bytes.now name.now found.now.fault lines.items) }
{
    let file = NamedFile { name, bytes };
    match &found.fault {
        Fault::Memory(error) => Err(*error),
        Fault::Line { rule, at } => explain_line(alloc, &file, *rule, *at),
        Fault::Entry { rule, at } => explain_record(alloc, schema, &file, found, *rule, *at),
    }
}

/// The one of two files that a fault is of.
fn file_of<'a>(file: Source, scd: &NamedFile<'a>, dic: &NamedFile<'a>) -> NamedFile<'a>
    ensures name { result.name.now ≡ of_source file scd.now.name.now dic.now.name.now }
    ensures bytes { result.bytes.now ≡ of_source file scd.now.bytes.now dic.now.bytes.now }
{
    match file {
        Source::Scd => *scd,
        Source::Dic => *dic,
    }
}

/// The lines that explain the refusal of a file of a schema at a record: where the record is, with the sentence of the
/// rule; the earlier one that the rule speaks of; and the zone with which the record breaks it.
fn explain_row(
    alloc: Global,
    file: &NamedFile<'_>,
    rule: u16,
    at: u64,
) -> Result<Vec<u8>, AllocError>
    requires { IsUnbroken (BreaksLineRule file.now.bytes.now) }
    ensures { IfOk result (λ lines. (text : Option Texts) × (sites : Sites) × (zone : List ℕ)
        × IsRuleText rule text × IsRowRefusedAt file.now.bytes.now rule at sites
        × ExplainsZone file.now.bytes.now file.now.name.now rule at zone
        × (lines.items ≡ lines_of_sites file.now.name.now sites (sentence_of text) rule ++ zone)) }
{
    let zones = zones_of(alloc, file.bytes)?;
    let earlier = earlier_row(&zones, rule, at.saturating_sub(1));
    let records = records_in(&zones, at, earlier);
    let mut lines = explain_place(alloc, &records, file.name, rule)?;
    let zone = explain_zone(alloc, &records, file.name, rule)?;
    lines.extend_from_slice(&zone)?;
    Ok(lines)
}

/// The lines that explain the refusal of a schema under the codes of the kinds, in the same form; for rule 604 those of
/// the classes that break it.
pub fn explain_schema(
    alloc: Global,
    scd: &NamedFile<'_>,
    dic: &NamedFile<'_>,
    codes: &ByRole<&[u8]>,
    fault: &SchemaFault,
) -> Result<Vec<u8>, AllocError>
    requires { IsSchemaRefusal scd.now.bytes.now dic.now.bytes.now (codes_of codes.now) fault.now }
    ensures { IfOk result (λ lines. ExplainsSchema
        (codes_of codes.now) scd.now.bytes.now dic.now.bytes.now scd.now.name.now dic.now.name.now fault.now
        lines.items) }
{
    match fault {
        SchemaFault::Memory(error) => Err(*error),
        SchemaFault::Line { file, rule, at } => {
            let broken = file_of(*file, scd, dic);
            explain_line(alloc, &broken, *rule, *at)
        }
        SchemaFault::Entry { file, rule, at } => {
            let refused = file_of(*file, scd, dic);
            explain_row(alloc, &refused, *rule, *at)
        }
        SchemaFault::Kinds => explain_kinds(alloc, scd, codes),
    }
}

/// Appends words and a sentence, as a line.
fn push_line(text: &mut Vec<u8>, words: &[u8], sentence: &[u8]) -> Result<(), AllocError>
    ensures { OnOk result (text.new.items ≡ text.old.items ++ worded_line words.now sentence.now) }
{
    text.extend_from_slice(words)?;
    text.extend_from_slice(sentence)?;
    text.extend_from_slice(b"\n")
}

/// Appends how many records of a type there are, behind a word.
fn push_count(text: &mut Vec<u8>, plan: &Plan, word: &[u8], kind: Kind) -> Result<(), AllocError>
    ensures { OnOk result (text.new.items ≡ text.old.items ++ count_line plan.now word.now kind) }
{
    text.extend_from_slice(word)?;
    text.extend_from_slice(b": ")?;
    push_number(text, count_of(plan, kind) as u64)?;
    text.extend_from_slice(b"\n")
}

/// Appends how many records of each type there are.
fn push_counts(text: &mut Vec<u8>, plan: &Plan) -> Result<(), AllocError>
    ensures { OnOk result (text.new.items ≡ text.old.items ++ count_lines plan.now) }
{
    push_count(text, plan, b"nodes", Kind::Pno)?;
    push_count(text, plan, b"arcs", Kind::Par)?;
    push_count(text, plan, b"faces", Kind::Pfe)?;
    push_count(text, plan, b"objects", Kind::Fea)?;
    push_count(text, plan, b"links", Kind::Lnk)
}

/// Appends the least and the greatest of some coordinates, behind a word.
fn push_span(text: &mut Vec<u8>, word: &[u8], span: &Span) -> Result<(), AllocError>
    ensures { OnOk result (text.new.items ≡ text.old.items ++ span_line word.now span.now) }
{
    text.extend_from_slice(word)?;
    text.extend_from_slice(b": ")?;
    span.least.push_plain(text)?;
    text.extend_from_slice(b" to ")?;
    span.greatest.push_plain(text)?;
    text.extend_from_slice(b"\n")
}

/// Appends the least and the greatest coordinates, where there are any.
fn push_extent(text: &mut Vec<u8>, extent: &Option<Extent>) -> Result<(), AllocError>
    ensures { OnOk result (text.new.items ≡ text.old.items ++ extent_lines extent.now) }
{
    let Some(extent) = extent else {
        return Ok(());
    };
    push_span(text, b"x", &extent.x)?;
    push_span(text, b"y", &extent.y)
}

/// Appends words, bytes as a line shows them, and the end of the line.
fn push_shown_line(text: &mut Vec<u8>, words: &[u8], bytes: &[u8]) -> Result<(), AllocError>
    ensures { OnOk result (text.new.items ≡ text.old.items ++ worded_line words.now (shown_bytes bytes.now)) }
{
    text.extend_from_slice(words)?;
    push_shown(text, bytes)?;
    text.extend_from_slice(b"\n")
}

/// Appends the character set.
fn push_charset(text: &mut Vec<u8>, charset: Option<&[u8]>) -> Result<(), AllocError>
    ensures { OnOk result (text.new.items ≡ text.old.items ++ charset_line (option_copied charset.entry)) }
{
    match charset {
        Some(charset) => push_shown_line(text, b"character set: ", charset),
        None => push_line(text, b"character set: ", b"none"),
    }
}

/// The lines on an accepted sheet: its records by type, its least and greatest coordinates, its character set.
pub fn describe_plan(alloc: Global, plan: &Plan) -> Result<Vec<u8>, AllocError>
    ensures { IfOk result (λ lines. DescribesPlan plan.now lines.items) }
{
    let mut text = Vec::new(alloc);
    push_counts(&mut text, plan)?;
    push_extent(&mut text, &extent_of(plan))?;
    push_charset(&mut text, plan.cse())?;
    Ok(text)
}

/// Whether a word is a number, as it is usually written.
fn spells(word: &str, number: u16) -> bool
    ensures { IsTrue result ↔ (word.now ≡ decimal number) }
{
    let mut digits = Buffer::new();
    digits.format(number) == word
}

/// The text of the rule whose number a word is, in its usual spelling.
pub fn rule_of_word(word: &str) -> Option<RuleText>
    ensures { MatchOption result ((rule : ℕ) → ¬ (IsRuleWord word.now rule)) (IsTextOfWord word.now) }
{
    let Ok(rule) = word.parse::<u16>() else {
        return None;
    };
    if spells(word, rule) {
        rule_text(rule)
    } else {
        None
    }
}

/// Appends why there is a rule, what usually breaks it, and what to do.
fn push_reasons(page: &mut Vec<u8>, text: &RuleText) -> Result<(), AllocError>
    ensures { OnOk result (page.new.items ≡ page.old.items ++ reason_lines text.now) }
{
    push_line(page, b"Why: ", text.reason.as_bytes())?;
    push_line(page, b"Usual cause: ", text.cause.as_bytes())?;
    push_line(page, b"What to do: ", text.remedy.as_bytes())
}

/// The page on a rule: its sentence, why there is such a rule, what usually breaks it, and what to do.
pub fn page_of(alloc: Global, text: &RuleText) -> Result<Vec<u8>, AllocError>
    ensures { IfOk result (λ page. page.items ≡ rule_page text.now) }
{
    let mut page = Vec::new(alloc);
    push_number(&mut page, u64::from(text.rule))?;
    push_line(&mut page, b": ", text.sentence.as_bytes())?;
    push_reasons(&mut page, text)?;
    Ok(page)
}
