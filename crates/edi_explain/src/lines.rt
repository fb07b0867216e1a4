//! Lines that say where something is refused and why.

ghost use Rattle.std.specs.Prelude.{◌≡◌, ◌++◌, IfOk, OnOk, codes};
ghost use Rattle.edi_explain.specs.Lines.{barring_text, earlier_sentence, identifier_text, line_line, line_of_site, lines_of_line, lines_of_sites, position_text, record_line, rule_mark};
ghost use Rattle.edi_shown.specs.Shown.{shown_bytes};

use crate::refused::RefusalSites;
use crate::site::RecordSite;
use edi_line::push_number;
use edi_shown::push_shown;
use std::alloc::{AllocError, Global};

/// Appends a file's name and a line's number.
pub(crate) fn push_position(text: &mut Vec<u8>, name: &[u8], line: u64) -> Result<(), AllocError>
    ensures { OnOk result (text.new.items ≡ text.old.items ++ position_text name.now line) }
{
    push_shown(text, name)?;
    text.push(b':')?;
    push_number(text, line)?;
    text.extend_from_slice(b": ")
}

/// Appends a sentence, the number of its rule, and the end of the line.
pub(crate) fn push_sentence(
    text: &mut Vec<u8>,
    sentence: &[u8],
    rule: u16,
) -> Result<(), AllocError>
    ensures { OnOk result (text.new.items ≡ text.old.items ++ (sentence.now ++ rule_mark rule)) }
{
    text.extend_from_slice(sentence)?;
    text.extend_from_slice(b" [")?;
    push_number(text, u64::from(rule))?;
    text.extend_from_slice(b"]\n")
}

/// Appends the line of a file with a sentence.
pub(crate) fn push_broken(
    text: &mut Vec<u8>,
    name: &[u8],
    line: u64,
    sentence: &str,
    rule: u16,
) -> Result<(), AllocError>
    ensures { OnOk result (text.new.items ≡ text.old.items ++ line_line name.now line sentence.now rule) }
{
    push_position(text, name, line)?;
    push_sentence(text, sentence.as_bytes(), rule)
}

/// Appends the line that bars another, if there is one.
fn push_barring(
    text: &mut Vec<u8>,
    name: &[u8],
    earlier: Option<u64>,
    rule: u16,
) -> Result<(), AllocError>
    ensures { OnOk result (text.new.items ≡ text.old.items ++ barring_text name.now earlier rule) }
{
    match earlier {
        Some(line) => push_broken(text, name, line, "the earlier line", rule),
        None => Ok(()),
    }
}

/// The line of a file with the sentence of the rule that it breaks, and the earlier line that bars it, if there is one.
pub(crate) fn lines_of_broken(
    alloc: Global,
    name: &[u8],
    line: u64,
    earlier: Option<u64>,
    sentence: &str,
    rule: u16,
) -> Result<Vec<u8>, AllocError>
    ensures { IfOk result (λ text. text.items ≡ lines_of_line name.now line earlier sentence.now rule) }
{
    let mut text = Vec::new(alloc);
    push_broken(&mut text, name, line, sentence, rule)?;
    push_barring(&mut text, name, earlier, rule)?;
    Ok(text)
}

/// Appends the line of a record.
pub(crate) fn push_record(
    text: &mut Vec<u8>,
    name: &[u8],
    site: &RecordSite,
    sentence: &[u8],
    rule: u16,
) -> Result<(), AllocError>
    ensures { OnOk result (text.new.items ≡ text.old.items ++ record_line name.now site.now sentence.now rule) }
{
    push_site_name(text, name, site)?;
    push_told(text, sentence, rule)
}

/// Appends where a record stands, its type, and its identifier behind a space, if it has one.
pub(crate) fn push_site_name(
    text: &mut Vec<u8>,
    name: &[u8],
    site: &RecordSite,
) -> Result<(), AllocError>
    ensures { OnOk result (text.new.items
        ≡ text.old.items ++ (position_text name.now site.now.line ++ shown_bytes site.now.rty
        ++ identifier_text site.now.rid)) }
{
    push_position(text, name, site.line)?;
    push_shown(text, site.rty.as_slice())?;
    push_identifier(text, site)
}

/// Appends what is told of a record.
fn push_told(text: &mut Vec<u8>, sentence: &[u8], rule: u16) -> Result<(), AllocError>
    ensures { OnOk result (text.new.items ≡ text.old.items ++ (codes ": " ++ sentence.now ++ rule_mark rule)) }
{
    text.extend_from_slice(b": ")?;
    push_sentence(text, sentence, rule)
}

/// Appends the identifier of a record behind a space, if it has one.
fn push_identifier(text: &mut Vec<u8>, site: &RecordSite) -> Result<(), AllocError>
    ensures { OnOk result (text.new.items ≡ text.old.items ++ identifier_text site.now.rid) }
{
    let Some(rid) = &site.rid else {
        return Ok(());
    };
    text.push(b' ')?;
    push_shown(text, rid.as_slice())
}

/// Appends the line of a record, if there is one.
fn push_site(
    text: &mut Vec<u8>,
    name: &[u8],
    site: &Option<RecordSite>,
    sentence: &[u8],
    rule: u16,
) -> Result<(), AllocError>
    ensures { OnOk result (text.new.items ≡ text.old.items ++ line_of_site name.now site.now sentence.now rule) }
{
    match site {
        Some(site) => push_record(text, name, site, sentence, rule),
        None => Ok(()),
    }
}

/// The line of a record, where there is one.
pub(crate) fn line_of_place(
    alloc: Global,
    name: &[u8],
    site: &Option<RecordSite>,
    sentence: &[u8],
    rule: u16,
) -> Result<Vec<u8>, AllocError>
    ensures { IfOk result (λ text. text.items ≡ line_of_site name.now site.now sentence.now rule) }
{
    let mut text = Vec::new(alloc);
    push_site(&mut text, name, site, sentence, rule)?;
    Ok(text)
}

/// What is said of the earlier record that a rule speaks of.
fn sentence_of_earlier(rule: u16) -> &'static [u8]
    ensures { result.now ≡ earlier_sentence rule }
{
    match rule {
        304 => b"the first link with an end",
        307 => b"the earlier link",
        403 => b"the earlier node",
        405 => b"the earlier arc",
        501 => b"the earlier object",
        604 => b"the earlier class",
        _ => b"the earlier record",
    }
}

/// The line of a refused record, and that of the earlier one, where there is one.
pub(crate) fn lines_of_refused(
    alloc: Global,
    name: &[u8],
    sites: &RefusalSites,
    sentence: &[u8],
    rule: u16,
) -> Result<Vec<u8>, AllocError>
    ensures { IfOk result (λ text. text.items ≡ lines_of_sites name.now sites.now sentence.now rule) }
{
    let mut text = Vec::new(alloc);
    push_site(&mut text, name, &sites.here, sentence, rule)?;
    push_site(
        &mut text,
        name,
        &sites.earlier,
        sentence_of_earlier(rule),
        rule,
    )?;
    Ok(text)
}
