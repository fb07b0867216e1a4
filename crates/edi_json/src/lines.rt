//! Lines of JSON, appended to a text. Each error means that memory ran out.

ghost use Rattle.std.specs.Prelude.{◌≡◌, ◌++◌, ◌∷◌, [], OnOk, option_copied};
ghost use Rattle.json.specs.Lex.{tokens};
ghost use Rattle.json.specs.Print.{print};
ghost use Rattle.json.specs.Tree.{json_tokens};
ghost use Rattle.edi_line.specs.Bytes.{line_feed};
ghost use Rattle.edi_report.specs.Lines.{added_count, changed_count, gone_count};
ghost use Rattle.edi_json.specs.Values.{charsets_value, counts_value};
ghost use Rattle.edi_json.specs.inner.Lines.{HasLines, value_of_line};

use crate::members::{begin, begin_record, end_record, put_bytes_or_null, put_number, put_site};
use edi_record::Kind;
use edi_report::{DifferingParts, Reporter, Site};
use json::Writer;
use std::alloc::{AllocError, Global};
use std::mem::replace;

/// Begins a line behind a text, which the writer has until `end_line` gives it back.
pub fn begin_line(alloc: Global, text: &mut Vec<u8>) -> Writer
    ensures before { result.before ≡ text.old.items }
    ensures tokens { result.tokens ≡ [] }
    ensures empty { text.new.items ≡ [] }
{
    Writer::new(replace(text, Vec::new(alloc)))
}

/// Gives the text back, with the line that was written.
pub fn end_line(text: &mut Vec<u8>, writer: Writer) -> Result<(), AllocError>
    ensures text { OnOk result (text.new.items ≡ writer.before ++ print writer.tokens ++ line_feed ∷ []) }
    ensures read { tokens (print writer.tokens) ≡ writer.tokens }
{
    *text = writer.into_inner();
    text.push(b'\n')?;
    Ok(())
}

/// What the line of a record tells.
#[derive(Drop)]
pub(crate) struct RecordLine<'a> {
    /// In which sheets it stands.
    pub(crate) mark: &'a str,
    pub(crate) kind: Kind,
    /// Where it stands in the first sheet, and in the second.
    pub(crate) a: Option<&'a Site>,
    pub(crate) b: Option<&'a Site>,
    /// The parts in which it differs.
    pub(crate) parts: DifferingParts,
}

/// Appends the line of a record.
pub(crate) fn push_record(
    alloc: Global,
    text: &mut Vec<u8>,
    line: &RecordLine<'_>,
) -> Result<(), AllocError>
    ensures { OnOk result (HasLines text.old.items text.new.items (value_of_line line.now ∷ [])) }
{
    let mut writer = begin_line(alloc, text);
    write_record(alloc, &mut writer, line)?;
    end_line(text, writer)
}

fn write_record(alloc: Global, writer: &mut Writer, line: &RecordLine<'_>) -> Result<(), AllocError>
    ensures before { writer.new.before ≡ writer.old.before }
    ensures tokens { OnOk result (writer.new.tokens ≡ writer.old.tokens ++ json_tokens (value_of_line line.now)) }
{
    begin_record(alloc, writer, line.mark, line.kind)?;
    put_site(alloc, writer, "a", line.a)?;
    put_site(alloc, writer, "b", line.b)?;
    end_record(writer, &line.parts)
}

/// Appends the line of two character sets.
pub(crate) fn push_charsets(
    alloc: Global,
    text: &mut Vec<u8>,
    a: Option<&[u8]>,
    b: Option<&[u8]>,
) -> Result<(), AllocError>
    ensures { OnOk result (HasLines text.old.items text.new.items
        (charsets_value (option_copied a.entry) (option_copied b.entry) ∷ [])) }
{
    let mut writer = begin_line(alloc, text);
    write_charsets(alloc, &mut writer, a, b)?;
    end_line(text, writer)
}

fn write_charsets(
    alloc: Global,
    writer: &mut Writer,
    a: Option<&[u8]>,
    b: Option<&[u8]>,
) -> Result<(), AllocError>
    ensures before { writer.new.before ≡ writer.old.before }
    ensures tokens { OnOk result (writer.new.tokens
        ≡ writer.old.tokens ++ json_tokens (charsets_value (option_copied a.entry) (option_copied b.entry))) }
{
    begin(writer, "charsets")?;
    put_bytes_or_null(alloc, writer, "a", a)?;
    put_bytes_or_null(alloc, writer, "b", b)?;
    writer.end_object()
}

/// Appends the line of the counts.
pub(crate) fn push_counts(
    alloc: Global,
    text: &mut Vec<u8>,
    report: &Reporter<'_>,
) -> Result<(), AllocError>
    ensures { OnOk result (HasLines text.old.items text.new.items
        (counts_value (gone_count report.now) (added_count report.now) (changed_count report.now) ∷ [])) }
{
    let mut writer = begin_line(alloc, text);
    write_counts(&mut writer, report)?;
    end_line(text, writer)
}

fn write_counts(writer: &mut Writer, report: &Reporter<'_>) -> Result<(), AllocError>
    ensures before { writer.new.before ≡ writer.old.before }
    ensures tokens { OnOk result (writer.new.tokens ≡ writer.old.tokens
        ++ json_tokens (counts_value (gone_count report.now) (added_count report.now) (changed_count report.now))) }
{
    begin(writer, "counts")?;
    put_number(writer, "only_in_a", report.gone_count() as u64)?;
    put_number(writer, "only_in_b", report.added_count() as u64)?;
    put_number(writer, "changed", report.changed_count() as u64)?;
    writer.end_object()
}
