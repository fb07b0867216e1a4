//! Members of objects, written token by token. Each error means that memory ran out.

ghost use Rattle.std.specs.Prelude.{◌≡◌, ◌++◌, ◌∷◌, [], IfOk, OnOk, codes, option_copied, string_bytes};
ghost use Rattle.json.specs.Json.{array, null, string};
ghost use Rattle.json.specs.Token.{end_object};
ghost use Rattle.edi_record.specs.Shapes.{kind_code};
ghost use Rattle.edi_json.specs.Values.{characters, number_value, part_names, site_or_null, text_or_null, text_value};
ghost use Rattle.edi_json.specs.Members.{member_tokens, opening_tokens};
ghost use Rattle.edi_json.specs.inner.Tokens.{name_tokens, record_tokens};

use edi_record::Kind;
use edi_report::{DifferingParts, Site};
use json::Writer;
use std::alloc::{AllocError, Global};

/// The version of the form.
const VERSION: u64 = 1;

/// Bytes as text: each byte is the character of the same number.
fn characters(alloc: Global, bytes: &[u8]) -> Result<String, AllocError>
    ensures { IfOk result (λ text. string_bytes text ≡ characters bytes.now) }
{
    let mut text = String::new(alloc);
    for byte in bytes {
        text.push(char::from(*byte))?;
    }
    Ok(text)
}

/// Appends a name and its value, a number.
pub fn put_number(writer: &mut Writer, name: &str, value: u64) -> Result<(), AllocError>
    ensures before { writer.new.before ≡ writer.old.before }
    ensures tokens { OnOk result (writer.new.tokens
        ≡ writer.old.tokens ++ member_tokens name.now (number_value value)) }
{
    writer.key(name)?;
    writer.u64(value)
}

/// Appends a name and its value, a text.
pub fn put_text(writer: &mut Writer, name: &str, text: &str) -> Result<(), AllocError>
    ensures before { writer.new.before ≡ writer.old.before }
    ensures tokens { OnOk result (writer.new.tokens ≡ writer.old.tokens ++ member_tokens name.now (string text.now)) }
{
    writer.key(name)?;
    writer.string(text)
}

/// Appends a name, and bytes as text: each byte is the character of the same number (docs/JSON.md, "Bytes").
pub fn put_bytes(
    alloc: Global,
    writer: &mut Writer,
    name: &str,
    bytes: &[u8],
) -> Result<(), AllocError>
    ensures before { writer.new.before ≡ writer.old.before }
    ensures tokens { OnOk result (writer.new.tokens
        ≡ writer.old.tokens ++ member_tokens name.now (text_value bytes.now)) }
{
    let text = characters(alloc, bytes)?;
    put_text(writer, name, text.as_str())
}

/// Appends a name without a value.
pub fn put_null(writer: &mut Writer, name: &str) -> Result<(), AllocError>
    ensures before { writer.new.before ≡ writer.old.before }
    ensures tokens { OnOk result (writer.new.tokens ≡ writer.old.tokens ++ member_tokens name.now null) }
{
    writer.key(name)?;
    writer.null()
}

/// Appends a name, and bytes as text where there are any.
pub(crate) fn put_bytes_or_null(
    alloc: Global,
    writer: &mut Writer,
    name: &str,
    bytes: Option<&[u8]>,
) -> Result<(), AllocError>
    ensures before { writer.new.before ≡ writer.old.before }
    ensures tokens { OnOk result (writer.new.tokens
        ≡ writer.old.tokens ++ member_tokens name.now (text_or_null (option_copied bytes.entry))) }
{
    match bytes {
        Some(bytes) => put_bytes(alloc, writer, name, bytes),
        None => put_null(writer, name),
    }
}

/// Appends the identifier of a record.
fn put_identifier(alloc: Global, writer: &mut Writer, site: &Site) -> Result<(), AllocError>
    ensures before { writer.new.before ≡ writer.old.before }
    ensures tokens { OnOk result (writer.new.tokens
        ≡ writer.old.tokens ++ member_tokens (codes "identifier") (text_value site.now.rid)) }
{
    put_bytes(alloc, writer, "identifier", site.rid.as_slice())
}

/// Appends the type of a record.
fn put_type(alloc: Global, writer: &mut Writer, kind: Kind) -> Result<(), AllocError>
    ensures before { writer.new.before ≡ writer.old.before }
    ensures tokens { OnOk result (writer.new.tokens
        ≡ writer.old.tokens ++ member_tokens (codes "type") (text_value (kind_code kind))) }
{
    put_bytes(alloc, writer, "type", kind.code())
}

/// Appends a name, and where a record stands, if it does.
pub(crate) fn put_site(
    alloc: Global,
    writer: &mut Writer,
    name: &str,
    site: Option<&Site>,
) -> Result<(), AllocError>
    ensures before { writer.new.before ≡ writer.old.before }
    ensures tokens { OnOk result (writer.new.tokens
        ≡ writer.old.tokens ++ member_tokens name.now (site_or_null (option_copied site.entry))) }
{
    let Some(site) = site else {
        return put_null(writer, name);
    };
    writer.key(name)?;
    writer.begin_object()?;
    put_identifier(alloc, writer, site)?;
    put_number(writer, "line", site.line)?;
    writer.end_object()
}

/// Appends a name, if there is one.
fn put_name(writer: &mut Writer, said: bool, name: &str) -> Result<(), AllocError>
    ensures before { writer.new.before ≡ writer.old.before }
    ensures tokens { OnOk result (writer.new.tokens ≡ writer.old.tokens ++ name_tokens said name.now) }
{
    if said { writer.string(name) } else { Ok(()) }
}

/// Appends the names of the parts that differ.
fn put_names(writer: &mut Writer, parts: &DifferingParts) -> Result<(), AllocError>
    ensures before { writer.new.before ≡ writer.old.before }
    ensures tokens { OnOk result (writer.new.tokens ≡ writer.old.tokens ++ (name_tokens parts.now.class (codes "class")
        ++ name_tokens parts.now.attributes (codes "attributes") ++ name_tokens parts.now.extras (codes "extras")
        ++ name_tokens parts.now.points (codes "points") ++ name_tokens parts.now.ends (codes "ends"))) }
{
    put_name(writer, parts.class, "class")?;
    put_name(writer, parts.attributes, "attributes")?;
    put_name(writer, parts.extras, "extras")?;
    put_name(writer, parts.points, "points")?;
    put_name(writer, parts.ends, "ends")
}

/// Appends the parts in which a record differs, and ends its line.
pub(crate) fn end_record(writer: &mut Writer, parts: &DifferingParts) -> Result<(), AllocError>
    ensures before { writer.new.before ≡ writer.old.before }
    ensures tokens { OnOk result (writer.new.tokens ≡ writer.old.tokens
        ++ (member_tokens (codes "parts") (array (part_names parts.now)) ++ end_object ∷ [])) }
{
    writer.key("parts")?;
    writer.begin_array()?;
    put_names(writer, parts)?;
    writer.end_array()?;
    writer.end_object()
}

/// Begins a line that tells this: the version of the form, and what the line tells.
pub fn begin(writer: &mut Writer, what: &str) -> Result<(), AllocError>
    ensures before { writer.new.before ≡ writer.old.before }
    ensures tokens { OnOk result (writer.new.tokens ≡ writer.old.tokens ++ opening_tokens what.now) }
{
    writer.begin_object()?;
    put_number(writer, "version", VERSION)?;
    put_text(writer, "what", what)
}

/// Begins the line of a record.
pub(crate) fn begin_record(
    alloc: Global,
    writer: &mut Writer,
    mark: &str,
    kind: Kind,
) -> Result<(), AllocError>
    ensures before { writer.new.before ≡ writer.old.before }
    ensures tokens { OnOk result (writer.new.tokens ≡ writer.old.tokens ++ record_tokens mark.now kind) }
{
    begin(writer, "record")?;
    put_text(writer, "mark", mark)?;
    put_type(alloc, writer, kind)
}
