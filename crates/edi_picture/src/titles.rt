//! Titles of records, and bytes in XML.

ghost use Rattle.std.specs.Prelude.{◌≡◌, ◌++◌, ◌<◌, OnOk, codes, decimal};
ghost use Rattle.edi_plan.specs.Plans.{IsPlace, record_at};
ghost use Rattle.edi_plan.specs.Agreeing.{HasClasses};
ghost use Rattle.edi_picture.specs.Marks.{mark_words};
ghost use Rattle.edi_picture.specs.Sheets.{class_name, mark_at};
ghost use Rattle.edi_picture.specs.Titles.{class_title, escaped, escaped_text, name_character, file_name_text, record_title, title_text};

use crate::shown::Shown;
use crate::writing::put;
use edi_line::push_number;
use edi_record::Name;
use edi_schema::Schema;
use std::alloc::AllocError;

/// Appends the character of Latin-1 with this number.
fn push_character(text: &mut Vec<u8>, byte: u8) -> Result<(), AllocError>
    ensures { OnOk result (text.new.items ≡ text.old.items ++ (codes "&#" ++ decimal byte ++ codes ";")) }
{
    put(text, b"&#")?;
    push_number(text, u64::from(byte))?;
    put(text, b";")
}

/// Appends a byte, so that it can stand in XML.
fn push_escaped(text: &mut Vec<u8>, byte: u8) -> Result<(), AllocError>
    ensures { OnOk result (text.new.items ≡ text.old.items ++ escaped byte) }
{
    match byte {
        b'&' => put(text, b"&amp;"),
        b'<' => put(text, b"&lt;"),
        b'>' => put(text, b"&gt;"),
        b' '..=b'~' => put(text, &[byte]),
        160..=255 => push_character(text, byte),
        _ => put(text, b"?"),
    }
}

/// Appends bytes, so that they can stand in XML.
pub(crate) fn push_escaped_text(text: &mut Vec<u8>, bytes: &[u8]) -> Result<(), AllocError>
    ensures { OnOk result (text.new.items ≡ text.old.items ++ escaped_text bytes.now) }
{
    for byte in bytes {
        push_escaped(text, *byte)?;
    }
    Ok(())
}

/// Appends the type and the identifier of a class.
fn push_class(text: &mut Vec<u8>, class: &Name) -> Result<(), AllocError>
    ensures { OnOk result (text.new.items ≡ text.old.items ++ class_title class.now) }
{
    push_escaped_text(text, class.rty.as_slice())?;
    text.push(b';')?;
    push_escaped_text(text, class.rid.as_slice())
}

/// Appends the type, the identifier and the class of a record.
pub(crate) fn push_name(
    text: &mut Vec<u8>,
    schema: &Schema,
    sheet: &Shown<'_>,
    place: u32,
) -> Result<(), AllocError>
    requires classes { HasClasses schema.now sheet.now.plan }
    requires place { IsPlace sheet.now.plan place }
    ensures { OnOk result (text.new.items ≡ text.old.items ++ record_title schema.now sheet.now place) }
{
    let plan = sheet.plan();
    put(text, plan.kind(place).code())?;
    text.push(b' ')?;
    push_escaped_text(text, sheet.identifier(place))?;
    text.push(b' ')?;
    push_class(text, schema.name(plan.scp(place)))
}

/// Appends what the mark of a record says, these words, and the end of a title.
fn push_title_end(
    text: &mut Vec<u8>,
    sheet: &Shown<'_>,
    place: u32,
    words: &[u8],
) -> Result<(), AllocError>
    ensures { OnOk result (text.new.items
        ≡ text.old.items ++ mark_words (mark_at sheet.now place) ++ words.now ++ codes "</title>") }
{
    put(text, sheet.mark(place).words())?;
    put(text, words)?;
    put(text, b"</title>")
}

/// Appends the title of a record, which browsers show where the pointer rests on it, with these words.
pub(crate) fn push_title(
    text: &mut Vec<u8>,
    schema: &Schema,
    sheet: &Shown<'_>,
    place: u32,
    words: &[u8],
) -> Result<(), AllocError>
    requires classes { HasClasses schema.now sheet.now.plan }
    requires place { IsPlace sheet.now.plan place }
    ensures { OnOk result (text.new.items ≡ text.old.items ++ title_text schema.now sheet.now place words.now) }
{
    put(text, b"<title>")?;
    push_name(text, schema, sheet, place)?;
    push_title_end(text, sheet, place, words)
}

/// Appends a byte of the name of a file.
fn push_name_character(text: &mut Vec<u8>, byte: u8) -> Result<(), AllocError>
    ensures { OnOk result (text.new.items ≡ text.old.items ++ name_character byte) }
{
    if byte <= b'~' {
        push_escaped(text, byte)
    } else {
        put(text, b"?")
    }
}

/// Appends the name of a file.
pub(crate) fn push_file_name(text: &mut Vec<u8>, name: &[u8]) -> Result<(), AllocError>
    ensures { OnOk result (text.new.items ≡ text.old.items ++ file_name_text name.now) }
{
    for byte in name {
        push_name_character(text, *byte)?;
    }
    Ok(())
}
