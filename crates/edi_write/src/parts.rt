//! The bytes of the parts of a record.

ghost use Rattle.std.specs.Prelude.{◌≡◌, ◌≤◌, ℕ, Some, [], ◌++◌, OnOk, codes, decimal, flat_map, length, map};
ghost use Rattle.edi_line.specs.Number.{signed_text, plain_text};
ghost use Rattle.edi_line.specs.Printing.{printed, printed_zone};
ghost use Rattle.edi_record.specs.CanonicalZones.{class_text, value_text, point_zone, extra_zone};
ghost use Rattle.edi_record.specs.Texts.{point_text};
ghost use Rattle.edi_plan.specs.Agreeing.{AttributeAgrees};
ghost use Rattle.edi_write.specs.inner.Heads.{headed, line_begun};
ghost use Rattle.edi_write.specs.Layout.{attribute_zones, class_name_of};

use crate::heads::{ATTRIBUTE, COORDINATES, VALUE_CHARACTER_SET, ZoneHead, value_head};
use crate::page::Page;
use crate::zones::put_length;
use edi_line::Num;
use edi_plan::PlanAttribute;
use edi_record::{Extra, Name, Point, Value};
use edi_schema::Schema;
use std::alloc::AllocError;

/// Writes a pointer to a class.
pub(crate) fn write_class(page: &mut Page, head: ZoneHead, class: &Name) -> Result<(), AllocError>
    ensures { OnOk result (page.new.file.items
        ≡ page.old.file.items ++ printed_zone (headed head (class_text class.now))) }
{
    put_class_pointer(&mut page.text, class)?;
    page.write_text(head)
}

#[tactic(auto, unfolding(edi_record::specs::Texts::pointer_text))]
fn put_class_pointer(text: &mut Vec<u8>, class: &Name) -> Result<(), AllocError>
    ensures { OnOk result (text.new.items ≡ class_text class.now) }
{
    text.clear();
    text.extend_from_slice(b"CANON;SD;")?;
    text.extend_from_slice(class.rty.as_slice())?;
    text.push(b';')?;
    text.extend_from_slice(class.rid.as_slice())
}

/// The line of a point as far as its value, with 00 for the length.
fn point_line() -> [u8; 8]
    ensures { result ≡ line_begun COORDINATES [] }
{
    *b"CORCC00:"
}

/// Writes a point. Its text is made straight in the file, since most lines of a sheet are points, and a text of its own
/// would take a copy and a loop over its lines.
pub(crate) fn write_point(page: &mut Page, point: Point) -> Result<(), AllocError>
    ensures { OnOk result (page.new.file.items ≡ page.old.file.items ++ printed_zone (point_zone point)) }
{
    let start = page.file.len();
    page.file.extend_from_slice(&point_line())?;
    push_point(&mut page.file, point)?;
    put_length(&mut page.file, start);
    page.file.extend_from_slice(b"\r\n")
}

/// Appends the text of a point.
#[tactic(auto, unfolding(edi_record::specs::Texts::point_text))]
fn push_point(text: &mut Vec<u8>, point: Point) -> Result<(), AllocError>
    ensures text { OnOk result (text.new.items ≡ text.old.items ++ point_text point) }
    ensures short { OnOk result (length (point_text point) ≤ 54) }
{
    push_coordinate(text, point.x)?;
    push_coordinate(text, point.y)?;
    if let Some(height) = point.z {
        push_coordinate(text, height)?;
    }
    Ok(())
}

/// Appends a coordinate and a semicolon.
#[tactic(auto, using(crate::proofs::Points::signed_short))]
fn push_coordinate(text: &mut Vec<u8>, coordinate: Num) -> Result<(), AllocError>
    ensures text { OnOk result (text.new.items ≡ text.old.items ++ (signed_text coordinate ++ codes ";")) }
    ensures short { OnOk result (length (signed_text coordinate) ≤ 17) }
{
    // The text is short because the number is in range.
    let _ = coordinate.millionths();
    coordinate.push_signed(text)?;
    text.push(b';')?;
    Ok(())
}

/// Writes a value: a number in its plain spelling, or bytes as they are.
fn write_value(page: &mut Page, head: ZoneHead, value: &Value) -> Result<(), AllocError>
    ensures { OnOk result (page.new.file.items
        ≡ page.old.file.items ++ printed_zone (headed head (value_text value.now))) }
{
    match value {
        Value::Number(number) => {
            page.text.clear();
            number.push_plain(&mut page.text)?;
            page.write_text(head)
        }
        Value::Bytes(text) => page.write(head, text.as_slice()),
    }
}

/// Writes an attribute: its class, its character set if any, its value with the letter of the class.
pub(crate) fn write_attribute(
    page: &mut Page,
    schema: &Schema,
    attribute: &PlanAttribute,
) -> Result<(), AllocError>
    requires { AttributeAgrees schema.now attribute.now }
    ensures { OnOk result (page.new.file.items
        ≡ page.old.file.items ++ printed (attribute_zones schema.now attribute.now)) }
{
    write_class(page, ATTRIBUTE, schema.name(attribute.atp))?;
    if let Some(set) = &attribute.tex {
        page.write(VALUE_CHARACTER_SET, set.as_slice())?;
    }
    let head = value_head(schema.letter(attribute.atp));
    write_value(page, head, &attribute.value)
}

/// Writes an extra zone.
pub(crate) fn write_extra(page: &mut Page, extra: &Extra) -> Result<(), AllocError>
    ensures { OnOk result (page.new.file.items ≡ page.old.file.items ++ printed_zone (extra_zone extra.now)) }
{
    let head = ZoneHead {
        code: extra.code,
        nature: extra.nature,
        format: extra.format,
    };
    write_value(page, head, &extra.value)
}
