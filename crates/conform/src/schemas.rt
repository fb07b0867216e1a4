//! Schemas: what they say of classes, or why they are refused.

ghost use Rattle.std.specs.Prelude.{◌<◌, length, IfOk, IfSome};

use crate::case::Case;
use crate::refusals::push_schema_fault;
use crate::setting::Setting;
use crate::text::push_bytes;
use edi_line::Text;
use edi_record::Name;
use edi_schema::{ClassRef, Role, Schema};
use std::alloc::{AllocError, Global};

/// What the schema of a schema file, a dictionary and four codes says of the classes that begin the lines of the wanted
/// answer: `TYPE;IDENTIFIER ROLE PARTNER LETTER number`, or `text` last, or `none` behind the name. Classes rise by
/// name.
pub(crate) fn push_schema(
    alloc: Global,
    setting: &Setting<'_>,
    case: &Case<'_>,
    text: &mut String,
) -> Result<(), AllocError> {
    let scd = case.input(0).as_bytes();
    let dic = case.input(1).as_bytes();
    match Schema::load(alloc, scd, dic, &setting.kinds) {
        Ok(schema) => push_classes(alloc, &schema, case.wanted, text),
        Err(fault) => push_schema_fault(text, fault),
    }
}

// What a schema says of the classes that begin these lines.
fn push_classes(
    alloc: Global,
    schema: &Schema,
    lines: &str,
    text: &mut String,
) -> Result<(), AllocError> {
    let mut last: Option<ClassRef> = None;
    for line in lines.split_terminator("\n") {
        let name = line.split(" ").next().unwrap_or("");
        text.push_str(name)?;
        let class = class_of(alloc, schema, name)?;
        match class {
            Some(class) => push_class(schema, class, text)?,
            None => text.push_str(" none\n")?,
        }
        if class.is_some() && last >= class {
            text.push_str("not after the class above\n")?;
        }
        last = class.or(last);
    }
    Ok(())
}

// The class of a name, written as its type and identifier.
fn class_of(alloc: Global, schema: &Schema, name: &str) -> Result<Option<ClassRef>, AllocError>
    ensures { IfOk result (λ found. IfSome found (λ class. class < length schema.now)) }
{
    let Some((rty, rid)) = name.rsplit_once(";") else {
        return Ok(None);
    };
    let rty = Text::from_slice(alloc, rty.as_bytes())?;
    let rid = Text::from_slice(alloc, rid.as_bytes())?;
    Ok(schema.class(&Name { rty, rid }))
}

// What a schema says of one class.
fn push_class(schema: &Schema, class: ClassRef, text: &mut String) -> Result<(), AllocError>
    requires { class < length schema.now }
{
    write!(text, " {} ", role_text(schema.role(class)))?;
    match schema.partner(class) {
        Some(partner) => push_bytes(text, schema.name(partner).rid.as_slice())?,
        None => text.push_str("-")?,
    }
    let letter = char::from(schema.letter(class));
    let values = if schema.is_number(class) {
        "number"
    } else {
        "text"
    };
    writeln!(text, " {letter} {values}")
}

fn role_text(role: Role) -> &'static str {
    match role {
        Role::Initial => "initial",
        Role::Final => "final",
        Role::Left => "left",
        Role::Right => "right",
        Role::Plain => "plain",
    }
}
