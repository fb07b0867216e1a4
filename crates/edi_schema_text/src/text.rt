//! The text of a schema (docs/FORMAT.md, "The text of a schema").

ghost use Rattle.std.specs.Prelude.{◌≡◌, ◌++◌, ◌∷◌, ◌<◌, length, Some, IfOk, OnOk, slice_get, if◌then◌else◌, []};
ghost use Rattle.edi_schema.specs.declared.class.Class.{Class as SaidClass};
ghost use Rattle.edi_record.specs.declared.name.Name.{Name as ClassName};
ghost use Rattle.edi_schema_text.specs.SchemaText.{class_lines, is_attribute_class, is_nameable, kind_text, line_of_class, text_of_schema, values_text, values_word};
ghost use Rattle.sha2.specs.Sha256.{sha256};

use edi_record::Name;
use edi_schema::{Class, Role, Schema};
use sha2::{Digest, Sha256};
use std::alloc::{AllocError, Global};

/// The text of a schema: a head, and a line for each class that a pointer can name, in the order of the names. Two
/// schemas have one text exactly if they mean the same (`laws::texts_tell_schemas`).
pub fn schema_text(alloc: Global, schema: &Schema) -> Result<Vec<u8>, AllocError>
    ensures { IfOk result (λ text. text.items ≡ text_of_schema schema.now) }
{
    let mut text = b"edicad schema 1\n".to_vec(alloc)?;
    for place in 0..schema.class_count() {
        put_class(&mut text, schema, place)?;
    }
    Ok(text)
}

/// The SHA-256 of the text of a schema.
pub fn schema_digest(alloc: Global, schema: &Schema) -> Result<[u8; 32], AllocError>
    ensures { IfOk result (λ digest. digest ≡ sha256 (text_of_schema schema.now)) }
{
    let text = schema_text(alloc, schema)?;
    Ok(Sha256::digest(&text))
}

// Adds the line of the class at a place, but for one that no pointer can name.
fn put_class(text: &mut Vec<u8>, schema: &Schema, place: usize) -> Result<(), AllocError>
    requires { place < length schema.now }
    ensures { (entry : ClassName × SaidClass) → slice_get schema.now place ≡ Some entry
        → OnOk result (text.new.items ≡ text.old.items ++ class_lines (entry ∷ [])) }
{
    let class = schema.class_at(place);
    let name = schema.name(class);
    if !is_nameable(name) {
        return Ok(());
    }
    let said = Class {
        role: schema.role(class),
        letter: schema.letter(class),
        is_number: schema.is_number(class),
    };
    put_line(text, name, said)
}

// Whether a pointer can name the class of this name.
fn is_nameable(name: &Name) -> bool
    ensures { (class : SaidClass) → result ≡ is_nameable (name.now, class) }
{
    !name.rty.as_slice().contains(&b';')
}

// Adds the line of a class.
#[tactic(auto, unfolding(crate::specs::SchemaText::line_of_class))]
fn put_line(text: &mut Vec<u8>, name: &Name, class: Class) -> Result<(), AllocError>
    ensures { OnOk result (text.new.items ≡ text.old.items ++ line_of_class (name.now, class)) }
{
    text.extend_from_slice(name.rty.as_slice())?;
    text.push(b';')?;
    text.extend_from_slice(name.rid.as_slice())?;
    text.push(b';')?;
    put_values(text, name, class)?;
    text.push(b';')?;
    text.extend_from_slice(kind_text(class.role))?;
    text.push(b'\n')?;
    Ok(())
}

// Adds the letter of a class and what its values are.
fn put_values(text: &mut Vec<u8>, name: &Name, class: Class) -> Result<(), AllocError>
    ensures { OnOk result (text.new.items ≡ text.old.items ++ values_text (name.now, class)) }
{
    if name.rty.as_slice() != b"ATT".as_slice() {
        return text.extend_from_slice(b"-;-");
    }
    text.push(class.letter)?;
    text.push(b';')?;
    text.extend_from_slice(values_word(class.is_number))
}

// What values are that read as numbers where they can, or don't.
fn values_word(is_number: bool) -> &'static [u8]
    ensures { result.now ≡ values_word is_number }
{
    if is_number { b"number" } else { b"bytes" }
}

// The words for a kind of link.
fn kind_text(role: Role) -> &'static [u8]
    ensures { result.now ≡ kind_text role }
{
    match role {
        Role::Initial => b"initial node",
        Role::Final => b"final node",
        Role::Left => b"left face",
        Role::Right => b"right face",
        Role::Plain => b"-",
    }
}
