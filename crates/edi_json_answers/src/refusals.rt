//! The line of JSON of a sheet that is accepted or refused, and of a schema that is refused. It fails only if memory
//! runs out.

ghost use Rattle.std.specs.Prelude.{◌≡◌, ◌∷◌, [], IfOk, codes};
ghost use Rattle.json.specs.Json.{no_members};
ghost use Rattle.edi_json.specs.Texts.{ReadsAs, json_text};
ghost use Rattle.edi_json_answers.specs.Answers.{answer_value, schema_value, sheet_value};

use crate::answers::{write_schema, write_sheet};
use crate::parts::write_bare;
use edi_compare::Fault;
use edi_json::lines::{begin_line, end_line};
use edi_schema::SchemaFault;
use std::alloc::{AllocError, Global};

/// The line of a sheet that is accepted.
pub fn accepted_sheet_line(alloc: Global) -> Result<Vec<u8>, AllocError>
    ensures text { IfOk result (λ text. text.items
        ≡ json_text (answer_value (codes "accepted") no_members ∷ [])) }
    ensures read { IfOk result (λ text. ReadsAs text.items (answer_value (codes "accepted") no_members ∷ [])) }
{
    let mut text = Vec::new(alloc);
    let mut writer = begin_line(alloc, &mut text);
    write_bare(&mut writer, "accepted")?;
    end_line(&mut text, writer)?;
    Ok(text)
}

/// The line of a sheet that is refused.
pub fn refused_sheet_line(alloc: Global, fault: &Fault) -> Result<Vec<u8>, AllocError>
    ensures text { IfOk result (λ text. text.items ≡ json_text (sheet_value (codes "sheet") fault.now ∷ [])) }
    ensures read { IfOk result (λ text. ReadsAs text.items (sheet_value (codes "sheet") fault.now ∷ [])) }
{
    let mut text = Vec::new(alloc);
    let mut writer = begin_line(alloc, &mut text);
    write_sheet(alloc, &mut writer, "sheet", fault)?;
    end_line(&mut text, writer)?;
    Ok(text)
}

/// The line of a schema that is refused.
pub fn refused_schema_line(alloc: Global, fault: &SchemaFault) -> Result<Vec<u8>, AllocError>
    ensures text { IfOk result (λ text. text.items ≡ json_text (schema_value fault.now ∷ [])) }
    ensures read { IfOk result (λ text. ReadsAs text.items (schema_value fault.now ∷ [])) }
{
    let mut text = Vec::new(alloc);
    let mut writer = begin_line(alloc, &mut text);
    write_schema(alloc, &mut writer, fault)?;
    end_line(&mut text, writer)?;
    Ok(text)
}
