//! The lines of JSON of digests, and of sheets that have none (docs/JSON.md, "Digests").

ghost use Rattle.std.specs.Prelude.{◌≡◌, ◌++◌, ◌∷◌, [], IfOk, OnOk, codes};
ghost use Rattle.hex.specs.Hex.{encode_lower};
ghost use Rattle.json.specs.Tree.{json_tokens};
ghost use Rattle.edi_json.specs.Texts.{ReadsAs, json_text};
ghost use Rattle.edi_json_answers.specs.Answers.{broken_at_value};
ghost use Rattle.edi_json_answers.specs.Digests.{digest_value, refused_sheet_values, schema_digest_value, sheet_digest_value};

use crate::parts::write_broken_at;
use edi_compare::{Fault, RunFault};
use edi_json::lines::{begin_line, end_line};
use edi_json::members::{begin, put_bytes, put_text};
use json::Writer;
use std::alloc::{AllocError, Global};

/// The line of the digest of a schema, by the name of its file of classes. It fails only if memory runs out.
pub fn json_of_schema_digest(
    alloc: Global,
    name: &[u8],
    digest: &[u8],
) -> Result<Vec<u8>, AllocError>
    ensures text { IfOk result (λ text. text.items ≡ json_text (schema_digest_value name.now digest.now ∷ [])) }
    ensures read { IfOk result (λ text. ReadsAs text.items (schema_digest_value name.now digest.now ∷ [])) }
{
    json_of_digest(alloc, "schema", name, digest)
}

/// The line of the digest of a sheet, by the name of its file. It fails only if memory runs out.
pub fn json_of_sheet_digest(
    alloc: Global,
    name: &[u8],
    digest: &[u8],
) -> Result<Vec<u8>, AllocError>
    ensures text { IfOk result (λ text. text.items ≡ json_text (sheet_digest_value name.now digest.now ∷ [])) }
    ensures read { IfOk result (λ text. ReadsAs text.items (sheet_digest_value name.now digest.now ∷ [])) }
{
    json_of_digest(alloc, "sheet", name, digest)
}

/// The line of a sheet that is refused, by the name of its file, and nothing of a fault that is no refusal of a sheet.
/// It fails only if memory runs out.
pub fn json_of_refused_sheet(
    alloc: Global,
    name: &[u8],
    fault: &RunFault,
) -> Result<Vec<u8>, AllocError>
    ensures text { IfOk result (λ text. text.items ≡ json_text (refused_sheet_values name.now fault.now)) }
    ensures read { IfOk result (λ text. ReadsAs text.items (refused_sheet_values name.now fault.now)) }
{
    match fault {
        RunFault::First(Fault::Line { rule, at }) => {
            json_of_refusal(alloc, name, *rule, Some(*at), None)
        }
        RunFault::First(Fault::Entry { rule, at }) => {
            json_of_refusal(alloc, name, *rule, None, Some(*at))
        }
        RunFault::First(Fault::Memory(_))
        | RunFault::Memory(_)
        | RunFault::Read { .. }
        | RunFault::TooLong { .. }
        | RunFault::Schema(_)
        | RunFault::Second(_)
        | RunFault::Write(_) => Ok(Vec::new(alloc)),
    }
}

/// The line of a digest.
fn json_of_digest(
    alloc: Global,
    of: &str,
    name: &[u8],
    digest: &[u8],
) -> Result<Vec<u8>, AllocError>
    ensures text { IfOk result (λ text. text.items
        ≡ json_text (digest_value of.now name.now (encode_lower digest.now) ∷ [])) }
    ensures read { IfOk result (λ text. ReadsAs text.items
        (digest_value of.now name.now (encode_lower digest.now) ∷ [])) }
{
    let digits = hex::encode(alloc, digest)?;
    let mut text = Vec::new(alloc);
    let mut writer = begin_line(alloc, &mut text);
    write_digest(alloc, &mut writer, of, name, digits.as_str())?;
    end_line(&mut text, writer)?;
    Ok(text)
}

/// Writes the value of a digest of these digits.
fn write_digest(
    alloc: Global,
    writer: &mut Writer,
    of: &str,
    name: &[u8],
    digits: &str,
) -> Result<(), AllocError>
    ensures before { writer.new.before ≡ writer.old.before }
    ensures tokens { OnOk result (writer.new.tokens
        ≡ writer.old.tokens ++ json_tokens (digest_value of.now name.now digits.now)) }
{
    begin(writer, "digest")?;
    put_text(writer, "of", of)?;
    put_bytes(alloc, writer, "name", name)?;
    put_text(writer, "digest", digits)?;
    writer.end_object()
}

/// The line of a refusal.
fn json_of_refusal(
    alloc: Global,
    name: &[u8],
    rule: u16,
    line: Option<u64>,
    place: Option<u64>,
) -> Result<Vec<u8>, AllocError>
    ensures text { IfOk result (λ text. text.items
        ≡ json_text (broken_at_value (codes "refusal") name.now rule line place ∷ [])) }
    ensures read { IfOk result (λ text. ReadsAs text.items
        (broken_at_value (codes "refusal") name.now rule line place ∷ [])) }
{
    let mut text = Vec::new(alloc);
    let mut writer = begin_line(alloc, &mut text);
    write_broken_at(alloc, &mut writer, "refusal", name, rule, line, place)?;
    end_line(&mut text, writer)?;
    Ok(text)
}
