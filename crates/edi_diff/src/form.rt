//! The forms in which what differs is told.

ghost use Rattle.std.specs.Prelude.{◌≡◌, IfOk, map};
ghost use Rattle.edi_plan.specs.Agreeing.{Agrees};
ghost use Rattle.edi_diff.specs.Forms.{IsReadByForm, identifiers_in, naming_by, text_of_form};
ghost use Rattle.edi_diff.specs.declared.form.TextForm.TheVariants.{Objects};
ghost use Rattle.edi_objects.specs.Accounts.{account_text};

use edi_json::differences_json;
use edi_objects::{Namer, account_text};
use edi_report::Reporter;
use edi_schema::Schema;
use std::alloc::{AllocError, Global};

/// In which form what differs between two sheets is told (docs/FORMAT.md, "Differences").
#[derive(Clone, Copy, PartialEq, Eq)]
pub enum TextForm<'a> {
    /// Object by object, by the attributes that people know.
    Objects,
    /// Object by object, by the attributes of the classes with these identifiers, which commas part. One that no class
    /// has names nothing.
    ObjectsNamedBy(&'a str),
    /// Record by record.
    Records,
    /// How many records differ.
    Brief,
    /// Record by record, as lines of JSON (docs/JSON.md).
    Json,
}

/// The text in a form.
pub(crate) fn text_of_form(
    alloc: Global,
    schema: &Schema,
    report: &Reporter<'_>,
    form: TextForm<'_>,
) -> Result<Vec<u8>, AllocError>
    requires first { Agrees schema.now report.now.first.accepted }
    requires second { Agrees schema.now report.now.second.accepted }
    ensures text { IfOk result (λ text. text.items ≡ text_of_form schema.now form.entry report.now) }
    ensures read { IfOk result (λ text. IsReadByForm form.entry report.now text.items) }
{
    match form {
        TextForm::Objects => text_by_objects(alloc, schema, report),
        TextForm::ObjectsNamedBy(identifiers) => text_by_given(alloc, schema, identifiers, report),
        TextForm::Records => report.text(alloc, false),
        TextForm::Brief => report.text(alloc, true),
        TextForm::Json => differences_json(alloc, report),
    }
}

/// The text object by object, by the attributes that name objects of the cadastral plan.
fn text_by_objects(
    alloc: Global,
    schema: &Schema,
    report: &Reporter<'_>,
) -> Result<Vec<u8>, AllocError>
    requires first { Agrees schema.now report.now.first.accepted }
    requires second { Agrees schema.now report.now.second.accepted }
    ensures { IfOk result (λ text. text.items ≡ text_of_form schema.now Objects report.now) }
{
    let identifiers: [&[u8]; 5] = [b"IDU_id", b"TEX_id", b"TEX2_id", b"NUM_id", b"NOM_id"];
    let namer = Namer {
        schema,
        identifiers: &identifiers,
    };
    account_text(alloc, &namer, report)
}

/// The text object by object, by the attributes of the classes with the identifiers in a text.
fn text_by_given(
    alloc: Global,
    schema: &Schema,
    given: &str,
    report: &Reporter<'_>,
) -> Result<Vec<u8>, AllocError>
    requires first { Agrees schema.now report.now.first.accepted }
    requires second { Agrees schema.now report.now.second.accepted }
    ensures { IfOk result (λ text.
        text.items ≡ account_text (naming_by schema.now (identifiers_in given.now)) report.now) }
{
    let identifiers = identifiers_in(alloc, given)?;
    let namer = Namer {
        schema,
        identifiers: &identifiers,
    };
    account_text(alloc, &namer, report)
}

/// The identifiers in a text, which commas part.
fn identifiers_in(alloc: Global, text: &str) -> Result<Vec<&[u8]>, AllocError>
    ensures { IfOk result (λ found. map (λ i. i.now) found.items ≡ identifiers_in text.now) }
{
    text.as_bytes().split(|byte| *byte == b',').collect(alloc)
}
