//! Pictures of accepted sheets.

ghost use Rattle.std.specs.Prelude.{◌≡◌, ◌∷◌, [], IfOk};
ghost use Rattle.edi_plan.specs.Agreeing.{Agrees, HasClasses};
ghost use Rattle.edi_picture.specs.Pictures.{IsPicture};
ghost use Rattle.edi_drawing.specs.Drawn.{both_sheets, first_sheet, plain_sheet, second_sheet};

use crate::identifiers::identifiers_of;
use crate::labels::{first_labels, record_labels};
use crate::marks::{first_marks, one_for_each, second_marks};
use crate::names::FileNames;
use crate::pair::SheetPair;
use crate::tints::first_tints;
use edi_picture::{Looks, Mark, Shown, picture};
use edi_report::LocatedSheet;
use edi_schema::Schema;
use std::alloc::{AllocError, Global};

/// The picture of a sheet alone.
pub(crate) fn picture_of(
    alloc: Global,
    schema: &Schema,
    name: &str,
    sheet: &LocatedSheet,
) -> Result<Vec<u8>, AllocError>
    requires classes { HasClasses schema.now sheet.now.accepted }
    requires agrees { Agrees schema.now sheet.now.accepted }
    ensures { IfOk result (λ picture.
        IsPicture schema.now (plain_sheet schema.now name.now sheet.now ∷ []) picture.items) }
{
    let plan = sheet.accepted.sound().plan();
    let identifiers = identifiers_of(alloc, sheet)?;
    let looks = Looks {
        marks: one_for_each(alloc, Mark::Plain, plan.len())?,
        tints: Vec::new(alloc),
        labels: record_labels(alloc, schema, plan)?,
    };
    picture(
        alloc,
        schema,
        &[Shown::new(plan, name.as_bytes(), identifiers, looks)],
    )
}

/// The first of two sheets as it is drawn.
fn first_shown<'a>(
    alloc: Global,
    schema: &Schema,
    name: &'a str,
    pair: &SheetPair<'a>,
) -> Result<Shown<'a>, AllocError>
    requires first { Agrees schema.now pair.now.first.accepted }
    requires second { Agrees schema.now pair.now.second.accepted }
    ensures { IfOk result (λ shown. shown ≡ first_sheet schema.now name.now pair.now) }
{
    let marks = first_marks(alloc, pair.unchanged, pair.became, pair.plan().len())?;
    let others = second_marks(alloc, pair.unchanged, pair.became, pair.other().len())?;
    let tints = first_tints(alloc, pair, &marks, &others)?;
    let labels = first_labels(alloc, schema, pair, &tints)?;
    let identifiers = identifiers_of(alloc, pair.first)?;
    let looks = Looks {
        marks,
        tints,
        labels,
    };
    Ok(Shown::new(pair.plan(), name.as_bytes(), identifiers, looks))
}

/// The second of two sheets as it is drawn.
fn second_shown<'a>(
    alloc: Global,
    schema: &Schema,
    name: &'a str,
    pair: &SheetPair<'a>,
) -> Result<Shown<'a>, AllocError>
    requires { Agrees schema.now pair.now.second.accepted }
    ensures { IfOk result (λ shown. shown ≡ second_sheet schema.now name.now pair.now) }
{
    let other = pair.other();
    let identifiers = identifiers_of(alloc, pair.second)?;
    let looks = Looks {
        marks: second_marks(alloc, pair.unchanged, pair.became, other.len())?,
        tints: one_for_each(alloc, true, other.len())?,
        labels: record_labels(alloc, schema, other)?,
    };
    Ok(Shown::new(other, name.as_bytes(), identifiers, looks))
}

/// The picture of two sheets that were compared.
pub(crate) fn picture_of_both(
    alloc: Global,
    schema: &Schema,
    names: &FileNames<'_>,
    pair: &SheetPair<'_>,
) -> Result<Vec<u8>, AllocError>
    requires first { HasClasses schema.now pair.now.first.accepted }
    requires second { HasClasses schema.now pair.now.second.accepted }
    requires first_agrees { Agrees schema.now pair.now.first.accepted }
    requires second_agrees { Agrees schema.now pair.now.second.accepted }
    ensures { IfOk result (λ picture.
        IsPicture schema.now (both_sheets schema.now names.now pair.now) picture.items) }
{
    let one = first_shown(alloc, schema, names.first, pair)?;
    let two = second_shown(alloc, schema, names.second, pair)?;
    picture(alloc, schema, &[one, two])
}
