//! What differs between two sheets.

ghost use Rattle.std.specs.Prelude.{◌≡◌};
ghost use Rattle.edicad_c.specs.Differences.{IsDifferenceAnswered, form_numbered};
ghost use Rattle.edicad_c.specs.Held.{IsWrongCall, MatchSchema, in_box};

use crate::answer::Answer;
use crate::given::{Given, give_under};
use crate::handle::Handle;
use edi_diff::{TextForm, diff};
use edi_schema::Schema;
use std::alloc::Global;

/// What differs between two sheets, told in the form of this number: record by record (0), how many records differ (1),
/// object by object (2), or record by record as lines of JSON (3).
#[unsafe(no_mangle)]
pub extern "C" fn edicad_diff(
    alloc: Global,
    schema: &mut Handle,
    first: &[u8],
    second: &[u8],
    form: u8,
    text: &mut Handle,
) -> Answer
    ensures kept { schema.new.held ≡ schema.old.held }
    ensures answer { MatchSchema schema.old.held
        (λ s. IsDifferenceAnswered s first.now second.now (form_numbered form) text.new.held result)
        (IsWrongCall text.new.held result) }
{
    give_under(alloc, schema, text, |schema| {
        difference(alloc, schema, first, second, form)
    })
}

// The form of a number, if there is one.
fn form_numbered(number: u8) -> Option<TextForm<'static>>
    ensures { result ≡ form_numbered number }
{
    match number {
        0 => Some(TextForm::Records),
        1 => Some(TextForm::Brief),
        2 => Some(TextForm::Objects),
        3 => Some(TextForm::Json),
        _ => None,
    }
}

// What differs between two sheets under a schema, in the form of a number.
fn difference(alloc: Global, schema: &Schema, first: &[u8], second: &[u8], form: u8) -> Given
    ensures { IsDifferenceAnswered schema.now first.now second.now (form_numbered form)
        (in_box result.content) result.answer }
{
    let Some(form) = form_numbered(form) else {
        return Given::nothing(Answer::wrong_call());
    };
    match diff(alloc, schema, first, second, form) {
        Ok(difference) => {
            let answer = Answer::of_difference(difference.same);
            Given::of_bytes(alloc, answer, difference.text)
        }
        Err(fault) => Given::nothing(Answer::of_pair(&fault)),
    }
}
