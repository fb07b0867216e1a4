//! Why a sheet is refused, or what it holds.

ghost use Rattle.std.specs.Prelude.{◌≡◌};
ghost use Rattle.edi_explain.specs.Found.{IsFound};
ghost use Rattle.edicad_c.specs.Explains.{IsDescribed, IsExplained, IsExplanation};
ghost use Rattle.edicad_c.specs.Held.{IsWrongCall, MatchSchema, in_box};

use crate::answer::{Answer, FIRST_INPUT};
use crate::given::{Given, give_under};
use crate::handle::Handle;
use edi_explain::{Found, describe_plan, examine, explain_sheet};
use edi_schema::Schema;
use edi_topo::Sound;
use std::alloc::Global;

/// What a sheet holds; or where and why it is refused, by this name of its file.
#[unsafe(no_mangle)]
pub extern "C" fn edicad_explain(
    alloc: Global,
    schema: &mut Handle,
    sheet: &[u8],
    name: &[u8],
    text: &mut Handle,
) -> Answer
    ensures kept { schema.new.held ≡ schema.old.held }
    ensures answer { MatchSchema schema.old.held (λ s. IsExplanation s sheet.now name.now text.new.held result)
        (IsWrongCall text.new.held result) }
{
    give_under(alloc, schema, text, |schema| {
        explanation(alloc, schema, sheet, name)
    })
}

// The same under a schema.
fn explanation(alloc: Global, schema: &Schema, sheet: &[u8], name: &[u8]) -> Given
    ensures { IsExplanation schema.now sheet.now name.now (in_box result.content) result.answer }
{
    match examine(alloc, schema, sheet) {
        Ok(sound) => description(alloc, &sound),
        Err(found) => cause(alloc, schema, sheet, name, &found),
    }
}

// What an accepted sheet holds.
fn description(alloc: Global, sound: &Sound) -> Given
    ensures { IsDescribed sound.now (in_box result.content) result.answer }
{
    match describe_plan(alloc, sound.plan()) {
        Ok(text) => Given::of_bytes(alloc, Answer::done(), text),
        Err(_) => Given::nothing(Answer::no_memory()),
    }
}

// Where and why a sheet is refused.
fn cause(alloc: Global, schema: &Schema, sheet: &[u8], name: &[u8], found: &Found) -> Given
    requires { IsFound schema.now sheet.now found.now }
    ensures { IsExplained schema.now sheet.now name.now found.now.fault (in_box result.content) result.answer }
{
    match explain_sheet(alloc, schema, sheet, name, found) {
        Ok(text) => {
            let answer = Answer::of_sheet(FIRST_INPUT, &found.fault);
            Given::of_bytes(alloc, answer, text)
        }
        Err(_) => Given::nothing(Answer::no_memory()),
    }
}
