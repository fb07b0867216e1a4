//! Two sheets, compared.

ghost use Rattle.std.specs.Prelude.{◌≡◌};
ghost use Rattle.edicad_c.specs.Answers.{wrong_call};
ghost use Rattle.edicad_c.specs.Held.{MatchSchema};
ghost use Rattle.edicad_c.specs.Comparisons.{IsComparison};

use crate::answer::Answer;
use crate::given::answer_under;
use crate::handle::Handle;
use edi_compare::compare;
use edi_schema::Schema;
use std::alloc::Global;

/// Whether two sheets state the same plan.
#[unsafe(no_mangle)]
pub extern "C" fn edicad_compare(
    alloc: Global,
    schema: &mut Handle,
    first: &[u8],
    second: &[u8],
) -> Answer
    ensures kept { schema.new.held ≡ schema.old.held }
    ensures answer { MatchSchema schema.old.held (λ s. IsComparison s first.now second.now result)
        (result ≡ wrong_call) }
{
    answer_under(
        alloc,
        schema,
        |schema| comparison(alloc, schema, first, second),
    )
}

// Whether two sheets state the same plan under a schema.
fn comparison(alloc: Global, schema: &Schema, first: &[u8], second: &[u8]) -> Answer
    ensures { IsComparison schema.now first.now second.now result }
{
    match compare(alloc, schema, first, second) {
        Ok(verdict) => Answer::of_verdict(&verdict),
        Err(fault) => Answer::of_pair(&fault),
    }
}
