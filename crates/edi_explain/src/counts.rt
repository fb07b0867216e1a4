//! What a plan holds.

ghost use Rattle.std.specs.Prelude.{◌≡◌, count_by};
ghost use Rattle.edi_plan.specs.Plans.{same_kind};

use edi_plan::Plan;
use edi_record::Kind;

/// How many records of a type there are.
pub fn count_of(plan: &Plan, kind: Kind) -> usize
    ensures { result ≡ count_by (λ r. same_kind kind r.kind) plan.now.list }
{
    plan.places(kind).len()
}
