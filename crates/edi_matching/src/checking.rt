//! Checking matchings.

ghost use Rattle.std.specs.Prelude.{◌↔◌, IfOk, IsTrue};
ghost use Rattle.edi_plan.specs.Agreeing.{HasClasses};
ghost use Rattle.edi_matching.specs.Matchings.{MatchingHolds};

use crate::matching::Matching;
use crate::places::{are_apart, targets_of};
use crate::record::Proposed;
use edi_compare::Accepted;
use edi_schema::Schema;
use std::alloc::{AllocError, Global};

/// Whether a matching holds between two sheets that were accepted under this schema: it has an entry for each record of
/// the first, takes no two of these to one, turns matched arcs alone, and each record that it matches is the one that
/// it goes to, as `check_pairing` has it, with all its ends. A true answer asks for no trust in where the matching came
/// from. It fails only if memory runs out.
pub fn check_matching(
    alloc: Global,
    schema: &Schema,
    first: &Accepted,
    second: &Accepted,
    matching: &Matching,
) -> Result<bool, AllocError>
    requires { HasClasses schema.now first.now }
    ensures { IfOk result (λ answer. IsTrue answer ↔ MatchingHolds schema.now first.now second.now matching.now) }
{
    let count = first.sound().plan().len() as usize;
    let to = matching.to.as_slice();
    if to.len() != count || matching.turned.as_slice().len() != count {
        return Ok(false);
    }
    if !are_apart(alloc, to, second.sound().plan().len())? {
        return Ok(false);
    }
    let targets = targets_of(alloc, to)?;
    Proposed::of(schema, first, second, matching, &targets).all_hold(alloc)
}
