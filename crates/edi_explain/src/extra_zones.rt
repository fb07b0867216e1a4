//! How many extra zones a plan has.

ghost use Rattle.std.specs.Prelude.{◌≡◌, ◌++◌, IfOk, OnOk};
ghost use Rattle.edi_explain.specs.ExtraZones.{extra_count, extra_line, number_line};

use edi_line::push_number;
use edi_plan::Plan;
use std::alloc::{AllocError, Global};

/// How many zones the records of a plan have whose codes aren't known there. Where so many can't be counted, memory
/// can't hold them either.
fn extra_zones(plan: &Plan) -> Result<u64, AllocError>
    ensures { IfOk result (λ count. count ≡ extra_count plan.now) }
{
    let mut count: u64 = 0;
    for place in 0..plan.len() {
        match count.checked_add(plan.extras(place).len() as u64) {
            Some(more) => count = more,
            None => return Err(AllocError),
        }
    }
    Ok(count)
}

/// Appends how many there are of something, behind words, as a line.
fn push_count(text: &mut Vec<u8>, words: &[u8], count: u64) -> Result<(), AllocError>
    ensures { OnOk result (text.new.items ≡ text.old.items ++ number_line words.now count) }
{
    text.extend_from_slice(words)?;
    text.extend_from_slice(b": ")?;
    push_number(text, count)?;
    text.extend_from_slice(b"\n")
}

/// Appends the line on the extra zones of a plan.
pub(crate) fn push_extra_zones(text: &mut Vec<u8>, plan: &Plan) -> Result<(), AllocError>
    ensures { OnOk result (text.new.items ≡ text.old.items ++ extra_line plan.now) }
{
    let count = extra_zones(plan)?;
    push_count(text, b"extra zones", count)
}
