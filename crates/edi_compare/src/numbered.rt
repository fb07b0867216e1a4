//! The records of a sheet by what pairs them with those of another: their types, their numbers and their reversals.

ghost use Rattle.std.specs.Prelude.{◌≡◌, ◌<◌, ℕ, length, slice_index_or, IfOk};
ghost use Rattle.edi_plan.specs.Plans.{IsPlace, record_at};
ghost use Rattle.edi_record.specs.declared.record.Kind.TheVariants.{Pno};
ghost use Rattle.edi_compare.specs.Counterparts.{HasCounterparts, IsNumbered, PairsByNumber, counterpart};

use crate::pairing::Pairing;
use edi_line::Sequence;
use edi_plan::Plan;
use edi_rank::Labels;
use edi_record::Kind;
use std::alloc::{AllocError, Global};

/// The records of a sheet, by place.
pub struct NumberedRecords {
    /// The type of each.
    pub kinds: Vec<Kind>,
    /// The number of each among those of its type, from 1.
    pub numbers: Sequence<u32>,
    /// Whether each is an arc that is turned.
    pub turned: Sequence<bool>,
}

impl Drop for NumberedRecords {
    fn drop(self) {
        let NumberedRecords {
            kinds: _,
            numbers: _,
            turned: _,
        } = self;
    }
}

/// The records of a plan, by its labels.
pub fn numbered_records(
    alloc: Global,
    plan: &Plan,
    labels: Labels,
) -> Result<NumberedRecords, AllocError>
    ensures { IfOk result (IsNumbered plan.now labels) }
{
    let kinds = kinds_of(alloc, plan)?;
    let (numbers, turned) = labels.into_numbers_and_turned_arcs();
    Ok(NumberedRecords {
        kinds,
        numbers,
        turned,
    })
}

/// The types of a plan's records, by place.
fn kinds_of(alloc: Global, plan: &Plan) -> Result<Vec<Kind>, AllocError>
    ensures length { IfOk result (λ kinds. length kinds.items ≡ length plan.now.list) }
    ensures each { IfOk result (λ kinds. (k : ℕ) → IsPlace plan.now k
        → slice_index_or kinds.items k Pno ≡ (record_at plan.now k).kind) }
{
    let mut kinds = Vec::with_capacity(alloc, plan.len() as usize)?;
    for place in 0..plan.len() {
        kinds.push(plan.kind(place))?;
    }
    Ok(kinds)
}

/// The pairing of the records of two sheets by their types and numbers. It is worth nothing by itself: `check_pairing`
/// says whether it carries.
pub fn pairing_by_numbers(
    alloc: Global,
    first: &NumberedRecords,
    others: &Labels,
) -> Result<Pairing, AllocError>
    requires { HasCounterparts first.now others.now }
    ensures { IfOk result (PairsByNumber first.now others.now) }
{
    let mut to = Vec::with_capacity(alloc, first.kinds.len())?;
    let mut turned = Vec::with_capacity(alloc, first.kinds.len())?;
    for place in 0..first.kinds.len() {
        let target = counterpart(first, others, place);
        to.push(target)?;
        turned.push(first.turned.as_slice()[place] != others.turned(target))?;
    }
    Ok(Pairing {
        to: Sequence::from_vec(to),
        turned: Sequence::from_vec(turned),
    })
}

/// The place of the record with the type and the number of the one at a place of the first sheet.
fn counterpart(first: &NumberedRecords, others: &Labels, place: usize) -> u32
    requires place { place < length first.now.kinds.items }
    requires counterparts { HasCounterparts first.now others.now }
    ensures there { result < length others.now.turned }
    ensures is { result ≡ counterpart first.now others.now place }
{
    others.order(first.kinds[place])[first.numbers.as_slice()[place] as usize - 1]
}
