//! All that the records of a sheet break, record by record and rule by rule.

ghost use Rattle.std.specs.Prelude.{◌≡◌, ◌<◌, ◌≤◌, ◌+◌, ◌↔◌, ℕ, IfOk, IsTrue, OnOk};
ghost use Rattle.edi_line.specs.AllBroken.{AreAllBroken};
ghost use Rattle.edi_census.specs.inner.Judging.{BreaksBefore};

use edi_line::{BrokenRule, push_if_broken};
use std::alloc::{AllocError, Global};

/// Records of which it can be asked whether one breaks a rule.
pub trait Judging {
    /// The record with this number, from 1, breaks the rule.
    ghost Breaks: { Self → ℕ → ℕ → Type 0 };

    /// How many records there are.
    ghost size: { Self → ℕ };

    /// Whether the record at a place, from 0, breaks a rule.
    fn breaks(&self, rule: u16, place: u32) -> bool
        requires { place < size self.now }
        ensures { IsTrue result ↔ Breaks self.now rule (place + 1) };
}

/// Appends a rule with its place, if it is broken there.
fn push_if<J: Judging>(
    list: &mut Vec<BrokenRule>,
    records: &J,
    rule: u16,
    place: u32,
) -> Result<(), AllocError>
    requires { place < J.size records.now }
    ensures { OnOk result (AreAllBroken (BreaksBefore (J.Breaks records.now) rule (place + 1)) list.old.items
        → AreAllBroken (BreaksBefore (J.Breaks records.now) (rule + 1) (place + 1)) list.new.items) }
{
    let is_broken = records.breaks(rule, place);
    push_if_broken(list, is_broken, rule, u64::from(place) + 1)
}

/// Appends each of the rules from the first to the last that the record at a place breaks.
fn push_broken<J: Judging>(
    list: &mut Vec<BrokenRule>,
    records: &J,
    first: u16,
    last: u16,
    place: u32,
) -> Result<(), AllocError>
    requires place { place < J.size records.now }
    requires rules { first ≤ last }
    requires within { last < 1000 }
    ensures { OnOk result (AreAllBroken (BreaksBefore (J.Breaks records.now) first (place + 1)) list.old.items
        → AreAllBroken (BreaksBefore (J.Breaks records.now) (last + 1) (place + 1)) list.new.items) }
{
    for rule in first..last + 1 {
        push_if(list, records, rule, place)?;
    }
    Ok(())
}

/// All that so many records break, where they can break no rules but those from the first to the last.
#[tactic(auto, using(crate::proofs::NotedRules::none_yet, crate::proofs::NotedRules::next_place, crate::proofs::NotedRules::all_passed))]
pub fn broken_by<J: Judging>(
    alloc: Global,
    records: &J,
    count: u32,
    first: u16,
    last: u16,
) -> Result<Vec<BrokenRule>, AllocError>
    requires count { count ≡ J.size records.now }
    requires rules { first ≤ last }
    requires within { last < 1000 }
    requires bounded { (rule at : ℕ) → J.Breaks records.now rule at
        → (first ≤ rule) × (rule ≤ last) × (1 ≤ at) × (at ≤ J.size records.now) }
    ensures { IfOk result (λ list. AreAllBroken (J.Breaks records.now) list.items) }
{
    let mut list = Vec::new(alloc);
    for place in 0..count {
        push_broken(&mut list, records, first, last, place)?;
    }
    Ok(list)
}
