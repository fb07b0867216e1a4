//! A number that two plans share if they are the same. Plans whose records don't hold the same hardly ever share one,
//! so they need not be ranked to be told apart. Where they do, by chance or because somebody made them so, that costs
//! time alone.

ghost use Rattle.std.specs.Prelude.{◌≡◌, ℕ, fold};
ghost use Rattle.std.specs.Hash.FoldHasher as folding;
ghost use Rattle.edi_plan.specs.Plans.{IsPlace, record_at};
ghost use Rattle.edi_matching.specs.inner.Checksums.{attribute_checksum, extra_checksum, fixed_class, hash_of, plan_checksum, point_checksum, record_checksum, sum_of, value_input};

use edi_plan::{Plan, PlanAttribute};
use edi_record::{Extra, Kind, Point, Value};
use edi_schema::{ClassRef, Role};
use std::hash::{FoldHasher, Hash, Hasher};

/// A part of a record that has a checksum.
trait Checksum {
    /// The checksum of each value.
    ghost checksum_of: { Self → ℕ };

    fn checksum(&self) -> u64
        ensures { result ≡ checksum_of self.now };
}

impl Checksum for Point {
    ghost checksum_of = { point_checksum };

    fn checksum(&self) -> u64 {
        hash_of(self)
    }
}

impl Checksum for PlanAttribute {
    ghost checksum_of = { attribute_checksum };

    fn checksum(&self) -> u64 {
        let mut state = FoldHasher::default();
        self.atp.hash(&mut state);
        self.tex.hash(&mut state);
        hash_value(&self.value, &mut state);
        state.finish()
    }
}

impl Checksum for Extra {
    ghost checksum_of = { extra_checksum };

    fn checksum(&self) -> u64 {
        let mut state = FoldHasher::default();
        state.write(&self.code);
        hash_value(&self.value, &mut state);
        state.finish()
    }
}

/// What a record holds but for its ends, whatever the order of its parts and the direction of its points.
#[derive(Clone, Copy, PartialEq, Eq, Hash)]
struct Summary {
    kind: Kind,
    class: Option<ClassRef>,
    points: u64,
    attributes: u64,
    extras: u64,
}

/// The checksum of a plan: the sum of those of its records.
pub(crate) fn plan_checksum(plan: &Plan) -> u64
    ensures { result ≡ plan_checksum plan.now }
{
    let mut sum: u64 = 0;
    for place in 0..plan.len() {
        sum = sum.wrapping_add(record_checksum(plan, place));
    }
    sum
}

pub(crate) fn record_checksum(plan: &Plan, place: u32) -> u64
    requires { IsPlace plan.now place }
    ensures { result ≡ record_checksum (record_at plan.now place) }
{
    let summary = Summary {
        kind: plan.kind(place),
        class: fixed_class(plan, place),
        points: sum_of(plan.points(place)),
        attributes: sum_of(plan.attributes(place)),
        extras: sum_of(plan.extras(place)),
    };
    hash_of(&summary)
}

/// The class of a record, if no reversal can exchange it.
fn fixed_class(plan: &Plan, place: u32) -> Option<ClassRef>
    requires { IsPlace plan.now place }
    ensures { result ≡ fixed_class (record_at plan.now place) }
{
    match plan.role(place) {
        Role::Plain => Some(plan.scp(place)),
        Role::Initial | Role::Final | Role::Left | Role::Right => None,
    }
}

/// The sum of the checksums of some parts, which is the same in any order.
fn sum_of<P: Checksum>(parts: &[P]) -> u64
    ensures { result ≡ sum_of P.checksum_of parts.now }
{
    let mut sum: u64 = 0;
    for part in parts {
        sum = sum.wrapping_add(part.checksum());
    }
    sum
}

fn hash_of<T: Hash>(value: &T) -> u64
    ensures { result ≡ hash_of (T.hash_input value.now) }
{
    let mut state = FoldHasher::default();
    value.hash(&mut state);
    state.finish()
}

/// Adds a value to a hash.
fn hash_value(value: &Value, state: &mut FoldHasher)
    ensures { state.new ≡ fold folding.write state.old (value_input value.now) }
{
    match value {
        Value::Number(number) => number.hash(state),
        Value::Bytes(text) => state.write(text.as_slice()),
    }
}
