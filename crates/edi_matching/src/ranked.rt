//! Plans whose records are gone over by their numbers, so that which are found doesn't depend on how a plan is
//! presented.

ghost use Rattle.std.specs.Prelude.{◌≡◌, ◌<◌, fold, length};
ghost use Rattle.std.specs.List.{list_any};
ghost use Rattle.std.specs.Hash.FoldHasher as folding;
ghost use Rattle.edi_plan.specs.Plans.{record_at};
ghost use Rattle.edi_rank.specs.Labelling.{number_of, order_of, turned_at};
ghost use Rattle.edi_matching.specs.inner.Checksums.{sum_of};
ghost use Rattle.edi_matching.specs.inner.Ranked.{end_checksum, ends_input, fingerprint_of, forward_sides, member_at, record_input, records_input, role_after_reversals, role_number, text_input, type_input};

use crate::checksum::record_checksum;
use edi_line::Text;
use edi_plan::{Plan, PlanEnd};
use edi_rank::Labels;
use edi_record::Kind;
use edi_schema::Role;
use std::hash::{FoldHasher, Hash, Hasher};

/// A plan, with the numbers of its records in the canonical file.
#[derive(Clone, Copy)]
pub(crate) struct Ranked<'a> {
    pub(crate) plan: &'a Plan,
    pub(crate) labels: &'a Labels,
}

/// An object by its number, and where it stands.
#[derive(Clone, Copy, PartialEq, Eq, PartialOrd, Ord)]
pub(crate) struct Member {
    pub(crate) number: u32,
    pub(crate) place: u32,
}

const TYPES: [Kind; 5] = [Kind::Pno, Kind::Par, Kind::Pfe, Kind::Fea, Kind::Lnk];

impl<'a> Ranked<'a> {
    /// The number of a record among those of its type, from 1; 0 where there is no record.
    pub(crate) fn number(self, place: u32) -> u32
        ensures { result ≡ number_of self.entry.labels.now place }
    {
        let numbers = self.labels.numbers();
        numbers.get(place as usize).copied().unwrap_or(0)
    }

    pub(crate) fn member(self, place: u32) -> Member
        ensures { result ≡ member_at self.entry.labels.now place }
    {
        Member {
            number: self.number(place),
            place,
        }
    }

    /// Whether a record is an arc that runs backwards.
    fn is_backward(self, place: u32) -> bool
        ensures { result ≡ turned_at self.entry.labels.now.turned place }
    {
        let turned = self.labels.turned_arcs();
        turned.get(place as usize).copied().unwrap_or(false)
    }

    /// The sides of an arc, that on the left of its forward direction first.
    pub(crate) fn sides(self, arc: u32) -> [Role; 2]
        ensures { result ≡ forward_sides (turned_at self.entry.labels.now.turned arc) }
    {
        if self.is_backward(arc) {
            [Role::Right, Role::Left]
        } else {
            [Role::Left, Role::Right]
        }
    }

    /// A number that all presentations of the plan share, and hardly any other plan.
    pub(crate) fn fingerprint(self) -> u64
        ensures { result ≡ fingerprint_of self.entry.plan.now self.entry.labels.now }
    {
        let mut state = FoldHasher::default();
        for kind in TYPES {
            self.hash_type(kind, &mut state);
        }
        state.finish()
    }

    /// Adds the records of a type to a hash, by number.
    fn hash_type(self, kind: Kind, state: &mut FoldHasher)
        ensures { state.new
            ≡ fold folding.write state.old
            (records_input self.entry.plan.now self.entry.labels.now (order_of self.entry.labels.now kind)) }
    {
        for place in self.labels.order(kind) {
            if *place < self.plan.len() {
                self.hash_record(*place, state);
            }
        }
    }

    /// Adds a record to a hash.
    fn hash_record(self, place: u32, state: &mut FoldHasher)
        requires { place < length self.plan.now.list }
        ensures { state.new
            ≡ fold folding.write state.old (record_input self.entry.plan.now self.entry.labels.now place) }
    {
        record_checksum(self.plan, place).hash(state);
        role_number(self.role_after(place)).hash(state);
        self.hash_ends(self.plan.ends(place), state);
    }

    /// Which kind a link is of after the reversals.
    fn role_after(self, place: u32) -> Role
        requires { place < length self.plan.now.list }
        ensures { result ≡ role_after_reversals self.entry.labels.now (record_at self.entry.plan.now place) }
    {
        let role = self.plan.role(place);
        if self.is_any_backward(self.plan.ends(place)) {
            role.opposite()
        } else {
            role
        }
    }

    /// Whether some end is an arc that runs backwards.
    fn is_any_backward(self, ends: &[PlanEnd]) -> bool
        ensures { result ≡ list_any (λ e. turned_at self.entry.labels.now.turned e.target) ends.now }
    {
        for end in ends {
            if self.is_backward(end.target) {
                return true;
            }
        }
        false
    }

    /// Adds the ends of a record to a hash: its origin, and the others in any order.
    fn hash_ends(self, ends: &[PlanEnd], state: &mut FoldHasher)
        ensures { state.new
            ≡ fold folding.write state.old (ends_input self.entry.plan.now self.entry.labels.now ends.now) }
    {
        let Some((origin, others)) = ends.split_first() else {
            return;
        };
        self.end_checksum(origin).hash(state);
        self.sum_of_ends(others).hash(state);
    }

    /// The sum of the checksums of some ends, which is the same in any order.
    fn sum_of_ends(self, ends: &[PlanEnd]) -> u64
        ensures { result ≡ sum_of (end_checksum self.entry.plan.now self.entry.labels.now) ends.now }
    {
        let mut sum: u64 = 0;
        for end in ends {
            sum = sum.wrapping_add(self.end_checksum(end));
        }
        sum
    }

    fn end_checksum(self, end: &PlanEnd) -> u64
        ensures { result ≡ end_checksum self.entry.plan.now self.entry.labels.now end.now }
    {
        let mut state = FoldHasher::default();
        self.number(end.target).hash(&mut state);
        self.hash_kind(end.target, &mut state);
        hash_text(&end.sns, &mut state);
        state.finish()
    }

    /// Adds the type of a record to a hash, if there is one.
    fn hash_kind(self, place: u32, state: &mut FoldHasher)
        ensures { state.new ≡ fold folding.write state.old (type_input self.entry.plan.now place) }
    {
        if place >= self.plan.len() {
            return;
        }
        self.plan.kind(place).hash(state);
    }
}

/// Adds a text to a hash, if there is one.
fn hash_text(text: &Option<Text>, state: &mut FoldHasher)
    ensures { state.new ≡ fold folding.write state.old (text_input text.now) }
{
    match text {
        Some(text) => state.write(text.as_slice()),
        None => {}
    }
}

fn role_number(role: Role) -> u8
    ensures { result ≡ role_number role }
{
    match role {
        Role::Plain => 0,
        Role::Initial => 1,
        Role::Final => 2,
        Role::Left => 3,
        Role::Right => 4,
    }
}
