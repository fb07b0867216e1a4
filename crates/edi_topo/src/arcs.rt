//! The arcs of a plan, by their keys: rule 405.

ghost use Rattle.std.specs.Prelude.{◌≡◌, ◌<◌, ℕ, [], length, slice_index, slice_index_or, IfOk, IfErr};
ghost use Rattle.edi_record.specs.declared.record.Kind.TheVariants.{Par};
ghost use Rattle.edi_plan.specs.EarlierLinks.{IsLeast};
ghost use Rattle.edi_plan.specs.Places.{places_of};
ghost use Rattle.edi_topo.specs.Arcs.{forward_keys, IsForwardRanking};
ghost use Rattle.edi_topo.specs.EarlierRecords.{SharesPoints};
ghost use Rattle.edi_topo.specs.inner.Arcs.{IsFirstRepeatedArcIfAny};
ghost use Rattle.edi_topo.specs.inner.Repeats.{repeat_place};

use crate::forward_points::ForwardPoints;
use crate::layer::Layer;
use crate::numbers::Ranks;
use crate::ranking::ranks_or_tie;
use crate::repeat::Repeat;
use crate::sound::Sound;
use edi_plan::Plan;
use edi_record::Kind;
use std::alloc::{AllocError, Global};
use std::marker::Model;

/// The arcs of a plan, in file order, by their points in the forward direction.
#[derive(Drop)]
pub struct ArcLayer<'a> {
    plan: &'a Plan,
    places: &'a [u32],
}

impl<'a> Model for ArcLayer<'a> {
    ghost use Rattle.std.specs.Prelude.{◌≡◌};
    ghost use Rattle.edi_record.specs.declared.record.Kind.TheVariants.{Par};
    ghost use Rattle.edi_plan.specs.Places.{places_of};
    ghost use Rattle.edi_plan.specs.Plans.{PlanData};

    ghost Value = { PlanData };

    ghost view = { λ l. l.plan.now };

    ghost invariant = { λ l. l.places.now ≡ places_of Par l.plan.now };
}

impl<'a> ArcLayer<'a> {
    /// The arcs of a sound plan.
    pub fn of(_alloc: Global, sound: &'a Sound) -> Result<ArcLayer<'a>, AllocError>
        ensures { IfOk result (λ layer. layer ≡ sound.now) }
    {
        Ok(ArcLayer::in_plan(sound.plan()))
    }

    /// The arcs of a plan.
    pub(crate) fn in_plan(plan: &'a Plan) -> ArcLayer<'a>
        ensures { result ≡ plan.now }
    {
        ArcLayer {
            plan,
            places: plan.places(Kind::Par),
        }
    }

    /// The place of an arc.
    pub fn place(&self, member: u32) -> u32
        requires { member < length (places_of Par self.now) }
        ensures { result ≡ slice_index (places_of Par self.now) member }
    {
        self.places[member as usize]
    }
}

impl<'a> Layer for ArcLayer<'a> {
    type Key = ForwardPoints<'a>;

    ghost size = { λ l. length (places_of Par l) };

    ghost key_of = { λ l m. slice_index_or (forward_keys l) m [] };

    fn len(&self) -> u32 {
        self.plan.keeps();
        self.places.len() as u32
    }

    fn key(&self, _alloc: Global, member: u32) -> Result<ForwardPoints<'a>, AllocError> {
        Ok(ForwardPoints::of(self.plan.points(self.place(member))))
    }
}

/// The numbers of the arcs, in file order; or the first with the points of an earlier one, in either direction, with
/// the first that has them.
pub(crate) fn ranks_or_repeat(
    alloc: Global,
    plan: &Plan,
) -> Result<Result<Ranks, Repeat>, AllocError>
    ensures ranks { IfOk result (λ found. IfOk found (IsForwardRanking plan.now)) }
    ensures repeat { IfOk result (λ found. IsFirstRepeatedArcIfAny plan.now (repeat_place found)) }
    ensures earlier { IfOk result (λ found. IfErr found (λ r. IsLeast (SharesPoints plan.now r.place) r.earlier)) }
{
    let arcs = ArcLayer::in_plan(plan);
    match ranks_or_tie(alloc, &arcs)? {
        Ok(ranks) => Ok(Ok(ranks)),
        Err(tied) => Ok(Err(Repeat {
            place: arcs.place(tied.member),
            earlier: arcs.place(tied.earlier),
        })),
    }
}
