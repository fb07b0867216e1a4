//! The faces by their keys.

ghost use Rattle.std.specs.Prelude.{◌≡◌, ◌≤◌, ℕ, if◌then◌else◌, None, length, map, slice_index, slice_index_or, unwrap_or, IfOk};
ghost use Rattle.edi_record.specs.declared.record.Kind.TheVariants.{Par, Pfe};
ghost use Rattle.edi_schema.specs.Roles.{exchanged};
ghost use Rattle.edi_plan.specs.Places.{places_of};
ghost use Rattle.edi_plan.specs.Plans.{IsPlace};
ghost use Rattle.edi_rank.specs.inner.ArcSides.{IsSideTaken, lesser_of};
ghost use Rattle.edi_rank.specs.Keys.{least_side};
ghost use Rattle.edi_rank.specs.Labelling.{turned_at};
ghost use Rattle.edi_rank.specs.Turned.{is_backward};
ghost use Rattle.edi_rank.specs.Layers.{face_keys, forward_plan, no_side};

use crate::forward::{is_turned_in, turned_arcs};
use crate::keys::{FaceKey, compare_faces};
use crate::numbering::number_kind;
use edi_line::Sequence;
use edi_plan::Plan;
use edi_record::Kind;
use edi_schema::Role;
use edi_topo::{Layer, Ranks, Sound};
use std::alloc::{AllocError, Global};
use std::marker::Model;

/// The faces of a sound plan, in file order, by their least sides.
#[derive(Drop)]
pub struct FaceLayer {
    keys: Sequence<FaceKey>,
}

impl Model for FaceLayer {
    ghost use Rattle.std.specs.Prelude.{List, ◌≤◌, length};
    ghost use Rattle.edi_line.specs.Bytes.{most_records};
    ghost use Rattle.edi_rank.specs.declared.keys.FaceKey.{FaceKey};

    ghost Value = { List FaceKey };

    ghost view = { λ l. l.keys };

    ghost invariant = { λ l. length l.keys ≤ most_records };
}

impl FaceLayer {
    /// The faces of a plan, where its arcs have these numbers.
    pub fn of(alloc: Global, sound: &Sound, arcs: &Ranks) -> Result<FaceLayer, AllocError>
        requires { length arcs.now ≡ length (places_of Par sound.now) }
        ensures { IfOk result (λ layer. layer ≡ face_keys sound.now arcs.now) }
    {
        let turned = turned_arcs(alloc, sound.plan())?;
        FaceLayer::with_turned_arcs(alloc, sound, arcs, &turned)
    }

    /// The faces of a plan, where its arcs have these numbers and these of them aren't forward.
    pub(crate) fn with_turned_arcs(
        alloc: Global,
        sound: &Sound,
        arcs: &Ranks,
        turned: &[bool],
    ) -> Result<FaceLayer, AllocError>
        requires arcs { length arcs.now ≡ length (places_of Par sound.now) }
        requires turned_long { length turned.now ≡ length sound.now.list }
        requires turned { (k : ℕ) → IsPlace sound.now k → turned_at turned.now k ≡ is_backward sound.now k }
        ensures { IfOk result (λ layer. layer ≡ face_keys sound.now arcs.now) }
    {
        let plan = sound.plan();
        let unnumbered = vec![in alloc; 0; plan.len() as usize]?;
        let numbers = number_kind(plan, Kind::Par, arcs, unnumbered);
        let sides = least_sides(alloc, plan, &numbers, turned)?;
        let keys = sides_of_faces(alloc, plan, &sides)?;
        Ok(FaceLayer {
            keys: Sequence::from_vec(keys),
        })
    }
}

impl Layer for FaceLayer {
    type Key = FaceKey;

    ghost size = { λ l. length l };

    ghost key_of = { λ l m. slice_index_or l m no_side };

    fn len(&self) -> u32 {
        self.keys.as_slice().len() as u32
    }

    fn key(&self, alloc: Global, member: u32) -> Result<FaceKey, AllocError> {
        Ok(self.keys.as_slice()[member as usize])
    }
}

/// The role of a link once its arc is forward, where the arc may be turned.
fn side_after(role: Role, turned: bool) -> Role
    ensures { result ≡ (if turned then exchanged role else role) }
{
    if turned { role.opposite() } else { role }
}

/// The lesser of two sides, of which the first may be missing.
fn lesser_side(least: Option<FaceKey>, side: FaceKey) -> FaceKey
    ensures { result ≡ lesser_of least side }
{
    match least {
        Some(other) => {
            if compare_faces(side, other).is_gt() {
                other
            } else {
                side
            }
        }
        None => side,
    }
}

/// Lowers the least side of what an arc has by a role to that side of the arc, if that is lesser.
fn take_side(
    sides: &mut Vec<Option<FaceKey>>,
    plan: &Plan,
    numbers: &[u32],
    turned: &[bool],
    arc: u32,
    role: Role,
)
    requires place { IsPlace plan.now arc }
    requires long { length sides.old.items ≡ length plan.now.list }
    requires numbers { length numbers.now ≡ length plan.now.list }
    requires turned_long { length turned.now ≡ length plan.now.list }
    requires turned { (k : ℕ) → IsPlace plan.now k → turned_at turned.now k ≡ is_backward plan.now k }
    ensures long { length sides.new.items ≡ length plan.now.list }
    ensures taken { (face : ℕ)
        → IsSideTaken plan.now (slice_index numbers.now) arc role face (slice_index_or sides.old.items face None)
        (slice_index_or sides.new.items face None) }
{
    plan.keeps();
    if let Some(face) = plan.side(arc, role) {
        let key = FaceKey {
            arc: numbers[arc as usize],
            side: side_after(role, is_turned_in(plan, turned, arc)),
        };
        let least = &mut sides[face as usize];
        *least = Some(lesser_side(*least, key));
    }
}

/// The least side of each record, by place.
fn least_sides(
    alloc: Global,
    plan: &Plan,
    numbers: &[u32],
    turned: &[bool],
) -> Result<Vec<Option<FaceKey>>, AllocError>
    requires numbers { length numbers.now ≡ length plan.now.list }
    requires turned_long { length turned.now ≡ length plan.now.list }
    requires turned { (k : ℕ) → IsPlace plan.now k → turned_at turned.now k ≡ is_backward plan.now k }
    ensures length { IfOk result (λ sides. length sides.items ≡ length plan.now.list) }
    ensures least { IfOk result (λ sides. (k : ℕ) → IsPlace plan.now k
        → slice_index_or sides.items k None ≡ least_side (forward_plan plan.now) (slice_index numbers.now) k) }
{
    let mut sides = vec![in alloc; None; plan.len() as usize]?;
    plan.keeps();
    for arc in plan.places(Kind::Par) {
        take_side(&mut sides, plan, numbers, turned, *arc, Role::Left);
        take_side(&mut sides, plan, numbers, turned, *arc, Role::Right);
    }
    Ok(sides)
}

/// The sides of the faces, in file order.
fn sides_of_faces(
    alloc: Global,
    plan: &Plan,
    sides: &[Option<FaceKey>],
) -> Result<Vec<FaceKey>, AllocError>
    requires { length sides.now ≡ length plan.now.list }
    ensures { IfOk result (λ keys. keys.items
        ≡ map (λ k. unwrap_or (slice_index_or sides.now k None) no_side) (places_of Pfe plan.now)) }
{
    let places = plan.places(Kind::Pfe);
    let mut keys = Vec::with_capacity(alloc, places.len())?;
    for place in places {
        keys.push(sides[*place as usize].unwrap_or(NO_SIDE))?;
    }
    Ok(keys)
}

/// What stands for the side of a face without sides. A sound plan has none.
const NO_SIDE: FaceKey = FaceKey {
    arc: 0,
    side: Role::Plain,
};
