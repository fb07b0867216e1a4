//! Numbers of members by their keys.

ghost use Rattle.std.specs.Prelude.{◌≡◌, ◌≤◌, ℕ, length, slice_index};
ghost use Rattle.edi_record.specs.declared.record.Kind.TheVariants.{Pfe};
ghost use Rattle.edi_plan.specs.Places.{places_of};

use crate::case::Case;
use crate::refusals::push_sheet_fault;
use edi_compare::accept;
use edi_rank::{ArcLayer, FaceLayer, Layer, NodeLayer, ObjectLayer, Ranks, TieFault, ranks};
use edi_schema::Schema;
use edi_topo::Sound;
use std::alloc::{AllocError, Global};

/// Three members with known keys.
#[derive(Drop)]
struct Known {
    keys: [u64; 3],
}

impl Layer for Known {
    type Key = u64;

    ghost size = { λ _. 3 };

    ghost key_of = { λ k m. slice_index k.keys m };

    fn len(&self) -> u32 {
        3
    }

    fn key(&self, _alloc: Global, member: u32) -> Result<u64, AllocError> {
        Ok(self.keys[member as usize])
    }
}

/// The numbers of three members with these keys, or the least member that ties with an earlier one.
pub(crate) fn push_ranks(
    alloc: Global,
    case: &Case<'_>,
    text: &mut String,
) -> Result<(), AllocError> {
    let keys = [case.number(0), case.number(1), case.number(2)];
    push_layer(alloc, &Known { keys }, text)
}

// The numbers of the members of a layer, or its tie.
fn push_layer<L: Layer>(alloc: Global, layer: &L, text: &mut String) -> Result<(), AllocError> {
    let ranks = match ranks(alloc, layer) {
        // memory ran out, and may be there again for the same layer
        Err(TieFault::Memory(_)) => ranks(alloc, layer),
        answer => answer,
    };
    match ranks {
        Ok(ranks) => push_numbers(&ranks, layer.len(), text),
        Err(TieFault::Tie(member)) => writeln!(text, "member {member} ties"),
        Err(TieFault::Memory(fault)) => Err(fault),
    }
}

// The numbers of so many members.
fn push_numbers(ranks: &Ranks, count: u32, text: &mut String) -> Result<(), AllocError>
    requires { count ≤ length ranks.now }
{
    for member in 0..count {
        write!(text, " {}", ranks.number(member))?;
    }
    text.push_str("\n")
}

/// The numbers of the nodes, arcs, faces and objects of an accepted sheet, a line each.
pub(crate) fn push_layers(
    alloc: Global,
    schema: &Schema,
    case: &Case<'_>,
    text: &mut String,
) -> Result<(), AllocError> {
    match accept(alloc, schema, case.input(0).as_bytes()) {
        Ok(accepted) => push_layers_of(alloc, accepted.sound(), text),
        Err(fault) => push_sheet_fault(text, "", fault),
    }
}

fn push_layers_of(alloc: Global, sound: &Sound, text: &mut String) -> Result<(), AllocError> {
    push_layer(alloc, &NodeLayer::of(alloc, sound)?, text)?;
    push_layer(alloc, &ArcLayer::of(alloc, sound)?, text)?;
    let faces = FaceLayer::of(alloc, sound, sound.arc_ranks())?;
    push_layer(alloc, &faces, text)?;
    match ranks(alloc, &faces) {
        Ok(faces) => push_objects(alloc, sound, &faces, text),
        Err(TieFault::Tie(member)) => writeln!(text, "face {member} ties"),
        Err(TieFault::Memory(fault)) => Err(fault),
    }
}

fn push_objects(
    alloc: Global,
    sound: &Sound,
    faces: &Ranks,
    text: &mut String,
) -> Result<(), AllocError>
    requires { length faces.now ≡ length (places_of Pfe sound.now) }
{
    let objects = ObjectLayer::of(alloc, sound, sound.node_ranks(), sound.arc_ranks(), faces)?;
    push_layer(alloc, &objects, text)
}
