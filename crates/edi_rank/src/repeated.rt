//! Objects that are equal to an earlier one: rule 501.

ghost use Rattle.std.specs.Prelude.{◌≡◌, ◌+◌, length, slice_index, IfOk};
ghost use Rattle.edi_rank.specs.EqualObjects.{BreaksObjectRule};
ghost use Rattle.edi_rank.specs.Laws.{TellsApart};
ghost use Rattle.edi_topo.specs.Marks.{AreMarksOf};

use crate::labels::numbered_objects;
use crate::object_layer::ObjectLayer;
use edi_record::Kind;
use edi_topo::{Sound, marks_by_place, ties};
use std::alloc::{AllocError, Global};

/// Of each place, whether it has an object with the key of an earlier one.
fn tied_objects(
    alloc: Global,
    sound: &Sound,
    layer: &ObjectLayer<'_>,
) -> Result<Vec<bool>, AllocError>
    requires plan { layer.now.plan ≡ sound.now }
    requires apart { TellsApart sound.now (slice_index layer.now.numbers) }
    ensures { IfOk result (λ marks. AreMarksOf (length sound.now.list)
        (λ place. BreaksObjectRule sound.now 501 (place + 1)) marks.items) }
{
    let plan = sound.plan();
    let tied = ties(alloc, layer)?;
    marks_by_place(alloc, plan.places(Kind::Fea), &tied, plan.len())
}

/// Of each place of a sound plan, whether it has an object that is equal to an earlier one in class, attributes, extra
/// zones and pieces (501; docs/FORMAT.md, "The rules of a sheet").
pub fn repeated_objects(alloc: Global, sound: &Sound) -> Result<Vec<bool>, AllocError>
    ensures { IfOk result (λ marks. AreMarksOf (length sound.now.list)
        (λ place. BreaksObjectRule sound.now 501 (place + 1)) marks.items) }
{
    let layer = numbered_objects(alloc, sound)?;
    tied_objects(alloc, sound, &layer)
}
