//! Members with the key of an earlier one.

ghost use Rattle.std.specs.Prelude.{◌<◌, ◌≤◌, ◌+◌, length, All, IfOk};
ghost use Rattle.edi_topo.specs.inner.Keyed.{FollowsItsKey};
ghost use Rattle.edi_topo.specs.Marks.{AreMarksOf};
ghost use Rattle.edi_topo.specs.Ranking.{Ties};

use crate::layer::Layer;
use crate::ranking::{is_repeat, member_at, members_by_key};
use std::alloc::{AllocError, Global};

/// Marks the member at a place, if it follows one with its key.
fn mark_repeat<K: Ord>(marks: &mut Vec<bool>, pairs: &[(K, u32)], i: usize)
    requires low { 1 ≤ i }
    requires here { i < length pairs.now }
    requires within { All (λ pair. pair.1 < length pairs.now) pairs.now }
    requires before { AreMarksOf (length pairs.now) (FollowsItsKey K.cmp pairs.now i) marks.old.items }
    ensures { AreMarksOf (length pairs.now) (FollowsItsKey K.cmp pairs.now (i + 1)) marks.new.items }
{
    if is_repeat(pairs, i) {
        marks[member_at(pairs, i) as usize] = true;
    }
}

/// Of each member, whether it follows one with its key.
fn repeats<K: Ord>(alloc: Global, pairs: &[(K, u32)]) -> Result<Vec<bool>, AllocError>
    requires { All (λ pair. pair.1 < length pairs.now) pairs.now }
    ensures { IfOk result (λ marks.
        AreMarksOf (length pairs.now) (FollowsItsKey K.cmp pairs.now (length pairs.now)) marks.items) }
{
    let mut marks = vec![in alloc; false; pairs.len()]?;
    for i in 1..pairs.len() {
        mark_repeat(&mut marks, pairs, i);
    }
    Ok(marks)
}

/// Of each member, whether it has the key of an earlier one.
pub fn ties<L: Layer>(alloc: Global, layer: &L) -> Result<Vec<bool>, AllocError>
    ensures { IfOk result (λ marks. AreMarksOf (L.size layer.now)
        (Ties L.Key.cmp (L.key_of layer.now) (L.size layer.now)) marks.items) }
{
    let pairs = members_by_key(alloc, layer)?;
    repeats(alloc, &pairs)
}
