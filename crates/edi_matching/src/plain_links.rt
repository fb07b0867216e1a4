//! Links with two ends and nothing else, by the places where these go.

ghost use Rattle.std.specs.Prelude.{◌≡◌, length, IfOk, IsPermutation, IsSorted};
ghost use Rattle.edi_record.specs.declared.record.Kind.TheVariants.{Lnk};
ghost use Rattle.edi_plan.specs.Agreeing.{HasClasses};
ghost use Rattle.edi_plan.specs.Places.{places_of};
ghost use Rattle.edi_plan.specs.Plans.{record_at};
ghost use Rattle.edi_matching.specs.inner.Entries.{keyed_places};
ghost use Rattle.edi_matching.specs.inner.PlainLinks.{plain_link};

use crate::added::target_of;
use edi_plan::Plan;
use edi_rank::{class_after_reversals, plain_ends};
use edi_record::Kind;
use edi_schema::{ClassRef, Schema};
use std::alloc::{AllocError, Global};

/// A plain link by its class after the reversals, and the places where its origin and its other end go. Their types are
/// those of the records there.
#[derive(Clone, Copy, PartialEq, Eq, PartialOrd, Ord)]
pub(crate) struct PlainLink {
    class: ClassRef,
    origin: u32,
    other: u32,
}

/// The plain links whose ends are both matched, in the order of their keys.
pub(crate) fn plain_links(
    alloc: Global,
    schema: &Schema,
    plan: &Plan,
    to: &[Option<u32>],
    turned: &[bool],
) -> Result<Vec<(PlainLink, u32)>, AllocError>
    requires classes { HasClasses schema.now plan.now }
    requires long { length turned.now ≡ length plan.now.list }
    ensures links { IfOk result (λ links. IsPermutation (keyed_places
        (λ k. plain_link schema.now to.now turned.now (record_at plan.now k)) (places_of Lnk plan.now)) links.items) }
    ensures sorted { IfOk result (λ links. IsSorted ⟦<(PlainLink, u32) as Ord>⟧.cmp links.items) }
{
    let places = plan.places(Kind::Lnk);
    let mut links = Vec::with_capacity(alloc, places.len())?;
    for place in places {
        if let Some(link) = plain_link(schema, plan, to, turned, *place) {
            links.push((link, *place))?;
        }
    }
    links.sort_unstable();
    Ok(links)
}

/// The key of a record, if it is a plain link whose ends are both matched.
fn plain_link(
    schema: &Schema,
    plan: &Plan,
    to: &[Option<u32>],
    turned: &[bool],
    place: u32,
) -> Option<PlainLink>
    requires classes { HasClasses schema.now plan.now }
    requires long { length turned.now ≡ length plan.now.list }
    ensures { result ≡ plain_link schema.now to.now turned.now (record_at plan.now place) }
{
    if place >= plan.len() {
        return None;
    }
    let (origin, other) = plain_ends(plan, place)?;
    Some(PlainLink {
        class: class_after_reversals(schema, plan, turned, place),
        origin: target_of(to, origin.target)?,
        other: target_of(to, other.target)?,
    })
}
