//! What two sheets have in common.

ghost use Rattle.std.specs.Prelude.{◌≡◌, IfOk, Some, map};
ghost use Rattle.edi_schema.specs.Classes.{Classes};
ghost use Rattle.edi_compare.specs.Laws.{IsAcceptedPlan};
ghost use Rattle.edi_matching.specs.Differences.{IsTotalIfSame, MatchesFaces, MatchesLinks, MatchesPartners};
ghost use Rattle.edi_matching.specs.Laws.{matching_of};
ghost use Rattle.edi_matching.specs.Matchings.{MatchingHolds};

use crate::faces::with_all_faces;
use crate::growing::grow;
use crate::links::with_all_links;
use crate::matching::Matching;
use crate::partners::Partners;
use crate::same::same_pairing;
use edi_compare::{Accepted, Pairing};
use edi_line::Sequence;
use edi_schema::Schema;
use edi_topo::Sound;
use std::alloc::{AllocError, Global};

/// A matching of two sheets that were accepted under this schema. It leaves nothing out and the character sets are the
/// same exactly if the plans are the same. Whatever the rest, it leaves out no node and no arc that has a partner, no
/// face of a matched arc together with that on the same side of the arc it goes to, if the one is carried onto the
/// other, and no link whose ends are matched together with one that it is carried onto. Which other faces and which
/// objects it matches of sheets that differ is not promised: objects that a link of one class joins to one matched
/// record, or that alone hold what they do, each if it holds the same. It fails only if memory runs out.
pub fn differences(
    alloc: Global,
    schema: &Schema,
    first: &Accepted,
    second: &Accepted,
) -> Result<Matching, AllocError>
    requires first { IsAcceptedPlan schema.now first.now }
    requires second { IsAcceptedPlan schema.now second.now }
    ensures holds { IfOk result (MatchingHolds schema.now first.now second.now) }
    ensures total { IfOk result (IsTotalIfSame schema.now first.now second.now) }
    ensures partners { IfOk result (MatchesPartners first.now second.now) }
    ensures faces { IfOk result (MatchesFaces schema.now first.now second.now) }
    ensures links { IfOk result (MatchesLinks schema.now first.now second.now) }
{
    first.sound().plan().keeps();
    match same_pairing(alloc, schema, first, second)? {
        Some(pairing) => whole_matching(alloc, pairing),
        None => different_matching(alloc, schema, first, second),
    }
}

/// A matching of two sheets that differ.
fn different_matching(
    alloc: Global,
    schema: &Schema,
    first: &Accepted,
    second: &Accepted,
) -> Result<Matching, AllocError>
    requires first { IsAcceptedPlan schema.now first.now }
    requires second { IsAcceptedPlan schema.now second.now }
    ensures holds { IfOk result (MatchingHolds schema.now first.now second.now) }
    ensures partners { IfOk result (MatchesPartners first.now second.now) }
    ensures faces { IfOk result (MatchesFaces schema.now first.now second.now) }
    ensures links { IfOk result (MatchesLinks schema.now first.now second.now) }
{
    schema.keeps();
    let matching = matching_by_keys(alloc, first.sound(), second.sound())?;
    let more = grow(alloc, schema, first, second, matching)?;
    first.sound().plan().keeps();
    let faces = with_all_faces(alloc, schema, first, second, more)?;
    with_all_links(alloc, schema, first, second, faces)
}

/// The matching that a pairing is.
fn whole_matching(alloc: Global, pairing: Pairing) -> Result<Matching, AllocError>
    ensures { IfOk result (λ m. m ≡ matching_of pairing) }
{
    let to = all_matched(alloc, pairing.to.as_slice())?;
    Ok(Matching {
        to: Sequence::from_vec(to),
        turned: pairing.turned,
    })
}

fn all_matched(alloc: Global, places: &[u32]) -> Result<Vec<Option<u32>>, AllocError>
    ensures { IfOk result (λ to. to.items ≡ map Some places.now) }
{
    places.iter().map(|place| Some(*place)).collect(alloc)
}

/// The matching of nodes and arcs with their partners.
fn matching_by_keys(alloc: Global, first: &Sound, second: &Sound) -> Result<Matching, AllocError>
    ensures holds { (s : Classes) → IfOk result (MatchingHolds s first.now second.now) }
    ensures partners { IfOk result (MatchesPartners first.now second.now) }
{
    let partners = Partners::of(alloc, first, second)?;
    partners.matching(alloc)
}
