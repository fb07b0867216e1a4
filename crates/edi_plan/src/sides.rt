//! The nodes and the faces of arcs, by the kinds of their links: rules 306 and 307.

ghost use Rattle.std.specs.Prelude.{◌≡◌, ◌<◌, ◌↔◌, ◌&&◌, None, Some, false, length, nat_eq, replicate, if◌then◌else◌, IsTrue, IfOk, IfErr, OnOk};
ghost use Rattle.edi_line.specs.inner.Refusal.{first_broken};
ghost use Rattle.edi_schema.specs.Roles.{is_plain};
ghost use Rattle.edi_plan.specs.Joined.{beside as beside_of};
ghost use Rattle.edi_plan.specs.inner.Resolving.{IsUnresolved};
ghost use Rattle.edi_schema.specs.ByRole.{no_values};
ghost use Rattle.edi_plan.specs.inner.SideTable.{side_at, join_in, join_of_two, link_join, link_tests, HaveEntries, IsNoted};

use crate::arc_sides::ArcSides;
use crate::fault::Unresolved;
use crate::targets::Target;
use edi_record::Kind;
use edi_schema::Role;
use std::alloc::{AllocError, Global};

/// The arc of a link, and the node or the face that it joins with it.
#[derive(Clone, Copy, PartialEq, Eq)]
pub(crate) struct Join {
    pub(crate) arc: u32,
    pub(crate) other: u32,
}

/// The table of so many records without links.
pub(crate) fn without_links(alloc: Global, len: usize) -> Result<Vec<ArcSides>, AllocError>
    ensures { IfOk result (λ table. table.items ≡ replicate len no_values) }
{
    let mut table = Vec::with_capacity(alloc, len)?;
    for _ in 0..len {
        table.push(ArcSides::none())?;
    }
    Ok(table)
}

/// What a link of one of the four kinds joins with an arc.
pub(crate) fn beside(role: Role) -> Option<Kind>
    ensures { result ≡ (if is_plain role then None else Some (beside_of role)) }
{
    match role {
        Role::Initial | Role::Final => Some(Kind::Pno),
        Role::Left | Role::Right => Some(Kind::Pfe),
        Role::Plain => None,
    }
}

fn join_both(kind: Kind, first: Target, second: Target) -> Option<Join>
    ensures { result ≡ join_of_two kind first second }
{
    if first.kind == Kind::Par && second.kind == kind {
        Some(Join {
            arc: first.place,
            other: second.place,
        })
    } else if second.kind == Kind::Par && first.kind == kind {
        Some(Join {
            arc: second.place,
            other: first.place,
        })
    } else {
        None
    }
}

/// The arc and the record of a kind that exactly two ends name, in either order.
pub(crate) fn join_of(kind: Kind, targets: &[Option<Target>]) -> Option<Join>
    ensures { result ≡ join_in kind targets.now }
{
    match targets {
        [Some(first), Some(second)] => join_both(kind, *first, *second),
        _ => None,
    }
}

/// Notes what the arc has by a role, if it has nothing by it.
fn note(sides: &mut [ArcSides], role: Role, join: Join) -> bool
    requires { join.arc < length sides.old }
    ensures is_new { IsTrue result ↔ (side_at sides.old join.arc role ≡ None) }
    ensures noted { IsTrue result → IsNoted sides.old role (Some join) sides.new }
{
    let arc = &mut sides[join.arc as usize];
    if arc.of(role).is_some() {
        return false;
    }
    arc.put(role, join.other);
    true
}

/// Notes what a link of a role joins, or the least of the rules 306 and 307 that it breaks.
pub(crate) fn note_link(
    sides: &mut [ArcSides],
    role: Role,
    targets: &[Option<Target>],
) -> Result<(), Unresolved>
    requires { HaveEntries sides.old targets.now }
    ensures noted { OnOk result (IsNoted sides.old role (link_join role targets.now) sides.new) }
    ensures sound { OnOk result (first_broken (link_tests sides.old role targets.now) ≡ None) }
    ensures least { IfErr result
        (IsUnresolved (λ rule. first_broken (link_tests sides.old role targets.now) ≡ Some rule)) }
{
    let Some(kind) = beside(role) else {
        return Ok(());
    };
    let Some(join) = join_of(kind, targets) else {
        return Err(Unresolved::Broken(306));
    };
    if note(sides, role, join) {
        Ok(())
    } else {
        Err(Unresolved::Broken(307))
    }
}
