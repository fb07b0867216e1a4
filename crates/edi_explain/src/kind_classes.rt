//! The classes of the four kinds of links in the file of a schema.

ghost use Rattle.std.specs.Prelude.{◌≡◌, ◌↔◌, IsTrue, option_map};
ghost use Rattle.edi_line.specs.ZoneData.{entries};
ghost use Rattle.edi_line.specs.Zones.{groups_of};
ghost use Rattle.edi_schema.specs.Roles.{role_by, role_coded};
ghost use Rattle.edi_explain.specs.KindClasses.{IsClassBehind, codes_of};
ghost use Rattle.edi_plan.specs.EarlierLinks.{IsLeastIfAny};
ghost use Rattle.edi_explain.specs.inner.KindClasses.{StatesClassOf};

use edi_line::Zone;
use edi_line::codes::{RID, RTY};
use edi_record::{first_value, group_here};
use edi_schema::{ByRole, Role};

const KND: [u8; 3] = *b"KND";

/// The kind with a code.
fn role_with_code(codes: &ByRole<&[u8]>, code: &[u8]) -> Option<Role>
    ensures { result ≡ role_coded (codes_of codes.now) code.now }
{
    if code == codes.initial {
        Some(Role::Initial)
    } else if code == codes.final_node {
        Some(Role::Final)
    } else if code == codes.left {
        Some(Role::Left)
    } else if code == codes.right {
        Some(Role::Right)
    } else {
        None
    }
}

/// The kind whose code is this KND value, and else the kind whose code is the identifier.
fn role_of(codes: &ByRole<&[u8]>, code: Option<&[u8]>, identifier: &[u8]) -> Role
    ensures { result ≡ role_by (codes_of codes.now) (option_map (λ t. t.now) code.entry) identifier.now }
{
    if let Some(code) = code {
        if let Some(role) = role_with_code(codes, code) {
            return role;
        }
    }
    match role_with_code(codes, identifier) {
        Some(role) => role,
        None => Role::Plain,
    }
}

/// Whether the zones of a record state a class of a kind, which is one of the four.
fn states_class(codes: &ByRole<&[u8]>, group: &[Zone<'_>], role: Role) -> bool
    ensures { IsTrue result ↔ StatesClassOf (codes_of codes.now) (entries group.now) role }
{
    let Some(_) = first_value(group, RTY) else {
        return false;
    };
    let Some(identifier) = first_value(group, RID) else {
        return false;
    };
    role != Role::Plain && role_of(codes, first_value(group, KND), identifier) == role
}

/// The number of the first record behind one of a number that states a class of a kind. Numbers are counted from 1, in
/// file order.
pub(crate) fn class_behind(
    codes: &ByRole<&[u8]>,
    zones: &[Zone<'_>],
    role: Role,
    behind: u64,
) -> Option<u64>
    ensures { IsLeastIfAny (IsClassBehind (groups_of (entries zones.now)) (codes_of codes.now) role behind) result }
{
    let mut number = 0;
    let mut rest = zones;
    while let [_, after @ ..] = rest {
        if let Some(group) = group_here(rest) {
            number += 1;
            if number > behind && states_class(codes, group, role) {
                return Some(number);
            }
        }
        rest = after;
    }
    None
}
