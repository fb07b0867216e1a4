//! What breaks rule 604: which of its cases, and of which classes.

ghost use Rattle.std.specs.Prelude.{◌≡◌, ◌↔◌, [], IsTrue, MatchOption};
ghost use Rattle.edi_line.specs.ZoneData.{entries};
ghost use Rattle.edi_line.specs.Zones.{groups_of};
ghost use Rattle.edi_schema.specs.SchemaRules.{BreaksKinds};
ghost use Rattle.edi_schema.specs.declared.role.Role.{Role as Roles};
ghost use Rattle.edi_explain.specs.KindClasses.{IsKindsCause, IsWrong, codes_of};
ghost use Rattle.edi_explain.specs.inner.KindClasses.{HoldsSemicolon, IsCauseOf, IsFirstOfCase};
ghost use Rattle.edi_explain.specs.declared.kind_causes.KindsCase.TheVariants.{Two as TwoClasses, Alone as AloneClass, Barred as BarredClass};

use crate::kind_classes::class_behind;
use crate::site::group_of;
use edi_line::Zone;
use edi_line::codes::RTY;
use edi_record::first_value;
use edi_schema::{ByRole, Role};

/// How a kind breaks rule 604.
#[derive(Clone, Copy)]
pub enum KindsCase {
    /// It has two classes.
    Two,
    /// It has a class, and its partner has none.
    Alone,
    /// No pointer can name its class, whose type holds a semicolon, and one can name its partner's.
    Barred,
}

/// What breaks rule 604, and the classes of which that is said.
#[derive(Clone, Copy)]
pub struct KindsCause {
    pub case: KindsCase,
    pub role: Role,
    /// The number of the record of the class, counted from 1.
    pub number: u64,
    /// The place of the record of an earlier class of the kind, counted from 0.
    pub earlier: Option<u64>,
}

/// The first two classes of a kind, if it has two.
fn two_of(codes: &ByRole<&[u8]>, zones: &[Zone<'_>], role: Role) -> Option<KindsCause>
    ensures { MatchOption result (¬ (IsWrong (groups_of (entries zones.now)) (codes_of codes.now) TwoClasses role))
        (IsCauseOf (groups_of (entries zones.now)) (codes_of codes.now) TwoClasses role) }
{
    let first = class_behind(codes, zones, role, 0)?;
    let number = class_behind(codes, zones, role, first)?;
    Some(KindsCause {
        case: KindsCase::Two,
        role,
        number,
        earlier: Some(first.saturating_sub(1)),
    })
}

/// The class of a kind whose partner has none, if it has one.
fn alone_of(codes: &ByRole<&[u8]>, zones: &[Zone<'_>], role: Role) -> Option<KindsCause>
    ensures { MatchOption result (¬ (IsWrong (groups_of (entries zones.now)) (codes_of codes.now) AloneClass role))
        (IsCauseOf (groups_of (entries zones.now)) (codes_of codes.now) AloneClass role) }
{
    let number = class_behind(codes, zones, role, 0)?;
    match class_behind(codes, zones, role.opposite(), 0) {
        Some(_) => None,
        None => Some(KindsCause {
            case: KindsCase::Alone,
            role,
            number,
            earlier: None,
        }),
    }
}

/// Whether the type of the record with a number holds a semicolon.
fn holds_semicolon(zones: &[Zone<'_>], number: u64) -> bool
    ensures { IsTrue result ↔ HoldsSemicolon (groups_of (entries zones.now)) number }
{
    let Some(group) = group_of(zones, number.saturating_sub(1)) else {
        return false;
    };
    match first_value(group, RTY) {
        Some(rty) => rty.contains(&b';'),
        None => false,
    }
}

/// The class of a kind that no pointer can name while one can name its partner's, if there is one. No kind has two.
fn barred_of(codes: &ByRole<&[u8]>, zones: &[Zone<'_>], role: Role) -> Option<KindsCause>
    requires { (r : Roles) → ¬ (IsWrong (groups_of (entries zones.now)) (codes_of codes.now) TwoClasses r) }
    ensures { MatchOption result (¬ (IsWrong (groups_of (entries zones.now)) (codes_of codes.now) BarredClass role))
        (IsCauseOf (groups_of (entries zones.now)) (codes_of codes.now) BarredClass role) }
{
    let number = class_behind(codes, zones, role, 0)?;
    let partner = class_behind(codes, zones, role.opposite(), 0)?;
    if holds_semicolon(zones, number) && !holds_semicolon(zones, partner) {
        Some(KindsCause {
            case: KindsCase::Barred,
            role,
            number,
            earlier: None,
        })
    } else {
        None
    }
}

/// The classes of a kind that break the rule in a case, if it has such.
fn cause_of(
    codes: &ByRole<&[u8]>,
    zones: &[Zone<'_>],
    case: KindsCase,
    role: Role,
) -> Option<KindsCause>
    requires { case ≡ BarredClass → (r : Roles)
        → ¬ (IsWrong (groups_of (entries zones.now)) (codes_of codes.now) TwoClasses r) }
    ensures { MatchOption result (¬ (IsWrong (groups_of (entries zones.now)) (codes_of codes.now) case role))
        (IsCauseOf (groups_of (entries zones.now)) (codes_of codes.now) case role) }
{
    match case {
        KindsCase::Two => two_of(codes, zones, role),
        KindsCase::Alone => alone_of(codes, zones, role),
        KindsCase::Barred => barred_of(codes, zones, role),
    }
}

/// The classes of the first kind that breaks the rule in a case.
fn first_of_case(codes: &ByRole<&[u8]>, zones: &[Zone<'_>], case: KindsCase) -> Option<KindsCause>
    requires { case ≡ BarredClass → (r : Roles)
        → ¬ (IsWrong (groups_of (entries zones.now)) (codes_of codes.now) TwoClasses r) }
    ensures { MatchOption result ((r : Roles) → ¬ (IsWrong (groups_of (entries zones.now)) (codes_of codes.now) case r))
        (IsFirstOfCase (groups_of (entries zones.now)) (codes_of codes.now) case) }
{
    if let Some(cause) = cause_of(codes, zones, case, Role::Initial) {
        return Some(cause);
    }
    if let Some(cause) = cause_of(codes, zones, case, Role::Final) {
        return Some(cause);
    }
    if let Some(cause) = cause_of(codes, zones, case, Role::Left) {
        return Some(cause);
    }
    cause_of(codes, zones, case, Role::Right)
}

/// What breaks rule 604 in the file of classes first, if something does: two classes of a kind before a class whose
/// partner is missing, and this before a class that no pointer can name; in each case the kinds go initial, final,
/// left, right.
pub fn kinds_cause(codes: &ByRole<&[u8]>, zones: &[Zone<'_>]) -> Option<KindsCause>
    ensures { MatchOption result (¬ (BreaksKinds (groups_of (entries zones.now)) [] (codes_of codes.now)))
        (IsKindsCause (groups_of (entries zones.now)) (codes_of codes.now)) }
{
    if let Some(cause) = first_of_case(codes, zones, KindsCase::Two) {
        return Some(cause);
    }
    if let Some(cause) = first_of_case(codes, zones, KindsCase::Alone) {
        return Some(cause);
    }
    first_of_case(codes, zones, KindsCase::Barred)
}
