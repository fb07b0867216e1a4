//! The classes of the four kinds: rule 604.

ghost use Rattle.std.specs.Prelude.{◌≡◌, ◌<◌, ◌≤◌, ◌^◌, true, false, map, length, MatchOption};
ghost use Rattle.std.specs.Bool.{MatchBool};
ghost use Rattle.std.specs.List.{list_any};
ghost use Rattle.edi_schema.specs.Classes.{is_pointable as pointable};
ghost use Rattle.edi_schema.specs.inner.Drafts.{drafted};
ghost use Rattle.edi_schema.specs.inner.Places.{are_equal as equal_places, are_paired, ArePlaces, ArePointable, AreUnpaired, AreUnpointable};
ghost use Rattle.edi_schema.specs.declared.role.Role.{Role};

use crate::by_role::ByRole;
use crate::draft::ClassDraft;
use crate::role::Role;

/// Whether there are both places or none.
fn are_equal(one: Option<u32>, other: Option<u32>) -> bool
    ensures { result ≡ equal_places one other }
{
    match (one, other) {
        (Some(_), Some(_)) => true,
        (None, None) => true,
        _ => false,
    }
}

/// Whether a class has a role, and a type without a semicolon.
fn is_pointable(class: &ClassDraft<'_>, role: Role) -> bool
    ensures { result ≡ pointable role (drafted class.now) }
{
    class.class.role == role && !class.title.rty.contains(&b';')
}

/// Whether a pointer can name a class of a role.
fn is_named(classes: &[ClassDraft<'_>], role: Role) -> bool
    ensures { result ≡ list_any (pointable role) (map drafted classes.now) }
{
    classes.iter().any(|class| is_pointable(class, role))
}

/// Whether, of each kind, a pointer can name a class if one can name a class of its partner's kind.
pub(crate) fn are_pointable(classes: &[ClassDraft<'_>]) -> bool
    ensures { MatchBool result (ArePointable (map drafted classes.now)) (AreUnpointable (map drafted classes.now)) }
{
    is_named(classes, Role::Initial) == is_named(classes, Role::Final)
        && is_named(classes, Role::Left) == is_named(classes, Role::Right)
}

/// Whether each kind has a place if the kind that it is exchanged with has.
fn is_paired(places: &ByRole<Option<u32>>) -> bool
    ensures { result ≡ are_paired places.now }
{
    are_equal(places.initial, places.final_node) && are_equal(places.left, places.right)
}

/// The places of the classes of the four kinds, where no kind has two
/// and each has one if the kind that it is exchanged with has.
pub(crate) fn kind_places(classes: &[ClassDraft<'_>]) -> Option<ByRole<Option<u32>>>
    requires { length classes.now < 2 ^ 32 }
    ensures { MatchOption result (AreUnpaired (map drafted classes.now)) (ArePlaces (map drafted classes.now)) }
{
    let mut places = ByRole::none();
    for (place, draft) in classes.iter().enumerate() {
        let role = draft.class.role;
        if places.of(role).is_some() {
            return None;
        }
        places = places.with(role, place as u32);
    }
    if is_paired(&places) {
        Some(places)
    } else {
        None
    }
}
