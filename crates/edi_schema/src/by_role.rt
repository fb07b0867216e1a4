//! A value for each of the four kinds of link.

ghost use Rattle.std.specs.Prelude.{◌≡◌};
ghost use Rattle.edi_schema.specs.ByRole.{of_role, no_values, IsWith};

use crate::role::Role;

/// A value for each of the four kinds of link.
#[derive(Clone, Copy, PartialEq, Eq)]
pub struct ByRole<T> {
    pub initial: T,
    pub final_node: T,
    pub left: T,
    pub right: T,
}

impl ByRole<Option<u32>> {
    /// No place for any kind.
    pub fn none() -> ByRole<Option<u32>>
        ensures { result ≡ no_values }
    {
        ByRole {
            initial: None,
            final_node: None,
            left: None,
            right: None,
        }
    }

    /// The place for a kind.
    pub fn of(&self, role: Role) -> Option<u32>
        ensures { result ≡ of_role self.now role }
    {
        match role {
            Role::Initial => self.initial,
            Role::Final => self.final_node,
            Role::Left => self.left,
            Role::Right => self.right,
            Role::Plain => None,
        }
    }

    /// The same, with this place for a kind.
    pub fn with(self, role: Role, place: u32) -> ByRole<Option<u32>>
        ensures { IsWith self role place result }
    {
        let place = Some(place);
        match role {
            Role::Initial => ByRole {
                initial: place,
                ..self
            },
            Role::Final => ByRole {
                final_node: place,
                ..self
            },
            Role::Left => ByRole {
                left: place,
                ..self
            },
            Role::Right => ByRole {
                right: place,
                ..self
            },
            Role::Plain => self,
        }
    }
}
