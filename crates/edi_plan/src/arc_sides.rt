//! What an arc has by each kind of link, in little memory.

ghost use Rattle.std.specs.Prelude.{◌≡◌};
ghost use Rattle.edi_schema.specs.ByRole.{of_role, no_values, IsWith};

use edi_schema::{ByRole, Role};
use std::marker::Model;

/// The place of what an arc has by each kind of link, if it has something by it. It takes 20 bytes, where four optional
/// places take 32, and a plan has one for each record. Contracts see the optional places.
#[derive(Drop)]
pub(crate) struct ArcSides {
    places: ByRole<u32>,
    there: ByRole<bool>,
}

impl Model for ArcSides {
    ghost use Rattle.std.specs.Prelude.{ℕ, Option};
    ghost use Rattle.edi_schema.specs.declared.by_role.ByRole.{ByRole as Sides};
    ghost use Rattle.edi_plan.specs.inner.SideTable.{sides_there};

    ghost Value = { Sides (Option ℕ) };

    ghost view = { λ s. sides_there s.places s.there };
}

impl ArcSides {
    /// Nothing by any kind.
    pub(crate) fn none() -> ArcSides
        ensures { result ≡ no_values }
    {
        ArcSides {
            places: ByRole {
                initial: 0,
                final_node: 0,
                left: 0,
                right: 0,
            },
            there: ByRole {
                initial: false,
                final_node: false,
                left: false,
                right: false,
            },
        }
    }

    /// The place by a kind.
    pub(crate) fn of(&self, role: Role) -> Option<u32>
        ensures { result ≡ of_role self.now role }
    {
        let (there, place) = match role {
            Role::Initial => (self.there.initial, self.places.initial),
            Role::Final => (self.there.final_node, self.places.final_node),
            Role::Left => (self.there.left, self.places.left),
            Role::Right => (self.there.right, self.places.right),
            Role::Plain => (false, 0),
        };
        if there { Some(place) } else { None }
    }

    /// Puts this place by a kind.
    pub(crate) fn put(&mut self, role: Role, place: u32)
        ensures { IsWith self.old role place self.new }
    {
        match role {
            Role::Initial => {
                self.places.initial = place;
                self.there.initial = true;
            }
            Role::Final => {
                self.places.final_node = place;
                self.there.final_node = true;
            }
            Role::Left => {
                self.places.left = place;
                self.there.left = true;
            }
            Role::Right => {
                self.places.right = place;
                self.there.right = true;
            }
            Role::Plain => {}
        }
    }
}
