ghost use Rattle.std.specs.Prelude.{◌≡◌};

use crate::role::Role;
use std::marker::Model;

/// What a schema says of a class.
#[derive(Clone, Copy, PartialEq, Eq)]
pub struct Class {
    pub role: Role,
    pub letter: u8,
    pub is_number: bool,
}

/// A class of one schema, by its place there.
#[derive(Clone, Copy, PartialEq, Eq, PartialOrd, Ord, Hash)]
pub struct ClassRef {
    place: u32,
}

impl Model for ClassRef {
    ghost use Rattle.std.specs.Prelude.{ℕ};

    ghost Value = { ℕ };

    ghost view = { λ c. c.place };

    ghost inverse = { λ n. record { place = n } };
}

impl ClassRef {
    /// The class at a place from 0, in the order of the names.
    pub(crate) fn at(place: u32) -> ClassRef
        ensures { result ≡ place }
    {
        ClassRef { place }
    }

    /// The place of the class from 0, in the order of the names.
    pub fn place(self) -> u32
        ensures { result ≡ self }
    {
        self.place
    }
}
