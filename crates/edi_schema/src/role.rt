//! The kinds of link.

ghost use Rattle.std.specs.Prelude.{◌≡◌};
ghost use Rattle.edi_schema.specs.Roles.{exchanged as exchanged_role};

/// The kinds of link that a class may have.
#[derive(Clone, Copy, PartialEq, Eq, PartialOrd, Ord)]
pub enum Role {
    /// To an arc's initial node.
    Initial,
    /// To an arc's final node.
    Final,
    /// To the face on the left of an arc.
    Left,
    /// To the face on the right of an arc.
    Right,
    /// None of the four.
    Plain,
}

impl Role {
    /// The kind that is exchanged with this one where an arc is reversed.
    pub fn opposite(self) -> Role
        ensures { result ≡ exchanged_role self }
    {
        match self {
            Role::Initial => Role::Final,
            Role::Final => Role::Initial,
            Role::Left => Role::Right,
            Role::Right => Role::Left,
            Role::Plain => Role::Plain,
        }
    }
}
