ghost use Rattle.std.specs.Prelude.{◌≡◌, ◌↔◌, IsSome, IfSome, codes, option_map};
ghost use Rattle.edi_schema.specs.Roles.{AreKindCodes, role_coded, role_by};

use crate::by_role::ByRole;
use crate::role::Role;
use std::marker::Model;

/// The codes of the four kinds of link.
#[derive(Drop)]
pub struct Kinds<'a> {
    codes: ByRole<&'a [u8]>,
}

impl<'a> Model for Kinds<'a> {
    ghost use Rattle.edi_schema.specs.Roles.{KindCodes, AreKindCodes};

    ghost Value = { KindCodes };

    ghost view = { λ k. record {
      initial = k.codes.initial.now;
      final_node = k.codes.final_node.now;
      left = k.codes.left.now;
      right = k.codes.right.now;
    } };

    ghost invariant = { λ k. AreKindCodes (record {
      initial = k.codes.initial.now;
      final_node = k.codes.final_node.now;
      left = k.codes.left.now;
      right = k.codes.right.now;
    }) };
}

impl<'a> Kinds<'a> {
    /// IND, FND, LPO and RPO.
    pub fn usual() -> Kinds<'static>
        ensures { result
            ≡ record { initial = codes "IND"; final_node = codes "FND"; left = codes "LPO"; right = codes "RPO" } }
    {
        Kinds {
            codes: ByRole {
                initial: b"IND",
                final_node: b"FND",
                left: b"LPO",
                right: b"RPO",
            },
        }
    }

    /// The four codes, or none where one is empty or two are equal.
    pub fn new(
        initial: &'a [u8],
        final_node: &'a [u8],
        left: &'a [u8],
        right: &'a [u8],
    ) -> Option<Kinds<'a>>
        ensures good { IsSome result
            ↔ AreKindCodes
            (record { initial = initial.now; final_node = final_node.now; left = left.now; right = right.now }) }
        ensures codes { IfSome result (λ k. k
            ≡ record { initial = initial.now; final_node = final_node.now; left = left.now; right = right.now }) }
    {
        if initial.is_empty() || final_node.is_empty() || left.is_empty() || right.is_empty() {
            return None;
        }
        if initial == final_node || initial == left || initial == right {
            return None;
        }
        if final_node == left || final_node == right || left == right {
            return None;
        }
        Some(Kinds {
            codes: ByRole {
                initial,
                final_node,
                left,
                right,
            },
        })
    }

    /// The kind with a code.
    fn role_of_code(&self, code: &[u8]) -> Option<Role>
        ensures { result ≡ role_coded self.now code.now }
    {
        if code == self.codes.initial {
            Some(Role::Initial)
        } else if code == self.codes.final_node {
            Some(Role::Final)
        } else if code == self.codes.left {
            Some(Role::Left)
        } else if code == self.codes.right {
            Some(Role::Right)
        } else {
            None
        }
    }

    /// The kind whose code is this KND value, and else the kind whose code is the identifier.
    pub(crate) fn role(&self, code: Option<&[u8]>, identifier: &[u8]) -> Role
        ensures { result ≡ role_by self.now (option_map (λ t. t.now) code.entry) identifier.now }
    {
        if let Some(code) = code {
            if let Some(role) = self.role_of_code(code) {
                return role;
            }
        }
        match self.role_of_code(identifier) {
            Some(role) => role,
            None => Role::Plain,
        }
    }
}
