//! The places of names.

ghost use Rattle.std.specs.Prelude.{◌≡◌, ◌++◌, ◌∷◌, [], map, IfOk};
ghost use Rattle.std.specs.Cmp.Rules.{hashing};
ghost use Rattle.std.proofs.Common.{rules};
ghost use Rattle.edi_hash.specs.Keys.{keyed_by};
ghost use Rattle.edi_record.specs.contracts.record.KindHash.TheImpl.{ghosts as kinds};
ghost use Rattle.edi_pairing.specs.Names.{AreNames};
ghost use Rattle.edi_pairing.specs.inner.Places.{owned_name, IsPlaceIfAny};

use crate::names::{RecordName, RecordNames};
use edi_hash::{KeyNames, NameHash};
use edi_record::Kind;
use indexmap::IndexSet;
use std::alloc::{AllocError, Global};
use std::hash::{Hash, Hasher};
use std::marker::Model;

/// A type and an identifier, borrowed.
#[derive(Clone, Copy, PartialEq, Eq)]
pub(crate) struct BorrowedName<'a> {
    pub(crate) kind: Kind,
    pub(crate) rid: &'a [u8],
}

impl<'a> Hash for BorrowedName<'a> {
    ghost hash_input = { λ n. kinds.hash_input n.kind ++ (n.rid.now ∷ []) };

    ghost respects_eq = { Prim.search (hashing, rules) };

    fn hash<H: Hasher>(&self, state: &mut H) {
        self.kind.hash(state);
        state.write(self.rid);
    }
}

/// The places of the records of a sheet by their names.
#[derive(Drop)]
pub(crate) struct PlacesByName<'a> {
    names: IndexSet<BorrowedName<'a>, NameHash>,
}

impl<'a> Model for PlacesByName<'a> {
    ghost use Rattle.std.specs.Prelude.{List, map};
    ghost use Rattle.edi_pairing.specs.Names.{AreNames};
    ghost use Rattle.edi_pairing.specs.inner.Places.{owned_name};
    ghost use Rattle.edi_pairing.specs.declared.names.RecordName.{RecordName};

    ghost Value = { List RecordName };

    ghost view = { λ p. map owned_name p.names.keys };

    ghost invariant = { λ p. AreNames (map owned_name p.names.keys) };
}

/// The hash for these names, under a key made of their identifiers. Their types are left out: one identifier makes five
/// names at most, too few to choose among.
fn hash_of(names: &[RecordName]) -> NameHash
    ensures { result ≡ keyed_by (map (λ n. n.rid) names.now) }
{
    let mut parts = KeyNames::new();
    for name in names {
        parts.add(name.rid.as_slice());
    }
    parts.hash()
}

fn borrow_name(name: &RecordName) -> BorrowedName<'_>
    ensures { owned_name result ≡ name.now }
{
    BorrowedName {
        kind: name.kind,
        rid: name.rid.as_slice(),
    }
}

impl<'a> PlacesByName<'a> {
    /// The places of these names, from 0.
    pub(crate) fn among(
        alloc: Global,
        names: &'a RecordNames,
    ) -> Result<PlacesByName<'a>, AllocError>
        ensures { IfOk result (λ places. places ≡ names.now) }
    {
        let list = names.as_slice();
        let mut set = IndexSet::with_capacity_and_hasher(alloc, list.len(), hash_of(list))?;
        for name in list {
            set.insert(borrow_name(name))?;
        }
        Ok(PlacesByName { names: set })
    }

    /// The place of the record of a type with an identifier.
    pub(crate) fn find(&self, kind: Kind, rid: &[u8]) -> Option<u32>
        ensures names { AreNames self.now }
        ensures place { IsPlaceIfAny self.now (record { kind = kind; rid = rid.now }) result }
    {
        let name = BorrowedName { kind, rid };
        match self.names.get_index_of(&name) {
            Some(place) => Some(place as u32),
            None => None,
        }
    }
}
