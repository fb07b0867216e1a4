//! A hash for names that strangers choose.
//!
//! A table that finds names by a hash which anybody can compute is slow on names that somebody chose to fall into one
//! place of it. This program has no source of chance, so its key comes from the names themselves: it is a SHA-512
//! digest of all of them. Whoever changes a name changes the key, and the places of all other names with it, so names
//! can't be chosen for the key that they will have.
#![tactic(auto)]

ghost use Rattle.std.specs.Prelude.{◌≡◌, ◌++◌, ◌∷◌, [], List, ℕ};
ghost use Rattle.sha2.specs.Hashers.{Holds512};
ghost use Rattle.edi_hash.specs.Keys.{Holds, keyed_by, length_mark};

use sha2::{Digest, Sha512};
use std::hash::{BuildHasher, DefaultHasher, Hasher};
use std::marker::Model;

/// The names that a table is going to hold, of which its key is made.
#[derive(Drop)]
pub struct KeyNames {
    digest: Sha512,
}

impl KeyNames {
    /// No names.
    pub fn new() -> KeyNames
        ensures { Holds result [] }
    {
        KeyNames {
            digest: Sha512::new(),
        }
    }

    /// Adds a part of a name, as its type or its identifier.
    pub fn add(&mut self, part: &[u8])
        ensures { (parts : List (List ℕ)) → Holds self.old parts → Holds self.new (parts ++ part.now ∷ []) }
    {
        self.add_length(part.len());
        self.digest.update(part);
    }

    /// Adds the length of a part, so that the same bytes cut into other parts make another key.
    fn add_length(&mut self, length: usize)
        ensures { (m : List ℕ) → Holds512 self.old.digest m → Holds512 self.new.digest (m ++ length_mark length) }
    {
        if length < 255 {
            self.digest.update(&[length as u8]);
        } else {
            self.digest.update(&[255u8]);
            self.digest.update(&(length as u64).to_le_bytes());
        }
    }

    /// The hash under the digest of these names.
    pub fn hash(self) -> NameHash
        ensures { (parts : List (List ℕ)) → Holds self parts → result ≡ keyed_by parts }
    {
        let mut keyed = DefaultHasher::new();
        keyed.write(&self.digest.finalize());
        NameHash { keyed }
    }
}

/// SipHash-1-3 of the digest of all names, and then of one name.
#[derive(Clone, Copy)]
pub struct NameHash {
    keyed: DefaultHasher,
}

impl Model for NameHash {
    ghost use Rattle.std.specs.declared.hash.DefaultHasher.{DefaultHasher};

    ghost Value = { DefaultHasher };

    ghost view = { λ h. h.keyed };

    ghost inverse = { λ keyed. record { keyed = keyed } };
}

impl BuildHasher for NameHash {
    type Hasher = DefaultHasher;

    ghost build_hasher = { λ h. h };

    fn build_hasher(&self) -> DefaultHasher {
        self.keyed
    }
}

#[cfg(test)]
mod tests;
