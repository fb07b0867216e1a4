//! The names of files as they lie in a folder.
ghost use Rattle.std.specs.Prelude.{◌≡◌, IfOk, map, option_map, string_bytes};
ghost use Rattle.edi_deliveries.specs.Deliveries.{found_name, has_extension};
ghost use Rattle.edi_deliveries.specs.inner.Paths.{FindsFirst};

use edi_delivery::FileName;
use edi_delivery::file_name::lower_case;
use edi_hash::{KeyNames, NameHash};
use edi_line::Text;
use indexmap::IndexMap;
use std::alloc::{AllocError, Global};
use std::marker::Model;
use std::path::Path;

/// The names of what lies in a folder, with a table that finds them in upper and lower case. Contracts see the
/// names alone.
pub(crate) struct FolderNames<'a> {
    all: &'a [String],
    first: IndexMap<Text, &'a str, NameHash>,
}

impl Drop for FolderNames<'_> {
    fn drop(self) {
        let FolderNames { all: _, first: _ } = self;
    }
}

impl<'a> Model for FolderNames<'a> {
    ghost use Rattle.std.specs.Prelude.{List, ℕ, map, string_bytes};
    ghost use Rattle.edi_deliveries.specs.inner.Paths.{FindsFirst};

    ghost Value = { List (List ℕ) };

    ghost view = { λ n. map string_bytes n.all.now };

    ghost invariant = { λ n. FindsFirst (map string_bytes n.all.now) n.first };
}

impl<'a> FolderNames<'a> {
    /// These names.
    pub(crate) fn new(alloc: Global, names: &'a [String]) -> Result<FolderNames<'a>, AllocError>
        ensures { IfOk result (λ found. found ≡ map string_bytes names.now) }
    {
        let first = first_names(alloc, names)?;
        Ok(FolderNames { all: names, first })
    }

    /// All of them, in their order.
    pub(crate) fn all(&self) -> &'a [String]
        ensures { map string_bytes result.now ≡ self.now }
    {
        self.all
    }

    /// The hash for them, and for tables of some of them.
    pub(crate) fn hash(&self) -> NameHash {
        *self.first.hasher()
    }

    /// The name of a file as it lies among them: of those that are the same in upper and lower case the first.
    pub(crate) fn find(&self, alloc: Global, file: &FileName) -> Result<Option<&'a str>, AllocError>
        ensures { IfOk result (λ found. option_map (λ name. name.now) found ≡ found_name self.now file.now) }
    {
        let lower = lower_case(alloc, file.as_slice())?;
        match self.first.get(&lower) {
            Some(name) => Ok(Some(*name)),
            None => Ok(None),
        }
    }
}

// The hash for these names.
fn hash_of(names: &[String]) -> NameHash {
    let mut key = KeyNames::new();
    for name in names {
        key.add(name.as_bytes());
    }
    key.hash()
}

// Of names that are equal in lower case the first, by these.
fn first_names<'a>(
    alloc: Global,
    names: &'a [String],
) -> Result<IndexMap<Text, &'a str, NameHash>, AllocError>
    ensures { IfOk result (FindsFirst (map string_bytes names.now)) }
{
    let mut first = IndexMap::with_hasher(alloc, hash_of(names));
    for name in names {
        let lower = lower_case(alloc, name.as_bytes())?;
        if first.get(&lower).is_none() {
            first.insert(lower, name.as_str())?;
        }
    }
    Ok(first)
}

/// Whether a name has this extension, in upper or lower case.
pub(crate) fn has_extension(extension: &str, name: &str) -> bool
    ensures { result ≡ has_extension extension.now name.now }
{
    match Path::new(name).extension() {
        Some(own) => extension.eq_ignore_ascii_case(own),
        None => false,
    }
}
