//! Classes in the order of their names.

ghost use Rattle.std.specs.Prelude.{◌≡◌, map, flat_map, IfOk, IsPermutation};
ghost use Rattle.std.specs.List.{IsDistinct};
ghost use Rattle.std.specs.Map.{keys_of};
ghost use Rattle.edi_hash.specs.Keys.{keyed_by};
ghost use Rattle.edi_schema.specs.Classes.{is_name, name_cmp};
ghost use Rattle.edi_schema.specs.inner.Drafts.{drafted, name_parts};
ghost use Rattle.edi_schema.specs.Sorted.{AlwaysRises};

use crate::class::Class;
use crate::draft::ClassDraft;
use edi_hash::{KeyNames, NameHash};
use edi_line::Text;
use edi_record::Name;
use indexmap::IndexMap;
use std::alloc::{AllocError, Global};

/// Classes with distinct names, in the order of the names.
pub(crate) fn sorted_by_name<'a>(mut drafts: Vec<ClassDraft<'a>>) -> Vec<ClassDraft<'a>>
    requires { IsDistinct is_name (keys_of (map drafted drafts.items)) }
    ensures permutation { IsPermutation (map drafted drafts.entry.items) (map drafted result.items) }
    ensures rises { AlwaysRises name_cmp (keys_of (map drafted result.items)) }
{
    drafts.sort_unstable_by_key(|draft| draft.title);
    drafts
}

fn name(alloc: Global, draft: &ClassDraft<'_>) -> Result<Name, AllocError>
    ensures { IfOk result (λ name. name ≡ (drafted draft.now).0) }
{
    Ok(Name {
        rty: Text::from_slice(alloc, draft.title.rty)?,
        rid: Text::from_slice(alloc, draft.title.rid)?,
    })
}

/// The hash for the names of these classes.
fn hash_of(drafts: &[ClassDraft<'_>]) -> NameHash
    ensures { result ≡ keyed_by (flat_map (λ d. name_parts (drafted d).0) drafts.now) }
{
    let mut names = KeyNames::new();
    for draft in drafts {
        draft.title.add_to(&mut names);
    }
    names.hash()
}

/// The classes by their names, in the same order.
pub(crate) fn by_name(
    alloc: Global,
    drafts: &[ClassDraft<'_>],
) -> Result<IndexMap<Name, Class, NameHash>, AllocError>
    requires { AlwaysRises name_cmp (keys_of (map drafted drafts.now)) }
    ensures { IfOk result (λ classes. classes.entries ≡ map drafted drafts.now) }
{
    let mut classes = IndexMap::with_hasher(alloc, hash_of(drafts));
    for draft in drafts {
        classes.insert(name(alloc, draft)?, draft.class)?;
    }
    Ok(classes)
}
