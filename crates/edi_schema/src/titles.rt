//! The names of the records of a file: rules 601 and 602.

ghost use Rattle.std.specs.Prelude.{◌≡◌, ℕ, ◌+◌, Some, None, map, flat_map, position, IfOk, OnOk, IfErr};
ghost use Rattle.std.specs.List.{IsDistinct};
ghost use Rattle.edi_hash.specs.Keys.{keyed_by};
ghost use Rattle.edi_schema.specs.Classes.{is_name};
ghost use Rattle.edi_schema.specs.inner.Drafts.{title_name, definition_said, name_parts};
ghost use Rattle.edi_schema.specs.inner.Steps.{IfEntry, IsFirstRepeat};

use crate::definition::Definition;
use crate::fault::{SchemaFault, Source};
use crate::title::Title;
use edi_hash::{KeyNames, NameHash};
use indexmap::IndexSet;
use std::alloc::Global;

fn first_unidentified(records: &[Definition<'_>]) -> Option<usize>
    ensures { result ≡ position (λ d. d.lacks_identifier) records.now }
{
    records.iter().position(|record| record.lacks_identifier)
}

/// Each record of a file has exactly one identifier in form: 1 to 255 bytes without a semicolon.
pub(crate) fn check_identifiers(file: Source, records: &[Definition<'_>]) -> Result<(), SchemaFault>
    ensures ok { OnOk result (position (λ d. d.lacks_identifier) records.now ≡ None) }
    ensures lacks { IfErr result (IfEntry (λ source rule at. (source ≡ file) × (rule ≡ 601)
        × ((place : ℕ) × (at ≡ place + 1) × (position (λ d. d.lacks_identifier) records.now ≡ Some place)))) }
{
    match first_unidentified(records) {
        Some(place) => Err(SchemaFault::Entry {
            file,
            rule: 601,
            at: place as u64 + 1,
        }),
        None => Ok(()),
    }
}

/// The hash for the names of these records.
fn hash_of(records: &[Definition<'_>]) -> NameHash
    ensures { result ≡ keyed_by (flat_map (λ d. name_parts (definition_said d).name) records.now) }
{
    let mut names = KeyNames::new();
    for record in records {
        record.title.add_to(&mut names);
    }
    names.hash()
}

/// The names of the records of a file, where no two are the same.
pub(crate) fn titles<'a>(
    alloc: Global,
    file: Source,
    records: &[Definition<'a>],
) -> Result<IndexSet<Title<'a>, NameHash>, SchemaFault>
    ensures titles { IfOk result (λ titles. map title_name titles.keys ≡ map (λ d. (definition_said d).name) records.now) }
    ensures distinct { IfOk result (λ titles. IsDistinct is_name (map (λ d. (definition_said d).name) records.now)) }
    ensures repeat { IfErr result (IfEntry (λ source rule at.
        (source ≡ file) × (rule ≡ 602) × IsFirstRepeat (map (λ d. (definition_said d).name) records.now) at)) }
{
    let mut titles = IndexSet::with_hasher(alloc, hash_of(records));
    for (place, record) in records.iter().enumerate() {
        if !titles.insert(record.title)? {
            return Err(SchemaFault::Entry {
                file,
                rule: 602,
                at: place as u64 + 1,
            });
        }
    }
    Ok(titles)
}
