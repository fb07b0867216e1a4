//! What the records of the file of classes say of their classes: rule 603.

ghost use Rattle.std.specs.Prelude.{◌≡◌, ◌+◌, Some, map, option_map, IfOk, IfErr};
ghost use Rattle.edi_schema.specs.inner.Drafts.{title_name, definition_said, word_in, type_by, class_in, drafted};
ghost use Rattle.edi_schema.specs.Roles.{role_by};
ghost use Rattle.edi_schema.specs.SchemaOf.{letter_read, is_number_type};
ghost use Rattle.edi_schema.specs.inner.Steps.{IfEntry, IsFirstLacking};
ghost use Rattle.edi_schema.specs.declared.fault.Source.TheVariants.{Scd};

use crate::class::Class;
use crate::definition::Definition;
use crate::fault::{SchemaFault, Source};
use crate::kinds::Kinds;
use crate::title::Title;
use edi_hash::NameHash;
use edi_record::Pointer;
use indexmap::IndexSet;
use std::alloc::Global;

/// A class, with its name borrowed from its file.
#[derive(Clone, Copy)]
pub(crate) struct ClassDraft<'a> {
    pub(crate) title: Title<'a>,
    pub(crate) class: Class,
}

/// The letter of a TYP: its one letter A to Z, and else A.
fn letter(word_type: Option<&[u8]>) -> u8
    ensures { result ≡ letter_read (option_map (λ t. t.now) word_type.entry) }
{
    match word_type {
        Some([letter @ b'A'..=b'Z']) => *letter,
        _ => b'A',
    }
}

/// Whether a TYP is that of numbers.
fn is_number(word_type: Option<&[u8]>) -> bool
    ensures { result ≡ is_number_type (option_map (λ t. t.now) word_type.entry) }
{
    match word_type {
        Some(text) => text == b"N".as_slice() || text == b"R".as_slice(),
        None => false,
    }
}

/// The records of the dictionary and their names.
#[derive(Clone, Copy)]
pub(crate) struct Dictionary<'w, 'a> {
    pub(crate) titles: &'w IndexSet<Title<'a>, NameHash>,
    pub(crate) records: &'w [Definition<'a>],
}

/// The first TYP of the record that a pointer names.
fn type_named<'a>(words: Dictionary<'_, 'a>, text: &[u8]) -> Option<Option<&'a [u8]>>
    requires { map title_name words.titles.now.keys ≡ map (λ d. (definition_said d).name) words.records.now }
    ensures { option_map (option_map (λ t. t.now)) result
        ≡ option_map (λ word. word.word_type) (word_in (map definition_said words.entry.records.now) text.now) }
{
    let pointer = Pointer::read(text)?;
    let title = Title {
        rty: pointer.rty,
        rid: pointer.rid,
    };
    let place = words.titles.get_index_of(&title)?;
    Some(words.records.get(place)?.word_type)
}

/// The first TYP of the record that the DIP of this one names; there is none where it has no DIP.
fn type_of<'a>(words: Dictionary<'_, 'a>, definition: &Definition<'_>) -> Option<Option<&'a [u8]>>
    requires { map title_name words.titles.now.keys ≡ map (λ d. (definition_said d).name) words.records.now }
    ensures { option_map (option_map (λ t. t.now)) result
        ≡ type_by (map definition_said words.entry.records.now) (definition_said definition.now).word }
{
    match definition.word {
        Some(text) => type_named(words, text),
        None => Some(None),
    }
}

/// The class that a record states, where its DIP names a record of the dictionary.
fn draft_of<'a>(
    kinds: &Kinds<'_>,
    words: Dictionary<'_, '_>,
    definition: &Definition<'a>,
) -> Option<ClassDraft<'a>>
    requires { map title_name words.titles.now.keys ≡ map (λ d. (definition_said d).name) words.records.now }
    ensures { option_map drafted result ≡ class_in kinds.now (map definition_said words.entry.records.now) (definition_said definition.now) }
{
    let word_type = type_of(words, definition)?;
    Some(ClassDraft {
        title: definition.title,
        class: Class {
            role: kinds.role(definition.kind, definition.title.rid),
            letter: letter(word_type),
            is_number: is_number(word_type),
        },
    })
}

/// The class of each record in the order of the file, or rule 603.
pub(crate) fn drafts<'a>(
    alloc: Global,
    kinds: &Kinds<'_>,
    words: Dictionary<'_, '_>,
    records: &[Definition<'a>],
) -> Result<Vec<ClassDraft<'a>>, SchemaFault>
    requires { map title_name words.titles.now.keys ≡ map (λ d. (definition_said d).name) words.records.now }
    ensures drafts { IfOk result (λ drafts.
        map (class_in kinds.now (map definition_said words.entry.records.now)) (map definition_said records.now)
        ≡ map Some (map drafted drafts.items)) }
    ensures lacking { IfErr result (IfEntry (λ source rule at. (source ≡ Scd) × (rule ≡ 603)
        × IsFirstLacking (class_in kinds.now (map definition_said words.entry.records.now)) (map definition_said records.now) at)) }
{
    let mut drafts = Vec::new(alloc);
    for (place, definition) in records.iter().enumerate() {
        match draft_of(kinds, words, definition) {
            Some(draft) => drafts.push(draft)?,
            None => {
                return Err(SchemaFault::Entry {
                    file: Source::Scd,
                    rule: 603,
                    at: place as u64 + 1,
                });
            }
        }
    }
    Ok(drafts)
}
