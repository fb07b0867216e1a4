//! The digests that a text states, in either form.

ghost use Rattle.std.specs.Prelude.{◌≡◌, ◌++◌, IfOk, MatchOption, map};
ghost use Rattle.edi_manifest.specs.ManifestText.{digested_text};
ghost use Rattle.edi_changes.specs.Stated.{StatesDigests, StatesNoDigests, digested_by, list_entry, manifest_entry};

use crate::entry::Entry;
use crate::list::ListLine;
use crate::reading::read_list;
use edi_line::Text;
use edi_manifest::{Digested, ManifestLine, read_manifest};
use std::alloc::{AllocError, Global};

/// The digests that a text states, as a manifest or as a list, or none where it is neither.
pub fn read_digests(alloc: Global, text: &[u8]) -> Result<Option<Vec<Entry>>, AllocError>
    ensures { IfOk result (λ found.
        MatchOption found (StatesNoDigests text.now) (λ entries. StatesDigests text.now entries.items)) }
{
    if let Some(lines) = read_manifest(alloc, text)? {
        return Ok(Some(manifest_entries(alloc, &lines)?));
    }
    match read_list(alloc, text)? {
        Some(lines) => Ok(Some(list_entries(alloc, &lines)?)),
        None => Ok(None),
    }
}

/// The digests of the lines of a manifest.
pub fn manifest_entries(alloc: Global, lines: &[ManifestLine]) -> Result<Vec<Entry>, AllocError>
    ensures { IfOk result (λ entries. entries.items ≡ map manifest_entry lines.now) }
{
    let mut entries = Vec::with_capacity(alloc, lines.len())?;
    for line in lines {
        entries.push(Entry {
            subject: subject_of(alloc, line.digested, line.name.as_slice())?,
            digest: line.digest,
        })?;
    }
    Ok(entries)
}

// The digests of the lines of a list.
fn list_entries(alloc: Global, lines: &[ListLine]) -> Result<Vec<Entry>, AllocError>
    ensures { IfOk result (λ entries. entries.items ≡ map list_entry lines.now) }
{
    let mut entries = Vec::with_capacity(alloc, lines.len())?;
    for line in lines {
        entries.push(Entry {
            subject: subject_of(alloc, digested_by(line.is_schema), line.name.as_slice())?,
            digest: line.digest,
        })?;
    }
    Ok(entries)
}

// What a line of a list has the digest of.
fn digested_by(is_schema: bool) -> Digested
    ensures { result ≡ digested_by is_schema }
{
    if is_schema {
        Digested::Schema
    } else {
        Digested::Sheet
    }
}

// The word of what a digest is of, and a name.
fn subject_of(alloc: Global, digested: Digested, name: &[u8]) -> Result<Text, AllocError>
    ensures { IfOk result (λ subject. subject ≡ digested_text digested ++ name.now) }
{
    let mut subject = Vec::from_slice(alloc, digested.text())?;
    subject.extend_from_slice(name)?;
    Text::from_slice(alloc, &subject)
}
