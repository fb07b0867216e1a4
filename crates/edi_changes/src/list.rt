//! The lines of a list of digests.

ghost use Rattle.std.specs.Prelude.{◌≡◌, IfOk};
ghost use Rattle.edi_changes.specs.ListText.{list_line, list_text, schema_word};

use edi_answers::hashes::line_of_digest;
use edi_line::Text;
use std::alloc::{AllocError, Global};

/// A digest, and the name of its file.
pub struct ListLine {
    /// Whether it is that of a schema, and not of a sheet.
    pub is_schema: bool,
    pub name: Text,
    pub digest: [u8; 32],
}

impl Drop for ListLine {
    fn drop(self) {
        let ListLine {
            is_schema: _,
            name: _,
            digest: _,
        } = self;
    }
}

/// The word before the digest of a schema, or nothing.
pub(crate) fn schema_word(is_schema: bool) -> &'static [u8]
    ensures { result.now ≡ schema_word is_schema }
{
    if is_schema { b"schema " } else { b"" }
}

// The line as it is written.
fn text_of(alloc: Global, line: &ListLine) -> Result<Vec<u8>, AllocError>
    ensures { IfOk result (λ text. text.items ≡ list_line line.now) }
{
    let mut text = Vec::from_slice(alloc, schema_word(line.is_schema))?;
    text.extend_from_slice(&line_of_digest(alloc, line.digest.as_slice(), line.name.as_slice())?)?;
    Ok(text)
}

/// The text of a list with these lines.
pub fn list(alloc: Global, lines: &[ListLine]) -> Result<Vec<u8>, AllocError>
    ensures { IfOk result (λ text. text.items ≡ list_text lines.now) }
{
    let mut text = Vec::new(alloc);
    for line in lines {
        text.extend_from_slice(&text_of(alloc, line)?)?;
    }
    Ok(text)
}
