//! The lines of a manifest.

ghost use Rattle.std.specs.Prelude.{◌≡◌, IfOk};
ghost use Rattle.edi_manifest.specs.ManifestText.{digested_text, manifest_line};

use edi_delivery::FileName;
use edi_line::Text;
use std::alloc::{AllocError, Global};

/// What a digest is of.
#[derive(Clone, Copy)]
pub enum Digested {
    /// A schema, by the name of its file of classes.
    Schema,
    /// A sheet, by the name of its file.
    Sheet,
    /// A coordinate system, by the name of its file.
    Coordinates,
}

impl Digested {
    /// Its word in a line, and a space.
    pub fn text(self) -> &'static [u8]
        ensures { result.now ≡ digested_text self }
    {
        match self {
            Digested::Schema => b"schema ",
            Digested::Sheet => b"sheet ",
            Digested::Coordinates => b"coordinates ",
        }
    }
}

/// A digest, with what it is of and the name of its file.
pub struct ManifestLine {
    pub name: FileName,
    pub digested: Digested,
    pub digest: [u8; 32],
}

impl Drop for ManifestLine {
    fn drop(self) {
        let ManifestLine {
            name: _,
            digested: _,
            digest: _,
        } = self;
    }
}

/// The line as it is written.
pub(crate) fn text_of(alloc: Global, line: &ManifestLine) -> Result<Text, AllocError>
    ensures { IfOk result (λ text. text ≡ manifest_line line.now) }
{
    let mut text = Vec::from_slice(alloc, line.name.as_slice())?;
    text.push(b' ')?;
    text.extend_from_slice(line.digested.text())?;
    text.extend_from_slice(hex::encode(alloc, line.digest.as_slice())?.as_bytes())?;
    text.push(b'\n')?;
    Text::from_slice(alloc, &text)
}
