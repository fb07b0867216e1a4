//! The text of a manifest.

ghost use Rattle.std.specs.Prelude.{◌≡◌, IfOk};
ghost use Rattle.edi_manifest.specs.ManifestText.{manifest_lines, manifest_body, last_line, manifest_text};

use crate::line::{ManifestLine, text_of};
use edi_line::Text;
use sha2::{Digest, Sha256};
use std::alloc::{AllocError, Global};

/// The form's name and its version.
pub(crate) const HEAD: &[u8] = b"edicad manifest 1\n";

/// The lines as they are written, in the order of their bytes.
fn sorted_lines(alloc: Global, lines: &[ManifestLine]) -> Result<Vec<Text>, AllocError>
    ensures { IfOk result (λ texts. texts.items ≡ manifest_lines lines.now) }
{
    let mut texts = Vec::new(alloc);
    for line in lines {
        texts.push(text_of(alloc, line)?)?;
    }
    texts.sort_unstable();
    Ok(texts)
}

/// The head and the lines.
fn body_of(alloc: Global, lines: &[ManifestLine]) -> Result<Vec<u8>, AllocError>
    ensures { IfOk result (λ body. body.items ≡ manifest_body lines.now) }
{
    let texts = sorted_lines(alloc, lines)?;
    let mut body = Vec::from_slice(alloc, HEAD)?;
    for text in &texts {
        body.extend_from_slice(text.as_slice())?;
    }
    Ok(body)
}

/// The line that has the digest of all before it.
fn digest_line(alloc: Global, body: &[u8]) -> Result<Vec<u8>, AllocError>
    ensures { IfOk result (λ line. line.items ≡ last_line body.now) }
{
    let digest = Sha256::digest(body);
    let mut line = Vec::from_slice(alloc, b"digest ")?;
    line.extend_from_slice(hex::encode(alloc, digest.as_slice())?.as_bytes())?;
    line.push(b'\n')?;
    Ok(line)
}

/// The text of a manifest with these lines, which is the same in whatever order they come.
pub fn manifest(alloc: Global, lines: &[ManifestLine]) -> Result<Vec<u8>, AllocError>
    ensures { IfOk result (λ text. text.items ≡ manifest_text lines.now) }
{
    let mut text = body_of(alloc, lines)?;
    let last = digest_line(alloc, &text)?;
    text.extend_from_slice(&last)?;
    Ok(text)
}
