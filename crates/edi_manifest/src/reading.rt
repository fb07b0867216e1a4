//! Reading a manifest.

ghost use Rattle.std.specs.Prelude.{◌≡◌, ℕ, ◌<◌, ◌==◌, List, ◌∷◌, ◌++◌, length, position};
ghost use Rattle.std.specs.Prelude.{Some, option_map, IfOk, IfSome, MatchOption};
ghost use Rattle.hex.specs.Hex.{encode_lower, IsBytes};
ghost use Rattle.std.proofs.Common.{Ok};
ghost use Rattle.std.specs.Fn.{FnReturnsAt};
ghost use Rattle.std.specs.List.{AllByRecursion};
ghost use Rattle.edi_manifest.specs.ManifestText.{digested_text, manifest_text, IsManifestLine, IsNoManifest};
ghost use Rattle.edi_manifest.specs.LineReading.{ReadsLines};
ghost use Rattle.edi_manifest.specs.inner.Reading.{HasNoByte, FindsDigested, FindsManifestLine, FindsBody, FindsManifestLines};

use crate::line::{Digested, ManifestLine};
use crate::writing::{HEAD, manifest};
use edi_delivery::FileName;
use hex::FromHex;
use std::alloc::{AllocError, Global};

/// How many bytes the last line has.
const LAST_LEN: usize = 72;

/// What the word in front of a text says, and the text behind it.
fn word_in(text: &[u8]) -> Option<(Digested, &[u8])>
    ensures { FindsDigested text.now result }
{
    if let Some(behind) = text.strip_prefix(b"schema ") {
        return Some((Digested::Schema, behind));
    }
    if let Some(behind) = text.strip_prefix(b"sheet ") {
        return Some((Digested::Sheet, behind));
    }
    let behind = text.strip_prefix(b"coordinates ")?;
    Some((Digested::Coordinates, behind))
}

/// The digest that these digits say, where they are those of 32 bytes, with `a` to `f` in lower case. Of other bytes
/// nothing is claimed.
pub fn digest_in(digits: &[u8]) -> Option<[u8; 32]>
    ensures finds { (bytes : List ℕ) → length bytes ≡ 32 → IsBytes bytes → digits.now ≡ encode_lower bytes
        → result ≡ Some bytes }
    ensures bytes { IfSome result (λ digest. (length digest ≡ 32) × IsBytes digest) }
{
    <[u8; 32] as FromHex>::from_hex(digits).ok()
}

/// Where a byte comes first.
fn place_of(bytes: &[u8], byte: u8) -> Option<usize>
    ensures { result ≡ position (λ c. c == byte) bytes.now }
{
    bytes.iter().position(|other| *other == byte)
}

/// What stands in front of the first such byte, and what behind it.
pub fn cut_at(bytes: &[u8], byte: u8) -> Option<(&[u8], &[u8])>
    ensures cut { MatchOption result (HasNoByte byte bytes.now)
        (λ p. (bytes.now ≡ p.0.now ++ byte ∷ p.1.now) × HasNoByte byte p.0.now) }
    ensures shorter { IfSome result (λ p. length p.1.now < length bytes.now) }
{
    let Some(place) = place_of(bytes, byte) else {
        return None;
    };
    let (front, rest) = bytes.split_at(place);
    match rest {
        [_, behind @ ..] => Some((front, behind)),
        [] => None,
    }
}

/// The line with this content, which has no line feed.
fn line_in(alloc: Global, content: &[u8]) -> Result<Option<ManifestLine>, AllocError>
    ensures finds { IfOk result (FindsManifestLine content.now) }
    ensures is { IfOk result (λ found. IfSome found IsManifestLine) }
{
    let Some((name, behind)) = cut_at(content, b' ') else {
        return Ok(None);
    };
    let Some((digested, digits)) = word_in(behind) else {
        return Ok(None);
    };
    let Some(digest) = digest_in(digits) else {
        return Ok(None);
    };
    let Some(name) = FileName::new(alloc, name)? else {
        return Ok(None);
    };
    Ok(Some(ManifestLine {
        name,
        digested,
        digest,
    }))
}

/// The bytes between the first line and the last.
fn body_in(text: &[u8]) -> Option<&[u8]>
    ensures { FindsBody text.now result }
{
    let behind = text.strip_prefix(HEAD)?;
    if behind.len() < LAST_LEN {
        return None;
    }
    Some(&behind[..behind.len() - LAST_LEN])
}

/// What the lines of a text are read as, up to its last line feed; or none where one of them is read as nothing.
pub fn read_lines<L: Drop, R: Fn(&[u8]) -> Result<Option<L>, AllocError>>(
    alloc: Global,
    text: &[u8],
    read: R,
) -> Result<Option<Vec<L>>, AllocError>
    requires { R.IsAlwaysCallable read }
    ensures { IfOk result (λ found. ReadsLines (λ content line. FnReturnsAt R.Fn read content (Ok line)) text.now
        (option_map (λ lines. lines.items) found)) }
{
    let mut found = Vec::new(alloc);
    let mut rest = text;
    while let Some((content, behind)) = cut_at(rest, b'\n') {
        match read(content)? {
            Some(line) => found.push(line)?,
            None => return Ok(None),
        }
        rest = behind;
    }
    Ok(Some(found))
}

/// The lines of these bytes, or none where one of them isn't in form.
fn lines_in(alloc: Global, body: &[u8]) -> Result<Option<Vec<ManifestLine>>, AllocError>
    ensures finds { IfOk result (λ found. FindsManifestLines body.now (option_map (λ lines. lines.items) found)) }
    ensures are { IfOk result (λ found. IfSome found (λ lines. AllByRecursion IsManifestLine lines.items)) }
{
    read_lines(alloc, body, |content| line_in(alloc, content))
}

/// The lines of a manifest in the order of its text, or none where the text is that of no manifest.
pub fn read_manifest(alloc: Global, text: &[u8]) -> Result<Option<Vec<ManifestLine>>, AllocError>
    ensures reads { IfOk result (λ found.
        MatchOption found (IsNoManifest text.now) (λ lines. manifest_text lines.items ≡ text.now)) }
    ensures are { IfOk result (λ found. IfSome found (λ lines. AllByRecursion IsManifestLine lines.items)) }
{
    let Some(body) = body_in(text) else {
        return Ok(None);
    };
    let Some(lines) = lines_in(alloc, body)? else {
        return Ok(None);
    };
    if manifest(alloc, &lines)?.as_slice() == text {
        Ok(Some(lines))
    } else {
        Ok(None)
    }
}
