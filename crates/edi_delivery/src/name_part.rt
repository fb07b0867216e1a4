//! The parts that names of files are made of.

ghost use Rattle.std.specs.Prelude.{◌≡◌, true, false, IfOk, MatchOption};
ghost use Rattle.std.specs.List.{list_all};
ghost use Rattle.edi_delivery.specs.NameParts.{is_word_byte as is_word, is_part_byte as is_part};
ghost use Rattle.edi_delivery.specs.NameParts.{is_name_part as is_name};

use edi_line::Text;
use std::alloc::{AllocError, Global};
use std::marker::Model;

/// How many bytes a part has at most: two of them and an extension are a name that file systems take.
const MOST_BYTES: usize = 125;

/// Whether a byte is a letter of ASCII, a digit or `_`.
pub(crate) fn is_word_byte(byte: u8) -> bool
    ensures { result ≡ is_word byte }
{
    byte.is_ascii_alphanumeric() || byte == b'_'
}

/// Whether a byte is one of these, or `-`.
fn is_part_byte(byte: u8) -> bool
    ensures { result ≡ is_part byte }
{
    is_word_byte(byte) || byte == b'-'
}

fn are_part_bytes(bytes: &[u8]) -> bool
    ensures { result ≡ list_all is_part bytes.now }
{
    bytes.iter().all(|byte| is_part_byte(*byte))
}

/// Whether a text may be a part of a name: 1 to 125 letters of ASCII, digits, `_` and `-`, not beginning with `-`.
fn is_name_part(text: &[u8]) -> bool
    ensures { result ≡ is_name text.now }
{
    match text {
        [first, behind @ ..] => {
            is_word_byte(*first) && are_part_bytes(behind) && text.len() <= MOST_BYTES
        }
        [] => false,
    }
}

/// The name of a lot, or the own name of one of its files: 1 to 125 letters of ASCII, digits, `_` and `-`, not
/// beginning with `-`. Contracts see its bytes.
pub struct NamePart {
    text: Text,
}

impl Drop for NamePart {
    fn drop(self) {
        let NamePart { text: _ } = self;
    }
}

impl Model for NamePart {
    ghost use Rattle.std.specs.Prelude.{◌≡◌, true, List, ℕ};
    ghost use Rattle.edi_delivery.specs.NameParts.{is_name_part};

    ghost Value = { List ℕ };

    ghost view = { λ n. n.text };

    ghost invariant = { λ n. is_name_part n.text ≡ true };
}

impl NamePart {
    /// The text as a part of a name, or none where it isn't one.
    pub fn new(alloc: Global, text: &[u8]) -> Result<Option<NamePart>, AllocError>
        ensures { IfOk result (λ part.
            MatchOption part (is_name text.now ≡ false) (λ p. (p ≡ text.now) × (is_name text.now ≡ true))) }
    {
        if !is_name_part(text) {
            return Ok(None);
        }
        Ok(Some(NamePart {
            text: Text::from_slice(alloc, text)?,
        }))
    }

    /// Its bytes.
    pub fn as_slice(&self) -> &[u8]
        ensures bytes { result.now ≡ self.now }
        ensures part { is_name self.now ≡ true }
    {
        self.text.as_slice()
    }
}
