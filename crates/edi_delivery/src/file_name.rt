//! Names of files.

ghost use Rattle.std.specs.Prelude.{◌≡◌, map, true, false, IfOk, MatchOption};
ghost use Rattle.std.specs.List.{list_all};
ghost use Rattle.std.specs.Str.{str_to_ascii_lowercase};
ghost use Rattle.edi_delivery.specs.NameParts.{is_file_byte as is_byte};
ghost use Rattle.edi_delivery.specs.NameParts.{extension_text, file_name, is_file_name, is_same_name};

use crate::name_part::{NamePart, is_word_byte};
use edi_line::Text;
use std::alloc::{AllocError, Global};
use std::marker::Model;

/// The extensions of a lot's files.
#[derive(Clone, Copy)]
pub enum Extension {
    /// The classes.
    Scd,
    /// The dictionary.
    Dic,
    /// General data.
    Gen,
    /// The coordinate system.
    Geo,
    /// Quality.
    Qal,
    /// The records of a sheet.
    Vec,
}

impl Extension {
    /// The point and three capitals.
    pub fn text(self) -> &'static [u8]
        ensures { result.now ≡ extension_text self }
    {
        match self {
            Extension::Scd => b".SCD",
            Extension::Dic => b".DIC",
            Extension::Gen => b".GEN",
            Extension::Geo => b".GEO",
            Extension::Qal => b".QAL",
            Extension::Vec => b".VEC",
        }
    }
}

/// How many bytes the name of a file has at most.
const MOST_BYTES: usize = 255;

/// Whether a byte is a letter of ASCII, a digit, `_`, `-` or a point.
fn is_file_byte(byte: u8) -> bool
    ensures { result ≡ is_byte byte }
{
    is_word_byte(byte) || byte == b'-' || byte == b'.'
}

fn are_file_bytes(bytes: &[u8]) -> bool
    ensures { result ≡ list_all is_byte bytes.now }
{
    bytes.iter().all(|byte| is_file_byte(*byte))
}

/// Whether a text may be the name of a file.
fn is_name(text: &[u8]) -> bool
    ensures { result ≡ is_file_name text.now }
{
    match text {
        [first, behind @ ..] => {
            is_word_byte(*first) && are_file_bytes(behind) && text.len() <= MOST_BYTES
        }
        [] => false,
    }
}

/// The name of a file in a folder: 1 to 255 letters of ASCII, digits, `_`, `-` and points, of which the first is a
/// letter, a digit or `_`. So it has no `/` or `\`, no NUL or other control byte, and is neither `.` nor `..`.
/// Contracts see its bytes.
pub struct FileName {
    text: Text,
}

impl Drop for FileName {
    fn drop(self) {
        let FileName { text: _ } = self;
    }
}

impl Model for FileName {
    ghost use Rattle.std.specs.Prelude.{◌≡◌, true, List, ℕ};
    ghost use Rattle.edi_delivery.specs.NameParts.{is_file_name};

    ghost Value = { List ℕ };

    ghost view = { λ n. n.text };

    ghost invariant = { λ n. is_file_name n.text ≡ true };
}

impl FileName {
    /// The text as the name of a file, or none where it isn't one.
    pub fn new(alloc: Global, text: &[u8]) -> Result<Option<FileName>, AllocError>
        ensures { IfOk result (λ name.
            MatchOption name (is_file_name text.now ≡ false) (λ n. (n ≡ text.now) × (is_file_name text.now ≡ true))) }
    {
        if !is_name(text) {
            return Ok(None);
        }
        Ok(Some(FileName {
            text: Text::from_slice(alloc, text)?,
        }))
    }

    /// The name of a lot's file, with its extension in capitals.
    pub fn of(
        alloc: Global,
        lot: &NamePart,
        extension: Extension,
        own: &NamePart,
    ) -> Result<FileName, AllocError>
        ensures { IfOk result (λ name. name ≡ file_name lot.now extension own.now) }
    {
        let mut bytes = Vec::new(alloc);
        bytes.extend_from_slice(lot.as_slice())?;
        bytes.extend_from_slice(own.as_slice())?;
        bytes.extend_from_slice(extension.text())?;
        Ok(FileName {
            text: Text::from_slice(alloc, &bytes)?,
        })
    }

    /// Its bytes.
    pub fn as_slice(&self) -> &[u8]
        ensures bytes { result.now ≡ self.now }
        ensures name { is_file_name self.now ≡ true }
    {
        self.text.as_slice()
    }

    /// Whether a name, as that of a file in a folder, is this one, `A` to `Z` and `a` to `z` taken as one.
    pub fn is_same(&self, name: &[u8]) -> bool
        ensures { result ≡ is_same_name self.now name.now }
    {
        self.as_slice().eq_ignore_ascii_case(name)
    }
}

/// A name with `a` to `z` for `A` to `Z`, for tables in which names are found in upper and lower case: two names are
/// the same for `FileName::is_same` exactly if these are equal.
pub fn lower_case(alloc: Global, name: &[u8]) -> Result<Text, AllocError>
    ensures { IfOk result (λ lower. lower ≡ str_to_ascii_lowercase name.now) }
{
    let mut bytes = Vec::from_slice(alloc, name)?;
    bytes.make_ascii_lowercase();
    Text::from_slice(alloc, &bytes)
}
