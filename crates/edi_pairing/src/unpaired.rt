//! Why a file doesn't pair, in words.

ghost use Rattle.std.specs.Prelude.{◌≡◌, ◌++◌, OnOk, codes};
ghost use Rattle.edi_pairing.specs.UnpairedText.{name_text, pair_text, part_words, unpaired_text};

use crate::names::RecordName;
use crate::verified::{NamedPair, Unpaired};
use edi_compare::RecordPart;
use edi_line::push_number;
use edi_shown::push_shown;
use std::alloc::AllocError;

/// Appends why a file of this name doesn't pair, without an end of the line: where a record of A isn't carried, with
/// the file's line of it, its type and its identifier, as a line shows them, and those of the record of B to which it
/// goes.
pub fn push_unpaired(text: &mut Vec<u8>, file: &[u8], why: &Unpaired) -> Result<(), AllocError>
    ensures { OnOk result (text.new.items ≡ text.old.items ++ unpaired_text file.now why.now) }
{
    match why {
        Unpaired::CharacterSets => {
            text.extend_from_slice(b"A and B have different character sets")
        }
        Unpaired::Shared { pair, earlier } => push_shared(text, file, pair, earlier),
        Unpaired::Unlike { pair, part } => push_unlike(text, file, pair, *part),
        Unpaired::Unmet { name } => push_unmet(text, name),
    }
}

// Appends that no record goes to this one of B.
fn push_unmet(text: &mut Vec<u8>, name: &RecordName) -> Result<(), AllocError>
    ensures { OnOk result (text.new.items
        ≡ text.old.items ++ (name_text name.now ++ codes " of B: no record of A goes to it")) }
{
    push_name(text, name)?;
    text.extend_from_slice(b" of B: no record of A goes to it")
}

// Appends that a record goes where an earlier one goes.
fn push_shared(
    text: &mut Vec<u8>,
    file: &[u8],
    pair: &NamedPair,
    earlier: &NamedPair,
) -> Result<(), AllocError>
    ensures { OnOk result (text.new.items
        ≡ text.old.items ++ unpaired_text file.now (Unpaired.Shared pair.now earlier.now)) }
{
    push_pair(text, file, pair)?;
    text.extend_from_slice(b"goes to ")?;
    push_name(text, &pair.partner)?;
    text.extend_from_slice(b" of B, as ")?;
    push_name(text, &earlier.name)?;
    text.extend_from_slice(b" does in line ")?;
    push_number(text, earlier.at)
}

// Appends that a record isn't the one to which it goes.
fn push_unlike(
    text: &mut Vec<u8>,
    file: &[u8],
    pair: &NamedPair,
    part: RecordPart,
) -> Result<(), AllocError>
    ensures { OnOk result (text.new.items ≡ text.old.items ++ unpaired_text file.now (Unpaired.Unlike pair.now part)) }
{
    push_pair(text, file, pair)?;
    text.extend_from_slice(b"is not ")?;
    push_name(text, &pair.partner)?;
    text.extend_from_slice(b" of B: ")?;
    text.extend_from_slice(part_words(part))
}

// Appends the place of a line, and the name of its record of A.
fn push_pair(text: &mut Vec<u8>, file: &[u8], pair: &NamedPair) -> Result<(), AllocError>
    ensures { OnOk result (text.new.items ≡ text.old.items ++ pair_text file.now pair.now) }
{
    push_shown(text, file)?;
    text.push(b':')?;
    push_number(text, pair.at)?;
    text.extend_from_slice(b": ")?;
    push_name(text, &pair.name)?;
    text.extend_from_slice(b": ")
}

// Appends a type and an identifier.
fn push_name(text: &mut Vec<u8>, name: &RecordName) -> Result<(), AllocError>
    ensures { OnOk result (text.new.items ≡ text.old.items ++ name_text name.now) }
{
    text.extend_from_slice(name.kind.code())?;
    text.push(b' ')?;
    push_shown(text, name.rid.as_slice())
}

/// What differs between a record and the one that it goes to, in words.
pub fn part_words(part: RecordPart) -> &'static [u8]
    ensures { result.now ≡ part_words part }
{
    match part {
        RecordPart::Reversal => b"it is reversed, and no arc",
        RecordPart::Kind => b"another type",
        RecordPart::Class => b"another class",
        RecordPart::Points => b"other points",
        RecordPart::Extras => b"other extras",
        RecordPart::Attributes => b"other attributes",
        RecordPart::Ends => b"other ends",
    }
}
