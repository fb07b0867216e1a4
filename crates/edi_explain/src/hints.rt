//! Usual causes of refusals that a file shows.

ghost use Rattle.std.specs.Prelude.{◌≡◌, ◌++◌, ◌∷◌, [], IfOk, OnOk, codes, drop, option_map, take};
ghost use Rattle.edi_line.specs.Bytes.{line_feed};
ghost use Rattle.edi_explain.specs.Hints.{AreHints, AreHintsOfSheet, IsPartIfAny, end_hint, form_hint_or, form_words as words_of_form, hint_line, is_tar as is_tar_file, mark_hint, name_of as name_of_part, part_hint, part_typed};

use crate::explained::NamedFile;
use edi_line::lines::first_line;
use edi_shown::push_shown;
use std::alloc::{AllocError, Global};

/// Which file of a delivery a file is.
#[derive(Clone, Copy, PartialEq, Eq)]
pub enum DeliveryPart {
    /// The list of what is delivered.
    Thf,
    /// What the sheet covers, and its parts.
    Gen,
    /// The reference of the coordinates.
    Geo,
    /// The quality.
    Qal,
    /// The classes.
    Scd,
    /// The words of the classes.
    Dic,
    /// The records of the sheet.
    Vec,
}

/// A byte order mark, as UTF-8 has it.
const MARK: [u8; 3] = [0xEF, 0xBB, 0xBF];

/// The byte with which some systems end a text.
pub(crate) const END: [u8; 1] = [0x1A];

/// With this a file begins that bzip2 packed.
const BZIP2: [u8; 3] = *b"BZh";

/// With this a file begins that gzip packed.
const GZIP: [u8; 2] = [0x1F, 0x8B];

/// With this an archive of ZIP begins.
const ZIP: [u8; 4] = [b'P', b'K', 3, 4];

/// The name of tar, which an archive has behind 257 bytes.
const TAR: [u8; 5] = *b"ustar";

/// With this a text in UTF-16 begins whose lower bytes come first.
const LOW_FIRST: [u8; 2] = [0xFF, 0xFE];

/// With this a text in UTF-16 begins whose higher bytes come first.
const HIGH_FIRST: [u8; 2] = [0xFE, 0xFF];

/// With this a line begins that states the type of a record.
const TYPE_HEAD: [u8; 8] = *b"RTYSA03:";

/// The part of a delivery whose records are of a type (docs/FORMAT.md, "Hints").
pub fn part_of_type(rty: &[u8]) -> Option<DeliveryPart>
    ensures { result ≡ part_typed rty.now }
{
    match rty {
        b"GTS" | b"GTL" => Some(DeliveryPart::Thf),
        b"DEG" | b"GSE" => Some(DeliveryPart::Gen),
        b"GEO" | b"RPR" => Some(DeliveryPart::Geo),
        b"QUP" => Some(DeliveryPart::Qal),
        b"OBJ" | b"PGE" | b"REL" | b"ATT" => Some(DeliveryPart::Scd),
        b"DID" | b"DIA" | b"DIR" => Some(DeliveryPart::Dic),
        b"PNO" | b"PAR" | b"PFE" | b"FEA" | b"LNK" => Some(DeliveryPart::Vec),
        _ => None,
    }
}

/// The part of a delivery whose records are of the type that a line states, in the three bytes behind `RTYSA03:`.
fn part_of_line(line: &[u8]) -> Option<DeliveryPart>
    ensures { result ≡ part_typed (take 3 (drop 8 line.now)) }
{
    match line.get(8..11) {
        Some(rty) => part_of_type(rty),
        None => None,
    }
}

/// The part of a delivery that a file is by its first line that begins `RTYSA03:`; `None` where it has none, or one of
/// another type. The bytes behind that line are not looked at.
pub fn part_of(bytes: &[u8]) -> Option<DeliveryPart>
    ensures { IsPartIfAny bytes.now result }
{
    let mut rest = bytes;
    while !rest.is_empty() {
        let (line, behind) = first_line(rest);
        if line.starts_with(&TYPE_HEAD) {
            return part_of_line(line);
        }
        rest = behind;
    }
    None
}

/// What a part is called.
fn name_of(part: DeliveryPart) -> &'static str
    ensures { result.now ≡ name_of_part part }
{
    match part {
        DeliveryPart::Thf => "THF",
        DeliveryPart::Gen => "GEN",
        DeliveryPart::Geo => "GEO",
        DeliveryPart::Qal => "QAL",
        DeliveryPart::Scd => "SCD",
        DeliveryPart::Dic => "DIC",
        DeliveryPart::Vec => "VEC",
    }
}

/// Appends a hint on a file.
pub(crate) fn push_hint(text: &mut Vec<u8>, name: &[u8], words: &str) -> Result<(), AllocError>
    ensures { OnOk result (text.new.items ≡ text.old.items ++ hint_line name.now words.now) }
{
    text.extend_from_slice(b"hint: ")?;
    push_shown(text, name)?;
    text.extend_from_slice(words.as_bytes())?;
    text.extend_from_slice(b"\n")
}

/// Appends that a file begins with a byte order mark, if it does.
fn push_mark(text: &mut Vec<u8>, file: &NamedFile<'_>) -> Result<(), AllocError>
    ensures { OnOk result (text.new.items ≡ text.old.items ++ mark_hint file.now.name.now file.now.bytes.now) }
{
    if file.bytes.starts_with(&MARK) {
        push_hint(
            text,
            file.name,
            " begins with a byte order mark, which has to go",
        )
    } else {
        Ok(())
    }
}

/// Appends that a file ends in a byte 0x1A, if it does.
fn push_end(text: &mut Vec<u8>, file: &NamedFile<'_>) -> Result<(), AllocError>
    ensures { OnOk result (text.new.items ≡ text.old.items ++ end_hint file.now.name.now file.now.bytes.now) }
{
    if file.bytes.ends_with(&END) {
        push_hint(text, file.name, " ends in a byte 0x1A, which has to go")
    } else {
        Ok(())
    }
}

/// Whether a file is an archive of tar.
fn is_tar(bytes: &[u8]) -> bool
    ensures { result ≡ is_tar_file bytes.now }
{
    if bytes.len() < 257 {
        return false;
    }
    let (_, behind) = bytes.split_at(257);
    behind.starts_with(&TAR)
}

/// What a file is by its first bytes, where it can't be read as it is, and what to do then.
fn form_words(bytes: &[u8]) -> Option<&'static str>
    ensures { option_map (λ w. w.now) result ≡ words_of_form bytes.now }
{
    if bytes.starts_with(&BZIP2) {
        Some(" is packed with bzip2: unpack it first")
    } else if bytes.starts_with(&GZIP) {
        Some(" is packed with gzip: unpack it first")
    } else if bytes.starts_with(&ZIP) {
        Some(" is a ZIP archive: take the files out of it first")
    } else if is_tar(bytes) {
        Some(" is a tar archive: take the files out of it first")
    } else if bytes.starts_with(&LOW_FIRST) || bytes.starts_with(&HIGH_FIRST) {
        Some(" seems to have been turned into UTF-16, so take the file as it was delivered")
    } else {
        None
    }
}

/// Appends which part a file is, if it is another than the one in whose place it stands.
fn push_part(
    text: &mut Vec<u8>,
    name: &[u8],
    wanted: DeliveryPart,
    part: Option<DeliveryPart>,
) -> Result<(), AllocError>
    ensures { OnOk result (text.new.items ≡ text.old.items ++ part_hint name.now wanted part) }
{
    let Some(part) = part else {
        return Ok(());
    };
    if part == wanted {
        return Ok(());
    }
    text.extend_from_slice(b"hint: ")?;
    push_shown(text, name)?;
    push_mistaken(text, wanted, part)
}

/// Appends which part a file is, and in whose place it stands.
fn push_mistaken(
    text: &mut Vec<u8>,
    wanted: DeliveryPart,
    part: DeliveryPart,
) -> Result<(), AllocError>
    ensures { OnOk result (text.new.items
        ≡ text.old.items ++ (codes " is " ++ name_of_part part ++ codes " by its first record, and was given as "
        ++ name_of_part wanted ++ line_feed ∷ [])) }
{
    text.extend_from_slice(b" is ")?;
    text.extend_from_slice(name_of(part).as_bytes())?;
    text.extend_from_slice(b" by its first record, and was given as ")?;
    text.extend_from_slice(name_of(wanted).as_bytes())?;
    text.extend_from_slice(b"\n")
}

/// Appends the hints on a text in the place of a part, which is this part.
fn push_others(
    text: &mut Vec<u8>,
    file: &NamedFile<'_>,
    wanted: DeliveryPart,
    part: Option<DeliveryPart>,
) -> Result<(), AllocError>
    ensures { OnOk result (text.new.items ≡ text.old.items ++ (mark_hint file.now.name.now file.now.bytes.now
        ++ end_hint file.now.name.now file.now.bytes.now ++ part_hint file.now.name.now wanted part)) }
{
    push_mark(text, file)?;
    push_end(text, file)?;
    push_part(text, file.name, wanted, part)
}

/// The lines that name the usual causes of a refusal that a file shows, where it stands in the place of a part:
/// that it can't be read as it is; or else the others.
pub fn hints_on(
    alloc: Global,
    file: &NamedFile<'_>,
    wanted: DeliveryPart,
) -> Result<Vec<u8>, AllocError>
    ensures { IfOk result (λ lines. AreHints file.now.name.now file.now.bytes.now wanted lines.items) }
{
    let part = part_of(file.bytes);
    let mut text = Vec::new(alloc);
    match form_words(file.bytes) {
        Some(words) => push_hint(&mut text, file.name, words)?,
        None => push_others(&mut text, file, wanted, part)?,
    }
    Ok(text)
}

/// The same of the three files of a sheet, one after the other.
pub fn hints_of(
    alloc: Global,
    scd: &NamedFile<'_>,
    dic: &NamedFile<'_>,
    vec: &NamedFile<'_>,
) -> Result<Vec<u8>, AllocError>
    ensures { IfOk result (λ lines.
        AreHintsOfSheet scd.now.name.now scd.now.bytes.now dic.now.name.now dic.now.bytes.now vec.now.name.now
        vec.now.bytes.now lines.items) }
{
    let mut lines = hints_on(alloc, scd, DeliveryPart::Scd)?;
    let of_dic = hints_on(alloc, dic, DeliveryPart::Dic)?;
    let of_vec = hints_on(alloc, vec, DeliveryPart::Vec)?;
    lines.extend_from_slice(&of_dic)?;
    lines.extend_from_slice(&of_vec)?;
    Ok(lines)
}
