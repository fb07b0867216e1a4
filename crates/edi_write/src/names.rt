//! The names of records: types and identifiers.

ghost use Rattle.std.specs.Prelude.{◌≡◌, ◌++◌, OnOk, codes};
ghost use Rattle.edi_line.specs.Printing.{printed_zone, zone_headed};
ghost use Rattle.edi_record.specs.CanonicalZones.{end_text};
ghost use Rattle.edi_record.specs.Shapes.{kind_code as code_of_kind};
ghost use Rattle.edi_write.specs.Layout.{identifier, kind_letter as letter_of_kind};
ghost use Rattle.edi_write.specs.inner.Heads.{headed, line_begun};
ghost use Rattle.edi_write.specs.inner.Numbered.{numbered_name, pointer_begun};

use crate::heads::{END_TARGET, IDENTIFIER};
use crate::page::Page;
use edi_record::Kind;
use itoa::Buffer;
use std::alloc::AllocError;

/// The zone of a record's type.
#[tactic(auto, using(crate::proofs::KindZones::type_printed))]
pub(crate) fn type_zone(kind: Kind) -> &'static [u8]
    ensures { result.now ≡ printed_zone (zone_headed (codes "RTYSA") (code_of_kind kind)) }
{
    match kind {
        Kind::Pno => b"RTYSA03:PNO\r\n",
        Kind::Par => b"RTYSA03:PAR\r\n",
        Kind::Pfe => b"RTYSA03:PFE\r\n",
        Kind::Fea => b"RTYSA03:FEA\r\n",
        Kind::Lnk => b"RTYSA03:LNK\r\n",
    }
}

/// The line of the pointer of an end to a record of a type, up to the number, with 00 for the length.
fn pointer_line(kind: Kind) -> [u8; 21]
    ensures { result ≡ line_begun END_TARGET (pointer_begun kind) }
{
    match kind {
        Kind::Pno => *b"FTPCP00:CANON;S;PNO;N",
        Kind::Par => *b"FTPCP00:CANON;S;PAR;A",
        Kind::Pfe => *b"FTPCP00:CANON;S;PFE;F",
        Kind::Fea => *b"FTPCP00:CANON;S;FEA;O",
        Kind::Lnk => *b"FTPCP00:CANON;S;LNK;L",
    }
}

/// The line of the identifier of a record of a type, up to the number, with 00 for the length.
fn identifier_line(kind: Kind) -> [u8; 9]
    ensures { result ≡ line_begun IDENTIFIER (letter_of_kind kind) }
{
    match kind {
        Kind::Pno => *b"RIDSA00:N",
        Kind::Par => *b"RIDSA00:A",
        Kind::Pfe => *b"RIDSA00:F",
        Kind::Fea => *b"RIDSA00:O",
        Kind::Lnk => *b"RIDSA00:L",
    }
}

/// Writes the zone of the identifier of a record: the letter of its type, and its number. What stands before the number
/// has a known size, so that it is copied without a call.
pub(crate) fn write_identifier(page: &mut Page, kind: Kind, number: u32) -> Result<(), AllocError>
    ensures { OnOk result (page.new.file.items
        ≡ page.old.file.items ++ printed_zone (headed IDENTIFIER (identifier kind number))) }
{
    let mut digits = Buffer::new();
    let digits = digits.format(number).as_bytes();
    let len = 1 + digits.len() as u8;
    let mut front = identifier_line(kind);
    front[5] = b'0' + len / 10;
    front[6] = b'0' + len % 10;
    page.file.extend_from_slice(&front)?;
    page.file.extend_from_slice(digits)?;
    page.file.extend_from_slice(b"\r\n")
}

/// Writes the zone of the pointer of an end to a record, in the same way.
pub(crate) fn write_end_pointer(page: &mut Page, kind: Kind, number: u32) -> Result<(), AllocError>
    ensures { OnOk result (page.new.file.items
        ≡ page.old.file.items ++ printed_zone (headed END_TARGET (end_text (numbered_name kind number)))) }
{
    let mut digits = Buffer::new();
    let digits = digits.format(number).as_bytes();
    let len = 13 + digits.len() as u8;
    let mut front = pointer_line(kind);
    front[5] = b'0' + len / 10;
    front[6] = b'0' + len % 10;
    page.file.extend_from_slice(&front)?;
    page.file.extend_from_slice(digits)?;
    page.file.extend_from_slice(b"\r\n")
}
