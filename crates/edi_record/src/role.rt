//! What zones are to a record.

ghost use Rattle.std.specs.Prelude.{◌≡◌};
ghost use Rattle.edi_record.specs.inner.Stored.{role_in, body_role_in};

use crate::record::Kind;

/// What a zone is to a record, by its code: the one table of the codes that are known.
#[derive(Clone, Copy)]
pub(crate) enum ZoneRole {
    Identifier,
    Class,
    AttributeCount,
    AttributeClass,
    AttributeSet,
    AttributeValue,
    BodyCount,
    Position,
    EndPointer,
    EndSense,
    Skipped,
    Unknown,
}

/// The role of a code in records of a type.
pub(crate) fn role_of(kind: Kind, code: [u8; 3]) -> ZoneRole
    ensures { result ≡ role_in kind code }
{
    match &code {
        b"RID" => ZoneRole::Identifier,
        b"SCP" => ZoneRole::Class,
        b"ATC" => ZoneRole::AttributeCount,
        b"ATP" => ZoneRole::AttributeClass,
        b"TEX" => ZoneRole::AttributeSet,
        b"ATV" => ZoneRole::AttributeValue,
        b"RTY" => ZoneRole::Skipped,
        b"QAC" => ZoneRole::Skipped,
        b"QAP" => ZoneRole::Skipped,
        _ => body_role(kind, code),
    }
}

/// The role of a code that isn't known in every record.
fn body_role(kind: Kind, code: [u8; 3]) -> ZoneRole
    ensures { result ≡ body_role_in kind code }
{
    match (kind, &code) {
        (Kind::Pno, b"COR") => ZoneRole::Position,
        (Kind::Par, b"COR") => ZoneRole::Position,
        (Kind::Par, b"PTC") => ZoneRole::BodyCount,
        (Kind::Lnk, b"FTC") => ZoneRole::BodyCount,
        (Kind::Lnk, b"FTP") => ZoneRole::EndPointer,
        (Kind::Lnk, b"SNS") => ZoneRole::EndSense,
        _ => ZoneRole::Unknown,
    }
}
