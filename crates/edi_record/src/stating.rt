//! The record that a group of zones states.

ghost use Rattle.std.specs.Prelude.{◌≡◌, ◌≤◌, true, ◌∷◌, None, length, drop, IfOk, IfErr, OnOk};
ghost use Rattle.edi_line.specs.ZoneData.{entry, entries};
ghost use Rattle.edi_line.specs.Zones.{begins_group, ends_group, before_end, groups_of};
ghost use Rattle.edi_line.specs.inner.Refusal.{first_broken};
ghost use Rattle.edi_record.specs.Shapes.{is_in_shape};
ghost use Rattle.edi_record.specs.inner.Records.{ReadsAsRecord};
ghost use Rattle.edi_record.specs.inner.RecordRules.{kind_named as kind_by, record_tests};
ghost use Rattle.edi_record.specs.inner.RecordRefusal.{IsGroupRefusal};
ghost use Rattle.edi_record.specs.inner.RecordParts.{AreEmpty, whole};

use crate::draft::Draft;
use crate::fault::GroupFault;
use crate::record::Kind;
use crate::record_parts::{RecordHead, RecordParts};
use edi_line::Zone;
use std::alloc::Global;

/// The type that a code names.
pub(crate) fn kind_named(code: &[u8]) -> Option<Kind>
    ensures { result ≡ kind_by code.now }
{
    match code {
        b"PNO" => Some(Kind::Pno),
        b"PAR" => Some(Kind::Par),
        b"PFE" => Some(Kind::Pfe),
        b"FEA" => Some(Kind::Fea),
        b"LNK" => Some(Kind::Lnk),
        _ => None,
    }
}

/// Whether a zone begins the next record or is the end.
fn ends_record(zone: &Zone<'_>) -> bool
    ensures { result ≡ ends_group (entry zone.now) }
{
    matches!(&zone.code, b"RTY" | b"EOM")
}

/// The record that begins with this zone, but for its parts, with how many of the zones behind it are its own; or the
/// least of the rules 201 to 208 that it breaks. Its parts go into the lists.
pub(crate) fn record_of(
    alloc: Global,
    parts: &mut RecordParts,
    head: &Zone<'_>,
    behind: &[Zone<'_>],
) -> Result<(RecordHead, usize), GroupFault>
    requires begins { begins_group (entry head.now) ≡ true }
    requires empty { AreEmpty parts.old }
    ensures states { IfOk result (λ p. ReadsAsRecord (entry head.now ∷ before_end (entries behind.now))
        (whole p.0 parts.new)) }
    ensures shape { IfOk result (λ p. is_in_shape (whole p.0 parts.new) ≡ true) }
    ensures within { IfOk result (λ p. p.1 ≤ length behind.now) }
    ensures left { IfOk result (λ p. groups_of (entries (drop p.1 behind.now)) ≡ groups_of (entries behind.now)) }
    ensures sound { OnOk result
        (first_broken (record_tests (entry head.now ∷ before_end (entries behind.now))) ≡ None) }
    ensures least { IfErr result (IsGroupRefusal (entry head.now ∷ before_end (entries behind.now))) }
{
    let Some(kind) = kind_named(head.value.as_slice()) else {
        return Err(GroupFault::Broken(201));
    };
    let mut draft = Draft::new(kind);
    let mut own = 0;
    for zone in behind {
        if ends_record(zone) {
            break;
        }
        draft.take(alloc, parts, zone)?;
        own += 1;
    }
    Ok((draft.finish(parts)?, own))
}
