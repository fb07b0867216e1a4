//! The delivery that a THF file states.

ghost use Rattle.std.specs.Prelude.{◌≡◌, ℕ, List, [], ◌∷◌, ◌++◌, IfOk, OnOk, IfErr};
ghost use Rattle.edi_line.specs.ZoneData.{ZoneData, entries};
ghost use Rattle.edi_line.specs.Refusal.{IsUnbroken};
ghost use Rattle.edi_line.specs.Zones.{groups_of};
ghost use Rattle.edi_hash.specs.Keys.{keyed_by};
ghost use Rattle.edi_record.specs.RecordRefusal.{IsRecordRefusal};
ghost use Rattle.edi_delivery.specs.Lots.{has_type as group_has_type, StatesLots};
ghost use Rattle.edi_delivery.specs.DeliveryRules.{BreaksDeliveryRule};
ghost use Rattle.edi_delivery.specs.inner.Steps.{IfRule};
ghost use Rattle.edi_delivery.specs.inner.Noted.{HasNoted};
ghost use Rattle.edi_delivery.specs.inner.Taken.{AreTakenLots, IsLeastHere};

use crate::draft::lot_of;
use crate::fault::{DeliveryFault, LotFault};
use crate::lot::Lot;
use crate::lots::LotsSoFar;
use edi_hash::{KeyNames, NameHash};
use edi_line::codes::RTY;
use edi_line::{Sequence, Zone, zones};
use edi_record::{RecordFault, first_value, group_here};
use std::alloc::Global;
use std::marker::Model;

/// The lots of a delivery, in the order of its THF file.
pub struct Delivery {
    lots: Sequence<Lot>,
}

impl Drop for Delivery {
    fn drop(self) {
        let Delivery { lots: _ } = self;
    }
}

impl Model for Delivery {
    ghost use Rattle.std.specs.Prelude.{List};
    ghost use Rattle.edi_delivery.specs.declared.lot.Lot.{Lot};

    ghost Value = { List Lot };

    ghost view = { λ d. d.lots };
}

/// Whether a record has this type.
fn has_type(group: &[Zone<'_>], code: &[u8]) -> bool
    ensures { result ≡ group_has_type code.now (entries group.now) }
{
    first_value(group, RTY).unwrap_or(&[]) == code
}

/// Takes the next record, which is the support or a lot, or says which is the least rule that it breaks.
fn take_record(alloc: Global, lots: &mut LotsSoFar, group: &[Zone<'_>]) -> Result<(), LotFault>
    requires { HasNoted lots.old }
    ensures noted { OnOk result (HasNoted lots.new) }
    ensures taken { OnOk result ((before : List (List ZoneData)) → AreTakenLots before lots.old.lots.items
        → AreTakenLots (before ++ entries group.now ∷ []) lots.new.lots.items) }
    ensures least { IfErr result (IfRule (λ rule. (before : List (List ZoneData)) → AreTakenLots before lots.old.lots.items
        → IsLeastHere before (entries group.now) rule)) }
{
    if has_type(group, b"GTS") {
        return Ok(());
    }
    if !has_type(group, b"GTL") {
        return Err(LotFault::Broken(701));
    }
    let lot = lot_of(alloc, group)?;
    lots.take(alloc, lot)
}

/// The lots that the records of a file state, or the first record that breaks one of the rules 701 to 710 and the least
/// that it breaks, or rule 711.
fn lots_of(alloc: Global, hash: NameHash, zones: &[Zone<'_>]) -> Result<Vec<Lot>, RecordFault>
    ensures states { IfOk result (λ lots. StatesLots (groups_of (entries zones.now)) lots.items) }
    ensures sound { OnOk result (IsUnbroken (BreaksDeliveryRule (groups_of (entries zones.now)))) }
    ensures least { IfErr result (IsRecordRefusal (BreaksDeliveryRule (groups_of (entries zones.now)))) }
{
    let mut lots = LotsSoFar::new(alloc, hash);
    let mut at = 0;
    let mut rest = zones;
    while let [_, after @ ..] = rest {
        if let Some(group) = group_here(rest) {
            at += 1;
            if let Err(fault) = take_record(alloc, &mut lots, group) {
                return Err(fault.at(at));
            }
        }
        rest = after;
    }
    let lots = lots.into_lots();
    if lots.is_empty() {
        return Err(RecordFault::Broken {
            rule: 711,
            at: at + 1,
        });
    }
    Ok(lots)
}

/// The hash for the names in a file. Its key is a digest of the whole file.
fn hash_of(bytes: &[u8]) -> NameHash
    ensures { result ≡ keyed_by (bytes.now ∷ []) }
{
    let mut names = KeyNames::new();
    names.add(bytes);
    names.hash()
}

impl Delivery {
    ghost use Rattle.edi_delivery.specs.DeliveryRefusal.{IsDeliveryOf, IsDeliveryRefusal};

    /// The delivery that a THF file states.
    ///
    /// The first broken rule is reported: 101 to 110 by the least line; then 701 to 711 by the least record from 1, and
    /// there the least rule (docs/FORMAT.md, "Deliveries"). `Memory` comes at any step and says nothing of the file.
    pub fn read(alloc: Global, bytes: &[u8]) -> Result<Delivery, DeliveryFault>
        ensures delivery { IfOk result (IsDeliveryOf bytes.now) }
        ensures refusal { IfErr result (IsDeliveryRefusal bytes.now) }
    {
        let zones = zones(alloc, bytes)?;
        let lots = lots_of(alloc, hash_of(bytes), &zones)?;
        Ok(Delivery {
            lots: Sequence::from_vec(lots),
        })
    }

    /// Its lots.
    pub fn lots(&self) -> &[Lot]
        ensures { result.now ≡ self.now }
    {
        self.lots.as_slice()
    }
}
