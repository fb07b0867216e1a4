//! All rules that the records of a file break.

ghost use Rattle.std.specs.Prelude.{◌≡◌, ◌∷◌, [], ◌++◌, List, IfOk, IfErr, OnOk};
ghost use Rattle.edi_line.specs.AllBroken.{AreAllBroken};
ghost use Rattle.edi_line.specs.ZoneData.{ZoneData, entry, entries};
ghost use Rattle.edi_line.specs.FileBytes.{file_bytes};
ghost use Rattle.edi_line.specs.LineRules.{BreaksLineRule, IsZonesOf};
ghost use Rattle.edi_line.specs.Refusal.{IsUnbroken, IsLineRefusal};
ghost use Rattle.edi_line.specs.inner.AllBroken.{with_broken};
ghost use Rattle.edi_record.specs.RecordRules.{BreaksRecordRule};
ghost use Rattle.edi_record.specs.inner.AllBroken.{HoldsGroups};
ghost use Rattle.edi_record.specs.inner.RecordRules.{record_tests};

use crate::group_rules::{
    has_bad_attribute, has_bad_end, has_bad_point, has_unknown_pointer, has_wrong_count,
    lacks_class, lacks_kind,
};
use crate::groups::lacks_identifier;
use edi_line::{
    BrokenRule, FileBytes, GroupOut, LineFault, Zone, push_if_broken, read_groups_from,
};
use std::alloc::{AllocError, Global};

/// Puts each of the rules 201 to 208 behind others that the zones of a record break, the least first.
fn push_broken(list: &mut Vec<BrokenRule>, group: &[Zone<'_>], at: u64) -> Result<(), AllocError>
    ensures { OnOk result (list.new.items ≡ with_broken list.old.items at (record_tests (entries group.now))) }
{
    push_if_broken(list, lacks_kind(group), 201, at)?;
    push_if_broken(list, lacks_identifier(group), 202, at)?;
    push_if_broken(list, lacks_class(group), 203, at)?;
    push_if_broken(list, has_bad_attribute(group), 204, at)?;
    push_if_broken(list, has_wrong_count(group), 205, at)?;
    push_if_broken(list, has_bad_point(group), 206, at)?;
    push_if_broken(list, has_bad_end(group), 207, at)?;
    push_if_broken(list, has_unknown_pointer(group), 208, at)?;
    Ok(())
}

/// How many records have come, each rule that they break, and the zones of the record that is coming: some of these rules
/// are about all of its zones.
#[derive(Drop)]
struct BrokenGroups {
    place: u64,
    list: Vec<BrokenRule>,
    zones: Vec<Zone<'static>>,
}

impl BrokenGroups {
    /// No records have come.
    fn new(alloc: Global) -> BrokenGroups
        ensures groups { HoldsGroups [] result }
        ensures zones { result.zones.items ≡ [] }
    {
        BrokenGroups {
            place: 0,
            list: Vec::new(alloc),
            zones: Vec::new(alloc),
        }
    }

    /// Stores the next zone of the record.
    fn push(&mut self, alloc: Global, zone: &Zone<'_>) -> Result<(), AllocError>
        ensures counted { OnOk result (self.new.place ≡ self.old.place) }
        ensures list { OnOk result (self.new.list ≡ self.old.list) }
        ensures zones { OnOk result (entries self.new.zones.items
            ≡ entries self.old.zones.items ++ entry zone.now ∷ []) }
    {
        self.zones.push(zone.copy(alloc)?)?;
        Ok(())
    }

    /// All zones of the record have come.
    fn take_group(&mut self) -> Result<(), AllocError>
        ensures { OnOk result ((groups : List (List ZoneData)) → HoldsGroups groups self.old
            → HoldsGroups (groups ++ entries self.old.zones.items ∷ []) self.new) }
    {
        self.place = self.place.saturating_add(1);
        push_broken(&mut self.list, &self.zones, self.place)?;
        Ok(())
    }
}

impl GroupOut for BrokenGroups {
    ghost use Rattle.std.specs.Prelude.{◌≡◌};
    ghost use Rattle.edi_line.specs.ZoneData.{entries};
    ghost use Rattle.edi_record.specs.inner.AllBroken.{HoldsGroups};

    ghost Holds = { λ broken groups group. HoldsGroups groups broken × (entries broken.zones.items ≡ group) };

    fn begin(&mut self, alloc: Global, head: &Zone<'_>) -> Result<(), AllocError> {
        self.zones.clear();
        self.push(alloc, head)
    }

    fn take(&mut self, alloc: Global, zone: &Zone<'_>) -> Result<(), AllocError> {
        self.push(alloc, zone)
    }

    fn end(&mut self, _alloc: Global) -> Result<(), AllocError> {
        self.take_group()?;
        self.zones.clear();
        Ok(())
    }
}

/// Each of the rules 201 to 208 that the records of a file break, with the number of its record, from 1, by records and in
/// one record by rules; or the first broken rule of lines. A record of no known type (201) may break 202 to 205 as well,
/// and no other (docs/FORMAT.md, "The order of the rules"). The file is freed as it is read, and the zones of one record
/// alone are in memory at a time.
pub fn broken_records_from(alloc: Global, file: FileBytes<'_>) -> Result<Vec<BrokenRule>, LineFault>
    ensures records { IfOk result (λ list. (zones : List ZoneData) × IsZonesOf (file_bytes file.entry) zones
        × AreAllBroken (BreaksRecordRule zones) list.items) }
    ensures lines { OnOk result (IsUnbroken (BreaksLineRule (file_bytes file.entry))) }
    ensures least { IfErr result (IsLineRefusal (BreaksLineRule (file_bytes file.entry))) }
{
    let mut broken = BrokenGroups::new(alloc);
    read_groups_from(alloc, file, &mut broken)?;
    let BrokenGroups { list, .. } = broken;
    Ok(list)
}
