//! The records of a file, made while its lines are read.

ghost use Rattle.std.specs.Prelude.{◌≡◌, ℕ, List, [], ◌∷◌, true, Ok, None, IfOk, IfErr, OnOk, ⊤};
ghost use Rattle.edi_line.specs.ZoneData.{ZoneData, entry};
ghost use Rattle.edi_line.specs.Zones.{begins_group};
ghost use Rattle.edi_line.specs.FileBytes.{file_bytes};
ghost use Rattle.edi_line.specs.LineRules.{BreaksLineRule, IsZonesOf};
ghost use Rattle.edi_line.specs.Refusal.{IsUnbroken};
ghost use Rattle.edi_record.specs.RecordRefusal.{IsSheetRefusal};
ghost use Rattle.edi_record.specs.RecordRules.{BreaksRecordRule};
ghost use Rattle.edi_record.specs.Records.{StatesSheet};
ghost use Rattle.edi_record.specs.Observers.{SawAll};
ghost use Rattle.edi_line.specs.Groups.{IsOneRecord};
ghost use Rattle.edi_record.specs.inner.Lists.{HoldsRecords, IsComingOf, IsFinished};
ghost use Rattle.edi_record.specs.inner.RecordParts.{AreEmpty};
ghost use Rattle.edi_record.specs.inner.RecordRefusal.{IsGroupRefusal};
ghost use Rattle.edi_record.specs.declared.list.Coming.TheVariants.{Nothing};
ghost use Rattle.edi_record.specs.declared.record_parts.RecordParts.{RecordParts as Parts};

use crate::draft::Draft;
use crate::fault::{GroupFault, RecordFault, SheetFault};
use crate::record_parts::{RecordHead, RecordParts};
use crate::sheet::Sheet;
use crate::sheet_records::SheetRecords;
use crate::stating::kind_named;
use edi_line::{FileBytes, GroupOut, Zone, read_groups_from};
use std::alloc::{AllocError, Global};
use std::borrow::CowSlice;

/// What is stored of the record that is coming: nothing where none is, or where an earlier one breaks a rule.
#[derive(Drop)]
enum Coming {
    Nothing,
    WithoutKind,
    Stored(Draft),
}

/// The records of the zones that have come, until one breaks a rule or lacks memory, which is then the fault: the lines
/// are still gone through, since a broken rule of lines comes first.
#[derive(Drop)]
struct RecordsUntilFault {
    list: SheetRecords,
    fault: Option<RecordFault>,
    coming: Coming,
    /// The parts of the record that is coming.
    parts: RecordParts,
}

impl RecordsUntilFault {
    /// No zones have come.
    fn new(alloc: Global) -> RecordsUntilFault
        ensures { HoldsRecords [] [] result }
    {
        RecordsUntilFault {
            list: SheetRecords::new(alloc),
            fault: None,
            coming: Coming::Nothing,
            parts: RecordParts::new(alloc),
        }
    }
}

/// What is stored of a record that begins, before it has parts.
fn coming_of(head: &Zone<'_>) -> Coming
    requires { begins_group (entry head.now) ≡ true }
    ensures { (parts : Parts) → AreEmpty parts → IsComingOf result parts (entry head.now ∷ []) }
{
    match kind_named(head.value.as_slice()) {
        Some(kind) => Coming::Stored(Draft::new(kind)),
        None => Coming::WithoutKind,
    }
}

/// The record that was coming, but for its parts, if one was; or the least of the rules 201 to 208 that it breaks.
fn finish(coming: &mut Coming, parts: &mut RecordParts) -> Result<Option<RecordHead>, GroupFault>
    ensures nothing { coming.old ≡ Nothing → result ≡ Ok None }
    ensures states { IfOk result (λ made. IsFinished coming.old parts.old made parts.new) }
    ensures least { IfErr result (λ fault. (group : List ZoneData) → IsOneRecord group
        → IsComingOf coming.old parts.old group → IsGroupRefusal group fault) }
{
    match coming {
        Coming::Nothing => Ok(None),
        Coming::WithoutKind => Err(GroupFault::Broken(201)),
        Coming::Stored(draft) => Ok(Some(draft.finish(parts)?)),
    }
}

impl GroupOut for RecordsUntilFault {
    ghost Holds = { λ records groups group. HoldsRecords groups group records };

    fn begin(&mut self, alloc: Global, head: &Zone<'_>) -> Result<(), AllocError> {
        if self.fault.is_some() {
            return Ok(());
        }
        self.parts.clear(alloc);
        self.coming = coming_of(head);
        Ok(())
    }

    fn take(&mut self, alloc: Global, zone: &Zone<'_>) -> Result<(), AllocError> {
        if let Coming::Stored(draft) = &mut self.coming {
            draft.take(alloc, &mut self.parts, zone)?;
        }
        Ok(())
    }

    fn end(&mut self, _alloc: Global) -> Result<(), AllocError> {
        let made = finish(&mut self.coming, &mut self.parts);
        self.coming = Coming::Nothing;
        match made {
            Ok(None) => {}
            Ok(Some(record)) => self.list.push(record, &mut self.parts)?,
            Err(fault) => self.fault = Some(fault.at(self.list.len() as u64 + 1)),
        }
        Ok(())
    }
}

/// A list of records, and what is given the same zones.
#[derive(Drop)]
struct RecordsAndOther<O> {
    records: RecordsUntilFault,
    other: O,
}

impl<O: GroupOut> GroupOut for RecordsAndOther<O> {
    ghost Holds = { λ both groups group. HoldsRecords groups group both.records × O.Holds both.other groups group };

    fn begin(&mut self, alloc: Global, head: &Zone<'_>) -> Result<(), AllocError> {
        self.records.begin(alloc, head)?;
        self.other.begin(alloc, head)?;
        Ok(())
    }

    fn take(&mut self, alloc: Global, zone: &Zone<'_>) -> Result<(), AllocError> {
        self.records.take(alloc, zone)?;
        self.other.take(alloc, zone)?;
        Ok(())
    }

    fn end(&mut self, alloc: Global) -> Result<(), AllocError> {
        self.records.end(alloc)?;
        self.other.end(alloc)?;
        Ok(())
    }
}

/// Takes zones, and keeps nothing of them.
#[derive(Drop)]
pub struct NoObserver;

impl GroupOut for NoObserver {
    ghost Holds = { λ nothing groups group. ⊤ };

    fn begin(&mut self, _alloc: Global, _head: &Zone<'_>) -> Result<(), AllocError> {
        Ok(())
    }

    fn take(&mut self, _alloc: Global, _zone: &Zone<'_>) -> Result<(), AllocError> {
        Ok(())
    }

    fn end(&mut self, _alloc: Global) -> Result<(), AllocError> {
        Ok(())
    }
}

/// The records that a file states, in their order, with its character set; or why it states none: the first broken
/// rule of lines (101 to 110) with its line, or else of records (201 to 208) with its record, both counted from 1
/// (docs/FORMAT.md, "The order of the rules").
///
/// It answers as `zones` and then `records` do, and no more than a few zones are in memory at a time.
pub fn read_sheet(alloc: Global, bytes: &[u8]) -> Result<Sheet, SheetFault>
    ensures sheet { IfOk result (λ sheet. (zones : List ZoneData) × IsZonesOf bytes.now zones × StatesSheet zones sheet) }
    ensures lines { OnOk result (IsUnbroken (BreaksLineRule bytes.now)) }
    ensures records { OnOk result ((zones : List ZoneData) → IsZonesOf bytes.now zones
        → IsUnbroken (BreaksRecordRule zones)) }
    ensures refusal { IfErr result (IsSheetRefusal bytes.now) }
{
    let (sheet, _) = read_sheet_with(alloc, bytes, NoObserver)?;
    Ok(sheet)
}

/// What `read_sheet` gives, and the observer, which is new and sees the zones of each record in the same pass.
pub fn read_sheet_with<O: GroupOut + Drop>(
    alloc: Global,
    bytes: &[u8],
    other: O,
) -> Result<(Sheet, O), SheetFault>
    requires none_taken { O.Holds other [] [] }
    ensures sheet { IfOk result (λ read. (zones : List ZoneData) × IsZonesOf bytes.now zones × StatesSheet zones read.0) }
    ensures other { IfOk result (λ read. SawAll bytes.now (O.Holds read.1)) }
    ensures lines { OnOk result (IsUnbroken (BreaksLineRule bytes.now)) }
    ensures records { OnOk result ((zones : List ZoneData) → IsZonesOf bytes.now zones
        → IsUnbroken (BreaksRecordRule zones)) }
    ensures refusal { IfErr result (IsSheetRefusal bytes.now) }
{
    read_sheet_from(alloc, FileBytes::Whole(CowSlice::Borrowed(bytes)), other)
}

/// What `read_sheet_with` gives of a file that is freed as it is read: at once at the end of its lines, or piece by
/// piece.
pub fn read_sheet_from<O: GroupOut + Drop>(
    alloc: Global,
    file: FileBytes<'_>,
    other: O,
) -> Result<(Sheet, O), SheetFault>
    requires none_taken { O.Holds other [] [] }
    ensures sheet { IfOk result (λ read. (zones : List ZoneData) × IsZonesOf (file_bytes file.entry) zones
        × StatesSheet zones read.0) }
    ensures other { IfOk result (λ read. SawAll (file_bytes file.entry) (O.Holds read.1)) }
    ensures lines { OnOk result (IsUnbroken (BreaksLineRule (file_bytes file.entry))) }
    ensures records { OnOk result ((zones : List ZoneData) → IsZonesOf (file_bytes file.entry) zones
        → IsUnbroken (BreaksRecordRule zones)) }
    ensures refusal { IfErr result (IsSheetRefusal (file_bytes file.entry)) }
{
    let mut both = RecordsAndOther {
        records: RecordsUntilFault::new(alloc),
        other,
    };
    let cse = read_groups_from(alloc, file, &mut both)?;
    let RecordsAndOther { records, other } = both;
    let RecordsUntilFault { list, fault, .. } = records;
    match fault {
        Some(fault) => Err(SheetFault::Record(fault)),
        None => {
            let sheet = Sheet { cse, list };
            Ok((sheet, other))
        }
    }
}
