//! The records that zones state.

ghost use Rattle.std.specs.Prelude.{◌≡◌, ◌≤◌, ◌<◌, ◌+◌, List, [], ◌∷◌, MatchOption, drop, Bool, ℕ, true, false, codes, length, option_map, IfOk, IfErr, OnOk};
ghost use Rattle.std.specs.List.{AllZip};
ghost use Rattle.edi_line.specs.Bytes.{most_records};
ghost use Rattle.edi_line.specs.ZoneData.{ZoneData, entry, entries};
ghost use Rattle.edi_line.specs.LineRules.{IsZonesOf};
ghost use Rattle.edi_line.specs.Refusal.{IsUnbroken, IsLeastBroken};
ghost use Rattle.edi_line.specs.Zones.{groups_of, charset_of as charset_in};
ghost use Rattle.edi_record.specs.RecordLayout.{Letters, IsRecord, zones_of_record, settled_record, LayoutIsReadAgain, PrintedRecordsAreUnbroken, SheetsArePrintable};
ghost use Rattle.edi_record.specs.Readable.{ReadSheetsArePrintable};
ghost use Rattle.edi_record.specs.RecordRefusal.{IsRecordRefusal};
ghost use Rattle.edi_record.specs.RecordRules.{BreaksRecordRule, LacksKind, is_identifier, has_no_identifier, LacksClass};
ghost use Rattle.edi_record.specs.Records.{States, StatesSheet, IsValueOf};
ghost use Rattle.edi_record.specs.Rows.{line, one_node, the_node, node_group};
ghost use Rattle.edi_record.specs.inner.Shapes.{AreInShape};
ghost use Rattle.edi_record.specs.Sound.{PrintedSheetsAreSound};
ghost use Rattle.edi_record.specs.Whole.{ReadSheetsAreWhole};
ghost use Rattle.edi_record.specs.inner.RecordRules.{FailsTest};
ghost use Rattle.edi_record.specs.inner.Records.{ReadsAsRecord};
ghost use Rattle.edi_record.specs.declared.record.Record.{Record};
ghost use Rattle.edi_record.specs.declared.record.Value.{Value};

use crate::fault::RecordFault;
use crate::groups::first_value;
use crate::record_parts::RecordParts;
use crate::sheet::Sheet;
use crate::sheet_records::SheetRecords;
use crate::stating::record_of;
use edi_line::codes::{CSE, RTY};
use edi_line::{Text, Zone};
use std::alloc::{AllocError, Global};

/// The value of the first CSE, or none.
fn charset_of(alloc: Global, zones: &[Zone<'_>]) -> Result<Option<Text>, AllocError>
    ensures { IfOk result (λ cse. cse ≡ option_map (λ e. e.value) (charset_in (entries zones.now))) }
{
    match first_value(zones, CSE) {
        Some(text) => Ok(Some(Text::from_slice(alloc, text)?)),
        None => Ok(None),
    }
}

/// The zone at this place and the zones behind it.
fn zone_at<'a, 'b>(zones: &'b [Zone<'a>], at: usize) -> Option<(&'b Zone<'a>, &'b [Zone<'a>])>
    requires { at ≤ length zones.now }
    ensures { MatchOption result (length zones.now ≤ at)
        (λ p. (at < length zones.now) × (entries (drop at zones.now) ≡ entry p.0.now ∷ entries p.1.now)
        × (p.1.now ≡ drop (at + 1) zones.now)) }
{
    let (_, rest) = zones.split_at(at);
    match rest {
        [zone, behind @ ..] => Some((zone, behind)),
        [] => None,
    }
}

/// The records that the groups of zones state, or the first that breaks a rule and the least rule
/// that it breaks.
fn list_of(alloc: Global, zones: &[Zone<'_>]) -> Result<SheetRecords, RecordFault>
    requires few { length (groups_of (entries zones.now)) ≤ most_records }
    ensures states { IfOk result (λ v. AllZip ReadsAsRecord (groups_of (entries zones.now)) v) }
    ensures few { IfOk result (λ v. length v ≤ most_records) }
    ensures shape { IfOk result (λ v. AreInShape v) }
    ensures sound { OnOk result (IsUnbroken (FailsTest (entries zones.now))) }
    ensures least { IfErr result (IsRecordRefusal (FailsTest (entries zones.now))) }
{
    let mut list = SheetRecords::new(alloc);
    let mut parts = RecordParts::new(alloc);
    let mut at = 0;
    while let Some((zone, behind)) = zone_at(zones, at) {
        at += 1;
        if zone.code == RTY {
            parts.clear(alloc);
            match record_of(alloc, &mut parts, zone, behind) {
                Ok((record, own)) => {
                    list.push(record, &mut parts)?;
                    at += own;
                }
                Err(fault) => return Err(fault.at(list.len() as u64 + 1)),
            }
        }
    }
    Ok(list)
}

/// The records that the zones of a file state, in their order, with the value of its first CSE; or
/// the first record that breaks one of the rules 201 to 208, and the least rule that it breaks.
pub fn records(alloc: Global, zones: &[Zone<'_>]) -> Result<Sheet, RecordFault>
    requires few { length (groups_of (entries zones.now)) ≤ most_records }
    ensures states { IfOk result (StatesSheet (entries zones.now)) }
    ensures sound { OnOk result (IsUnbroken (BreaksRecordRule (entries zones.now))) }
    ensures least { IfErr result (IsRecordRefusal (BreaksRecordRule (entries zones.now))) }
{
    let list = list_of(alloc, zones)?;
    Ok(Sheet {
        cse: charset_of(alloc, zones)?,
        list,
    })
}

/// A group of zones states one record at most.
pub fn records_are_unique()
    ensures { (group : List ZoneData) (r q : Record) → States group r → States group q → r ≡ q }
{}

/// The zones of a record state it, with its ends and values as they are written.
pub fn records_are_read_again()
    ensures record { (s : Letters) (r : Record) → IsRecord r → States (zones_of_record s r) (settled_record s r) }
    ensures sheet { LayoutIsReadAgain }
{}

/// A sheet whose texts are each one line can be printed.
pub fn sheets_are_printable()
    ensures { SheetsArePrintable }
{}

/// What was read from a file that breaks no rule can be printed and read again.
pub fn read_sheets_are_printable()
    ensures { ReadSheetsArePrintable }
{}

/// What was read from a file that breaks no rule has no more records than a file may have, each with the points and the
/// ends of its type.
pub fn read_sheets_are_whole()
    ensures { ReadSheetsAreWhole }
{}

/// What is printed of such a sheet breaks no rule of lines and of records.
pub fn printed_sheets_are_sound()
    ensures { PrintedSheetsAreSound }
{}

/// The zones of a record that was read break no rule of records.
pub fn printed_records_break_no_rule()
    ensures { PrintedRecordsAreUnbroken }
{}

/// Known files state what they should.
pub fn known_files_are_read()
    ensures zones { (zones : List ZoneData) × IsZonesOf (one_node []) zones × (groups_of zones ≡ node_group ∷ [])
        × IsUnbroken (BreaksRecordRule zones) }
    ensures node { States node_group the_node }
    ensures wrong_count { (zones : List ZoneData) × IsZonesOf (one_node (line (codes "ATCSN01:1") [])) zones
        × IsLeastBroken (BreaksRecordRule zones) 205 1 }
    ensures unknown_pointer { (zones : List ZoneData)
        × IsZonesOf (one_node (line (codes "REFCP22:EDAB01;SeT1;PNO;Noeud_") [])) zones
        × IsLeastBroken (BreaksRecordRule zones) 208 1 }
    ensures empty_pointer { (zones : List ZoneData) × IsZonesOf (one_node (line (codes "REFCP00:") [])) zones
        × IsUnbroken (BreaksRecordRule zones) }
{}

/// A group of zones that states a record breaks no rule on its type, its identifier or its class;
/// and a text has one value.
pub fn stated_records_have_names()
    ensures kind { (group : List ZoneData) (r : Record) → States group r → ¬ (LacksKind group) }
    ensures identifier { (group : List ZoneData) (r : Record) → States group r → is_identifier r.rid ≡ true
        → has_no_identifier group ≡ false }
    ensures class { (group : List ZoneData) (r : Record) → States group r → ¬ (LacksClass group) }
    ensures value { (may : Bool) (text : List ℕ) → (value : Value) × IsValueOf (may ≡ true) text value }
    ensures one_value { (may : Bool) (text : List ℕ) (value other : Value) → IsValueOf (may ≡ true) text value
        → IsValueOf (may ≡ true) text other → value ≡ other }
{}
