//! The record that a refusal names, and the earlier one that its rule speaks of.

ghost use Rattle.std.specs.Prelude.{◌≡◌, ◌⊎◌, ℕ, List, Option, IfOk};
ghost use Rattle.edi_line.specs.ZoneData.{ZoneData, entries};
ghost use Rattle.edi_line.specs.LineRules.{IsZonesOf};
ghost use Rattle.edi_record.specs.Records.{SheetData};
ghost use Rattle.edi_compare.specs.PlanOfFile.{IsSheetOf};
ghost use Rattle.edi_schema.specs.Classes.{Classes};
ghost use Rattle.edi_explain.specs.Refusals.{AreSites, IsEarlierIfAny, IsEarlierRowIfAny};
ghost use Rattle.edi_explain.specs.inner.Found.{AreFound};

use crate::rows::{first_link, row_namesake};
use crate::site::{RecordSite, record_at, site_if_found};
use edi_line::Zone;
use std::alloc::{AllocError, Global};

/// Where the record of a refusal stands, and the earlier record that its rule speaks of.
#[derive(Drop)]
pub struct RefusalSites {
    pub here: Option<RecordSite>,
    pub earlier: Option<RecordSite>,
}

/// The zones of a refused record and of the earlier one that its rule speaks of, of each that the file has.
#[derive(Drop)]
pub(crate) struct FoundRecords<'a, 'b> {
    pub(crate) here: Option<&'b [Zone<'a>]>,
    pub(crate) earlier: Option<&'b [Zone<'a>]>,
}

/// The earlier record that a rule of references speaks of among the zones of a sheet: by its name, or by its subset.
pub(crate) fn earlier_in_zones(zones: &[Zone<'_>], rule: u16, place: u64) -> Option<u64>
    requires { (rule ≡ 301) ⊎ (rule ≡ 304) }
    ensures { (s : Classes) (b : List ℕ) (sheet : SheetData) → IsZonesOf b (entries zones.now) → IsSheetOf b sheet
        → IsEarlierIfAny s b rule place result }
{
    if rule == 301 {
        row_namesake(zones, place)
    } else {
        first_link(zones, place)
    }
}

/// The zones of the record with a number and of the one at an earlier place, of each that there is.
pub(crate) fn records_in<'a, 'b>(
    zones: &'b [Zone<'a>],
    number: u64,
    earlier: Option<u64>,
) -> FoundRecords<'a, 'b>
    ensures { AreFound (entries zones.now) number earlier result }
{
    FoundRecords {
        here: record_at(zones, number.checked_sub(1)),
        earlier: record_at(zones, earlier),
    }
}

/// Where a refused record and the earlier one begin.
pub(crate) fn sites_of_records(
    alloc: Global,
    records: &FoundRecords<'_, '_>,
) -> Result<RefusalSites, AllocError>
    ensures { IfOk result (λ sites. (zones : List ZoneData) (number : ℕ) (earlier : Option ℕ)
        → AreFound zones number earlier records.now → AreSites zones number earlier sites) }
{
    Ok(RefusalSites {
        here: site_if_found(alloc, records.here)?,
        earlier: site_if_found(alloc, records.earlier)?,
    })
}

/// The sites of the record with a number and of the one at an earlier place, if there is one.
pub(crate) fn sites_of(
    alloc: Global,
    zones: &[Zone<'_>],
    number: u64,
    earlier: Option<u64>,
) -> Result<RefusalSites, AllocError>
    ensures { IfOk result (AreSites (entries zones.now) number earlier) }
{
    sites_of_records(alloc, &records_in(zones, number, earlier))
}

/// The place of the earlier record of a schema's file that rule 602 speaks of.
pub(crate) fn earlier_row(zones: &[Zone<'_>], rule: u16, place: u64) -> Option<u64>
    ensures { IsEarlierRowIfAny (entries zones.now) rule place result }
{
    if rule == 602 {
        row_namesake(zones, place)
    } else {
        None
    }
}
