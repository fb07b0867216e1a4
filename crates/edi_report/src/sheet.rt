//! Accepted sheets, with where their records stand.

ghost use Rattle.std.specs.Prelude.{◌≡◌, IfErr, IfOk, OnOk};
ghost use Rattle.edi_line.specs.FileBytes.{file_bytes};
ghost use Rattle.edi_plan.specs.Agreeing.{HasClasses};
ghost use Rattle.edi_compare.specs.PlanOfFile.{IsPlanOfFile};
ghost use Rattle.edi_compare.specs.Refused.{IsPairRefusal, IsRefusal};
ghost use Rattle.edi_compare.specs.Rules.{IsAccepted};
ghost use Rattle.edi_plan.specs.Places.{places_of};
ghost use Rattle.edi_plan.specs.Plans.{IsPlace};
ghost use Rattle.edi_report.specs.Located.{IsLocatedSheet};
ghost use Rattle.edi_report.specs.Reports.{HasSites, site_at};
ghost use Rattle.edi_report.specs.Sites.{AreSitesOf};
ghost use Rattle.edi_report.specs.inner.Sheets.{IsPackedSheet, IsUnpacked};

use crate::packed::PackedSites;
use crate::site::Site;
use edi_compare::{
    Accepted, CompareFault, Fault, accept_with, refusal_of_first, refusal_of_second,
};
use edi_line::{FileBytes, Sequence};
use edi_plan::Plan;
use edi_record::Kind;
use edi_schema::Schema;
use std::alloc::{AllocError, Global};

/// An accepted sheet, with where its records stand in their file.
pub struct LocatedSheet {
    pub accepted: Accepted,
    /// The site of each record, in file order.
    pub sites: Sequence<Site>,
}

impl Drop for LocatedSheet {
    /// Written out, so that whoever lets a sheet go makes one call, and not one for each list that a plan is made of.
    fn drop(self) {
        let LocatedSheet {
            accepted: _,
            sites: _,
        } = self;
    }
}

impl LocatedSheet {
    /// Its plan.
    pub fn plan(&self) -> &Plan
        ensures { result.now ≡ self.now.accepted }
    {
        self.accepted.sound().plan()
    }

    /// The places of the records of a type, in file order.
    pub fn places(&self, kind: Kind) -> &[u32]
        ensures { result.now ≡ places_of kind self.now.accepted }
    {
        self.plan().places(kind)
    }

    /// Where a record stands.
    pub fn site(&self, place: u32) -> &Site
        requires all { HasSites self.now }
        requires place { IsPlace self.now.accepted place }
        ensures { result.now ≡ site_at self.now place }
    {
        &self.sites.as_slice()[place as usize]
    }
}

/// The sheet of a file, with its sites, or the refusal. The file is freed, if it is owned, as soon as its sites and
/// its records are read: its bytes are not in memory beside the plan.
pub fn locate_from(
    alloc: Global,
    schema: &Schema,
    bytes: FileBytes<'_>,
) -> Result<LocatedSheet, Fault>
    ensures accepted { OnOk result (IsAccepted schema.now (file_bytes bytes.entry)) }
    ensures plan { IfOk result (λ sheet. IsPlanOfFile schema.now (file_bytes bytes.entry) sheet.accepted) }
    ensures classes { IfOk result (λ sheet. HasClasses schema.now sheet.accepted) }
    ensures sites { IfOk result (λ sheet. AreSitesOf (file_bytes bytes.entry) sheet.sites) }
    ensures all { IfOk result HasSites }
    ensures refusal { IfErr result (IsRefusal schema.now (file_bytes bytes.entry)) }
{
    let packed = locate_packed(alloc, schema, bytes)?;
    match packed.unpack(alloc) {
        Ok(sheet) => Ok(sheet),
        Err(error) => Err(Fault::Memory(error)),
    }
}

/// An accepted sheet, with where its records stand in their file, packed.
struct PackedSheet {
    accepted: Accepted,
    sites: PackedSites,
}

impl Drop for PackedSheet {
    /// Written out for the same reason as that of a `LocatedSheet`.
    fn drop(self) {
        let PackedSheet {
            accepted: _,
            sites: _,
        } = self;
    }
}

impl PackedSheet {
    /// The sheet with its sites as a list.
    fn unpack(self, alloc: Global) -> Result<LocatedSheet, AllocError>
        ensures { IfOk result (IsUnpacked self) }
    {
        let count = self.accepted.sound().plan().len();
        let sites = self.sites.unpack(alloc, count as usize)?;
        let PackedSheet { accepted, sites: _ } = self;
        Ok(LocatedSheet {
            accepted,
            sites: Sequence::from_vec(sites),
        })
    }
}

/// What `locate_from` gives, with the sites still packed, as a sheet is held while another is read.
fn locate_packed(alloc: Global, schema: &Schema, bytes: FileBytes<'_>) -> Result<PackedSheet, Fault>
    ensures packed { IfOk result (IsPackedSheet schema.now (file_bytes bytes.entry)) }
    ensures refusal { IfErr result (IsRefusal schema.now (file_bytes bytes.entry)) }
{
    let (accepted, sites) = accept_with(alloc, schema, bytes, PackedSites::new(alloc))?;
    Ok(PackedSheet { accepted, sites })
}

/// What `locate_from` gives of two files, one after the other; or the refusal that `edi_compare::compare` gives of
/// them. Reading takes the most memory, so the sites of both stay packed until both plans stand.
pub fn locate_both(
    alloc: Global,
    schema: &Schema,
    a: FileBytes<'_>,
    b: FileBytes<'_>,
) -> Result<(LocatedSheet, LocatedSheet), CompareFault>
    ensures first { IfOk result (λ both. IsLocatedSheet schema.now (file_bytes a.entry) both.0) }
    ensures second { IfOk result (λ both. IsLocatedSheet schema.now (file_bytes b.entry) both.1) }
    ensures refusal { IfErr result (IsPairRefusal schema.now (file_bytes a.entry) (file_bytes b.entry)) }
{
    let (packed, other) = locate_both_packed(alloc, schema, a, b)?;
    let both = unpack_both(alloc, packed, other)?;
    Ok(both)
}

/// Two sheets with their sites packed, or the refusal of the first, or that of the second.
#[tactic(auto, using(edi_compare::proofs::Refusals::first_fault, edi_compare::proofs::Refusals::second_fault))]
fn locate_both_packed(
    alloc: Global,
    schema: &Schema,
    a: FileBytes<'_>,
    b: FileBytes<'_>,
) -> Result<(PackedSheet, PackedSheet), CompareFault>
    ensures first { IfOk result (λ both. IsPackedSheet schema.now (file_bytes a.entry) both.0) }
    ensures second { IfOk result (λ both. IsPackedSheet schema.now (file_bytes b.entry) both.1) }
    ensures refusal { IfErr result (IsPairRefusal schema.now (file_bytes a.entry) (file_bytes b.entry)) }
{
    let first = match locate_packed(alloc, schema, a) {
        Ok(sheet) => sheet,
        Err(fault) => return Err(refusal_of_first(fault)),
    };
    match locate_packed(alloc, schema, b) {
        Ok(second) => Ok((first, second)),
        Err(fault) => Err(refusal_of_second(fault)),
    }
}

/// Both sheets with their sites as lists.
fn unpack_both(
    alloc: Global,
    first: PackedSheet,
    second: PackedSheet,
) -> Result<(LocatedSheet, LocatedSheet), AllocError>
    ensures first { IfOk result (λ both. IsUnpacked first both.0) }
    ensures second { IfOk result (λ both. IsUnpacked second both.1) }
{
    let first = first.unpack(alloc)?;
    let second = second.unpack(alloc)?;
    Ok((first, second))
}
