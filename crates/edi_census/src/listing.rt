//! The lines of all that a sheet breaks.

ghost use Rattle.std.specs.Prelude.{◌≡◌, ◌++◌, ◌≤◌, [], List, ℕ, IfOk, OnOk, option_copied};
ghost use Rattle.edi_line.specs.ZoneData.{ZoneData};
ghost use Rattle.edi_line.specs.Zones.{groups_of};
ghost use Rattle.edi_compare.specs.Rules.{Breaks};
ghost use Rattle.edi_explain.specs.Sites.{AreAllSites, IsSiteIfAny};
ghost use Rattle.edi_line.specs.AllBroken.{AreAllBroken};
ghost use Rattle.edi_census.specs.Listed.{IsBrokenLine, ListsBroken};
ghost use Rattle.edi_census.specs.inner.Sited.{AreSitesOfFile, HasSitesFor};

use edi_explain::{RecordSite, push_line_rule, push_record_rule, sites_of_all};
use edi_line::BrokenRule;
use edi_schema::Schema;
use std::alloc::{AllocError, Global};

// The first rule that is none of lines.
const FIRST_OF_RECORDS: u16 = 200;

/// The site of the record with a number, from 1.
fn site_at(sites: &[RecordSite], number: u64) -> Option<&RecordSite>
    ensures { (zones : List ZoneData) → AreAllSites (groups_of zones) sites.now
        → IsSiteIfAny zones number (option_copied result) }
{
    let place = number.checked_sub(1)?;
    sites.get(place as usize)
}

/// Appends the line of a rule that a record breaks, by the sites of all records.
fn push_at_record(
    text: &mut Vec<u8>,
    name: &[u8],
    sites: &[RecordSite],
    it: BrokenRule,
) -> Result<(), AllocError>
    requires { 200 ≤ it.rule }
    ensures { OnOk result ((b : List ℕ) → AreSitesOfFile b sites.now → (line : List ℕ)
        × IsBrokenLine b name.now it line × (text.new.items ≡ text.old.items ++ line)) }
{
    match site_at(sites, it.at) {
        Some(site) => push_record_rule(text, name, site, it.rule),
        None => Ok(()),
    }
}

/// Appends the line of a rule that is broken at a place.
fn push_rule(
    text: &mut Vec<u8>,
    name: &[u8],
    sites: &[RecordSite],
    it: BrokenRule,
) -> Result<(), AllocError>
    ensures { OnOk result ((b : List ℕ) → (200 ≤ it.rule → AreSitesOfFile b sites.now) → (line : List ℕ)
        × IsBrokenLine b name.now it line × (text.new.items ≡ text.old.items ++ line)) }
{
    if it.rule < FIRST_OF_RECORDS {
        push_line_rule(text, name, it.at, it.rule)
    } else {
        push_at_record(text, name, sites, it)
    }
}

/// The lines of rules that are broken, by the sites of all records.
fn lines_by_sites(
    alloc: Global,
    name: &[u8],
    sites: &[RecordSite],
    broken: &[BrokenRule],
) -> Result<Vec<u8>, AllocError>
    ensures { IfOk result (λ text. (b : List ℕ) → HasSitesFor b broken.now sites.now
        → ListsBroken b name.now broken.now text.items) }
{
    let mut text = Vec::new(alloc);
    for it in broken {
        push_rule(&mut text, name, sites, *it)?;
    }
    Ok(text)
}

/// Where the records of a sheet stand, if it breaks rules of records.
fn sites_for(
    alloc: Global,
    schema: &Schema,
    bytes: &[u8],
    broken: &[BrokenRule],
) -> Result<Vec<RecordSite>, AllocError>
    requires { AreAllBroken (Breaks schema.now bytes.now) broken.now }
    ensures { IfOk result (λ sites. HasSitesFor bytes.now broken.now sites.items) }
{
    let _ = schema;
    match broken.first() {
        Some(it) if it.rule >= FIRST_OF_RECORDS => sites_of_all(alloc, bytes),
        _ => Ok(Vec::new(alloc)),
    }
}

/// The lines of all that a sheet breaks, by the name of its file: for each place and rule the line of the file's line
/// or record, with the sentence of the rule, as `explain_sheet` of edi_explain has it.
pub fn list_broken(
    alloc: Global,
    schema: &Schema,
    bytes: &[u8],
    name: &[u8],
    broken: &[BrokenRule],
) -> Result<Vec<u8>, AllocError>
    requires { AreAllBroken (Breaks schema.now bytes.now) broken.now }
    ensures { IfOk result (λ text. ListsBroken bytes.now name.now broken.now text.items) }
{
    let sites = sites_for(alloc, schema, bytes, broken)?;
    lines_by_sites(alloc, name, &sites, broken)
}
