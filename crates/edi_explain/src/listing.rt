//! The lines of rules that are broken, each by itself, and where the records of a file stand.

ghost use Rattle.std.specs.Prelude.{◌≡◌, ◌++◌, Option, List, IfOk, OnOk};
ghost use Rattle.edi_line.specs.ZoneData.{ZoneData};
ghost use Rattle.edi_line.specs.LineRules.{BreaksLineRule, IsZonesOf};
ghost use Rattle.edi_line.specs.Refusal.{IsUnbroken};
ghost use Rattle.edi_line.specs.Zones.{groups_of};
ghost use Rattle.edi_explain.specs.Lines.{line_line, record_line, sentence_of};
ghost use Rattle.edi_explain.specs.Sites.{AreAllSites};
ghost use Rattle.edi_explain.specs.Texts.{IsRuleText};
ghost use Rattle.edi_explain.specs.declared.text.RuleText.{RuleText as Texts};

use crate::explained::sentence_for;
use crate::lines::{push_broken, push_record};
use crate::site::{RecordSite, titled_site};
use edi_line::{GroupOut, LineFault, Zone, read_groups};
use edi_record::RecordTitle;
use std::alloc::{AllocError, Global};

/// Appends the line of a file's line, counted from 1, with the sentence of the rule of lines that it breaks.
pub fn push_line_rule(
    text: &mut Vec<u8>,
    name: &[u8],
    line: u64,
    rule: u16,
) -> Result<(), AllocError>
    ensures { OnOk result ((told : Option Texts) × IsRuleText rule told
        × (text.new.items ≡ text.old.items ++ line_line name.now line (sentence_of told) rule)) }
{
    push_broken(text, name, line, sentence_for(rule), rule)
}

/// Appends the line of a record, with the sentence of the rule that it breaks.
pub fn push_record_rule(
    text: &mut Vec<u8>,
    name: &[u8],
    site: &RecordSite,
    rule: u16,
) -> Result<(), AllocError>
    ensures { OnOk result ((told : Option Texts) × IsRuleText rule told
        × (text.new.items ≡ text.old.items ++ record_line name.now site.now (sentence_of told) rule)) }
{
    push_record(text, name, site, sentence_for(rule).as_bytes(), rule)
}

/// Where the records stand whose zones have come, and what the one that is coming says of itself.
#[derive(Drop)]
struct SiteList {
    sites: Vec<RecordSite>,
    title: RecordTitle,
}

impl GroupOut for SiteList {
    ghost use Rattle.edi_explain.specs.inner.Sites.{HoldsSites};

    ghost Holds = { HoldsSites };

    fn begin(&mut self, _alloc: Global, head: &Zone<'_>) -> Result<(), AllocError> {
        self.title.begin(head)
    }

    fn take(&mut self, _alloc: Global, zone: &Zone<'_>) -> Result<(), AllocError> {
        self.title.take(zone)
    }

    fn end(&mut self, alloc: Global) -> Result<(), AllocError> {
        self.sites.push(titled_site(alloc, &self.title)?)?;
        Ok(())
    }
}

/// Where each record of a file that breaks no rule of lines stands, in their order, with a few zones in memory at a
/// time.
pub fn sites_of_all(alloc: Global, bytes: &[u8]) -> Result<Vec<RecordSite>, AllocError>
    requires { IsUnbroken (BreaksLineRule bytes.now) }
    ensures { IfOk result (λ sites. (zones : List ZoneData) × IsZonesOf bytes.now zones
        × AreAllSites (groups_of zones) sites.items) }
{
    let mut list = SiteList {
        sites: Vec::new(alloc),
        title: RecordTitle::new(alloc),
    };
    match read_groups(alloc, bytes, &mut list) {
        Ok(_) => {
            let SiteList { sites, .. } = list;
            Ok(sites)
        }
        Err(LineFault::Memory(error)) => Err(error),
        Err(LineFault::Broken { .. }) => unreachable!(),
    }
}
