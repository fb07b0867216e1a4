//! The sites of a sheet's records, packed while the sheet is read.

ghost use Rattle.std.specs.Prelude.{◌≡◌, ◌≤◌, ◌<◌, ◌++◌, ◌∷◌, [], List, IfOk, OnOk, length, take, unwrap_or};
ghost use Rattle.edi_report.specs.declared.site.Site.{Site};
ghost use Rattle.edi_report.specs.inner.Packing.{IsFirstSite, start};
ghost use Rattle.edi_report.specs.inner.PackedSites.{IsPackingOf, PacksSitesOf, site_in};

use crate::numbers::{first_packed_number, push_packed_number};
use crate::site::Site;
use edi_line::{GroupOut, Text, Zone};
use edi_record::RecordTitle;
use std::alloc::{AllocError, Global};

/// The site that the next one is packed or unpacked behind.
#[derive(Drop)]
pub(crate) struct LastSite {
    line: u64,
    rid: Vec<u8>,
}

impl LastSite {
    /// What the first site is packed behind: line 0 and no identifier.
    fn start(alloc: Global) -> LastSite
        ensures { site_in result ≡ start }
    {
        LastSite {
            line: 0,
            rid: Vec::new(alloc),
        }
    }

    /// Goes on to the site that the bytes begin with, and gives the bytes behind it.
    fn advance<'b>(&mut self, bytes: &'b [u8]) -> Result<&'b [u8], AllocError>
        ensures site { IfOk result (λ behind. IsFirstSite (site_in self.old) bytes.now (site_in self.new) behind.now) }
        ensures shorter { IfOk result (λ behind. 0 < length bytes.now → length behind.now < length bytes.now) }
    {
        let (ahead, bytes) = first_packed_number(bytes);
        let (kept, bytes) = first_packed_number(bytes);
        let (count, bytes) = first_packed_number(bytes);
        let (new, bytes) = bytes.split_at((count as usize).min(bytes.len()));
        self.line = self.line.wrapping_add(ahead);
        self.rid.truncate(kept as usize);
        self.rid.extend_from_slice(new)?;
        Ok(bytes)
    }
}

/// Sites, each stored as it differs from the one before: how many lines further on it stands, how many bytes of that
/// one's identifier it keeps, how many new ones come behind these, and the new ones. So a site mostly takes four bytes to
/// nine, where a `Site` takes 24.
#[derive(Drop)]
struct Packing {
    bytes: Vec<u8>,
    last: LastSite,
}

impl Packing {
    /// No sites.
    fn new(alloc: Global) -> Packing
        ensures { IsPackingOf result [] }
    {
        Packing {
            bytes: Vec::new(alloc),
            last: LastSite::start(alloc),
        }
    }

    /// Packs a site behind the others.
    fn push(&mut self, line: u64, rid: &[u8]) -> Result<(), AllocError>
        ensures { OnOk result ((sites : List Site) → IsPackingOf self.old sites
            → IsPackingOf self.new (sites ++ (record { line = line; rid = rid.now }) ∷ [])) }
    {
        let kept = shared_length(self.last.rid.as_slice(), rid);
        let new = &rid[kept..];
        push_packed_number(&mut self.bytes, line.wrapping_sub(self.last.line))?;
        push_packed_number(&mut self.bytes, kept as u64)?;
        push_packed_number(&mut self.bytes, new.len() as u64)?;
        self.bytes.extend_from_slice(new)?;
        self.last.line = line;
        self.last.rid.truncate(kept);
        self.last.rid.extend_from_slice(new)?;
        Ok(())
    }

    /// The sites, in file order. As much memory as `count` of them take is asked for at once.
    fn unpack(&self, alloc: Global, count: usize) -> Result<Vec<Site>, AllocError>
        ensures { IfOk result (λ list. (sites : List Site) → IsPackingOf self.now sites → list.items ≡ sites) }
    {
        let mut list = Vec::new(alloc);
        list.reserve_exact(count)?;
        let mut last = LastSite::start(alloc);
        let mut rest = self.bytes.as_slice();
        while !rest.is_empty() {
            rest = last.advance(rest)?;
            list.push(Site {
                line: last.line,
                rid: Text::from_slice(alloc, last.rid.as_slice())?,
            })?;
        }
        Ok(list)
    }
}
/// The sites of the records that have come, packed, and what the one that is coming says of itself.
pub(crate) struct PackedSites {
    packing: Packing,
    title: RecordTitle,
}

impl Drop for PackedSites {
    fn drop(self) {
        let PackedSites {
            packing: _,
            title: _,
        } = self;
    }
}

impl PackedSites {
    /// No sites, before the first record.
    pub(crate) fn new(alloc: Global) -> PackedSites
        ensures { PacksSitesOf result [] [] }
    {
        PackedSites {
            packing: Packing::new(alloc),
            title: RecordTitle::new(alloc),
        }
    }

    /// The sites, in file order. As much memory as `count` of them take is asked for at once.
    pub(crate) fn unpack(&self, alloc: Global, count: usize) -> Result<Vec<Site>, AllocError>
        ensures { IfOk result (λ list. (sites : List Site) → IsPackingOf self.now.packing sites → list.items ≡ sites) }
    {
        self.packing.unpack(alloc, count)
    }
}

impl GroupOut for PackedSites {
    ghost Holds = { PacksSitesOf };

    fn begin(&mut self, _alloc: Global, head: &Zone<'_>) -> Result<(), AllocError> {
        self.title.begin(head)
    }

    fn take(&mut self, _alloc: Global, zone: &Zone<'_>) -> Result<(), AllocError> {
        self.title.take(zone)
    }

    fn end(&mut self, _alloc: Global) -> Result<(), AllocError> {
        self.packing
            .push(self.title.line(), identifier_of(&self.title))
    }
}

/// The first identifier of a record that says this of itself, or nothing.
fn identifier_of(title: &RecordTitle) -> &[u8]
    ensures { result.now ≡ unwrap_or title.now.rid [] }
{
    title.rid().unwrap_or(b"")
}

/// How many bytes both texts begin with alike.
fn shared_length(a: &[u8], b: &[u8]) -> usize
    ensures within { result ≤ length b.now }
    ensures shared { take result a.now ≡ take result b.now }
{
    let most = a.len().min(b.len());
    for i in 0..most {
        if a[i] != b[i] {
            return i;
        }
    }
    most
}
