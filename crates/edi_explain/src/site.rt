//! Where the records of a file stand.

ghost use Rattle.std.specs.Prelude.{List, ℕ, ◌≡◌, IfOk, option_map, slice_get};
ghost use Rattle.edi_line.specs.ZoneData.{ZoneData, entries};
ghost use Rattle.edi_line.specs.LineRules.{BreaksLineRule, IsZonesOf};
ghost use Rattle.edi_line.specs.Refusal.{IsUnbroken};
ghost use Rattle.edi_line.specs.Zones.{groups_of};
ghost use Rattle.edi_record.specs.Titles.{IsTitleOf};
ghost use Rattle.edi_explain.specs.Sites.{IsSiteIfAny, IsSiteOfGroup};
ghost use Rattle.edi_explain.specs.inner.Found.{group_numbered, number_from_one};
ghost use Rattle.edi_explain.specs.inner.Sites.{IsGroupSite};

use edi_line::codes::{RID, RTY};
use edi_line::{LineFault, Text, Zone, zones};
use edi_record::{RecordTitle, first_value, group_here};
use std::alloc::{AllocError, Global};

/// Where a record of a file stands, and what it calls itself.
pub struct RecordSite {
    /// The line of its RTY, counted from 1.
    pub line: u64,
    /// The value of its RTY.
    pub rty: Text,
    /// The value of its first RID, if it has one.
    pub rid: Option<Text>,
}

impl Drop for RecordSite {
    fn drop(self) {
        let RecordSite {
            line: _,
            rty: _,
            rid: _,
        } = self;
    }
}

/// The zones of a file that breaks no rule of lines.
pub(crate) fn zones_of<'a>(alloc: Global, bytes: &'a [u8]) -> Result<Vec<Zone<'a>>, AllocError>
    requires { IsUnbroken (BreaksLineRule bytes.now) }
    ensures { IfOk result (λ zones. IsZonesOf bytes.now (entries zones.items)) }
{
    match zones(alloc, bytes) {
        Ok(zones) => Ok(zones),
        Err(LineFault::Memory(error)) => Err(error),
        Err(LineFault::Broken { .. }) => unreachable!(),
    }
}

/// The zones of the record at this place, counted from 0.
pub(crate) fn group_of<'a, 'b>(zones: &'b [Zone<'a>], place: u64) -> Option<&'b [Zone<'a>]>
    ensures { option_map (λ g. entries g.now) result ≡ slice_get (groups_of (entries zones.now)) place }
{
    let mut left = place;
    let mut rest = zones;
    while let [zone, behind @ ..] = rest {
        if zone.code == RTY {
            if left == 0 {
                return group_here(rest);
            }
            left -= 1;
        }
        rest = behind;
    }
    None
}

/// The zones of the record at this place, if there is a place and a record.
pub(crate) fn record_at<'a, 'b>(zones: &'b [Zone<'a>], place: Option<u64>) -> Option<&'b [Zone<'a>]>
    ensures { option_map (λ g. entries g.now) result
        ≡ group_numbered (groups_of (entries zones.now)) (number_from_one place) }
{
    group_of(zones, place?)
}

/// A text of these bytes, if there are any.
fn text_if_any(alloc: Global, value: Option<&[u8]>) -> Result<Option<Text>, AllocError>
    ensures { IfOk result (λ text. text ≡ option_map (λ v. v.now) value.entry) }
{
    match value {
        Some(value) => Ok(Some(Text::from_slice(alloc, value)?)),
        None => Ok(None),
    }
}

/// The site of the record of these zones, if one begins with the first.
pub(crate) fn site_of(alloc: Global, group: &[Zone<'_>]) -> Result<Option<RecordSite>, AllocError>
    ensures { IfOk result (λ found. IsGroupSite (entries group.now) found) }
{
    let [head, ..] = group else {
        return Ok(None);
    };
    Ok(Some(RecordSite {
        line: head.line,
        rty: Text::from_slice(alloc, head.value.as_slice())?,
        rid: text_if_any(alloc, first_value(group, RID))?,
    }))
}

/// The site of a record that says this of itself.
pub(crate) fn titled_site(alloc: Global, title: &RecordTitle) -> Result<RecordSite, AllocError>
    ensures { IfOk result (λ site. (group : List ZoneData) → IsTitleOf group title.now → IsSiteOfGroup group site) }
{
    Ok(RecordSite {
        line: title.line(),
        rty: Text::from_slice(alloc, title.rty())?,
        rid: text_if_any(alloc, title.rid())?,
    })
}

/// Where a record begins whose zones may have been found.
pub(crate) fn site_if_found(
    alloc: Global,
    found: Option<&[Zone<'_>]>,
) -> Result<Option<RecordSite>, AllocError>
    ensures { IfOk result (λ site. (zones : List ZoneData) (number : ℕ)
        → option_map (λ g. entries g.now) found.entry ≡ group_numbered (groups_of zones) number
        → IsSiteIfAny zones number site) }
{
    match found {
        Some(group) => site_of(alloc, group),
        None => Ok(None),
    }
}

/// Where the record at this place begins, if there is a place and a record.
pub(crate) fn site_at(
    alloc: Global,
    zones: &[Zone<'_>],
    place: Option<u64>,
) -> Result<Option<RecordSite>, AllocError>
    ensures { IfOk result (IsSiteIfAny (entries zones.now) (number_from_one place)) }
{
    site_if_found(alloc, record_at(zones, place))
}
