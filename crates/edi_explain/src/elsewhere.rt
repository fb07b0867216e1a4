//! Records of the other VEC files of a lot, at which links of a sheet point.

ghost use Rattle.std.specs.Prelude.{◌≡◌, ◌↔◌, ◌∷◌, [], ℕ, List, IfOk, IsTrue, MatchOption, Some, codes};
ghost use Rattle.edi_line.specs.ZoneData.{ZoneData, entry};
ghost use Rattle.edi_record.specs.Texts.{shown};
ghost use Rattle.edi_record.specs.Titles.{IsTitleOf};
ghost use Rattle.edi_explain.specs.AstrayZones.{IsNamedBy};
ghost use Rattle.edi_explain.specs.BreakingZones.{is_typed};
ghost use Rattle.edi_explain.specs.Elsewhere.{AreStrayEnds, AreTogether, HasNamed, HasStrayEnds, elsewhere_line, link_ends};
ghost use Rattle.edi_explain.specs.inner.Elsewhere.{AreEndsWithStray, HoldsLinkEnds, IsSoughtName};

use crate::astray::are_apart;
use crate::breaking::is_same;
use edi_line::{GroupOut, LineFault, Zone, read_groups};
use edi_record::{Pointer, RecordTitle};
use edi_shown::push_shown;
use std::alloc::{AllocError, Global};

const FTP: [u8; 3] = *b"FTP";

/// Whether a record that begins with this zone is a link.
fn is_link(head: &Zone<'_>) -> bool
    ensures { result ≡ is_typed (codes "LNK") (entry head.now ∷ []) }
{
    matches!(head.value.as_slice(), b"LNK")
}

/// The first end of links, the first that is of another lot or subset, and whether the record that is coming is a link.
#[derive(Drop)]
struct LinkEnds {
    home: Option<Vec<u8>>,
    stray: Option<Vec<u8>>,
    is_link: bool,
}

impl LinkEnds {
    ghost use Rattle.std.specs.Prelude.{◌≡◌, ◌++◌, ◌∷◌, [], ℕ, List, OnOk, true};
    ghost use Rattle.edi_line.specs.Groups.{IsOneRecord};
    ghost use Rattle.edi_line.specs.ZoneData.{ZoneData, entry};
    ghost use Rattle.edi_line.specs.Zones.{begins_group};
    ghost use Rattle.edi_explain.specs.inner.Elsewhere.{AreEndsWithStray, HoldsLinkEnds};

    /// Of no ends.
    fn none() -> LinkEnds
        ensures { AreEndsWithStray [] result }
    {
        LinkEnds {
            home: None,
            stray: None,
            is_link: false,
        }
    }

    /// Takes the next end.
    fn take_end(&mut self, alloc: Global, text: &[u8]) -> Result<(), AllocError>
        ensures is_link { OnOk result (self.new.is_link ≡ self.old.is_link) }
        ensures ends { OnOk result ((ends : List (List ℕ)) → AreEndsWithStray ends self.old
            → AreEndsWithStray (ends ++ text.now ∷ []) self.new) }
    {
        let home = match &self.home {
            None => {
                self.home = Some(Vec::from_slice(alloc, text)?);
                return Ok(());
            }
            Some(home) => home,
        };
        if self.stray.is_some() {
            return Ok(());
        }
        if are_apart(text, home) {
            self.stray = Some(Vec::from_slice(alloc, text)?);
        }
        Ok(())
    }

    /// A record begins.
    fn begin_record(&mut self, head: &Zone<'_>)
        requires { begins_group (entry head.now) ≡ true }
        ensures { (groups : List (List ZoneData)) → HoldsLinkEnds groups [] self.old
            → HoldsLinkEnds groups (entry head.now ∷ []) self.new }
    {
        self.is_link = is_link(head);
    }

    /// Takes the next zone of the record.
    fn take_zone(&mut self, alloc: Global, zone: &Zone<'_>) -> Result<(), AllocError>
        ensures { OnOk result ((groups : List (List ZoneData)) (group : List ZoneData) → IsOneRecord group
            → HoldsLinkEnds groups group self.old → HoldsLinkEnds groups (group ++ entry zone.now ∷ []) self.new) }
    {
        if self.is_link && zone.code == FTP {
            self.take_end(alloc, zone.value.as_slice())?;
        }
        Ok(())
    }
}

impl GroupOut for LinkEnds {
    ghost Holds = { λ ends groups group. HoldsLinkEnds groups group ends };

    fn begin(&mut self, _alloc: Global, head: &Zone<'_>) -> Result<(), AllocError> {
        self.begin_record(head);
        Ok(())
    }

    fn take(&mut self, alloc: Global, zone: &Zone<'_>) -> Result<(), AllocError> {
        self.take_zone(alloc, zone)
    }

    fn end(&mut self, _alloc: Global) -> Result<(), AllocError> {
        Ok(())
    }
}

/// The first end of the links of a sheet, by whose lot and subset all others are judged, and the first that is of another
/// lot or subset.
#[derive(Drop)]
pub struct StrayEnds {
    pub home: Vec<u8>,
    pub stray: Vec<u8>,
}

/// The ends with which a sheet breaks rule 304, if it does.
pub fn stray_ends(alloc: Global, bytes: &[u8]) -> Result<Option<StrayEnds>, AllocError>
    ensures { IfOk result (λ found. MatchOption found ((home stray : List ℕ) → ¬ (HasStrayEnds bytes.now home stray))
        (λ ends. HasStrayEnds bytes.now ends.home.items ends.stray.items)) }
{
    let mut ends = LinkEnds::none();
    match read_groups(alloc, bytes, &mut ends) {
        Ok(_) => Ok(both_of(ends)),
        Err(LineFault::Broken { .. }) => Ok(None),
        Err(LineFault::Memory(error)) => Err(error),
    }
}

/// The two ends, if there are two.
fn both_of(ends: LinkEnds) -> Option<StrayEnds>
    ensures { (list : List (List ℕ)) → AreEndsWithStray list ends → MatchOption result
        ((home stray : List ℕ) → ¬ (AreStrayEnds list home stray))
        (λ both. AreStrayEnds list both.home.items both.stray.items) }
{
    let LinkEnds { home, stray, .. } = ends;
    let home = home?;
    match stray {
        Some(stray) => Some(StrayEnds { home, stray }),
        None => None,
    }
}

/// Whether two pointers are of one lot and subset.
fn are_together(pointer: Pointer<'_>, text: &[u8]) -> bool
    ensures { IsTrue result ↔ AreTogether (shown pointer.entry) text.now }
{
    match Pointer::read(text) {
        Some(other) => is_same(pointer.lot, other.lot) && is_same(pointer.subset, other.subset),
        None => false,
    }
}

/// Whether a record that says this of itself has this identifier.
fn is_identified(title: &RecordTitle, rid: &[u8]) -> bool
    ensures { IsTrue result ↔ (title.now.rid ≡ Some rid.now) }
{
    match title.rid() {
        Some(value) => is_same(value, rid),
        None => false,
    }
}

/// Whether a record that says this of itself is the one that a pointer names.
fn is_named(pointer: Pointer<'_>, title: &RecordTitle) -> bool
    ensures { (group : List ZoneData) → IsTitleOf group title.now
        → IsTrue result ↔ IsNamedBy (shown pointer.entry) group }
{
    is_same(title.rty(), pointer.rty) && is_identified(title, pointer.rid)
}

/// A record that is sought by the pointer that names it, the ends of the links that came, and what the record that is
/// coming says of itself.
#[derive(Drop)]
struct SoughtName<'a> {
    pointer: Pointer<'a>,
    ends: LinkEnds,
    title: RecordTitle,
    is_there: bool,
}

impl GroupOut for SoughtName<'_> {
    ghost Holds = { λ sought groups group. IsSoughtName sought groups group };

    fn begin(&mut self, _alloc: Global, head: &Zone<'_>) -> Result<(), AllocError> {
        self.ends.begin_record(head);
        self.title.begin(head)
    }

    fn take(&mut self, alloc: Global, zone: &Zone<'_>) -> Result<(), AllocError> {
        self.ends.take_zone(alloc, zone)?;
        self.title.take(zone)
    }

    fn end(&mut self, _alloc: Global) -> Result<(), AllocError> {
        if is_named(self.pointer, &self.title) {
            self.is_there = true;
        }
        Ok(())
    }
}

impl SoughtName<'_> {
    ghost use Rattle.std.specs.Prelude.{◌↔◌, ◌∷◌, [], List, IsTrue};
    ghost use Rattle.edi_line.specs.ZoneData.{ZoneData};
    ghost use Rattle.edi_record.specs.Texts.{shown};
    ghost use Rattle.edi_explain.specs.Elsewhere.{HasNamedAmong};
    ghost use Rattle.edi_explain.specs.inner.Elsewhere.{IsSoughtName};

    /// Whether the record is there, and the links begin with an end of its lot and subset.
    fn is_found(&self) -> bool
        ensures { (sign : List ZoneData) (come : List (List ZoneData)) → IsSoughtName self.now (sign ∷ come) []
            → IsTrue result ↔ HasNamedAmong come (shown self.now.pointer) }
    {
        let Some(home) = &self.ends.home else {
            return false;
        };
        self.is_there && are_together(self.pointer, home)
    }
}

/// Whether a sheet has the record that a pointer names: its links begin with an end of that lot and subset, and it has a
/// record of that type and identifier.
pub fn has_named(alloc: Global, bytes: &[u8], pointer: Pointer<'_>) -> Result<bool, AllocError>
    ensures { IfOk result (λ t. IsTrue t ↔ HasNamed bytes.now (shown pointer.entry)) }
{
    let mut sought = SoughtName {
        pointer,
        ends: LinkEnds::none(),
        title: RecordTitle::new(alloc),
        is_there: false,
    };
    match read_groups(alloc, bytes, &mut sought) {
        Ok(_) => Ok(sought.is_found()),
        Err(LineFault::Broken { .. }) => Ok(false),
        Err(LineFault::Memory(error)) => Err(error),
    }
}

/// The line that says that a sheet points at a record of another.
pub fn elsewhere_hint(
    alloc: Global,
    name: &[u8],
    pointer: Pointer<'_>,
    other: &[u8],
) -> Result<Vec<u8>, AllocError>
    ensures { IfOk result (λ line. line.items ≡ elsewhere_line name.now (shown pointer.entry) other.now) }
{
    let mut line = Vec::from_slice(alloc, b"hint: ")?;
    push_shown(&mut line, name)?;
    line.extend_from_slice(b" points at ")?;
    push_shown(&mut line, pointer.rty)?;
    line.push(b' ')?;
    push_shown(&mut line, pointer.rid)?;
    line.extend_from_slice(b", which is in ")?;
    push_shown(&mut line, other)?;
    line.push(b'\n')?;
    Ok(line)
}
