//! The records that the ends of links name.

ghost use Rattle.std.specs.Prelude.{◌≡◌, ◌++◌, List, IfOk, IfSome, OnOk, true, false};
ghost use Rattle.std.specs.List.{AllZip};
ghost use Rattle.edi_record.specs.LinkEnds.{EndData};
ghost use Rattle.edi_plan.specs.inner.Names.{name_lent};
ghost use Rattle.edi_plan.specs.inner.Found.{FindsAll};
ghost use Rattle.edi_plan.specs.PlanOf.{place_named};
ghost use Rattle.edi_record.specs.Records.{is_link};
ghost use Rattle.edi_plan.specs.inner.Targets.{target_kind, HasNameAt, IsTargetIfAny, AreTargets};

use crate::name_places::NamePlaces;
use crate::names::{RecordNameRef, has_name};
use edi_record::{End, Kind, SheetRecords};
use std::alloc::{AllocError, Global};

/// A node, an arc, a face or an object, by its place.
#[derive(Clone, Copy, PartialEq, Eq)]
pub(crate) struct Target {
    pub(crate) place: u32,
    pub(crate) kind: Kind,
}

/// The type of node, arc, face or object that a code names.
fn kind_coded(code: &[u8]) -> Option<Kind>
    ensures { result ≡ target_kind code.now }
{
    match code {
        b"PNO" => Some(Kind::Pno),
        b"PAR" => Some(Kind::Par),
        b"PFE" => Some(Kind::Pfe),
        b"FEA" => Some(Kind::Fea),
        _ => None,
    }
}

/// The record of a type that an end named last.
#[derive(Clone, Copy)]
struct Last {
    place: u32,
    /// Whether it stood where the one named before stood, or just behind.
    is_near: bool,
}

impl Last {
    /// None has been named, so that the first record is looked at first.
    const NONE: Last = Last {
        place: 0,
        is_near: true,
    };

    /// Where to look first for the next, if that has paid.
    fn hint(self) -> Option<u32> {
        if self.is_near { Some(self.place) } else { None }
    }

    /// This record has been named.
    fn note(&mut self, place: u32) {
        self.is_near = place.wrapping_sub(self.place) <= 1;
        self.place = place;
    }
}

/// The records that ends named last, by type. What an end names mostly stands there or just behind, where links go
/// through a sheet in its order. It decides where a record is looked for first, and never what is found.
#[derive(Clone, Copy)]
struct LastNamed {
    node: Last,
    arc: Last,
    face: Last,
    object: Last,
}

impl LastNamed {
    /// No record has been named.
    fn none() -> LastNamed {
        LastNamed {
            node: Last::NONE,
            arc: Last::NONE,
            face: Last::NONE,
            object: Last::NONE,
        }
    }

    /// Where to look first for a record of a type, if that has paid.
    fn hint(self, kind: Kind) -> Option<u32> {
        match kind {
            Kind::Pno => self.node.hint(),
            Kind::Par => self.arc.hint(),
            Kind::Pfe => self.face.hint(),
            Kind::Fea | Kind::Lnk => self.object.hint(),
        }
    }

    /// Takes what an end names.
    fn note(&mut self, target: Option<Target>) {
        let Some(Target { place, kind }) = target else {
            return;
        };
        match kind {
            Kind::Pno => self.node.note(place),
            Kind::Par => self.arc.note(place),
            Kind::Pfe => self.face.note(place),
            Kind::Fea | Kind::Lnk => self.object.note(place),
        }
    }
}

/// The place of a record of this name, if it is this one or the next.
fn place_near(records: &SheetRecords, last: u32, name: &RecordNameRef<'_>) -> Option<u32>
    ensures { IfSome result (HasNameAt records.now (name_lent name.now)) }
{
    if has_name(records, last, name) {
        return Some(last);
    }
    let next = last.saturating_add(1);
    if has_name(records, next, name) {
        Some(next)
    } else {
        None
    }
}

/// The place of the first record of a name, which may be the one where to look first or the next. Where no two records
/// have one name, any of that name is the first.
fn place_of(
    records: &SheetRecords,
    names: &NamePlaces<'_>,
    hint: Option<u32>,
    name: &RecordNameRef<'_>,
) -> Option<u32>
    requires no_link { is_link name.now.kind ≡ false }
    requires names { FindsAll records.now names.now }
    ensures { result ≡ place_named records.now (name_lent name.now) }
{
    if let Some(last) = hint
        && names.repeat().is_none()
        && let Some(place) = place_near(records, last, name)
    {
        return Some(place);
    }
    names.place(records, name)
}

/// The node, arc, face or object that an end names.
fn target_of(
    records: &SheetRecords,
    names: &NamePlaces<'_>,
    last: LastNamed,
    end: &End,
) -> Option<Target>
    requires { FindsAll records.now names.now }
    ensures { IsTargetIfAny records.now end.now result }
{
    let kind = kind_coded(end.rty())?;
    let name = RecordNameRef {
        kind,
        rid: end.rid(),
    };
    let place = place_of(records, names, last.hint(kind), &name)?;
    Some(Target { place, kind })
}

/// Adds the targets of these ends.
fn add_targets(
    targets: &mut Vec<Option<Target>>,
    last: &mut LastNamed,
    records: &SheetRecords,
    names: &NamePlaces<'_>,
    ends: &[End],
) -> Result<(), AllocError>
    requires { FindsAll records.now names.now }
    ensures { OnOk result ((before : List EndData) → AllZip (IsTargetIfAny records.now) before targets.old.items
        → AllZip (IsTargetIfAny records.now) (before ++ ends.now) targets.new.items) }
{
    for end in ends {
        let target = target_of(records, names, *last, end);
        last.note(target);
        targets.push(target)?;
    }
    Ok(())
}

/// How many ends there are, for which room is made.
fn count_ends(records: &SheetRecords) -> usize {
    let mut count: usize = 0;
    for place in 0..records.len() {
        count = count.saturating_add(records.ends(place).len());
    }
    count
}

/// The targets of all ends of all records, in their order.
pub(crate) fn targets(
    alloc: Global,
    names: &NamePlaces<'_>,
    records: &SheetRecords,
) -> Result<Vec<Option<Target>>, AllocError>
    requires { FindsAll records.now names.now }
    ensures { IfOk result (λ targets. AreTargets records.now records.now targets.items) }
{
    let mut targets = Vec::with_capacity(alloc, count_ends(records))?;
    let mut last = LastNamed::none();
    for place in 0..records.len() {
        add_targets(&mut targets, &mut last, records, names, records.ends(place))?;
    }
    Ok(targets)
}
