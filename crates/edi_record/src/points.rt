//! The points of a record.

ghost use Rattle.std.specs.Prelude.{◌≡◌, true, false, if◌then◌else◌, List, [], map, length, codes, Some, option_map, IfOk, IfErr, OnOk};
ghost use Rattle.edi_line.specs.ZoneData.{ZoneData};
ghost use Rattle.edi_line.specs.inner.Number.{number};
ghost use Rattle.edi_record.specs.inner.Texts.{parts, point_in, flat_place, high_place, last_part};
ghost use Rattle.edi_record.specs.Shapes.{may_have_points};
ghost use Rattle.edi_record.specs.Records.{values, has_points};
ghost use Rattle.edi_record.specs.inner.RecordRules.{kind_in, has_bad_point};
ghost use Rattle.edi_record.specs.inner.RecordRefusal.{IsBreachOf};
ghost use Rattle.edi_record.specs.inner.Stored.{Takes, StoresPoints, kept_points};
ghost use Rattle.std.specs.Bool.{MatchBool};
ghost use Rattle.edi_record.specs.Texts.{IsPosition};
ghost use Rattle.edi_record.specs.declared.record.Point.{Point as Position};

use crate::fault::GroupFault;
use crate::marked::split_at_semicolon;
use crate::record::{Kind, Point};
use edi_line::Num;
use std::alloc::AllocError;

/// The place of two coordinates.
fn flat(x: &[u8], y: &[u8]) -> Option<Point>
    ensures { result ≡ flat_place (number x.now) (number y.now) }
{
    Some(Point {
        x: Num::read(x)?,
        y: Num::read(y)?,
        z: None,
    })
}

/// The place of three coordinates.
fn high(x: &[u8], y: &[u8], z: &[u8]) -> Option<Point>
    ensures { result ≡ high_place (number x.now) (number y.now) (number z.now) }
{
    Some(Point {
        x: Num::read(x)?,
        y: Num::read(y)?,
        z: Some(Num::read(z)?),
    })
}

/// The text without a semicolon at its end, where it holds no other.
fn last(text: &[u8]) -> Option<&[u8]>
    ensures { option_map (λ s. s.now) result ≡ last_part (parts text.now) }
{
    let Some((part, rest)) = split_at_semicolon(text) else {
        return Some(text);
    };
    if rest.text.is_empty() {
        Some(part)
    } else {
        None
    }
}

impl Point {
    /// The place that a text spells: two or three numbers parted by semicolons, with or without one
    /// at the end.
    pub(crate) fn read(text: &[u8]) -> Option<Point>
        ensures { result ≡ point_in text.now }
    {
        let (x, rest) = split_at_semicolon(text)?;
        let Some((y, third)) = rest.split_at_semicolon() else {
            return flat(x, rest.text);
        };
        if third.text.is_empty() {
            return flat(x, y);
        }
        high(x, y, last(third.text)?)
    }
}

/// Whether a text is a position: two or three numbers parted by semicolons, with or without one at the end.
pub fn is_position(text: &[u8]) -> bool
    ensures { MatchBool result ((p : Position) × IsPosition text.now p) ((p : Position) → ¬ (IsPosition text.now p)) }
{
    Point::read(text).is_some()
}

/// Whether a zone that has come, and should be a point, is none. The points are in a list beside.
#[derive(Clone, Copy)]
pub(crate) struct Points {
    is_broken: bool,
}

impl Points {
    /// No points have come.
    pub(crate) fn new() -> Points
        ensures { (group : List ZoneData) → StoresPoints (kept_points result []) group group }
    {
        Points { is_broken: false }
    }

    /// Takes a place.
    pub(crate) fn take(&mut self, list: &mut Vec<Point>, text: &[u8]) -> Result<(), AllocError>
        ensures { OnOk result (Takes StoresPoints (codes "COR") text.now (kept_points self.old list.old.items)
            (kept_points self.new list.new.items)) }
    {
        let Some(Point { x, y, z }) = Point::read(text) else {
            self.is_broken = true;
            return Ok(());
        };
        list.push(Point { x, y, z })?;
        Ok(())
    }

    /// The points of a node or an arc, and none of other records; or rule 206, where one of them is
    /// no place or their number isn't that of the type.
    pub(crate) fn finish(self, kind: Kind, list: &mut Vec<Point>) -> Result<(), GroupFault>
        ensures states { OnOk result ((group : List ZoneData)
            → (has_points kind ≡ true → StoresPoints (kept_points self list.old.items) [] group)
            → (if has_points kind then map point_in (values (codes "COR") group) else []) ≡ map Some list.new.items) }
        ensures shape { OnOk result (may_have_points kind (length list.new.items) ≡ true) }
        ensures sound { OnOk result ((group : List ZoneData) → kind_in group ≡ Some kind
            → (has_points kind ≡ true → StoresPoints (kept_points self list.old.items) [] group)
            → has_bad_point group ≡ false) }
        ensures breach { IfErr result (λ fault. (group : List ZoneData) → kind_in group ≡ Some kind
            → (has_points kind ≡ true → StoresPoints (kept_points self list.old.items) [] group)
            → IsBreachOf 206 (has_bad_point group) fault) }
    {
        if !kind.has_points() {
            list.clear();
            return Ok(());
        }
        if self.is_broken || !kind.may_have_points(list.len()) {
            return Err(GroupFault::Broken(206));
        }
        Ok(())
    }
}
