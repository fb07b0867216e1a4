//! Records and their parts.

ghost use Rattle.std.specs.Prelude.{◌≡◌, ◌||◌};
ghost use Rattle.edi_record.specs.Records.{has_points as kind_has_points, is_link as kind_is_link};
ghost use Rattle.edi_record.specs.inner.RecordRules.{is_arc_kind};
ghost use Rattle.edi_record.specs.Shapes.{kind_code, may_have_points as may_have_so_many};

use crate::end::End;
use crate::name::Name;
use edi_line::{Num, Sequence, Text};

/// The type of a record of a sheet.
#[derive(Clone, Copy, PartialEq, Eq, PartialOrd, Ord, Hash)]
pub enum Kind {
    /// A node.
    Pno,
    /// An arc.
    Par,
    /// A face.
    Pfe,
    /// An object.
    Fea,
    /// A link.
    Lnk,
}

impl Kind {
    /// The type, as the RTY of its records spells it (docs/FORMAT.md, "Records").
    pub fn code(self) -> &'static [u8]
        ensures { result.now ≡ kind_code self }
    {
        match self {
            Kind::Pno => b"PNO",
            Kind::Par => b"PAR",
            Kind::Pfe => b"PFE",
            Kind::Fea => b"FEA",
            Kind::Lnk => b"LNK",
        }
    }

    /// Whether records of this type have points.
    pub(crate) fn has_points(self) -> bool
        ensures { result ≡ kind_has_points self }
    {
        match self {
            Kind::Pno | Kind::Par => true,
            Kind::Pfe | Kind::Fea | Kind::Lnk => false,
        }
    }

    /// Whether records of this type have ends.
    pub fn is_link(self) -> bool
        ensures { result ≡ kind_is_link self }
    {
        match self {
            Kind::Lnk => true,
            Kind::Pno | Kind::Par | Kind::Pfe | Kind::Fea => false,
        }
    }

    /// Whether records of this type may count their points or ends.
    pub(crate) fn has_count(self) -> bool
        ensures { result ≡ (is_arc_kind self || kind_is_link self) }
    {
        match self {
            Kind::Par | Kind::Lnk => true,
            Kind::Pno | Kind::Pfe | Kind::Fea => false,
        }
    }

    /// Whether a record of this type may have so many points: one for a node, two or more for an arc.
    pub(crate) fn may_have_points(self, count: usize) -> bool
        ensures { result ≡ may_have_so_many self count }
    {
        match self {
            Kind::Pno => count == 1,
            Kind::Par => count >= 2,
            Kind::Pfe | Kind::Fea | Kind::Lnk => count == 0,
        }
    }
}

/// A place: two coordinates, and a third or none. Places go by x, y and z, and none comes before a
/// third coordinate.
#[derive(Clone, Copy, PartialEq, Eq, PartialOrd, Ord, Hash)]
pub struct Point {
    pub x: Num,
    pub y: Num,
    pub z: Option<Num>,
}

/// What an attribute or an extra zone holds. Numbers come before bytes.
#[derive(PartialEq, Eq, PartialOrd, Ord)]
pub enum Value {
    Number(Num),
    Bytes(Text),
}

impl Drop for Value {
    fn drop(self) {
        match self {
            Value::Number(_) => {}
            Value::Bytes(_) => {}
        }
    }
}

/// An attribute as it was read.
pub struct Attribute {
    pub atp: Name,
    pub tex: Option<Text>,
    pub atv: Text,
}

impl Drop for Attribute {
    fn drop(self) {
        let Attribute {
            atp: _,
            tex: _,
            atv: _,
        } = self;
    }
}

/// A zone whose code isn't known in its record.
#[derive(PartialEq, Eq, PartialOrd, Ord)]
pub struct Extra {
    pub code: [u8; 3],
    pub nature: u8,
    pub format: u8,
    pub value: Value,
}

impl Drop for Extra {
    fn drop(self) {
        let Extra {
            code: _,
            nature: _,
            format: _,
            value: _,
        } = self;
    }
}

/// A record as its zones state it.
#[derive(Drop)]
pub struct Record {
    pub kind: Kind,
    pub rid: Text,
    pub scp: Name,
    pub points: Sequence<Point>,
    pub ends: Sequence<End>,
    pub attributes: Sequence<Attribute>,
    pub extras: Sequence<Extra>,
}
