ghost use Rattle.std.specs.Prelude.{◌≡◌};
ghost use Rattle.edi_rank.specs.Keys.{face_key_cmp};

use edi_line::{BorrowedList, ListOfBorrowed, Sequence};
use edi_plan::PlanAttribute;
use edi_record::{Extra, Kind};
use edi_schema::{ClassRef, Role};
use std::cmp::Ordering;

/// An end by the type and the number of what it names, with its SNS borrowed from the plan. Ends go by
/// type, number and SNS.
#[derive(Drop, PartialEq, Eq, PartialOrd, Ord)]
pub struct NumberedEnd<'a> {
    pub kind: Kind,
    pub number: u32,
    pub sns: Option<BorrowedList<'a, u8>>,
}

/// A side of an arc that a face is on.
#[derive(Clone, Copy, PartialEq, Eq, PartialOrd, Ord)]
pub struct FaceKey {
    pub arc: u32,
    pub side: Role,
}

/// What orders links. The origin stands first, and the other ends in order.
#[derive(PartialEq, Eq, PartialOrd, Ord)]
pub struct LinkKey<'a> {
    pub class: ClassRef,
    pub ends: Sequence<NumberedEnd<'a>>,
    pub attributes: ListOfBorrowed<'a, PlanAttribute>,
    pub extras: BorrowedList<'a, Extra>,
}

impl Drop for LinkKey<'_> {
    fn drop(self) {
        let LinkKey {
            class: _,
            ends: _,
            attributes: _,
            extras: _,
        } = self;
    }
}

/// What orders objects.
#[derive(PartialEq, Eq, PartialOrd, Ord)]
pub struct ObjectKey<'a> {
    pub class: ClassRef,
    pub attributes: ListOfBorrowed<'a, PlanAttribute>,
    pub extras: BorrowedList<'a, Extra>,
    pub pieces: Sequence<LinkKey<'a>>,
}

impl Drop for ObjectKey<'_> {
    fn drop(self) {
        let ObjectKey {
            class: _,
            attributes: _,
            extras: _,
            pieces: _,
        } = self;
    }
}

/// Faces go by the number of the arc, then left before right.
pub fn compare_faces(a: FaceKey, b: FaceKey) -> Ordering
    ensures { result ≡ face_key_cmp a b }
{
    a.cmp(&b)
}
