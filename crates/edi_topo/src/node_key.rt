//! What tells nodes apart.

ghost use Rattle.std.specs.Prelude.{◌≡◌, ◌<◌, length, slice_index_or, IfOk};
ghost use Rattle.edi_record.specs.declared.record.Kind.TheVariants.{Pno};
ghost use Rattle.edi_plan.specs.Plans.{IsPlace, record_at};
ghost use Rattle.edi_topo.specs.NodeKeys.{node_key, no_point};

use edi_line::{BorrowedList, ListOfBorrowed};
use edi_plan::{Plan, PlanAttribute, sorted_attributes};
use edi_record::{Extra, Point};
use edi_schema::ClassRef;
use std::alloc::{AllocError, Global};

/// What orders nodes: the place, the class, the attributes in order, and the extras.
#[derive(PartialEq, Eq, PartialOrd, Ord)]
pub struct NodeKey<'a> {
    pub point: Point,
    pub class: ClassRef,
    pub attributes: ListOfBorrowed<'a, PlanAttribute>,
    pub extras: BorrowedList<'a, Extra>,
}

impl Drop for NodeKey<'_> {
    fn drop(self) {
        let NodeKey {
            point: _,
            class: _,
            attributes: _,
            extras: _,
        } = self;
    }
}

pub(crate) fn first_point(points: &[Point]) -> Point
    requires { 0 < length points.now }
    ensures { result ≡ slice_index_or points.now 0 no_point }
{
    points[0]
}

/// The key of the node at a place. It borrows from the plan.
pub fn node_key_at<'a>(alloc: Global, plan: &'a Plan, place: u32) -> Result<NodeKey<'a>, AllocError>
    requires place { IsPlace plan.now place }
    requires node { (record_at plan.now place).kind ≡ Pno }
    ensures { IfOk result (λ key. key ≡ node_key (record_at plan.now place)) }
{
    plan.keeps();
    let point = first_point(plan.points(place));
    let attributes = sorted_attributes(alloc, plan.attributes(place))?;
    Ok(NodeKey {
        point,
        class: plan.scp(place),
        attributes: ListOfBorrowed::from_vec(attributes),
        extras: BorrowedList::of(plan.extras(place)),
    })
}
