//! Which links name a record.

ghost use Rattle.std.specs.Prelude.{◌≡◌, ◌++◌, IfOk, OnOk};
ghost use Rattle.std.specs.List.Sorted.{IsNonDecreasingBy};
ghost use Rattle.edi_plan.specs.Plans.{IsPlace};
ghost use Rattle.edi_objects.specs.LinksOf.{entries_of, index_of, named_by};
ghost use Rattle.edi_objects.specs.inner.Indices.{all_named};

use edi_plan::Plan;
use edi_record::Kind;
use std::alloc::{AllocError, Global};

/// What all links of a plan name, each with the link, by the records and then by the links.
pub(crate) fn index_of(alloc: Global, plan: &Plan) -> Result<Vec<(u32, u32)>, AllocError>
    ensures { IfOk result (λ index. index.items ≡ index_of plan.now) }
{
    let mut index = Vec::new(alloc);
    push_all_named(&mut index, plan)?;
    index.sort_unstable();
    Ok(index)
}

/// Appends what each link names, with the link.
fn push_all_named(index: &mut Vec<(u32, u32)>, plan: &Plan) -> Result<(), AllocError>
    ensures { OnOk result (index.new.items ≡ index.old.items ++ all_named plan.now) }
{
    for link in plan.places(Kind::Lnk) {
        push_named(index, plan, *link)?;
    }
    Ok(())
}

/// Appends what a link names, with the link.
fn push_named(index: &mut Vec<(u32, u32)>, plan: &Plan, link: u32) -> Result<(), AllocError>
    requires { IsPlace plan.now link }
    ensures { OnOk result (index.new.items ≡ index.old.items ++ named_by plan.now link) }
{
    for end in plan.ends(link) {
        index.push((end.target, link))?;
    }
    Ok(())
}

/// The entries of a record in an index.
pub(crate) fn entries_of(index: &[(u32, u32)], place: u32) -> &[(u32, u32)]
    requires { IsNonDecreasingBy (λ named. named.0) index.now }
    ensures { result.now ≡ entries_of index.now place }
{
    let from = index.partition_point(|(named, _)| *named < place);
    let (_, behind) = index.split_at(from);
    let count = behind.partition_point(|(named, _)| *named <= place);
    let (entries, _) = behind.split_at(count);
    entries
}
