//! How the attributes of two objects differ, class by class.

ghost use Rattle.std.specs.Prelude.{◌≡◌, ◌++◌, ◌<◌, ◌==◌, IfOk, IsSorted, OnOk, codes, filter, length, map, slice_index_or};
ghost use Rattle.std.specs.List.{flat_map};
ghost use Rattle.std.specs.List.Sorted.{IsNonDecreasingBy};
ghost use Rattle.std.specs.Ordering.{nat_cmp};
ghost use Rattle.edi_schema.specs.Sorted.{sort_by};
ghost use Rattle.edi_plan.specs.Orders.{attribute_cmp};
ghost use Rattle.edi_objects.specs.Attributes.{are_alike, attribute_lines, class_values, classes_of_both, is_repeated, class_line_at, of_class, shown_values};
ghost use Rattle.edi_objects.specs.Names.{shown_value};
ghost use Rattle.edi_objects.specs.inner.Attributes.{AreOfSchema};

use crate::names::{Namer, push_value};
use edi_plan::{PlanAttribute, sorted_attributes};
use edi_schema::ClassRef;
use std::alloc::{AllocError, Global};

/// Appends a line for each class of which the attributes of two objects differ.
pub(crate) fn push_attribute_lines(
    alloc: Global,
    text: &mut Vec<u8>,
    namer: &Namer<'_>,
    here: &[PlanAttribute],
    there: &[PlanAttribute],
) -> Result<(), AllocError>
    requires here { AreOfSchema namer.now.classes here.now }
    requires there { AreOfSchema namer.now.classes there.now }
    ensures { OnOk result (text.new.items ≡ text.old.items ++ attribute_lines namer.now.classes here.now there.now) }
{
    let classes = classes_of_both(alloc, here, there)?;
    let here = sorted_attributes(alloc, here)?;
    let there = sorted_attributes(alloc, there)?;
    for at in 0..classes.len() {
        push_line_at(text, namer, &here, &there, &classes, at)?;
    }
    Ok(())
}

/// The classes of the attributes of both, in order.
fn classes_of_both(
    alloc: Global,
    here: &[PlanAttribute],
    there: &[PlanAttribute],
) -> Result<Vec<ClassRef>, AllocError>
    ensures { IfOk result (λ classes. classes.items ≡ classes_of_both here.now there.now) }
{
    let mut classes = Vec::new(alloc);
    push_classes(&mut classes, here)?;
    push_classes(&mut classes, there)?;
    classes.sort_unstable();
    Ok(classes)
}

/// Appends the classes of attributes.
fn push_classes(classes: &mut Vec<ClassRef>, attributes: &[PlanAttribute]) -> Result<(), AllocError>
    ensures { OnOk result (classes.new.items ≡ classes.old.items ++ map (λ a. a.atp) attributes.now) }
{
    for attribute in attributes {
        classes.push(attribute.atp)?;
    }
    Ok(())
}

/// Appends the line of a class, where it isn't that of the one before it.
fn push_line_at(
    text: &mut Vec<u8>,
    namer: &Namer<'_>,
    here: &[&PlanAttribute],
    there: &[&PlanAttribute],
    classes: &[ClassRef],
    at: usize,
) -> Result<(), AllocError>
    requires here { IsNonDecreasingBy (λ a. a.now.atp) here.now }
    requires there { IsNonDecreasingBy (λ a. a.now.atp) there.now }
    requires at { at < length classes.now }
    requires class { slice_index_or classes.now at 0 < length namer.now.classes }
    ensures { OnOk result (text.new.items ≡ text.old.items
        ++ class_line_at namer.now.classes (map (λ a. a.now) here.now) (map (λ a. a.now) there.now) classes.now at) }
{
    if at > 0 && classes[at - 1] == classes[at] {
        return Ok(());
    }
    let class = classes[at];
    push_class_values(
        text,
        namer,
        class,
        of_class(here, class),
        of_class(there, class),
    )
}

/// Appends the line of a class, if its attributes differ.
fn push_class_values(
    text: &mut Vec<u8>,
    namer: &Namer<'_>,
    class: ClassRef,
    here: &[&PlanAttribute],
    there: &[&PlanAttribute],
) -> Result<(), AllocError>
    requires { class < length namer.now.classes }
    ensures { OnOk result (text.new.items ≡ text.old.items
        ++ class_values namer.now.classes class (map (λ a. a.now) here.now) (map (λ a. a.now) there.now)) }
{
    if are_alike(here, there) {
        return Ok(());
    }
    text.extend_from_slice(b"    ")?;
    namer.push_class(text, class)?;
    text.push(b':')?;
    push_values(text, here)?;
    text.extend_from_slice(b" ->")?;
    push_values(text, there)?;
    text.extend_from_slice(b"\n")
}

/// Whether two lists of attributes are the same.
fn are_alike(here: &[&PlanAttribute], there: &[&PlanAttribute]) -> bool
    ensures { result ≡ are_alike (map (λ a. a.now) here.now) (map (λ a. a.now) there.now) }
{
    here.cmp(there).is_eq()
}

/// The attributes of a class, of attributes that are in order.
fn of_class<'a, 'b>(attributes: &'b [&'a PlanAttribute], class: ClassRef) -> &'b [&'a PlanAttribute]
    requires { IsNonDecreasingBy (λ a. a.now.atp) attributes.now }
    ensures { map (λ a. a.now) result.now ≡ of_class class (map (λ a. a.now) attributes.now) }
{
    let from = attributes.partition_point(|a| a.atp < class);
    let (_, behind) = attributes.split_at(from);
    let count = behind.partition_point(|a| a.atp <= class);
    let (found, _) = behind.split_at(count);
    found
}

/// Appends the values of attributes, or that there is none.
fn push_values(text: &mut Vec<u8>, attributes: &[&PlanAttribute]) -> Result<(), AllocError>
    ensures { OnOk result (text.new.items ≡ text.old.items ++ shown_values (map (λ a. a.now) attributes.now)) }
{
    match attributes.split_first() {
        Some((first, more)) => {
            text.push(b' ')?;
            push_value(text, &first.value)?;
            push_more_values(text, more)
        }
        None => text.extend_from_slice(b" none"),
    }
}

/// Appends further values, each behind a comma.
fn push_more_values(text: &mut Vec<u8>, attributes: &[&PlanAttribute]) -> Result<(), AllocError>
    ensures { OnOk result (text.new.items
        ≡ text.old.items ++ flat_map (λ b. codes ", " ++ shown_value b.value) (map (λ a. a.now) attributes.now)) }
{
    for attribute in attributes {
        text.extend_from_slice(b", ")?;
        push_value(text, &attribute.value)?;
    }
    Ok(())
}
