//! The records of a plan: rules 302 to 307.

ghost use Rattle.std.specs.Prelude.{◌≡◌, ◌≢◌, ◌⊎◌, ◌+◌, ◌<◌, ◌≤◌, [], true, length, is_none, Any, IfOk, IfErr, IfSome, OnOk, MatchOption, None, Some, IsTrue, ◌↔◌, codes};
ghost use Rattle.std.specs.List.{AllZip, list_any};
ghost use Rattle.edi_line.specs.Bytes.{most_records};
ghost use Rattle.edi_line.specs.inner.Refusal.{first_broken};
ghost use Rattle.edi_record.specs.Records.{IsValueOf};
ghost use Rattle.edi_schema.specs.Classes.{place_of};
ghost use Rattle.edi_plan.specs.inner.Done.{IsDone};
ghost use Rattle.edi_plan.specs.PlanOf.{StatesPlanRecord};
ghost use Rattle.edi_record.specs.RecordRefusal.{IsRecordRefusal};
ghost use Rattle.edi_plan.specs.EarlierLinks.{IsEarlierLinkIfAny};
ghost use Rattle.edi_plan.specs.ReferenceRules.{BreaksReferenceRule};
ghost use Rattle.edi_plan.specs.inner.Resolving.{is_elsewhere, leaves, reference_tests, role_of_link, AreGiven, GivesEnd, AreReferences, IsPlanned, IsUnresolved, HasNoAttributeClass, Resolves};
ghost use Rattle.edi_plan.specs.inner.SideTable.{link_join, HaveEntries, IsNoted};
ghost use Rattle.edi_plan.specs.inner.RecordLists.{plan_records_of};

use crate::arc_sides::ArcSides;
use crate::earlier_links::earlier_link;
use crate::fault::{RefFault, Unplanned, Unresolved};
use crate::link_findings::link_role;
use crate::planned::{PlanHead, PlannedRecord, RecordList};
use crate::record::{PlanAttribute, PlanEnd};
use crate::references::{References, Subset};
use crate::sides::{note_link, without_links};
use crate::spare_parts::SpareParts;
use crate::targets::Target;
use edi_line::{Num, Text, same_bytes};
use edi_record::{Attribute, End, Name, RecordRef, SheetRecords, Value};
use edi_schema::{ClassFinder, ClassRef, Schema};
use std::alloc::{AllocError, Global};

/// A number where the text may be one and is one, and its bytes elsewhere.
fn value_of(may_be_number: bool, text: &Text) -> Result<Value, AllocError>
    ensures { IfOk result (IsValueOf (may_be_number ≡ true) text.now) }
{
    if may_be_number {
        match Num::read(text.as_slice()) {
            Some(number) => Ok(Value::Number(number)),
            None => Ok(Value::Bytes(text.clone()?)),
        }
    } else {
        Ok(Value::Bytes(text.clone()?))
    }
}

pub(crate) fn is_attribute_type(rty: &Text) -> bool
    ensures { IsTrue result ↔ (rty.now ≡ codes "ATT") }
{
    rty.as_slice() == b"ATT".as_slice()
}

/// The class of an attribute under a schema, if it is one of type `ATT` there.
fn attribute_class(schema: &Schema, classes: &mut ClassFinder<'_>, name: &Name) -> Option<ClassRef>
    requires { classes.old ≡ schema.now }
    ensures class { MatchOption result ((name.now.rty ≢ codes "ATT") ⊎ (place_of schema.now name.now ≡ None))
        (λ class. (name.now.rty ≡ codes "ATT") × (place_of schema.now name.now ≡ Some class)
        × (class < length schema.now)) }
    ensures same { classes.new ≡ schema.now }
{
    let _ = schema;
    if is_attribute_type(&name.rty) {
        classes.class(name)
    } else {
        None
    }
}

/// A text with memory of its own.
#[inline(never)]
fn copy_text(text: &Text) -> Result<Option<Text>, AllocError>
    ensures { IfOk result (λ copy. copy ≡ Some text.now) }
{
    Ok(Some(text.clone()?))
}

/// A text that may be absent, with memory of its own. Nearly each is absent, and then nothing is made ready for a copy.
#[inline(always)]
fn copy_if_any(text: &Option<Text>) -> Result<Option<Text>, AllocError>
    ensures { IfOk result (λ copy. copy ≡ text.now) }
{
    match text {
        Some(text) => copy_text(text),
        None => Ok(None),
    }
}

/// An attribute under a schema that has this class for it; or rule 303, where it has none.
fn plan_attribute(
    schema: &Schema,
    classes: &mut ClassFinder<'_>,
    attribute: &Attribute,
) -> Result<PlanAttribute, Unresolved>
    requires { classes.old ≡ schema.now }
    ensures ok { IfOk result (Resolves schema.now attribute.now) }
    ensures err { IfErr result (IsUnresolved (λ rule. (rule ≡ 303) × HasNoAttributeClass schema.now attribute.now)) }
    ensures same { classes.new ≡ schema.now }
{
    let Some(class) = attribute_class(schema, classes, &attribute.atp) else {
        return Err(Unresolved::Broken(303));
    };
    Ok(PlanAttribute {
        atp: class,
        tex: copy_if_any(&attribute.tex)?,
        value: value_of(schema.is_number(class), &attribute.atv)?,
    })
}

/// The attributes under a schema, in a list that is empty; or rule 303, where one has no class there.
fn plan_attributes(
    schema: &Schema,
    classes: &mut ClassFinder<'_>,
    attributes: &[Attribute],
    mut done: Vec<PlanAttribute>,
) -> Result<Vec<PlanAttribute>, Unresolved>
    requires empty { done.items ≡ [] }
    requires schema { classes.old ≡ schema.now }
    ensures ok { IfOk result (λ done. AllZip (Resolves schema.now) attributes.now done.items) }
    ensures err { IfErr result (IsUnresolved (λ rule. (rule ≡ 303) × Any (HasNoAttributeClass schema.now) attributes.now)) }
    ensures same { classes.new ≡ schema.now }
{
    for attribute in attributes {
        done.push(plan_attribute(schema, classes, attribute)?)?;
    }
    Ok(done)
}

fn plan_end(target: Target, end: &End) -> Result<PlanEnd, AllocError>
    ensures { IfOk result (GivesEnd (Some target) end.now) }
{
    Ok(PlanEnd {
        target: target.place,
        sns: copy_if_any(end.sns())?,
    })
}

/// The ends of a record, each with its target, in a list that is empty; or rule 305, where one has none.
fn plan_ends(
    targets: &[Option<Target>],
    ends: &[End],
    mut done: Vec<PlanEnd>,
) -> Result<Vec<PlanEnd>, Unresolved>
    requires long { length targets.now ≡ length ends.now }
    requires empty { done.items ≡ [] }
    ensures ok { IfOk result (λ done. AreGiven targets.now ends.now done.items) }
    ensures err { IfErr result (IsUnresolved (λ rule. (rule ≡ 305) × (list_any is_none targets.now ≡ true))) }
{
    for (place, end) in ends.iter().enumerate() {
        let Some(target) = targets[place] else {
            return Err(Unresolved::Broken(305));
        };
        done.push(plan_end(target, end)?)?;
    }
    Ok(done)
}

/// Whether an end has another lot or subset.
#[tactic(auto, unfolding(crate::specs::inner::Resolving::is_elsewhere))]
fn is_other(subset: &Subset, end: &End) -> bool
    ensures { result ≡ is_elsewhere subset.now end.now }
{
    !same_bytes(end.lot(), subset.lot.as_slice())
        || !same_bytes(end.subset(), subset.subset.as_slice())
}

fn has_other(subset: &Subset, ends: &[End]) -> bool
    ensures { result ≡ list_any (is_elsewhere subset.now) ends.now }
{
    for end in ends {
        if is_other(subset, end) {
            return true;
        }
    }
    false
}

/// Whether an end has another lot or subset than the first end of all links.
pub(crate) fn leaves_subset(subset: &Option<Subset>, ends: &[End]) -> bool
    ensures { result ≡ leaves subset.now ends.now }
{
    match subset {
        Some(first) => has_other(first, ends),
        None => false,
    }
}

/// The record in the plan, whose class is known if the schema has it; or the least of the rules 302 to 307 that the
/// record breaks. What a link joins is noted.
fn plan_record(
    schema: &Schema,
    subset: &Option<Subset>,
    targets: &[Option<Target>],
    sides: &mut [ArcSides],
    class: Option<ClassRef>,
    classes: &mut ClassFinder<'_>,
    record: &RecordRef<'_>,
    spare: SpareParts,
) -> Result<PlannedRecord, Unresolved>
    requires schema { classes.old ≡ schema.now }
    requires class { class ≡ place_of schema.now record.now.scp }
    requires within { IfSome class (λ class. class < length schema.now) }
    requires long { length targets.now ≡ length record.now.ends }
    requires entries { HaveEntries sides.old targets.now }
    ensures planned { IfOk result (IsPlanned schema.now targets.now record.now) }
    ensures same { classes.new ≡ schema.now }
    ensures noted { OnOk result (IsNoted sides.old (role_of_link schema.now record.now)
        (link_join (role_of_link schema.now record.now) targets.now) sides.new) }
    ensures sound { OnOk result (first_broken (reference_tests schema.now subset.now targets.now sides.old record.now)
        ≡ None) }
    ensures least { IfErr result (IsUnresolved
        (λ rule. first_broken (reference_tests schema.now subset.now targets.now sides.old record.now) ≡ Some rule)) }
{
    let Some(class) = class else {
        return Err(Unresolved::Broken(302));
    };
    let attributes = plan_attributes(schema, classes, record.attributes(), spare.attributes)?;
    if leaves_subset(subset, record.ends()) {
        return Err(Unresolved::Broken(304));
    }
    let ends = plan_ends(targets, record.ends(), spare.ends)?;
    let role = schema.role(class);
    if record.kind().is_link() {
        note_link(sides, role, targets)?;
    }
    let kind = record.kind();
    Ok(PlannedRecord {
        head: PlanHead { kind, class, role },
        attributes,
        ends,
    })
}

fn is_place(repeat: Option<usize>, place: usize) -> bool
    ensures { IsTrue result ↔ (repeat ≡ Some place) }
{
    match repeat {
        Some(other) => other == place,
        None => false,
    }
}

/// A rule that is broken at a place from 0, with the earlier link of which it speaks.
fn broken_rule(rule: u16, place: usize, earlier: Option<u64>) -> Unplanned
    requires { place < most_records }
    ensures fault { result.fault ≡ RefFault.Broken rule (place + 1) }
    ensures earlier { result.earlier ≡ earlier }
{
    Unplanned {
        fault: RefFault::Broken {
            rule,
            at: place as u64 + 1,
        },
        earlier,
    }
}

/// The records of a plan, with what its arcs have.
#[derive(Drop)]
pub(crate) struct Planned {
    pub(crate) list: RecordList,
    pub(crate) sides: Vec<ArcSides>,
}

/// The records in the plan; or the first that breaks a rule of references, and the least rule there, of 307 with the
/// earlier link. What the plan doesn't have of the records is freed on the way.
pub(crate) fn plan_records(
    alloc: Global,
    schema: &Schema,
    references: &References,
    records: SheetRecords,
) -> Result<Planned, Unplanned>
    requires few { length records ≤ most_records }
    requires references { AreReferences records references.now }
    ensures each { IfOk result (λ p. AllZip (StatesPlanRecord schema.now records) records (plan_records_of p.list)) }
    ensures sides { IfOk result (λ p. IsDone schema.now records (length records) p.sides.items) }
    ensures least { IfErr result (λ u. IsRecordRefusal (BreaksReferenceRule schema.now records) u.fault) }
    ensures earlier { IfErr result (λ u. IsEarlierLinkIfAny schema.now records u.fault u.earlier) }
{
    let mut sides = without_links(alloc, records.len())?;
    let mut targets = references.targets.as_slice();
    let mut classes = ClassFinder::new(schema);
    let mut attribute_classes = ClassFinder::new(schema);
    let mut spare = SpareParts::new(alloc);
    let mut remaking = records.into_remaking();
    let mut place = 0;
    while let Some(record) = remaking.first() {
        if is_place(references.repeat, place) {
            return Err(broken_rule(301, place, None));
        }
        let (own, later) = targets.split_at(record.ends().len());
        let class = classes.class(record.scp());
        match plan_record(
            schema,
            &references.subset,
            own,
            &mut sides,
            class,
            &mut attribute_classes,
            &record,
            spare,
        ) {
            Ok(planned) => spare = planned.put(&mut remaking)?,
            Err(Unresolved::Memory(error)) => return Err(Unplanned::from(error)),
            Err(Unresolved::Broken(rule)) => {
                let role = link_role(schema, &record);
                let earlier = earlier_link(rule, &remaking.into_made(), role, own);
                return Err(broken_rule(rule, place, earlier));
            }
        }
        targets = later;
        place += 1;
    }
    Ok(Planned {
        list: remaking.into_made(),
        sides,
    })
}
