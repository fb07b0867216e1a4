//! Which rules of references each record of a sheet breaks.

ghost use Rattle.std.specs.Prelude.{◌≡◌, ◌↔◌, ◌+◌, ◌<◌, ◌≤◌, IsTrue, length, None, IfOk};
ghost use Rattle.std.specs.List.{list_any};
ghost use Rattle.edi_line.specs.Bytes.{most_records};
ghost use Rattle.edi_plan.specs.inner.Resolving.{lacks_class as lacks_class_test};
ghost use Rattle.edi_plan.specs.ReferenceRules.{BreaksReferenceRule, RepeatsRecordName, HasUnknownClass, LacksAttributeClass, LeavesSubset, NamesNothing, JoinsWrong, RepeatsSide};

use crate::link_findings::{LinkFindings, link_findings};
use crate::name_places::NamePlaces;
use crate::records::{is_attribute_type, leaves_subset};
use crate::references::{Subset, subset_of};
use crate::repeated_names::repeated_names;
use crate::targets::targets;
use edi_line::Sequence;
use edi_record::{Attribute, SheetRecords};
use edi_schema::Schema;
use std::alloc::{AllocError, Global};
use std::marker::Model;

/// What is looked up once to say which rules of references (301 to 307) a record of a sheet breaks. It holds for any
/// records, also where earlier ones break rules.
pub struct ReferenceFindings<'a> {
    schema: &'a Schema,
    records: &'a SheetRecords,
    subset: Option<Subset>,
    repeats: Sequence<bool>,
    links: Sequence<LinkFindings>,
}

impl Drop for ReferenceFindings<'_> {
    fn drop(self) {
        let ReferenceFindings {
            schema: _,
            records: _,
            subset: _,
            repeats: _,
            links: _,
        } = self;
    }
}

impl<'a> Model for ReferenceFindings<'a> {
    ghost use Rattle.std.specs.Prelude.{◌≡◌};
    ghost use Rattle.edi_plan.specs.RecordsUnderSchema.{RecordsUnderSchema};
    ghost use Rattle.edi_plan.specs.inner.Findings.{AreRepeats, AreLinkFindings};
    ghost use Rattle.edi_plan.specs.inner.Resolving.{first_subset};

    ghost Value = { RecordsUnderSchema };

    ghost view = { λ f. record { classes = f.schema.now; list = f.records.now } };

    ghost invariant = { λ f. (f.subset ≡ first_subset f.records.now)
        × AreRepeats f.schema.now f.records.now f.repeats × AreLinkFindings f.schema.now f.records.now f.links };
}

/// Whether an attribute's class isn't of type `ATT`, or is none of the schema's.
fn lacks_class(schema: &Schema, attribute: &Attribute) -> bool
    ensures { result ≡ lacks_class_test schema.now attribute.now }
{
    !is_attribute_type(&attribute.atp.rty) || schema.class(&attribute.atp).is_none()
}

/// Whether the class of one of the attributes isn't of type `ATT`, or is none of the schema's.
fn any_lacks_class(schema: &Schema, attributes: &[Attribute]) -> bool
    ensures { result ≡ list_any (lacks_class_test schema.now) attributes.now }
{
    for attribute in attributes {
        if lacks_class(schema, attribute) {
            return true;
        }
    }
    false
}

impl<'a> ReferenceFindings<'a> {
    /// What is found of the records of a sheet under a schema.
    pub fn of(
        alloc: Global,
        schema: &'a Schema,
        records: &'a SheetRecords,
    ) -> Result<ReferenceFindings<'a>, AllocError>
        requires { length records.now ≤ most_records }
        ensures { IfOk result (λ found. found ≡ record { classes = schema.now; list = records.now }) }
    {
        let names = NamePlaces::among(alloc, records)?;
        let targets = targets(alloc, &names, records)?;
        let repeats = repeated_names(alloc, records)?;
        let links = link_findings(alloc, schema, &targets, records)?;
        Ok(ReferenceFindings {
            schema,
            records,
            subset: subset_of(alloc, records)?,
            repeats: Sequence::from_vec(repeats),
            links: Sequence::from_vec(links),
        })
    }

    /// Whether the record at a place has the name of an earlier one.
    fn repeats_name(&self, place: usize) -> bool
        requires { place < length self.now.list }
        ensures { IsTrue result ↔ RepeatsRecordName self.now.classes self.now.list (place + 1) }
    {
        self.repeats.as_slice()[place]
    }

    /// Whether its class is none of the schema's.
    fn has_unknown_class(&self, place: usize) -> bool
        requires { place < length self.now.list }
        ensures { IsTrue result ↔ HasUnknownClass self.now.classes self.now.list (place + 1) }
    {
        self.schema
            .class(self.records.record(place).scp())
            .is_none()
    }

    /// Whether the class of one of its attributes isn't of type `ATT`, or is none of the schema's.
    fn lacks_attribute_class(&self, place: usize) -> bool
        requires { place < length self.now.list }
        ensures { IsTrue result ↔ LacksAttributeClass self.now.classes self.now.list (place + 1) }
    {
        any_lacks_class(self.schema, self.records.record(place).attributes())
    }

    /// Whether one of its ends has another lot or subset than the first end of all links.
    fn leaves_subset(&self, place: usize) -> bool
        requires { place < length self.now.list }
        ensures { IsTrue result ↔ LeavesSubset self.now.classes self.now.list (place + 1) }
    {
        leaves_subset(&self.subset, self.records.record(place).ends())
    }

    /// Whether one of its ends names no node, arc, face or object.
    fn names_nothing(&self, place: usize) -> bool
        requires { place < length self.now.list }
        ensures { IsTrue result ↔ NamesNothing self.now.classes self.now.list (place + 1) }
    {
        self.links.as_slice()[place].names_nothing
    }

    /// Whether it is a link of one of the four kinds and doesn't join one arc with one node or face, as its kind does.
    fn joins_wrong(&self, place: usize) -> bool
        requires { place < length self.now.list }
        ensures { IsTrue result ↔ JoinsWrong self.now.classes self.now.list (place + 1) }
    {
        self.links.as_slice()[place].joins_wrong
    }

    /// Whether it is a link of one of the four kinds and names an arc that an earlier link of that kind names.
    fn repeats_side(&self, place: usize) -> bool
        requires { place < length self.now.list }
        ensures { IsTrue result ↔ RepeatsSide self.now.classes self.now.list (place + 1) }
    {
        self.links.as_slice()[place].repeats_side
    }

    /// Whether the record at a place, from 0, breaks a rule of references (docs/FORMAT.md, "The rules of a sheet").
    pub fn breaks(&self, rule: u16, place: u32) -> bool
        requires { place < length self.now.list }
        ensures { IsTrue result ↔ BreaksReferenceRule self.now.classes self.now.list rule (place + 1) }
    {
        let place = place as usize;
        match rule {
            301 => self.repeats_name(place),
            302 => self.has_unknown_class(place),
            303 => self.lacks_attribute_class(place),
            304 => self.leaves_subset(place),
            305 => self.names_nothing(place),
            306 => self.joins_wrong(place),
            307 => self.repeats_side(place),
            _ => false,
        }
    }
}
