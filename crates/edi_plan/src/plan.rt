ghost use Rattle.std.specs.Prelude.{◌≡◌, ◌≢◌, ◌↔◌, ◌<◌, ◌≤◌, length, Some, OnOk, IfOk, IfErr, MatchOption, option_copied, ℕ};
ghost use Rattle.edi_line.specs.Refusal.{IsUnbroken};

use crate::arc_sides::ArcSides;
use crate::fault::{RefFault, Unplanned};
use crate::places::Places;
use crate::planned::RecordList;
use crate::record::{PlanAttribute, PlanEnd};
use crate::records::plan_records;
use crate::references::References;
use edi_line::{Sequence, Text};
use edi_record::{Extra, Kind, Point, Sheet};
use edi_schema::{ClassRef, Role, Schema};
use std::alloc::Global;
use std::marker::Model;

/// The plan that the records of a sheet state.
pub struct Plan {
    cse: Option<Text>,
    list: RecordList,
    sides: Sequence<ArcSides>,
    places: Places,
}

impl Drop for Plan {
    fn drop(self) {
        let Plan {
            cse: _,
            list: _,
            sides: _,
            places: _,
        } = self;
    }
}

impl Model for Plan {
    ghost use Rattle.edi_plan.specs.Plans.{PlanData};
    ghost use Rattle.edi_plan.specs.inner.Places.{ArePlacesOf};
    ghost use Rattle.edi_plan.specs.inner.SideTable.{HoldsSides};
    ghost use Rattle.edi_plan.specs.inner.RecordLists.{plan_records_of};

    ghost Value = { PlanData };

    ghost view = { λ p. record { cse = p.cse; list = plan_records_of p.list } };

    ghost invariant = { λ p. HoldsSides (record { cse = p.cse; list = plan_records_of p.list }) p.sides
        × ArePlacesOf (plan_records_of p.list) p.places };
}

impl Plan {
    ghost use Rattle.edi_plan.specs.Agreeing.{Agrees};
    ghost use Rattle.edi_plan.specs.PlanOf.{IsPlanOf};
    ghost use Rattle.edi_plan.specs.Plans.{IsPlace, record_at};
    ghost use Rattle.edi_plan.specs.Places.{places_of};
    ghost use Rattle.edi_plan.specs.Sides.{IsSideIfAny};
    ghost use Rattle.edi_plan.specs.Joined.{IsJoined};
    ghost use Rattle.edi_plan.specs.Whole.{IsWholePlan};
    ghost use Rattle.edi_plan.specs.EarlierLinks.{IsEarlierLinkIfAny};
    ghost use Rattle.edi_plan.specs.ReferenceRules.{BreaksReferenceRule};
    ghost use Rattle.edi_record.specs.RecordRefusal.{IsRecordRefusal};

    /// The plan of a sheet under a schema, or the least record that breaks a rule of references
    /// (301 to 307) and the least rule there.
    pub fn build(alloc: Global, schema: &Schema, sheet: Sheet) -> Result<Plan, RefFault>
        ensures plan { IfOk result (IsPlanOf schema.now sheet) }
        ensures agrees { IfOk result (Agrees schema.now) }
        ensures sound { OnOk result (IsUnbroken (BreaksReferenceRule schema.now sheet.list)) }
        ensures least { IfErr result (IsRecordRefusal (BreaksReferenceRule schema.now sheet.list)) }
    {
        match Plan::build_with_earlier(alloc, schema, sheet) {
            Ok(plan) => Ok(plan),
            Err(Unplanned { fault, earlier: _ }) => Err(fault),
        }
    }

    /// What `build` gives, and beside a fault by 307 the earlier link.
    pub fn build_with_earlier(
        alloc: Global,
        schema: &Schema,
        sheet: Sheet,
    ) -> Result<Plan, Unplanned>
        ensures plan { IfOk result (IsPlanOf schema.now sheet) }
        ensures agrees { IfOk result (Agrees schema.now) }
        ensures sound { OnOk result (IsUnbroken (BreaksReferenceRule schema.now sheet.list)) }
        ensures least { IfErr result (λ u. IsRecordRefusal (BreaksReferenceRule schema.now sheet.list) u.fault) }
        ensures earlier { IfErr result (λ u. IsEarlierLinkIfAny schema.now sheet.list u.fault u.earlier) }
    {
        let (cse, list) = sheet.into_parts();
        let references = References::among(alloc, &list)?;
        let planned = plan_records(alloc, schema, &references, list)?;
        let places = Places::among(alloc, &planned.list)?;
        Ok(Plan {
            cse,
            list: planned.list,
            sides: Sequence::from_vec(planned.sides),
            places,
        })
    }

    /// How many records there are.
    pub fn len(&self) -> u32
        ensures { result ≡ length self.now.list }
    {
        self.list.len() as u32
    }

    /// The character set of the sheet, if it names one.
    pub fn cse(&self) -> Option<&[u8]>
        ensures { option_copied result ≡ self.now.cse }
    {
        match &self.cse {
            Some(text) => Some(text.as_slice()),
            None => None,
        }
    }

    /// The type of a record; places are counted from 0, in file order.
    pub fn kind(&self, place: u32) -> Kind
        requires { IsPlace self.now place }
        ensures { result ≡ (record_at self.now place).kind }
    {
        self.places.kind(place)
    }

    /// The class of a record.
    pub fn scp(&self, place: u32) -> ClassRef
        requires { IsPlace self.now place }
        ensures { result ≡ (record_at self.now place).class }
    {
        self.list.record(place as usize).head.class
    }

    /// The kind of link that the class of a record has. It says something of links alone, though records of other types
    /// may have such a class.
    pub fn role(&self, place: u32) -> Role
        requires { IsPlace self.now place }
        ensures { result ≡ (record_at self.now place).role }
    {
        self.list.record(place as usize).head.role
    }

    /// The points of a node or an arc, in file order; their coordinates are whole millionths of the file's unit.
    pub fn points(&self, place: u32) -> &[Point]
        requires { IsPlace self.now place }
        ensures { result.now ≡ (record_at self.now place).points }
    {
        self.list.record(place as usize).points
    }

    /// The attributes of a record, in file order.
    pub fn attributes(&self, place: u32) -> &[PlanAttribute]
        requires { IsPlace self.now place }
        ensures { result.now ≡ (record_at self.now place).attributes }
    {
        self.list.record(place as usize).attributes
    }

    /// The extra zones of a record, in file order.
    pub fn extras(&self, place: u32) -> &[Extra]
        requires { IsPlace self.now place }
        ensures { result.now ≡ (record_at self.now place).extras }
    {
        self.list.record(place as usize).extras
    }

    /// The ends of a link, the origin first.
    pub fn ends(&self, place: u32) -> &[PlanEnd]
        requires { IsPlace self.now place }
        ensures { result.now ≡ (record_at self.now place).ends }
    {
        self.list.record(place as usize).ends
    }

    /// The node or the face that an arc has by its link of a role, or `None` where it has no such link.
    pub fn side(&self, place: u32, role: Role) -> Option<u32>
        requires { IsPlace self.now place }
        ensures { IsSideIfAny self.now place role result }
    {
        self.sides.as_slice()[place as usize].of(role)
    }

    /// The places of the records of a type, in file order.
    pub fn places(&self, kind: Kind) -> &[u32]
        ensures { result.now ≡ places_of kind self.now }
    {
        self.places.of(kind)
    }

    /// What each plan keeps.
    pub fn keeps(&self)
        ensures whole { IsWholePlan self.now }
        ensures joined { IsJoined self.now }
    {
        let _ = &self.list;
    }
}
