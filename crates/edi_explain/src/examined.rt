//! A sheet that is accepted; or refused, with the earlier record or the node that the rule speaks of.

ghost use Rattle.std.specs.Prelude.{◌≡◌, ◌⊎◌, ◌-◌, ◌<◌, ℕ, List, OnOk, IfOk, IfErr};
ghost use Rattle.edi_line.specs.LineRules.{BreaksLineRule};
ghost use Rattle.edi_line.specs.Refusal.{IsUnbroken};
ghost use Rattle.edi_plan.specs.EarlierLinks.{IsEarlierLinkIfAny};
ghost use Rattle.edi_plan.specs.ReferenceRules.{BreaksReferenceRule};
ghost use Rattle.edi_record.specs.RecordRefusal.{IsRecordRefusal};
ghost use Rattle.edi_record.specs.declared.fault.RecordFault.TheVariants.{Broken};
ghost use Rattle.edi_record.specs.Records.{SheetData};
ghost use Rattle.edi_plan.specs.Plans.{PlanData};
ghost use Rattle.edi_topo.specs.EarlierRecords.{IsEarlierRecordIfAny};
ghost use Rattle.edi_topo.specs.TopologyRules.{BreaksTopologyRule};
ghost use Rattle.edi_rank.specs.EqualObjects.{BreaksObjectRule, IsEqualObjectIfAny};
ghost use Rattle.edi_compare.specs.PlanOfFile.{IsPlanOfFile, IsSheetOf};
ghost use Rattle.edi_compare.specs.Refused.{IsRefusal};
ghost use Rattle.edi_compare.specs.Rules.{IsAccepted, RecordsHold, ReferencesHold, TopologyHolds};
ghost use Rattle.edi_compare.specs.declared.fault.Fault.TheVariants.{Entry as AtRecord};
ghost use Rattle.edi_schema.specs.Classes.{Classes};
ghost use Rattle.edi_explain.specs.EndNodes.{IsEndNodeIfAny};
ghost use Rattle.edi_explain.specs.Found.{IsFound};
ghost use Rattle.edi_explain.specs.Refusals.{IsEarlierIfAny};
ghost use Rattle.edi_explain.specs.inner.Found.{IsExamined, SpeaksOfNone};

use crate::end_nodes::end_node;
use crate::refused::earlier_in_zones;
use crate::site::zones_of;
use edi_compare::Fault;
use edi_line::Zone;
use edi_plan::{Plan, RefFault, Unplanned};
use edi_rank::{RankFault, Unranked, tell_objects_apart_with_earlier};
use edi_record::{Sheet, read_sheet};
use edi_schema::Schema;
use edi_topo::{Sound, TopoFault, Unsound};
use std::alloc::Global;

/// Why a sheet is refused.
#[derive(Drop)]
pub struct Found<'a> {
    pub fault: Fault,
    /// The place of the earlier record that the rule speaks of, counted from 0.
    pub earlier: Option<u64>,
    /// The place of the node that the rule speaks of beside an arc, counted from 0.
    pub node: Option<u64>,
    /// The zones of the file, if they were read for the earlier record.
    pub zones: Option<Vec<Zone<'a>>>,
}

/// A refusal that speaks of no other record.
fn found_alone<'a>(fault: Fault) -> Found<'a>
    ensures { (s : Classes) (b : List ℕ) → IsRefusal s b fault → SpeaksOfNone fault → IsFound s b result }
{
    Found {
        fault,
        earlier: None,
        node: None,
        zones: None,
    }
}

/// The refusal at a record, with the earlier record and the node that the rule speaks of.
fn found_at<'a>(rule: u16, at: u64, earlier: Option<u64>, node: Option<u64>) -> Found<'a>
    ensures { (s : Classes) (b : List ℕ) → IsRefusal s b (AtRecord rule at)
        → IsEarlierIfAny s b rule (at - 1) earlier → IsEndNodeIfAny s b rule (at - 1) node → IsFound s b result }
{
    Found {
        fault: Fault::Entry { rule, at },
        earlier,
        node,
        zones: None,
    }
}

/// The refusal at a record by 301 or 304, with the earlier one and the zones of the file.
fn found_in_zones<'a>(alloc: Global, bytes: &'a [u8], rule: u16, at: u64) -> Found<'a>
    requires lines { IsUnbroken (BreaksLineRule bytes.now) }
    requires rule { (rule ≡ 301) ⊎ (rule ≡ 304) }
    ensures { (s : Classes) (sheet : SheetData) → IsSheetOf bytes.now sheet → IsRefusal s bytes.now (AtRecord rule at)
        → IsFound s bytes.now result }
{
    match zones_of(alloc, bytes) {
        Ok(zones) => Found {
            fault: Fault::Entry { rule, at },
            earlier: earlier_in_zones(&zones, rule, at.saturating_sub(1)),
            node: None,
            zones: Some(zones),
        },
        Err(error) => found_alone(Fault::Memory(error)),
    }
}

/// The refusal at a record by a rule of references, of 307 with this earlier link.
fn found_early<'a>(
    alloc: Global,
    bytes: &'a [u8],
    rule: u16,
    at: u64,
    earlier: Option<u64>,
) -> Found<'a>
    requires { IsUnbroken (BreaksLineRule bytes.now) }
    ensures { (s : Classes) (sheet : SheetData) → rule < 400 → IsSheetOf bytes.now sheet
        → IsRefusal s bytes.now (AtRecord rule at) → IsEarlierLinkIfAny s sheet.list (Broken rule at) earlier
        → IsFound s bytes.now result }
{
    match rule {
        301 | 304 => found_in_zones(alloc, bytes, rule, at),
        _ => found_at(rule, at, earlier, None),
    }
}

/// The refusal of a sheet by a fault of its references.
fn found_unplanned<'a>(
    alloc: Global,
    schema: &Schema,
    bytes: &'a [u8],
    unplanned: Unplanned,
) -> Found<'a>
    requires { RecordsHold schema.now bytes.now }
    ensures { (sheet : SheetData) → IsSheetOf bytes.now sheet
        → IsRecordRefusal (BreaksReferenceRule schema.now sheet.list) unplanned.fault
        → IsEarlierLinkIfAny schema.now sheet.list unplanned.fault unplanned.earlier
        → IsFound schema.now bytes.now result }
{
    let _ = schema;
    let Unplanned { fault, earlier } = unplanned;
    match fault {
        RefFault::Memory(error) => found_alone(Fault::Memory(error)),
        RefFault::Broken { rule, at } => found_early(alloc, bytes, rule, at, earlier),
    }
}

/// The plan of a sheet, if no rule is broken; or why it is refused, with the earlier record or the node that the rule
/// speaks of. It answers as `accept` does. The file is read once; for 301 and 304, of which no plan is left, its zones
/// are too.
pub fn examine<'a>(alloc: Global, schema: &Schema, bytes: &'a [u8]) -> Result<Sound, Found<'a>>
    ensures accepted { OnOk result (IsAccepted schema.now bytes.now) }
    ensures plan { IfOk result (IsPlanOfFile schema.now bytes.now) }
    ensures found { IfErr result (IsFound schema.now bytes.now) }
{
    match read_sheet(alloc, bytes) {
        Ok(sheet) => examine_sheet(alloc, schema, bytes, sheet),
        Err(fault) => Err(found_alone(Fault::from(fault))),
    }
}

/// The same of a sheet that breaks no rule of records.
fn examine_sheet<'a>(
    alloc: Global,
    schema: &Schema,
    bytes: &'a [u8],
    sheet: Sheet,
) -> Result<Sound, Found<'a>>
    requires held { RecordsHold schema.now bytes.now }
    requires sheet { IsSheetOf bytes.now sheet }
    ensures { IsExamined schema.now bytes.now result }
{
    match Plan::build_with_earlier(alloc, schema, sheet) {
        Ok(plan) => examine_plan(alloc, schema, bytes, plan),
        Err(unplanned) => Err(found_unplanned(alloc, schema, bytes, unplanned)),
    }
}

/// The same of a plan that breaks no rule of references.
fn examine_plan<'a>(
    alloc: Global,
    schema: &Schema,
    bytes: &'a [u8],
    plan: Plan,
) -> Result<Sound, Found<'a>>
    requires held { ReferencesHold schema.now bytes.now }
    requires plan { IsPlanOfFile schema.now bytes.now plan }
    ensures { IsExamined schema.now bytes.now result }
{
    match Sound::check_or_return(alloc, plan) {
        Ok(sound) => examine_objects(alloc, schema, bytes, sound),
        Err(
            Unsound {
                plan,
                fault,
                earlier,
            },
        ) => Err(found_in_plan(schema, bytes, &plan, fault, earlier)),
    }
}

/// The refusal of a sheet by a fault of its plan, of 403 and 405 with this earlier record.
fn found_in_plan<'a>(
    schema: &Schema,
    bytes: &'a [u8],
    plan: &Plan,
    fault: TopoFault,
    earlier: Option<u64>,
) -> Found<'a>
    requires held { ReferencesHold schema.now bytes.now }
    requires plan { IsPlanOfFile schema.now bytes.now plan.now }
    requires least { IsRecordRefusal (BreaksTopologyRule plan.now) fault }
    requires earlier { IsEarlierRecordIfAny plan.now fault earlier }
    ensures { IsFound schema.now bytes.now result }
{
    let _ = schema;
    let _ = bytes;
    match fault {
        TopoFault::Memory(error) => found_alone(Fault::Memory(error)),
        TopoFault::Broken { rule, at } => {
            let node = end_node(plan, rule, at.saturating_sub(1));
            found_at(rule, at, earlier, node)
        }
    }
}

/// The same of a plan that breaks no rule of topology.
fn examine_objects<'a>(
    alloc: Global,
    schema: &Schema,
    bytes: &'a [u8],
    sound: Sound,
) -> Result<Sound, Found<'a>>
    requires held { TopologyHolds schema.now bytes.now }
    requires plan { IsPlanOfFile schema.now bytes.now sound }
    ensures { IsExamined schema.now bytes.now result }
{
    let _ = schema;
    let _ = bytes;
    match tell_objects_apart_with_earlier(alloc, &sound) {
        Ok(()) => Ok(sound),
        Err(unranked) => Err(found_unranked(unranked)),
    }
}

/// The refusal of a sheet by a fault of its objects.
fn found_unranked<'a>(unranked: Unranked) -> Found<'a>
    ensures { (s : Classes) (b : List ℕ) (p : PlanData) → TopologyHolds s b → IsPlanOfFile s b p
        → IsRecordRefusal (BreaksObjectRule p) unranked.fault
        → IsEqualObjectIfAny p unranked.fault unranked.earlier → IsFound s b result }
{
    let Unranked { fault, earlier } = unranked;
    match fault {
        RankFault::Memory(error) => found_alone(Fault::Memory(error)),
        RankFault::Broken { rule, at } => found_at(rule, at, earlier, None),
    }
}
