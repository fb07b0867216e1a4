//! All that the references, the topology and the objects of a sheet break.

ghost use Rattle.std.specs.Prelude.{◌≡◌, ◌↔◌, ◌<◌, ◌≤◌, ◌+◌, length, IfOk, IsTrue};
ghost use Rattle.edi_line.specs.AllBroken.{AreAllBroken};
ghost use Rattle.edi_line.specs.Bytes.{most_records};
ghost use Rattle.edi_plan.specs.ReferenceRules.{BreaksReferenceRule};
ghost use Rattle.edi_rank.specs.EqualObjects.{BreaksObjectRule};
ghost use Rattle.edi_topo.specs.Marks.{AreMarksOf};
ghost use Rattle.edi_topo.specs.TopologyRules.{BreaksTopologyRule};

use crate::judging::{Judging, broken_by};
use edi_line::BrokenRule;
use edi_plan::{Plan, ReferenceFindings};
use edi_rank::repeated_objects;
use edi_record::SheetRecords;
use edi_schema::Schema;
use edi_topo::{Sound, TopologyFindings};
use std::alloc::{AllocError, Global};
use std::marker::Model;

impl Judging for ReferenceFindings<'_> {
    ghost use Rattle.std.specs.Prelude.{length};
    ghost use Rattle.edi_plan.specs.ReferenceRules.{BreaksReferenceRule};

    ghost Breaks = { λ j. BreaksReferenceRule j.classes j.list };

    ghost size = { λ j. length j.list };

    fn breaks(&self, rule: u16, place: u32) -> bool {
        self.breaks(rule, place)
    }
}

/// All that the references of a sheet's records break under a schema.
pub fn broken_references(
    alloc: Global,
    schema: &Schema,
    records: &SheetRecords,
) -> Result<Vec<BrokenRule>, AllocError>
    requires { length records.now ≤ most_records }
    ensures { IfOk result (λ list. AreAllBroken (BreaksReferenceRule schema.now records.now) list.items) }
{
    let findings = ReferenceFindings::of(alloc, schema, records)?;
    broken_by(alloc, &findings, records.len() as u32, 301, 307)
}

impl Judging for TopologyFindings<'_> {
    ghost use Rattle.std.specs.Prelude.{length};
    ghost use Rattle.edi_topo.specs.TopologyRules.{BreaksTopologyRule};

    ghost Breaks = { λ j. BreaksTopologyRule j };

    ghost size = { λ j. length j.list };

    fn breaks(&self, rule: u16, place: u32) -> bool {
        self.breaks(rule, place)
    }
}

/// All that a plan breaks of the rules of topology.
pub fn broken_topology(alloc: Global, plan: &Plan) -> Result<Vec<BrokenRule>, AllocError>
    ensures { IfOk result (λ list. AreAllBroken (BreaksTopologyRule plan.now) list.items) }
{
    let findings = TopologyFindings::of(alloc, plan)?;
    broken_by(alloc, &findings, plan.len(), 401, 406)
}

/// The records of a sound plan, and which of them are objects that are equal to an earlier one.
#[derive(Drop)]
struct JudgedObjects<'a> {
    sound: &'a Sound,
    repeated: Vec<bool>,
}

impl<'a> Model for JudgedObjects<'a> {
    ghost use Rattle.std.specs.Prelude.{◌+◌, length};
    ghost use Rattle.edi_plan.specs.Plans.{PlanData};
    ghost use Rattle.edi_rank.specs.EqualObjects.{BreaksObjectRule};
    ghost use Rattle.edi_topo.specs.Marks.{AreMarksOf};

    ghost Value = { PlanData };

    ghost view = { λ j. j.sound.now };

    ghost invariant = { λ j. AreMarksOf (length j.sound.now.list)
        (λ place. BreaksObjectRule j.sound.now 501 (place + 1)) j.repeated.items };
}

impl Judging for JudgedObjects<'_> {
    ghost use Rattle.std.specs.Prelude.{length};
    ghost use Rattle.edi_rank.specs.EqualObjects.{BreaksObjectRule};

    ghost Breaks = { λ j. BreaksObjectRule j };

    ghost size = { λ j. length j.list };

    fn breaks(&self, rule: u16, place: u32) -> bool {
        match rule {
            501 => self.repeated[place as usize],
            _ => false,
        }
    }
}

/// All that a sound plan breaks of the rules of objects.
pub fn broken_objects(alloc: Global, sound: &Sound) -> Result<Vec<BrokenRule>, AllocError>
    ensures { IfOk result (λ list. AreAllBroken (BreaksObjectRule sound.now) list.items) }
{
    let judged = JudgedObjects {
        sound,
        repeated: repeated_objects(alloc, sound)?,
    };
    broken_by(alloc, &judged, sound.plan().len(), 501, 501)
}
