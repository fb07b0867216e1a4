ghost use Rattle.std.specs.Prelude.{◌≡◌, OnOk, IfOk, IfErr};
ghost use Rattle.edi_line.specs.Refusal.{IsUnbroken};
ghost use Rattle.edi_topo.specs.Arcs.{IsForwardRanking};
ghost use Rattle.edi_topo.specs.inner.AtRecord.{AreRecordFindings};
ghost use Rattle.edi_topo.specs.NodeKeys.{IsNodeRanking};

use crate::at_record::{RecordFindings, earlier_of, first_broken};
use crate::fault::TopoFault;
use crate::numbers::Ranks;
use edi_plan::Plan;
use std::alloc::Global;
use std::marker::Model;

/// A plan that breaks no rule of topology, with the numbers of its nodes and of its arcs.
pub struct Sound {
    plan: Plan,
    nodes: Ranks,
    arcs: Ranks,
}

impl Drop for Sound {
    fn drop(self) {
        let Sound {
            plan: _,
            nodes: _,
            arcs: _,
        } = self;
    }
}

/// A plan that breaks a rule of topology, with the fault, and the earlier record that 403 or 405 speaks of, by its
/// place from 0; or one for which there was no memory.
#[derive(Drop)]
pub struct Unsound {
    pub plan: Plan,
    pub fault: TopoFault,
    pub earlier: Option<u64>,
}

impl Model for Sound {
    ghost use Rattle.edi_plan.specs.Plans.{PlanData};

    ghost Value = { PlanData };

    ghost use Rattle.edi_line.specs.Refusal.{IsUnbroken};
    ghost use Rattle.edi_topo.specs.Arcs.{IsForwardRanking};
    ghost use Rattle.edi_topo.specs.NodeKeys.{IsNodeRanking};
    ghost use Rattle.edi_topo.specs.TopologyRules.{BreaksTopologyRule};

    ghost view = { λ s. s.plan };

    ghost invariant = { λ s. IsUnbroken (BreaksTopologyRule s.plan) × IsNodeRanking s.plan s.nodes
        × IsForwardRanking s.plan s.arcs };
}

impl Sound {
    ghost use Rattle.edi_topo.specs.EarlierRecords.{IsEarlierRecordIfAny};
    ghost use Rattle.edi_topo.specs.TopologyRules.{BreaksTopologyRule};
    ghost use Rattle.edi_plan.specs.Joined.{IsJoined};
    ghost use Rattle.edi_plan.specs.Whole.{IsWholePlan};
    ghost use Rattle.edi_record.specs.RecordRefusal.{IsRecordRefusal};

    /// The plan, if it breaks no rule of topology; or the least record that breaks one (401 to 406), and
    /// there the least rule (docs/FORMAT.md, "The rules of a sheet").
    pub fn check(alloc: Global, plan: Plan) -> Result<Sound, TopoFault>
        ensures plan { IfOk result (λ s. s ≡ plan) }
        ensures sound { OnOk result (IsUnbroken (BreaksTopologyRule plan)) }
        ensures least { IfErr result (IsRecordRefusal (BreaksTopologyRule plan)) }
    {
        match Sound::check_or_return(alloc, plan) {
            Ok(sound) => Ok(sound),
            Err(Unsound { fault, .. }) => Err(fault),
        }
    }

    /// What `check` gives, and beside a fault the plan, and beside 403 and 405 the first node that the refused one is
    /// equal to and the first arc with its points.
    pub fn check_or_return(alloc: Global, plan: Plan) -> Result<Sound, Unsound>
        ensures plan { IfOk result (λ s. s ≡ plan) }
        ensures sound { OnOk result (IsUnbroken (BreaksTopologyRule plan)) }
        ensures least { IfErr result (λ u. IsRecordRefusal (BreaksTopologyRule plan) u.fault) }
        ensures returned { IfErr result (λ u. u.plan ≡ plan) }
        ensures earlier { IfErr result (λ u. IsEarlierRecordIfAny plan u.fault u.earlier) }
    {
        plan.keeps();
        let findings = match RecordFindings::of(alloc, &plan) {
            Ok(findings) => findings,
            Err(error) => {
                let fault = TopoFault::Memory(error);
                return Err(Unsound {
                    plan,
                    fault,
                    earlier: None,
                });
            }
        };
        match first_broken(&plan, &findings) {
            Some((rule, place)) => {
                let earlier = earlier_of(&findings, rule);
                let fault = TopoFault::Broken {
                    rule,
                    at: u64::from(place) + 1,
                };
                Err(Unsound {
                    plan,
                    fault,
                    earlier,
                })
            }
            None => Ok(Sound::of(plan, findings)),
        }
    }

    /// The plan with the numbers that were found, where no record repeats an earlier one.
    fn of(plan: Plan, findings: RecordFindings) -> Sound
        requires sound { IsUnbroken (BreaksTopologyRule plan) }
        requires findings { AreRecordFindings plan findings }
        ensures { result ≡ plan }
    {
        match (findings.nodes, findings.arcs) {
            (Ok(nodes), Ok(arcs)) => Sound { plan, nodes, arcs },
            (Err(_), _) => unreachable!(),
            (_, Err(_)) => unreachable!(),
        }
    }

    /// The plan, which breaks no rule 401 to 406.
    pub fn plan(&self) -> &Plan
        ensures plan { result.now ≡ self.now }
        ensures sound { IsUnbroken (BreaksTopologyRule self.now) }
        ensures whole { IsWholePlan self.now }
        ensures joined { IsJoined self.now }
    {
        self.plan.keeps();
        &self.plan
    }

    /// The numbers of the nodes, in file order, from 1: by place, class, attributes and extras
    /// (docs/FORMAT.md, "The canonical file").
    pub fn node_ranks(&self) -> &Ranks
        ensures { IsNodeRanking self.now result.now }
    {
        &self.nodes
    }

    /// The numbers of the arcs, in file order, from 1: by their points in the forward direction.
    pub fn arc_ranks(&self) -> &Ranks
        ensures { IsForwardRanking self.now result.now }
    {
        &self.arcs
    }
}
