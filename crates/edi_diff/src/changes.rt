//! What became of the records of one sheet in another.

ghost use Rattle.std.specs.Prelude.{◌≡◌, IfOk, IsTrue, length, true};
ghost use Rattle.edi_record.specs.declared.record.Kind.TheVariants.{Par};
ghost use Rattle.edi_plan.specs.Plans.{record_at};
ghost use Rattle.edi_schema.specs.Classes.{Classes};
ghost use Rattle.edi_matching.specs.Matchings.{MatchingHolds};
ghost use Rattle.edi_matching.specs.declared.matching.Matching.{Matching as UnchangedMatching};
ghost use Rattle.edi_report.specs.Tables.{AreMarks};
ghost use Rattle.edi_diff.specs.Directions.{RunsBackwards};
ghost use Rattle.edi_diff.specs.inner.LonePairs.{AreProposals};
ghost use Rattle.edi_diff.specs.inner.Progress.{progress_by};
ghost use Rattle.edi_diff.specs.inner.Steps.{AreSteps, MayGo};

use crate::directions::runs_backwards;
use crate::proposing::Open;
use edi_matching::Matching;
use edi_plan::Plan;
use edi_record::Kind;
use edi_report::reached_marks;
use std::alloc::{AllocError, Global};

/// A record of the first sheet, and one of the second that it may have become.
#[derive(Clone, Copy)]
pub(crate) struct Proposal {
    pub(crate) place: u32,
    pub(crate) target: u32,
}

/// Where the records of the first sheet went, as they were or changed.
#[derive(Drop)]
pub(crate) struct Changes {
    /// For each record of the first sheet the one of the second that it is or became.
    pub(crate) to: Vec<Option<u32>>,
    /// Of each record of the first sheet, whether it is an arc to reverse.
    pub(crate) turned: Vec<bool>,
    /// Of each record of the second sheet, whether one of the first went there.
    pub(crate) reached: Vec<bool>,
}

/// The matched records, and beside them those that plainly became others: nodes and arcs by their points, records by
/// their contents, by what links join them with, and links by their ends. What is taken first settles what comes behind
/// it.
pub(crate) fn changes_between(
    alloc: Global,
    plan: &Plan,
    other: &Plan,
    unchanged: &Matching,
) -> Result<Changes, AllocError>
    requires { (s : Classes) × MatchingHolds s plan.now other.now unchanged.now }
    ensures { IfOk result (λ c. AreSteps plan.now other.now unchanged.now c.to.items c.turned.items c.reached.items) }
{
    let mut changes = changes_of_matching(alloc, other, unchanged)?;
    for way in WAYS {
        changes.grow(alloc, plan, other, way)?;
    }
    Ok(changes)
}

/// By what records are found that became others.
#[derive(Clone, Copy)]
enum Way {
    Points,
    Contents,
    Joined,
    Ends,
}

/// An object is joined with a face, a face with its arcs and an arc with its nodes, so a moved node takes three steps.
const WAYS: [Way; 6] = [
    Way::Points,
    Way::Contents,
    Way::Joined,
    Way::Joined,
    Way::Joined,
    Way::Ends,
];

/// The matched records.
fn changes_of_matching(
    alloc: Global,
    other: &Plan,
    unchanged: &Matching,
) -> Result<Changes, AllocError>
    ensures to { IfOk result (λ c. c.to.items ≡ unchanged.now.to) }
    ensures turned { IfOk result (λ c. c.turned.items ≡ unchanged.now.turned) }
    ensures reached { IfOk result (λ c. AreMarks unchanged.now.to (length other.now.list) c.reached.items) }
{
    let to = Vec::from_slice(alloc, unchanged.to.as_slice())?;
    let turned = Vec::from_slice(alloc, unchanged.turned.as_slice())?;
    let reached = reached_marks(alloc, unchanged.to.as_slice(), other.len())?;
    Ok(Changes {
        to,
        turned,
        reached,
    })
}

impl Changes {
    /// Lets records become others that are found in one way.
    fn grow(&mut self, alloc: Global, plan: &Plan, other: &Plan, way: Way) -> Result<(), AllocError>
        ensures { (unchanged : UnchangedMatching)
            → AreSteps plan.now other.now unchanged self.old.to.items self.old.turned.items self.old.reached.items
            → AreSteps plan.now other.now unchanged self.new.to.items self.new.turned.items self.new.reached.items }
    {
        let proposals = self.proposals(alloc, plan, other, way)?;
        self.add_all(plan, other, &proposals);
        Ok(())
    }

    /// What records may have become, by one way.
    fn proposals(
        &self,
        alloc: Global,
        plan: &Plan,
        other: &Plan,
        way: Way,
    ) -> Result<Vec<Proposal>, AllocError>
        ensures { IfOk result (λ found. AreProposals (progress_by plan.now other.now self.now) way found.items) }
    {
        let open = Open {
            plan,
            other,
            changes: self,
        };
        match way {
            Way::Points => open.by_points(alloc),
            Way::Contents => open.by_contents(alloc),
            Way::Joined => open.by_joints(alloc),
            Way::Ends => open.by_ends(alloc),
        }
    }

    /// Lets each of these records become the other, in this order, if it may.
    fn add_all(&mut self, plan: &Plan, other: &Plan, proposals: &[Proposal])
        ensures { (unchanged : UnchangedMatching)
            → AreSteps plan.now other.now unchanged self.old.to.items self.old.turned.items self.old.reached.items
            → AreSteps plan.now other.now unchanged self.new.to.items self.new.turned.items self.new.reached.items }
    {
        for proposal in proposals {
            self.add(plan, other, *proposal);
        }
    }

    /// Lets a record become another, if neither is met yet and both are of one type.
    fn add(&mut self, plan: &Plan, other: &Plan, proposal: Proposal)
        ensures { (unchanged : UnchangedMatching)
            → AreSteps plan.now other.now unchanged self.old.to.items self.old.turned.items self.old.reached.items
            → AreSteps plan.now other.now unchanged self.new.to.items self.new.turned.items self.new.reached.items }
    {
        let i = proposal.place as usize;
        let j = proposal.target as usize;
        if i >= self.to.len() || i >= self.turned.len() || j >= self.reached.len() {
            return;
        }
        if self.to[i].is_some() || self.reached[j] || !may_go(plan, other, proposal) {
            return;
        }
        self.to[i] = Some(proposal.target);
        self.turned[i] = is_turned(plan, other, proposal);
        self.reached[j] = true;
    }
}

/// Whether both are records of one type.
fn may_go(plan: &Plan, other: &Plan, proposal: Proposal) -> bool
    ensures { IsTrue result → MayGo plan.now other.now proposal.place proposal.target }
{
    if proposal.place >= plan.len() || proposal.target >= other.len() {
        return false;
    }
    other.kind(proposal.target) == plan.kind(proposal.place)
}

/// Whether an arc runs in the opposite direction of the other.
fn is_turned(plan: &Plan, other: &Plan, proposal: Proposal) -> bool
    requires { MayGo plan.now other.now proposal.place proposal.target }
    ensures arc { result ≡ true → (record_at plan.now proposal.place).kind ≡ Par }
    ensures turn { (record_at plan.now proposal.place).kind ≡ Par
        → RunsBackwards (record_at plan.now proposal.place).points (record_at other.now proposal.target).points result }
{
    plan.kind(proposal.place) == Kind::Par
        && runs_backwards(plan.points(proposal.place), other.points(proposal.target))
}
