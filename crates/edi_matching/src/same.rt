//! Whether the plans of two sheets are the same.

ghost use Rattle.std.specs.Prelude.{◌≡◌, ◌↔◌, IfOk, IsTrue, MatchOption};
ghost use Rattle.edi_rank.specs.Labelling.{AreLabels};
ghost use Rattle.edi_rank.specs.Same.{Same};
ghost use Rattle.edi_compare.specs.Laws.{IsAcceptedPlan};
ghost use Rattle.edi_compare.specs.Pairings.{PairingCarries};
ghost use Rattle.edi_matching.specs.inner.Checksums.{HaveOneChecksum};
ghost use Rattle.edi_matching.specs.inner.Same.{AreAsMany};

use crate::checksum::plan_checksum;
use edi_compare::comparing_accepted::labels_of;
use edi_compare::contents::same_texts;
use edi_compare::numbered::{numbered_records, pairing_by_numbers};
use edi_compare::{Accepted, Pairing, check_pairing};
use edi_plan::Plan;
use edi_rank::Labels;
use edi_record::Kind;
use edi_schema::Schema;
use std::alloc::{AllocError, Global};

/// A pairing that carries the plan of the one sheet onto that of the other, if there is one.
pub(crate) fn same_pairing(
    alloc: Global,
    schema: &Schema,
    first: &Accepted,
    second: &Accepted,
) -> Result<Option<Pairing>, AllocError>
    requires first { IsAcceptedPlan schema.now first.now }
    requires second { IsAcceptedPlan schema.now second.now }
    ensures { IfOk result (λ found.
        MatchOption found (¬ (Same schema.now first.now second.now)) (PairingCarries schema.now first.now second.now)) }
{
    schema.keeps();
    let plan = first.sound().plan();
    let other = second.sound().plan();
    if !may_be_same(plan, other) {
        return Ok(None);
    }
    let labels = labels_of(alloc, schema, first.sound())?;
    let others = labels_of(alloc, schema, second.sound())?;
    pairing_by_labels(alloc, schema, first, second, labels, &others)
}

/// Whether two plans have one character set and one checksum, as they have if they are the same. Most that differ
/// haven't.
fn may_be_same(plan: &Plan, other: &Plan) -> bool
    ensures { IsTrue result ↔ HaveOneChecksum plan.now other.now }
{
    same_texts(other.cse(), plan.cse()) && plan_checksum(other) == plan_checksum(plan)
}

/// The pairing by types and numbers, if it carries the plan of the one sheet onto that of the other.
fn pairing_by_labels(
    alloc: Global,
    schema: &Schema,
    first: &Accepted,
    second: &Accepted,
    labels: Labels,
    others: &Labels,
) -> Result<Option<Pairing>, AllocError>
    requires first { IsAcceptedPlan schema.now first.now }
    requires second { IsAcceptedPlan schema.now second.now }
    requires labels { AreLabels schema.now first.now labels }
    requires others { AreLabels schema.now second.now others.now }
    ensures { IfOk result (λ found.
        MatchOption found (¬ (Same schema.now first.now second.now)) (PairingCarries schema.now first.now second.now)) }
{
    schema.keeps();
    if !are_as_many(&labels, others) {
        return Ok(None);
    }
    let records = numbered_records(alloc, first.sound().plan(), labels)?;
    let pairing = pairing_by_numbers(alloc, &records, others)?;
    if check_pairing(alloc, schema, first, second, &pairing)? {
        Ok(Some(pairing))
    } else {
        Ok(None)
    }
}

/// Whether there are as many records of each type.
fn are_as_many(labels: &Labels, others: &Labels) -> bool
    ensures { IsTrue result ↔ AreAsMany labels.now others.now }
{
    labels.order(Kind::Pno).len() == others.order(Kind::Pno).len()
        && labels.order(Kind::Par).len() == others.order(Kind::Par).len()
        && labels.order(Kind::Pfe).len() == others.order(Kind::Pfe).len()
        && labels.order(Kind::Fea).len() == others.order(Kind::Fea).len()
        && labels.order(Kind::Lnk).len() == others.order(Kind::Lnk).len()
}
