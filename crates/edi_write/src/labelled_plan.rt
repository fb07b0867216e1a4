//! A plan under its schema, with its labels.

use edi_plan::Plan;
use edi_rank::Labels;
use edi_schema::Schema;
use std::marker::Model;

/// A plan, the schema that it agrees with, and the labels that number its records and turn and order them.
#[derive(Drop)]
pub(crate) struct LabelledPlan<'a> {
    pub(crate) schema: &'a Schema,
    pub(crate) plan: &'a Plan,
    pub(crate) labels: &'a Labels,
}

impl<'a> Model for LabelledPlan<'a> {
    ghost use Rattle.edi_write.specs.inner.LabelledPlans.{LabelledPlanData, AreItsLabels};

    ghost Value = { LabelledPlanData };

    ghost view = { λ l. record { classes = l.schema.now; plan = l.plan.now; labels = l.labels.now } };

    ghost invariant = { λ l. AreItsLabels
        (record { classes = l.schema.now; plan = l.plan.now; labels = l.labels.now }) };
}
