//! What differs between two sheets.

ghost use Rattle.std.specs.Prelude.{◌≡◌, IfErr, IfOk, OnOk};
ghost use Rattle.edi_line.specs.FileBytes.{file_bytes};
ghost use Rattle.edi_schema.specs.Classes.{Classes};
ghost use Rattle.edi_plan.specs.Agreeing.{Agrees, HasClasses};
ghost use Rattle.edi_compare.specs.Laws.{IsAcceptedPlan};
ghost use Rattle.edi_compare.specs.Refused.{IsPairRefusal};
ghost use Rattle.edi_compare.specs.Rules.{IsAccepted};
ghost use Rattle.edi_matching.specs.Matchings.{MatchingHolds};
ghost use Rattle.edi_report.specs.Reports.{HasSites};
ghost use Rattle.edi_diff.specs.Differences.{AreFindings, IsDifference, IsDifferenceText};
ghost use Rattle.edi_diff.specs.inner.Compared.{AreCompared};

use crate::changes::{Changes, changes_between};
use crate::form::{TextForm, text_of_form};
use crate::parting::parts_of;
use crate::totals::is_same;
use edi_compare::CompareFault;
use edi_line::{FileBytes, Sequence};
use edi_matching::{Matching, differences};
use edi_report::{LocatedSheet, Reporter, locate_both};
use edi_schema::Schema;
use std::alloc::{AllocError, Global};
use std::borrow::CowSlice;

/// What differs between two sheets.
#[derive(Drop)]
pub struct Difference {
    /// Whether they state the same plan.
    pub same: bool,
    /// What differs (docs/FORMAT.md, "Differences").
    pub text: Vec<u8>,
}

/// What differs between two sheets, with the sheets and the matching that it is reported by.
#[derive(Drop)]
pub struct Findings {
    pub first: LocatedSheet,
    pub second: LocatedSheet,
    /// The records of the first sheet that are records of the second.
    pub unchanged: Matching,
    /// These, and beside them those that became records of the second.
    pub became: Matching,
    pub difference: Difference,
}

/// What two sheets have in common, and what differs.
#[derive(Drop)]
struct ComparedSheets {
    unchanged: Matching,
    became: Matching,
    difference: Difference,
}

/// A text of what differs, and the records that it tells as changed, beside those that are the same.
#[derive(Drop)]
struct ChangesWithText {
    became: Matching,
    text: Vec<u8>,
}

/// That text, and what became of the records of the first sheet.
fn changes_with_text(
    alloc: Global,
    schema: &Schema,
    first: &LocatedSheet,
    second: &LocatedSheet,
    matching: &Matching,
    form: TextForm<'_>,
) -> Result<ChangesWithText, AllocError>
    requires classes { HasClasses schema.now first.now.accepted }
    requires first_agrees { Agrees schema.now first.now.accepted }
    requires second_agrees { Agrees schema.now second.now.accepted }
    requires first_sites { HasSites first.now }
    requires second_sites { HasSites second.now }
    requires holds { MatchingHolds schema.now first.now.accepted second.now.accepted matching.now }
    ensures { IfOk result (λ reporter.
        (text : IsDifferenceText schema.now first.now second.now matching.now form.entry reporter.text.items)
        × (text.became ≡ reporter.became)) }
{
    let plan = first.accepted.sound().plan();
    let other = second.accepted.sound().plan();
    let Changes {
        to,
        turned,
        reached,
    } = changes_between(alloc, plan, other, matching)?;
    let became = Matching {
        to: Sequence::from_vec(to),
        turned: Sequence::from_vec(turned),
    };
    let parts = parts_of(alloc, schema, plan, other, matching, &became)?;
    let reporter = Reporter {
        first,
        second,
        unchanged: matching.to.as_slice(),
        became: became.to.as_slice(),
        parts: &parts,
        reached: &reached,
    };
    let text = text_of_form(alloc, schema, &reporter, form)?;
    Ok(ChangesWithText { became, text })
}

/// What differs between two sheets under a schema, told in this form; or the refusal that `edi_compare::compare` gives:
/// `CompareFault::First` where the first sheet is refused, `CompareFault::Second` where the first is accepted and the
/// second is refused.
pub fn diff(
    alloc: Global,
    schema: &Schema,
    a: &[u8],
    b: &[u8],
    form: TextForm<'_>,
) -> Result<Difference, CompareFault>
    ensures first { OnOk result (IsAccepted schema.now a.now) }
    ensures second { OnOk result (IsAccepted schema.now b.now) }
    ensures difference { IfOk result (IsDifference schema.now a.now b.now form.entry) }
    ensures refusal { IfErr result (IsPairRefusal schema.now a.now b.now) }
{
    diff_from(
        alloc,
        schema,
        FileBytes::Whole(CowSlice::Borrowed(a)),
        FileBytes::Whole(CowSlice::Borrowed(b)),
        form,
    )
}

/// What `diff` gives of files that are freed, if they are owned, one after the other.
pub fn diff_from(
    alloc: Global,
    schema: &Schema,
    a: FileBytes<'_>,
    b: FileBytes<'_>,
    form: TextForm<'_>,
) -> Result<Difference, CompareFault>
    ensures first { OnOk result (IsAccepted schema.now (file_bytes a.entry)) }
    ensures second { OnOk result (IsAccepted schema.now (file_bytes b.entry)) }
    ensures difference { IfOk result (IsDifference schema.now (file_bytes a.entry) (file_bytes b.entry) form.entry) }
    ensures refusal { IfErr result (IsPairRefusal schema.now (file_bytes a.entry) (file_bytes b.entry)) }
{
    let found = find_differences(alloc, schema, a, b, form)?;
    Ok(found.difference)
}

/// What `diff` gives of files that are freed, if they are owned, one after the other; with the sheets and the
/// matching that it is reported by. The classes of both plans are of the schema.
pub fn find_differences(
    alloc: Global,
    schema: &Schema,
    a: FileBytes<'_>,
    b: FileBytes<'_>,
    form: TextForm<'_>,
) -> Result<Findings, CompareFault>
    ensures first { OnOk result (IsAccepted schema.now (file_bytes a.entry)) }
    ensures second { OnOk result (IsAccepted schema.now (file_bytes b.entry)) }
    ensures findings { IfOk result (AreFindings schema.now (file_bytes a.entry) (file_bytes b.entry) form.entry) }
    ensures first_classes { IfOk result (λ found. HasClasses schema.now found.first.accepted) }
    ensures second_classes { IfOk result (λ found. HasClasses schema.now found.second.accepted) }
    ensures refusal { IfErr result (IsPairRefusal schema.now (file_bytes a.entry) (file_bytes b.entry)) }
{
    let (first, second) = locate_both(alloc, schema, a, b)?;
    let ComparedSheets {
        unchanged,
        became,
        difference,
    } = compare_sheets(alloc, schema, &first, &second, form)?;
    Ok(Findings {
        first,
        second,
        unchanged,
        became,
        difference,
    })
}

/// What two sheets have in common, and what differs. It fails only if memory runs out.
fn compare_sheets(
    alloc: Global,
    schema: &Schema,
    first: &LocatedSheet,
    second: &LocatedSheet,
    form: TextForm<'_>,
) -> Result<ComparedSheets, AllocError>
    requires first { IsAcceptedPlan schema.now first.now.accepted }
    requires second { IsAcceptedPlan schema.now second.now.accepted }
    requires classes { HasClasses schema.now first.now.accepted }
    requires first_sites { HasSites first.now }
    requires second_sites { HasSites second.now }
    ensures { IfOk result (AreCompared schema.now first.now second.now form.entry) }
{
    schema.keeps();
    let unchanged = differences(alloc, schema, &first.accepted, &second.accepted)?;
    let same = is_same(alloc, first, second, &unchanged)?;
    let ChangesWithText { became, text } = changes_with_text(
        alloc, schema, first, second, &unchanged, form,
    )?;
    Ok(ComparedSheets {
        unchanged,
        became,
        difference: Difference { same, text },
    })
}
