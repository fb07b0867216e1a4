//! Two sheets compared, and pairings checked.

ghost use Rattle.std.specs.Prelude.{IfOk};
ghost use Rattle.edi_plan.specs.Agreeing.{HasClasses};

use crate::case::Case;
use crate::refusals::{push_pair_fault, push_run_fault, push_sheet_fault};
use crate::setting::Setting;
use edi_compare::{
    Accepted, Fault, Pairing, RecordPart, Uncarried, Verdict, WrongPartner, accept, check_pairing,
    compare, find_uncarried, run_compare,
};
use edi_line::{ScriptIn, Sequence};
use edi_schema::Schema;
use std::alloc::{AllocError, Global};

/// What `compare` answers of two sheets, which `run_compare` has to answer too. A pairing that is found has to carry.
pub(crate) fn push_compared(
    alloc: Global,
    setting: &Setting<'_>,
    schema: &Schema,
    case: &Case<'_>,
    text: &mut String,
) -> Result<(), AllocError> {
    let first = case.input(0).as_bytes();
    let second = case.input(1).as_bytes();
    match compare(alloc, schema, first, second) {
        Ok(Verdict::Same(pairing)) => push_same(alloc, schema, case, &pairing, text)?,
        Ok(Verdict::Different { line }) => writeln!(text, "different at line {line}")?,
        Err(fault) => push_pair_fault(text, fault)?,
    }
    let mut run = String::new(alloc);
    push_run(alloc, setting, first, second, &mut run)?;
    if run.as_str() == text.as_str() {
        Ok(())
    } else {
        text.push_str("run_compare answers something else\n")
    }
}

// That two sheets are the same, by a pairing that carries.
fn push_same(
    alloc: Global,
    schema: &Schema,
    case: &Case<'_>,
    pairing: &Pairing,
    text: &mut String,
) -> Result<(), AllocError> {
    let mut answer = String::new(alloc);
    push_carries(alloc, schema, case, pairing, &mut answer)?;
    text.push_str(if answer.as_str() == "true\n" {
        "same\n"
    } else {
        "a pairing that doesn't carry\n"
    })
}

// What `run_compare` answers.
fn push_run(
    alloc: Global,
    setting: &Setting<'_>,
    first: &[u8],
    second: &[u8],
    text: &mut String,
) -> Result<(), AllocError> {
    let mut scd = ScriptIn::new(setting.scd.as_bytes(), 100, 0, false);
    let mut dic = ScriptIn::new(setting.dic.as_bytes(), 100, 0, false);
    let mut one = ScriptIn::new(first, 100, 0, false);
    let mut other = ScriptIn::new(second, 100, 0, false);
    let kinds = &setting.kinds;
    match run_compare(alloc, kinds, &mut scd, &mut dic, &mut one, &mut other) {
        Ok(Verdict::Same(_)) => text.push_str("same\n"),
        Ok(Verdict::Different { line }) => writeln!(text, "different at line {line}"),
        Err(fault) => push_run_fault(text, "first ", fault),
    }
}

/// The pairing that `compare` finds: the record of the second sheet, from 1, that each record of the first goes to,
/// with an `r` behind it where that is an arc to reverse.
pub(crate) fn push_paired(
    alloc: Global,
    schema: &Schema,
    case: &Case<'_>,
    text: &mut String,
) -> Result<(), AllocError> {
    let first = case.input(0).as_bytes();
    let second = case.input(1).as_bytes();
    match compare(alloc, schema, first, second) {
        Ok(Verdict::Same(pairing)) => push_pairing(&pairing, text),
        Ok(Verdict::Different { line }) => writeln!(text, "different at line {line}"),
        Err(fault) => push_pair_fault(text, fault),
    }
}

fn push_pairing(pairing: &Pairing, text: &mut String) -> Result<(), AllocError> {
    let turned = pairing.turned.as_slice();
    for (to, turned) in pairing.to.as_slice().iter().zip(turned) {
        let mark = if *turned { "r" } else { "" };
        write!(text, " {}{mark}", u64::from(*to).saturating_add(1))?;
    }
    text.push_str("\n")
}

/// What `check_pairing` answers of two sheets and a pairing, which is written as `push_paired` writes it.
pub(crate) fn push_checked(
    alloc: Global,
    schema: &Schema,
    case: &Case<'_>,
    text: &mut String,
) -> Result<(), AllocError> {
    let pairing = pairing_of(alloc, case.input(2))?;
    push_carries(alloc, schema, case, &pairing, text)
}

// The pairing of a text. What is no number from 1 stands for a record that no sheet has.
fn pairing_of(alloc: Global, text: &str) -> Result<Pairing, AllocError> {
    let mut to = Vec::new(alloc);
    let mut turned = Vec::new(alloc);
    for word in text.split_whitespace() {
        let number = word.strip_suffix("r");
        let record = number.unwrap_or(word).parse::<u32>().unwrap_or(0);
        to.push(record.wrapping_sub(1))?;
        turned.push(number.is_some())?;
    }
    Ok(Pairing {
        to: Sequence::from_vec(to),
        turned: Sequence::from_vec(turned),
    })
}

// Both sheets of a case, or which of them is refused first, and why.
fn accept_both(
    alloc: Global,
    schema: &Schema,
    case: &Case<'_>,
) -> Result<(Accepted, Accepted), (&'static str, Fault)>
    ensures { IfOk result (λ both. HasClasses schema.now both.0) }
{
    let first = match accept(alloc, schema, case.input(0).as_bytes()) {
        Ok(first) => first,
        Err(fault) => return Err(("first ", fault)),
    };
    match accept(alloc, schema, case.input(1).as_bytes()) {
        Ok(second) => Ok((first, second)),
        Err(fault) => Err(("second ", fault)),
    }
}

// Whether a pairing carries the plan of the first sheet onto that of the second, both of which are to be accepted.
fn push_carries(
    alloc: Global,
    schema: &Schema,
    case: &Case<'_>,
    pairing: &Pairing,
    text: &mut String,
) -> Result<(), AllocError> {
    match accept_both(alloc, schema, case) {
        Ok((first, second)) => push_answer(alloc, schema, &first, &second, pairing, text),
        Err((which, fault)) => push_sheet_fault(text, which, fault),
    }
}

// What `check_pairing` answers. Where memory ran out it may be there again for the same sheets.
fn push_answer(
    alloc: Global,
    schema: &Schema,
    first: &Accepted,
    second: &Accepted,
    pairing: &Pairing,
    text: &mut String,
) -> Result<(), AllocError>
    requires { HasClasses schema.now first.now }
{
    let carries = match check_pairing(alloc, schema, first, second, pairing) {
        Ok(carries) => carries,
        Err(_) => check_pairing(alloc, schema, first, second, pairing)?,
    };
    writeln!(text, "{carries}")
}

/// What `find_uncarried` answers of two sheets and a pairing, with the numbers of records from 1.
pub(crate) fn push_uncarried(
    alloc: Global,
    schema: &Schema,
    case: &Case<'_>,
    text: &mut String,
) -> Result<(), AllocError> {
    let pairing = pairing_of(alloc, case.input(2))?;
    match accept_both(alloc, schema, case) {
        Ok((first, second)) => {
            let why = find_uncarried(alloc, schema, &first, &second, &pairing)?;
            push_reason(text, why)
        }
        Err((which, fault)) => push_sheet_fault(text, which, fault),
    }
}

fn push_reason(text: &mut String, why: Option<Uncarried>) -> Result<(), AllocError> {
    match why {
        None => text.push_str("carries\n"),
        Some(Uncarried::Entries) => text.push_str("entries\n"),
        Some(Uncarried::CharacterSets) => text.push_str("character sets\n"),
        Some(Uncarried::Record { place, why }) => {
            write!(text, "record {}: ", u64::from(place).saturating_add(1))?;
            push_wrong_partner(text, why)
        }
        Some(Uncarried::Unmet { place }) => {
            writeln!(text, "unmet {}", u64::from(place).saturating_add(1))
        }
    }
}

fn push_wrong_partner(text: &mut String, why: WrongPartner) -> Result<(), AllocError> {
    match why {
        WrongPartner::Nowhere => text.push_str("nowhere\n"),
        WrongPartner::Shared { earlier } => {
            writeln!(text, "shared with {}", u64::from(earlier).saturating_add(1))
        }
        WrongPartner::Unlike { part } => text.push_str(match part {
            RecordPart::Reversal => "reversal\n",
            RecordPart::Kind => "kind\n",
            RecordPart::Class => "class\n",
            RecordPart::Points => "points\n",
            RecordPart::Extras => "extras\n",
            RecordPart::Attributes => "attributes\n",
            RecordPart::Ends => "ends\n",
        }),
    }
}
