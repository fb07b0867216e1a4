//! Lines and statuses of outcomes.

use crate::case::Case;
use crate::text::push_bytes;
use edi_compare::{Fault, RecordPart, RunFault};
use edi_line::Text;
use edi_outcome::{Outcome, has_names, line_of, status_of};
use edi_pairing::{NamedPair, RecordName, Unpaired, WrongLine};
use edi_record::Kind;
use edi_schema::{SchemaFault, Source};
use edi_write::Written;
use std::alloc::{AllocError, Global};

/// The line of an outcome, and its status. The first input is the outcome, in words; the second has the names of the
/// inputs in their order and of the output last, a line each.
pub(crate) fn push_outcome(
    alloc: Global,
    case: &Case<'_>,
    text: &mut String,
) -> Result<(), AllocError> {
    let mut names = Vec::new(alloc);
    for name in case.input(1).split_terminator("\n") {
        names.push(name.as_bytes())?;
    }
    match outcome_of(alloc, case)? {
        Some(outcome) => push_line(alloc, &outcome, &names, text),
        None => text.push_str("no such outcome\n"),
    }
}

// The line of an outcome by these names, and its status.
fn push_line(
    alloc: Global,
    outcome: &Outcome,
    names: &[&[u8]],
    text: &mut String,
) -> Result<(), AllocError> {
    if !has_names(outcome, names.len()) {
        return text.push_str("too few names\n");
    }
    let line = line_of(alloc, outcome, names)?;
    push_bytes(text, &line)?;
    writeln!(text, "status {}", status_of(outcome))
}

// The word at this place of the first input, or none.
fn word<'a>(case: &'a Case<'_>, place: usize) -> &'a str {
    case.input(0).split_whitespace().nth(place).unwrap_or("")
}

// The outcome that the words name: an answer, what is wrong with a pairing's file, or a fault.
fn outcome_of(alloc: Global, case: &Case<'_>) -> Result<Option<Outcome>, AllocError> {
    match word(case, 0) {
        "accepted" => Ok(Some(Outcome::Accepted)),
        "same" => Ok(Some(Outcome::Same)),
        "different" => Ok(Some(Outcome::Different(case.number(1)))),
        "pairs" => Ok(Some(Outcome::Pairs)),
        "unpaired" => Ok(Some(Outcome::Unpaired(unpaired_of(alloc, case)?))),
        "wrong" => Ok(Some(Outcome::WrongPairing(case.number(1), WrongLine::Form))),
        _ => match fault_of(case) {
            Some(fault) => Ok(Some(Outcome::Fault(fault))),
            None => Ok(None),
        },
    }
}

// Why a file doesn't pair: by a node in the line of this number, by a node to which none goes, or by the character
// sets.
fn unpaired_of(alloc: Global, case: &Case<'_>) -> Result<Unpaired, AllocError> {
    match word(case, 1) {
        "unlike" => {
            let name = node(alloc, b"N1")?;
            let partner = node(alloc, b"M1")?;
            let pair = NamedPair {
                at: case.number(2),
                name,
                partner,
            };
            let part = RecordPart::Points;
            Ok(Unpaired::Unlike { pair, part })
        }
        "unmet" => {
            let name = node(alloc, b"M1")?;
            Ok(Unpaired::Unmet { name })
        }
        _ => Ok(Unpaired::CharacterSets),
    }
}

// A node of this identifier.
fn node(alloc: Global, rid: &[u8]) -> Result<RecordName, AllocError> {
    let rid = Text::from_slice(alloc, rid)?;
    Ok(RecordName {
        kind: Kind::Pno,
        rid,
    })
}

// The fault that the words name.
fn fault_of(case: &Case<'_>) -> Option<RunFault> {
    match word(case, 0) {
        "memory" => Some(RunFault::Memory(AllocError)),
        "read" => Some(RunFault::Read {
            input: input_of(case),
        }),
        "long" => Some(RunFault::TooLong {
            input: input_of(case),
        }),
        "write" => Some(RunFault::Write(Written {
            count: case.number(1),
        })),
        "first" => Some(RunFault::First(sheet_fault(case))),
        "second" => Some(RunFault::Second(sheet_fault(case))),
        "scd" => Some(RunFault::Schema(schema_fault(case, Source::Scd))),
        "dic" => Some(RunFault::Schema(schema_fault(case, Source::Dic))),
        "kinds" => Some(RunFault::Schema(SchemaFault::Kinds)),
        _ => None,
    }
}

// The number of an input, behind the word for the fault.
fn input_of(case: &Case<'_>) -> u8 {
    u8::try_from(case.number(1)).unwrap_or(0)
}

// The rule that is broken, behind a word for whether that is at a line or at a record.
fn rule_of(case: &Case<'_>) -> u16 {
    u16::try_from(case.number(2)).unwrap_or(0)
}

// The refusal of a sheet, by a rule at a line or at a record of this number.
fn sheet_fault(case: &Case<'_>) -> Fault {
    let rule = rule_of(case);
    let at = case.number(3);
    match word(case, 1) {
        "line" => Fault::Line { rule, at },
        "record" => Fault::Entry { rule, at },
        _ => Fault::Memory(AllocError),
    }
}

// The same of a file of a schema.
fn schema_fault(case: &Case<'_>, file: Source) -> SchemaFault {
    let rule = rule_of(case);
    let at = case.number(3);
    match word(case, 1) {
        "line" => SchemaFault::Line { file, rule, at },
        "record" => SchemaFault::Entry { file, rule, at },
        _ => SchemaFault::Memory(AllocError),
    }
}
