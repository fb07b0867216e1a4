//! The calls that files of cases name.

use crate::case::Case;
use crate::setting::Setting;
use crate::{
    devices, layers, lines, numbers, outcomes, pairs, records, runs, schemas, sheets, texts,
};
use edi_schema::Schema;
use std::alloc::{AllocError, Global};

/// What a call answers to a case. It fails only if memory runs out.
pub(crate) fn answer(
    alloc: Global,
    call: &str,
    setting: &Setting<'_>,
    case: &Case<'_>,
) -> Result<String, AllocError> {
    let mut text = String::new(alloc);
    push_answer(alloc, call, setting, case, &mut text)?;
    Ok(text)
}

fn push_answer(
    alloc: Global,
    call: &str,
    setting: &Setting<'_>,
    case: &Case<'_>,
    text: &mut String,
) -> Result<(), AllocError> {
    match call {
        "numbers" => numbers::push_numbers(alloc, case, text),
        "zones" => lines::push_cut(alloc, case.input(0), text),
        "feed" => lines::push_fed(alloc, case, text),
        "zones in pieces" => lines::push_in_pieces(alloc, case, text),
        "texts" => texts::push_compared(alloc, case, text),
        "records" => records::push_records(alloc, case, text),
        "ranks" => layers::push_ranks(alloc, case, text),
        "schema" => schemas::push_schema(alloc, setting, case, text),
        _ => push_over_devices(alloc, call, setting, case, text),
    }
}

// What a call over readers and writers answers.
fn push_over_devices(
    alloc: Global,
    call: &str,
    setting: &Setting<'_>,
    case: &Case<'_>,
    text: &mut String,
) -> Result<(), AllocError> {
    match call {
        "writers" => devices::push_passed_on(alloc, case, text),
        "read_all" => devices::push_read(alloc, case, text),
        "put_all" => devices::push_written(alloc, case, text),
        "interrupted read" => devices::push_interrupted(alloc, text),
        "failing reads" => runs::push_reads(alloc, setting, case, text),
        "failing writes" => runs::push_writes(alloc, setting, case, text),
        "outcomes" => outcomes::push_outcome(alloc, case, text),
        _ => match &setting.schema {
            Some(schema) => push_over_sheets(alloc, call, setting, schema, case, text),
            None => text.push_str("no such call, or no schema\n"),
        },
    }
}

// What a call over sheets answers, under the schema that the cases share.
fn push_over_sheets(
    alloc: Global,
    call: &str,
    setting: &Setting<'_>,
    schema: &Schema,
    case: &Case<'_>,
    text: &mut String,
) -> Result<(), AllocError> {
    match call {
        "layers" => layers::push_layers(alloc, schema, case, text),
        "canon" => sheets::push_canonical(alloc, setting, schema, case, text),
        "compare" => pairs::push_compared(alloc, setting, schema, case, text),
        "pairing" => pairs::push_paired(alloc, schema, case, text),
        "check_pairing" => pairs::push_checked(alloc, schema, case, text),
        "find_uncarried" => pairs::push_uncarried(alloc, schema, case, text),
        _ => text.push_str("no such call\n"),
    }
}
