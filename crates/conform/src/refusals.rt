//! The lines that say why there is no answer. Want of memory is no answer of a case, and is handed on.

use edi_compare::{CompareFault, Fault, RunFault};
use edi_line::LineFault;
use edi_record::RecordFault;
use edi_schema::{SchemaFault, Source};
use std::alloc::AllocError;

// `refused WHICH RULE line N`.
fn push_line(text: &mut String, which: &str, rule: u16, at: u64) -> Result<(), AllocError> {
    writeln!(text, "refused {which}{rule} line {at}")
}

/// `refused WHICH RULE record N`.
pub(crate) fn push_record(
    text: &mut String,
    which: &str,
    rule: u16,
    at: u64,
) -> Result<(), AllocError> {
    writeln!(text, "refused {which}{rule} record {at}")
}

/// Of a file's lines.
pub(crate) fn push_lines_fault(text: &mut String, fault: LineFault) -> Result<(), AllocError> {
    match fault {
        LineFault::Memory(fault) => Err(fault),
        LineFault::Broken { rule, at } => push_line(text, "", rule, at),
    }
}

/// Of a sheet's records.
pub(crate) fn push_records_fault(text: &mut String, fault: RecordFault) -> Result<(), AllocError> {
    match fault {
        RecordFault::Memory(fault) => Err(fault),
        RecordFault::Broken { rule, at } => push_record(text, "", rule, at),
    }
}

/// Of a sheet, which is named where it is one of two.
pub(crate) fn push_sheet_fault(
    text: &mut String,
    which: &str,
    fault: Fault,
) -> Result<(), AllocError> {
    match fault {
        Fault::Memory(fault) => Err(fault),
        Fault::Line { rule, at } => push_line(text, which, rule, at),
        Fault::Entry { rule, at } => push_record(text, which, rule, at),
    }
}

fn name_of(file: Source) -> &'static str {
    match file {
        Source::Scd => "scd ",
        Source::Dic => "dic ",
    }
}

/// Of a schema.
pub(crate) fn push_schema_fault(text: &mut String, fault: SchemaFault) -> Result<(), AllocError> {
    match fault {
        SchemaFault::Memory(fault) => Err(fault),
        SchemaFault::Line { file, rule, at } => push_line(text, name_of(file), rule, at),
        SchemaFault::Entry { file, rule, at } => push_record(text, name_of(file), rule, at),
        SchemaFault::Kinds => text.push_str("refused kinds 604\n"),
    }
}

/// Of two sheets.
pub(crate) fn push_pair_fault(text: &mut String, fault: CompareFault) -> Result<(), AllocError> {
    match fault {
        CompareFault::Memory(fault) => Err(fault),
        CompareFault::First(fault) => push_sheet_fault(text, "first ", fault),
        CompareFault::Second(fault) => push_sheet_fault(text, "second ", fault),
    }
}

/// Of a run over readers. The first of two sheets is named by `first`; it has no name where it is the only one.
pub(crate) fn push_run_fault(
    text: &mut String,
    first: &str,
    fault: RunFault,
) -> Result<(), AllocError> {
    match fault {
        RunFault::Memory(fault) => Err(fault),
        RunFault::Read { input } => writeln!(text, "input {input} cannot be read"),
        RunFault::TooLong { input } => writeln!(text, "input {input} is too long"),
        RunFault::Schema(fault) => push_schema_fault(text, fault),
        RunFault::First(fault) => push_sheet_fault(text, first, fault),
        RunFault::Second(fault) => push_sheet_fault(text, "second ", fault),
        RunFault::Write(written) => writeln!(text, "{} bytes went out", written.count),
    }
}
