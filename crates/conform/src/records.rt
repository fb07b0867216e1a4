//! Records of a sheet, as its zones state them.

use crate::case::Case;
use crate::refusals::{push_lines_fault, push_records_fault};
use crate::text::push_bytes;
use edi_line::zones;
use edi_record::{
    Attribute, End, Extra, Kind, Name, Point, RecordRef, SheetFault, SheetRecords, Value,
    read_sheet, records,
};
use std::alloc::{AllocError, Global};

/// The records of a file: of each its type, identifier, class, points, ends, attributes and extras; or the refusal.
/// The file is read by its zones and once more line by line, and a second answer that differs is reported too.
pub(crate) fn push_records(
    alloc: Global,
    case: &Case<'_>,
    text: &mut String,
) -> Result<(), AllocError> {
    push_by_zones(alloc, case.input(0).as_bytes(), text)?;
    let mut by_lines = String::new(alloc);
    push_by_lines(alloc, case.input(0).as_bytes(), &mut by_lines)?;
    if text.as_str() == by_lines.as_str() {
        return Ok(());
    }
    text.push_str("and line by line\n")?;
    text.push_str(by_lines.as_str())
}

// The records that the list of all zones states.
fn push_by_zones(alloc: Global, file: &[u8], text: &mut String) -> Result<(), AllocError> {
    let zones = match zones(alloc, file) {
        Ok(zones) => zones,
        Err(fault) => return push_lines_fault(text, fault),
    };
    match records(alloc, &zones) {
        Ok(sheet) => push_list(sheet.list(), text),
        Err(fault) => push_records_fault(text, fault),
    }
}

// The records that are made while the lines are read.
fn push_by_lines(alloc: Global, file: &[u8], text: &mut String) -> Result<(), AllocError> {
    match read_sheet(alloc, file) {
        Ok(sheet) => push_list(sheet.list(), text),
        Err(SheetFault::Line(fault)) => push_lines_fault(text, fault),
        Err(SheetFault::Record(fault)) => push_records_fault(text, fault),
    }
}

fn push_list(records: &SheetRecords, text: &mut String) -> Result<(), AllocError> {
    for place in 0..records.len() {
        let record = records.record(place);
        push_head(&record, text)?;
        push_points(record.points(), text)?;
        push_ends(record.ends(), text)?;
        push_attributes(record.attributes(), text)?;
        push_extras(record.extras(), text)?;
    }
    Ok(())
}

fn push_head(record: &RecordRef<'_>, text: &mut String) -> Result<(), AllocError> {
    text.push_str(type_text(record.kind()))?;
    text.push_str(" ")?;
    push_bytes(text, record.rid())?;
    text.push_str(" of ")?;
    push_name(text, record.scp())?;
    text.push_str("\n")
}

fn type_text(kind: Kind) -> &'static str {
    match kind {
        Kind::Pno => "PNO",
        Kind::Par => "PAR",
        Kind::Pfe => "PFE",
        Kind::Fea => "FEA",
        Kind::Lnk => "LNK",
    }
}

fn push_name(text: &mut String, name: &Name) -> Result<(), AllocError> {
    push_name_of(text, name.rty.as_slice(), name.rid.as_slice())
}

fn push_name_of(text: &mut String, rty: &[u8], rid: &[u8]) -> Result<(), AllocError> {
    push_bytes(text, rty)?;
    text.push_str(";")?;
    push_bytes(text, rid)
}

fn push_points(points: &[Point], text: &mut String) -> Result<(), AllocError> {
    for point in points {
        write!(
            text,
            "  at {} {}",
            point.x.millionths(),
            point.y.millionths()
        )?;
        if let Some(z) = point.z {
            write!(text, " {}", z.millionths())?;
        }
        text.push_str("\n")?;
    }
    Ok(())
}

fn push_ends(ends: &[End], text: &mut String) -> Result<(), AllocError> {
    for end in ends {
        text.push_str("  end ")?;
        push_bytes(text, end.lot())?;
        text.push_str(";")?;
        push_bytes(text, end.subset())?;
        text.push_str(";")?;
        push_name_of(text, end.rty(), end.rid().as_slice())?;
        if let Some(sns) = end.sns() {
            text.push_str(" with ")?;
            push_bytes(text, sns.as_slice())?;
        }
        text.push_str("\n")?;
    }
    Ok(())
}

fn push_attributes(attributes: &[Attribute], text: &mut String) -> Result<(), AllocError> {
    for attribute in attributes {
        text.push_str("  attribute ")?;
        push_name(text, &attribute.atp)?;
        if let Some(tex) = &attribute.tex {
            text.push_str(" in ")?;
            push_bytes(text, tex.as_slice())?;
        }
        text.push_str(" = ")?;
        push_bytes(text, attribute.atv.as_slice())?;
        text.push_str("\n")?;
    }
    Ok(())
}

fn push_extras(extras: &[Extra], text: &mut String) -> Result<(), AllocError> {
    for extra in extras {
        text.push_str("  extra ")?;
        push_bytes(text, &extra.code)?;
        push_bytes(text, &[extra.nature, extra.format])?;
        push_value(&extra.value, text)?;
    }
    Ok(())
}

fn push_value(value: &Value, text: &mut String) -> Result<(), AllocError> {
    match value {
        Value::Number(number) => writeln!(text, " number {}", number.millionths()),
        Value::Bytes(bytes) => {
            text.push_str(" ")?;
            push_bytes(text, bytes.as_slice())?;
            text.push_str("\n")
        }
    }
}
