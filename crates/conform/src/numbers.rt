//! Number texts.

use crate::case::Case;
use crate::text::push_bytes;
use edi_line::Num;
use std::alloc::{AllocError, Global};

/// Of each line of the input: the millionths of the number that it spells, its plain and its signed spelling, or
/// `none`.
pub(crate) fn push_numbers(
    alloc: Global,
    case: &Case<'_>,
    text: &mut String,
) -> Result<(), AllocError> {
    for line in case.input(0).split_terminator("\n") {
        match Num::read(line.as_bytes()) {
            Some(number) => push_number(alloc, number, text)?,
            None => text.push_str("none\n")?,
        }
    }
    Ok(())
}

fn push_number(alloc: Global, number: Num, text: &mut String) -> Result<(), AllocError> {
    write!(text, "{} ", number.millionths())?;
    push_bytes(text, &number.plain(alloc)?)?;
    text.push_str(" ")?;
    push_bytes(text, &number.signed(alloc)?)?;
    text.push_str("\n")
}
