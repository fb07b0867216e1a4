//! Texts and sequences, compared.

use crate::case::Case;
use edi_line::{Sequence, Text};
use std::alloc::{AllocError, Global};
use std::hash::{BuildHasher, BuildHasherDefault, DefaultHasher, Hash};

/// How two texts compare, and how they compare as sequences of bytes; or that a copy of the first is another.
pub(crate) fn push_compared(
    alloc: Global,
    case: &Case<'_>,
    text: &mut String,
) -> Result<(), AllocError> {
    push_texts(alloc, case, text)?;
    text.push_str(", ")?;
    push_sequences(alloc, case, text)?;
    text.push_str("\n")
}

fn push_texts(alloc: Global, case: &Case<'_>, text: &mut String) -> Result<(), AllocError> {
    let first = Text::from_slice(alloc, case.input(0).as_bytes())?;
    let second = Text::from_slice(alloc, case.input(1).as_bytes())?;
    let copy = first.clone()?;
    let is_same = copy == first && is_hashed_as(&copy, &first);
    text.push_str(answer_text(is_same, first < second, first == second))
}

fn push_sequences(alloc: Global, case: &Case<'_>, text: &mut String) -> Result<(), AllocError> {
    let first = sequence_of(alloc, case.input(0))?;
    let second = sequence_of(alloc, case.input(1))?;
    let copy = first.clone()?;
    let is_same = copy == first && is_hashed_as(&copy, &first);
    text.push_str(answer_text(is_same, first < second, first == second))
}

fn sequence_of(alloc: Global, input: &str) -> Result<Sequence<u8>, AllocError> {
    Ok(Sequence::from_vec(Vec::from_slice(alloc, input.as_bytes())?))
}

fn is_hashed_as<T: Hash>(copy: &T, value: &T) -> bool {
    let hasher = BuildHasherDefault::<DefaultHasher>::default();
    hasher.hash_one(copy) == hasher.hash_one(value)
}

fn answer_text(is_same: bool, is_less: bool, is_equal: bool) -> &'static str {
    match (is_same, is_less, is_equal) {
        (false, _, _) => "a copy is another",
        (true, true, false) => "less",
        (true, false, true) => "equal",
        (true, false, false) => "greater",
        (true, true, true) => "less and equal",
    }
}
