//! Files of cases.
//!
//! A file of cases is text. A line `--` stands between two blocks, a line `==` between two inputs of a block, and a
//! line `->` before what is wanted. The first line of a block is its title. The first block of a file has the name of a
//! call for a title; its inputs are an explanation and what all cases of the file share. A backslash at the end of a
//! line joins the next line to it, so an input can end without a line feed.

use anyhow::{Context, Result};
use std::alloc::{AllocError, Global};

/// One case: a title, its inputs with their joined lines joined, and the answer that is wanted.
#[derive(Drop)]
pub struct Case<'a> {
    pub title: &'a str,
    pub inputs: Vec<String>,
    pub wanted: &'a str,
}

impl<'a> Case<'a> {
    /// The case of a block.
    pub(crate) fn read(alloc: Global, block: &'a str) -> Result<Case<'a>> {
        let (title, rest) = block.split_once("\n").context("a case without a title")?;
        let (inputs, wanted) = rest
            .split_once("->\n")
            .context(format_args!("no answer is wanted: {title}"))?;
        Ok(Case {
            title,
            inputs: inputs_of(alloc, inputs)?,
            wanted,
        })
    }

    /// The input of this number, from 0; or none of its text where the case has fewer inputs.
    pub(crate) fn input(&self, number: usize) -> &str {
        match self.inputs.get(number) {
            Some(input) => input.as_str(),
            None => "",
        }
    }

    /// The number that stands at this place among the words of the first input, or 0 where none does.
    pub(crate) fn number(&self, place: usize) -> u64 {
        let word = self.input(0).split_whitespace().nth(place).unwrap_or("");
        word.parse::<u64>().unwrap_or(0)
    }
}

// The inputs of a case: none where it has no lines of input.
fn inputs_of(alloc: Global, text: &str) -> Result<Vec<String>, AllocError> {
    let mut inputs = Vec::new(alloc);
    if text.is_empty() {
        return Ok(inputs);
    }
    for input in text.split("==\n") {
        inputs.push(input.replace(alloc, "\\\n", "")?)?;
    }
    Ok(inputs)
}
