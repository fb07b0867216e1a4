//! The schema under which sheets are read.

use crate::case::Case;
use anyhow::{Context, Result, bail};
use edi_schema::{Kinds, Schema};
use std::alloc::Global;

/// The files of a schema, the codes of the four kinds, and the schema of these files, which all cases of a file share.
#[derive(Drop)]
pub struct Setting<'a> {
    pub scd: &'a str,
    pub dic: &'a str,
    pub kinds: Kinds<'a>,
    pub schema: Option<Schema>,
}

impl<'a> Setting<'a> {
    /// The setting that the head of a file of cases gives: behind the explanation a schema file and a dictionary, and
    /// the codes for an answer. Cases that need no schema give none.
    pub(crate) fn of(alloc: Global, shared: &'a Case<'_>) -> Result<Setting<'a>> {
        let scd = shared.input(1);
        let dic = shared.input(2);
        let kinds = kinds_of(shared.wanted.trim_end()).context("no four codes")?;
        let schema = schema_of(alloc, scd, dic, &kinds)?;
        Ok(Setting {
            scd,
            dic,
            kinds,
            schema,
        })
    }
}

// The schema of two files, which is accepted; none of no file.
fn schema_of(alloc: Global, scd: &str, dic: &str, kinds: &Kinds<'_>) -> Result<Option<Schema>> {
    if scd.is_empty() {
        return Ok(None);
    }
    match Schema::load(alloc, scd.as_bytes(), dic.as_bytes(), kinds) {
        Ok(schema) => Ok(Some(schema)),
        Err(_) => bail!("the schema that the cases share is refused, or memory ran out"),
    }
}

/// The kinds of four codes parted by commas, or the usual ones where no code is named.
fn kinds_of(codes: &str) -> Option<Kinds<'_>> {
    if codes.is_empty() {
        return Some(Kinds::usual());
    }
    let mut parts = codes.split(",");
    let initial = parts.next().unwrap_or("");
    let final_node = parts.next().unwrap_or("");
    let left = parts.next().unwrap_or("");
    let right = parts.next().unwrap_or("");
    Kinds::new(
        initial.as_bytes(),
        final_node.as_bytes(),
        left.as_bytes(),
        right.as_bytes(),
    )
}
