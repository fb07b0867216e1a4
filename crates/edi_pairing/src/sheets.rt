//! Accepted sheets, with the names of their records.

ghost use Rattle.std.specs.Prelude.{◌≡◌, IfErr, IfOk};
ghost use Rattle.edi_line.specs.FileBytes.{file_bytes};
ghost use Rattle.edi_compare.specs.Refused.{IsPairRefusal, IsRefusal};
ghost use Rattle.edi_pairing.specs.NamedSheets.{IsNamedSheet};

use crate::names::RecordNames;
use crate::taken::TakenNames;
use edi_compare::{
    Accepted, CompareFault, Fault, accept_with, refusal_of_first, refusal_of_second,
};
use edi_line::FileBytes;
use edi_schema::Schema;
use std::alloc::Global;

/// An accepted sheet, with the names of its records.
pub struct NamedSheet {
    pub accepted: Accepted,
    pub names: RecordNames,
}

impl Drop for NamedSheet {
    fn drop(self) {
        let NamedSheet {
            accepted: _,
            names: _,
        } = self;
    }
}

/// The plan of a sheet under a schema, and the names of its records, if no rule is broken; or the refusal that
/// `edi_compare::accept` gives. The names are taken while the file is read, which is freed, if it is owned, as soon
/// as its records are.
pub fn name_sheet(alloc: Global, schema: &Schema, bytes: FileBytes<'_>) -> Result<NamedSheet, Fault>
    ensures sheet { IfOk result (IsNamedSheet schema.now (file_bytes bytes.entry)) }
    ensures refusal { IfErr result (IsRefusal schema.now (file_bytes bytes.entry)) }
{
    bytes.keeps();
    let (accepted, taken) = accept_with(alloc, schema, bytes, TakenNames::new(alloc))?;
    let names = RecordNames::of(taken.into_vec());
    Ok(NamedSheet { accepted, names })
}

/// What `name_sheet` gives of two files, one after the other; or the refusal that `edi_compare::compare` gives of them.
#[tactic(auto, using(edi_compare::proofs::Refusals::first_fault, edi_compare::proofs::Refusals::second_fault))]
pub fn name_both(
    alloc: Global,
    schema: &Schema,
    a: FileBytes<'_>,
    b: FileBytes<'_>,
) -> Result<(NamedSheet, NamedSheet), CompareFault>
    ensures first { IfOk result (λ both. IsNamedSheet schema.now (file_bytes a.entry) both.0) }
    ensures second { IfOk result (λ both. IsNamedSheet schema.now (file_bytes b.entry) both.1) }
    ensures refusal { IfErr result (IsPairRefusal schema.now (file_bytes a.entry) (file_bytes b.entry)) }
{
    let first = match name_sheet(alloc, schema, a) {
        Ok(sheet) => sheet,
        Err(fault) => return Err(refusal_of_first(fault)),
    };
    match name_sheet(alloc, schema, b) {
        Ok(second) => Ok((first, second)),
        Err(fault) => Err(refusal_of_second(fault)),
    }
}
