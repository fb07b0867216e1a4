//! Checking pairing files.

ghost use Rattle.std.specs.Prelude.{◌≡◌, OnOk, IfOk, IfErr, length};
ghost use Rattle.edi_line.specs.FileBytes.{file_bytes};
ghost use Rattle.edi_plan.specs.Agreeing.{HasClasses};
ghost use Rattle.edi_compare.specs.Rules.{IsAccepted};
ghost use Rattle.edi_pairing.specs.PairingText.{IsPairing};
ghost use Rattle.edi_pairing.specs.Verified.{IsVerifyAnswer, IsVerified, IsVerifyRefusal};

use crate::fault::VerifyFault;
use crate::reading::read_pairing;
use crate::sheets::{NamedSheet, name_both};
use crate::verified::{Verified, unpaired_by};
use edi_compare::{Pairing, find_uncarried};
use edi_line::FileBytes;
use edi_schema::Schema;
use std::alloc::{AllocError, Global};

/// Whether a file states a pairing that carries the plan of the first sheet onto that of the second, under one schema,
/// and if it states one that doesn't, why: the first record that isn't carried, by its name. `VerifyFault::First` where
/// the first sheet is refused, `VerifyFault::Second` where the first is accepted and the second is refused, both as
/// `edi_compare::compare` refuses them; `VerifyFault::Pairing` where both are accepted and the file states no pairing
/// of them.
///
/// It trusts nothing of where the pairing came from: it compares no labels and no canonical files.
pub fn verify(
    alloc: Global,
    schema: &Schema,
    a: FileBytes<'_>,
    b: FileBytes<'_>,
    file: &[u8],
) -> Result<Verified, VerifyFault>
    ensures first { OnOk result (IsAccepted schema.now (file_bytes a.entry)) }
    ensures second { OnOk result (IsAccepted schema.now (file_bytes b.entry)) }
    ensures answer { IfOk result (IsVerified schema.now (file_bytes a.entry) (file_bytes b.entry) file.now) }
    ensures refusal { IfErr result (IsVerifyRefusal schema.now (file_bytes a.entry) (file_bytes b.entry) file.now) }
{
    let (first, second) = name_both(alloc, schema, a, b)?;
    let pairing = read_pairing(alloc, &first.names, &second.names, file)?;
    let answer = judge(alloc, schema, &first, &second, &pairing)?;
    Ok(answer)
}

// Whether a pairing of two sheets carries, and why it doesn't.
fn judge(
    alloc: Global,
    schema: &Schema,
    first: &NamedSheet,
    second: &NamedSheet,
    pairing: &Pairing,
) -> Result<Verified, AllocError>
    requires classes { HasClasses schema.now first.now.accepted }
    requires first { length first.now.names ≡ length first.now.accepted.list }
    requires second { length second.now.names ≡ length second.now.accepted.list }
    requires pairing { IsPairing first.now.names second.now.names pairing.now }
    ensures { IfOk result
        (IsVerifyAnswer schema.now first.now.accepted second.now.accepted first.now.names second.now.names
        pairing.now) }
{
    match find_uncarried(alloc, schema, &first.accepted, &second.accepted, pairing)? {
        Some(why) => {
            let why = unpaired_by(alloc, &first.names, &second.names, pairing, why)?;
            Ok(Verified::Fails(why))
        }
        None => Ok(Verified::Carries),
    }
}
