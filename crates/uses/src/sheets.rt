//! Sheets under a schema that was loaded once.

ghost use Rattle.std.specs.Prelude.{◌≡◌, ◌↔◌, ℕ, List, length, IfOk, IfErr, IfSome, IsTrue, MatchOption, ⊤};
ghost use Rattle.edi_schema.specs.SchemaRefusal.{IsGoodSchema, IsSchemaRefusal};
ghost use Rattle.edi_plan.specs.Plans.{PlanData};
ghost use Rattle.edi_rank.specs.Same.{Same};
ghost use Rattle.edi_compare.specs.HeldPlans.{IsHeldPlan};
ghost use Rattle.edi_plan.specs.Agreeing.{HasClasses};
ghost use Rattle.edi_compare.specs.Pairings.{PairingCarries};
ghost use Rattle.edi_compare.specs.PlanOfFile.{IsPlanOfFile, StateSame};
ghost use Rattle.edi_compare.specs.Refused.{IsPairRefusal, IsRefusal};
ghost use Rattle.edi_compare.specs.Uncarried.{IsUncarriedBy};
ghost use Rattle.edi_compare.specs.declared.uncarried.WrongPartner.{WrongPartner};
ghost use Rattle.uses.specs.Callers.{MatchUnwritten, SomePairing, GetsFirst, GetsForm, own_kinds};

use edi_compare::{
    Accepted, CompareFault, Fault, Pairing, Uncarried, Verdict, accept, canon, check_pairing,
    compare, compare_accepted, find_uncarried, refusal_of_first, refusal_of_second,
};
use edi_line::ByteOut;
use edi_schema::{Kinds, Schema, SchemaFault};
use edi_write::{Written, put_all};
use std::alloc::{AllocError, Global};

/// How many records the plan of a sheet has.
pub fn count_records(alloc: Global, schema: &Schema, sheet: &[u8]) -> Result<u32, Fault>
    ensures count { IfOk result (λ count. (p : PlanData) × IsPlanOfFile schema.now sheet.now p
        × (count ≡ length p.list)) }
    ensures refusal { IfErr result (IsRefusal schema.now sheet.now) }
{
    match accept(alloc, schema, sheet) {
        Ok(accepted) => Ok(accepted.sound().plan().len()),
        Err(fault) => Err(fault),
    }
}

/// Why a canonical file was not written, or not to its end.
#[derive(Drop)]
pub enum Unwritten {
    /// The sheet is refused, and nothing was written.
    Refused(Fault),
    /// The writer failed behind the first bytes of the file.
    Failed(Written),
}

/// Writes the canonical file of a sheet.
pub fn write_canonical<W: ByteOut>(
    alloc: Global,
    schema: &Schema,
    sheet: &[u8],
    writer: &mut W,
) -> Result<(), Unwritten>
    ensures written { IfOk result (λ _. GetsForm schema.now sheet.now (W.contents writer.old) (W.contents writer.new)) }
    ensures unwritten { IfErr result (MatchUnwritten
        (λ fault. (writer.new ≡ writer.old) × IsRefusal schema.now sheet.now fault)
        (λ written. GetsFirst schema.now sheet.now written.count (W.contents writer.old) (W.contents writer.new))) }
    ensures failed { IfErr result (MatchUnwritten (λ fault. ⊤) (λ written. IsTrue (W.has_failed writer.new))) }
{
    let file = match canon(alloc, schema, sheet) {
        Ok(file) => file,
        Err(fault) => return Err(Unwritten::Refused(fault)),
    };
    match put_all(writer, &file) {
        Ok(()) => Ok(()),
        Err(written) => Err(Unwritten::Failed(written)),
    }
}

/// Whether two sheets state the same plan.
pub fn is_same_plan(
    alloc: Global,
    schema: &Schema,
    first: &[u8],
    second: &[u8],
) -> Result<bool, CompareFault>
    ensures same { IfOk result (λ same. IsTrue same ↔ StateSame schema.now first.now second.now) }
    ensures refusal { IfErr result (IsPairRefusal schema.now first.now second.now) }
{
    match compare(alloc, schema, first, second) {
        Ok(Verdict::Same(_)) => Ok(true),
        Ok(Verdict::Different { .. }) => Ok(false),
        Err(fault) => Err(fault),
    }
}

/// A pairing that carries the plan of the first sheet onto that of the second, or none where no pairing does.
pub fn found_pairing(
    alloc: Global,
    schema: &Schema,
    first: &[u8],
    second: &[u8],
) -> Result<Option<Pairing>, CompareFault>
    ensures pairing { IfOk result (λ found. MatchOption found (¬ (StateSame schema.now first.now second.now))
        (SomePairing schema.now first.now second.now)) }
    ensures refusal { IfErr result (IsPairRefusal schema.now first.now second.now) }
{
    match compare(alloc, schema, first, second) {
        Ok(Verdict::Same(pairing)) => Ok(Some(pairing)),
        Ok(Verdict::Different { .. }) => Ok(None),
        Err(fault) => Err(fault),
    }
}

/// A pairing that carries the plan of one accepted sheet onto that of another, or none where no pairing does. It is
/// found and then checked, and neither sheet is read again. The check trusts nothing of how the pairing was found, and
/// never denies one that comparing found.
pub fn pairing_of_accepted(
    alloc: Global,
    schema: &Schema,
    first: &Accepted,
    second: &Accepted,
) -> Result<Option<Pairing>, AllocError>
    requires first { IsHeldPlan schema.now first.now }
    requires second { IsHeldPlan schema.now second.now }
    requires classes { HasClasses schema.now first.now }
    ensures { IfOk result (λ found.
        MatchOption found (¬ (Same schema.now first.now second.now)) (PairingCarries schema.now first.now second.now)) }
{
    match compare_accepted(alloc, schema, first, second)? {
        Verdict::Same(pairing) => {
            if check_pairing(alloc, schema, first, second, &pairing)? {
                Ok(Some(pairing))
            } else {
                unreachable!()
            }
        }
        Verdict::Different { .. } => Ok(None),
    }
}

/// A pairing of two sheets that is found and checked as by `pairing_of_accepted`, each being accepted once.
pub fn checked_pairing(
    alloc: Global,
    schema: &Schema,
    first: &[u8],
    second: &[u8],
) -> Result<Option<Pairing>, CompareFault>
    ensures pairing { IfOk result (λ found. MatchOption found (¬ (StateSame schema.now first.now second.now))
        (SomePairing schema.now first.now second.now)) }
    ensures refusal { IfErr result (IsPairRefusal schema.now first.now second.now) }
{
    let accepted = match accept(alloc, schema, first) {
        Ok(accepted) => accepted,
        Err(fault) => return Err(refusal_of_first(fault)),
    };
    let other = match accept(alloc, schema, second) {
        Ok(accepted) => accepted,
        Err(fault) => return Err(refusal_of_second(fault)),
    };
    match pairing_of_accepted(alloc, schema, &accepted, &other) {
        Ok(found) => Ok(found),
        Err(error) => Err(CompareFault::Memory(error)),
    }
}

/// A schema whose classes of the four kinds are known by their identifiers and not by their codes.
pub fn schema_by_identifiers(alloc: Global, scd: &[u8], dic: &[u8]) -> Result<Schema, SchemaFault>
    ensures schema { IfOk result (IsGoodSchema scd.now dic.now own_kinds) }
    ensures refusal { IfErr result (IsSchemaRefusal scd.now dic.now own_kinds) }
{
    Schema::load(alloc, scd, dic, &kinds())
}

// The identifiers of the four classes.
fn kinds() -> Kinds<'static>
    ensures { result ≡ own_kinds }
{
    match Kinds::new(b"INI_id", b"FIN_id", b"GCH_id", b"DRT_id") {
        Some(kinds) => kinds,
        None => unreachable!(),
    }
}

/// The place of the first record of an accepted sheet that a pairing doesn't carry onto one of another; none where it
/// carries each, or where something else keeps it from carrying: an entry that is missing, the character sets, or a
/// record of the other that is left.
pub fn first_wrong_record(
    alloc: Global,
    schema: &Schema,
    first: &Accepted,
    second: &Accepted,
    pairing: &Pairing,
) -> Result<Option<u32>, AllocError>
    requires { HasClasses schema.now first.now }
    ensures wrong { IfOk result (λ found. IfSome found (λ place. (why : WrongPartner)
        × IsUncarriedBy schema.now first.now second.now pairing.now (Uncarried.Record place why))) }
    ensures not { IfOk result (λ found. IfSome found (λ _.
        ¬ (PairingCarries schema.now first.now second.now pairing.now))) }
{
    match find_uncarried(alloc, schema, first, second, pairing)? {
        Some(Uncarried::Record { place, .. }) => Ok(Some(place)),
        Some(_) | None => Ok(None),
    }
}
