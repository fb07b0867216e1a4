//! Pairings of two sheets: found, and checked.

ghost use Rattle.std.specs.Prelude.{◌≡◌, IfOk, length};
ghost use Rattle.edi_pairing.specs.UnpairedText.{unpaired_text};
ghost use Rattle.edicad_c.specs.Held.{IsWrongCall, MatchSchema, in_box};
ghost use Rattle.edicad_c.specs.PairLists.{IsPairsGiven, IsPairsHeld};
ghost use Rattle.edicad_c.specs.Paired.{IsPairingGiven};
ghost use Rattle.edicad_c.specs.Verifications.{IsFaultGiven, IsVerification, IsVerifiedGiven, verify_answer};

use crate::answer::{Answer, FIRST_INPUT, PAIRING_INPUT, SECOND_INPUT};
use crate::given::{Given, give_under};
use crate::handle::Handle;
use crate::pair::pairs_of;
use edi_compare::{Pairing, Verdict, compare};
use edi_line::FileBytes;
use edi_pairing::{
    Compared, Unpaired, Verified, VerifyFault, compare_to_file, push_unpaired, verify,
};
use edi_schema::Schema;
use std::alloc::{AllocError, Global};
use std::borrow::CowSlice;

// A pairing's file breaks no rule that has a number.
const NO_RULE: u16 = 0;

/// The file of a pairing of two sheets that state the same plan.
#[unsafe(no_mangle)]
pub extern "C" fn edicad_pairing(
    alloc: Global,
    schema: &mut Handle,
    first: &[u8],
    second: &[u8],
    pairing: &mut Handle,
) -> Answer
    ensures kept { schema.new.held ≡ schema.old.held }
    ensures answer { MatchSchema schema.old.held (λ s. IsPairingGiven s first.now second.now pairing.new.held result)
        (IsWrongCall pairing.new.held result) }
{
    give_under(alloc, schema, pairing, |schema| {
        pairing_file(alloc, schema, first, second)
    })
}

// The file of a pairing of two sheets under a schema.
fn pairing_file(alloc: Global, schema: &Schema, first: &[u8], second: &[u8]) -> Given
    ensures { IsPairingGiven schema.now first.now second.now (in_box result.content) result.answer }
{
    let first = FileBytes::Whole(CowSlice::Borrowed(first));
    let second = FileBytes::Whole(CowSlice::Borrowed(second));
    match compare_to_file(alloc, schema, first, second) {
        Ok(Compared::Same { file }) => Given::of_bytes(alloc, Answer::done(), file),
        Ok(Compared::Different { line }) => Given::nothing(Answer::differs_at(line)),
        Err(fault) => Given::nothing(Answer::of_pair(&fault)),
    }
}

/// Which record of the second sheet each record of the first is, where both state the same plan.
#[unsafe(no_mangle)]
pub extern "C" fn edicad_pair_records(
    alloc: Global,
    schema: &mut Handle,
    first: &[u8],
    second: &[u8],
    pairs: &mut Handle,
) -> Answer
    ensures kept { schema.new.held ≡ schema.old.held }
    ensures answer { MatchSchema schema.old.held (λ s. IsPairsGiven s first.now second.now pairs.new.held result)
        (IsWrongCall pairs.new.held result) }
{
    give_under(alloc, schema, pairs, |schema| {
        record_pairs(alloc, schema, first, second)
    })
}

// Which record of the second sheet each of the first is under a schema.
fn record_pairs(alloc: Global, schema: &Schema, first: &[u8], second: &[u8]) -> Given
    ensures { IsPairsGiven schema.now first.now second.now (in_box result.content) result.answer }
{
    match compare(alloc, schema, first, second) {
        Ok(Verdict::Same(pairing)) => pairs_given(alloc, &pairing),
        Ok(Verdict::Different { line }) => Given::nothing(Answer::differs_at(line)),
        Err(fault) => Given::nothing(Answer::of_pair(&fault)),
    }
}

// The pairs of a pairing.
fn pairs_given(alloc: Global, pairing: &Pairing) -> Given
    requires { length pairing.now.turned ≡ length pairing.now.to }
    ensures { IsPairsHeld pairing.now (in_box result.content) result.answer }
{
    match pairs_of(alloc, pairing) {
        Ok(pairs) => Given::of_pairs(alloc, pairs),
        Err(_) => Given::nothing(Answer::no_memory()),
    }
}

/// Whether a file states a pairing that carries the plan of the first sheet onto that of the second; where it doesn't,
/// why, by this name of the file.
#[unsafe(no_mangle)]
pub extern "C" fn edicad_verify(
    alloc: Global,
    schema: &mut Handle,
    first: &[u8],
    second: &[u8],
    pairing: &[u8],
    name: &[u8],
    reason: &mut Handle,
) -> Answer
    ensures kept { schema.new.held ≡ schema.old.held }
    ensures answer { MatchSchema schema.old.held
        (λ s. IsVerification s first.now second.now pairing.now name.now reason.new.held result)
        (IsWrongCall reason.new.held result) }
{
    give_under(alloc, schema, reason, |schema| {
        verification(alloc, schema, first, second, pairing, name)
    })
}

// Whether a file states a pairing that carries under a schema, or why not.
fn verification(
    alloc: Global,
    schema: &Schema,
    first: &[u8],
    second: &[u8],
    pairing: &[u8],
    name: &[u8],
) -> Given
    ensures { IsVerification schema.now first.now second.now pairing.now name.now
        (in_box result.content) result.answer }
{
    let first = FileBytes::Whole(CowSlice::Borrowed(first));
    let second = FileBytes::Whole(CowSlice::Borrowed(second));
    match verify(alloc, schema, first, second, pairing) {
        Ok(verified) => given_of_verified(alloc, name, &verified),
        Err(fault) => given_of_fault(alloc, &fault),
    }
}

// That a pairing carries; or that it doesn't, with the reason.
fn given_of_verified(alloc: Global, name: &[u8], verified: &Verified) -> Given
    ensures { IsVerifiedGiven name.now verified.now (in_box result.content) result.answer }
{
    match verified {
        Verified::Carries => Given::nothing(Answer::done()),
        Verified::Fails(why) => match reason_of(alloc, name, why) {
            Ok(reason) => Given::of_bytes(alloc, Answer::differs(), reason),
            Err(_) => Given::nothing(Answer::no_memory()),
        },
    }
}

// Why a pairing doesn't carry.
fn reason_of(alloc: Global, name: &[u8], why: &Unpaired) -> Result<Vec<u8>, AllocError>
    ensures { IfOk result (λ reason. reason.items ≡ unpaired_text name.now why.now) }
{
    let mut reason = Vec::new(alloc);
    push_unpaired(&mut reason, name, why)?;
    Ok(reason)
}

// Why a pairing isn't judged, with the reason where its file is wrong.
fn given_of_fault(alloc: Global, fault: &VerifyFault) -> Given
    ensures { IsFaultGiven fault.now (in_box result.content) result.answer }
{
    match fault {
        VerifyFault::Pairing { at, why } => match why.words().to_vec(alloc) {
            Ok(reason) => Given::of_bytes(alloc, answer_of(fault), reason),
            Err(_) => Given::nothing(Answer::no_memory()),
        },
        VerifyFault::Memory(_) | VerifyFault::First(_) | VerifyFault::Second(_) => {
            Given::nothing(answer_of(fault))
        }
    }
}

// The answer of a pairing that isn't judged.
fn answer_of(fault: &VerifyFault) -> Answer
    ensures { result ≡ verify_answer fault.now }
{
    match fault {
        VerifyFault::Memory(_) => Answer::no_memory(),
        VerifyFault::First(fault) => Answer::of_sheet(FIRST_INPUT, fault),
        VerifyFault::Second(fault) => Answer::of_sheet(SECOND_INPUT, fault),
        VerifyFault::Pairing { at, .. } => Answer::refused_at_line(PAIRING_INPUT, NO_RULE, *at),
    }
}
