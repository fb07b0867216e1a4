//! Single sheets: checked, in their canonical form, and digested.

ghost use Rattle.std.specs.Prelude.{◌≡◌, IfErr, IfOk, List, ℕ};
ghost use Rattle.sha2.specs.Sha256.{sha256};
ghost use Rattle.edi_compare.specs.Headline.{IsFormOf};
ghost use Rattle.edi_compare.specs.Refused.{IsRefusal};
ghost use Rattle.edicad_c.specs.Answers.{wrong_call};
ghost use Rattle.edicad_c.specs.Held.{IsWrongCall, MatchSchema, in_box};
ghost use Rattle.edicad_c.specs.Sheets.{IsCanonicalFile, IsCheck, IsDigest};

use crate::answer::{Answer, FIRST_INPUT};
use crate::given::{Given, answer_under, give_under};
use crate::handle::Handle;
use edi_compare::{Fault, accept, canon};
use edi_schema::Schema;
use sha2::{Digest, Sha256};
use std::alloc::Global;

/// Whether a sheet is accepted.
#[unsafe(no_mangle)]
pub extern "C" fn edicad_check(alloc: Global, schema: &mut Handle, sheet: &[u8]) -> Answer
    ensures kept { schema.new.held ≡ schema.old.held }
    ensures answer { MatchSchema schema.old.held (λ s. IsCheck s sheet.now result) (result ≡ wrong_call) }
{
    answer_under(alloc, schema, |schema| check(alloc, schema, sheet))
}

// Whether a sheet is accepted under a schema.
fn check(alloc: Global, schema: &Schema, sheet: &[u8]) -> Answer
    ensures { IsCheck schema.now sheet.now result }
{
    match accept(alloc, schema, sheet) {
        Ok(_) => Answer::done(),
        Err(fault) => Answer::of_sheet(FIRST_INPUT, &fault),
    }
}

/// The canonical file of a sheet.
#[unsafe(no_mangle)]
pub extern "C" fn edicad_canonical(
    alloc: Global,
    schema: &mut Handle,
    sheet: &[u8],
    canonical: &mut Handle,
) -> Answer
    ensures kept { schema.new.held ≡ schema.old.held }
    ensures answer { MatchSchema schema.old.held (λ s. IsCanonicalFile s sheet.now canonical.new.held result)
        (IsWrongCall canonical.new.held result) }
{
    give_under(alloc, schema, canonical, |schema| {
        canonical_file(alloc, schema, sheet)
    })
}

// The canonical file of a sheet under a schema.
fn canonical_file(alloc: Global, schema: &Schema, sheet: &[u8]) -> Given
    ensures { IsCanonicalFile schema.now sheet.now (in_box result.content) result.answer }
{
    match canon(alloc, schema, sheet) {
        Ok(file) => Given::of_bytes(alloc, Answer::done(), file),
        Err(fault) => Given::nothing(Answer::of_sheet(FIRST_INPUT, &fault)),
    }
}

/// The SHA-256 of the canonical file of a sheet.
#[unsafe(no_mangle)]
pub extern "C" fn edicad_digest(
    alloc: Global,
    schema: &mut Handle,
    sheet: &[u8],
    digest: &mut [u8; 32],
) -> Answer
    ensures kept { schema.new.held ≡ schema.old.held }
    ensures answer { MatchSchema schema.old.held (λ s. IsDigest s sheet.now digest.old digest.new result)
        ((digest.new ≡ digest.old) × (result ≡ wrong_call)) }
{
    match schema.use_schema(alloc, |schema| digest_of(alloc, schema, sheet)) {
        Some(Ok(found)) => {
            *digest = found;
            Answer::done()
        }
        Some(Err(fault)) => Answer::of_sheet(FIRST_INPUT, &fault),
        None => Answer::wrong_call(),
    }
}

// The SHA-256 of the canonical file of a sheet under a schema.
fn digest_of(alloc: Global, schema: &Schema, sheet: &[u8]) -> Result<[u8; 32], Fault>
    ensures digest { IfOk result (λ digest. (c : List ℕ) × IsFormOf schema.now sheet.now c × (digest ≡ sha256 c)) }
    ensures refusal { IfErr result (IsRefusal schema.now sheet.now) }
{
    let file = canon(alloc, schema, sheet)?;
    Ok(Sha256::digest(&file))
}
