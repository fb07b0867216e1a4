//! Writing pairings.

ghost use Rattle.std.specs.Prelude.{◌≡◌, ◌++◌, IfErr, IfOk, OnOk};
ghost use Rattle.edi_line.specs.FileBytes.{file_bytes};
ghost use Rattle.edi_compare.specs.Refused.{IsPairRefusal};
ghost use Rattle.edi_compare.specs.Rules.{IsAccepted};
ghost use Rattle.edi_pairing.specs.PairingText.{IsPairing, line_end, line_of, text_of};
ghost use Rattle.edi_pairing.specs.Verified.{IsComparedTo};

use crate::names::{RecordName, RecordNames};
use crate::taken::TakenNames;
use edi_compare::{CompareFault, Pairing, Verdict, compare_observed};
use edi_line::FileBytes;
use edi_schema::Schema;
use std::alloc::{AllocError, Global};

/// Whether two sheets state the same plan, with a pairing as a file.
#[derive(Drop)]
pub enum Compared {
    /// They do, and this file states a pairing that carries the first onto the second.
    Same { file: Vec<u8> },
    /// They do not, and their canonical files first differ at this line, counted from 1.
    Different { line: u64 },
}

/// The end of a line.
fn end_of(turned: bool) -> &'static [u8]
    ensures { result.now ≡ line_end turned }
{
    if turned { b";reversed\n" } else { b"\n" }
}

/// Adds the line of a record.
#[tactic(auto, unfolding(crate::specs::PairingText::line_of))]
fn put_line(
    text: &mut Vec<u8>,
    name: &RecordName,
    other: &RecordName,
    turned: bool,
) -> Result<(), AllocError>
    ensures { OnOk result (text.new.items ≡ text.old.items ++ line_of name.now other.now.rid turned) }
{
    text.extend_from_slice(name.kind.code())?;
    text.push(b';')?;
    text.extend_from_slice(name.rid.as_slice())?;
    text.push(b';')?;
    text.extend_from_slice(other.rid.as_slice())?;
    text.extend_from_slice(end_of(turned))?;
    Ok(())
}

/// The text of a pairing (docs/FORMAT.md, "Pairings"). `read_pairing` reads it again as the same pairing.
pub fn pairing_text(
    alloc: Global,
    first: &RecordNames,
    second: &RecordNames,
    pairing: &Pairing,
) -> Result<Vec<u8>, AllocError>
    requires { IsPairing first.now second.now pairing.now }
    ensures { IfOk result (λ text. text.items ≡ text_of first.now second.now pairing.now) }
{
    let others = second.as_slice();
    let to = pairing.to.as_slice();
    let turned = pairing.turned.as_slice();
    let mut text = b"edicad pairing 1\n".to_vec(alloc)?;
    for (place, name) in first.as_slice().iter().enumerate() {
        put_line(&mut text, name, &others[to[place] as usize], turned[place])?;
    }
    Ok(text)
}

/// What `edi_compare::compare` answers, with the pairing as a file.
pub fn compare_to_file(
    alloc: Global,
    schema: &Schema,
    a: FileBytes<'_>,
    b: FileBytes<'_>,
) -> Result<Compared, CompareFault>
    ensures first { OnOk result (IsAccepted schema.now (file_bytes a.entry)) }
    ensures second { OnOk result (IsAccepted schema.now (file_bytes b.entry)) }
    ensures compared { IfOk result (IsComparedTo schema.now (file_bytes a.entry) (file_bytes b.entry)) }
    ensures refusal { IfErr result (IsPairRefusal schema.now (file_bytes a.entry) (file_bytes b.entry)) }
{
    a.keeps();
    b.keeps();
    let (names, others) = (TakenNames::new(alloc), TakenNames::new(alloc));
    let (verdict, names, others) = compare_observed(alloc, schema, a, b, names, others)?;
    match verdict {
        Verdict::Same(pairing) => {
            let names = RecordNames::of(names.into_vec());
            let others = RecordNames::of(others.into_vec());
            let file = pairing_text(alloc, &names, &others, &pairing)?;
            Ok(Compared::Same { file })
        }
        Verdict::Different { line } => Ok(Compared::Different { line }),
    }
}
