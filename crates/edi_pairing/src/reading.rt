//! Reading pairings.

ghost use Rattle.std.specs.Prelude.{◌≡◌, IfOk, IfErr};
ghost use Rattle.edi_pairing.specs.PairingText.{StatesPairing};
ghost use Rattle.edi_pairing.specs.WrongLines.{IsPairingRefusal};

use crate::fault::{PairingFault, WrongLine};
use crate::lines::{behind, read_line};
use crate::names::RecordNames;
use crate::places::PlacesByName;
use crate::wrong::{why_no_head, why_no_line};
use edi_compare::Pairing;
use edi_line::Sequence;
use std::alloc::Global;

/// The pairing that a file states (docs/FORMAT.md, "Pairings"), of two sheets by the names of their records: the file
/// is the text of that pairing and of no other. Or the first line, counted from 1, up to which the file isn't the
/// beginning of any pairing's text: one that isn't in form, that isn't the line of the next record of the first sheet,
/// or that names no record of its type in the second; one past the last where lines are missing. And why that line is
/// wrong.
pub fn read_pairing(
    alloc: Global,
    first: &RecordNames,
    second: &RecordNames,
    file: &[u8],
) -> Result<Pairing, PairingFault>
    ensures states { IfOk result (λ pairing. StatesPairing first.now second.now pairing file.now) }
    ensures refusal { IfErr result (IsPairingRefusal first.now second.now file.now) }
{
    let Some(mut text) = behind(file, b"edicad pairing 1\n") else {
        let why = why_no_head(first.as_slice(), second.as_slice(), file);
        return Err(PairingFault::Line { at: 1, why });
    };
    let places = PlacesByName::among(alloc, second)?;
    let names = first.as_slice();
    let mut to = Vec::with_capacity(alloc, names.len())?;
    let mut turned = Vec::with_capacity(alloc, names.len())?;
    for (place, name) in names.iter().enumerate() {
        let Some(line) = read_line(&places, name, text) else {
            let why = why_no_line(names, second.as_slice(), place, text);
            return Err(PairingFault::Line {
                at: place as u64 + 2,
                why,
            });
        };
        to.push(line.to)?;
        turned.push(line.turned)?;
        text = line.behind;
    }
    if !text.is_empty() {
        return Err(PairingFault::Line {
            at: names.len() as u64 + 2,
            why: WrongLine::Extra,
        });
    }
    Ok(Pairing {
        to: Sequence::from_vec(to),
        turned: Sequence::from_vec(turned),
    })
}
