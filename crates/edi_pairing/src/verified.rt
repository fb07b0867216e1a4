//! What the check of a pairing's file answers.

ghost use Rattle.std.specs.Prelude.{◌≡◌, ◌<◌, IfOk, length, slice_index};
ghost use Rattle.edi_pairing.specs.Verified.{pair_at};
ghost use Rattle.edi_pairing.specs.inner.Named.{CanBeNamed, HasPair, HasNamesOf};

use crate::names::{RecordName, RecordNames};
use edi_compare::{Pairing, RecordPart, Uncarried, WrongPartner};
use edi_line::Text;
use std::alloc::{AllocError, Global};

/// Whether the pairing that a file states carries the plan of the first sheet, A, onto that of the second, B.
#[derive(Drop)]
pub enum Verified {
    /// It does.
    Carries,
    /// It doesn't, and this is why.
    Fails(Unpaired),
}

/// Why the pairing that a file states doesn't carry the plan of A onto that of B: the first of these that is so. The
/// records of A that aren't carried come in file order, and the first of them is named.
#[derive(Drop)]
pub enum Unpaired {
    /// A and B have different character sets.
    CharacterSets,
    /// The record of A is the first that isn't carried: it goes to a record of B to which an earlier one goes.
    Shared { pair: NamedPair, earlier: NamedPair },
    /// The record of A is the first that isn't carried: it isn't the record of B to which it goes, and this is the
    /// first part in which they differ.
    Unlike { pair: NamedPair, part: RecordPart },
    /// Each record of A is carried, and this is the first of B to which none goes.
    Unmet { name: RecordName },
}

/// A line of a pairing's file: its number, counted from 1, and the names of its record of A and of its record of B.
pub struct NamedPair {
    pub at: u64,
    pub name: RecordName,
    pub partner: RecordName,
}

impl Drop for NamedPair {
    fn drop(self) {
        let NamedPair {
            at: _,
            name: _,
            partner: _,
        } = self;
    }
}

/// Why a pairing of named records doesn't carry, with the names of the records that this concerns.
pub(crate) fn unpaired_by(
    alloc: Global,
    first: &RecordNames,
    second: &RecordNames,
    pairing: &Pairing,
    why: Uncarried,
) -> Result<Unpaired, AllocError>
    requires { CanBeNamed first.now second.now pairing.now why }
    ensures { IfOk result (HasNamesOf first.now second.now pairing.now why) }
{
    match why {
        Uncarried::Entries => unreachable!(),
        Uncarried::CharacterSets => Ok(Unpaired::CharacterSets),
        Uncarried::Record { place, why } => {
            wrong_partner(alloc, first, second, pairing, place, why)
        }
        Uncarried::Unmet { place } => {
            let name = copy_name(alloc, &second.as_slice()[place as usize])?;
            Ok(Unpaired::Unmet { name })
        }
    }
}

// The same of a record that isn't carried.
fn wrong_partner(
    alloc: Global,
    first: &RecordNames,
    second: &RecordNames,
    pairing: &Pairing,
    place: u32,
    why: WrongPartner,
) -> Result<Unpaired, AllocError>
    requires { CanBeNamed first.now second.now pairing.now (Uncarried.Record place why) }
    ensures { IfOk result (HasNamesOf first.now second.now pairing.now (Uncarried.Record place why)) }
{
    match why {
        WrongPartner::Nowhere => unreachable!(),
        WrongPartner::Shared { earlier } => {
            let pair = named_pair(alloc, first, second, pairing, place)?;
            let earlier = named_pair(alloc, first, second, pairing, earlier)?;
            Ok(Unpaired::Shared { pair, earlier })
        }
        WrongPartner::Unlike { part } => {
            let pair = named_pair(alloc, first, second, pairing, place)?;
            Ok(Unpaired::Unlike { pair, part })
        }
    }
}

/// The line of the record at a place.
fn named_pair(
    alloc: Global,
    first: &RecordNames,
    second: &RecordNames,
    pairing: &Pairing,
    place: u32,
) -> Result<NamedPair, AllocError>
    requires { HasPair first.now second.now pairing.now place }
    ensures { IfOk result (λ pair. pair ≡ pair_at first.now second.now pairing.now place) }
{
    let to = pairing.to.as_slice()[place as usize];
    let name = copy_name(alloc, &first.as_slice()[place as usize])?;
    let partner = copy_name(alloc, &second.as_slice()[to as usize])?;
    Ok(NamedPair {
        at: place as u64 + 2,
        name,
        partner,
    })
}

/// A name once more.
fn copy_name(alloc: Global, name: &RecordName) -> Result<RecordName, AllocError>
    ensures { IfOk result (λ copy. copy ≡ name.now) }
{
    let rid = Text::from_slice(alloc, name.rid.as_slice())?;
    Ok(RecordName {
        kind: name.kind,
        rid,
    })
}
