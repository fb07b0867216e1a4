//! The pairs of a pairing, as C has them.

ghost use Rattle.std.specs.Prelude.{◌≡◌, IfOk, length};
ghost use Rattle.edicad_c.specs.PairLists.{pairs_of};

use edi_compare::Pairing;
use std::alloc::{AllocError, Global};

/// A record of the first of two sheets, by the record of the second that it is.
#[repr(C)]
#[derive(Clone, Copy)]
pub struct Pair {
    /// The place of the record of the second sheet; places are counted from 0, in file order.
    pub second: u32,
    /// Whether it is an arc that is reversed: 1 or 0.
    pub reversed: u32,
}

/// The pairs of a pairing, in the order of the first sheet.
pub fn pairs_of(alloc: Global, pairing: &Pairing) -> Result<Vec<Pair>, AllocError>
    requires { length pairing.now.turned ≡ length pairing.now.to }
    ensures { IfOk result (λ pairs. pairs.items ≡ pairs_of pairing.now) }
{
    let turned = pairing.turned.as_slice();
    let mut pairs = Vec::with_capacity(alloc, turned.len())?;
    for (place, second) in pairing.to.as_slice().iter().enumerate() {
        pairs.push(Pair {
            second: *second,
            reversed: u32::from(turned[place]),
        })?;
    }
    Ok(pairs)
}
