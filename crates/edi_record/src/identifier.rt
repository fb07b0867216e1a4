//! Identifiers of records.

ghost use Rattle.std.specs.Prelude.{◌≡◌, ◌≤◌, ◌<◌, nat_eq, length, IfOk};
ghost use Rattle.std.specs.Cmp.{partial_equiv_from_equiv};
ghost use Rattle.std.specs.Cmp.Lexicographic.{pointwise, nat_list_eq_equiv};
ghost use Rattle.edi_record.specs.inner.Identifiers.{identifier_bytes, IsInRoom};

use crate::long_texts::LongTexts;
use edi_line::{Text, copy_both_ends, same_bytes};
use std::alloc::AllocError;
use std::marker::Model;

// How many bytes lie in the value itself at most.
const ROOM: usize = 30;

/// Where the bytes of an identifier lie.
enum IdentifierBytes {
    Inside { len: u8, bytes: [u8; ROOM] },
    Beside(Text),
}

impl Drop for IdentifierBytes {
    // As for the heads of records, a call for each would take more than to let it go.
    #[inline(always)]
    fn drop(self) {
        match self {
            IdentifierBytes::Inside { len: _, bytes: _ } => {}
            IdentifierBytes::Beside(_) => {}
        }
    }
}

/// The identifier of a record, or of what an end names. Nearly each has 30 bytes at most, which lie in the value
/// itself: a sheet has one for each record and each end, and to take memory for those of 25 bytes took a tenth of a
/// check. Contracts see the list of the bytes alone.
pub struct Identifier {
    bytes: IdentifierBytes,
}

impl Drop for Identifier {
    #[inline(always)]
    fn drop(self) {
        let Identifier { bytes: _ } = self;
    }
}

impl Model for Identifier {
    ghost use Rattle.std.specs.Prelude.{List, ℕ};
    ghost use Rattle.edi_record.specs.inner.Identifiers.{identifier_bytes, IsInRoom};

    ghost Value = { List ℕ };

    ghost view = { λ i. identifier_bytes i.bytes };

    ghost invariant = { λ i. IsInRoom i.bytes };
}

impl Identifier {
    /// The identifier of these bytes.
    pub(crate) fn of(texts: &mut LongTexts, text: &[u8]) -> Result<Identifier, AllocError>
        ensures { IfOk result (λ i. i ≡ text.now) }
    {
        let bytes = if text.len() <= ROOM {
            inside(text)
        } else {
            IdentifierBytes::Beside(texts.text(text)?)
        };
        Ok(Identifier { bytes })
    }

    /// The bytes, borrowed.
    pub fn as_slice(&self) -> &[u8]
        ensures { result.now ≡ self.now }
    {
        match &self.bytes {
            IdentifierBytes::Inside { len, bytes } => &bytes[..usize::from(*len)],
            IdentifierBytes::Beside(text) => text.as_slice(),
        }
    }
}

/// The bytes in the value itself. Those of most identifiers are copied by both ends, which takes no call.
fn inside(text: &[u8]) -> IdentifierBytes
    requires { length text.now ≤ 30 }
    ensures value { identifier_bytes result ≡ text.now }
    ensures room { IsInRoom result }
{
    let mut bytes = [0; ROOM];
    match text.len() {
        4..=7 => copy_both_ends(&mut bytes, text, 4),
        8..=16 => copy_both_ends(&mut bytes, text, 8),
        17..=ROOM => copy_both_ends(&mut bytes, text, 16),
        _ => bytes[..text.len()].copy_from_slice(text),
    }
    IdentifierBytes::Inside {
        len: text.len() as u8,
        bytes,
    }
}

impl PartialEq for Identifier {
    ghost eq = { pointwise nat_eq };

    ghost laws = { partial_equiv_from_equiv nat_list_eq_equiv };

    fn eq(&self, other: &Self) -> bool {
        same_bytes(self.as_slice(), other.as_slice())
    }
}

impl Eq for Identifier {
    ghost laws = { nat_list_eq_equiv };
}
