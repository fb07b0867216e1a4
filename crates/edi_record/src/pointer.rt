//! Pointers.

ghost use Rattle.std.specs.Prelude.{◌≡◌, ◌≤◌, IfOk, ℕ, List, MatchOption, length, true};
ghost use Rattle.edi_record.specs.Texts.{PointerText, shown, IsPointer, IsPosition, IsCount};
ghost use Rattle.edi_record.specs.declared.record.Point.{Point};

use crate::long_texts::LongTexts;
use crate::marked::split_at_semicolon;
use crate::name::Name;
use edi_line::Text;
use std::alloc::AllocError;

/// The four parts of a pointer.
#[derive(Clone, Copy)]
pub struct Pointer<'a> {
    pub lot: &'a [u8],
    pub subset: &'a [u8],
    pub rty: &'a [u8],
    pub rid: &'a [u8],
}

impl<'a> Pointer<'a> {
    /// The parts of a text with exactly three semicolons.
    pub fn read(text: &'a [u8]) -> Option<Pointer<'a>>
        ensures { MatchOption result ((p : PointerText) → ¬ (IsPointer text.now p))
            (λ p. IsPointer text.now (shown p)) }
    {
        let (lot, rest) = split_at_semicolon(text)?;
        let (subset, rest) = rest.split_at_semicolon()?;
        let (rty, rid) = rest.split_at_semicolon()?;
        if rid.split_at_semicolon().is_some() {
            return None;
        }
        Some(Pointer {
            lot,
            subset,
            rty,
            rid: rid.text,
        })
    }

    /// The name of what it points at. One of short texts takes no memory, and is made without a way out.
    pub(crate) fn name(self, texts: &mut LongTexts) -> Result<Name, AllocError>
        ensures { IfOk result (λ n. n ≡ record { rty = self.entry.rty.now; rid = self.entry.rid.now }) }
    {
        if self.rty.len() <= Text::SHORT && self.rid.len() <= Text::SHORT {
            return Ok(Name {
                rty: Text::short(texts.alloc, self.rty),
                rid: Text::short(texts.alloc, self.rid),
            });
        }
        self.long_name(texts)
    }

    /// The name of what it points at, whatever its texts are.
    #[inline(never)]
    fn long_name(self, texts: &mut LongTexts) -> Result<Name, AllocError>
        ensures { IfOk result (λ n. n ≡ record { rty = self.entry.rty.now; rid = self.entry.rid.now }) }
    {
        Ok(Name {
            rty: texts.text(self.rty)?,
            rid: texts.text(self.rid)?,
        })
    }
}

/// A text has one list of parts, states one position, and counts one number.
pub fn texts_are_unique()
    ensures pointer { (text : List ℕ) (p q : PointerText) → IsPointer text p → IsPointer text q → p ≡ q }
    ensures position { (text : List ℕ) (p q : Point) → IsPosition text p → IsPosition text q → p ≡ q }
    ensures count { (text : List ℕ) (m n : ℕ) → IsCount text m → IsCount text n → m ≡ n }
{}
