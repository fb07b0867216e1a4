//! Pointers with the texts that they are read from.

ghost use Rattle.std.specs.Prelude.{IfSome, MatchOption, ◌≡◌};
ghost use Rattle.edi_record.specs.Texts.{PointerText, IsPointer, shown};
ghost use Rattle.edi_record.specs.inner.SharedParts.{IsStart};

use crate::pointer::Pointer;

/// A text, and the four parts that make it a pointer.
#[derive(Clone, Copy)]
pub(crate) struct ReadPointer<'a> {
    pub(crate) text: &'a [u8],
    pub(crate) parts: Pointer<'a>,
    pub ghost is: { IsPointer text.now (shown parts) },
}

impl<'a> ReadPointer<'a> {
    /// A text with exactly three semicolons.
    pub(crate) fn read(text: &'a [u8]) -> Option<ReadPointer<'a>>
        ensures text { IfSome result (λ read. read.text.now ≡ text.now) }
        ensures parts { MatchOption result ((p : PointerText) → ¬ (IsPointer text.now p))
            (λ read. IsPointer text.now (shown read.parts)) }
    {
        let parts = Pointer::read(text)?;
        Some(ReadPointer { text, parts })
    }

    /// The bytes in front of the identifier.
    pub(crate) fn start(&self) -> &'a [u8]
        ensures { IsStart result.now self.now.parts.lot.now self.now.parts.subset.now self.now.parts.rty.now }
    {
        let (start, _) = self.text.split_at(self.text.len() - self.parts.rid.len());
        start
    }
}
