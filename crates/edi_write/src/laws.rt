//! Laws of what is written.
ghost use Rattle.edi_write.specs.Laws.{
  WrittenLayout,
  WrittenIsNamed,
  WrittenIsPlanOf,
  WrittenPreservesReferences,
  WrittenRecordIsPrintable,
  WrittenIsPrintable,
  WrittenHasAttributeClasses,
  ArrangedIsPlan,
  LayoutHasPlan,
  LayoutPreservesReferences,
  LayoutIsSound,
  SchemasHavePrintableKinds,
  SchemasHavePrintableLetters,
};

/// The layout of a plan is that of records; each end finds what it names; read again they break no rule of references,
/// and their plan is that plan.
pub fn written_is_read_again()
    ensures layout { WrittenLayout }
    ensures named { WrittenIsNamed }
    ensures plan { WrittenIsPlanOf }
    ensures references { WrittenPreservesReferences }
{}

/// What is written of a plan that is the same as one that was read can be printed, record by record and as a sheet.
pub fn written_is_printable()
    ensures each { WrittenRecordIsPrintable }
    ensures sheet { WrittenIsPrintable }
{}

/// The plan in canonical order keeps what each plan keeps; the classes of its attributes are of type ATT, where the
/// plan that was read breaks no rule of references.
pub fn written_is_from_what_was_read()
    ensures plan { ArrangedIsPlan }
    ensures classes { WrittenHasAttributeClasses }
{}

/// The bytes of a plan break no rule of lines, records and references, and each sheet that is read of them has that
/// plan.
pub fn layout_is_read_again()
    ensures sound { LayoutIsSound }
    ensures references { LayoutPreservesReferences }
    ensures plan { LayoutHasPlan }
{}

/// The letters of a schema can be printed.
pub fn letters_can_be_printed()
    ensures { SchemasHavePrintableLetters }
{}

/// The names of the classes of the four kinds can be printed.
pub fn kinds_can_be_printed()
    ensures { SchemasHavePrintableKinds }
{}
