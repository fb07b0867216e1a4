//! Laws of texts of pairings.
ghost use Rattle.edi_pairing.specs.Laws.{PairingTextsAreUnique, WrongLinesHaveOneReason};

/// The text of a pairing states that pairing and no other: what is written is read again as the same pairing.
pub fn pairing_texts_are_unique()
    ensures { PairingTextsAreUnique }
{}

/// The first wrong line of a file is wrong for one reason: only one is the first that is so.
pub fn wrong_lines_have_one_reason()
    ensures { WrongLinesHaveOneReason }
{}
