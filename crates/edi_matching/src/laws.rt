//! Laws of matchings.
ghost use Rattle.edi_matching.specs.Laws.{PairingIsTotal, TotalIsPairing};

/// A matching that leaves nothing out is a pairing, if the character sets are the same.
pub fn total_is_pairing()
    ensures { TotalIsPairing }
{}

/// A pairing is a matching that leaves nothing out, of sheets with one character set.
pub fn pairing_is_total()
    ensures { PairingIsTotal }
{}
