//! What the definitions say of a known pairing.

ghost use Rattle.std.specs.Prelude.{◌≡◌, codes};
ghost use Rattle.edi_pairing.specs.Known.{known_pairing, names_of_a, names_of_b};
ghost use Rattle.edi_pairing.specs.PairingText.{IsPairing, text_of};

/// A pairing of two sheets with a node and an arc each, of which the arc is reversed, and its text.
pub fn known_pairing_is_written()
    ensures pairing { IsPairing names_of_a names_of_b known_pairing }
    ensures text { text_of names_of_a names_of_b known_pairing
        ≡ codes "edicad pairing 1\nPNO;n1;m2\nPAR;a1;c2;reversed\n" }
{}
