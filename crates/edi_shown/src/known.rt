//! What is known of how bytes are shown.
ghost use Rattle.std.specs.Prelude.{◌≡◌, ◌++◌, ◌∷◌, [], codes};
ghost use Rattle.edi_shown.specs.Shown.{ShowNoControl, shown_bytes};

/// Some bytes, and what a line shows.
pub fn known_bytes_are_shown()
    ensures identifier { shown_bytes (codes "Objet_1") ≡ codes "Objet_1" }
    ensures escape { shown_bytes (27 ∷ 91 ∷ 50 ∷ 74 ∷ []) ≡ codes "\\x1b[2J" }
    ensures line_end { shown_bytes (97 ∷ 13 ∷ 10 ∷ 98 ∷ []) ≡ codes "a\\x0d\\x0ab" }
    ensures backslash { shown_bytes (codes "a\\b") ≡ codes "a\\\\b" }
    ensures delete { shown_bytes (127 ∷ []) ≡ codes "\\x7f" }
    ensures accent { shown_bytes (195 ∷ 169 ∷ []) ≡ 195 ∷ 169 ∷ [] }
    ensures second_controls { shown_bytes (194 ∷ 155 ∷ 50 ∷ 74 ∷ []) ≡ codes "\\xc2\\x9b2J" }
    ensures latin { shown_bytes (codes "caf" ++ 233 ∷ []) ≡ codes "caf\\xe9" }
{}

/// What a line shows is text, and has no control character.
pub fn shown_bytes_control_nothing()
    ensures { ShowNoControl }
{}
