//! What the definitions say of known lines and changes.

ghost use Rattle.std.specs.Prelude.{◌≡◌, ◌∷◌, [], codes, false, true};
ghost use Rattle.edi_changes.specs.Checks.{verdict_line};
ghost use Rattle.edi_changes.specs.ListText.{list_line};
ghost use Rattle.edi_changes.specs.Told.{changes_text};
ghost use Rattle.edi_changes.specs.declared.changes.Fate.TheVariants.{Gone, New, Same};

/// The first bytes of the digest of a schema, and its line.
pub fn known_lines_are_written()
    ensures { list_line (record { is_schema = true; name = codes "x.scd"; digest = 227 ∷ 176 ∷ 196 ∷ 66 ∷ [] })
        ≡ codes "schema e3b0c442  x.scd\n" }
{}

/// Some changes, and what is said of them.
pub fn known_changes_are_told()
    ensures nothing { changes_text (record { subject = codes "sheet a"; fate = Same } ∷ [])
        ≡ codes "0 new, 0 gone, 0 changed, 1 the same\n" }
    ensures some { changes_text (record { subject = codes "schema x"; fate = Gone }
        ∷ record { subject = codes "sheet a\nb"; fate = New } ∷ [])
        ≡ codes "gone schema x\n\\new sheet a\\nb\n1 new, 1 gone, 0 changed, 0 the same\n" }
{}

/// What is said of the digest of a schema whose name has an escape, and of that of a sheet.
pub fn known_verdicts_are_written()
    ensures schema { verdict_line (record { is_schema = true; name = codes "a\nb"; digest = [] }) false
        ≡ codes "schema \\a\\nb: FAILED\n" }
    ensures sheet { verdict_line (record { is_schema = false; name = codes "x.vec"; digest = [] }) true
        ≡ codes "x.vec: OK\n" }
{}
