//! What the definitions say of known refusals.

ghost use Rattle.std.specs.Prelude.{◌≡◌, Some, codes};
ghost use Rattle.edi_explain.specs.Known.{KnownPage, known_sites};
ghost use Rattle.edi_explain.specs.Lines.{lines_of_line, lines_of_sites};

/// The page on a rule with known texts, and the lines for a refused record and for a refused line, each with an earlier
/// one.
pub fn known_refusals_are_explained()
    ensures page { KnownPage }
    ensures record_lines { lines_of_sites (codes "A.VEC") known_sites (codes "two equal nodes") 403
        ≡ codes "A.VEC:12: PNO N2: two equal nodes [403]\nA.VEC:3: PNO: the earlier node [403]\n" }
    ensures line_lines { lines_of_line (codes "A.VEC") 7 (Some 2) (codes "a second BOM") 108
        ≡ codes "A.VEC:7: a second BOM [108]\nA.VEC:2: the earlier line [108]\n" }
{}
