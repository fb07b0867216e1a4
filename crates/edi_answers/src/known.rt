//! What the definitions say of digests, and of names of paths.
ghost use Rattle.std.specs.Prelude.{◌≡◌, ◌∷◌, [], codes};
ghost use Rattle.edi_answers.specs.Hashes.{OneDigestOnePlan, OnePlanOneDigest, digest_line};
ghost use Rattle.edi_answers.specs.Paths.{names_of_paths};

use edi_compare::laws::equal_exactly_if_same;

/// Sheets of one plan have one digest, and sheets with one digest state one plan unless their canonical files are two
/// that share a SHA-256.
pub fn digests_tell_plans()
    ensures one_plan { OnePlanOneDigest }
    ensures one_digest { OneDigestOnePlan }
{
    equal_exactly_if_same();
}

/// The first bytes of a digest and some names, and the lines that `hash` would write of them.
pub fn known_digests_are_written()
    ensures plain { digest_line (227 ∷ 176 ∷ 196 ∷ 66 ∷ []) (codes "A.VEC") ≡ codes "e3b0c442  A.VEC\n" }
    ensures backslash { digest_line (227 ∷ 176 ∷ 196 ∷ 66 ∷ []) (codes "a\\b.VEC") ≡ codes "\\e3b0c442  a\\\\b.VEC\n" }
    ensures line_feed { digest_line (227 ∷ 176 ∷ 196 ∷ 66 ∷ []) (codes "a\nb.VEC") ≡ codes "\\e3b0c442  a\\nb.VEC\n" }
{}

/// The paths of some inputs and of an output, and the names that a line has for them.
pub fn known_paths_are_named()
    ensures files { names_of_paths (codes "a" ∷ codes "b" ∷ codes "o" ∷ []) ≡ codes "a" ∷ codes "b" ∷ codes "o" ∷ [] }
    ensures streams { names_of_paths (codes "-" ∷ codes "b" ∷ codes "-" ∷ [])
        ≡ codes "standard input" ∷ codes "b" ∷ codes "standard output" ∷ [] }
{}
