//! What the definitions say of known sheets.

ghost use Rattle.edi_compare.specs.Canonical.{IsCanonical};
ghost use Rattle.edi_compare.specs.Headline.{IsFormOf};
ghost use Rattle.edi_compare.specs.Known.{arc_classes, arc_pairing, cut_line_sheet, empty_file, empty_sheet, equal_objects_sheet, exchanged_file, exchanged_plan, exchanged_sheet, lone_face_sheet, node_classes, node_file, node_plan, node_sheet, reversed_arc_plan, reversed_arc_sheet, turned_arc_file, turned_arc_plan, turned_arc_sheet, wrong_count_sheet};
ghost use Rattle.edi_compare.specs.Pairings.{PairingCarries};
ghost use Rattle.edi_compare.specs.PlanOfFile.{IsPlanOfFile, StateSame};
ghost use Rattle.edi_compare.specs.Refused.{IsRefusal};
ghost use Rattle.edi_compare.specs.Rules.{IsAccepted};
ghost use Rattle.edi_compare.specs.Verdicts.{IsVerdict};
ghost use Rattle.edi_compare.specs.declared.fault.Fault.TheVariants.{Entry, Line};
ghost use Rattle.edi_compare.specs.declared.pairing.Verdict.TheVariants as verdict;
ghost use Rattle.edi_plan.specs.Plans.{record_at};
ghost use Rattle.edi_plan.specs.Sides.{Side};
ghost use Rattle.edi_rank.specs.EqualObjects.{piece, pieces};
ghost use Rattle.edi_rank.specs.Keys.{is_piece};
ghost use Rattle.edi_rank.specs.Same.{Same};
ghost use Rattle.edi_rank.specs.Turned.{is_backward};
ghost use Rattle.edi_schema.specs.declared.role.Role.TheVariants.{Final, Initial, Left, Right};
ghost use Rattle.std.specs.Prelude.{◌≡◌, false, true, [], ◌∷◌};

/// Known sheets are accepted, state their plan, are canonical, the same, different or refused, as they should be.
pub fn known_sheets_are_answered()
    ensures accepted { IsAccepted node_classes node_sheet }
    ensures plan { IsPlanOfFile node_classes node_sheet node_plan }
    ensures canonical { IsCanonical node_classes node_file }
    ensures same { StateSame node_classes node_sheet node_file }
    ensures without_records { IsAccepted node_classes empty_sheet }
    ensures canonical_without_records { IsCanonical node_classes empty_file }
    ensures different { ¬ (StateSame node_classes node_sheet empty_file) }
    ensures nothing { IsRefusal node_classes [] (Line 106 1) }
{}

/// In a known plan the arc is one that is turned, its four links give it two nodes and two faces, and of the two plain
/// links one is a piece of the object, its only one.
pub fn known_arcs_have_sides()
    ensures turned { is_backward turned_arc_plan 2 ≡ true }
    ensures initial { Side turned_arc_plan 2 Initial 0 }
    ensures last { Side turned_arc_plan 2 Final 1 }
    ensures left { Side turned_arc_plan 2 Left 3 }
    ensures right { Side turned_arc_plan 2 Right 4 }
    ensures piece { pieces turned_arc_plan 5 ≡ piece 5 (record_at turned_arc_plan 10) ∷ [] }
    ensures plain { is_piece turned_arc_plan 5 (record_at turned_arc_plan 11) ≡ false }
{}

/// A sheet of an arc that is turned, between two nodes and with a face on each side, is accepted and has a known
/// canonical file. Another presentation of it has the same file, and the sheet with its sides exchanged has another.
pub fn known_arcs_are_answered()
    ensures accepted { IsAccepted arc_classes turned_arc_sheet }
    ensures other_accepted { IsAccepted arc_classes reversed_arc_sheet }
    ensures exchanged_accepted { IsAccepted arc_classes exchanged_sheet }
    ensures canonical { IsCanonical arc_classes turned_arc_file }
    ensures form { IsFormOf arc_classes turned_arc_sheet turned_arc_file }
    ensures other_form { IsFormOf arc_classes reversed_arc_sheet turned_arc_file }
    ensures exchanged_form { IsFormOf arc_classes exchanged_sheet exchanged_file }
{}

/// The sheet of an arc that is turned states the same plan as another presentation of it, in which the arc runs the
/// other way, by a known pairing. It doesn't state the same plan as the sheet with its sides exchanged, and the
/// canonical files of the two first differ where a link names a face.
pub fn known_sheets_are_paired()
    ensures plan { IsPlanOfFile arc_classes turned_arc_sheet turned_arc_plan }
    ensures other_plan { IsPlanOfFile arc_classes reversed_arc_sheet reversed_arc_plan }
    ensures paired { PairingCarries arc_classes turned_arc_plan reversed_arc_plan arc_pairing }
    ensures same { StateSame arc_classes turned_arc_sheet reversed_arc_sheet }
    ensures same_verdict { IsVerdict arc_classes turned_arc_sheet reversed_arc_sheet (verdict.Same arc_pairing) }
    ensures exchanged_plan { IsPlanOfFile arc_classes exchanged_sheet exchanged_plan }
    ensures plans_differ { ¬ (Same arc_classes turned_arc_plan exchanged_plan) }
    ensures different { ¬ (StateSame arc_classes turned_arc_sheet exchanged_sheet) }
    ensures different_verdict { IsVerdict arc_classes turned_arc_sheet exchanged_sheet (verdict.Different 63) }
{}

/// A known sheet is refused in each phase, by its first broken rule: of lines, of records, of references, of topology,
/// of objects.
pub fn known_sheets_are_refused()
    ensures lines { IsRefusal node_classes cut_line_sheet (Line 102 1) }
    ensures records { IsRefusal node_classes wrong_count_sheet (Entry 205 1) }
    ensures references { IsRefusal node_classes lone_face_sheet (Entry 302 1) }
    ensures topology { IsRefusal arc_classes lone_face_sheet (Entry 406 1) }
    ensures objects { IsRefusal arc_classes equal_objects_sheet (Entry 501 2) }
{}
