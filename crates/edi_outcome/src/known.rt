//! What the definitions say of known outcomes.
ghost use Rattle.std.specs.Prelude.{◌≡◌, ◌∷◌, [], alloc_error, codes};
ghost use Rattle.edi_schema.specs.declared.fault.SchemaFault.TheVariants as schema;
ghost use Rattle.edi_schema.specs.declared.fault.Source.TheVariants.{Dic, Scd};
ghost use Rattle.edi_compare.specs.declared.fault.Fault.TheVariants as sheet;
ghost use Rattle.edi_compare.specs.declared.fault.RunFault.TheVariants as run;
ghost use Rattle.edi_pairing.specs.declared.fault.WrongLine.TheVariants.{Head};
ghost use Rattle.edi_pairing.specs.declared.verified.Unpaired.TheVariants.{CharacterSets};
ghost use Rattle.edi_outcome.specs.Known.{check_names, pair_names, sheet_names};
ghost use Rattle.edi_outcome.specs.Status.{status_for};
ghost use Rattle.edi_outcome.specs.Words.{words_for, words_of_fault};
ghost use Rattle.edi_outcome.specs.declared.outcome.Outcome.TheVariants as outcome;

/// Refusals, and what a line says of each.
pub fn known_refusals_are_said()
    ensures only_sheet { words_of_fault (run.First (sheet.Line 101 3)) sheet_names ≡ codes "refused 101 line 3" }
    ensures first_sheet { words_of_fault (run.First (sheet.Line 101 3)) pair_names ≡ codes "refused first 101 line 3" }
    ensures checked_sheet { words_of_fault (run.First (sheet.Entry 403 12)) check_names
        ≡ codes "refused first 403 record 12" }
    ensures second_sheet { words_of_fault (run.Second (sheet.Line 106 1)) pair_names
        ≡ codes "refused second 106 line 1" }
    ensures classes { words_of_fault (run.Schema (schema.Entry Scd 602 4)) sheet_names
        ≡ codes "refused scd 602 record 4" }
    ensures dictionary { words_of_fault (run.Schema (schema.Line Dic 106 1)) sheet_names
        ≡ codes "refused dic 106 line 1" }
    ensures kinds { words_of_fault (run.Schema schema.Kinds) sheet_names ≡ codes "refused kinds 604" }
    ensures pairing { words_for (outcome.WrongPairing 1 Head) check_names
        ≡ codes "refused pairing line 1: it is not edicad pairing 1" }
{}

/// Failures, and what a line says of each.
pub fn known_failures_are_said()
    ensures unread { words_of_fault (run.Read 2) sheet_names ≡ codes "cannot read d" }
    ensures too_long { words_of_fault (run.TooLong 1) sheet_names ≡ codes "too long s" }
    ensures unwritten { words_of_fault (run.Write (record { count = 5 })) sheet_names ≡ codes "cannot write o" }
    ensures escape { words_of_fault (run.Read 1) ((27 ∷ codes "[2J") ∷ codes "o" ∷ []) ≡ codes "cannot read \\x1b[2J" }
    ensures memory { words_of_fault (run.Memory alloc_error) sheet_names ≡ codes "out of memory" }
{}

/// Answers, and what a line says of each.
pub fn known_answers_are_said()
    ensures accepted { words_for outcome.Accepted sheet_names ≡ codes "accepted" }
    ensures same { words_for outcome.Same pair_names ≡ codes "same" }
    ensures different { words_for (outcome.Different 7) pair_names ≡ codes "different at line 7" }
    ensures pairs { words_for outcome.Pairs check_names ≡ codes "pairs" }
    ensures unpaired { words_for (outcome.Unpaired CharacterSets) check_names
        ≡ codes "does not pair\nA and B have different character sets" }
{}

/// Outcomes, and the status of each.
pub fn known_statuses_are_given()
    ensures accepted { status_for outcome.Accepted ≡ 0 }
    ensures different { status_for (outcome.Different 7) ≡ 1 }
    ensures unpaired { status_for (outcome.Unpaired CharacterSets) ≡ 1 }
    ensures wrong { status_for (outcome.WrongPairing 1 Head) ≡ 2 }
    ensures refused { status_for (outcome.Fault (run.Second (sheet.Line 106 1))) ≡ 2 }
    ensures dictionary { status_for (outcome.Fault (run.Schema (schema.Line Dic 106 1))) ≡ 2 }
    ensures unread { status_for (outcome.Fault (run.Read 2)) ≡ 4 }
    ensures unwritten { status_for (outcome.Fault (run.Write (record { count = 5 }))) ≡ 4 }
    ensures memory { status_for (outcome.Fault (run.Memory alloc_error)) ≡ 5 }
{}
