//! The lines of known outcomes, and of known words.

ghost use Rattle.std.specs.Prelude.{◌≡◌, ◌++◌, ◌∷◌, [], alloc_error, codes};
ghost use Rattle.edi_schema.specs.declared.fault.SchemaFault.TheVariants as schema;
ghost use Rattle.edi_schema.specs.declared.fault.Source.TheVariants.{Dic, Scd};
ghost use Rattle.edi_compare.specs.declared.fault.Fault.TheVariants as sheet;
ghost use Rattle.edi_compare.specs.declared.fault.RunFault.TheVariants as run;
ghost use Rattle.edi_pairing.specs.declared.fault.WrongLine.TheVariants.{Head};
ghost use Rattle.edi_pairing.specs.declared.verified.Unpaired.TheVariants.{CharacterSets};
ghost use Rattle.edi_outcome.specs.Known.{check_names, pair_names, sheet_names};
ghost use Rattle.edi_outcome.specs.declared.outcome.Outcome.TheVariants as outcome;
ghost use Rattle.edi_json.specs.Texts.{json_line, json_text};
ghost use Rattle.edi_json_answers.specs.Answers.{outcome_value};
ghost use Rattle.edi_json_answers.specs.Digests.{refused_sheet_values, schema_digest_value, sheet_digest_value};
ghost use Rattle.edi_json_answers.specs.Known.{answer_line, digest_start, refusal_line, sheet_refusal_line, words_line};
ghost use Rattle.edi_json_answers.specs.Told.{told_values};

/// Answers, and the line of each.
pub fn known_answers_are_lines()
    ensures accepted { json_line (outcome_value outcome.Accepted sheet_names) ≡ answer_line (codes "\"accepted\"") }
    ensures same { json_line (outcome_value outcome.Same pair_names) ≡ answer_line (codes "\"same\"") }
    ensures different { json_line (outcome_value (outcome.Different 7) pair_names)
        ≡ answer_line (codes "\"different\",\"line\":7") }
    ensures pairs { json_line (outcome_value outcome.Pairs check_names) ≡ answer_line (codes "\"pairs\"") }
    ensures unpaired { json_line (outcome_value (outcome.Unpaired CharacterSets) check_names)
        ≡ answer_line (codes "\"unpaired\",\"why\":\"A and B have different character sets\"") }
{}

/// Refusals, and the line of each.
pub fn known_refusals_are_lines()
    ensures only_sheet { json_line (outcome_value (outcome.Fault (run.First (sheet.Line 101 3))) sheet_names)
        ≡ refusal_line (codes "\"sheet\",\"rule\":101,\"line\":3,\"record\":null,\"why\":null") }
    ensures first_sheet { json_line (outcome_value (outcome.Fault (run.First (sheet.Entry 403 12))) pair_names)
        ≡ refusal_line (codes "\"first\",\"rule\":403,\"line\":null,\"record\":12,\"why\":null") }
    ensures second_sheet { json_line (outcome_value (outcome.Fault (run.Second (sheet.Line 106 1))) check_names)
        ≡ refusal_line (codes "\"second\",\"rule\":106,\"line\":1,\"record\":null,\"why\":null") }
    ensures classes { json_line (outcome_value (outcome.Fault (run.Schema (schema.Entry Scd 602 4))) sheet_names)
        ≡ refusal_line (codes "\"scd\",\"rule\":602,\"line\":null,\"record\":4,\"why\":null") }
    ensures dictionary { json_line (outcome_value (outcome.Fault (run.Schema (schema.Line Dic 106 1))) sheet_names)
        ≡ refusal_line (codes "\"dic\",\"rule\":106,\"line\":1,\"record\":null,\"why\":null") }
    ensures kinds { json_line (outcome_value (outcome.Fault (run.Schema schema.Kinds)) sheet_names)
        ≡ refusal_line (codes "\"kinds\",\"rule\":604,\"line\":null,\"record\":null,\"why\":null") }
    ensures pairing { json_line (outcome_value (outcome.WrongPairing 1 Head) check_names) ≡ refusal_line
        (codes "\"pairing\",\"rule\":null,\"line\":1,\"record\":null,\"why\":\"it is not edicad pairing 1\"") }
{}

/// Digests and refusals of sheets, and the line of each.
pub fn known_digests_are_lines()
    ensures of_schema { json_line (schema_digest_value (codes "schema.scd") (73 ∷ 173 ∷ [])) ≡ digest_start
        ++ codes "\"schema\",\"name\":\"schema.scd\",\"digest\":\"49ad\"}\n" }
    ensures of_sheet { json_line (sheet_digest_value (codes "sheet.vec") (73 ∷ 173 ∷ [])) ≡ digest_start
        ++ codes "\"sheet\",\"name\":\"sheet.vec\",\"digest\":\"49ad\"}\n" }
    ensures at_line { json_text (refused_sheet_values (codes "bad.vec") (run.First (sheet.Line 101 3)))
        ≡ sheet_refusal_line (codes "\"rule\":101,\"line\":3,\"record\":null") }
    ensures at_record { json_text (refused_sheet_values (codes "bad.vec") (run.First (sheet.Entry 403 12)))
        ≡ sheet_refusal_line (codes "\"rule\":403,\"line\":null,\"record\":12") }
    ensures unread { json_text (refused_sheet_values (codes "bad.vec") (run.Read 3)) ≡ [] }
{}

/// Failures, and the line of each.
pub fn known_failures_are_lines()
    ensures unread { json_line (outcome_value (outcome.Fault (run.Read 2)) sheet_names)
        ≡ answer_line (codes "\"failed\",\"why\":\"cannot read d\"") }
    ensures memory { json_line (outcome_value (outcome.Fault (run.Memory alloc_error)) sheet_names)
        ≡ answer_line (codes "\"failed\",\"why\":\"out of memory\"") }
{}

/// Words, and the line of JSON of each of their lines: an empty one has a line too, and so has a last one without a
/// line feed.
pub fn known_words_are_lines()
    ensures two { json_text (told_values (codes "nodes: 2\narcs: 2\n"))
        ≡ words_line (codes "\"nodes: 2\"") ++ words_line (codes "\"arcs: 2\"") }
    ensures between { json_text (told_values (codes "a\n\nb"))
        ≡ words_line (codes "\"a\"") ++ words_line (codes "\"\"") ++ words_line (codes "\"b\"") }
    ensures escaped { json_text (told_values (codes "class \"A\"\n")) ≡ words_line (codes "\"class \\\"A\\\"\"") }
    ensures byte { json_text (told_values (233 ∷ 10 ∷ [])) ≡ words_line (34 ∷ 195 ∷ 169 ∷ 34 ∷ []) }
    ensures nothing { json_text (told_values []) ≡ [] }
{}
