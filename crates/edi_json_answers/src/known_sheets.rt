//! The lines of known sheets and counts.

ghost use Rattle.std.specs.Prelude.{◌≡◌, ◌++◌, ◌∷◌, [], codes};
ghost use Rattle.edi_json.specs.Texts.{json_line};
ghost use Rattle.edi_json_answers.specs.BrokenSheets.{accepted_sheet_value, broken_rule_value, rule_count_value};
ghost use Rattle.edi_json_answers.specs.Known.{broken_line};

/// What a sheet of known rules and places has as lines, an accepted one, and a count.
pub fn known_sheets_are_lines()
    ensures at_line { json_line (broken_rule_value (codes "a.vec") record { rule = 101; at = 3 })
        ≡ broken_line (codes "\"a.vec\",\"rule\":101,\"line\":3,\"record\":null") }
    ensures at_record { json_line (broken_rule_value (codes "a.vec") record { rule = 403; at = 12 })
        ≡ broken_line (codes "\"a.vec\",\"rule\":403,\"line\":null,\"record\":12") }
    ensures last_of_lines { json_line (broken_rule_value (codes "-") record { rule = 110; at = 1 })
        ≡ broken_line (codes "\"-\",\"rule\":110,\"line\":1,\"record\":null") }
    ensures first_of_records { json_line (broken_rule_value (codes "\\") record { rule = 201; at = 1 })
        ≡ broken_line (codes "\"\\\\\",\"rule\":201,\"line\":null,\"record\":1") }
    ensures accepted { json_line (accepted_sheet_value (codes "a.vec"))
        ≡ codes "{\"version\":1,\"what\":\"accepted\",\"name\":\"a.vec\"}\n" }
    ensures count { json_line (rule_count_value record { rule = 101; count = 3 })
        ≡ codes "{\"version\":1,\"what\":\"count\",\"rule\":101,\"count\":3}\n" }
{}
