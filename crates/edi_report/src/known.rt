//! What the definitions say of a known report.

ghost use Rattle.std.specs.Prelude.{◌≡◌, ◌++◌, codes, false, true};
ghost use Rattle.edi_report.specs.Known.{known_report};
ghost use Rattle.edi_report.specs.Lines.{first_line, second_line, text_of_report, totals_line};

/// A report of a record that is gone, one that changed and one that is new, and its text.
pub fn known_differences_are_written()
    ensures gone { first_line known_report 0 ≡ codes "- PNO N1 (line 2)\n" }
    ensures changed { first_line known_report 1 ≡ codes "~ PNO N2 M1 (lines 6 and 4): points\n" }
    ensures added { second_line known_report 1 ≡ codes "+ PNO M2 (line 8)\n" }
    ensures counts { totals_line known_report ≡ codes "1 only in A, 1 only in B, 1 changed\n" }
    ensures whole { text_of_report false known_report
        ≡ codes "- PNO N1 (line 2)\n" ++ codes "~ PNO N2 M1 (lines 6 and 4): points\n"
        ++ codes "+ PNO M2 (line 8)\n" ++ codes "1 only in A, 1 only in B, 1 changed\n" }
    ensures brief { text_of_report true known_report ≡ codes "1 only in A, 1 only in B, 1 changed\n" }
{}
