//! What the definitions say of any report, and of a known one.

ghost use Rattle.std.specs.Prelude.{◌≡◌, ◌++◌, ◌<◌, ℕ, All, List, chars, flat_map};
ghost use Rattle.edi_report.specs.Known.{known_report};
ghost use Rattle.edi_report.specs.Lines.{charsets_line, report_text, totals_line};
ghost use Rattle.edi_report.specs.Reports.{Report};
ghost use Rattle.edi_json.specs.Known.{known_json};
ghost use Rattle.edi_json.specs.Listed.{listed, listed_line};
ghost use Rattle.edi_json.specs.Texts.{differences_json};
ghost use Rattle.edi_json.specs.Values.{characters};

/// The text, record by record, has a line for each record that is listed here, in the same order, and no other but
/// those of the character sets and of the counts.
pub fn text_lists_the_same()
    ensures { (r : Report) → report_text r ≡ charsets_line r ++ flat_map (listed_line r) (listed r) ++ totals_line r }
{}

/// Nothing of an identifier is lost: the characters of its text have the numbers of its bytes.
pub fn bytes_come_back()
    ensures { (bytes : List ℕ) → All (λ byte. byte < 256) bytes → chars (characters bytes) ≡ bytes }
{}

/// The lines of a record that is gone, one that changed and one that is new, and the counts.
pub fn known_differences_are_lines()
    ensures { differences_json known_report ≡ known_json }
{}
