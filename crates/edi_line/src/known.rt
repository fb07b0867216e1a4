//! What the definitions say of known files.

ghost use Rattle.std.specs.Prelude.{◌≡◌, ℕ, ℤ, pos, negsuc, List, [], ◌∷◌, ◌++◌, codes, map};
ghost use Rattle.edi_line.specs.Number.{IsNumberText, plain_text, signed_text};
ghost use Rattle.edi_line.specs.Lines.{IsLinesOf, content_of};
ghost use Rattle.edi_line.specs.LineRules.{BreaksLineRule, IsZonesOf};
ghost use Rattle.edi_line.specs.Refusal.{IsLeastBroken, IsUnbroken};
ghost use Rattle.edi_line.specs.ZoneData.{ZoneData};
ghost use Rattle.edi_line.specs.Zones.{HasShape};
ghost use Rattle.edi_line.specs.Printing.{zone_headed, at_line};

/// Known texts are the numbers that they should be, or none, and are written so.
pub fn known_numbers_are_read()
    ensures minus_zero { IsNumberText (codes "-0") (pos 0) }
    ensures point_first { IsNumberText (codes ".0") (pos 0) }
    ensures point_last { IsNumberText (codes "5.") (pos 5000000) }
    ensures spare_zeros { IsNumberText (codes "0000000001.5000000") (pos 1500000) }
    ensures greatest { IsNumberText (codes "999999999.999999") (pos 999999999999999) }
    ensures below_zero { IsNumberText (codes "-.25") (negsuc 249999) }
    ensures ten_digits { (m : ℤ) → ¬ (IsNumberText (codes "1000000000") m) }
    ensures seventh_place { (m : ℤ) → ¬ (IsNumberText (codes "1.0000001") m) }
    ensures point_alone { (m : ℤ) → ¬ (IsNumberText (codes ".") m) }
    ensures sign_alone { (m : ℤ) → ¬ (IsNumberText (codes "+") m) }
    ensures two_signs { (m : ℤ) → ¬ (IsNumberText (codes "--1") m) }
    ensures power { (m : ℤ) → ¬ (IsNumberText (codes "1e3") m) }
    ensures nothing { (m : ℤ) → ¬ (IsNumberText [] m) }
    ensures plain { (plain_text (negsuc 249999) ≡ codes "-0.25") × (plain_text (pos 0) ≡ codes "0")
        × (plain_text (pos 1500000) ≡ codes "1.5") }
    ensures signed { (signed_text (negsuc 249999) ≡ codes "-0.25") × (signed_text (pos 0) ≡ codes "+0")
        × (signed_text (pos 1500000) ≡ codes "+1.5") }
{}

/// Known files have the lines and zones that they should, or break the rule that they should.
pub fn known_lines_are_read()
    ensures lines { IsLinesOf (codes "ab\r\n\nc") (codes "ab\r\n" ∷ codes "\n" ∷ codes "c" ∷ []) }
    ensures contents { map content_of (codes "ab\r\n" ∷ codes "\n" ∷ codes "c" ∷ [])
        ≡ codes "ab" ∷ [] ∷ codes "c" ∷ [] }
    ensures joined { IsZonesOf (codes "BOMT 01:X\nRTYSA03:PNO\nATVSA02:ab\n  \nNEXT 01:c \nEOMT 00:\n")
        (at_line 1 (zone_headed (codes "BOMT ") (codes "X"))
        ∷ at_line 2 (zone_headed (codes "RTYSA") (codes "PNO"))
        ∷ at_line 3 (zone_headed (codes "ATVSA") (codes "abc"))
        ∷ at_line 6 (zone_headed (codes "EOMT ") []) ∷ []) }
    ensures remark { IsZonesOf (codes "BOMT 01:X\nREMT 02:hi\nNEXT 01:Y\nEOMT 00:\n")
        (at_line 1 (zone_headed (codes "BOMT ") (codes "X")) ∷ at_line 4 (zone_headed (codes "EOMT ") []) ∷ []) }
    ensures faulty { (zones : List ZoneData) → ¬ (IsZonesOf (codes "x\n") zones) }
    ensures hand_made { HasShape (zone_headed (codes "BOMT ") [] ∷ zone_headed (codes "RTYSA") (codes "PNO")
        ∷ zone_headed (codes "NEXT ") (codes "q") ∷ zone_headed (codes "EOMT ") [] ∷ []) }
    ensures sound { IsUnbroken (BreaksLineRule (codes "BOMT 01:X\nCSET 03:IRV\nRTYSA03:PNO\nRIDSA01:a\nEOMT 00:\n")) }
    ensures no_head { IsLeastBroken (BreaksLineRule (codes "BOMT 01:X\nx\nEOMT 00:\n")) 101 2 }
    ensures cut_short { IsLeastBroken (BreaksLineRule (codes "BOMT 01:X\nRTYSA04:PNO\nEOMT 00:\n")) 102 2 }
    ensures more { IsLeastBroken (BreaksLineRule (codes "BOMT 01:X\nRTYSA02:PNO\nEOMT 00:\n")) 103 2 }
    ensures stray_next { IsLeastBroken (BreaksLineRule (codes "NEXT 00:\nBOMT 00:\n")) 104 1 }
    ensures no_begin { IsLeastBroken (BreaksLineRule (codes "EOMT 00:\n")) 105 1 }
    ensures nothing { IsLeastBroken (BreaksLineRule []) 106 1 }
    ensures no_end { IsLeastBroken (BreaksLineRule (codes "BOMT 01:X\nRTYSA03:PNO\n")) 106 3 }
    ensures behind_end { IsLeastBroken (BreaksLineRule (codes "BOMT 01:X\nEOMT 00:\nBOMT 00:\n")) 107 3 }
    ensures two_begins { IsLeastBroken (BreaksLineRule (codes "BOMT 01:X\nBOMT 00:\nx\n")) 108 2 }
    ensures late_charset { IsLeastBroken (BreaksLineRule (codes "BOMT 01:X\nRTYSA03:PNO\nCSET 03:IRV\n")) 108 3 }
    ensures no_record { IsLeastBroken (BreaksLineRule (codes "BOMT 01:X\nTYPSN01:1\nEOMT 00:\n")) 109 2 }
{}
