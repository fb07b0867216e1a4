//! What the definitions say of known THF files.

ghost use Rattle.std.specs.Prelude.{◌≡◌, [], ◌∷◌, ◌++◌, codes};
ghost use Rattle.edi_delivery.specs.Lots.{files_of};
ghost use Rattle.edi_delivery.specs.DeliveryRefusal.{IsDeliveryOf};
ghost use Rattle.edi_delivery.specs.Known.{thf, lot_lines, known_lot, IsRefusedBy};

/// A known file states the delivery that it should, and known others are refused by the rule and at the record that
/// they should.
pub fn known_deliveries_are_read()
    ensures delivery { IsDeliveryOf (thf (lot_lines (codes "GONSA01:S\nGDCSN02:02\nGDNSA02:T2\nGDNSA02:T1\n")))
        (known_lot ∷ []) }
    ensures files { files_of known_lot
        ≡ codes "AS.SCD" ∷ codes "AD.DIC" ∷ codes "AS.GEO" ∷ codes "AT2.VEC" ∷ codes "AT1.VEC" ∷ [] }
    ensures unknown { IsRefusedBy (thf (codes "RTYSA03:GTX\n" ++ lot_lines (codes "GDNSA01:T\n"))) 701 2 }
    ensures no_name { IsRefusedBy (thf (codes "RTYSA03:GTL\nSCNSA01:S\nDINSA01:D\nGDNSA01:T\n")) 702 2 }
    ensures two_names { IsRefusedBy (thf (lot_lines (codes "LONSA01:A\nGDNSA01:T\n"))) 702 2 }
    ensures name_above { IsRefusedBy (thf (codes "RTYSA03:GTL\nLONSA03:../\nSCNSA01:S\nDINSA01:D\nGDNSA01:T\n")) 703 2 }
    ensures no_classes { IsRefusedBy (thf (codes "RTYSA03:GTL\nLONSA01:A\nDINSA01:D\nGDNSA01:T\n")) 704 2 }
    ensures no_dictionary { IsRefusedBy (thf (codes "RTYSA03:GTL\nLONSA01:A\nSCNSA01:S\nGDNSA01:T\n")) 705 2 }
    ensures no_sheet { IsRefusedBy (thf (lot_lines [])) 706 2 }
    ensures wrong_count { IsRefusedBy (thf (lot_lines (codes "GDCSN01:2\nGDNSA01:T\n"))) 706 2 }
    ensures two_systems { IsRefusedBy (thf (lot_lines (codes "GONSA01:S\nGONSA01:T\nGDNSA01:T\n"))) 707 2 }
    ensures file_with_point { IsRefusedBy (thf (lot_lines (codes "GDNSA03:T.1\n"))) 708 2 }
    ensures file_with_nothing { IsRefusedBy (thf (lot_lines (codes "GDNSA00:\n"))) 708 2 }
    ensures lot_again { IsRefusedBy (thf (lot_lines (codes "GDNSA01:T\n")
        ++ codes "RTYSA03:GTL\nLONSA01:a\nSCNSA01:X\nDINSA01:X\nGDNSA01:X\n")) 709 3 }
    ensures file_twice { IsRefusedBy (thf (lot_lines (codes "GDNSA01:T\nGDNSA01:t\n"))) 710 2 }
    ensures file_of_earlier { IsRefusedBy (thf (lot_lines (codes "GDNSA02:BT\n")
        ++ codes "RTYSA03:GTL\nLONSA02:AB\nSCNSA01:X\nDINSA01:X\nGDNSA01:T\n")) 710 3 }
    ensures no_lot { IsRefusedBy (thf []) 711 2 }
{}
