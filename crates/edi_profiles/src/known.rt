//! What the rules of each time say of known sheets.

ghost use Rattle.edi_compare.specs.Known.{node_classes, node_file, node_sheet};
ghost use Rattle.edi_profiles.specs.Known.{high_sheet, shared_sheet};
ghost use Rattle.edi_profiles.specs.Profiles.{IsAcceptedBy, IsFormBy, three_coordinates, today, two_coordinates};

/// A sheet of one node with two coordinates is accepted by the rules of all times; one with three coordinates not by
/// the earliest; and one with two nodes at one position by neither of the earlier rules.
pub fn known_sheets_by_profile()
    ensures flat { IsAcceptedBy two_coordinates node_classes node_sheet }
    ensures flat_later { IsAcceptedBy three_coordinates node_classes node_sheet }
    ensures high { ¬ (IsAcceptedBy two_coordinates node_classes high_sheet) }
    ensures shared { ¬ (IsAcceptedBy three_coordinates node_classes shared_sheet) }
    ensures shared_earlier { ¬ (IsAcceptedBy two_coordinates node_classes shared_sheet) }
{}

/// That sheet of one node with two coordinates has one canonical file by the rules of all times.
pub fn known_forms_by_profile()
    ensures of_two { IsFormBy two_coordinates node_classes node_sheet node_file }
    ensures of_three { IsFormBy three_coordinates node_classes node_sheet node_file }
    ensures of_today { IsFormBy today node_classes node_sheet node_file }
{}
