//! Laws that hold between the earlier rules and those of today.

ghost use Rattle.edi_profiles.specs.Laws.{FlatSheetsAgree, LaterRulesAcceptMore, PointsOfTwoCoordinates, StoredFilesStay, TodayIsToday};

/// At the rules of today the parametrized definitions are those that `accept` and `canon` cite.
pub fn today_is_today()
    ensures { TodayIsToday }
{}

/// For a sheet whose positions all have two coordinates, the rules before and after the third coordinate break the same
/// rules at the same places, and call the same files canonical.
pub fn flat_sheets_agree()
    ensures { FlatSheetsAgree }
{}

/// Points of two coordinates go by the first and then by the second, and are written with the two.
pub fn points_of_two_coordinates()
    ensures { PointsOfTwoCoordinates }
{}

/// What was accepted, or canonical, by earlier rules is so by those of today.
pub fn later_rules_accept_more()
    ensures { LaterRulesAcceptMore }
{}

/// The canonical file that a sheet had by earlier rules is the one that it has today.
pub fn stored_files_stay()
    ensures { StoredFilesStay }
{}
