//! Laws of deliveries.

ghost use Rattle.edi_delivery.specs.Laws.{DeliveriesAreOne, RefusedFilesStateNone, DeliveryRefusalsAreOne};
ghost use Rattle.edi_delivery.specs.Laws.{StatedDeliveriesAreDeliveries, FileNamesStayInFolders};
ghost use Rattle.edi_delivery.specs.Laws.{NamesAreSameInLowerCase, LotsAreInOrder};

/// A file states one delivery at most, and has one refusal at most, and not both: it has one answer.
pub fn deliveries_are_one()
    ensures delivery { DeliveriesAreOne }
    ensures none { RefusedFilesStateNone }
    ensures refusal { DeliveryRefusalsAreOne }
{}

/// The names of a delivery are safe, and no two lots and no two files have the same.
pub fn stated_deliveries_are_deliveries()
    ensures { StatedDeliveriesAreDeliveries }
{}

/// The name of a file leads out of no folder.
pub fn file_names_stay_in_folders()
    ensures { FileNamesStayInFolders }
{}

/// Two names are the same exactly if they are equal in lower case.
pub fn names_are_same_in_lower_case()
    ensures { NamesAreSameInLowerCase }
{}

/// Lots and their VEC files are in the order of the file.
pub fn lots_are_in_order()
    ensures { LotsAreInOrder }
{}
