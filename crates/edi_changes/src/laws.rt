//! Laws of changes.

ghost use Rattle.edi_changes.specs.Laws.{SameListsAreUnchanged, StatedListsAreOne};

/// Nothing is new, gone or changed between two lists exactly if they have the same entries, in any order.
pub fn same_lists_are_unchanged()
    ensures { SameListsAreUnchanged }
{}

/// A text states one list of digests at most.
pub fn stated_lists_are_one()
    ensures { StatedListsAreOne }
{}
