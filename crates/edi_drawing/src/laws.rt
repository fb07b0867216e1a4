//! Which records of a picture of two sheets are coloured.
ghost use Rattle.edi_drawing.specs.Laws.{FirstGreyIfUnlisted, SecondAloneIfListed, SecondChangedIfBecame};

/// A record of the first sheet is grey exactly if the text of what differs has no line for it.
pub fn first_is_grey_if_unlisted()
    ensures { FirstGreyIfUnlisted }
{}

/// A record of the second sheet has the colour of those that only B has exactly if the text has a line for it.
pub fn second_is_alone_if_listed()
    ensures { SecondAloneIfListed }
{}

/// A record of the second sheet has the colour of those that changed exactly if one of the first that
/// changed became it.
pub fn second_is_changed_if_became()
    ensures { SecondChangedIfBecame }
{}
