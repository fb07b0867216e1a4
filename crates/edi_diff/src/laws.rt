//! Laws of what differs between two sheets.
ghost use Rattle.edi_diff.specs.Laws.{RestIsCarried, SilentObjectsAreCarried, SilentExactlyIfSame, TextHidesNothing};

/// Of what differs between two accepted sheets the text of objects hides nothing.
pub fn text_hides_nothing()
    ensures { TextHidesNothing }
{}

/// A record of the first sheet that doesn't differ is carried, with its ends, onto the one of the second that it is or
/// became.
pub fn rest_is_carried()
    ensures { RestIsCarried }
{}

/// An object of the first sheet without a line in the text of objects is carried with all that its links reach.
pub fn silent_objects_are_carried()
    ensures { SilentObjectsAreCarried }
{}

/// The text of objects is the counts alone exactly if the two sheets state the same plan.
pub fn silent_exactly_if_same()
    ensures { SilentExactlyIfSame }
{}
