//! Laws of the text of what differs.
ghost use Rattle.edi_objects.specs.Laws.{EachObjectTellsItsLinks, EachObjectTellsItsNewLinks};
ghost use Rattle.edi_objects.specs.Laws.{NothingIsHidden, SilentIfUntouched};

/// Each record that the text of records lists is told by that of objects, but for those of which no part of their own
/// differs; and nothing differs of an object without a line, nor of what its links reach.
pub fn nothing_is_hidden()
    ensures { NothingIsHidden }
{}

/// A link that differs has a line among those of each object that it names and that is or became one of the second
/// sheet.
pub fn each_object_tells_its_links()
    ensures { EachObjectTellsItsLinks }
{}

/// A link that is new, or got other ends, has a line among those of each object that it names and that one of the first
/// sheet is or became.
pub fn each_object_tells_its_new_links()
    ensures { EachObjectTellsItsNewLinks }
{}

/// An object of the first sheet has no line exactly if nothing differs of it, nor of what its links reach.
pub fn silent_if_untouched()
    ensures { SilentIfUntouched }
{}
