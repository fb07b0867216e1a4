//! What is known of the text of what differs.
ghost use Rattle.edi_diff.specs.Known.{CallsObjectsAsGiven};

/// A parcel with another number, called by another attribute, whose class is given.
pub fn known_object_is_called_as_given()
    ensures { CallsObjectsAsGiven }
{}
