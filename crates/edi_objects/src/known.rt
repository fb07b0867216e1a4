//! What is known of the text of what differs.
ghost use Rattle.std.specs.Prelude.{◌≡◌};
ghost use Rattle.edi_objects.specs.Accounts.{account_text};
ghost use Rattle.edi_objects.specs.Known.{known_account, known_account_text, two_classes};
ghost use Rattle.edi_objects.specs.Names.{usual_naming};

/// A parcel with another number, one that is gone, one that is new, and a node that moved.
pub fn known_differences_are_told()
    ensures { account_text (usual_naming two_classes) known_account ≡ known_account_text }
{}
