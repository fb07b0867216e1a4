//! What has become of the digests of one list in another.

ghost use Rattle.std.specs.Prelude.{IfOk};
ghost use Rattle.edi_changes.specs.Changes.{AreListChanges};

use crate::entry::Entry;
use crate::merge::changes_in_order;
use edi_line::Text;
use std::alloc::{AllocError, Global};

/// What has become of a subject.
#[derive(Clone, Copy)]
pub enum Fate {
    /// Only the list after has it.
    New,
    /// Only the list before has it.
    Gone,
    /// Both have it, with other digests.
    Changed,
    /// Both have it, with the same digests.
    Same,
}

/// A subject, and what has become of it.
pub struct Change {
    pub subject: Text,
    pub fate: Fate,
}

impl Drop for Change {
    fn drop(self) {
        let Change {
            subject: _,
            fate: _,
        } = self;
    }
}

/// What has become of each subject of two lists, in the order of subjects. A subject that stands several times in a
/// list has all these digests, in whatever order.
pub fn changes_of(
    alloc: Global,
    mut before: Vec<Entry>,
    mut after: Vec<Entry>,
) -> Result<Vec<Change>, AllocError>
    ensures { IfOk result (λ changes. AreListChanges before.items after.items changes.items) }
{
    before.sort_unstable();
    after.sort_unstable();
    changes_in_order(alloc, &before, &after)
}
