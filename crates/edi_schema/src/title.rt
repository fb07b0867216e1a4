//! The names of the records of a schema's files, borrowed from their zones.

ghost use Rattle.std.specs.Prelude.{◌≡◌, ◌++◌, List, ℕ};
ghost use Rattle.edi_line.specs.ZoneData.{entries};
ghost use Rattle.edi_hash.specs.Keys.{Holds};
ghost use Rattle.edi_schema.specs.inner.Drafts.{draft_name, title_name, name_parts};

use edi_hash::KeyNames;
use edi_line::Zone;
use edi_line::codes::{RID, RTY};
use edi_record::first_value;

/// The type and the identifier of a record, borrowed from its zones.
#[derive(Clone, Copy, PartialEq, Eq, PartialOrd, Ord, Hash)]
pub(crate) struct Title<'a> {
    pub(crate) rty: &'a [u8],
    pub(crate) rid: &'a [u8],
}

impl<'a> Title<'a> {
    /// The name of a record; what is missing is empty.
    pub(crate) fn of(group: &'a [Zone<'_>]) -> Title<'a>
        ensures { title_name result ≡ draft_name (entries group.now) }
    {
        Title {
            rty: first_value(group, RTY).unwrap_or(&[]),
            rid: first_value(group, RID).unwrap_or(&[]),
        }
    }

    /// Adds the name to those that decide the key of a table.
    pub(crate) fn add_to(self, names: &mut KeyNames)
        ensures { (parts : List (List ℕ)) → Holds names.old parts
            → Holds names.new (parts ++ name_parts (title_name self.entry)) }
    {
        names.add(self.rty);
        names.add(self.rid);
    }
}
