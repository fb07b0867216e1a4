//! What is read of the records of a schema's two files.

ghost use Rattle.std.specs.Prelude.{◌≡◌, map, IfOk};
ghost use Rattle.edi_line.specs.ZoneData.{entries};
ghost use Rattle.edi_line.specs.Zones.{groups_of};
ghost use Rattle.edi_schema.specs.inner.Drafts.{definition_said, said_in};

use crate::title::Title;
use edi_line::Zone;
use edi_record::{first_value, group_here, lacks_identifier};
use std::alloc::{AllocError, Global};

const WORD: [u8; 3] = *b"DIP";

const KIND: [u8; 3] = *b"KND";

const TYPE: [u8; 3] = *b"TYP";

/// What is read of a record of either file: its name, and the first DIP, KND and TYP.
#[derive(Clone, Copy)]
pub(crate) struct Definition<'a> {
    pub(crate) title: Title<'a>,
    pub(crate) lacks_identifier: bool,
    pub(crate) word: Option<&'a [u8]>,
    pub(crate) kind: Option<&'a [u8]>,
    pub(crate) word_type: Option<&'a [u8]>,
}

impl<'a> Definition<'a> {
    fn of(group: &'a [Zone<'_>]) -> Definition<'a>
        ensures { definition_said result ≡ said_in (entries group.now) }
    {
        Definition {
            title: Title::of(group),
            lacks_identifier: lacks_identifier(group),
            word: first_value(group, WORD),
            kind: first_value(group, KIND),
            word_type: first_value(group, TYPE),
        }
    }
}

/// What is read of each record, in the order of the file.
pub(crate) fn definitions<'a>(
    alloc: Global,
    zones: &'a [Zone<'_>],
) -> Result<Vec<Definition<'a>>, AllocError>
    ensures { IfOk result (λ all. map definition_said all.items ≡ map said_in (groups_of (entries zones.now))) }
{
    let mut done = Vec::new(alloc);
    let mut rest = zones;
    while let [_, after @ ..] = rest {
        if let Some(group) = group_here(rest) {
            done.push(Definition::of(group))?;
        }
        rest = after;
    }
    Ok(done)
}
