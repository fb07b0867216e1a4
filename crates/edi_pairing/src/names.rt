//! The names of the records of a sheet.

ghost use Rattle.std.specs.Prelude.{◌≡◌};

use edi_line::{Sequence, Text};
use edi_record::Kind;
use std::marker::Model;

/// The type and the identifier of a record.
pub struct RecordName {
    pub kind: Kind,
    pub rid: Text,
}

impl Drop for RecordName {
    fn drop(self) {
        let RecordName { kind: _, rid: _ } = self;
    }
}

/// The names of the records of an accepted sheet, in file order.
pub struct RecordNames {
    list: Sequence<RecordName>,
}

impl Drop for RecordNames {
    fn drop(self) {
        let RecordNames { list: _ } = self;
    }
}

impl Model for RecordNames {
    ghost use Rattle.std.specs.Prelude.{List};
    ghost use Rattle.edi_pairing.specs.Names.{AreNames};
    ghost use Rattle.edi_pairing.specs.declared.names.RecordName.{RecordName};

    ghost Value = { List RecordName };

    ghost view = { λ n. n.list };

    ghost invariant = { λ n. AreNames n.list };
}

impl RecordNames {
    ghost use Rattle.edi_pairing.specs.Names.{AreNames};

    /// The names of an accepted sheet.
    pub(crate) fn of(list: Vec<RecordName>) -> RecordNames
        requires { AreNames list.items }
        ensures { result ≡ list.items }
    {
        RecordNames {
            list: Sequence::from_vec(list),
        }
    }

    /// The names, borrowed.
    pub fn as_slice(&self) -> &[RecordName]
        ensures is { result.now ≡ self.now }
        ensures names { AreNames self.now }
    {
        self.list.as_slice()
    }
}
