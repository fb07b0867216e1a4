//! A canonical file on its way.

ghost use Rattle.std.specs.Prelude.{◌≡◌, [], ◌++◌, OnOk};
ghost use Rattle.edi_line.specs.Printing.{printed_zone};
ghost use Rattle.edi_write.specs.inner.Heads.{headed};

use crate::heads::ZoneHead;
use crate::zones::write_zone;
use std::alloc::{AllocError, Global};

/// The bytes that are written so far, and the text that is made for the value of the next zone. There is one text for
/// all zones, so that no value takes memory of its own.
#[derive(Drop)]
pub(crate) struct Page {
    pub(crate) file: Vec<u8>,
    pub(crate) text: Vec<u8>,
}

impl Page {
    /// A file of no bytes.
    pub(crate) fn new(alloc: Global) -> Page
        ensures { result.file.items ≡ [] }
    {
        Page {
            file: Vec::new(alloc),
            text: Vec::new(alloc),
        }
    }

    /// Writes a zone with this value at the end of the file.
    pub(crate) fn write(&mut self, head: ZoneHead, value: &[u8]) -> Result<(), AllocError>
        ensures { OnOk result (self.new.file.items ≡ self.old.file.items ++ printed_zone (headed head value.now)) }
    {
        write_zone(&mut self.file, head, value)
    }

    /// Writes a zone with the text as its value.
    pub(crate) fn write_text(&mut self, head: ZoneHead) -> Result<(), AllocError>
        ensures { OnOk result (self.new.file.items
            ≡ self.old.file.items ++ printed_zone (headed head self.old.text.items)) }
    {
        write_zone(&mut self.file, head, &self.text)
    }
}
