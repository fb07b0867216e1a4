//! A zone of a file.

ghost use Rattle.std.specs.Prelude.{◌≡◌, ◌++◌, OnOk, IfOk};
ghost use Rattle.edi_line.specs.ZoneData.{entry};
ghost use Rattle.edi_line.specs.inner.Zones.{with_more};

use std::alloc::{AllocError, Global};
use std::borrow::CowSlice;

/// A zone of a file. Its value is that of its head and of the NEX lines that continue it.
pub struct Zone<'a> {
    /// The line of its head, counted from 1.
    pub line: u64,
    /// Three bytes; in a file each is `A` to `Z` or `0` to `9`.
    pub code: [u8; 3],
    /// A byte; in a file from 0x20 to 0x7E.
    pub nature: u8,
    /// A byte; in a file from 0x20 to 0x7E.
    pub format: u8,
    /// The value's bytes; as `zones` gives them, borrowed from the file where no NEX line continues them,
    /// and as `Feed` gives them, owned.
    pub value: CowSlice<'a, u8>,
}

impl Drop for Zone<'_> {
    fn drop(self) {
        let Zone {
            line: _,
            code: _,
            nature: _,
            format: _,
            value: _,
        } = self;
    }
}

impl<'a> Zone<'a> {
    /// Puts these bytes behind the value, which is then owned.
    pub(crate) fn lengthen(&mut self, alloc: Global, more: &[u8]) -> Result<(), AllocError>
        ensures { OnOk result (entry self.new ≡ with_more more.now (entry self.old)) }
    {
        match &mut self.value {
            CowSlice::Owned(value) => value.extend_from_slice(more),
            CowSlice::Borrowed(front) => {
                let mut value = Vec::from_slice(alloc, front)?;
                value.extend_from_slice(more)?;
                self.value = CowSlice::Owned(value);
                Ok(())
            }
        }
    }

    /// A copy, which owns its value.
    pub fn copy(&self, alloc: Global) -> Result<Zone<'static>, AllocError>
        ensures { IfOk result (λ copy. entry copy ≡ entry self.now) }
    {
        Ok(Zone {
            line: self.line,
            code: self.code,
            nature: self.nature,
            format: self.format,
            value: CowSlice::Owned(Vec::from_slice(alloc, self.value.as_slice())?),
        })
    }

    /// The same zone, which owns its value.
    pub(crate) fn into_owned(self, alloc: Global) -> Result<Zone<'static>, AllocError>
        ensures { IfOk result (λ owned. entry owned ≡ entry self.entry) }
    {
        let Zone {
            line,
            code,
            nature,
            format,
            value,
        } = self;
        let value = match value {
            CowSlice::Owned(value) => value,
            CowSlice::Borrowed(value) => Vec::from_slice(alloc, value)?,
        };
        Ok(Zone {
            line,
            code,
            nature,
            format,
            value: CowSlice::Owned(value),
        })
    }
}
