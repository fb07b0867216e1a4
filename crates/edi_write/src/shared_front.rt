//! A canonical file on its way, whose front another file shares.

ghost use Rattle.std.specs.Prelude.{◌≡◌, ◌≤◌, [], length};
ghost use Rattle.edi_write.specs.inner.SharedFronts.{all_written};

use crate::page::Page;
use std::alloc::Global;

/// A canonical file on its way, and another file. As long as the other file begins with what is written, no more than
/// the last bytes are kept: what is written so far is a front of the other file, and behind it the page.
#[derive(Drop)]
pub(crate) struct SharedFront<'a> {
    pub(crate) other: &'a [u8],
    pub(crate) front: usize,
    /// Whether the other file begins with all that is written, as far as is known.
    is_shared: bool,
    pub(crate) page: Page,
}

impl<'a> SharedFront<'a> {
    /// A file of no bytes, beside this other one.
    pub(crate) fn new(alloc: Global, other: &'a [u8]) -> SharedFront<'a>
        ensures other { result.other.now ≡ other.now }
        ensures within { result.front ≤ length result.other.now }
        ensures written { all_written result ≡ [] }
    {
        SharedFront {
            other,
            front: 0,
            is_shared: true,
            page: Page::new(alloc),
        }
    }

    /// Drops the bytes of the page if the other file goes on with them. If it doesn't, the files differ, and all bytes
    /// from here on are kept.
    pub(crate) fn drop_shared(&mut self)
        requires within { self.old.front ≤ length self.old.other.now }
        ensures other { self.new.other.now ≡ self.old.other.now }
        ensures within { self.new.front ≤ length self.new.other.now }
        ensures written { all_written self.new ≡ all_written self.old }
    {
        if !self.is_shared {
            return;
        }
        self.is_shared = self.other[self.front..].starts_with(&self.page.file);
        if self.is_shared {
            self.front += self.page.file.len();
            self.page.file.clear();
        }
    }
}
