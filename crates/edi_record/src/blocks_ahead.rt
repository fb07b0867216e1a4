//! The blocks of a sheet that are ahead, while its records are gone through.

ghost use Rattle.std.specs.Prelude.{◌≡◌, ◌++◌, length};
ghost use Rattle.edi_record.specs.inner.BlocksAhead.{all_ahead, AreAhead, IsBlockBefore};

use crate::block::Block;
use crate::end::End;
use crate::record::Attribute;
use crate::record_parts::RecordHead;
use std::alloc::Global;
use std::mem;
use std::vec::IntoIter;

/// The blocks ahead: closed ones, and the last, which has no records once it has been taken.
pub(crate) struct BlocksAhead {
    pub(crate) alloc: Global,
    pub(crate) closed: IntoIter<Block<RecordHead, Attribute, End>>,
    pub(crate) last: Block<RecordHead, Attribute, End>,
}

impl Drop for BlocksAhead {
    fn drop(self) {
        let BlocksAhead {
            alloc: _,
            closed: _,
            last: _,
        } = self;
    }
}

impl BlocksAhead {
    /// The next block; or one of no records, if there is none.
    #[tactic(auto, unfolding(crate::specs::inner::BlockLists::blocks_joined))]
    pub(crate) fn next(&mut self) -> Block<RecordHead, Attribute, End>
        requires { AreAhead self.old }
        ensures records { result ++ all_ahead self.new ≡ all_ahead self.old }
        ensures ahead { AreAhead self.new }
        ensures block { IsBlockBefore (length result) self.new }
    {
        match self.closed.next() {
            Some(block) => block,
            None => mem::replace(&mut self.last, Block::new(self.alloc)),
        }
    }
}
