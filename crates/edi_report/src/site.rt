//! Where the records of a file stand.

use edi_line::Text;

/// Where a record of a file stands, and what it calls itself.
#[derive(Drop)]
pub struct Site {
    /// The line of its RTY, counted from 1.
    pub line: u64,
    /// The value of its first RID, or nothing if it has none.
    pub rid: Text,
}
