//! What a digest is of, and the digest.

use edi_line::Text;

/// A digest, by what it is of.
#[derive(PartialEq, Eq, PartialOrd, Ord)]
pub struct Entry {
    /// What it is of: a word, a space and a name.
    pub subject: Text,
    pub digest: [u8; 32],
}

impl Drop for Entry {
    fn drop(self) {
        let Entry {
            subject: _,
            digest: _,
        } = self;
    }
}
