//! What a handle holds.

ghost use Rattle.std.specs.Prelude.{◌≡◌, option_copied};
ghost use Rattle.edicad_c.specs.Held.{bytes_of, pair_list_of, schema_of};

use crate::pair::Pair;
use edi_schema::Schema;

/// What a handle holds.
#[derive(Drop)]
pub enum Content {
    /// A schema that was loaded.
    Schema(Schema),
    /// Bytes that a call gave.
    Bytes(Vec<u8>),
    /// The pairs of a pairing.
    Pairs(Vec<Pair>),
}

impl Content {
    /// The schema, where it is one.
    pub fn schema(&self) -> Option<&Schema>
        ensures { option_copied result ≡ schema_of self.now }
    {
        match self {
            Content::Schema(schema) => Some(schema),
            Content::Bytes(_) | Content::Pairs(_) => None,
        }
    }

    /// The bytes; of anything else none.
    pub fn bytes(&self) -> &[u8]
        ensures { result.now ≡ bytes_of self.now }
    {
        match self {
            Content::Bytes(bytes) => bytes.as_slice(),
            Content::Schema(_) | Content::Pairs(_) => &[],
        }
    }

    /// The pairs; of anything else none.
    pub fn pairs(&self) -> &[Pair]
        ensures { result.now ≡ pair_list_of self.now }
    {
        match self {
            Content::Pairs(pairs) => pairs.as_slice(),
            Content::Schema(_) | Content::Bytes(_) => &[],
        }
    }
}
