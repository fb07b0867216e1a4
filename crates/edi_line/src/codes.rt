//! The codes of zones that several crates read.

/// The code of a zone that begins a record, whose value is the record's type (docs/FORMAT.md, "Records").
pub const RTY: [u8; 3] = *b"RTY";

/// The code of an identifier (docs/FORMAT.md, "Records").
pub const RID: [u8; 3] = *b"RID";

/// The code of the zone that ends a file (docs/FORMAT.md, "Lines").
pub const EOM: [u8; 3] = *b"EOM";

/// The code of the sheet's character set (docs/FORMAT.md, "Lines").
pub const CSE: [u8; 3] = *b"CSE";
