//! What differs between two sheets, with their picture.

use edi_diff::Difference;

/// What differs between two sheets, and a picture of both that shows it.
#[derive(Drop)]
pub struct DrawnDifference {
    pub difference: Difference,
    /// The text of an SVG file (docs/FORMAT.md, "Pictures").
    pub picture: Vec<u8>,
}
