//! What the program makes of one sheet.

/// What is made of a sheet.
#[derive(Clone, Copy)]
pub enum Product {
    /// Its canonical file.
    Canonical,
    /// Its picture.
    Picture,
}
