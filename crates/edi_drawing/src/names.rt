//! The names of two files.

use std::marker::Model;

/// The names of the files of two sheets, as a picture gives them.
#[derive(Drop)]
pub struct FileNames<'a> {
    pub first: &'a str,
    pub second: &'a str,
}

impl<'a> Model for FileNames<'a> {
    ghost use Rattle.edi_drawing.specs.Drawn.{TwoFileNames};

    ghost Value = { TwoFileNames };

    ghost view = { λ n. record { first = n.first.now; second = n.second.now } };
}
