//! Laws of pictures.

ghost use Rattle.edi_picture.specs.Laws.{BesideIsSide, PicturesAreOne};

/// The faces that a picture finds beside an arc are those that the rules of topology know on its sides.
pub fn beside_is_side()
    ensures { BesideIsSide }
{}

/// Sheets have one picture at most: their frame is one, and so is the bar of its scale.
pub fn pictures_are_one()
    ensures { PicturesAreOne }
{}
