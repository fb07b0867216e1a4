//! The texts of known schemas.

ghost use Rattle.std.specs.Prelude.{◌≡◌, ◌≢◌, codes};
ghost use Rattle.edi_schema.specs.declared.role.Role.TheVariants.{Left, Right};
ghost use Rattle.edi_schema_text.specs.Known.{more_classes, sided_classes, sided_text};
ghost use Rattle.edi_schema_text.specs.SchemaText.{text_of_schema};

/// The text of a schema. The letter of the class of an object and a class that no pointer can name are no part of it.
pub fn known_texts_of_schemas()
    ensures text { text_of_schema (sided_classes Right Left) ≡ sided_text (codes "right face") (codes "left face") }
    ensures sides { text_of_schema (sided_classes Left Right) ≡ sided_text (codes "left face") (codes "right face") }
    ensures more { text_of_schema more_classes ≡ text_of_schema (sided_classes Right Left) }
{}

/// Two schemas that exchange left and right have two texts.
pub fn exchanged_sides_differ()
    ensures { text_of_schema (sided_classes Right Left) ≢ text_of_schema (sided_classes Left Right) }
{}
