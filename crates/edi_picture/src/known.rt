//! What the definitions say of known records and sheets.

ghost use Rattle.std.specs.Prelude.{◌≡◌, [], ◌∷◌, codes};
ghost use Rattle.edi_record.specs.declared.record.Kind.TheVariants.{Par, Pno};
ghost use Rattle.edi_picture.specs.Elements.{record_text};
ghost use Rattle.edi_picture.specs.Known.{frame, known_point, one_class, lone_node, one_record};
ghost use Rattle.edi_picture.specs.KnownPictures.{IsOnlyPicture, blank_picture, blank_sheet, classes_of_nodes, faces_of_a, faces_of_b, nodes_of_a, nodes_of_b, picture_of_faces, picture_of_nodes, triangle_classes, triangle_picture, triangle_sheet};
ghost use Rattle.edi_picture.specs.Sheets.{AllHaveClasses};
ghost use Rattle.edi_picture.specs.declared.mark.Ink.TheVariants.{Grey, New, Old};
ghost use Rattle.edi_picture.specs.declared.mark.Mark.TheVariants.{After, Hidden, OnlyFirst};

/// Some records, and what is drawn of them.
pub fn known_records_are_drawn()
    ensures node { record_text Pno one_class frame New (lone_node 1500000 After) 0
        ≡ codes "<circle cx='1' cy='2.5' r='0.056253'><title>PNO A&amp;B PGE;NOD_id, as it is in B</title></circle>\n" }
    ensures arc { let points = known_point 500000 0 ∷ known_point 3000000 22500000 ∷ [] in
        record_text Par one_class frame Old (one_record Par points OnlyFirst) 0
        ≡ codes "<polyline points=' 0,22.5 2.5,0'><title>PAR A&amp;B PGE;NOD_id, only in A</title></polyline>\n" }
    ensures ink { record_text Pno one_class frame Old (lone_node 1500000 After) 0 ≡ [] }
    ensures far { record_text Pno one_class frame New (lone_node 9000000 After) 0 ≡ [] }
    ensures hidden { record_text Pno one_class frame Grey (lone_node 1500000 Hidden) 0 ≡ [] }
{}

/// Some sheets, and their pictures from the first byte to the last: a triangle that is drawn alone, two sheets of nodes
/// with each of the marks, two with tinted faces and a node that lies far off, and a sheet without records. Each has
/// the classes that `picture` requires.
pub fn known_pictures_are_drawn()
    ensures triangle { IsOnlyPicture triangle_classes (triangle_sheet ∷ []) triangle_picture }
    ensures nodes { IsOnlyPicture classes_of_nodes (nodes_of_a ∷ nodes_of_b ∷ []) picture_of_nodes }
    ensures faces { IsOnlyPicture triangle_classes (faces_of_a ∷ faces_of_b ∷ []) picture_of_faces }
    ensures blank { IsOnlyPicture one_class (blank_sheet ∷ []) blank_picture }
    ensures triangle_has_classes { AllHaveClasses triangle_classes (triangle_sheet ∷ []) }
    ensures nodes_have_classes { AllHaveClasses classes_of_nodes (nodes_of_a ∷ nodes_of_b ∷ []) }
    ensures faces_have_classes { AllHaveClasses triangle_classes (faces_of_a ∷ faces_of_b ∷ []) }
{}
