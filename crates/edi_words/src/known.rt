//! What the definitions say of known words.
ghost use Rattle.std.specs.Prelude.{◌≡◌, [], ◌∷◌, None, Some, codes, true};
ghost use Rattle.std.specs.List.{list_all};
ghost use Rattle.clap.specs.Words.{fault_of, subcommand_of};
ghost use Rattle.clap.specs.declared.error.ErrorKind.TheVariants.{DisplayHelp, DisplayVersion, InvalidSubcommand, MissingRequiredArgument, UnknownArgument};
ghost use Rattle.edi_words.specs.Known.{all_of_line, brief_of, is_sound, json_of, list_asked, named_by_of, lists_asked, manifests_asked, pairing_files_of, paths_asked, picture_of, records_of, sheets_of, values_of, with_schema_of, words_in};
ghost use Rattle.edi_words.specs.Requests.{edicad};

/// Known words ask for what they should.
pub fn known_words_are_asked()
    ensures bundle { subcommand_of edicad (words_in (codes "edicad")) ≡ None }
    ensures check { values_of (codes "edicad check s d v")
        ≡ Some (
          codes "check",
          None ∷ Some (codes "s") ∷ Some (codes "d") ∷ Some (codes "v") ∷ None ∷ None ∷ None
              ∷ [],
        ) }
    ensures canon { values_of (codes "edicad canon s --kinds=A,B,C,D d v o")
        ≡ Some (
          codes "canon",
          Some (codes "A,B,C,D") ∷ Some (codes "s") ∷ Some (codes "d") ∷ Some (codes "v")
              ∷ Some (codes "o") ∷ None ∷ None ∷ [],
        ) }
    ensures compare { values_of (codes "edicad compare s d a b")
        ≡ Some (
          codes "compare",
          None ∷ Some (codes "s") ∷ Some (codes "d") ∷ None ∷ None ∷ Some (codes "a")
              ∷ Some (codes "b") ∷ [],
        ) }
    ensures hash { sheets_of (codes "edicad hash s d a b c")
        ≡ Some (codes "hash", codes "a" ∷ codes "b" ∷ codes "c" ∷ []) }
    ensures all_sheets { sheets_of (codes "edicad explain --all s d a b")
        ≡ Some (codes "explain", codes "a" ∷ codes "b" ∷ []) }
    ensures all_asked { all_of_line (codes "edicad explain s d a --all") ≡ Some (Some (codes "true")) }
    ensures first_asked { all_of_line (codes "edicad explain s d a") ≡ Some (Some (codes "false")) }
    ensures no_sheets { sheets_of (codes "edicad hash --schema s d") ≡ Some (codes "hash", []) }
    ensures with_schema { with_schema_of (codes "edicad hash --schema s d") ≡ Some (Some (codes "true")) }
    ensures without_schema { with_schema_of (codes "edicad hash s d a") ≡ Some (Some (codes "false")) }
    ensures list { list_asked (codes "edicad hash --check l s d") ≡ Some (codes "hash", Some (codes "l")) }
    ensures no_list { list_asked (codes "edicad hash s d a") ≡ Some (codes "hash", None) }
    ensures delivery { paths_asked (codes "edicad delivery p q") ≡ Some (codes "delivery", codes "p" ∷ codes "q" ∷ []) }
    ensures manifest { manifests_asked (codes "edicad delivery --manifest m p") ≡ Some (Some (codes "m") ∷ None ∷ []) }
    ensures manifest_check { manifests_asked (codes "edicad delivery p --check=m")
        ≡ Some (None ∷ Some (codes "m") ∷ []) }
    ensures changed { lists_asked (codes "edicad changed a b")
        ≡ Some (codes "changed", Some (codes "a") ∷ Some (codes "b") ∷ []) }
    ensures explain { values_of (codes "edicad explain s d v")
        ≡ Some (
          codes "explain",
          None ∷ Some (codes "s") ∷ Some (codes "d") ∷ Some (codes "v") ∷ None ∷ None ∷ None
              ∷ [],
        ) }
    ensures rules { values_of (codes "edicad explain")
        ≡ Some (codes "explain", None ∷ None ∷ None ∷ None ∷ None ∷ None ∷ None ∷ []) }
    ensures rule { values_of (codes "edicad explain 403")
        ≡ Some (codes "explain", None ∷ Some (codes "403") ∷ None ∷ None ∷ None ∷ None ∷ None ∷ []) }
    ensures verify { values_of (codes "edicad verify s d a b f")
        ≡ Some (
          codes "verify",
          None ∷ Some (codes "s") ∷ Some (codes "d") ∷ None ∷ None ∷ Some (codes "a")
              ∷ Some (codes "b") ∷ [],
        ) }
    ensures pairing_checked { pairing_files_of (codes "edicad verify s d a b f") ≡ Some (None ∷ Some (codes "f") ∷ []) }
    ensures pairing_written { pairing_files_of (codes "edicad compare --pairing f s d a b")
        ≡ Some (Some (codes "f") ∷ None ∷ []) }
    ensures diff { values_of (codes "edicad diff s d a b")
        ≡ Some (
          codes "diff",
          None ∷ Some (codes "s") ∷ Some (codes "d") ∷ None ∷ None ∷ Some (codes "a")
              ∷ Some (codes "b") ∷ [],
        ) }
    ensures whole { brief_of (codes "edicad diff s d a b") ≡ Some (Some (codes "false")) }
    ensures brief { brief_of (codes "edicad diff --brief s d a b") ≡ Some (Some (codes "true")) }
    ensures by_objects { records_of (codes "edicad diff s d a b") ≡ Some (Some (codes "false")) }
    ensures by_records { records_of (codes "edicad diff --records s d a b") ≡ Some (Some (codes "true")) }
    ensures as_json { json_of (codes "edicad diff --json s d a b") ≡ Some (Some (codes "true")) }
    ensures check_as_json { json_of (codes "edicad check --json s d v") ≡ Some (Some (codes "true")) }
    ensures check_as_words { json_of (codes "edicad check s d v") ≡ Some (Some (codes "false")) }
    ensures compare_as_json { json_of (codes "edicad compare s d a b --json") ≡ Some (Some (codes "true")) }
    ensures hash_as_json { json_of (codes "edicad hash --json s d a") ≡ Some (Some (codes "true")) }
    ensures hash_as_words { json_of (codes "edicad hash --schema s d") ≡ Some (Some (codes "false")) }
    ensures explain_as_json { json_of (codes "edicad explain s d a --json") ≡ Some (Some (codes "true")) }
    ensures explain_as_words { json_of (codes "edicad explain 403") ≡ Some (Some (codes "false")) }
    ensures verify_as_json { json_of (codes "edicad verify --json s d a b f") ≡ Some (Some (codes "true")) }
    ensures named_by { named_by_of (codes "edicad diff --name-by X,Y s d a b") ≡ Some (Some (codes "X,Y")) }
    ensures as_text { json_of (codes "edicad diff --records s d a b") ≡ Some (Some (codes "false")) }
    ensures drawn { values_of (codes "edicad draw s d v o")
        ≡ Some (
          codes "draw",
          None ∷ Some (codes "s") ∷ Some (codes "d") ∷ Some (codes "v") ∷ Some (codes "o") ∷ None
              ∷ None ∷ [],
        ) }
    ensures picture { picture_of (codes "edicad diff --brief --picture f s d a b") ≡ Some (Some (codes "f")) }
    ensures no_picture { picture_of (codes "edicad diff s d a b") ≡ Some None }
    ensures sound { list_all is_sound (codes "edicad"
        ∷ codes "edicad check s d v"
        ∷ codes "edicad canon s --kinds=A,B,C,D d v o"
        ∷ codes "edicad compare s d a b"
        ∷ codes "edicad hash s d a b c"
        ∷ codes "edicad delivery --kinds=A,B,C,D p"
        ∷ codes "edicad delivery p --manifest m"
        ∷ codes "edicad delivery --check m p"
        ∷ codes "edicad changed a b"
        ∷ codes "edicad explain s d v"
        ∷ codes "edicad explain --all s d a b"
        ∷ codes "edicad explain"
        ∷ codes "edicad explain 403"
        ∷ codes "edicad verify s d a b f"
        ∷ codes "edicad compare --pairing f s d a b"
        ∷ codes "edicad diff s d a b"
        ∷ codes "edicad diff --name-by X,Y s d a b"
        ∷ codes "edicad diff --brief s d a b"
        ∷ codes "edicad diff s d a b --json"
        ∷ codes "edicad diff --records s d a b"
        ∷ codes "edicad draw s d v o"
        ∷ codes "edicad diff --brief --picture f s d a b"
        ∷ codes "edicad hash s d a --schema"
        ∷ codes "edicad hash s d"
        ∷ codes "edicad hash --check l s d"
        ∷ []) ≡ true }
    ensures no_path { fault_of edicad (words_in (codes "edicad delivery")) ≡ MissingRequiredArgument ∷ [] }
    ensures no_after { fault_of edicad (words_in (codes "edicad changed a")) ≡ MissingRequiredArgument ∷ [] }
    ensures no_drawing { fault_of edicad (words_in (codes "edicad draw s d v")) ≡ MissingRequiredArgument ∷ [] }
    ensures no_dictionary { fault_of edicad (words_in (codes "edicad hash --schema s")) ≡ MissingRequiredArgument ∷ [] }
    ensures help { fault_of edicad (words_in (codes "edicad --help")) ≡ DisplayHelp ∷ [] }
    ensures version { fault_of edicad (words_in (codes "edicad --version")) ≡ DisplayVersion ∷ [] }
    ensures lacking { fault_of edicad (words_in (codes "edicad canon s d v")) ≡ MissingRequiredArgument ∷ [] }
    ensures unknown { fault_of edicad (words_in (codes "edicad paint")) ≡ UnknownArgument ∷ InvalidSubcommand ∷ [] }
{}
