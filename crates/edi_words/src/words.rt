//! What the words of the command line ask for.
ghost use Rattle.std.specs.Prelude.{◌≡◌, ◌≢◌, ◌↔◌, ◌<◌, ◌≤◌, ◌^◌, ◌||◌, ◌∷◌, IsTrue, IfErr, IfOk, MatchOption, MatchResult, OnOk, Some, [], codes, false, length, map};
ghost use Rattle.std.specs.Prelude.{option_map, string_bytes, true};
ghost use Rattle.clap.specs.Words.{HasKind, fault_of, first_of, found_of, kind_of, one_of, rows_of, subcommand_of, subcommand_rows_of};
ghost use Rattle.edi_schema.specs.Roles.{AreKindCodes, KindCodes};
ghost use Rattle.edi_words.specs.Requests.{AreBadKinds, AreKindsIn, AreKindsOf, AreManyFiles, ArePairFiles, AreSheetFiles, IsAsked, IsFlag, IsKindsFault, GiveKinds, Means, ReadsInputOnce, codes_in, edicad, is_given, is_standard_path, standard_at, standard_count, standard_in, status_of_kind, value_at, values_at};
ghost use Rattle.edi_words.specs.inner.Requests.{IsOwn};

use crate::command_line::command;
use crate::given_kinds::GivenKinds;
use clap::error::ErrorKind;
use clap::{ArgMatches, Error};
use edi_schema::ByRole;
use std::alloc::{AllocError, Global};

// The path that stands for a standard stream.
const STANDARD: &str = "-";

const MEMORY_STATUS: u8 = 5;

const USAGE_STATUS: u8 = 3;

/// The files of a sheet: of classes, of words, and the sheet's own.
#[derive(Clone, Copy)]
pub struct SheetFiles<'a> {
    pub scd: &'a str,
    pub dic: &'a str,
    pub vec: &'a str,
}

/// The files of two sheets: of classes, of words, and each sheet's own.
#[derive(Clone, Copy)]
pub struct PairFiles<'a> {
    pub scd: &'a str,
    pub dic: &'a str,
    pub first: &'a str,
    pub second: &'a str,
}

/// The files of a schema, and sheets under it.
#[derive(Drop)]
pub struct ManyFiles<'a> {
    pub scd: &'a str,
    pub dic: &'a str,
    pub sheets: Vec<&'a str>,
}

/// What is asked for.
#[derive(Drop)]
pub enum Request<'a> {
    /// The canonical file of the bundle on standard input.
    Bundle,
    /// What is asked of one sheet, but for explaining it.
    Sheet {
        kinds: GivenKinds<'a>,
        files: SheetFiles<'a>,
        what: SheetRequest<'a>,
    },
    /// What is asked of two sheets.
    Pair {
        kinds: GivenKinds<'a>,
        files: PairFiles<'a>,
        what: PairRequest<'a>,
    },
    /// What is asked of many sheets.
    Many {
        kinds: GivenKinds<'a>,
        files: ManyFiles<'a>,
        what: ManyRequest<'a>,
    },
    /// The digests of the canonical files of the sheets of deliveries.
    Delivery {
        kinds: GivenKinds<'a>,
        paths: Vec<&'a str>,
    },
    /// Where and why a sheet is refused, or what is in it.
    Explain {
        kinds: GivenKinds<'a>,
        files: SheetFiles<'a>,
        json: bool,
    },
    /// The manifest of a delivery, and where it goes.
    Manifest {
        kinds: GivenKinds<'a>,
        path: &'a str,
        file: &'a str,
    },
    /// Whether a delivery has the digests of a manifest.
    CheckManifest {
        kinds: GivenKinds<'a>,
        path: &'a str,
        manifest: &'a str,
    },
    /// What the rule of this number means.
    Rule {
        word: &'a str,
        json: bool,
    },
    /// Which rules there are.
    Rules {
        json: bool,
    },
    /// Which digests are new, gone or changed between two lists.
    Changed {
        before: &'a str,
        after: &'a str,
    },
    /// Nothing that can be meant.
    Misused(Misuse<'a>),
    /// Nothing more: the words were answered on standard error, and this is the exit status.
    Answered(u8),
}

/// What is asked of one sheet, but for explaining it.
#[derive(Clone, Copy)]
pub enum SheetRequest<'a> {
    /// Whether it is accepted.
    Check { json: bool },
    /// Its canonical file.
    Canon { out: &'a str },
    /// Its picture.
    Draw { out: &'a str },
}

/// What is asked of many sheets.
#[derive(Clone, Copy)]
pub enum ManyRequest<'a> {
    /// The digests of their canonical files, and that of the schema first.
    Hash { with_schema: bool, json: bool },
    /// Which digests of a list are those that are found now. No sheet is named.
    CheckList { list: &'a str },
    /// All that the first broken phase of each breaks.
    ExplainAll { json: bool },
}

/// What is asked of two sheets.
#[derive(Clone, Copy)]
pub enum PairRequest<'a> {
    /// Whether they state the same plan, and where a pairing of them goes.
    Compare {
        pairing: Option<&'a str>,
        json: bool,
    },
    /// Whether a file states a pairing that carries the plan of the one onto that of the other.
    Verify {
        pairing: &'a str,
        json: bool,
    },
    /// What differs between them, object by object, record by record or as lines of JSON, or only how many records do;
    /// the identifiers, parted by commas, of the attributes that name objects; and where a picture of that goes.
    Diff {
        brief: bool,
        records: bool,
        json: bool,
        named_by: Option<&'a str>,
        picture: Option<&'a str>,
    },
}

/// Why arguments in good form make no sense.
#[derive(Clone, Copy)]
pub enum Misuse<'a> {
    /// The codes of the kinds are not four codes, none empty and no two equal.
    BadKinds(BadKinds<'a>),
    /// Standard input is to be read twice.
    TwoStandard,
    /// A schema is named, or all that is broken asked for, and no sheet.
    NoSheet,
    /// Several sheets are named, and it isn't asked for all that is broken.
    SeveralSheets,
    /// No sheet and no list is named, nor is the digest of the schema asked for.
    NothingHashed,
    /// A list is named, and beside it a sheet, or the digest of the schema or JSON is asked for.
    ListAndMore,
    /// A pairing is to go to standard output, which gets the answer.
    StandardPairing,
    /// A picture is to go to standard output, which gets what differs.
    StandardPicture,
    /// A manifest is to be both made and checked, or of several deliveries.
    NotOneManifest,
}

/// What is given as the codes of the kinds, and what is wrong with it.
#[derive(Clone, Copy)]
pub struct BadKinds<'a> {
    pub given: &'a str,
    pub fault: KindsFault<'a>,
}

/// What is wrong with the codes of the kinds.
#[derive(Clone, Copy)]
pub enum KindsFault<'a> {
    /// They are not four.
    Count,
    /// They are four, and one is empty.
    Empty,
    /// They are four and none is empty, and this is the first that is there twice.
    Twice(&'a str),
}

/// What the words ask for, of which the first is the program's name.
pub fn request_asked<'a, R: Eprint + AllocGlobal>(rt: &R, words: &'a [String]) -> Request<'a>
    ensures { IsAsked (map string_bytes words.entry.now) result }
{
    match parse(rt.alloc(), words) {
        Ok(matches) => request_of(rt, &matches),
        Err(error) => Request::Answered(say_error(rt, &error)),
    }
}

// The words as the command takes them.
fn parse<'a>(alloc: Global, words: &'a [String]) -> Result<ArgMatches<'a>, Error>
    ensures taken { OnOk result (fault_of edicad (map string_bytes words.entry.now) ≡ []) }
    ensures met { IfOk result (λ m. subcommand_rows_of m ≡ subcommand_of edicad (map string_bytes words.entry.now)) }
    ensures refused { IfErr result (HasKind (fault_of edicad (map string_bytes words.entry.now))) }
{
    command(alloc)?.try_get_matches_from(words)
}

// What words in good form ask for.
fn request_of<'a, R: Eprint + AllocGlobal>(rt: &R, matches: &ArgMatches<'a>) -> Request<'a>
    requires { IsOwn (subcommand_rows_of matches.now) }
    ensures means { Means (subcommand_rows_of matches.now) result }
    ensures once { ReadsInputOnce (subcommand_rows_of matches.now) result }
{
    let Some((name, given)) = matches.subcommand() else {
        return Request::Bundle;
    };
    let kinds = match kinds_of(given.get_str("kinds")) {
        Ok(kinds) => kinds,
        Err(bad) => return Request::Misused(Misuse::BadKinds(bad)),
    };
    if reads_input_twice(given) {
        return Request::Misused(Misuse::TwoStandard);
    }
    request_of_subcommand(rt, name, given, kinds)
}

// What a subcommand and its arguments ask for.
fn request_of_subcommand<'a, R: Eprint + AllocGlobal>(
    rt: &R,
    name: &str,
    given: &ArgMatches<'a>,
    kinds: GivenKinds<'a>,
) -> Request<'a>
    ensures { IsOwn (Some (name.now, rows_of (found_of given.now)))
        → GiveKinds (rows_of (found_of given.now)) kinds.entry
        → Means (Some (name.now, rows_of (found_of given.now))) result }
{
    match name {
        "check" => Request::Sheet {
            kinds,
            files: sheet_files(given),
            what: SheetRequest::Check {
                json: flag(given, "json"),
            },
        },
        "canon" => Request::Sheet {
            kinds,
            files: sheet_files(given),
            what: SheetRequest::Canon {
                out: path(given, "OUT"),
            },
        },
        "compare" => compare_request(given, kinds),
        "hash" => hash_request(rt, given, kinds),
        "verify" => Request::Pair {
            kinds,
            files: pair_files(given),
            what: PairRequest::Verify {
                pairing: path(given, "FILE"),
                json: flag(given, "json"),
            },
        },
        "diff" => diff_request(given, kinds),
        "draw" => Request::Sheet {
            kinds,
            files: sheet_files(given),
            what: SheetRequest::Draw {
                out: path(given, "OUT"),
            },
        },
        "delivery" => delivery_request(rt, given, kinds),
        "changed" => Request::Changed {
            before: path(given, "BEFORE"),
            after: path(given, "AFTER"),
        },
        _ => explain_request(rt, given, kinds),
    }
}

// What the arguments of `compare` ask for.
fn compare_request<'a>(given: &ArgMatches<'a>, kinds: GivenKinds<'a>) -> Request<'a>
    ensures { GiveKinds (rows_of (found_of given.now)) kinds.entry
        → Means (Some (codes "compare", rows_of (found_of given.now))) result }
{
    if is_standard(path(given, "pairing")) {
        return Request::Misused(Misuse::StandardPairing);
    }
    Request::Pair {
        kinds,
        files: pair_files(given),
        what: PairRequest::Compare {
            pairing: given.get_str("pairing"),
            json: flag(given, "json"),
        },
    }
}

// What the arguments of `hash` ask for.
fn hash_request<'a, R: Eprint + AllocGlobal>(
    rt: &R,
    given: &ArgMatches<'a>,
    kinds: GivenKinds<'a>,
) -> Request<'a>
    ensures { GiveKinds (rows_of (found_of given.now)) kinds.entry
        → Means (Some (codes "hash", rows_of (found_of given.now))) result }
{
    match list_given(given) {
        Some(list) => list_request(rt, given, kinds, list),
        None => digests_request(rt, given, kinds),
    }
}

// The list that the arguments of `hash` name.
fn list_given<'a>(given: &ArgMatches<'a>) -> Option<&'a str>
    ensures { option_map (λ t. t.now) result ≡ first_of (codes "check") (rows_of (found_of given.now)) }
{
    given.get_str("check")
}

// What the arguments of `hash` ask for where they name no list.
fn digests_request<'a, R: Eprint + AllocGlobal>(
    rt: &R,
    given: &ArgMatches<'a>,
    kinds: GivenKinds<'a>,
) -> Request<'a>
    ensures { is_given (codes "check") (rows_of (found_of given.now)) ≡ false
        → GiveKinds (rows_of (found_of given.now)) kinds.entry
        → Means (Some (codes "hash", rows_of (found_of given.now))) result }
{
    let with_schema = flag(given, "schema");
    if !asks_for_digests(given, with_schema) {
        return Request::Misused(Misuse::NothingHashed);
    }
    match many_files(rt.alloc(), given) {
        Ok(files) => Request::Many {
            kinds,
            files,
            what: ManyRequest::Hash {
                with_schema,
                json: flag(given, "json"),
            },
        },
        Err(_) => Request::Answered(out_of_memory(rt)),
    }
}

// What the arguments of `hash` ask for where they name a list.
fn list_request<'a, R: Eprint + AllocGlobal>(
    rt: &R,
    given: &ArgMatches<'a>,
    kinds: GivenKinds<'a>,
    list: &'a str,
) -> Request<'a>
    ensures { first_of (codes "check") (rows_of (found_of given.now)) ≡ Some list.entry.now
        → GiveKinds (rows_of (found_of given.now)) kinds.entry
        → Means (Some (codes "hash", rows_of (found_of given.now))) result }
{
    if flag(given, "json") {
        return Request::Misused(Misuse::ListAndMore);
    }
    if asks_for_digests(given, flag(given, "schema")) {
        return Request::Misused(Misuse::ListAndMore);
    }
    match many_files(rt.alloc(), given) {
        Ok(files) => Request::Many {
            kinds,
            files,
            what: ManyRequest::CheckList { list },
        },
        Err(_) => Request::Answered(out_of_memory(rt)),
    }
}

// What the arguments of `delivery` ask for.
fn delivery_request<'a, R: Eprint + AllocGlobal>(
    rt: &R,
    given: &ArgMatches<'a>,
    kinds: GivenKinds<'a>,
) -> Request<'a>
    ensures { GiveKinds (rows_of (found_of given.now)) kinds.entry
        → Means (Some (codes "delivery", rows_of (found_of given.now))) result }
{
    if is_given(given, "manifest") || is_given(given, "check") {
        return manifest_request(given, kinds);
    }
    match paths(rt.alloc(), given, "PATH") {
        Ok(paths) => Request::Delivery { kinds, paths },
        Err(_) => Request::Answered(out_of_memory(rt)),
    }
}

// What the arguments of `delivery` ask for where a manifest is to be made or checked.
fn manifest_request<'a>(given: &ArgMatches<'a>, kinds: GivenKinds<'a>) -> Request<'a>
    requires { (is_given (codes "manifest") (rows_of (found_of given.now))
        || is_given (codes "check") (rows_of (found_of given.now))) ≡ true }
    ensures { GiveKinds (rows_of (found_of given.now)) kinds.entry
        → Means (Some (codes "delivery", rows_of (found_of given.now))) result }
{
    let Some(path) = only_path(given, "PATH") else {
        return Request::Misused(Misuse::NotOneManifest);
    };
    match (given.get_str("manifest"), given.get_str("check")) {
        (Some(file), None) => Request::Manifest { kinds, path, file },
        (None, Some(manifest)) => Request::CheckManifest {
            kinds,
            path,
            manifest,
        },
        (Some(_), Some(_)) => Request::Misused(Misuse::NotOneManifest),
        (None, None) => Request::Misused(Misuse::NotOneManifest),
    }
}

// The value of an argument, if there is one alone.
fn only_path<'a>(given: &ArgMatches<'a>, name: &str) -> Option<&'a str>
    ensures { MatchOption result (length (values_at name.now (rows_of (found_of given.now))) ≢ 1)
        (λ path. values_at name.now (rows_of (found_of given.now)) ≡ path.now ∷ []) }
{
    match given.get_strs(name) {
        Some(paths) => only_of(paths),
        None => None,
    }
}

// The only one of some paths.
fn only_of<'a>(paths: &[&'a str]) -> Option<&'a str>
    ensures { MatchOption result (length (map (λ p. p.now) paths.now) ≢ 1)
        (λ path. map (λ p. p.now) paths.now ≡ path.now ∷ []) }
{
    match paths {
        [path] => Some(*path),
        _ => None,
    }
}

// Whether there is something to hash: a sheet, or the schema.
fn asks_for_digests(given: &ArgMatches<'_>, with_schema: bool) -> bool
    ensures { result ≡ (with_schema || is_given (codes "VEC") (rows_of (found_of given.now))) }
{
    with_schema || is_given(given, "VEC")
}

// What the arguments of `diff` ask for.
fn diff_request<'a>(given: &ArgMatches<'a>, kinds: GivenKinds<'a>) -> Request<'a>
    ensures { GiveKinds (rows_of (found_of given.now)) kinds.entry
        → Means (Some (codes "diff", rows_of (found_of given.now))) result }
{
    if is_standard(path(given, "picture")) {
        return Request::Misused(Misuse::StandardPicture);
    }
    Request::Pair {
        kinds,
        files: pair_files(given),
        what: PairRequest::Diff {
            brief: flag(given, "brief"),
            records: flag(given, "records"),
            json: flag(given, "json"),
            named_by: given.get_str("name-by"),
            picture: given.get_str("picture"),
        },
    }
}

// What the arguments of `explain` ask for.
fn explain_request<'a, R: Eprint + AllocGlobal>(
    rt: &R,
    given: &ArgMatches<'a>,
    kinds: GivenKinds<'a>,
) -> Request<'a>
    ensures { GiveKinds (rows_of (found_of given.now)) kinds.entry
        → Means (Some (codes "explain", rows_of (found_of given.now))) result }
{
    if flag(given, "all") {
        return explain_all_request(rt, given, kinds);
    }
    let json = flag(given, "json");
    if !is_given(given, "SCD") {
        return Request::Rules { json };
    }
    match (is_given(given, "DIC"), is_given(given, "VEC")) {
        (false, _) => Request::Rule {
            word: path(given, "SCD"),
            json,
        },
        (true, false) => Request::Misused(Misuse::NoSheet),
        (true, true) => explain_sheet_request(given, kinds),
    }
}

// What the arguments of `explain` ask for where they name sheets, and not all is to be said.
fn explain_sheet_request<'a>(given: &ArgMatches<'a>, kinds: GivenKinds<'a>) -> Request<'a>
    requires all { IsFlag (one_of (codes "all") (rows_of (found_of given.now))) false }
    requires dic { is_given (codes "DIC") (rows_of (found_of given.now)) ≡ true }
    requires vec { is_given (codes "VEC") (rows_of (found_of given.now)) ≡ true }
    ensures { GiveKinds (rows_of (found_of given.now)) kinds.entry
        → Means (Some (codes "explain", rows_of (found_of given.now))) result }
{
    match only_path(given, "VEC") {
        Some(_) => Request::Explain {
            kinds,
            files: sheet_files(given),
            json: flag(given, "json"),
        },
        None => Request::Misused(Misuse::SeveralSheets),
    }
}

// What the arguments of `explain` ask for where all is to be said.
fn explain_all_request<'a, R: Eprint + AllocGlobal>(
    rt: &R,
    given: &ArgMatches<'a>,
    kinds: GivenKinds<'a>,
) -> Request<'a>
    requires { IsFlag (one_of (codes "all") (rows_of (found_of given.now))) true }
    ensures { GiveKinds (rows_of (found_of given.now)) kinds.entry
        → Means (Some (codes "explain", rows_of (found_of given.now))) result }
{
    if !(is_given(given, "DIC") && is_given(given, "VEC")) {
        return Request::Misused(Misuse::NoSheet);
    }
    match many_files(rt.alloc(), given) {
        Ok(files) => Request::Many {
            kinds,
            files,
            what: ManyRequest::ExplainAll {
                json: flag(given, "json"),
            },
        },
        Err(_) => Request::Answered(out_of_memory(rt)),
    }
}

// Whether a flag is given.
fn flag(given: &ArgMatches<'_>, name: &str) -> bool
    ensures { IsFlag (one_of name.now (rows_of (found_of given.now))) result }
{
    given.get_flag(name)
}

// Whether an argument is given.
fn is_given(given: &ArgMatches<'_>, name: &str) -> bool
    ensures { result ≡ is_given name.now (rows_of (found_of given.now)) }
{
    given.get_str(name).is_some()
}

// Whether more than one input is standard input.
fn reads_input_twice(given: &ArgMatches<'_>) -> bool
    ensures { IsTrue result ↔ (1 < standard_count (rows_of (found_of given.now))) }
{
    count_standard_at(given, "SCD")
        + count_standard_at(given, "DIC")
        + count_standard_at(given, "VEC")
        + count_standard_at(given, "A")
        + count_standard_at(given, "B")
        + count_standard_at(given, "FILE")
        + count_standard_at(given, "PATH")
        + count_standard_at(given, "BEFORE")
        + count_standard_at(given, "AFTER")
        + count_standard_at(given, "check")
        > 1
}

// How often an argument names standard input.
fn count_standard_at(given: &ArgMatches<'_>, name: &str) -> usize
    ensures value { result ≡ standard_at name.now (rows_of (found_of given.now)) }
    ensures bound { result < 2 ^ 60 }
{
    match given.get_strs(name) {
        Some(paths) => count_standard(paths),
        None => 0,
    }
}

// How many of the paths stand for standard input.
fn count_standard(paths: &[&str]) -> usize
    ensures value { result ≡ standard_in (map (λ p. p.now) paths.now) }
    ensures bound { result ≤ length paths.now }
{
    paths.iter().filter(|path| is_standard(path)).count()
}

/// Whether a path stands for a standard stream.
pub fn is_standard(path: &str) -> bool
    ensures { result ≡ is_standard_path path.now }
{
    path == STANDARD
}

// The files of a sheet, as the arguments name them.
fn sheet_files<'a>(given: &ArgMatches<'a>) -> SheetFiles<'a>
    ensures { AreSheetFiles (rows_of (found_of given.now)) result }
{
    SheetFiles {
        scd: path(given, "SCD"),
        dic: path(given, "DIC"),
        vec: path(given, "VEC"),
    }
}

// The files of two sheets, as the arguments name them.
fn pair_files<'a>(given: &ArgMatches<'a>) -> PairFiles<'a>
    ensures { ArePairFiles (rows_of (found_of given.now)) result }
{
    PairFiles {
        scd: path(given, "SCD"),
        dic: path(given, "DIC"),
        first: path(given, "A"),
        second: path(given, "B"),
    }
}

// The files of a schema and of sheets, as the arguments name them.
fn many_files<'a>(alloc: Global, given: &ArgMatches<'a>) -> Result<ManyFiles<'a>, AllocError>
    ensures { IfOk result (AreManyFiles (rows_of (found_of given.now))) }
{
    Ok(ManyFiles {
        scd: path(given, "SCD"),
        dic: path(given, "DIC"),
        sheets: paths(alloc, given, "VEC")?,
    })
}

// The values of an argument.
fn paths<'a>(alloc: Global, given: &ArgMatches<'a>, name: &str) -> Result<Vec<&'a str>, AllocError>
    ensures { IfOk result (λ paths. map (λ p. p.now) paths.items ≡ values_at name.now (rows_of (found_of given.now))) }
{
    match given.get_strs(name) {
        Some(paths) => Vec::from_slice(alloc, paths),
        None => Ok(Vec::new(alloc)),
    }
}

// The first value of an argument, or no text.
fn path<'a>(given: &ArgMatches<'a>, name: &str) -> &'a str
    ensures { result.now ≡ value_at name.now (rows_of (found_of given.now)) }
{
    given.get_str(name).unwrap_or("")
}

// Four codes parted by commas, or the usual ones where none are given.
fn kinds_of(text: Option<&str>) -> Result<GivenKinds<'_>, BadKinds<'_>>
    ensures { MatchResult result (AreKindsOf (option_map (λ t. t.now) text.entry))
        (λ bad. ((k : KindCodes) → ¬ (AreKindsOf (option_map (λ t. t.now) text.entry) k))
        × AreBadKinds (option_map (λ t. t.now) text.entry) bad) }
{
    let Some(text) = text else {
        return Ok(GivenKinds::usual());
    };
    match kinds_in(text) {
        Ok(kinds) => Ok(kinds),
        Err(fault) => Err(BadKinds { given: text, fault }),
    }
}

// Four codes parted by commas.
fn kinds_in(text: &str) -> Result<GivenKinds<'_>, KindsFault<'_>>
    ensures { MatchResult result (AreKindsIn text.now) (λ fault. ((k : KindCodes) → ¬ (AreKindsIn text.now k))
        × IsKindsFault (codes_in text.now) fault) }
{
    let Some((initial, final_node, left, right)) = four_codes(text) else {
        return Err(KindsFault::Count);
    };
    let codes = ByRole {
        initial: initial.as_bytes(),
        final_node: final_node.as_bytes(),
        left: left.as_bytes(),
        right: right.as_bytes(),
    };
    match GivenKinds::new(codes) {
        Some(kinds) => Ok(kinds),
        None => Err(fault_of_four(initial, final_node, left, right)),
    }
}

// The codes in a text, if they are four.
fn four_codes(text: &str) -> Option<(&str, &str, &str, &str)>
    ensures { MatchOption result (length (codes_in text.now) ≢ 4)
        (λ four. codes_in text.now ≡ four.0.now ∷ four.1.now ∷ four.2.now ∷ four.3.now ∷ []) }
{
    let mut codes = text.split(',');
    let (initial, final_node) = (codes.next()?, codes.next()?);
    let (left, right) = (codes.next()?, codes.next()?);
    match codes.next() {
        Some(_) => None,
        None => Some((initial, final_node, left, right)),
    }
}

// What is wrong with four codes.
fn fault_of_four<'a>(
    initial: &'a str,
    final_node: &'a str,
    left: &'a str,
    right: &'a str,
) -> KindsFault<'a>
    requires { ¬ (AreKindCodes
        (record { initial = initial.now; final_node = final_node.now; left = left.now; right = right.now })) }
    ensures { IsKindsFault (initial.now ∷ final_node.now ∷ left.now ∷ right.now ∷ []) result }
{
    if initial.is_empty() || final_node.is_empty() || left.is_empty() || right.is_empty() {
        return KindsFault::Empty;
    }
    if initial == final_node || initial == left || initial == right {
        return KindsFault::Twice(initial);
    }
    if final_node == left || final_node == right {
        return KindsFault::Twice(final_node);
    }
    KindsFault::Twice(left)
}

// Says that there is no memory.
fn out_of_memory<R: Eprint>(rt: &R) -> u8
    ensures { result ≡ 5 }
{
    let _ = rt.eprintln("out of memory");
    MEMORY_STATUS
}

// Says what is wrong with the words, or the help that they ask for.
fn say_error<R: Eprint>(rt: &R, error: &Error) -> u8
    ensures { result ≡ status_of_kind (kind_of error.now) }
{
    if error.kind() == ErrorKind::OutOfMemory {
        return out_of_memory(rt);
    }
    let _ = rt.eprint(error);
    if error.use_stderr() { USAGE_STATUS } else { 0 }
}
