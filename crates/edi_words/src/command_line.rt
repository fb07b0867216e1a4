//! The command line, as clap takes it.
ghost use Rattle.std.specs.Prelude.{◌≡◌, IfOk, IsOkAnd, codes};
ghost use Rattle.clap.specs.Words.{AddsSubcommand, app_of, new_app, new_rule, rule_of, with_rule};
ghost use Rattle.edi_words.specs.Requests.{canon_command, changed_command, check_command, compare_command, delivery_command, diff_command, draw_command, edicad, explain_command, file_rule, files_rule, flag_rule, hash_command, option_rule, optional_files_rule, schema_command, subject_rule, verify_command};

use clap::{Arg, ArgAction, Command};
use std::alloc::{AllocError, Global};

const SHEET: &str = "The sheet, a file of type VEC";

const DICTIONARY: &str = "The dictionary of the delivery, a file of type DIC";

const JSON_ANSWER: &str = "Answers with a line of JSON";

const JSON_DIGESTS: &str = "Gives the digests and refusals as lines of JSON";

const JSON_EXPLANATION: &str = "Says the answer and the rest as lines of JSON";

const LIST_DIGESTS: &str = "Says which digests of a list are still the same";

const MANIFEST_DIGESTS: &str = "Says which digests of a manifest are still the same";

const EVERY_PLACE: &str = "Lists every place that is wrong, and counts by rule";

const VERSION: &str = "0.1.0";

const STATUSES: &str = "\
    A file named - is standard input, or standard output.\n\
    \n\
    Exit status: 0 accepted, the same, or a file that pairs\n\
    \x20            1 different, or a file that doesn't pair\n\
    \x20            2 refused\n\
    \x20            3 wrong words\n\
    \x20            4 a file can't be read or written\n\
    \x20            5 out of memory";

/// The command and its subcommands.
pub fn command<'a>(alloc: Global) -> Result<Command<'a>, AllocError>
    ensures { IfOk result (λ c. app_of c ≡ edicad) }
{
    let bare = Command::new(alloc, "edicad")
        .version(VERSION)
        .about(
            "Reads EDIGeO sheets of the French cadastral plan.\n\n\
             Without a command, it reads SCD, DIC and VEC one after the other from\n\
             standard input, and writes the canonical file to standard output.",
        )
        .after_help(STATUSES);
    let with_check = with_subcommand(Ok(bare), check_command(alloc));
    let with_canon = with_subcommand(with_check, canon_command(alloc));
    let with_compare = with_subcommand(with_canon, compare_command(alloc));
    let with_hash = with_subcommand(with_compare, hash_command(alloc));
    let with_explain = with_subcommand(with_hash, explain_command(alloc));
    let with_verify = with_subcommand(with_explain, verify_command(alloc));
    let with_diff = with_subcommand(with_verify, diff_command(alloc));
    let with_draw = with_subcommand(with_diff, draw_command(alloc));
    let with_delivery = with_subcommand(with_draw, delivery_command(alloc));
    with_subcommand(with_delivery, changed_command(alloc))
}

// A command with one more subcommand, if there was memory for both.
fn with_subcommand<'a>(
    command: Result<Command<'a>, AllocError>,
    added: Result<Command<'a>, AllocError>,
) -> Result<Command<'a>, AllocError>
    ensures { IfOk result (λ c. IsOkAnd command.entry (λ b. IsOkAnd added.entry (λ a. AddsSubcommand b a c))) }
{
    command?.subcommand(added?)
}

// The subcommand that checks a sheet.
fn check_command<'a>(alloc: Global) -> Result<Command<'a>, AllocError>
    ensures { IfOk result (λ c. app_of c ≡ check_command) }
{
    sheet_command(
        alloc,
        "check",
        "Says whether a sheet is accepted, or which rule it breaks first",
    )?
    .arg(flag(alloc, "json", JSON_ANSWER))
}

// The subcommand that writes a sheet's canonical file.
fn canon_command<'a>(alloc: Global) -> Result<Command<'a>, AllocError>
    ensures { IfOk result (λ c. app_of c ≡ canon_command) }
{
    sheet_command(
        alloc,
        "canon",
        "Writes the canonical file of a sheet to OUT",
    )?
    .arg(file(
        alloc,
        "OUT",
        "The canonical file, which replaces OUT whole or not at all",
    ))
}

// The subcommand that draws a sheet.
fn draw_command<'a>(alloc: Global) -> Result<Command<'a>, AllocError>
    ensures { IfOk result (λ c. app_of c ≡ draw_command) }
{
    sheet_command(alloc, "draw", "Draws a sheet, as an SVG file, to OUT")?.arg(file(
        alloc,
        "OUT",
        "The picture, which replaces OUT whole or not at all",
    ))
}

// The subcommand that compares two sheets.
fn compare_command<'a>(alloc: Global) -> Result<Command<'a>, AllocError>
    ensures { IfOk result (λ c. app_of c ≡ compare_command) }
{
    pair_command(
        alloc,
        "compare",
        "Says whether two sheets state the same plan",
    )?
    .arg(option(
        alloc,
        "pairing",
        "FILE",
        "Where a pairing goes if the plans are the same",
    ))?
    .arg(flag(alloc, "json", JSON_ANSWER))
}

// The subcommand that gives the digests of sheets.
fn hash_command<'a>(alloc: Global) -> Result<Command<'a>, AllocError>
    ensures { IfOk result (λ c. app_of c ≡ hash_command) }
{
    schema_command(
        alloc,
        "hash",
        "Gives the SHA-256 digest of each sheet's canonical file",
    )?
    .arg(sheets_argument(alloc))?
    .arg(flag(alloc, "schema", "Gives the digest of the schema first"))?
    .arg(option(alloc, "check", "LIST", LIST_DIGESTS))?
    .arg(flag(alloc, "json", JSON_DIGESTS))
}

// The subcommand that gives the digests of the sheets of deliveries.
fn delivery_command<'a>(alloc: Global) -> Result<Command<'a>, AllocError>
    ensures { IfOk result (λ c. app_of c ≡ delivery_command) }
{
    kinds_command(
        alloc,
        "delivery",
        "Gives the digests of the sheets of deliveries",
    )?
    .arg(paths_argument(alloc))?
    .arg(option(
        alloc,
        "manifest",
        "FILE",
        "Where the manifest of one delivery goes",
    ))?
    .arg(option(alloc, "check", "MANIFEST", MANIFEST_DIGESTS))
}

// The subcommand that compares two lists of digests.
fn changed_command<'a>(alloc: Global) -> Result<Command<'a>, AllocError>
    ensures { IfOk result (λ c. app_of c ≡ changed_command) }
{
    Command::new(alloc, "changed")
        .about("Says which digests are new, gone or changed between two lists")
        .arg(file(alloc, "BEFORE", "A manifest, or a list as hash writes it"))?
        .arg(file(alloc, "AFTER", "A later manifest or list"))
}

// The subcommand that lists the rules, or explains a rule or sheets.
fn explain_command<'a>(alloc: Global) -> Result<Command<'a>, AllocError>
    ensures { IfOk result (λ c. app_of c ≡ explain_command) }
{
    kinds_command(
        alloc,
        "explain",
        "Lists the rules, or says what one means, or why a sheet is refused",
    )?
    .arg(subject(alloc))?
    .arg(optional_file(alloc, "DIC", DICTIONARY))?
    .arg(sheets_argument(alloc))?
    .arg(flag(alloc, "all", EVERY_PLACE))?
    .arg(flag(alloc, "json", JSON_EXPLANATION))
}

// The subcommand that checks a pairing's file.
fn verify_command<'a>(alloc: Global) -> Result<Command<'a>, AllocError>
    ensures { IfOk result (λ c. app_of c ≡ verify_command) }
{
    pair_command(
        alloc,
        "verify",
        "Says whether a file pairs two sheets that state the same plan",
    )?
    .arg(file(alloc, "FILE", "The pairing, as compare --pairing writes it"))?
    .arg(flag(alloc, "json", JSON_ANSWER))
}

// The subcommand that reports what differs between two sheets.
fn diff_command<'a>(alloc: Global) -> Result<Command<'a>, AllocError>
    ensures { IfOk result (λ c. app_of c ≡ diff_command) }
{
    pair_command(alloc, "diff", "Says what differs between two sheets")?
        .arg(flag(alloc, "brief", "Says only how many records differ"))?
        .arg(flag(
            alloc,
            "records",
            "Lists each record that differs, and not the objects",
        ))?
        .arg(flag(
            alloc,
            "json",
            "Lists each record that differs as a line of JSON",
        ))?
        .arg(option(
            alloc,
            "name-by",
            "ID,ID",
            "Attributes that name objects [default: the usual]",
        ))?
        .arg(option(
            alloc,
            "picture",
            "FILE",
            "Where a picture of what differs goes, as an SVG file",
        ))
}

// A subcommand over a sheet.
fn sheet_command<'a>(
    alloc: Global,
    name: &'a str,
    about: &'a str,
) -> Result<Command<'a>, AllocError>
    ensures { IfOk result (λ c. app_of c ≡ with_rule (schema_command name.entry.now) (file_rule (codes "VEC"))) }
{
    schema_command(alloc, name, about)?.arg(file(alloc, "VEC", SHEET))
}

// A subcommand over two sheets.
fn pair_command<'a>(alloc: Global, name: &'a str, about: &'a str) -> Result<Command<'a>, AllocError>
    ensures { IfOk result (λ c. app_of c
        ≡ with_rule (with_rule (schema_command name.entry.now) (file_rule (codes "A"))) (file_rule (codes "B"))) }
{
    schema_command(alloc, name, about)?
        .arg(file(alloc, "A", "The first sheet, a file of type VEC"))?
        .arg(file(alloc, "B", "The second sheet, a file of type VEC"))
}

// A subcommand over the files of a schema.
fn schema_command<'a>(
    alloc: Global,
    name: &'a str,
    about: &'a str,
) -> Result<Command<'a>, AllocError>
    ensures { IfOk result (λ c. app_of c ≡ schema_command name.entry.now) }
{
    kinds_command(alloc, name, about)?
        .arg(file(
            alloc,
            "SCD",
            "The schema of the delivery, a file of type SCD",
        ))?
        .arg(file(alloc, "DIC", DICTIONARY))
}

// A subcommand with the option for the codes of the kinds.
fn kinds_command<'a>(
    alloc: Global,
    name: &'a str,
    about: &'a str,
) -> Result<Command<'a>, AllocError>
    ensures { IfOk result (λ c. app_of c ≡ with_rule (new_app name.entry.now) (option_rule (codes "kinds"))) }
{
    let help = "Codes of the kinds of link [default: IND,FND,LPO,RPO]";
    let kinds = option(alloc, "kinds", "I,F,L,R", help);
    Command::new(alloc, name).about(about).arg(kinds)
}

// A rule's number, or the first file of a schema, or neither.
fn subject<'a>(alloc: Global) -> Arg<'a>
    ensures { rule_of result ≡ subject_rule }
{
    optional_file(alloc, "SCD", "The number of a rule, or a file of type SCD").value_name(
        "RULE|SCD",
    )
}

// A file that may be named.
fn optional_file<'a>(alloc: Global, id: &'a str, help: &'a str) -> Arg<'a>
    ensures { rule_of result ≡ new_rule id.entry.now }
{
    Arg::new(alloc, id).help(help)
}

// A file that has to be named.
fn file<'a>(alloc: Global, id: &'a str, help: &'a str) -> Arg<'a>
    ensures { rule_of result ≡ file_rule id.entry.now }
{
    Arg::new(alloc, id).required(true).help(help)
}

// Sheets, as many as are named.
fn sheets_argument<'a>(alloc: Global) -> Arg<'a>
    ensures { rule_of result ≡ optional_files_rule (codes "VEC") }
{
    optional_file(alloc, "VEC", "The sheets, files of type VEC").num_args(1..)
}

// The paths of deliveries, of which at least one has to be named.
fn paths_argument<'a>(alloc: Global) -> Arg<'a>
    ensures { rule_of result ≡ files_rule (codes "PATH") }
{
    file(
        alloc,
        "PATH",
        "The deliveries, files of type THF or their folders",
    )
    .num_args(1..)
}

// A flag, which is asked for by its name.
fn flag<'a>(alloc: Global, id: &'a str, help: &'a str) -> Arg<'a>
    ensures { rule_of result ≡ flag_rule id.entry.now }
{
    Arg::new(alloc, id)
        .long(id)
        .action(ArgAction::SetTrue)
        .help(help)
}

// An option with a value, which help calls so.
fn option<'a>(alloc: Global, id: &'a str, value: &'a str, help: &'a str) -> Arg<'a>
    ensures { rule_of result ≡ option_rule id.entry.now }
{
    Arg::new(alloc, id).long(id).value_name(value).help(help)
}
