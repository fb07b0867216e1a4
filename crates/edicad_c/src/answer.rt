//! What each call answers.

ghost use Rattle.std.specs.Prelude.{◌≡◌};
ghost use Rattle.edicad_c.specs.Answers.{difference_answer, pair_answer, schema_answer, sheet_answer, verdict_answer};
ghost use Rattle.edicad_c.specs.Answers.{refused_at_line, refused_at_record, refused_kinds, source_number};
ghost use Rattle.edicad_c.specs.Answers.{differs, differs_at, done, no_memory, wrong_call};

use edi_compare::{CompareFault, Fault, Verdict};
use edi_schema::{SchemaFault, Source};

/// The number of the file of classes among a call's inputs.
pub const SCD_INPUT: u32 = 1;
/// The number of the dictionary.
pub const DIC_INPUT: u32 = 2;
/// The number of the only sheet, or of the first of two.
pub const FIRST_INPUT: u32 = 3;
/// The number of the second sheet.
pub const SECOND_INPUT: u32 = 4;
/// The number of a pairing's file.
pub const PAIRING_INPUT: u32 = 5;

const DONE: u32 = 0;

const DIFFERS: u32 = 1;

const REFUSED: u32 = 2;

const WRONG_CALL: u32 = 3;

const NO_MEMORY: u32 = 5;

const NO_UNIT: u32 = 0;

const LINES: u32 = 1;

const RECORDS: u32 = 2;

// The rule of the classes of the four kinds.
const KINDS_RULE: u32 = 604;

/// What a call answers, as its status says: where it is refused, the first broken rule and its place.
#[repr(C)]
#[derive(Clone, Copy)]
pub struct Answer {
    /// 0 done, 1 different, 2 refused, 3 a wrong call, 5 out of memory: as the program's exit statuses.
    pub status: u32,
    /// Which input is refused: 1 the file of classes, 2 the dictionary, 3 the first sheet, 4 the second, 5 the
    /// pairing's file; else 0.
    pub input: u32,
    /// The rule that is broken, or 0.
    pub rule: u32,
    /// What the place counts: 1 lines, 2 records, 0 nothing.
    pub unit: u32,
    /// Where the rule is broken, or where two canonical files first differ, from 1; or 0.
    pub place: u64,
}

impl Answer {
    /// The call did what it was asked.
    pub fn done() -> Answer
        ensures { result ≡ done }
    {
        Answer::of_status(DONE)
    }

    /// The call was wrong: a handle doesn't hold what it should, or the codes of the kinds are wrong.
    pub fn wrong_call() -> Answer
        ensures { result ≡ wrong_call }
    {
        Answer::of_status(WRONG_CALL)
    }

    /// Memory ran out.
    pub fn no_memory() -> Answer
        ensures { result ≡ no_memory }
    {
        Answer::of_status(NO_MEMORY)
    }

    /// Two plans differ, or a pairing doesn't carry.
    pub fn differs() -> Answer
        ensures { result ≡ differs }
    {
        Answer::of_status(DIFFERS)
    }

    /// Two plans differ, and their canonical files first at this line.
    pub fn differs_at(line: u64) -> Answer
        ensures { result ≡ differs_at line }
    {
        Answer {
            status: DIFFERS,
            input: 0,
            rule: 0,
            unit: LINES,
            place: line,
        }
    }

    /// Whether two sheets state the same plan.
    pub fn of_difference(same: bool) -> Answer
        ensures { result ≡ difference_answer same }
    {
        if same {
            Answer::done()
        } else {
            Answer::differs()
        }
    }

    /// The verdict on two sheets.
    pub fn of_verdict(verdict: &Verdict) -> Answer
        ensures { result ≡ verdict_answer verdict.now }
    {
        match verdict {
            Verdict::Same(_) => Answer::done(),
            Verdict::Different { line } => Answer::differs_at(*line),
        }
    }

    /// The refusal of the sheet that is the input of this number.
    pub fn of_sheet(input: u32, fault: &Fault) -> Answer
        ensures { result ≡ sheet_answer input fault.now }
    {
        match fault {
            Fault::Memory(_) => Answer::no_memory(),
            Fault::Line { rule, at } => Answer::refused_at_line(input, *rule, *at),
            Fault::Entry { rule, at } => Answer::refused_at_record(input, *rule, *at),
        }
    }

    /// The refusal of the first of two sheets, or of the second.
    pub fn of_pair(fault: &CompareFault) -> Answer
        ensures { result ≡ pair_answer fault.now }
    {
        match fault {
            CompareFault::Memory(_) => Answer::no_memory(),
            CompareFault::First(fault) => Answer::of_sheet(FIRST_INPUT, fault),
            CompareFault::Second(fault) => Answer::of_sheet(SECOND_INPUT, fault),
        }
    }

    // An answer of which there is no more to say.
    fn of_status(status: u32) -> Answer
        ensures { result ≡ record { status = status; input = 0; rule = 0; unit = 0; place = 0 } }
    {
        Answer {
            status,
            input: 0,
            rule: 0,
            unit: NO_UNIT,
            place: 0,
        }
    }

    /// An input is refused by a rule of lines.
    pub fn refused_at_line(input: u32, rule: u16, at: u64) -> Answer
        ensures { result ≡ refused_at_line input rule at }
    {
        Answer {
            status: REFUSED,
            input,
            rule: u32::from(rule),
            unit: LINES,
            place: at,
        }
    }

    // An input is refused by a rule of records.
    fn refused_at_record(input: u32, rule: u16, at: u64) -> Answer
        ensures { result ≡ refused_at_record input rule at }
    {
        Answer {
            status: REFUSED,
            input,
            rule: u32::from(rule),
            unit: RECORDS,
            place: at,
        }
    }

    /// The refusal of a schema.
    pub fn of_schema(fault: &SchemaFault) -> Answer
        ensures { result ≡ schema_answer fault.now }
    {
        match fault {
            SchemaFault::Memory(_) => Answer::no_memory(),
            SchemaFault::Line { file, rule, at } => {
                Answer::refused_at_line(source_number(*file), *rule, *at)
            }
            SchemaFault::Entry { file, rule, at } => {
                Answer::refused_at_record(source_number(*file), *rule, *at)
            }
            SchemaFault::Kinds => Answer::refused_kinds(),
        }
    }

    // The classes of the four kinds break their rule, which has no place.
    fn refused_kinds() -> Answer
        ensures { result ≡ refused_kinds }
    {
        Answer {
            status: REFUSED,
            input: SCD_INPUT,
            rule: KINDS_RULE,
            unit: NO_UNIT,
            place: 0,
        }
    }
}

// The number of a file of a schema.
fn source_number(file: Source) -> u32
    ensures { result ≡ source_number file }
{
    match file {
        Source::Scd => SCD_INPUT,
        Source::Dic => DIC_INPUT,
    }
}
