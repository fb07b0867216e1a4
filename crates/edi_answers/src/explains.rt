//! What is said of a sheet, of a rule and of all rules.
ghost use Rattle.std.specs.Prelude.{◌≡◌, ◌⊎◌, ◌++◌, ◌<◌, ℕ, List, false, true, IfErr, IfOk, IsTrue};
ghost use Rattle.std.specs.Bool.{MatchBool};
ghost use Rattle.std.specs.Io.KnownBytes.{Appends};
ghost use Rattle.edi_line.specs.LineRules.{BreaksLineRule};
ghost use Rattle.edi_line.specs.Refusal.{IsUnbroken};
ghost use Rattle.edi_schema.specs.SchemaRefusal.{IsSchemaRefusal};
ghost use Rattle.edi_compare.specs.Refused.{IsProper};
ghost use Rattle.edi_compare.specs.Runs.{IsProperSchemaFault};
ghost use Rattle.edi_compare.specs.declared.fault.RunFault.TheVariants as run;
ghost use Rattle.edi_explain.specs.ClassCounts.{DescribesSheet};
ghost use Rattle.edi_explain.specs.Explained.{ExplainsSchema, ExplainsSheet};
ghost use Rattle.edi_explain.specs.Found.{IsFound};
ghost use Rattle.edi_explain.specs.KindClasses.{codes_of};
ghost use Rattle.edi_answers.specs.ExplainForms.{AnswersLinesIn, AreWordsReadIn, words_in_form};
ghost use Rattle.edi_answers.specs.Explains.{DescribesRest, GiveHints, IsExplainStatus, IsRuleListStatus, IsRuleStatus, TellsAccepted, TellsRefusal};
ghost use Rattle.edi_answers.specs.inner.Explains.{AnswersAndTells, IsSheetTextIn};
ghost use Rattle.edi_outcome.specs.Status.{status_of_fault};
ghost use Rattle.edi_outcome.specs.Words.{FaultHasNames};
ghost use Rattle.edi_outcome.specs.declared.outcome.Outcome.TheVariants as outcome;
ghost use Rattle.edi_answers.specs.Effects.{effects, inputs, written};
ghost use Rattle.edi_answers.specs.SheetRuns.{FileFault, OfFiles};
ghost use Rattle.edi_answers.specs.Statuses.{IsListStatus, IsPageStatus, IsSheetStatus, IsUnsaid, OnlyLacksMemory};

use crate::form::{AnswerForm, words_in_form};
use crate::paths::input_name;
use crate::report;
use crate::sheets::open_input;
use edi_compare::{Fault, Input, RunFault, read_input};
use edi_explain::{
    Found, NamedFile, describe_kinds, describe_sheet, describe_skipped, examine, explain_schema,
    explain_sheet, hints_of, list_rules, page_of, rule_of_word,
};
use edi_files::Folder;
use edi_json_answers::refusals::{accepted_sheet_line, refused_schema_line, refused_sheet_line};
use edi_line::ByteOut;
use edi_outcome::{Outcome, line_of_fault, line_of_schema};
use edi_plan::Plan;
use edi_schema::{ByRole, Schema, SchemaFault};
use edi_words::{GivenKinds, SheetFiles};
use edi_write::put_all;
use std::alloc::{AllocError, Global};

const REFUSED_STATUS: u8 = 2;

// What the three files of a sheet hold.
#[derive(Drop)]
struct SheetBytes {
    scd: Vec<u8>,
    dic: Vec<u8>,
    vec: Vec<u8>,
}

// What is said of a sheet, in a form.
#[derive(Drop)]
struct Account {
    is_accepted: bool,
    text: Vec<u8>,
}

// The parts of what is said of a sheet: the answer of a check, in a form, and the words that explain it.
#[derive(Drop)]
struct AccountParts {
    is_accepted: bool,
    answer: Vec<u8>,
    words: Vec<u8>,
}

impl AccountParts {
    // Puts the parts together: the words in the form too.
    fn put_together(self, alloc: Global, form: AnswerForm) -> Result<Account, AllocError>
        ensures { IfOk result (λ account. (account.is_accepted ≡ self.is_accepted)
            × (account.text.items ≡ self.answer.items ++ words_in_form form self.words.items)
            × AreWordsReadIn form self.words.items (words_in_form form self.words.items)) }
    {
        let AccountParts {
            is_accepted,
            answer,
            words,
        } = self;
        let mut text = answer;
        let told = words_in_form(alloc, form, words)?;
        text.extend_from_slice(&told)?;
        Ok(Account { is_accepted, text })
    }
}

/// Says of a sheet in a form what a check says, and then where and why it is refused, or what it holds. Gives the
/// status of the check.
pub fn explain<F: Folder, O: ByteOut, E: ByteOut>(
    alloc: Global,
    folder: &F,
    kinds: &GivenKinds<'_>,
    files: &SheetFiles<'_>,
    form: AnswerForm,
    out: &mut O,
    err: &mut E,
) -> u8
    ensures status { IsSheetStatus result }
    ensures answer { IsExplainStatus
        (effects F.Folder F.Reader.ByteIn F.Sink.ByteOut F.NewFile.ByteOut folder.now folder.now)
        (written O.ByteOut out.old out.new) (written E.ByteOut err.old err.new) kinds.now files.now form result }
{
    let paths = [files.scd, files.dic, files.vec, "-"];
    match account_of(alloc, folder, kinds, files, form) {
        Ok(account) => put_account(&account, out, err),
        Err(fault) => report::answer(
            alloc,
            folder,
            out,
            err,
            AnswerForm::Words,
            &Outcome::Fault(fault),
            &paths,
        ),
    }
}

// Writes what is said, and gives the status.
fn put_account<O: ByteOut, E: ByteOut>(account: &Account, out: &mut O, err: &mut E) -> u8
    ensures status { (result ≡ 4) ⊎ MatchBool account.now.is_accepted (result ≡ 0) (result ≡ 2) }
    ensures answer { result < 3
        → Appends (O.contents out.old) (O.contents out.new) account.now.text.items × (err.new ≡ err.old) }
    ensures unsaid { result ≡ 4 → IsUnsaid (written O.ByteOut out.old out.new) (written E.ByteOut err.old err.new) }
{
    if put_all(out, &account.text).is_err() {
        return report::say_unwritten(err);
    }
    if account.is_accepted {
        0
    } else {
        REFUSED_STATUS
    }
}

// What is said in a form of the sheet of three files. All are opened before the first is read.
fn account_of<F: Folder>(
    alloc: Global,
    folder: &F,
    kinds: &GivenKinds<'_>,
    files: &SheetFiles<'_>,
    form: AnswerForm,
) -> Result<Account, RunFault>
    ensures ok { IfOk result (λ account. OfFiles (inputs F.Folder F.Reader.ByteIn folder.now) files.now
        (λ s d v. MatchBool account.is_accepted
        (TellsAccepted form kinds.now files.now s d v account.text.items) (TellsRefusal form kinds.now
        files.now s d v account.text.items))) }
    ensures err { IfErr result (FileFault (inputs F.Folder F.Reader.ByteIn folder.now) kinds.now files.now (λ _. ⊥)) }
    ensures names { IfErr result (λ e. FaultHasNames e 4) }
    ensures unrefused { IfErr result (λ e. 2 < status_of_fault e) }
{
    let mut scd = open_input(folder, files.scd, Input::Scd)?;
    let mut dic = open_input(folder, files.dic, Input::Dic)?;
    let mut vec = open_input(folder, files.vec, Input::First)?;
    let scd: Vec<u8> = read_input(alloc, &mut scd, Input::Scd)?;
    let dic: Vec<u8> = read_input(alloc, &mut dic, Input::Dic)?;
    let vec: Vec<u8> = read_input(alloc, &mut vec, Input::First)?;
    match account_of_bytes(alloc, kinds, files, form, &SheetBytes { scd, dic, vec }) {
        Ok(account) => Ok(account),
        Err(error) => Err(RunFault::Memory(error)),
    }
}

// What is said in a form of a sheet that was read, with the lines behind that.
fn account_of_bytes(
    alloc: Global,
    kinds: &GivenKinds<'_>,
    files: &SheetFiles<'_>,
    form: AnswerForm,
    bytes: &SheetBytes,
) -> Result<Account, AllocError>
    ensures { IfOk result (λ account. MatchBool account.is_accepted (TellsAccepted form
        kinds.now files.now bytes.now.scd.items bytes.now.dic.items bytes.now.vec.items account.text.items)
        (TellsRefusal form kinds.now files.now bytes.now.scd.items bytes.now.dic.items bytes.now.vec.items
        account.text.items)) }
{
    let mut parts = parts_of(alloc, kinds, files, form, bytes)?;
    let lines = lines_behind(alloc, kinds, files, bytes, parts.is_accepted)?;
    parts.words.extend_from_slice(&lines)?;
    parts.put_together(alloc, form)
}

// The classes of the four kinds, and what is read of an accepted sheet and not compared; or what the files of a refused
// one hint at.
fn lines_behind(
    alloc: Global,
    kinds: &GivenKinds<'_>,
    files: &SheetFiles<'_>,
    bytes: &SheetBytes,
    is_accepted: bool,
) -> Result<Vec<u8>, AllocError>
    requires { IsTrue is_accepted
        → IsUnbroken (BreaksLineRule bytes.now.scd.items) × IsUnbroken (BreaksLineRule bytes.now.vec.items) }
    ensures { IfOk result (λ lines. MatchBool is_accepted
        (DescribesRest kinds.now files.now bytes.now.scd.items bytes.now.vec.items lines.items)
        (GiveHints files.now bytes.now.scd.items bytes.now.dic.items bytes.now.vec.items lines.items)) }
{
    if is_accepted {
        return rest_of_accepted(alloc, kinds, files, bytes);
    }
    hints_of(
        alloc,
        &NamedFile {
            name: input_name(files.scd),
            bytes: &bytes.scd,
        },
        &NamedFile {
            name: input_name(files.dic),
            bytes: &bytes.dic,
        },
        &NamedFile {
            name: input_name(files.vec),
            bytes: &bytes.vec,
        },
    )
}

// The classes of the four kinds, and what is read of a sheet and not compared.
fn rest_of_accepted(
    alloc: Global,
    kinds: &GivenKinds<'_>,
    files: &SheetFiles<'_>,
    bytes: &SheetBytes,
) -> Result<Vec<u8>, AllocError>
    requires scd { IsUnbroken (BreaksLineRule bytes.now.scd.items) }
    requires vec { IsUnbroken (BreaksLineRule bytes.now.vec.items) }
    ensures { IfOk result (λ lines.
        DescribesRest kinds.now files.now bytes.now.scd.items bytes.now.vec.items lines.items) }
{
    let scd = NamedFile {
        name: input_name(files.scd),
        bytes: &bytes.scd,
    };
    let mut lines = describe_kinds(alloc, &scd, kinds.codes())?;
    let skipped = describe_skipped(alloc, &bytes.vec)?;
    lines.extend_from_slice(&skipped)?;
    Ok(lines)
}

// The parts of what is said of a sheet that was read.
fn parts_of(
    alloc: Global,
    kinds: &GivenKinds<'_>,
    files: &SheetFiles<'_>,
    form: AnswerForm,
    bytes: &SheetBytes,
) -> Result<AccountParts, AllocError>
    ensures { IfOk result (λ parts. AnswersAndTells form kinds.now files.now
        bytes.now.scd.items bytes.now.dic.items bytes.now.vec.items
        parts.is_accepted parts.answer.items parts.words.items) }
{
    match Schema::load(alloc, &bytes.scd, &bytes.dic, kinds.kinds()) {
        Ok(schema) => match examine(alloc, &schema, &bytes.vec) {
            Ok(sound) => parts_of_accepted(alloc, form, &schema, sound.plan()),
            Err(found) => parts_of_sheet(
                alloc,
                form,
                &schema,
                &bytes.vec,
                input_name(files.vec),
                &found,
            ),
        },
        Err(fault) => parts_of_schema(
            alloc,
            form,
            &NamedFile {
                name: input_name(files.scd),
                bytes: &bytes.scd,
            },
            &NamedFile {
                name: input_name(files.dic),
                bytes: &bytes.dic,
            },
            kinds.codes(),
            &fault,
        ),
    }
}

// The parts of what is said of an accepted sheet, by its plan.
fn parts_of_accepted(
    alloc: Global,
    form: AnswerForm,
    schema: &Schema,
    plan: &Plan,
) -> Result<AccountParts, AllocError>
    ensures { IfOk result (λ parts. (parts.is_accepted ≡ true)
        × IsSheetTextIn form outcome.Accepted parts.answer.items
        × DescribesSheet schema.now plan.now parts.words.items) }
{
    let answer = answer_of_accepted(alloc, form)?;
    let words = describe_sheet(alloc, schema, plan)?;
    Ok(AccountParts {
        is_accepted: true,
        answer,
        words,
    })
}

// The answer on an accepted sheet, in a form.
fn answer_of_accepted(alloc: Global, form: AnswerForm) -> Result<Vec<u8>, AllocError>
    ensures { IfOk result (λ answer. IsSheetTextIn form outcome.Accepted answer.items) }
{
    match form {
        AnswerForm::Words => Vec::from_slice(alloc, b"accepted\n"),
        AnswerForm::Json => accepted_sheet_line(alloc),
    }
}

// The parts of what is said of a refused sheet.
fn parts_of_sheet(
    alloc: Global,
    form: AnswerForm,
    schema: &Schema,
    bytes: &[u8],
    name: &[u8],
    found: &Found,
) -> Result<AccountParts, AllocError>
    requires { IsFound schema.now bytes.now found.now }
    ensures { IfOk result (λ parts. (parts.is_accepted ≡ false) × IsProper found.now.fault
        × IsSheetTextIn form (outcome.Fault (run.First found.now.fault)) parts.answer.items
        × ExplainsSheet schema.now bytes.now name.now found.now.fault parts.words.items) }
{
    let answer = answer_of_sheet(alloc, form, &found.fault)?;
    let words = explain_sheet(alloc, schema, bytes, name, found)?;
    Ok(AccountParts {
        is_accepted: false,
        answer,
        words,
    })
}

// The answer on a refused sheet, in a form.
fn answer_of_sheet(alloc: Global, form: AnswerForm, fault: &Fault) -> Result<Vec<u8>, AllocError>
    ensures { IfOk result (λ answer. IsSheetTextIn form (outcome.Fault (run.First fault.now)) answer.items) }
{
    match form {
        AnswerForm::Words => line_of_fault(alloc, fault),
        AnswerForm::Json => refused_sheet_line(alloc, fault),
    }
}

// The parts of what is said of a refused schema.
fn parts_of_schema(
    alloc: Global,
    form: AnswerForm,
    scd: &NamedFile<'_>,
    dic: &NamedFile<'_>,
    codes: &ByRole<&[u8]>,
    fault: &SchemaFault,
) -> Result<AccountParts, AllocError>
    requires { IsSchemaRefusal scd.now.bytes.now dic.now.bytes.now (codes_of codes.now) fault.now }
    ensures { IfOk result (λ parts. (parts.is_accepted ≡ false) × IsProperSchemaFault fault.now
        × IsSheetTextIn form (outcome.Fault (run.Schema fault.now)) parts.answer.items
        × ExplainsSchema (codes_of codes.now) scd.now.bytes.now dic.now.bytes.now scd.now.name.now
        dic.now.name.now fault.now parts.words.items) }
{
    let answer = answer_of_schema(alloc, form, fault)?;
    let words = explain_schema(alloc, scd, dic, codes, fault)?;
    Ok(AccountParts {
        is_accepted: false,
        answer,
        words,
    })
}

// The answer on a refused schema, in a form.
fn answer_of_schema(
    alloc: Global,
    form: AnswerForm,
    fault: &SchemaFault,
) -> Result<Vec<u8>, AllocError>
    ensures { IfOk result (λ answer. IsSheetTextIn form (outcome.Fault (run.Schema fault.now)) answer.items) }
{
    match form {
        AnswerForm::Words => line_of_schema(alloc, fault),
        AnswerForm::Json => refused_schema_line(alloc, fault),
    }
}

/// Says in a form which rules there are, each with its number and where it is broken.
pub fn explain_rules<O: ByteOut, E: ByteOut>(
    alloc: Global,
    form: AnswerForm,
    out: &mut O,
    err: &mut E,
) -> u8
    ensures status { IsListStatus result }
    ensures answer { IsRuleListStatus (written O.ByteOut out.old out.new)
        (written E.ByteOut err.old err.new) form result }
{
    match list_rules(alloc) {
        Ok(lines) => put_page(alloc, form, lines, out, err),
        Err(_) => report::out_of_memory(err),
    }
}

// Writes lines on rules in a form, and gives the status.
fn put_page<O: ByteOut, E: ByteOut>(
    alloc: Global,
    form: AnswerForm,
    page: Vec<u8>,
    out: &mut O,
    err: &mut E,
) -> u8
    ensures status { IsListStatus result }
    ensures done { result ≡ 0
        → AnswersLinesIn (written O.ByteOut out.old out.new) (written E.ByteOut err.old err.new) form page.items }
    ensures failed { result ≡ 4 → IsUnsaid (written O.ByteOut out.old out.new) (written E.ByteOut err.old err.new) }
    ensures memory { result ≡ 5
        → OnlyLacksMemory (written O.ByteOut out.old out.new) (written E.ByteOut err.old err.new) }
{
    let Ok(text) = words_in_form(alloc, form, page) else {
        return report::out_of_memory(err);
    };
    match put_all(out, &text) {
        Ok(()) => 0,
        Err(_) => report::say_unwritten(err),
    }
}

/// Says in a form what the rule of a number means, or that there is no such rule.
pub fn explain_rule<O: ByteOut, E: ByteOut>(
    alloc: Global,
    word: &str,
    form: AnswerForm,
    out: &mut O,
    err: &mut E,
) -> u8
    ensures status { IsPageStatus result }
    ensures answer { IsRuleStatus (written O.ByteOut out.old out.new)
        (written E.ByteOut err.old err.new) form word.now result }
{
    let Some(text) = rule_of_word(word) else {
        return report::unknown_rule(err);
    };
    match page_of(alloc, &text) {
        Ok(page) => put_page(alloc, form, page, out, err),
        Err(_) => report::out_of_memory(err),
    }
}
