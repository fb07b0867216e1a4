//! In which form an answer or a refusal is written.
ghost use Rattle.std.specs.Prelude.{◌≡◌, IfOk, length};
ghost use Rattle.edi_outcome.specs.Words.{HasNames, texts};
ghost use Rattle.edi_answers.specs.AnswerForms.{IsReadIn, text_in_form};
ghost use Rattle.edi_answers.specs.ExplainForms.{AreWordsReadIn, words_in_form};

use edi_json_answers::json_of;
use edi_json_answers::told::told_lines;
use edi_outcome::{Outcome, line_of};
use std::alloc::{AllocError, Global};

/// In which form an answer or a refusal is written.
#[derive(Clone, Copy)]
pub enum AnswerForm {
    /// As words.
    Words,
    /// As lines of JSON (docs/JSON.md, "Answers" and "Explanations").
    Json,
}

/// The text of an outcome in a form, by the names of the inputs and of the output. It fails only if memory runs out.
pub fn text_in_form(
    alloc: Global,
    form: AnswerForm,
    outcome: &Outcome,
    names: &[&[u8]],
) -> Result<Vec<u8>, AllocError>
    requires { HasNames outcome.now (length names.now) }
    ensures text { IfOk result (λ text. text.items ≡ text_in_form form outcome.now (texts names.now)) }
    ensures read { IfOk result (λ text. IsReadIn form outcome.now (texts names.now) text.items) }
{
    match form {
        AnswerForm::Words => line_of(alloc, outcome, names),
        AnswerForm::Json => json_of(alloc, outcome, names),
    }
}

/// Words in a form: as they are, or a line of JSON for each of their lines. It fails only if memory runs out.
pub fn words_in_form(alloc: Global, form: AnswerForm, words: Vec<u8>) -> Result<Vec<u8>, AllocError>
    ensures text { IfOk result (λ text. text.items ≡ words_in_form form words.items) }
    ensures read { IfOk result (λ text. AreWordsReadIn form words.items text.items) }
{
    match form {
        AnswerForm::Words => Ok(words),
        AnswerForm::Json => told_lines(alloc, &words),
    }
}
