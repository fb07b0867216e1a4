//! What the text of a schema decides.

ghost use Rattle.edi_schema_meaning.specs.Laws.{OneAnswerOneText, OneTextOneAnswer, ProbesAreAnswered, TextsDecideAnswers};

/// Two schemas with one text answer each file alike.
pub fn one_text_one_answer()
    ensures { OneTextOneAnswer }
{}

/// What the small sheets of a name show of its class: whether it is there, which kind it has but for left and right,
/// and whether its values are numbers.
pub fn probes_tell()
    ensures { ProbesAreAnswered }
{}

/// Two schemas that answer each file alike have one text.
pub fn one_answer_one_text()
    ensures { OneAnswerOneText }
{}

/// Two schemas that are read of files have one text exactly if they answer each file alike.
pub fn texts_decide_answers()
    ensures { TextsDecideAnswers }
{}
