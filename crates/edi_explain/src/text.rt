//! Rules in words.

ghost use Rattle.std.specs.Prelude.{◌≡◌, map, option_map};
ghost use Rattle.edi_explain.specs.Texts.{IsRuleText, words_among, words_of_text};

use crate::texts::texts_by_phase;

/// A rule in words.
#[derive(Clone, Copy)]
pub struct RuleText {
    /// Its number, 101 to 711.
    pub rule: u16,
    /// Where it is broken, as the tables of docs/FORMAT.md say it.
    pub sentence: &'static str,
    /// Why there is such a rule.
    pub reason: &'static str,
    /// What usually breaks it.
    pub cause: &'static str,
    /// What to do about it.
    pub remedy: &'static str,
}

/// The text of a rule among these.
fn text_among(texts: &[RuleText], rule: u16) -> Option<RuleText>
    ensures { option_map words_of_text result ≡ words_among (map words_of_text texts.now) rule }
{
    let mut rest = texts;
    while let [text, behind @ ..] = rest {
        if text.rule == rule {
            return Some(*text);
        }
        rest = behind;
    }
    None
}

/// A rule in words, or `None` where no rule has this number (docs/FORMAT.md, "Schemas", "The rules of
/// a sheet" and "Deliveries").
pub fn rule_text(rule: u16) -> Option<RuleText>
    ensures { IsRuleText rule result }
{
    for texts in &texts_by_phase() {
        if let Some(text) = text_among(texts, rule) {
            return Some(text);
        }
    }
    None
}
