//! The list of all rules.

ghost use Rattle.std.specs.Prelude.{◌≡◌, ◌++◌, IfOk, OnOk, flat_map, map};
ghost use Rattle.edi_explain.specs.Explained.{rule_line, rule_lines};
ghost use Rattle.edi_explain.specs.Texts.{words_of_text};

use crate::text::RuleText;
use crate::texts::texts_by_phase;
use edi_line::push_number;
use std::alloc::{AllocError, Global};

/// Appends the number and the sentence of a rule, as a line.
fn push_rule(lines: &mut Vec<u8>, text: &RuleText) -> Result<(), AllocError>
    ensures { OnOk result (lines.new.items ≡ lines.old.items ++ rule_line (words_of_text text.now)) }
{
    push_number(lines, u64::from(text.rule))?;
    lines.extend_from_slice(b": ")?;
    lines.extend_from_slice(text.sentence.as_bytes())?;
    lines.push(b'\n')?;
    Ok(())
}

/// Appends the lines of these rules.
fn push_rules(lines: &mut Vec<u8>, texts: &[RuleText]) -> Result<(), AllocError>
    ensures { OnOk result
        (lines.new.items ≡ lines.old.items ++ flat_map rule_line (map words_of_text texts.now)) }
{
    for text in texts {
        push_rule(lines, text)?;
    }
    Ok(())
}

/// All rules, each with its number and where it is broken on a line of its own, in the order of their numbers
/// (docs/FORMAT.md, "Schemas", "The rules of a sheet" and "Deliveries").
pub fn list_rules(alloc: Global) -> Result<Vec<u8>, AllocError>
    ensures { IfOk result (λ lines. lines.items ≡ rule_lines) }
{
    let mut lines = Vec::new(alloc);
    for texts in &texts_by_phase() {
        push_rules(&mut lines, texts)?;
    }
    Ok(lines)
}
