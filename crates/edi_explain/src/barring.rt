//! The earlier lines that rules of lines speak of.

ghost use Rattle.std.specs.Prelude.{◌≡◌};
ghost use Rattle.edi_line.specs.LineRules.{BreaksLineRule};
ghost use Rattle.edi_line.specs.Refusal.{IsLeastBroken};
ghost use Rattle.edi_explain.specs.Barring.{IsBarredBy};
ghost use Rattle.edi_plan.specs.EarlierLinks.{IsLeastIfAny};
ghost use Rattle.edi_explain.specs.inner.Barring.{bars_again as text_bars_again, bars_text};

use crate::contents::content_numbered;
use edi_line::lines::{content, first_line};

/// Whether a BOM stands before a BOM, or a CSE or an RTY before a CSE.
fn bars_again(earlier: &[u8], line: &[u8]) -> bool
    ensures { result ≡ text_bars_again earlier.now line.now }
{
    if line.starts_with(b"BOM") {
        earlier.starts_with(b"BOM")
    } else {
        line.starts_with(b"CSE") && (earlier.starts_with(b"CSE") || earlier.starts_with(b"RTY"))
    }
}

/// Whether a line may not stand behind an earlier one, by a rule.
fn bars(rule: u16, earlier: &[u8], line: &[u8]) -> bool
    ensures { result ≡ bars_text rule earlier.now line.now }
{
    if rule == 107 {
        earlier.starts_with(b"EOM")
    } else if rule == 108 {
        bars_again(earlier, line)
    } else {
        false
    }
}

/// The first line that bars the one of a refusal, counted from 1: for rule 107 the end, for 108 the first BOM, or the
/// first CSE or RTY. `None` where the rule speaks of no earlier line.
pub fn barring_line(bytes: &[u8], rule: u16, at: u64) -> Option<u64>
    requires { IsLeastBroken (BreaksLineRule bytes.now) rule at }
    ensures { IsLeastIfAny (IsBarredBy bytes.now rule at) result }
{
    if rule != 107 && rule != 108 {
        return None;
    }
    let refused = content_numbered(bytes, at)?;
    let mut rest = bytes;
    let mut number = 1;
    while !rest.is_empty() && number < at {
        let (line, behind) = first_line(rest);
        if bars(rule, content(line), refused) {
            return Some(number);
        }
        number += 1;
        rest = behind;
    }
    None
}
