//! The line of a file with a number.

ghost use Rattle.std.specs.Prelude.{◌≡◌, ◌-◌, option_map, slice_get};
ghost use Rattle.edi_line.specs.inner.Lines.{line_contents};

use edi_line::lines::{content, first_line};

/// The content of the line with a number.
pub(crate) fn content_numbered(bytes: &[u8], number: u64) -> Option<&[u8]>
    ensures { option_map (λ c. c.now) result ≡ slice_get (line_contents bytes.now) (number - 1) }
{
    let mut left = number.saturating_sub(1);
    let mut rest = bytes;
    while !rest.is_empty() {
        let (line, behind) = first_line(rest);
        if left == 0 {
            return Some(content(line));
        }
        left -= 1;
        rest = behind;
    }
    None
}
