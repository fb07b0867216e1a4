//! Text of bytes.

use std::alloc::{AllocError, Global};

/// Writes bytes as the characters of these numbers.
pub(crate) fn push_bytes(text: &mut String, bytes: &[u8]) -> Result<(), AllocError> {
    for byte in bytes {
        text.push(char::from(*byte))?;
    }
    Ok(())
}

/// Writes a canonical file with its lines ended by LF alone; or that one of its lines doesn't end in CR LF.
pub(crate) fn push_file(alloc: Global, text: &mut String, file: &[u8]) -> Result<(), AllocError> {
    let mut whole = String::new(alloc);
    push_bytes(&mut whole, file)?;
    let lines = whole.as_str().replace(alloc, "\r\n", "\n")?;
    text.push_str(lines.as_str())?;
    if has_ends(alloc, lines.as_str(), whole.as_str())? {
        Ok(())
    } else {
        text.push_str("a line that doesn't end in CR LF\n")
    }
}

// Whether a file is these lines with CR LF for each LF.
fn has_ends(alloc: Global, lines: &str, whole: &str) -> Result<bool, AllocError> {
    let ended = lines.replace(alloc, "\n", "\r\n")?;
    Ok(ended.as_str() == whole)
}
