//! Bytes from outside, as a line shows them (docs/FORMAT.md, "How identifiers and names are shown").
ghost use Rattle.std.specs.Prelude.{◌≡◌, ◌++◌, ◌<◌, OnOk};
ghost use Rattle.std.specs.List.{flat_map};
ghost use Rattle.std.specs.Str.{chars};
ghost use Rattle.edi_shown.specs.Shown.{escape, hex_digit, shown_byte, shown_bytes, shown_char};

use std::alloc::AllocError;
use std::str::from_utf8;

/// Appends bytes as a line shows them: of text a control character as `\x` and two hexadecimal digits for each of its
/// bytes, a backslash as two, and each other character as it is; of what isn't UTF-8 each byte from 128 on in this way
/// too.
///
/// The only error is a lack of memory; the text then begins with what it had.
pub fn push_shown(text: &mut Vec<u8>, bytes: &[u8]) -> Result<(), AllocError>
    ensures { OnOk result (text.new.items ≡ text.old.items ++ shown_bytes bytes.now) }
{
    match from_utf8(bytes) {
        Ok(name) => push_text(text, name),
        Err(_) => push_bytes(text, bytes),
    }
}

// Appends text as a line shows it.
fn push_text(text: &mut Vec<u8>, name: &str) -> Result<(), AllocError>
    ensures { OnOk result (text.new.items ≡ text.old.items ++ flat_map shown_char (chars name.now)) }
{
    for c in name.chars() {
        push_char(text, c)?;
    }
    Ok(())
}

// Appends a character as a line shows it.
fn push_char(text: &mut Vec<u8>, c: char) -> Result<(), AllocError>
    ensures { OnOk result (text.new.items ≡ text.old.items ++ shown_char c) }
{
    let mut buffer = [0; 4];
    let bytes = c.encode_utf8(&mut buffer).as_bytes();
    if c == '\\' {
        text.extend_from_slice(b"\\\\")
    } else if c.is_control() {
        push_escapes(text, bytes)
    } else {
        text.extend_from_slice(bytes)
    }
}

// Appends the escapes of bytes.
fn push_escapes(text: &mut Vec<u8>, bytes: &[u8]) -> Result<(), AllocError>
    ensures { OnOk result (text.new.items ≡ text.old.items ++ flat_map escape bytes.now) }
{
    for byte in bytes {
        push_escape(text, *byte)?;
    }
    Ok(())
}

// Appends bytes that are no text as a line shows them.
fn push_bytes(text: &mut Vec<u8>, bytes: &[u8]) -> Result<(), AllocError>
    ensures { OnOk result (text.new.items ≡ text.old.items ++ flat_map shown_byte bytes.now) }
{
    for byte in bytes {
        push_byte(text, *byte)?;
    }
    Ok(())
}

// Appends a byte of what is no text.
fn push_byte(text: &mut Vec<u8>, byte: u8) -> Result<(), AllocError>
    ensures { OnOk result (text.new.items ≡ text.old.items ++ shown_byte byte) }
{
    if byte == b'\\' {
        text.extend_from_slice(b"\\\\")
    } else if (32..=126).contains(&byte) {
        text.push(byte)?;
        Ok(())
    } else {
        push_escape(text, byte)
    }
}

// Appends `\x` and the digits of a byte.
fn push_escape(text: &mut Vec<u8>, byte: u8) -> Result<(), AllocError>
    ensures { OnOk result (text.new.items ≡ text.old.items ++ escape byte) }
{
    text.extend_from_slice(&[b'\\', b'x', hex_digit(byte / 16), hex_digit(byte % 16)])
}

// The digit of a value below 16.
fn hex_digit(value: u8) -> u8
    requires { value < 16 }
    ensures { result ≡ hex_digit value }
{
    if value < 10 { value + 48 } else { value + 87 }
}
