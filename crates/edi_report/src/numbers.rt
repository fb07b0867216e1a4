//! Numbers as bytes, of which a small one takes one.

ghost use Rattle.std.specs.Prelude.{◌≡◌, ◌≤◌, ◌<◌, ◌++◌, OnOk, length};
ghost use Rattle.edi_report.specs.inner.Packing.{IsFirstNumber, packed_number};

use std::alloc::AllocError;

/// Puts a number behind the bytes: a byte of 255 for each whole 255 in it, and then one of what is left.
pub(crate) fn push_packed_number(bytes: &mut Vec<u8>, number: u64) -> Result<(), AllocError>
    ensures { OnOk result (bytes.new.items ≡ bytes.old.items ++ packed_number number) }
{
    let mut left = number;
    while left >= 255 {
        bytes.push(255)?;
        left -= 255;
    }
    bytes.push(left as u8)?;
    Ok(())
}

/// The number that the bytes begin with, and the bytes behind it.
pub(crate) fn first_packed_number(bytes: &[u8]) -> (u64, &[u8])
    ensures number { IsFirstNumber bytes.now result.0 result.1.now }
    ensures within { length result.1.now ≤ length bytes.now }
    ensures shorter { 0 < length bytes.now → length result.1.now < length bytes.now }
{
    let mut number: u64 = 0;
    for (i, byte) in bytes.iter().enumerate() {
        // Only bytes that are no number add up to more than 64 bits hold.
        number = number.saturating_add(u64::from(*byte));
        if *byte < 255 {
            return (number, &bytes[i + 1..]);
        }
    }
    (number, &[])
}
