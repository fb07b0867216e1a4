//! Decimal numbers, stored as whole millionths.

ghost use Rattle.std.specs.Prelude.{◌≡◌, ℕ, List, ◌+◌, ◌*◌, ◌/◌, ◌%◌, ◌^◌, ◌<◌, ◌≤◌, ◌↔◌, [], ◌∷◌, ◌++◌, length, map, IsTrue, IfOk, OnOk, OnErr, MatchOption, Some, All, ℤ, pos, ◌==◌, decimal, position};
ghost use Rattle.std.specs.Simd.Lanes.{mask_l};
ghost use Rattle.std.specs.Str.Parse.{AllDigits, digits_value};
ghost use Rattle.edi_line.specs.Number.{IsNumberText, IsWhole, IsFraction, signed_by, size_of, MOST, signed_text, plain_text, size_text, fraction_text, fraction_digits};
ghost use Rattle.edi_line.specs.inner.Number.{number, sign_bytes, body_of, whole_of, fraction_of};

use itoa::Buffer;
use std::alloc::{AllocError, Global};
use std::marker::Model;
use std::simd::prelude::*;

// How many bytes are looked at at once for a point.
const LANES: usize = 8;

/// A decimal number of at most nine whole and six fraction digits, so a whole count of millionths,
/// at most 999999999999999 either way. Contracts see that count.
#[derive(Clone, Copy, PartialEq, Eq, PartialOrd, Ord, Hash)]
pub struct Num {
    millionths: i64,
}

impl Model for Num {
    ghost Value = { ℤ };

    ghost view = { λ n. n.millionths };

    ghost invariant = { λ n. size_of n.millionths ≤ MOST };

    ghost inverse = { λ z. record { millionths = z } };
}

impl Num {
    /// The number that a text spells, if it spells one: a `+` or `-` or none, digits, and perhaps a
    /// point with digits after it, at least one digit in all. Leading zeros of the whole part and
    /// trailing zeros of the fraction don't count towards the nine and six digits. `-0` is 0.
    pub fn read(text: &[u8]) -> Option<Num>
        ensures { MatchOption result ((m : ℤ) → ¬ (IsNumberText text.now m)) (λ n. IsNumberText text.now n) }
    {
        let (sign, digits) = split_sign(text);
        let (whole, fraction) = split_point(digits);
        if whole.is_empty() && fraction.is_empty() {
            return None;
        }
        let units = whole_value(whole)?;
        let millionths = fraction_value(fraction)?;
        Some(Num::with_sign(sign, units * 1_000_000 + millionths))
    }

    fn with_sign(sign: &[u8], size: u64) -> Num
        requires { size ≤ MOST }
        ensures { result ≡ signed_by sign.now size }
    {
        let size = size as i64;
        let millionths = match sign {
            [b'-'] => -size,
            _ => size,
        };
        Num { millionths }
    }

    /// The plain spelling: a `-` where it is negative, the whole part without leading zeros but at
    /// least `0`, then a point and the fraction without trailing zeros if it isn't 0.
    pub fn plain(self, alloc: Global) -> Result<Vec<u8>, AllocError>
        ensures { IfOk result (λ text. text.items ≡ plain_text self) }
    {
        let mut text = Vec::new(alloc);
        self.push_plain(&mut text)?;
        Ok(text)
    }

    /// Appends the plain spelling.
    pub fn push_plain(self, text: &mut Vec<u8>) -> Result<(), AllocError>
        ensures { OnOk result (text.new.items ≡ text.old.items ++ plain_text self) }
    {
        if self.millionths < 0 {
            text.push(b'-')?;
        }
        push_millionths(text, self.millionths.unsigned_abs())
    }

    /// The plain spelling with a `+` where there is no `-`; zero is `+0`.
    pub fn signed(self, alloc: Global) -> Result<Vec<u8>, AllocError>
        ensures { IfOk result (λ text. text.items ≡ signed_text self) }
    {
        let mut text = Vec::new(alloc);
        self.push_signed(&mut text)?;
        Ok(text)
    }

    /// Appends the signed spelling.
    pub fn push_signed(self, text: &mut Vec<u8>) -> Result<(), AllocError>
        ensures { OnOk result (text.new.items ≡ text.old.items ++ signed_text self) }
    {
        text.push(if self.millionths < 0 { b'-' } else { b'+' })?;
        push_millionths(text, self.millionths.unsigned_abs())
    }

    /// The whole count of millionths.
    pub fn millionths(self) -> i64
        ensures value { result ≡ self }
        ensures range { size_of self ≤ MOST }
    {
        self.millionths
    }
}

/// The sign in front, if any, and the rest.
fn split_sign(text: &[u8]) -> (&[u8], &[u8])
    ensures sign { result.0.now ≡ sign_bytes text.now }
    ensures rest { result.1.now ≡ body_of text.now }
{
    let signs = match text {
        [b'+' | b'-', ..] => 1,
        _ => 0,
    };
    text.split_at(signs)
}

/// The digits before the first point, and those after it.
fn split_point(digits: &[u8]) -> (&[u8], &[u8])
    ensures whole { result.0.now ≡ whole_of digits.now }
    ensures fraction { result.1.now ≡ fraction_of digits.now }
{
    match point_in(digits) {
        Some(point) => (&digits[..point], &digits[point + 1..]),
        None => (digits, &[]),
    }
}

/// The lanes that are points, a bit each.
fn points_among(lanes: u8x8) -> u64
    ensures { result ≡ mask_l (map (λ c. c == 46) lanes) }
{
    lanes.simd_eq(u8x8::splat(b'.')).to_bitmask()
}

/// Where the first point stands: in most coordinates among the first eight bytes, which are looked at at once.
fn point_in(digits: &[u8]) -> Option<usize>
    ensures { result ≡ position (λ c. c == 46) digits.now }
{
    if digits.len() >= LANES {
        let points = points_among(u8x8::from_slice(digits));
        if points != 0 {
            return Some(points.trailing_zeros() as usize);
        }
    }
    digits.iter().position(|c| *c == b'.')
}

fn are_zeros(digits: &[u8]) -> bool
    ensures { IsTrue result ↔ All (λ c. c ≡ 48) digits.now }
{
    digits.iter().all(|c| *c == b'0')
}

/// What at most nine digits are worth.
fn digits_worth(digits: &[u8]) -> Option<u64>
    requires { length digits.now ≤ 9 }
    ensures { MatchOption result (¬ (AllDigits 10 digits.now))
        (λ n. AllDigits 10 digits.now × (n ≡ digits_value 10 digits.now)) }
{
    let mut worth = 0;
    for c in digits {
        if !c.is_ascii_digit() {
            return None;
        }
        worth = worth * 10 + u64::from(*c - b'0');
    }
    Some(worth)
}

/// The whole part.
fn whole_value(digits: &[u8]) -> Option<u64>
    ensures { MatchOption result ((n : ℕ) → ¬ (IsWhole digits.now n))
        (λ n. IsWhole digits.now n × (n < 1000000000)) }
{
    let (zeros, rest) = digits.split_at(digits.len().saturating_sub(9));
    if are_zeros(zeros) {
        digits_worth(rest)
    } else {
        None
    }
}

/// The fraction, in millionths.
fn fraction_value(digits: &[u8]) -> Option<u64>
    ensures { MatchOption result ((n : ℕ) → ¬ (IsFraction digits.now n))
        (λ n. IsFraction digits.now n × (n < 1000000)) }
{
    let (rest, zeros) = digits.split_at(digits.len().min(6));
    if !are_zeros(zeros) {
        return None;
    }
    let worth = digits_worth(rest)?;
    Some(worth * power_of_ten(6 - rest.len()))
}

/// 10 to a power of at most 6.
fn power_of_ten(exponent: usize) -> u64
    requires { exponent ≤ 6 }
    ensures { result ≡ 10 ^ exponent }
{
    match exponent {
        0 => 1,
        1 => 10,
        2 => 100,
        3 => 1_000,
        4 => 10_000,
        5 => 100_000,
        _ => 1_000_000,
    }
}

/// Appends the decimal digits of a whole number.
pub fn push_number(text: &mut Vec<u8>, number: u64) -> Result<(), AllocError>
    ensures { OnOk result (text.new.items ≡ text.old.items ++ decimal number) }
{
    let mut digits = Buffer::new();
    text.extend_from_slice(digits.format(number).as_bytes())
}

/// Appends so many millionths as a decimal: whole units, and the fraction if there is one.
#[tactic(auto, unfolding(crate::specs::Number::size_text))]
pub fn push_millionths(text: &mut Vec<u8>, millionths: u64) -> Result<(), AllocError>
    ensures { OnOk result (text.new.items ≡ text.old.items ++ size_text millionths) }
{
    push_number(text, millionths / 1_000_000)?;
    push_point_text(text, millionths % 1_000_000)
}

/// The point and the digits behind it, or nothing for 0.
fn push_point_text(text: &mut Vec<u8>, millionths: u64) -> Result<(), AllocError>
    requires { millionths < 1000000 }
    ensures { OnOk result (text.new.items ≡ text.old.items ++ fraction_text millionths) }
{
    if millionths == 0 {
        return Ok(());
    }
    text.push(b'.')?;
    push_fraction(text, millionths)
}

/// The digit of a number that so many others stand behind, and the number that these spell. To divide by a number that
/// is known takes a fraction of the time that it takes by any other.
fn first_digit(number: u64, others: usize) -> (u64, u64)
    requires { others ≤ 5 }
    ensures digit { result.0 ≡ number / 10 ^ others }
    ensures rest { result.1 ≡ number % 10 ^ others }
{
    match others {
        0 => (number, 0),
        1 => (number / 10, number % 10),
        2 => (number / 100, number % 100),
        3 => (number / 1_000, number % 1_000),
        4 => (number / 10_000, number % 10_000),
        _ => (number / 100_000, number % 100_000),
    }
}

/// The digits of the millionths behind the point, as far as some are left.
fn push_fraction(text: &mut Vec<u8>, millionths: u64) -> Result<(), AllocError>
    requires { millionths < 1000000 }
    ensures { OnOk result (text.new.items ≡ text.old.items ++ fraction_digits 6 millionths) }
{
    let mut rest = millionths;
    let mut places = 6;
    while rest != 0 {
        places -= 1;
        let (digit, behind) = first_digit(rest, places);
        text.push(b'0' + digit as u8)?;
        rest = behind;
    }
    Ok(())
}

/// What is written of a number is read as that number.
pub fn spellings_are_read()
    ensures signed { (m : ℤ) → size_of m ≤ MOST → IsNumberText (signed_text m) m }
    ensures plain { (m : ℤ) → size_of m ≤ MOST → IsNumberText (plain_text m) m }
{}

/// A text is one number at most, which is in range.
pub fn numbers_are_unique()
    ensures unique { (t : List ℕ) (m n : ℤ) → IsNumberText t m → IsNumberText t n → m ≡ n }
    ensures range { (t : List ℕ) (m : ℤ) → IsNumberText t m → size_of m ≤ MOST }
{}
