// Values of numbers.

ghost use Rattle.std.specs.Prelude.{◌≡◌, ℕ, pos, ◌≤ℤ◌, IfSome, ◌+◌, ◌*◌, ◌^◌, ◌<◌, ◌≤◌, List, ◌++◌, length, min, EachIndex, MatchOption, slice_index};
ghost use Rattle.std.specs.Bool.{MatchBool};
ghost use Rattle.std.specs.Int.{IsGcd};
ghost use Rattle.std.specs.Str.Parse.{digits_value};
ghost use Rattle.pv_expr.specs.Systems.{IsFraction};
ghost use Rattle.pv_tokens.specs.declared.number.Decimal.{Decimal};
ghost use Rattle.pv_tokens.specs.Numbers.{Caps, IsExponentText, IsLowest, IsNumeral, IsRead, IsValue, TooWide, decimal_in};
ghost use Rattle.pv_tokens.specs.Tokens.{IsDigit, IsNumber};

use crate::bytes::{byte_at, is_digit};
use crate::numeral::{Parts, parts_at};

/// A number that no number which is read reaches.
const LIMIT: u128 = 10_000_000_000_000_000_000_000_000_000_000_000_000;

/// The greatest power of ten, and of a tenth, that a number may have.
const MOST: u128 = 36;

/// The number digits·10^(up - down).
#[derive(Clone, Copy, Debug, PartialEq, Eq)]
pub struct Decimal {
    pub digits: u128,
    pub up: u128,
    pub down: u128,
}

/// The value of an unsigned number that is the whole text, as a numerator and a denominator in
/// lowest terms. None where the text is no number or is too wide: D·10^s with s below -36 or above
/// 36, or with more than 37 digits in D and the zeros that s puts after it.
pub fn read_number(text: &[u8]) -> Option<(i128, u128)>
    ensures read { MatchOption result ((d : Decimal) → IsNumeral text.now d → TooWide d) (λ v.
        IsRead text.now v) }
    ensures fraction { IfSome result (λ v. IsFraction v.0 v.1) }
    ensures not_negative { IfSome result (λ v. pos 0 ≤ℤ v.0) }
{
    if !is_digit(byte_at(text, 0)) {
        return None;
    }
    let parts = parts_at(text, 0);
    if parts.end == text.len() {
        value_of(decimal_of(text, parts))
    } else {
        None
    }
}

/// The value of digits alone, where it is at most 32.
pub fn exponent_of(text: &[u8]) -> Option<u8>
    ensures { MatchOption result (¬ ((n : ℕ) × IsExponentText text.now n)) (λ n.
        IsExponentText text.now n) }
{
    if !are_digits(text) {
        return None;
    }
    let n = with_digits(0, text);
    if n <= 32 { Some(n as u8) } else { None }
}

fn are_digits(text: &[u8]) -> bool
    ensures { MatchBool result (EachIndex text.now (λ k. IsDigit (slice_index text.now k)))
        (¬ EachIndex text.now (λ k. IsDigit (slice_index text.now k))) }
{
    text.iter().all(|byte| is_digit(*byte))
}

// The digits and the power of ten of a number, without more of them than `value_of` needs.
fn decimal_of(text: &[u8], parts: Parts) -> Decimal
    requires { IsNumber text.now 0 parts }
    ensures caps { Caps result (decimal_in text.now parts) }
    ensures up { result.up ≤ 10 ^ 37 }
    ensures down { result.down ≤ 10 ^ 38 }
{
    let whole = with_digits(0, &text[0..parts.point]);
    let behind = &text[(parts.point + 1).min(parts.tail)..parts.tail];
    let digits = with_digits(whole, behind);
    let places = behind.len() as u128;
    let power = with_digits(0, &text[parts.power..parts.end]);
    let (up, down) = if parts.negative {
        (0, places + power)
    } else {
        (power, places)
    };
    Decimal { digits, up, down }
}

// A value with more digits after it, or `LIMIT` where that is less.
fn with_digits(mut value: u128, digits: &[u8]) -> u128
    requires least { value ≤ 10 ^ 37 }
    requires digits { EachIndex digits.now (λ k. IsDigit (slice_index digits.now k)) }
    ensures most { result ≤ 10 ^ 37 }
    ensures value { (before : List ℕ) → value ≡ min (10 ^ 37) (digits_value 10 before) → result ≡
        min (10 ^ 37) (digits_value 10 (before ++ digits.now)) }
{
    for digit in digits {
        value = (value * 10 + u128::from(*digit - b'0')).min(LIMIT);
    }
    value
}

// The value in lowest terms, where it is not too wide.
fn value_of(decimal: Decimal) -> Option<(i128, u128)>
    requires up { decimal.up ≤ 10 ^ 37 }
    requires down { decimal.down ≤ 10 ^ 38 }
    ensures value { MatchOption result (TooWide decimal) (λ v. (¬ TooWide decimal) ×
        IsValue decimal v) }
    ensures fraction { IfSome result (λ v. IsFraction v.0 v.1) }
    ensures not_negative { IfSome result (λ v. pos 0 ≤ℤ v.0) }
{
    if decimal.up > decimal.down + MOST || decimal.down > decimal.up + MOST {
        return None;
    }
    let zeros = decimal.up.saturating_sub(decimal.down) as u32;
    let places = decimal.down.saturating_sub(decimal.up) as u32;
    let above = decimal.digits.checked_mul(power_of_ten(zeros))?;
    if above >= LIMIT {
        return None;
    }
    Some(in_lowest_terms(above, power_of_ten(places)))
}

fn power_of_ten(n: u32) -> u128
    requires { n ≤ 37 }
    ensures value { result ≡ 10 ^ n }
    ensures least { 1 ≤ result }
    ensures most { result ≤ 10 ^ 37 }
    ensures lower { n ≤ 36 → result ≤ 10 ^ 36 }
{
    10u128.pow(n)
}

// The quotient a/b in lowest terms.
fn in_lowest_terms(a: u128, b: u128) -> (i128, u128)
    requires above { a < 10 ^ 37 }
    requires below { 0 < b }
    requires most { b ≤ 10 ^ 36 }
    ensures lowest { IsLowest a b result }
    ensures fraction { IsFraction result.0 result.1 }
    ensures not_negative { pos 0 ≤ℤ result.0 }
{
    let common = gcd(a, b);
    ((a / common) as i128, b / common)
}

// The greatest common divisor.
fn gcd(mut a: u128, mut b: u128) -> u128
    ensures { IsGcd a b result }
{
    while b != 0 {
        (a, b) = (b, a % b);
    }
    a
}
