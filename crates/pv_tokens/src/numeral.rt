// The parts of a number in a text.

ghost use Rattle.std.specs.Prelude.{◌≡◌, ℕ, ◌+◌, ◌<◌, ◌≤◌, ◌⊎◌, length, slice_index};
ghost use Rattle.pv_tokens.specs.declared.numeral.Parts.{Parts};
ghost use Rattle.pv_tokens.specs.Tokens.{IsDigit, IsExponent, IsFraction, IsNumber, NoExponent, Run};

use crate::bytes::{byte_at, is_digit};

/// The parts of a number by their places: its first digits go up to `point`, the point and the
/// digits after it up to `tail`, and the digits of its exponent from `power` up to `end`. Without
/// an exponent all three of `tail`, `power` and `end` are its end.
#[derive(Clone, Copy, Debug, PartialEq, Eq)]
pub struct Parts {
    pub point: usize,
    pub tail: usize,
    pub negative: bool,
    pub power: usize,
    pub end: usize,
}

/// The parts of the longest number that begins at a digit.
pub(crate) fn parts_at(text: &[u8], start: usize) -> Parts
    requires { IsDigit (slice_index text.now start) }
    ensures number { IsNumber text.now start result }
    ensures longest { (p : Parts) → IsNumber text.now start p → p.end ≤ result.end }
{
    let point = digits_end(text, start);
    let tail = fraction_end(text, point);
    exponent_at(text, point, tail)
}

// Where the point at a place and the digits after it end.
fn fraction_end(text: &[u8], point: usize) -> usize
    requires { point ≤ length text.now }
    ensures fraction { IsFraction text.now point result }
    ensures longest { (j : ℕ) → IsFraction text.now point j → j ≤ result }
{
    if byte_at(text, point) == b'.' {
        digits_end(text, point + 1)
    } else {
        point
    }
}

// The parts with the exponent that begins at `tail`. It belongs to the number only with a digit.
fn exponent_at(text: &[u8], point: usize, tail: usize) -> Parts
    requires { tail ≤ length text.now }
    ensures point { result.point ≡ point }
    ensures tail { result.tail ≡ tail }
    ensures exponent { NoExponent result ⊎ IsExponent text.now result }
    ensures longest { (p : Parts) → p.tail ≡ tail → IsExponent text.now p → p.end ≤ result.end }
{
    let mut parts = Parts {
        point,
        tail,
        negative: false,
        power: tail,
        end: tail,
    };
    if matches!(byte_at(text, tail), b'e' | b'E') {
        let negative = byte_at(text, tail + 1) == b'-';
        let signed = negative || byte_at(text, tail + 1) == b'+';
        let power = if signed { tail + 2 } else { tail + 1 };
        let end = digits_end(text, power);
        if power < end {
            (parts.negative, parts.power, parts.end) = (negative, power, end);
        }
    }
    parts
}

// Where the digits from a place on end.
fn digits_end(text: &[u8], from: usize) -> usize
    requires { from ≤ length text.now }
    ensures digits { Run IsDigit text.now from result }
    ensures no_more { ¬ IsDigit (slice_index text.now result) }
{
    for at in from..text.len() {
        if !is_digit(text[at]) {
            return at;
        }
    }
    text.len()
}
