//! The tokens of a program's text.

ghost use Rattle.std.specs.Prelude.{◌≡◌, ◌+◌, ◌*◌, ◌<◌, ◌≤◌, ◌^◌, [], ◌∷◌, length, take, drop, get_or, IfSome, IfNone, slice_index};
ghost use Rattle.std.specs.List.{prefix_len};
ghost use Rattle.std.specs.Str.{bytes_eq};
ghost use Rattle.std.specs.Str.Parse.{AllDigits, digits_value};
ghost use Rattle.pv_ctc.specs.Symbols.{tokens_at, behind, name_token, digits_token, mark_token, leads_with_zero, is_letter, is_named, is_digit};
ghost use Rattle.pv_ctc.specs.Words.{StandsBefore, Spells};

/// The first word of a program.
#[derive(Clone, Copy, PartialEq, Eq)]
pub enum Word {
    Hc4,
    Compose,
    Union,
    QInter,
    Fix,
    Prop,
}

/// A token. A number with a leading zero, or of more than 32 bits, is `TooBig`, and no range of a
/// number has it.
#[derive(Clone, Copy, PartialEq, Eq)]
pub enum Token {
    Word(Word),
    Number(u32),
    TooBig,
    Open,
    Close,
    Comma,
    Bad,
    End,
}

/// The token that begins at a place, and where it ends.
pub fn token_at(text: &[u8], at: usize) -> (Token, usize)
    requires { at ≤ length text.now }
    ensures within { result.1 ≤ length text.now }
    ensures onward { at ≤ result.1 }
    ensures stands { StandsBefore result.0 (drop at text.now) (drop result.1 text.now) }
    ensures first { tokens_at text.now at ≡
        record { place = at; token = result.0 } ∷ behind result.0 (tokens_at text.now result.1) }
{
    if at == text.len() {
        return (Token::End, at);
    }
    if is_letter(text[at]) {
        let end = name_end(text, at + 1);
        return (word_of(&text[at..end]), end);
    }
    if is_digit(text[at]) {
        let end = digits_end(text, at + 1);
        return (number_of(&text[at..end]), end);
    }
    (mark_of(text[at]), at + 1)
}

fn mark_of(byte: u8) -> Token
    ensures spells { Spells result (byte ∷ []) }
    ensures mark { result ≡ mark_token byte }
{
    if byte == b'(' {
        Token::Open
    } else if byte == b')' {
        Token::Close
    } else if byte == b',' {
        Token::Comma
    } else {
        Token::Bad
    }
}

fn is_letter(byte: u8) -> bool
    ensures { result ≡ is_letter byte }
{
    byte.is_ascii_lowercase()
}

// Where the letters and digits from a place on end.
fn name_end(text: &[u8], from: usize) -> usize
    requires { from ≤ length text.now }
    ensures within { result ≤ length text.now }
    ensures run { result ≡ from + prefix_len is_named (drop from text.now) }
{
    for at in from..text.len() {
        if !is_named(text[at]) {
            return at;
        }
    }
    text.len()
}

fn is_named(byte: u8) -> bool
    ensures { result ≡ is_named byte }
{
    is_letter(byte) || is_digit(byte)
}

// Where the digits from a place on end.
fn digits_end(text: &[u8], from: usize) -> usize
    requires { from ≤ length text.now }
    ensures within { result ≤ length text.now }
    ensures run { result ≡ from + prefix_len is_digit (drop from text.now) }
{
    for at in from..text.len() {
        if !is_digit(text[at]) {
            return at;
        }
    }
    text.len()
}

fn is_digit(byte: u8) -> bool
    ensures { result ≡ is_digit byte }
{
    byte.is_ascii_digit()
}

fn word_of(name: &[u8]) -> Token
    ensures spells { Spells result name.now }
    ensures named { result ≡ name_token name.now }
{
    if is_text(name, "hc4") {
        Token::Word(Word::Hc4)
    } else if is_text(name, "compose") {
        Token::Word(Word::Compose)
    } else if is_text(name, "union") {
        Token::Word(Word::Union)
    } else if is_text(name, "qinter") {
        Token::Word(Word::QInter)
    } else if is_text(name, "fix") {
        Token::Word(Word::Fix)
    } else if is_text(name, "prop") {
        Token::Word(Word::Prop)
    } else {
        Token::Bad
    }
}

fn is_text(name: &[u8], text: &str) -> bool
    ensures { result ≡ bytes_eq name.now text.now }
{
    name == text.as_bytes()
}

// The number that digits spell, as it would be written.
fn number_of(digits: &[u8]) -> Token
    requires some { 0 < length digits.now }
    requires digits { AllDigits 10 digits.now }
    ensures spells { Spells result digits.now }
    ensures number { result ≡ digits_token digits.now }
{
    if leads_with_zero(digits) {
        return Token::TooBig;
    }
    match value_of(digits) {
        Some(value) => Token::Number(value),
        None => Token::TooBig,
    }
}

// Whether further digits come after a 0.
fn leads_with_zero(digits: &[u8]) -> bool
    ensures { result ≡ leads_with_zero digits.now }
{
    digits.len() > 1 && digits[0] == b'0'
}

// The value of some digits; None where it has more than 32 bits.
fn value_of(digits: &[u8]) -> Option<u32>
    requires { AllDigits 10 digits.now }
    ensures value { IfSome result (λ n. n ≡ digits_value 10 digits.now) }
    ensures none { IfNone result (2 ^ 32 ≤ digits_value 10 digits.now) }
{
    let mut value: u32 = 0;
    for digit in digits {
        value = next_value(value, *digit)?;
    }
    Some(value)
}

// A number with one more digit at its end; None where it has more than 32 bits.
fn next_value(value: u32, digit: u8) -> Option<u32>
    requires low { 48 ≤ digit }
    requires high { digit ≤ 57 }
    ensures value { IfSome result (λ n. n + 48 ≡ value * 10 + digit) }
    ensures none { IfNone result (2 ^ 32 + 48 ≤ value * 10 + digit) }
{
    value.checked_mul(10)?.checked_add(u32::from(digit - b'0'))
}
