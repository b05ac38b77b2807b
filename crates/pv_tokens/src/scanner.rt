// Tokens from bytes: blanks and comments between them, and the longest match.

ghost use Rattle.std.specs.Prelude.{◌≡◌, ℕ, ◌+◌, ◌<◌, ◌≤◌, ◌≢◌, ◌⊎◌, length, slice_index, MatchOption};
ghost use Rattle.pv_tokens.specs.Tokens.{Closes, IsLongest, IsNamed, IsNext, Run, Separated, Separates, mark};

use crate::bytes::{byte_at, is_named};
use crate::numeral::parts_at;
use crate::token::{Kind, Token};

/// The token that stands next, at or after a place. Behind the last one it is the end of the text,
/// at the text's length.
pub fn next_token(text: &[u8], from: usize) -> Token
    requires { from ≤ length text.now }
    ensures next { IsNext text.now from result }
    ensures onward { from ≤ result.start }
    ensures ordered { result.start ≤ result.end }
    ensures within { result.end ≤ length text.now }
    ensures progress { result.kind ≢ Kind.End → result.start < result.end }
{
    let start = gap_end(text, from);
    let (kind, end) = word_at(text, start);
    Token { kind, start, end }
}

// Where the blanks and comments from a place on end.
fn gap_end(text: &[u8], from: usize) -> usize
    requires { from ≤ length text.now }
    ensures onward { from ≤ result }
    ensures within { result ≤ length text.now }
    ensures gap { (n : ℕ) × Separated text.now n from result }
    ensures begins { (k : ℕ) → ¬ Separates text.now result k }
{
    let mut at = from;
    while let Some(next) = separator_end(text, at) {
        at = next;
    }
    at
}

// Where the blank or comment that begins at a place ends.
fn separator_end(text: &[u8], at: usize) -> Option<usize>
    requires { at ≤ length text.now }
    ensures { MatchOption result ((k : ℕ) → ¬ Separates text.now at k) (λ end.
        Separates text.now at end × at < end × end ≤ length text.now) }
{
    match byte_at(text, at) {
        b' ' | b'\t' | b'\r' | b'\n' => Some(at + 1),
        b'/' => comment_end(text, at),
        _ => None,
    }
}

// Where the comment that begins at a slash ends.
fn comment_end(text: &[u8], at: usize) -> Option<usize>
    requires slash { slice_index text.now at ≡ 47 }
    ensures { MatchOption result ((k : ℕ) → ¬ Separates text.now at k) (λ end.
        Separates text.now at end × at < end × end ≤ length text.now) }
{
    match byte_at(text, at + 1) {
        b'/' => Some(line_end(text, at + 2)),
        b'*' => Some(close_of(text, at + 2).map_or(text.len(), |close| close + 2)),
        _ => None,
    }
}

// The next line feed, or the end of the text.
fn line_end(text: &[u8], from: usize) -> usize
    requires { from ≤ length text.now }
    ensures onward { from ≤ result }
    ensures within { result ≤ length text.now }
    ensures one_line { (k : ℕ) → from ≤ k → k < result → slice_index text.now k ≢ 10 }
    ensures ends { (result ≡ length text.now) ⊎ (slice_index text.now result ≡ 10) }
{
    for at in from..text.len() {
        if text[at] == b'\n' {
            return at;
        }
    }
    text.len()
}

// The next `*/`, or None where there is none.
fn close_of(text: &[u8], from: usize) -> Option<usize>
    requires { from ≤ length text.now }
    ensures { MatchOption result ((k : ℕ) → from ≤ k → ¬ Closes text.now k) (λ close. from ≤ close ×
        Closes text.now close × ((k : ℕ) → from ≤ k → k < close → ¬ Closes text.now k)) }
{
    for at in from..text.len() {
        if text[at] == b'*' && byte_at(text, at + 1) == b'/' {
            return Some(at);
        }
    }
    None
}

// The longest token that begins at a place.
fn word_at(text: &[u8], start: usize) -> (Kind, usize)
    requires { start ≤ length text.now }
    ensures longest { IsLongest text.now start result.0 result.1 }
{
    if start == text.len() {
        return (Kind::End, start);
    }
    match text[start] {
        b'a'..=b'z' | b'A'..=b'Z' | b'_' => (Kind::Name, name_end(text, start + 1)),
        b'0'..=b'9' => (Kind::Number, parts_at(text, start).end),
        b'<' if byte_at(text, start + 1) == b'=' => (Kind::LessEqual, start + 2),
        b'>' if byte_at(text, start + 1) == b'=' => (Kind::GreaterEqual, start + 2),
        byte => (mark_of(byte), start + 1),
    }
}

// The token of a byte that stands alone.
fn mark_of(byte: u8) -> Kind
    ensures { result ≡ mark byte }
{
    match byte {
        b'<' => Kind::Less,
        b'>' => Kind::Greater,
        b'=' => Kind::Equal,
        b'+' => Kind::Plus,
        b'-' => Kind::Minus,
        b'*' => Kind::Star,
        b'/' => Kind::Slash,
        b'^' => Kind::Caret,
        b'(' => Kind::Open,
        b')' => Kind::Close,
        b'[' => Kind::OpenBracket,
        b']' => Kind::CloseBracket,
        b',' => Kind::Comma,
        b';' => Kind::Semicolon,
        _ => Kind::Bad,
    }
}

// Where the letters, digits and `_` from a place on end.
fn name_end(text: &[u8], from: usize) -> usize
    requires { from ≤ length text.now }
    ensures others { Run IsNamed text.now from result }
    ensures no_more { ¬ IsNamed (slice_index text.now result) }
{
    for at in from..text.len() {
        if !is_named(text[at]) {
            return at;
        }
    }
    text.len()
}
