//! What tokens, numbers and places of a text promise.
ghost use Rattle.std.specs.Prelude.{◌≡◌, ℕ, ◌<◌, ◌≤◌, ◌^◌, ◌≤ℤ◌, pos, length, IfSome, MatchOption};
ghost use Rattle.pv_expr.specs.Systems.{IsFraction};
ghost use Rattle.pv_tokens.specs.declared.number.Decimal.{Decimal};
ghost use Rattle.pv_tokens.specs.Numbers.{IsExponentText, IsNumeral, IsRead, TooWide};
ghost use Rattle.pv_tokens.specs.Places.{column_of, line_of};
ghost use Rattle.pv_tokens.specs.Tokens.{IsNext};
ghost use Rattle.pv_tokens.specs.Words.{word_in};

use pv_tokens::{Token, Word, exponent_of, line_and_column, next_token, read_number, word_of};

/// The word that a name is; None where a text may declare it.
pub fn word(name: &[u8]) -> Option<Word>
    ensures { result ≡ word_in name.now }
{
    word_of(name)
}

/// The token that stands next, at or after a place.
pub fn token(text: &[u8], from: usize) -> Token
    requires { from ≤ length text.now }
    ensures { IsNext text.now from result }
{
    next_token(text, from)
}

/// The line and the column of a byte.
pub fn place(text: &[u8], byte: usize) -> (u32, u32)
    requires within { byte ≤ length text.now }
    requires short { byte < 2 ^ 31 }
    ensures line { result.0 ≡ line_of text.now byte }
    ensures column { result.1 ≡ column_of text.now byte }
{
    line_and_column(text, byte)
}

/// The value of a number in lowest terms; None where it is none or too wide.
pub fn number(text: &[u8]) -> Option<(i128, u128)>
    ensures read { MatchOption result ((d : Decimal) → IsNumeral text.now d → TooWide d) (λ v.
        IsRead text.now v) }
    ensures fraction { IfSome result (λ v. IsFraction v.0 v.1) }
    ensures not_negative { IfSome result (λ v. pos 0 ≤ℤ v.0) }
{
    read_number(text)
}

/// The value of digits alone, where an exponent may have it.
pub fn exponent(text: &[u8]) -> Option<u8>
    ensures { MatchOption result (¬ ((n : ℕ) × IsExponentText text.now n)) (λ n.
        IsExponentText text.now n) }
{
    exponent_of(text)
}
