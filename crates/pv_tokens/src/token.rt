// Tokens of a text.

/// What a token is by its first bytes.
#[derive(Clone, Copy, Debug, PartialEq, Eq)]
pub enum Kind {
    Name,
    Number,
    LessEqual,
    GreaterEqual,
    Less,
    Greater,
    Equal,
    Plus,
    Minus,
    Star,
    Slash,
    Caret,
    Open,
    Close,
    OpenBracket,
    CloseBracket,
    Comma,
    Semicolon,
    /// A byte that begins no other token.
    Bad,
    /// Behind the last token.
    End,
}

/// A token and the bytes that it takes, from `start` up to `end`.
#[derive(Clone, Copy, Debug, PartialEq, Eq)]
pub struct Token {
    pub kind: Kind,
    pub start: usize,
    pub end: usize,
}
