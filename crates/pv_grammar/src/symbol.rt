// Tokens as the grammar sees them: names are resolved.

ghost use Rattle.std.specs.Prelude.{◌≡◌, ◌≢◌, None};
ghost use Rattle.std.specs.Bool.{OnTrue, OnFalse};
ghost use Rattle.pv_grammar.specs.Grammar.{factor};
ghost use Rattle.pv_grammar.specs.Counting.{operates};
ghost use Rattle.pv_grammar.specs.Standings.{begins_expression, is_minus};

use crate::cause::Cause;
use pv_code::{Fraction, Op};
use pv_expr::Relation;

/// A token that is always the same.
#[derive(Clone, Copy, Debug, PartialEq, Eq)]
pub enum Fixed {
    Plus,
    Minus,
    Star,
    Slash,
    Caret,
    Open,
    Close,
    OpenBracket,
    CloseBracket,
    Comma,
    Semicolon,
    Constants,
    Variables,
    Constraints,
    Function,
    Return,
    End,
    In,
    Oo,
    EndOfText,
}

/// A token with what its name stands for at its place.
#[derive(Clone, Copy)]
pub enum Symbol {
    /// A token that the grammar has nowhere, with its cause.
    Never(Cause),
    Fixed(Fixed),
    Relation(Relation),
    /// A number, and the exponent that it is where it is digits alone with a value of at most 32.
    Number {
        value: Fraction,
        exponent: Option<u8>,
    },
    /// A name where names are declared; it is taken where it can't be declared once more.
    Declared {
        taken: bool,
    },
    Constant(Fraction),
    Variable(u8),
    Parameter(u8),
    /// A function word or a function's name, with the step of its call and its count of arguments.
    Function {
        op: Op,
        arity: u8,
    },
    /// A name that is not declared for its use.
    Unknown,
}

impl Symbol {
    /// Whether an expression can begin with it.
    pub fn begins(self) -> bool
        ensures no { OnFalse result (factor self ≡ None) }
        ensures yes { OnTrue result (factor self ≢ None) }
        ensures test { result ≡ begins_expression self }
    {
        matches!(
            self,
            Symbol::Fixed(Fixed::Plus | Fixed::Minus | Fixed::Open)
                | Symbol::Number { .. }
                | Symbol::Constant(_)
                | Symbol::Variable(_)
                | Symbol::Parameter(_)
                | Symbol::Function { .. }
                | Symbol::Unknown
        )
    }

    /// Whether it counts as an operation within a constraint or a body.
    pub fn operates(self) -> bool
        ensures { result ≡ operates self }
    {
        matches!(
            self,
            Symbol::Fixed(Fixed::Plus | Fixed::Minus | Fixed::Star | Fixed::Slash | Fixed::Caret)
                | Symbol::Function { .. }
        )
    }

    /// Whether it is `-`.
    pub fn is_minus(self) -> bool
        ensures { result ≡ is_minus self }
    {
        matches!(self, Symbol::Fixed(Fixed::Minus))
    }
}
