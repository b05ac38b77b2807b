// What can be wrong with a token.

ghost use Rattle.std.specs.Prelude.{◌≡◌};
ghost use Rattle.pv_grammar.specs.Messages.{cause_name};

use std::fmt;

/// What is wrong with the token at a fault.
#[derive(Clone, Copy, Debug, PartialEq, Eq)]
pub enum Cause {
    /// A byte that begins no token.
    BadByte,
    /// A number with too many digits or too large an exponent.
    NumberTooWide,
    /// A word of Minibex that is not read here.
    NotInProfile,
    /// A name that is not declared for its use.
    UnknownName,
    /// A name that is declared once more.
    DuplicateName,
    /// No whole number from 0 to 32 after `^`.
    BadExponent,
    /// The name of a 13th variable.
    TooManyVariables,
    /// The first token of a 65th constraint.
    TooManyConstraints,
    /// The 101st level of parentheses, or the 1,001st operation of a constraint or body.
    TooDeep,
    /// A token that the grammar does not allow there.
    Unexpected,
    /// The end of the text where more is wanted.
    EndOfText,
    /// A domain whose bounds are no interval.
    BadBounds,
    /// A text of more than 65,536 bytes.
    TextTooLong,
    /// A constraint with which the system has more than 65,536 nodes, or that is deeper than 2,000.
    TooLarge,
    /// The 65th function.
    TooManyFunctions,
}

impl Cause {
    /// The cause's name, as messages print it.
    pub fn name(self) -> &'static str
        ensures { result.now ≡ cause_name self }
    {
        match self {
            Cause::BadByte => "BadByte",
            Cause::NumberTooWide => "NumberTooWide",
            Cause::NotInProfile => "NotInProfile",
            Cause::UnknownName => "UnknownName",
            Cause::DuplicateName => "DuplicateName",
            Cause::BadExponent => "BadExponent",
            Cause::TooManyVariables => "TooManyVariables",
            Cause::TooManyConstraints => "TooManyConstraints",
            Cause::TooDeep => "TooDeep",
            Cause::Unexpected => "Unexpected",
            Cause::EndOfText => "EndOfText",
            Cause::BadBounds => "BadBounds",
            Cause::TextTooLong => "TextTooLong",
            Cause::TooLarge => "TooLarge",
            Cause::TooManyFunctions => "TooManyFunctions",
        }
    }
}

impl fmt::Display for Cause {
    fn fmt<W: fmt::Write>(&self, f: &mut fmt::Formatter<W>) -> fmt::Result {
        f.write_str(self.name())
    }
}
