//! Sentences on the faults of a system's text.
use pv_parse::Cause;

/// What is wrong with a text at its fault, and what to write.
pub(crate) fn sentence_on(cause: Cause) -> &'static str {
    match cause {
        Cause::BadByte => "no token begins with this byte",
        Cause::NumberTooWide => {
            "this number is too long: at most 37 digits, and powers of ten from -36 to 36"
        }
        Cause::NotInProfile => "this word of Minibex is outside the profile",
        Cause::UnknownName => {
            "this name is not declared for this use: variables are unknown in functions and bounds"
        }
        Cause::DuplicateName => "this name is declared already",
        Cause::BadExponent => {
            "an exponent is a whole number in digits from 0 to 32: x^-2 is written 1/x^2"
        }
        Cause::TooManyVariables => {
            "this is a 13th variable; 12 are taken: put an expression in place of one"
        }
        Cause::TooManyConstraints => {
            "a 65th constraint begins here; 64 are taken: a <= 0 and b <= 0 can be one as max(a, b) <= 0"
        }
        Cause::TooManyFunctions => "a 65th function begins here; 64 are taken",
        Cause::TooDeep => {
            "here the 101st level opens, or the 1,001st operation stands: put a part into a function"
        }
        Cause::Unexpected => "this can't stand here",
        Cause::EndOfText => "the text ends too early",
        Cause::BadBounds => "this domain is empty or lies at infinity",
        Cause::TextTooLong => "the text has more than 65,536 bytes",
        Cause::TooLarge => {
            "with this constraint the system, functions written out, has more than 65,536 nodes, or it is deeper than 2,000"
        }
    }
}

/// What to write in place of a word of Minibex that is outside the profile.
pub(crate) fn instead_of(word: &[u8]) -> Option<&'static str> {
    match word {
        b"sqrt" | b"root" => Some("a variable r >= 0 with r^2 (or r^n) equal to the argument"),
        b"sin" | b"cos" => Some("two variables c and s in [-1,1] with c^2 + s^2 = 1"),
        b"tan" => Some("a variable for the tangent, or for that of half the angle"),
        b"exp" | b"log" | b"ln" => Some("a variable for the value itself"),
        b"pi" => Some("a variable in [3.14159265358979323, 3.14159265358979324]"),
        b"minimize" | b"Minimize" => Some(
            "leave the line out, and ask: paver least SYSTEM --of=OBJECTIVE",
        ),
        b"maximize" | b"Maximize" => {
            Some("leave the line out, and ask: paver least SYSTEM --of='-(OBJECTIVE)'")
        }
        _ => None,
    }
}
