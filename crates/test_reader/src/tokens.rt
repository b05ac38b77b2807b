// Tokens, values of numbers and places, against tables that regular expressions and fractions made.

mod lexical;

use lexical::{NUMBERS, PLACES, TOKENS};
use pv_tokens::{Token, line_and_column, next_token, read_number};

#[test]
fn numbers(rt: HostRuntime) {
    for (text, value) in NUMBERS {
        assert_eq!(rt; read_number(text), *value);
    }
}

#[test]
fn tokens(rt: HostRuntime) {
    for (text, from, kind, start, end) in TOKENS {
        assert!(rt; *from <= text.len());
        let wanted = Token {
            kind: *kind,
            start: *start,
            end: *end,
        };
        assert_eq!(rt; next_token(text, *from), wanted);
    }
}

#[test]
fn places(rt: HostRuntime) {
    for (text, byte, line, column) in PLACES {
        assert!(rt; *byte <= text.len() && *byte < 1000);
        assert_eq!(rt; line_and_column(text, *byte), (*line, *column));
    }
}
