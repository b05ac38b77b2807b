//! Bytes to tokens: the longest match after blanks and comments, the values of numbers, the words
//! that can't be declared, and lines and columns.
#![tactic(auto)]

mod bytes;
mod keyword;
pub mod laws;
mod number;
mod numeral;
mod place;
mod scanner;
mod token;

pub use keyword::{Word, word_of};
pub use number::{Decimal, exponent_of, read_number};
pub use numeral::Parts;
pub use place::line_and_column;
pub use scanner::next_token;
pub use token::{Kind, Token};
