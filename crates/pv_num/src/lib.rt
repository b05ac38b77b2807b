//! Numbers m * 2^e with a mantissa of 62 bits and two infinite ends, in exact arithmetic that
//! rounds to a named side.
#![tactic(auto)]

mod alike;
mod convert;
pub mod laws;
mod magnitude;
mod memory;
mod num;
mod order;
mod product;
mod quotient;
mod root;
mod round;
mod square;
mod sum;
mod text;
mod unlike;

pub use convert::Parts;
pub use memory::Memory;
pub use num::{End, Num};
