//! Expressions in postfix form, with calls of functions: how large they are once their calls are
//! expanded, and their expansion to trees.
#![tactic(auto)]

mod code;
mod expand;
mod fraction;
mod measure;
mod value;

pub use code::Op;
pub use expand::{Function, constraint, expression};
pub use fraction::{Fraction, is_quotient_at_most};
pub use measure::{MOST_PARAMETERS, Measure, Place};
pub use value::nodes_with;
