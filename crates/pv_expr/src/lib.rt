//! Systems of constraints as trees: expressions over numbered variables, relations, domains, and
//! the canonical text of a system.
#![tactic(auto)]

mod canonical;
mod constraint;
mod domain;
mod expr;
mod operators;
mod system;
pub mod text;

pub use constraint::{Constraint, Relation};
pub use domain::{Bound, Domain};
pub use expr::Expr;
pub use operators::{BinaryOp, UnaryOp};
pub use system::{MOST_CONSTRAINTS, MOST_TERM_DEPTH, MOST_TERM_NODES, MOST_VARIABLES, System};
