//! Constraints between two expressions.

use crate::expr::Expr;

/// How the two sides of a constraint stand to each other.
#[derive(Clone, Copy, Debug, PartialEq, Eq)]
pub enum Relation {
    /// `=`
    Eq,
    /// `<=`
    Le,
    /// `>=`
    Ge,
    /// `<`
    Lt,
    /// `>`
    Gt,
}

/// `left relation right`.
#[derive(Drop)]
pub struct Constraint {
    pub left: Expr,
    pub relation: Relation,
    pub right: Expr,
}
