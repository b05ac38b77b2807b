//! The nodes of a graph.

use pv_expr::{BinaryOp, UnaryOp};

/// A node. Arguments are numbers of earlier nodes.
#[derive(Clone, Copy, Debug, PartialEq, Eq, Hash)]
pub enum Node {
    /// The fraction p/q.
    Constant { p: i128, q: u128 },
    /// The variable of this number.
    Place(u8),
    One(UnaryOp, usize),
    Two(BinaryOp, usize, usize),
}
