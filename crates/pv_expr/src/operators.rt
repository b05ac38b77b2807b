//! The operations of expressions, which codes, graphs and definitions name alike.

/// An operation of one argument.
#[derive(Clone, Copy, Debug, PartialEq, Eq, Hash)]
pub enum UnaryOp {
    Neg,
    Abs,
    /// A power with a whole exponent from 0 to 32. The power 0 is 1.
    Pow(u8),
}

/// An operation of two arguments.
#[derive(Clone, Copy, Debug, PartialEq, Eq, Hash)]
pub enum BinaryOp {
    Add,
    Sub,
    Mul,
    /// Undefined where the divisor is 0.
    Div,
    Min,
    Max,
}
