// Expressions in postfix form.

use crate::fraction::Fraction;
use pv_expr::{BinaryOp, Relation, UnaryOp};

/// One step of an expression in postfix form: it takes its arguments from a stack and puts its
/// value there.
#[derive(Clone, Copy)]
pub enum Op {
    Constant(Fraction),
    Variable(u8),
    /// A parameter of the function whose body this is.
    Parameter(u8),
    One(UnaryOp),
    Two(BinaryOp),
    /// A call of a function that was declared before, with as many arguments as it has parameters.
    Call { function: u8, arity: u8 },
    /// The end of a function's body, which is the one value on the stack.
    Define,
    /// The end of a constraint, whose sides are the two values on the stack.
    Relate(Relation),
}
