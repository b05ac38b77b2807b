//! Expressions as trees.

ghost use Rattle.std.specs.Prelude.{◌≡◌, IfOk};
ghost use Rattle.pv_expr.specs.Terms.{term_of};

use pv_num::Memory;
use std::alloc::Global;

/// An expression over the variables of a system, which are numbered from 0.
#[derive(Drop)]
pub enum Expr {
    /// `p/q` in lowest terms, where the absolute value of p is below 10^37 and q is from 1 to
    /// 10^36.
    Const { p: i128, q: u128 },
    Var(u8),
    Add(Box<Expr>, Box<Expr>),
    Sub(Box<Expr>, Box<Expr>),
    Mul(Box<Expr>, Box<Expr>),
    /// Undefined where the divisor is 0.
    Div(Box<Expr>, Box<Expr>),
    Min(Box<Expr>, Box<Expr>),
    Max(Box<Expr>, Box<Expr>),
    Neg(Box<Expr>),
    Abs(Box<Expr>),
    /// A power with a whole exponent from 0 to 32. The power 0 is 1.
    Pow(Box<Expr>, u8),
}

impl Expr {
    /// An equal expression.
    #[cycle(copying)]
    pub fn clone_of(&self, alloc: Global) -> Result<Expr, Memory>
        ensures { IfOk result (λ e. term_of e ≡ term_of self.now) }
    {
        match self {
            Expr::Const { p, q } => Ok(Expr::Const { p: *p, q: *q }),
            Expr::Var(i) => Ok(Expr::Var(*i)),
            Expr::Add(a, b) => Ok(Expr::Add(boxed_clone(alloc, a)?, boxed_clone(alloc, b)?)),
            Expr::Sub(a, b) => Ok(Expr::Sub(boxed_clone(alloc, a)?, boxed_clone(alloc, b)?)),
            Expr::Mul(a, b) => Ok(Expr::Mul(boxed_clone(alloc, a)?, boxed_clone(alloc, b)?)),
            Expr::Div(a, b) => Ok(Expr::Div(boxed_clone(alloc, a)?, boxed_clone(alloc, b)?)),
            Expr::Min(a, b) => Ok(Expr::Min(boxed_clone(alloc, a)?, boxed_clone(alloc, b)?)),
            Expr::Max(a, b) => Ok(Expr::Max(boxed_clone(alloc, a)?, boxed_clone(alloc, b)?)),
            Expr::Neg(a) => Ok(Expr::Neg(boxed_clone(alloc, a)?)),
            Expr::Abs(a) => Ok(Expr::Abs(boxed_clone(alloc, a)?)),
            Expr::Pow(a, n) => Ok(Expr::Pow(boxed_clone(alloc, a)?, *n)),
        }
    }
}

#[cycle(copying)]
fn boxed_clone(alloc: Global, e: &Expr) -> Result<Box<Expr>, Memory>
    ensures { IfOk result (λ b. term_of b.value ≡ term_of e.now) }
{
    let copy = e.clone_of(alloc)?;
    Ok(Box::new(alloc, copy)?)
}
