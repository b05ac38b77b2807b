// The expansion of calls: top-down, over what is used alone.

ghost use Rattle.std.specs.Prelude.{◌≡◌, All, true, ◌∷◌, ◌+◌, [], List, length, map, reverse, take, drop, IfOk, OnOk};
ghost use Rattle.pv_expr.specs.Terms.{Term, term_of, one, two};
ghost use Rattle.pv_code.specs.Expansion.{argument, body_meaning, meaning_of, meanings, run, step, nothing, stacked, RunsAlike, occurs, is_parameter, IsMarked, KeepsBody, Meaning, Stand, sides_of, part_sides, stack_of, code_of, top, below};
ghost use Rattle.pv_code.specs.Sizes.{AreMeasured, IsMeasured, IsShortCall};

use crate::code::Op;
use crate::fraction::Fraction;
use crate::measure::Measure;
use crate::value::{topmost, values};
use pv_expr::{BinaryOp, Constraint, Expr, Relation, UnaryOp};
use pv_num::Memory;
use std::alloc::Global;
use std::mem;

/// A function: its size, and the part of its code that is used.
#[derive(Drop)]
pub struct Function {
    pub measure: Measure,
    /// Which of its parameters its code uses.
    pub uses: Vec<bool>,
    /// The part of its body that is used.
    pub code: Vec<Op>,
}

impl Function {
    /// The function of a body, over the functions before it.
    pub fn of(alloc: Global, functions: &[Function], body: &[Op]) -> Result<Function, Memory>
        requires short { All IsShortCall body.now }
        ensures keeps { IfOk result (λ f. KeepsBody functions.now body.now f) }
        ensures measured { IfOk result (λ f. (ms : List Meaning) → AreMeasured functions.now ms →
            IsMeasured f.measure (body_meaning ms body.now)) }
    {
        let mut left = values(alloc, functions, body)?;
        let value = topmost(alloc, &mut left)?;
        Ok(Function {
            measure: value.measure,
            uses: marks(alloc, value.code.as_slice())?,
            code: value.code,
        })
    }
}

// Which parameters occur.
fn marks(alloc: Global, code: &[Op]) -> Result<Vec<bool>, Memory>
    ensures { IfOk result (λ uses. IsMarked uses.items code.now) }
{
    let mut uses = Vec::new(alloc);
    for i in 0..12 {
        uses.push(occurs(code, i))?;
    }
    Ok(uses)
}

/// The expression that a code leaves on top of the stack, with the arguments in place of the
/// parameters. An argument is moved to where it stands last, and copied elsewhere, so that a chain
/// of calls copies nothing.
#[cycle(expansion)]
fn expand(
    alloc: Global,
    functions: &[Function],
    code: &[Op],
    arguments: &mut [Expr],
) -> Result<Expr, Memory>
    ensures { IfOk result (λ e. term_of e ≡
        top (run (meanings (map code_of functions.now)) (map term_of arguments.old) code.now [])) }
{
    let mut stack: Vec<Expr> = Vec::new(alloc);
    for i in 0..code.len() {
        let rest = &code[i + 1..];
        let made = made_by(alloc, functions, code[i], rest, arguments, &mut stack)?;
        if let Some(value) = made {
            stack.push(value)?;
        }
    }
    Ok(taken(&mut stack))
}

/// The expression of a code that calls no functions.
pub fn expression(alloc: Global, code: &[Op]) -> Result<Expr, Memory>
    ensures { IfOk result (λ e. term_of e ≡ top (run [] [] code.now [])) }
{
    expand(alloc, &[], code, &mut [])
}

/// The constraint of a code that leaves its two sides.
pub fn constraint(
    alloc: Global,
    functions: &[Function],
    code: &[Op],
    relation: Relation,
) -> Result<Constraint, Memory>
    ensures { IfOk result (λ c. (ms : List Meaning) → Stand functions.now ms → sides_of c ≡
        part_sides ms code.now relation) }
{
    let mut sides = values(alloc, functions, code)?;
    let right = topmost(alloc, &mut sides)?;
    let left = topmost(alloc, &mut sides)?;
    Ok(Constraint {
        left: expand(alloc, functions, left.code.as_slice(), &mut [])?,
        relation,
        right: expand(alloc, functions, right.code.as_slice(), &mut [])?,
    })
}

// The value of a step, if it leaves one. The steps after it find the arguments that they name.
#[cycle(expansion)]
fn made_by(
    alloc: Global,
    functions: &[Function],
    op: Op,
    rest: &[Op],
    arguments: &mut [Expr],
    stack: &mut Vec<Expr>,
) -> Result<Option<Expr>, Memory>
    ensures made { IfOk result (λ made. stacked made (stack_of stack.new.items) ≡
        step (meanings (map code_of functions.now)) (map term_of arguments.old) op
        (stack_of stack.old.items)) }
    ensures rest { OnOk result (RunsAlike rest.now (map term_of arguments.old)
        (map term_of arguments.new)) }
{
    Ok(Some(match op {
        Op::Constant(Fraction { p, q }) => Expr::Const { p, q },
        Op::Variable(i) => Expr::Var(i),
        Op::Parameter(i) => argument(alloc, arguments, i, rest)?,
        Op::One(unary) => one(alloc, unary, taken(stack))?,
        Op::Two(binary) => {
            let right = taken(stack);
            two(alloc, binary, taken(stack), right)?
        }
        Op::Call { function, arity } => {
            let mut arguments = last(stack, arity)?;
            called(alloc, functions, function, arguments.as_mut_slice())?
        }
        Op::Define | Op::Relate(_) => return Ok(None),
    }))
}

#[cycle(expansion)]
fn called(
    alloc: Global,
    functions: &[Function],
    function: u8,
    arguments: &mut [Expr],
) -> Result<Expr, Memory>
    ensures { IfOk result (λ e. term_of e ≡
        meaning_of (meanings (map code_of functions.now)) function (map term_of arguments.old)) }
{
    let i = function as usize;
    if i >= functions.len() {
        return Ok(nothing());
    }
    let code = functions[i].code.as_slice();
    Ok(expand(alloc, &functions[..i], code, arguments)?)
}

// The last `n`, in the order in which they were put there.
fn last(stack: &mut Vec<Expr>, n: u8) -> Result<Vec<Expr>, Memory>
    ensures values { IfOk result (λ es. map term_of es.items ≡
        reverse (take n (stack_of stack.old.items))) }
    ensures stack { IfOk result (λ es. stack_of stack.new.items ≡
        drop n (stack_of stack.old.items)) }
{
    let first = stack.len().saturating_sub(n as usize);
    Ok(stack.split_off(first)?)
}

fn taken(stack: &mut Vec<Expr>) -> Expr
    ensures value { term_of result ≡ top (stack_of stack.old.items) }
    ensures stack { stack_of stack.new.items ≡ below (stack_of stack.old.items) }
{
    match stack.pop() {
        Some(e) => e,
        None => nothing(),
    }
}

// What stands where nothing was written, which no text that is read reaches.
fn nothing() -> Expr
    ensures { term_of result ≡ nothing }
{
    Expr::Const { p: 0, q: 1 }
}

// The argument for a parameter. It is moved where no later step names it, and else copied.
fn argument(alloc: Global, arguments: &mut [Expr], i: u8, rest: &[Op]) -> Result<Expr, Memory>
    ensures value { IfOk result (λ e. term_of e ≡ argument (map term_of arguments.old) i) }
    ensures rest { OnOk result (RunsAlike rest.now (map term_of arguments.old)
        (map term_of arguments.new)) }
{
    let at = i as usize;
    if at >= arguments.len() {
        return Ok(nothing());
    }
    if occurs(rest, i) {
        return Ok(arguments[at].clone_of(alloc)?);
    }
    Ok(mem::replace(&mut arguments[at], nothing()))
}

// Whether some step names a parameter.
fn occurs(code: &[Op], i: u8) -> bool
    ensures { result ≡ occurs i code.now }
{
    code.iter().any(|op| is_parameter(*op, i))
}

fn is_parameter(op: Op, i: u8) -> bool
    ensures { result ≡ is_parameter i op }
{
    matches!(op, Op::Parameter(k) if k == i)
}

fn one(alloc: Global, unary: UnaryOp, a: Expr) -> Result<Expr, Memory>
    ensures { IfOk result (λ e. term_of e ≡ one unary (term_of a)) }
{
    let a = Box::new(alloc, a)?;
    Ok(match unary {
        UnaryOp::Neg => Expr::Neg(a),
        UnaryOp::Abs => Expr::Abs(a),
        UnaryOp::Pow(n) => Expr::Pow(a, n),
    })
}

fn two(alloc: Global, binary: BinaryOp, a: Expr, b: Expr) -> Result<Expr, Memory>
    ensures { IfOk result (λ e. term_of e ≡ two binary (term_of a) (term_of b)) }
{
    let a = Box::new(alloc, a)?;
    let b = Box::new(alloc, b)?;
    Ok(match binary {
        BinaryOp::Add => Expr::Add(a, b),
        BinaryOp::Sub => Expr::Sub(a, b),
        BinaryOp::Mul => Expr::Mul(a, b),
        BinaryOp::Div => Expr::Div(a, b),
        BinaryOp::Min => Expr::Min(a, b),
        BinaryOp::Max => Expr::Max(a, b),
    })
}
