// What a code leaves on the stack: how large each value is with its calls expanded, and the part of
// its code that is used.

ghost use Rattle.std.specs.Prelude.{All, ◌≡◌, ℕ, ◌≤◌, ◌<◌, ◌^◌, List, [], ◌∷◌, ◌++◌, length, reverse, take, drop, IfOk, OnOk};
ghost use Rattle.pv_expr.specs.declared.constraint.Relation.{Relation};
ghost use Rattle.pv_expr.specs.Terms.{Term, one, two};
ghost use Rattle.pv_code.specs.declared.code.Op.{Op};
ghost use Rattle.pv_code.specs.Expansion.{Meaning, argument, below, body_meaning, filtered, is_used, meaning_of, nothing, part_sides, run, step, top};
ghost use Rattle.pv_code.specs.Sizes.{AreMeasured, IsRoom, IsShortCall, IsSize};
ghost use Rattle.pv_code.specs.Values.{AreAll, AreLeft, AreStacked, HasCode, HasSize, Represents, Setting, at};
ghost use Rattle.pv_code.specs.declared.measure.TheConstants.{MOST_PARAMETERS};

use crate::code::Op;
use crate::expand::Function;
use crate::fraction::Fraction;
use crate::measure::{BELOW, Measure, NOWHERE, with_sides};
use pv_num::Memory;
use std::alloc::Global;

/// A value: its size, and the part of its code that is used.
#[derive(Drop)]
pub struct Value {
    pub measure: Measure,
    pub code: Vec<Op>,
}

// What stands where nothing was written, which no text that is read reaches.
const NOTHING: Op = Op::Constant(Fraction { p: 0, q: 1 });

impl Value {
    // Of one step.
    fn of(alloc: Global, measure: Measure, op: Op) -> Result<Value, Memory>
        ensures measure { IfOk result (λ v. v.measure ≡ measure) }
        ensures code { IfOk result (λ v. v.code.items ≡ op ∷ []) }
    {
        let mut code = Vec::new(alloc);
        code.push(op)?;
        Ok(Value { measure, code })
    }

    fn nothing(alloc: Global) -> Result<Value, Memory>
        ensures { IfOk result (λ v. (x : Setting) → Represents x v nothing) }
    {
        Ok(Value::of(alloc, Measure::leaf(), NOTHING)?)
    }
}

/// The values that a code leaves on the stack.
pub(crate) fn values(
    alloc: Global,
    functions: &[Function],
    code: &[Op],
) -> Result<Vec<Value>, Memory>
    ensures { IfOk result (λ stack. AreLeft functions.now code.now stack.items) }
{
    let mut stack: Vec<Value> = Vec::new(alloc);
    for op in code {
        take_step(alloc, functions, *op, &mut stack)?;
    }
    Ok(stack)
}

// Does with the values on the stack what a step does with their terms.
fn take_step(
    alloc: Global,
    functions: &[Function],
    op: Op,
    stack: &mut Vec<Value>,
) -> Result<(), Memory>
    ensures { OnOk result ((code : List Op) (ms : List Meaning) (args ts : List Term) →
        (All IsShortCall code → IsShortCall op) →
        AreStacked (at functions.now ms args code) stack.old.items ts →
        AreStacked (at functions.now ms args code) stack.new.items (step ms args op ts)) }
{
    let made = match op {
        Op::Constant(_) => Value::of(alloc, Measure::leaf(), op)?,
        Op::Variable(_) => Value::of(alloc, Measure::leaf(), op)?,
        Op::Parameter(i) => Value::of(alloc, Measure::of_parameter(i), op)?,
        Op::One(_) => {
            let mut value = topmost(alloc, stack)?;
            value.measure = Measure::leaf().with(&value.measure, BELOW);
            value.code.push(op)?;
            value
        }
        Op::Two(_) => {
            let right = topmost(alloc, stack)?;
            let mut left = topmost(alloc, stack)?;
            left.measure = Measure::leaf()
                .with(&left.measure, BELOW)
                .with(&right.measure, BELOW);
            left.code.extend_from_slice(right.code.as_slice())?;
            left.code.push(op)?;
            left
        }
        Op::Call { function, arity } => {
            let first = stack.len().saturating_sub(arity as usize);
            let arguments = stack.split_off(first)?;
            called(alloc, functions, function, arguments.as_slice())?
        }
        Op::Define | Op::Relate(_) => return Ok(()),
    };
    stack.push(made)?;
    Ok(())
}

/// The value on top of the stack.
pub(crate) fn topmost(alloc: Global, stack: &mut Vec<Value>) -> Result<Value, Memory>
    ensures { IfOk result (λ v. (x : Setting) (ts : List Term) → AreStacked x stack.old.items ts →
        Represents x v (top ts) × AreStacked x stack.new.items (below ts)) }
{
    match stack.pop() {
        Some(value) => Ok(value),
        None => Ok(Value::nothing(alloc)?),
    }
}

// A call, without the code of arguments that the function leaves out.
fn called(
    alloc: Global,
    functions: &[Function],
    function: u8,
    arguments: &[Value],
) -> Result<Value, Memory>
    requires { length arguments.now < 2 ^ 8 }
    ensures { IfOk result (λ v. (code : List Op) (ms : List Meaning) (args ts : List Term) →
        (All IsShortCall code → length ts ≤ MOST_PARAMETERS) →
        AreAll (Represents (at functions.now ms args code)) arguments.now ts →
        Represents (at functions.now ms args code) v (meaning_of ms function ts)) }
{
    match functions.get(function as usize) {
        Some(callee) => Ok(Value {
            measure: measure_of(&callee.measure, arguments),
            code: code_of(alloc, callee, function, arguments)?,
        }),
        None => Ok(Value::nothing(alloc)?),
    }
}

// The measure of a body with these arguments in place of its parameters.
fn measure_of(body: &Measure, arguments: &[Value]) -> Measure
    ensures { (args inner : List Term) (t : Term) → length args ≤ MOST_PARAMETERS →
        AreAll (HasSize args) arguments.now inner →
        IsSize body.now inner t → IsSize result args t }
{
    let mut made = Measure {
        places: [NOWHERE; 13],
    };
    for i in 0..13 {
        made = made.with(&measure_at(arguments, i), body.places[i]);
    }
    made
}

fn measure_at(arguments: &[Value], i: usize) -> Measure
    ensures { (args inner : List Term) → length args ≤ MOST_PARAMETERS →
        AreAll (HasSize args) arguments.now inner →
        IsSize result args (argument inner i) }
{
    match arguments.get(i) {
        Some(argument) => argument.measure,
        None => Measure::leaf(),
    }
}

// The code of a call: of a function that is a parameter alone, the argument's.
fn code_of(
    alloc: Global,
    callee: &Function,
    function: u8,
    arguments: &[Value],
) -> Result<Vec<Op>, Memory>
    requires { length arguments.now < 2 ^ 8 }
    ensures { IfOk result (λ code. (ms inner : List Meaning) (args ts : List Term) →
        ((xs : List Term) → meaning_of ms function xs ≡
        body_meaning inner callee.now.code.items xs) →
        AreAll (HasCode ms args) arguments.now ts → (st : List Term) →
        run ms args code.items st ≡
        meaning_of ms function (filtered callee.now.uses.items ts) ∷ st) }
{
    let uses = callee.uses.as_slice();
    let mut code = Vec::new(alloc);
    if let [Op::Parameter(i)] = callee.code.as_slice() {
        code.extend_from_slice(used_at(uses, arguments, *i as usize))?;
        return Ok(code);
    }
    for i in 0..arguments.len() {
        code.extend_from_slice(used_at(uses, arguments, i))?;
    }
    let arity = arguments.len() as u8;
    code.push(Op::Call { function, arity })?;
    Ok(code)
}

// The code of an argument, or of a constant where it is left out.
fn used_at<'a>(uses: &[bool], arguments: &'a [Value], i: usize) -> &'a [Op]
    ensures { (ms : List Meaning) (args ts : List Term) →
        AreAll (HasCode ms args) arguments.now ts →
        (st : List Term) → run ms args result.now st ≡ argument (filtered uses.now ts) i ∷ st }
{
    match arguments.get(i) {
        Some(argument) if is_used(uses, i) => argument.code.as_slice(),
        _ => &[NOTHING],
    }
}

fn is_used(uses: &[bool], i: usize) -> bool
    ensures { result ≡ is_used uses.now i }
{
    uses.get(i).copied().unwrap_or(true)
}

/// The nodes of all constraints up to and with one, whose code leaves its two sides and has
/// `before` nodes before it. None where they are more than the limit, or where a side is too deep.
pub fn nodes_with(
    alloc: Global,
    functions: &[Function],
    code: &[Op],
    before: u64,
) -> Result<Option<u64>, Memory>
    requires { All IsShortCall code.now }
    ensures { IfOk result (λ nodes. (ms : List Meaning) → AreMeasured functions.now ms →
        (r : Relation) →
        IsRoom before (part_sides ms code.now r) nodes) }
{
    let mut sides = values(alloc, functions, code)?;
    let right = topmost(alloc, &mut sides)?;
    let left = topmost(alloc, &mut sides)?;
    Ok(with_sides(&left.measure, &right.measure, before))
}
