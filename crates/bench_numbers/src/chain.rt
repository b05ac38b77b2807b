// The chains.

ghost use Rattle.std.specs.Prelude.{◌≤◌, ◌≤ℤ◌, pos};

use pv_num::{End, Num, Parts};
use std::alloc::Global;

/// What each step of a chain does.
#[derive(Clone, Copy, PartialEq, Eq)]
pub enum Operation {
    Nothing,
    Fed,
    Add,
    Subtract,
    Multiply,
    Divide,
    Negate,
    Absolute,
    Compare,
    Cube,
    SquareRoot,
    CubeRoot,
    HighRoot,
    Middle,
    Floor,
    Ratio,
    Finite,
    Parts,
    Text,
}

impl Operation {
    pub fn named(word: &str) -> Option<Operation> {
        match word {
            "none" => Some(Operation::Nothing),
            "fed" => Some(Operation::Fed),
            "add" => Some(Operation::Add),
            "sub" => Some(Operation::Subtract),
            "mul" => Some(Operation::Multiply),
            "div" => Some(Operation::Divide),
            "neg" => Some(Operation::Negate),
            "abs" => Some(Operation::Absolute),
            "cmp" => Some(Operation::Compare),
            "pow3" => Some(Operation::Cube),
            "root2" => Some(Operation::SquareRoot),
            "root3" => Some(Operation::CubeRoot),
            "root31" => Some(Operation::HighRoot),
            "middle" => Some(Operation::Middle),
            "floor" => Some(Operation::Floor),
            "ratio" => Some(Operation::Ratio),
            "fin" => Some(Operation::Finite),
            "parts" => Some(Operation::Parts),
            "text" => Some(Operation::Text),
            _ => None,
        }
    }
}

/// The number after `steps` steps from 1 on, rounded down and up in turn.
pub fn last_of(alloc: Global, operation: Operation, steps: u64) -> Num {
    let by = operand(operation);
    match operation {
        Operation::Nothing => Num::ONE,
        Operation::Add => sums(by, steps),
        Operation::Multiply => products(by, steps),
        Operation::Divide => quotients(by, steps),
        Operation::Subtract => differences(by, steps),
        Operation::Text => texts(alloc, by, steps),
        other => others(other, by, steps),
    }
}

// The side to which a step rounds.
#[inline]
fn side_of(step: u64) -> End {
    if step % 2 == 1 { End::Up } else { End::Down }
}

// Each chain that is measured beside other programs has a loop of its own, as it has there.
#[inline(never)]
fn sums(by: Num, steps: u64) -> Num {
    let mut x = Num::ONE;
    for step in 0..steps {
        x = x.add(by, side_of(step));
    }
    x
}

#[inline(never)]
fn products(by: Num, steps: u64) -> Num {
    let mut x = Num::ONE;
    for step in 0..steps {
        x = x.mul(by, side_of(step));
    }
    x
}

#[inline(never)]
fn quotients(by: Num, steps: u64) -> Num {
    let mut x = Num::ONE;
    if by == Num::ZERO {
        return x;
    }
    for step in 0..steps {
        x = x.div(by, side_of(step));
    }
    x
}

// The number and its operand have one sign, so that something cancels at each step.
#[inline(never)]
fn differences(by: Num, steps: u64) -> Num {
    let mut x = Num::ONE;
    for step in 0..steps {
        x = by.sub(x, side_of(step));
    }
    x
}

fn texts(alloc: Global, by: Num, steps: u64) -> Num {
    let mut text = Vec::new(alloc);
    let mut x = Num::ONE;
    for _ in 0..steps {
        x = through_text(&mut text, fed(x, by));
    }
    x
}

fn others(operation: Operation, by: Num, steps: u64) -> Num {
    let mut x = Num::ONE;
    for step in 0..steps {
        x = made(operation, fed(x, by), side_of(step));
    }
    x
}

// 3/2 for sums, a little less than 1 for products and quotients, and 1/3 rounded for all else.
fn operand(operation: Operation) -> Num {
    match operation {
        Operation::Add | Operation::Subtract => Num::fin(3, -1).unwrap_or(Num::ONE),
        Operation::Multiply | Operation::Divide => Num::fin(2305843009213693951, -61).unwrap_or(
            Num::ONE,
        ),
        _ => Num::from_ratio(1, 3, End::Down),
    }
}

// The operand, in such a way that it can't be known before x is: one product and one sum.
fn fed(x: Num, by: Num) -> Num {
    x.mul(Num::ZERO, End::Down).add(by, End::Down)
}

// What a step makes of an operand that does not change.
fn made(operation: Operation, x: Num, side: End) -> Num {
    match operation {
        Operation::Negate => x.neg(),
        Operation::Absolute => x.abs(),
        Operation::Compare => { if x < Num::ONE { x } else { Num::ONE } }
        Operation::Cube => { if Num::ZERO <= x { x.pow(3, side) } else { x } }
        Operation::SquareRoot => root(x, 2, side),
        Operation::CubeRoot => root(x, 3, side),
        Operation::HighRoot => root(x, 31, side),
        Operation::Middle => middle(x),
        Operation::Floor => floor(x),
        Operation::Ratio => Num::from_ratio(picked(x) as i128, 113, side),
        Operation::Finite => Num::fin(picked(x), -2).unwrap_or(x),
        Operation::Parts => through_parts(x),
        _ => x,
    }
}

fn root(x: Num, n: u8, side: End) -> Num
    requires { (1 ≤ n) × (n ≤ 32) }
{
    if Num::ZERO <= x && x < Num::POS_INF {
        x.root(n, side)
    } else {
        x
    }
}

fn middle(x: Num) -> Num {
    if Num::NEG_INF < x && x <= Num::ONE {
        Num::middle(x, Num::ONE).unwrap_or(x)
    } else {
        x
    }
}

fn floor(x: Num) -> Num {
    if Num::ZERO <= x && x <= Num::ONE && x.floor(1) == 0 {
        x
    } else {
        Num::ONE
    }
}

// A whole number that can't be known before x is: one comparison.
fn picked(x: Num) -> i64
    ensures low { pos 0 ≤ℤ result }
    ensures high { result ≤ℤ pos 377 }
{
    if x < Num::ONE { 355 } else { 377 }
}

fn through_parts(x: Num) -> Num {
    match x.parts() {
        Parts::Fin { m, e } => Num::fin(m, e).unwrap_or(x),
        _ => x,
    }
}

fn through_text(text: &mut Vec<u8>, x: Num) -> Num {
    text.clear();
    match x.write_text(text) {
        Ok(()) => Num::read_text(text).unwrap_or(x),
        Err(_) => x,
    }
}
