//! From the sides of a constraint to numbered nodes.

ghost use Rattle.std.specs.Prelude.{◌≡◌, ◌≢◌, ℕ, ◌<◌, ◌≤◌, length, IfOk, OnOk, [], Some, IfSome, IfNone, if◌then◌else◌};
ghost use Rattle.std.specs.HashMap.{get};
ghost use Rattle.pv_expr.specs.Terms.{term_of, one, two};
ghost use Rattle.pv_expr.specs.Systems.{IsOver, IsFraction, IsUnary};
ghost use Rattle.pv_hc4.specs.Forward.{constant_of};
ghost use Rattle.pv_hc4.specs.Nodes.{AreOrdered, ReadsBelow, FitsNode, node_at};
ghost use Rattle.pv_hc4.specs.Graphs.{AreReady, IsReady};
ghost use Rattle.pv_hc4.specs.Building.{Grows, Holds};
ghost use Rattle.pv_hc4.specs.Numbers.{same_node, AreNumbered};

use crate::node::Node;
use pv_expr::{BinaryOp, Expr, UnaryOp};
use pv_interval::Interval;
use pv_num::{End, Memory, Num};
use std::alloc::Global;
use std::collections::HashMap;

/// Expressions as numbered nodes, in which no two are equal.
#[derive(Drop)]
pub struct Builder {
    /// The nodes so far, each after those that it reads.
    pub nodes: Vec<Node>,
    /// The intervals of the constants among them.
    pub ready: Vec<Interval>,
    /// The number of each node.
    pub numbers: HashMap<Node, usize>,
}

impl Builder {
    /// No nodes yet. It takes no memory.
    pub fn new(alloc: Global) -> Builder
        ensures nodes { result.nodes.items ≡ [] }
        ensures ready { result.ready.items ≡ [] }
        ensures numbered { AreNumbered result.nodes.items result.numbers }
    {
        Builder {
            nodes: Vec::new(alloc),
            ready: Vec::new(alloc),
            numbers: HashMap::new(alloc),
        }
    }

    // The number of a node that is there already.
    fn find(&self, node: Node) -> Option<usize>
        requires { AreNumbered self.now.nodes.items self.now.numbers }
        ensures found { IfSome result (λ i. (i < length self.now.nodes.items) ×
            (node_at self.now.nodes.items i ≡ node)) }
        ensures missing { IfNone result ((k : ℕ) → k < length self.now.nodes.items →
            node_at self.now.nodes.items k ≢ node) }
    {
        let number = number_in(&self.numbers, node)?;
        if *self.nodes.get(number)? == node {
            return Some(number);
        }
        None
    }

    // Gives a node a number, which is an old one where the node is there already.
    fn number(&mut self, node: Node, own: Interval, dims: u8) -> Result<usize, Memory>
        requires ordered { AreOrdered self.old.nodes.items dims }
        requires ready { AreReady self.old.nodes.items self.old.ready.items }
        requires numbered { AreNumbered self.old.nodes.items self.old.numbers }
        requires reads { ReadsBelow (length self.old.nodes.items) node }
        requires fits { FitsNode dims node }
        requires own { IsReady node own }
        ensures holds { IfOk result (λ i. Holds self.old.nodes.items self.new.nodes.items i node) }
        ensures ordered { OnOk result (AreOrdered self.new.nodes.items dims) }
        ensures ready { OnOk result (AreReady self.new.nodes.items self.new.ready.items) }
        ensures numbered { OnOk result (AreNumbered self.new.nodes.items self.new.numbers) }
    {
        if let Some(number) = self.find(node) {
            return Ok(number);
        }
        let number = self.nodes.len();
        self.nodes.push(node)?;
        self.ready.push(own)?;
        put_number(&mut self.numbers, node, number)?;
        Ok(number)
    }

    /// Adds the nodes of an expression, and gives its number.
    #[cycle(adding)]
    pub fn add(&mut self, e: &Expr, dims: u8) -> Result<usize, Memory>
        requires ordered { AreOrdered self.old.nodes.items dims }
        requires ready { AreReady self.old.nodes.items self.old.ready.items }
        requires numbered { AreNumbered self.old.nodes.items self.old.numbers }
        requires over { IsOver dims (term_of e.now) }
        ensures grows { IfOk result (λ i.
            Grows self.old.nodes.items self.new.nodes.items i (term_of e.now)) }
        ensures ordered { OnOk result (AreOrdered self.new.nodes.items dims) }
        ensures ready { OnOk result (AreReady self.new.nodes.items self.new.ready.items) }
        ensures numbered { OnOk result (AreNumbered self.new.nodes.items self.new.numbers) }
    {
        match e {
            Expr::Const { p, q } => {
                self.number(Node::Constant { p: *p, q: *q }, constant(*p, *q), dims)
            }
            Expr::Var(i) => self.number(Node::Place(*i), Interval::ALL, dims),
            Expr::Add(a, b) => self.add_two(BinaryOp::Add, a, b, dims),
            Expr::Sub(a, b) => self.add_two(BinaryOp::Sub, a, b, dims),
            Expr::Mul(a, b) => self.add_two(BinaryOp::Mul, a, b, dims),
            Expr::Div(a, b) => self.add_two(BinaryOp::Div, a, b, dims),
            Expr::Min(a, b) => self.add_two(BinaryOp::Min, a, b, dims),
            Expr::Max(a, b) => self.add_two(BinaryOp::Max, a, b, dims),
            Expr::Neg(a) => self.add_one(UnaryOp::Neg, a, dims),
            Expr::Abs(a) => self.add_one(UnaryOp::Abs, a, dims),
            Expr::Pow(a, n) => self.add_one(UnaryOp::Pow(*n), a, dims),
        }
    }

    #[cycle(adding)]
    fn add_one(&mut self, op: UnaryOp, a: &Expr, dims: u8) -> Result<usize, Memory>
        requires ordered { AreOrdered self.old.nodes.items dims }
        requires ready { AreReady self.old.nodes.items self.old.ready.items }
        requires numbered { AreNumbered self.old.nodes.items self.old.numbers }
        requires power { IsUnary op }
        requires over { IsOver dims (term_of a.now) }
        ensures grows { IfOk result (λ i.
            Grows self.old.nodes.items self.new.nodes.items i
            (one op (term_of a.now))) }
        ensures ordered { OnOk result (AreOrdered self.new.nodes.items dims) }
        ensures ready { OnOk result (AreReady self.new.nodes.items self.new.ready.items) }
        ensures numbered { OnOk result (AreNumbered self.new.nodes.items self.new.numbers) }
    {
        let a = self.add(a, dims)?;
        self.number(Node::One(op, a), Interval::ALL, dims)
    }

    /// Adds the nodes of an operation on two expressions, and gives its number.
    #[cycle(adding)]
    pub fn add_two(&mut self, op: BinaryOp, a: &Expr, b: &Expr, dims: u8) -> Result<usize, Memory>
        requires ordered { AreOrdered self.old.nodes.items dims }
        requires ready { AreReady self.old.nodes.items self.old.ready.items }
        requires numbered { AreNumbered self.old.nodes.items self.old.numbers }
        requires over_a { IsOver dims (term_of a.now) }
        requires over_b { IsOver dims (term_of b.now) }
        ensures grows { IfOk result (λ i.
            Grows self.old.nodes.items self.new.nodes.items i
            (two op (term_of a.now) (term_of b.now))) }
        ensures ordered { OnOk result (AreOrdered self.new.nodes.items dims) }
        ensures ready { OnOk result (AreReady self.new.nodes.items self.new.ready.items) }
        ensures numbered { OnOk result (AreNumbered self.new.nodes.items self.new.numbers) }
    {
        let a = self.add(a, dims)?;
        let b = self.add(b, dims)?;
        self.number(Node::Two(op, a, b), Interval::ALL, dims)
    }
}

fn number_in(numbers: &HashMap<Node, usize>, node: Node) -> Option<usize>
    ensures { result ≡ get same_node numbers.now node }
{
    numbers.get(&node).copied()
}

fn put_number(numbers: &mut HashMap<Node, usize>, node: Node, number: usize) -> Result<(), Memory>
    ensures { OnOk result ((q : Node) → get same_node numbers.new q ≡
        (if same_node node q then Some number else get same_node numbers.old q)) }
{
    numbers.insert(node, number)?;
    Ok(())
}

// The least interval that holds a constant.
fn constant(p: i128, q: u128) -> Interval
    requires { IsFraction p q }
    ensures { result ≡ constant_of p q }
{
    let low = Num::from_ratio(p, q, End::Down);
    let high = Num::from_ratio(p, q, End::Up);
    match Interval::new(low, high) {
        Some(x) => x,
        None => unreachable!(),
    }
}
