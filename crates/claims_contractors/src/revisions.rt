//! What the graph of a constraint promises, and a revision by it.
ghost use Rattle.std.specs.Prelude.{◌≡◌, ◌+◌, IsTrue, length, IfOk};
ghost use Rattle.pv_hc4.specs.Forward.{binary_of};
ghost use Rattle.pv_hc4.specs.Graphs.{sides_of, IsAnswer};
ghost use Rattle.pv_hc4.specs.Judging.{revised_by, is_sure_by, MarksChanged};
ghost use Rattle.pv_hc4.specs.Members.{HoldsOn, LosesNoPoint};
ghost use Rattle.pv_hc4.specs.Numbers.{CountsParts};
ghost use Rattle.pv_hc4.specs.Revise.{revised};
ghost use Rattle.pv_hc4.specs.Totality.{forward_sides, sure_of};

use pv_box::IBox;
use pv_expr::BinaryOp;
use pv_hc4::forward::binary;
use pv_hc4::{Forward, Graph, Judged, Revised, Scratch, Steps};
use pv_interval::Interval;
use pv_num::Memory;
use std::alloc::Global;
use std::sync::ledger::Ledger;

/// The interval of an operation on two intervals; None where a divisor is [0,0].
pub fn of_operation(op: BinaryOp, x: Interval, y: Interval) -> Option<Interval>
    ensures { result ≡ binary_of op x y }
{
    binary(op, x, y)
}

/// The number of different subexpressions of a constraint.
pub fn size(graph: &Graph) -> u64
    ensures { CountsParts (sides_of graph.now) result }
{
    graph.node_count()
}

/// The intervals of both sides on a box, and whether no divisor may be 0 there.
pub fn sides(graph: &Graph, alloc: Global, bx: &IBox) -> Result<Option<Forward>, Memory>
    requires { length bx.now ≡ graph.now.dims }
    ensures { IfOk result (λ f. f ≡ forward_sides (sides_of graph.now) bx.now) }
{
    graph.forward(alloc, bx)
}

/// Whether a constraint holds at every point of a box, as the intervals of its sides show.
pub fn is_sure(graph: &Graph, alloc: Global, bx: &IBox) -> Result<bool, Memory>
    requires { length bx.now ≡ graph.now.dims }
    ensures answer { IfOk result (λ r. r ≡ sure_of (sides_of graph.now) bx.now) }
    ensures holds { IfOk result (λ r. IsTrue r → HoldsOn (sides_of graph.now) bx.now) }
{
    graph.sure(alloc, bx)
}

/// What a revision leaves of a box, and what it says of that.
pub fn narrow(graph: &Graph, alloc: Global, bx: &mut IBox) -> Result<Revised, Memory>
    requires { length bx.old ≡ graph.now.dims }
    ensures answer { IfOk result (λ r.
        IsAnswer (revised (sides_of graph.now) bx.old) r bx.old bx.new) }
{
    graph.revise(alloc, bx)
}

/// Each point of the box at which the constraint holds lies in what a revision leaves.
pub fn keep_points(graph: &Graph, alloc: Global, part: &mut IBox) -> Result<Revised, Memory>
    requires { length part.old ≡ graph.now.dims }
    ensures points { IfOk result (λ r. LosesNoPoint (sides_of graph.now) r part.old part.new) }
{
    graph.revise(alloc, part)
}

/// A revision is one step more.
pub fn narrow_counted<L: Ledger>(
    graph: &Graph,
    alloc: Global,
    bx: &mut IBox,
    steps: &mut Steps<L>,
) -> Result<Revised, Memory>
    requires { length bx.old ≡ graph.now.dims }
    ensures counted { steps.new ≡ steps.old + 1 }
{
    graph.revise_counted(alloc, bx, steps)
}

/// What a revision sees: whether the constraint is sure on the box, and which places became
/// narrower.
pub fn judge(graph: &Graph, scratch: &mut Scratch, bx: &mut IBox) -> Result<Judged, Memory>
    requires { length bx.old ≡ graph.now.dims }
    ensures sure { IfOk result (λ r. is_sure_by r ≡ sure_of (sides_of graph.now) bx.old) }
    ensures changed { IfOk result (λ r. MarksChanged r bx.old bx.new) }
{
    graph.judge_in(scratch, bx)
}

/// What a revision did to a box, by what it saw.
pub fn done_by(judged: Judged) -> Revised
    ensures { result ≡ revised_by judged }
{
    judged.revised()
}
