// Revisions where something is known of the constraints on the box.

ghost use Rattle.std.specs.Prelude.{◌≡◌, ◌⊎◌, ◌<◌, length, IfOk};
ghost use Rattle.pv_hc4.specs.Judging.{revised_by};
ghost use Rattle.pv_hc4.specs.Revise.{revised};
ghost use Rattle.pv_hc4.specs.declared.revised.Revised.TheVariants.{Empty};
ghost use Rattle.pv_ctc.specs.Contracting.{sides_in, side_at, turns_of, all_revised};
ghost use Rattle.pv_ctc.specs.Facts.{Knows, IsNoted};
ghost use Rattle.pv_ctc.specs.Steps.{IsStep};

use crate::graphs::Graphs;
use crate::known::Known;
use pv_box::IBox;
use pv_hc4::{Judged, Revised, Scratch};
use pv_num::Memory;

// One revision, and what it saw.
fn judge(graphs: &Graphs, i: usize, scratch: &mut Scratch, bx: &mut IBox) -> Result<Judged, Memory>
    requires constraint { i < length graphs.now.graphs }
    requires dims { length bx.old ≡ graphs.now.dims }
    ensures dims { length bx.new ≡ length bx.old }
    ensures noted { IfOk result (λ r. IsNoted (side_at (sides_in graphs.now) i) r bx.old bx.new) }
{
    graphs.graphs[i].judge_in(scratch, bx)
}

fn answer_of(judged: Judged) -> Revised
    ensures { result ≡ revised_by judged }
{
    match judged {
        Judged::Sure | Judged::Kept => Revised::Kept,
        Judged::Changed(_) => Revised::Changed,
        Judged::Empty => Revised::Empty,
    }
}

// One revision, passed over where the constraint is known to leave the box as it is.
pub(crate) fn revise(
    graphs: &Graphs,
    i: usize,
    scratch: &mut Scratch,
    bx: &mut IBox,
    known: &mut Known,
) -> Result<Revised, Memory>
    requires constraint { i < length graphs.now.graphs }
    requires dims { length bx.old ≡ graphs.now.dims }
    requires known { Knows (sides_in graphs.now) known.old bx.old }
    ensures dims { length bx.new ≡ length bx.old }
    ensures step { IfOk result (λ r.
        IsStep (revised (side_at (sides_in graphs.now) i) bx.old) r bx.old bx.new) }
    ensures known { IfOk result (λ r. (r ≡ Empty) ⊎ Knows (sides_in graphs.now) known.new bx.new) }
{
    graphs.learn();
    let _count = graphs.count();
    let _before = bx.dims();
    let number = i as u8;
    if known.settles(number) {
        return Ok(Revised::Kept);
    }
    let judged = judge(graphs, i, scratch, bx)?;
    let _after = bx.dims();
    *known = known.noting(graphs, number, judged);
    Ok(answer_of(judged))
}

// One turn over the constraints.
fn turn(
    graphs: &Graphs,
    scratch: &mut Scratch,
    bx: &mut IBox,
    known: &mut Known,
) -> Result<Revised, Memory>
    requires dims { length bx.old ≡ graphs.now.dims }
    requires known { Knows (sides_in graphs.now) known.old bx.old }
    ensures dims { length bx.new ≡ length bx.old }
    ensures step { IfOk result (λ r.
        IsStep (all_revised (sides_in graphs.now) bx.old) r bx.old bx.new) }
    ensures known { IfOk result (λ r. (r ≡ Empty) ⊎ Knows (sides_in graphs.now) known.new bx.new) }
{
    let mut answer = Revised::Kept;
    for i in 0..graphs.graphs.len() {
        match revise(graphs, i, scratch, bx, known)? {
            Revised::Empty => return Ok(Revised::Empty),
            Revised::Changed => answer = Revised::Changed,
            Revised::Kept => {}
        }
    }
    Ok(answer)
}

// Turns until one changes nothing.
pub(crate) fn propagate(
    turns: u32,
    graphs: &Graphs,
    scratch: &mut Scratch,
    bx: &mut IBox,
    known: &mut Known,
) -> Result<Revised, Memory>
    requires dims { length bx.old ≡ graphs.now.dims }
    requires known { Knows (sides_in graphs.now) known.old bx.old }
    ensures dims { length bx.new ≡ length bx.old }
    ensures step { IfOk result (λ r.
        IsStep (turns_of turns (all_revised (sides_in graphs.now)) bx.old) r bx.old bx.new) }
    ensures known { IfOk result (λ r. (r ≡ Empty) ⊎ Knows (sides_in graphs.now) known.new bx.new) }
{
    let mut answer = Revised::Kept;
    let mut left = turns;
    while left > 0 {
        left -= 1;
        match turn(graphs, scratch, bx, known)? {
            Revised::Empty => return Ok(Revised::Empty),
            Revised::Changed => answer = Revised::Changed,
            Revised::Kept => return Ok(answer),
        }
    }
    Ok(answer)
}
