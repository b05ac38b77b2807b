//! Whether every point of a box is a member of a program's set, as the intervals show.

ghost use Rattle.std.specs.Prelude.{◌≡◌, ℕ, ◌<◌, ◌≤◌, length, nat_le, IfOk, IsTrue};
ghost use Rattle.pv_hc4.specs.Totality.{sure_of};
ghost use Rattle.pv_ctc.specs.Contracting.{sides_in, side_at};
ghost use Rattle.pv_ctc.specs.Facts.{Knows};
ghost use Rattle.pv_ctc.specs.Members.{AreMembers};
ghost use Rattle.pv_ctc.specs.Plans.{plan_of, plans_of, IsFor, AreFor};
ghost use Rattle.pv_ctc.specs.Sureness.{program_sure, parts_sure, constraints_sure, all_true, count_true};

use crate::graphs::Graphs;
use crate::known::Known;
use crate::program::Program;
use pv_box::IBox;
use pv_hc4::Scratch;
use pv_num::Memory;
use std::alloc::Global;

impl Program {
    /// Whether the program is sure on a box: where it is, every point of the box is in the
    /// program's set.
    pub fn sure(&self, alloc: Global, graphs: &Graphs, bx: &IBox) -> Result<bool, Memory>
        requires program { IsFor (length graphs.now.graphs) (plan_of self.now) }
        requires dims { length bx.now ≡ graphs.now.dims }
        ensures answer { IfOk result (λ t. t ≡
            program_sure (sides_in graphs.now) (plan_of self.now) bx.now) }
        ensures members { IfOk result (λ t. IsTrue t →
            AreMembers (sides_in graphs.now) (plan_of self.now) bx.now) }
    {
        graphs.learn();
        let mut scratch = Scratch::new(alloc);
        let mut known = Known::nothing();
        is_sure(self, graphs, &mut scratch, bx, &mut known)
    }

    /// As `sure`, where something is known of the constraints on the box: only those are tested of
    /// which nothing is known. Afterwards the ones that were found to be sure are known to be.
    pub fn sure_knowing(
        &self,
        graphs: &Graphs,
        scratch: &mut Scratch,
        bx: &IBox,
        known: &mut Known,
    ) -> Result<bool, Memory>
        requires program { IsFor (length graphs.now.graphs) (plan_of self.now) }
        requires dims { length bx.now ≡ graphs.now.dims }
        requires known { Knows (sides_in graphs.now) known.old bx.now }
        ensures answer { IfOk result (λ t. t ≡
            program_sure (sides_in graphs.now) (plan_of self.now) bx.now) }
        ensures known { Knows (sides_in graphs.now) known.new bx.now }
    {
        is_sure(self, graphs, scratch, bx, known)
    }
}

#[cycle(testing)]
fn is_sure(
    program: &Program,
    graphs: &Graphs,
    scratch: &mut Scratch,
    bx: &IBox,
    known: &mut Known,
) -> Result<bool, Memory>
    requires program { IsFor (length graphs.now.graphs) (plan_of program.now) }
    requires dims { length bx.now ≡ graphs.now.dims }
    requires known { Knows (sides_in graphs.now) known.old bx.now }
    ensures answer { IfOk result (λ t. t ≡
        program_sure (sides_in graphs.now) (plan_of program.now) bx.now) }
    ensures known { Knows (sides_in graphs.now) known.new bx.now }
{
    match program {
        Program::Hc4(i) => constraint_is_sure(graphs, *i as usize, scratch, bx, known),
        Program::Compose(parts) => all_are_sure(parts, graphs, scratch, bx, known),
        Program::Union(parts) => so_many_are_sure(1, parts, graphs, scratch, bx, known),
        Program::QInter(q, parts) => so_many_are_sure(*q, parts, graphs, scratch, bx, known),
        Program::Fix(_, part) => is_sure(part, graphs, scratch, bx, known),
        Program::Prop(_) => constraints_are_sure(graphs, scratch, bx, known),
    }
}

fn constraint_is_sure(
    graphs: &Graphs,
    i: usize,
    scratch: &mut Scratch,
    bx: &IBox,
    known: &mut Known,
) -> Result<bool, Memory>
    requires constraint { i < length graphs.now.graphs }
    requires dims { length bx.now ≡ graphs.now.dims }
    requires known { Knows (sides_in graphs.now) known.old bx.now }
    ensures answer { IfOk result (λ t. t ≡ sure_of (side_at (sides_in graphs.now) i) bx.now) }
    ensures known { Knows (sides_in graphs.now) known.new bx.now }
{
    let _count = graphs.count();
    let number = i as u8;
    if known.sure.has(number) {
        return Ok(true);
    }
    if known.clean.has(number) {
        return Ok(false);
    }
    let sure = graphs.graphs[i].sure_in(scratch, bx)?;
    if sure {
        known.sure = known.sure.with(number);
    }
    Ok(sure)
}

fn constraints_are_sure(
    graphs: &Graphs,
    scratch: &mut Scratch,
    bx: &IBox,
    known: &mut Known,
) -> Result<bool, Memory>
    requires dims { length bx.now ≡ graphs.now.dims }
    requires known { Knows (sides_in graphs.now) known.old bx.now }
    ensures answer { IfOk result (λ t. t ≡
        all_true (constraints_sure (sides_in graphs.now) bx.now)) }
    ensures known { Knows (sides_in graphs.now) known.new bx.now }
{
    for i in 0..graphs.graphs.len() {
        if !constraint_is_sure(graphs, i, scratch, bx, known)? {
            return Ok(false);
        }
    }
    Ok(true)
}

#[cycle(testing)]
fn all_are_sure(
    parts: &[Program],
    graphs: &Graphs,
    scratch: &mut Scratch,
    bx: &IBox,
    known: &mut Known,
) -> Result<bool, Memory>
    requires programs { AreFor (length graphs.now.graphs) (plans_of parts.now) }
    requires dims { length bx.now ≡ graphs.now.dims }
    requires known { Knows (sides_in graphs.now) known.old bx.now }
    ensures answer { IfOk result (λ t. t ≡
        all_true (parts_sure (sides_in graphs.now) (plans_of parts.now) bx.now)) }
    ensures known { Knows (sides_in graphs.now) known.new bx.now }
{
    for part in parts {
        if !is_sure(part, graphs, scratch, bx, known)? {
            return Ok(false);
        }
    }
    Ok(true)
}

// Whether at least q of the parts are sure.
#[cycle(testing)]
fn so_many_are_sure(
    q: u32,
    parts: &[Program],
    graphs: &Graphs,
    scratch: &mut Scratch,
    bx: &IBox,
    known: &mut Known,
) -> Result<bool, Memory>
    requires programs { AreFor (length graphs.now.graphs) (plans_of parts.now) }
    requires dims { length bx.now ≡ graphs.now.dims }
    requires known { Knows (sides_in graphs.now) known.old bx.now }
    ensures answer { IfOk result (λ t. t ≡
        nat_le q (count_true (parts_sure (sides_in graphs.now) (plans_of parts.now) bx.now))) }
    ensures known { Knows (sides_in graphs.now) known.new bx.now }
{
    let mut missing = q;
    for part in parts {
        if missing == 0 {
            return Ok(true);
        }
        if is_sure(part, graphs, scratch, bx, known)? {
            missing -= 1;
        }
    }
    Ok(missing == 0)
}
