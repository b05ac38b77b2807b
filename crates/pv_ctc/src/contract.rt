//! What a program does to a box.

ghost use Rattle.std.specs.Prelude.{◌≡◌, ◌⊎◌, ℕ, ◌+◌, ◌<◌, ◌≤◌, length, [], IfOk, IfSome, OnOk, OnErr, All};
ghost use Rattle.pv_box.specs.Boxes.{IsWithin};
ghost use Rattle.pv_hc4.specs.Revise.{revised};
ghost use Rattle.pv_hc4.specs.declared.revised.Revised.TheVariants.{Empty};
ghost use Rattle.pv_ctc.specs.Contracting.{sides_in, side_at, contract_of, effects, in_order, results, turns_of, all_revised, hull_all, q_hull_all};
ghost use Rattle.pv_ctc.specs.Counters.{raised, RoseAtMost};
ghost use Rattle.pv_ctc.specs.Facts.{Knows};
ghost use Rattle.pv_ctc.specs.Members.{MembersStay};
ghost use Rattle.pv_ctc.specs.Plans.{plan_of, plans_of, IsFor, AreFor};
ghost use Rattle.pv_ctc.specs.Revisions.{revisions, revisions_in_order, revisions_of_all, sum_of_turns, passage};
ghost use Rattle.pv_ctc.specs.Steps.{IsStep};

use crate::counter::{Counter, Uncounted};
use crate::graphs::Graphs;
use crate::hulls::{take_hull, take_q_hull};
use crate::known::Known;
use crate::program::Program;
use crate::{knowing, propagation};
use pv_box::IBox;
use pv_hc4::{Revised, Scratch, Steps};
use pv_num::Memory;
use std::alloc::Global;
use std::sync::ledger::Ledger;

impl Program {
    /// What the program leaves of a box; None where that is empty.
    pub fn contract(
        &self,
        alloc: Global,
        graphs: &Graphs,
        bx: &IBox,
    ) -> Result<Option<IBox>, Memory>
        requires program { IsFor (length graphs.now.graphs) (plan_of self.now) }
        requires dims { length bx.now ≡ graphs.now.dims }
        ensures left { IfOk result (λ o. o ≡
            contract_of (sides_in graphs.now) (plan_of self.now) bx.now) }
        ensures dims { IfOk result (λ o. IfSome o (λ b. length b ≡ length bx.now)) }
        ensures within { IfOk result (λ o. IfSome o (λ b. IsWithin b bx.now)) }
        ensures members { IfOk result
            (MembersStay (sides_in graphs.now) (plan_of self.now) bx.now) }
    {
        self.contract_by(alloc, graphs, bx, &mut Uncounted)
    }

    /// As `contract`; the steps rise by the number of revisions that the contraction needs, and
    /// after want of memory by at most that.
    pub fn contract_counted<L: Ledger>(
        &self,
        alloc: Global,
        graphs: &Graphs,
        bx: &IBox,
        steps: &mut Steps<L>,
    ) -> Result<Option<IBox>, Memory>
        requires program { IsFor (length graphs.now.graphs) (plan_of self.now) }
        requires dims { length bx.now ≡ graphs.now.dims }
        ensures left { IfOk result (λ o. o ≡
            contract_of (sides_in graphs.now) (plan_of self.now) bx.now) }
        ensures dims { IfOk result (λ o. IfSome o (λ b. length b ≡ length bx.now)) }
        ensures within { IfOk result (λ o. IfSome o (λ b. IsWithin b bx.now)) }
        ensures members { IfOk result
            (MembersStay (sides_in graphs.now) (plan_of self.now) bx.now) }
        ensures counted { OnOk result (steps.new ≡
            steps.old + revisions (sides_in graphs.now) (plan_of self.now) bx.now) }
        ensures at_most { OnErr result (steps.new ≤ steps.old + revisions (sides_in graphs.now)
            (plan_of self.now) bx.now) }
        ensures no_fewer { OnErr result (steps.old ≤ steps.new) }
    {
        self.contract_by(alloc, graphs, bx, steps)
    }

    /// As `contract`, with each revision made through a counter, which then tells as many more as
    /// the contraction needs, and after want of memory at most as many.
    pub fn contract_by<C: Counter>(
        &self,
        alloc: Global,
        graphs: &Graphs,
        bx: &IBox,
        counter: &mut C,
    ) -> Result<Option<IBox>, Memory>
        requires program { IsFor (length graphs.now.graphs) (plan_of self.now) }
        requires dims { length bx.now ≡ graphs.now.dims }
        ensures left { IfOk result (λ o. o ≡
            contract_of (sides_in graphs.now) (plan_of self.now) bx.now) }
        ensures dims { IfOk result (λ o. IfSome o (λ b. length b ≡ length bx.now)) }
        ensures within { IfOk result (λ o. IfSome o (λ b. IsWithin b bx.now)) }
        ensures members { IfOk result
            (MembersStay (sides_in graphs.now) (plan_of self.now) bx.now) }
        ensures counted { OnOk result (C.told counter.new ≡
            raised (C.told counter.old)
            (revisions (sides_in graphs.now) (plan_of self.now) bx.now)) }
        ensures at_most { OnErr result (RoseAtMost
            (revisions (sides_in graphs.now) (plan_of self.now) bx.now)
            (C.told counter.old) (C.told counter.new)) }
    {
        graphs.learn();
        let _dims = bx.dims();
        self.left_of(alloc, graphs, bx, counter)
    }

    fn left_of<C: Counter>(
        &self,
        alloc: Global,
        graphs: &Graphs,
        bx: &IBox,
        counter: &mut C,
    ) -> Result<Option<IBox>, Memory>
        requires program { IsFor (length graphs.now.graphs) (plan_of self.now) }
        requires dims { length bx.now ≡ graphs.now.dims }
        ensures left { IfOk result (λ o. o ≡
            contract_of (sides_in graphs.now) (plan_of self.now) bx.now) }
        ensures dims { IfOk result (λ o. IfSome o (λ b. length b ≡ length bx.now)) }
        ensures counted { OnOk result (C.told counter.new ≡
            raised (C.told counter.old)
            (revisions (sides_in graphs.now) (plan_of self.now) bx.now)) }
        ensures at_most { OnErr result (RoseAtMost
            (revisions (sides_in graphs.now) (plan_of self.now) bx.now)
            (C.told counter.old) (C.told counter.new)) }
    {
        let mut scratch = Scratch::new(alloc);
        let mut to = bx.clone_of(alloc)?;
        let mut known = Known::nothing();
        match narrow(
            alloc,
            self,
            graphs,
            &mut scratch,
            &mut to,
            &mut known,
            counter,
        )? {
            Revised::Empty => Ok(None),
            Revised::Kept | Revised::Changed => Ok(Some(to)),
        }
    }

    /// Narrows a box to what `contract` leaves of it, where something is known of the constraints
    /// on the box: what is known to leave it is passed over. Afterwards what is known is true of
    /// the box as it is then. After `Empty` nothing is left, and the box is somewhere between.
    pub fn narrow_knowing(
        &self,
        alloc: Global,
        graphs: &Graphs,
        scratch: &mut Scratch,
        bx: &mut IBox,
        known: &mut Known,
    ) -> Result<Revised, Memory>
        requires program { IsFor (length graphs.now.graphs) (plan_of self.now) }
        requires dims { length bx.old ≡ graphs.now.dims }
        requires known { Knows (sides_in graphs.now) known.old bx.old }
        ensures dims { length bx.new ≡ length bx.old }
        ensures step { IfOk result (λ r.
            IsStep (contract_of (sides_in graphs.now) (plan_of self.now) bx.old) r bx.old bx.new) }
        ensures known { IfOk result (λ r. (r ≡ Empty) ⊎
            Knows (sides_in graphs.now) known.new bx.new) }
    {
        narrow(alloc, self, graphs, scratch, bx, known, &mut Uncounted)
    }
}

// One revision. Where revisions are counted it is made whatever is known.
fn revise_by<C: Counter>(
    graphs: &Graphs,
    i: usize,
    scratch: &mut Scratch,
    bx: &mut IBox,
    known: &mut Known,
    counter: &mut C,
) -> Result<Revised, Memory>
    requires constraint { i < length graphs.now.graphs }
    requires dims { length bx.old ≡ graphs.now.dims }
    requires known { Knows (sides_in graphs.now) known.old bx.old }
    ensures dims { length bx.new ≡ length bx.old }
    ensures step { IfOk result (λ r.
        IsStep (revised (side_at (sides_in graphs.now) i) bx.old) r bx.old bx.new) }
    ensures known { IfOk result (λ r. (r ≡ Empty) ⊎ Knows (sides_in graphs.now) known.new bx.new) }
    ensures counted { OnOk result (C.told counter.new ≡ raised (C.told counter.old) 1) }
    ensures at_most { OnErr result (RoseAtMost 1 (C.told counter.old) (C.told counter.new)) }
{
    if counter.counts() {
        *known = Known::nothing();
        return propagation::revise(graphs, i, scratch, bx, counter);
    }
    knowing::revise(graphs, i, scratch, bx, known)
}

// All constraints in order, repeated until a turn changes nothing. Where revisions are counted none
// is passed over for what was known before.
fn propagate_by<C: Counter>(
    turns: u32,
    graphs: &Graphs,
    scratch: &mut Scratch,
    bx: &mut IBox,
    known: &mut Known,
    counter: &mut C,
) -> Result<Revised, Memory>
    requires dims { length bx.old ≡ graphs.now.dims }
    requires known { Knows (sides_in graphs.now) known.old bx.old }
    ensures dims { length bx.new ≡ length bx.old }
    ensures step { IfOk result (λ r.
        IsStep (turns_of turns (all_revised (sides_in graphs.now)) bx.old) r bx.old bx.new) }
    ensures known { IfOk result (λ r. (r ≡ Empty) ⊎ Knows (sides_in graphs.now) known.new bx.new) }
    ensures counted { OnOk result (C.told counter.new ≡
        raised (C.told counter.old) (length (passage turns (sides_in graphs.now) [] bx.old).made)) }
    ensures at_most { OnErr result
        (RoseAtMost (length (passage turns (sides_in graphs.now) [] bx.old).made)
        (C.told counter.old) (C.told counter.new)) }
{
    if counter.counts() {
        *known = Known::nothing();
        return propagation::propagate(turns, graphs, scratch, bx, counter);
    }
    knowing::propagate(turns, graphs, scratch, bx, known)
}

// Narrows a box by a program. After `Empty` it is somewhere between.
#[cycle(narrowing)]
fn narrow<C: Counter>(
    alloc: Global,
    program: &Program,
    graphs: &Graphs,
    scratch: &mut Scratch,
    bx: &mut IBox,
    known: &mut Known,
    counter: &mut C,
) -> Result<Revised, Memory>
    requires program { IsFor (length graphs.now.graphs) (plan_of program.now) }
    requires dims { length bx.old ≡ graphs.now.dims }
    requires known { Knows (sides_in graphs.now) known.old bx.old }
    ensures dims { length bx.new ≡ length bx.old }
    ensures step { IfOk result (λ r.
        IsStep (contract_of (sides_in graphs.now) (plan_of program.now) bx.old) r bx.old bx.new) }
    ensures known { IfOk result (λ r. (r ≡ Empty) ⊎ Knows (sides_in graphs.now) known.new bx.new) }
    ensures counted { OnOk result (C.told counter.new ≡
        raised (C.told counter.old)
        (revisions (sides_in graphs.now) (plan_of program.now) bx.old)) }
    ensures at_most { OnErr result (RoseAtMost
        (revisions (sides_in graphs.now) (plan_of program.now) bx.old)
        (C.told counter.old) (C.told counter.new)) }
{
    match program {
        Program::Hc4(i) => revise_by(graphs, *i as usize, scratch, bx, known, counter),
        Program::Compose(parts) => narrow_in_order(
            alloc, parts, graphs, scratch, bx, known, counter,
        ),
        Program::Union(parts) => narrow_to_hull(alloc, parts, graphs, scratch, bx, known, counter),
        Program::QInter(q, parts) => narrow_to_q_hull(
            alloc, *q, parts, graphs, scratch, bx, known, counter,
        ),
        Program::Fix(turns, part) => narrow_in_turns(
            alloc, *turns, part, graphs, scratch, bx, known, counter,
        ),
        Program::Prop(turns) => propagate_by(*turns, graphs, scratch, bx, known, counter),
    }
}

// Each part in order.
#[cycle(narrowing)]
fn narrow_in_order<C: Counter>(
    alloc: Global,
    parts: &[Program],
    graphs: &Graphs,
    scratch: &mut Scratch,
    bx: &mut IBox,
    known: &mut Known,
    counter: &mut C,
) -> Result<Revised, Memory>
    requires programs { AreFor (length graphs.now.graphs) (plans_of parts.now) }
    requires dims { length bx.old ≡ graphs.now.dims }
    requires known { Knows (sides_in graphs.now) known.old bx.old }
    ensures dims { length bx.new ≡ length bx.old }
    ensures step { IfOk result (λ r.
        IsStep (in_order (effects (sides_in graphs.now)
        (plans_of parts.now)) bx.old) r bx.old bx.new) }
    ensures known { IfOk result (λ r. (r ≡ Empty) ⊎ Knows (sides_in graphs.now) known.new bx.new) }
    ensures counted { OnOk result (C.told counter.new ≡
        raised (C.told counter.old)
        (revisions_in_order (sides_in graphs.now) (plans_of parts.now) bx.old)) }
    ensures at_most { OnErr result (RoseAtMost
        (revisions_in_order (sides_in graphs.now) (plans_of parts.now) bx.old)
        (C.told counter.old) (C.told counter.new)) }
{
    let mut answer = Revised::Kept;
    for part in parts {
        match narrow(alloc, part, graphs, scratch, bx, known, counter)? {
            Revised::Empty => return Ok(Revised::Empty),
            Revised::Changed => answer = Revised::Changed,
            Revised::Kept => {}
        }
    }
    Ok(answer)
}

// One part, repeated until a turn changes nothing.
#[cycle(narrowing)]
fn narrow_in_turns<C: Counter>(
    alloc: Global,
    turns: u32,
    part: &Program,
    graphs: &Graphs,
    scratch: &mut Scratch,
    bx: &mut IBox,
    known: &mut Known,
    counter: &mut C,
) -> Result<Revised, Memory>
    requires program { IsFor (length graphs.now.graphs) (plan_of part.now) }
    requires dims { length bx.old ≡ graphs.now.dims }
    requires known { Knows (sides_in graphs.now) known.old bx.old }
    ensures dims { length bx.new ≡ length bx.old }
    ensures step { IfOk result (λ r.
        IsStep (turns_of turns (contract_of (sides_in graphs.now)
        (plan_of part.now)) bx.old) r bx.old bx.new) }
    ensures known { IfOk result (λ r. (r ≡ Empty) ⊎ Knows (sides_in graphs.now) known.new bx.new) }
    ensures counted { OnOk result (C.told counter.new ≡
        raised (C.told counter.old)
        (sum_of_turns turns (contract_of (sides_in graphs.now) (plan_of part.now))
        (revisions (sides_in graphs.now) (plan_of part.now)) bx.old)) }
    ensures at_most { OnErr result (RoseAtMost
        (sum_of_turns turns (contract_of (sides_in graphs.now) (plan_of part.now))
        (revisions (sides_in graphs.now) (plan_of part.now)) bx.old)
        (C.told counter.old) (C.told counter.new)) }
{
    let mut answer = Revised::Kept;
    let mut left = turns;
    while left > 0 {
        left -= 1;
        match narrow(alloc, part, graphs, scratch, bx, known, counter)? {
            Revised::Empty => return Ok(Revised::Empty),
            Revised::Changed => answer = Revised::Changed,
            Revised::Kept => return Ok(answer),
        }
    }
    Ok(answer)
}

// The hull of what each part leaves. Clean marks are of one box, so they stay only with that.
#[cycle(narrowing)]
fn narrow_to_hull<C: Counter>(
    alloc: Global,
    parts: &[Program],
    graphs: &Graphs,
    scratch: &mut Scratch,
    bx: &mut IBox,
    known: &mut Known,
    counter: &mut C,
) -> Result<Revised, Memory>
    requires programs { AreFor (length graphs.now.graphs) (plans_of parts.now) }
    requires dims { length bx.old ≡ graphs.now.dims }
    requires known { Knows (sides_in graphs.now) known.old bx.old }
    ensures dims { length bx.new ≡ length bx.old }
    ensures step { IfOk result (λ r.
        IsStep (hull_all (results (effects (sides_in graphs.now)
        (plans_of parts.now)) bx.old)) r bx.old bx.new) }
    ensures known { IfOk result (λ r. (r ≡ Empty) ⊎ Knows (sides_in graphs.now) known.new bx.new) }
    ensures counted { OnOk result (C.told counter.new ≡
        raised (C.told counter.old)
        (revisions_of_all (sides_in graphs.now) (plans_of parts.now) bx.old)) }
    ensures at_most { OnErr result (RoseAtMost
        (revisions_of_all (sides_in graphs.now) (plans_of parts.now) bx.old)
        (C.told counter.old) (C.told counter.new)) }
{
    let found = left_by_each(alloc, parts, graphs, scratch, bx, *known, counter)?;
    let answer = take_hull(alloc, &found, bx)?;
    let _after = bx.dims();
    *known = known.behind(graphs, answer);
    Ok(answer)
}

#[cycle(narrowing)]
fn narrow_to_q_hull<C: Counter>(
    alloc: Global,
    q: u32,
    parts: &[Program],
    graphs: &Graphs,
    scratch: &mut Scratch,
    bx: &mut IBox,
    known: &mut Known,
    counter: &mut C,
) -> Result<Revised, Memory>
    requires q { 1 ≤ q }
    requires programs { AreFor (length graphs.now.graphs) (plans_of parts.now) }
    requires dims { length bx.old ≡ graphs.now.dims }
    requires known { Knows (sides_in graphs.now) known.old bx.old }
    ensures dims { length bx.new ≡ length bx.old }
    ensures step { IfOk result (λ r.
        IsStep (q_hull_all q (results
        (effects (sides_in graphs.now) (plans_of parts.now)) bx.old)) r bx.old bx.new) }
    ensures known { IfOk result (λ r. (r ≡ Empty) ⊎ Knows (sides_in graphs.now) known.new bx.new) }
    ensures counted { OnOk result (C.told counter.new ≡
        raised (C.told counter.old)
        (revisions_of_all (sides_in graphs.now) (plans_of parts.now) bx.old)) }
    ensures at_most { OnErr result (RoseAtMost
        (revisions_of_all (sides_in graphs.now) (plans_of parts.now) bx.old)
        (C.told counter.old) (C.told counter.new)) }
{
    let found = left_by_each(alloc, parts, graphs, scratch, bx, *known, counter)?;
    let answer = take_q_hull(alloc, q, &found, bx)?;
    let _after = bx.dims();
    *known = known.behind(graphs, answer);
    Ok(answer)
}

// What each part leaves of the box, of those that leave something.
#[cycle(narrowing)]
fn left_by_each<C: Counter>(
    alloc: Global,
    parts: &[Program],
    graphs: &Graphs,
    scratch: &mut Scratch,
    bx: &IBox,
    known: Known,
    counter: &mut C,
) -> Result<Vec<IBox>, Memory>
    requires programs { AreFor (length graphs.now.graphs) (plans_of parts.now) }
    requires dims { length bx.now ≡ graphs.now.dims }
    requires known { Knows (sides_in graphs.now) known bx.now }
    ensures dims { IfOk result (λ v. All (λ b. length b ≡ length bx.now) v.items) }
    ensures found { IfOk result (λ v. v.items ≡
        results (effects (sides_in graphs.now) (plans_of parts.now)) bx.now) }
    ensures counted { OnOk result (C.told counter.new ≡
        raised (C.told counter.old)
        (revisions_of_all (sides_in graphs.now) (plans_of parts.now) bx.now)) }
    ensures at_most { OnErr result (RoseAtMost
        (revisions_of_all (sides_in graphs.now) (plans_of parts.now) bx.now)
        (C.told counter.old) (C.told counter.new)) }
{
    let mut found: Vec<IBox> = Vec::new(alloc);
    for part in parts {
        let mut to = bx.clone_of(alloc)?;
        let mut here = known;
        match narrow(alloc, part, graphs, scratch, &mut to, &mut here, counter)? {
            Revised::Empty => {}
            Revised::Kept | Revised::Changed => found.push(to)?,
        }
    }
    Ok(found)
}
