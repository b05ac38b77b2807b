//! Revisions that are counted, by single constraints and by all of them.

ghost use Rattle.std.specs.Prelude.{◌≡◌, ◌⊎◌, ◌↔◌, ℕ, ◌<◌, ◌≤◌, Option, List, length, take, IfOk, OnOk, OnErr, IsFalse, ◌&&◌, false, true, slice_index_or, []};
ghost use Rattle.pv_hc4.specs.Revise.{revised};
ghost use Rattle.pv_hc4.specs.declared.revised.Revised.TheVariants.{Empty};
ghost use Rattle.pv_ctc.specs.Contracting.{sides_in, side_at, turns_of, all_revised};
ghost use Rattle.pv_ctc.specs.Steps.{IsStep};
ghost use Rattle.pv_hc4.specs.Chain.{at};
ghost use Rattle.pv_ctc.specs.Counters.{raised, RoseAtMost};
ghost use Rattle.pv_ctc.specs.Marks.{AreClean, AreMarks, IsTurn};
ghost use Rattle.pv_ctc.specs.Revisions.{Revision, whole_turn, passage, same_places};
ghost use Rattle.pv_ctc.specs.Uses.{AreAlikeFor};

use crate::counter::Counter;
use crate::graphs::Graphs;
use pv_box::{IBox, MOST_PLACES};
use pv_hc4::{Revised, Scratch};
use pv_interval::Interval;
use pv_num::Memory;

// One revision, which is counted.
pub(crate) fn revise<C: Counter>(
    graphs: &Graphs,
    i: usize,
    scratch: &mut Scratch,
    bx: &mut IBox,
    counter: &mut C,
) -> Result<Revised, Memory>
    requires constraint { i < length graphs.now.graphs }
    requires dims { length bx.old ≡ graphs.now.dims }
    ensures dims { length bx.new ≡ length bx.old }
    ensures step { IfOk result (λ r.
        IsStep (revised (side_at (sides_in graphs.now) i) bx.old) r bx.old bx.new) }
    ensures counted { C.told counter.new ≡ raised (C.told counter.old) 1 }
{
    counter.tick();
    graphs.graphs[i].revise_in(scratch, bx)
}

// All constraints in order, repeated until a turn changes nothing.
pub(crate) fn propagate<C: Counter>(
    turns: u32,
    graphs: &Graphs,
    scratch: &mut Scratch,
    bx: &mut IBox,
    counter: &mut C,
) -> Result<Revised, Memory>
    requires dims { length bx.old ≡ graphs.now.dims }
    ensures dims { length bx.new ≡ length bx.old }
    ensures step { IfOk result (λ r.
        IsStep (turns_of turns (all_revised (sides_in graphs.now)) bx.old) r bx.old bx.new) }
    ensures counted { OnOk result (C.told counter.new ≡
        raised (C.told counter.old) (length (passage turns (sides_in graphs.now) [] bx.old).made)) }
    ensures at_most { OnErr result
        (RoseAtMost (length (passage turns (sides_in graphs.now) [] bx.old).made)
        (C.told counter.old) (C.told counter.new)) }
{
    let mut answer = Revised::Kept;
    let mut clean = [false; 64];
    let mut left = turns;
    while left > 0 {
        left -= 1;
        match propagate_once(graphs, &mut clean, scratch, bx, counter)? {
            Revised::Empty => return Ok(Revised::Empty),
            Revised::Changed => answer = Revised::Changed,
            Revised::Kept => return Ok(answer),
        }
    }
    Ok(answer)
}

// One turn over the constraints that are not clean.
fn propagate_once<C: Counter>(
    graphs: &Graphs,
    clean: &mut [bool; 64],
    scratch: &mut Scratch,
    bx: &mut IBox,
    counter: &mut C,
) -> Result<Revised, Memory>
    requires dims { length bx.old ≡ graphs.now.dims }
    requires marks { AreClean (sides_in graphs.now) clean.old bx.old }
    ensures dims { length bx.new ≡ length bx.old }
    ensures step { IfOk result (λ r.
        IsStep (all_revised (sides_in graphs.now) bx.old) r bx.old bx.new) }
    ensures marks { IfOk result (λ r. (r ≡ Empty) ⊎
        AreClean (sides_in graphs.now) clean.new bx.new) }
    ensures turn { IfOk result (λ r. (start : Option ℕ) (made : List Revision) →
        AreMarks (sides_in graphs.now) made clean.old → C.told counter.old ≡
        raised start (length made) →
        IsTurn (sides_in graphs.now) start
        (whole_turn (sides_in graphs.now) made bx.old) r bx.old bx.new clean.new
        (C.told counter.new)) }
    ensures at_most { OnErr result ((start : Option ℕ) (made : List Revision) →
        AreMarks (sides_in graphs.now) made clean.old → C.told counter.old ≡
        raised start (length made) →
        RoseAtMost (length (whole_turn (sides_in graphs.now) made bx.old).made) start
        (C.told counter.new)) }
{
    let mut answer = Revised::Kept;
    for i in 0..graphs.graphs.len() {
        if clean[i] {
            continue;
        }
        let entry = places(bx);
        match revise(graphs, i, scratch, bx, counter)? {
            Revised::Empty => return Ok(Revised::Empty),
            Revised::Kept => clean[i] = true,
            Revised::Changed => {
                unmark(graphs, clean, &entry, bx);
                answer = Revised::Changed;
            }
        }
    }
    Ok(answer)
}

// Takes the marks from the constraints that have a variable whose place is not as it was.
fn unmark(graphs: &Graphs, clean: &mut [bool; 64], entry: &[Interval; MOST_PLACES], bx: &IBox)
    requires dims { length (take (length bx.now) entry.now) ≡ length bx.now }
    ensures { (k : ℕ) → k < length (sides_in graphs.now) → slice_index_or clean.new k false ≡
        (slice_index_or clean.old k false && same_places 0 (side_at (sides_in graphs.now) k)
        (take (length bx.now) entry.now) bx.now) }
{
    let _places = bx.dims();
    for i in 0..graphs.graphs.len() {
        if has_changed(&graphs.uses[i], entry, bx) {
            clean[i] = false;
        }
    }
}

// Whether the place of some of these variables is not as it was.
fn has_changed(uses: &[bool; MOST_PLACES], entry: &[Interval; MOST_PLACES], bx: &IBox) -> bool
    ensures { IsFalse result ↔ AreAlikeFor uses.now entry.now bx.now }
{
    for i in 0..bx.dims() {
        if differs(uses[i as usize], entry[i as usize], place(bx, i)) {
            return true;
        }
    }
    false
}

// Whether a place that is used has another interval now.
fn differs(used: bool, before: Interval, now: Interval) -> bool
    ensures { IsFalse result ↔ (used ≡ true → before ≡ now) }
{
    used && before != now
}

// The places of a box.
fn places(bx: &IBox) -> [Interval; MOST_PLACES]
    ensures { take (length bx.now) result ≡ bx.now }
{
    let mut places = [Interval::ALL; MOST_PLACES];
    for i in 0..bx.dims() {
        places[i as usize] = place(bx, i);
    }
    places
}

fn place(bx: &IBox, i: u8) -> Interval
    requires { i < length bx.now }
    ensures { result ≡ at bx.now i }
{
    bx.get(i)
}
