// A revision that tells what it saw.

ghost use Rattle.std.specs.Prelude.{◌≡◌, ◌↔◌, IsTrue, ℕ, ◌<◌, ◌≤◌, length, take, false, IfOk, OnErr};
ghost use Rattle.pv_hc4.specs.Graphs.{AreValues, AreReady, IsAnswer, IsGraph, sides_of};
ghost use Rattle.pv_hc4.specs.Nodes.{AreOrdered, terms, term_at};
ghost use Rattle.pv_hc4.specs.Revise.{revised, narrowed_of};
ghost use Rattle.pv_hc4.specs.Resting.{MayRest};
ghost use Rattle.pv_hc4.specs.Totality.{sure_of};
ghost use Rattle.pv_hc4.specs.Judging.{revised_by, is_sure_by, MarksChanged, AreChanged};

use crate::forward::{forward_all, place};
use crate::graph::{Graph, Scratch, fill};
use crate::marks::Marks;
use crate::narrow::narrow;
use crate::node::Node;
use crate::relate::related;
use crate::revise::{first_changed, restore, save};
use crate::revised::Revised;
use crate::total::{decides, is_total};
use pv_box::{IBox, MOST_PLACES};
use pv_expr::Relation;
use pv_interval::Interval;
use pv_num::Memory;

/// What a revision saw of a constraint on a box.
#[derive(Clone, Copy, Debug, PartialEq, Eq)]
pub enum Judged {
    /// It is sure there, and the box is as it was.
    Sure,
    /// It is not sure there, and the box is as it was.
    Kept,
    /// It is not sure there. The marked places became narrower, and no other.
    Changed(Marks),
    /// No point of the box satisfies it.
    Empty,
}

impl Judged {
    /// What the revision did to the box.
    #[inline]
    pub fn revised(self) -> Revised
        ensures { result ≡ revised_by self }
    {
        match self {
            Judged::Sure | Judged::Kept => Revised::Kept,
            Judged::Changed(_) => Revised::Changed,
            Judged::Empty => Revised::Empty,
        }
    }
}

impl Graph {
    /// As `revise_in`, and it says whether the constraint is sure on the box, and which places
    /// became narrower.
    pub fn judge_in(&self, scratch: &mut Scratch, bx: &mut IBox) -> Result<Judged, Memory>
        requires { length bx.old ≡ self.now.dims }
        ensures answer { IfOk result (λ r.
            IsAnswer (revised (sides_of self.now) bx.old) (revised_by r) bx.old bx.new) }
        ensures sure { IfOk result (λ r. is_sure_by r ≡ sure_of (sides_of self.now) bx.old) }
        ensures changed { IfOk result (λ r. MarksChanged r bx.old bx.new) }
        ensures unchanged { OnErr result (bx.new ≡ bx.old) }
    {
        fill(&mut scratch.values, &self.ready)?;
        Ok(judge_values(
            &self.nodes,
            self.left,
            self.relation,
            self.right,
            &mut scratch.values,
            &mut scratch.saved,
            bx,
        ))
    }
}

// The places that are not as they were, where all before `start` are.
fn changed_from(start: u8, entry: &[Interval], bx: &IBox) -> Marks
    requires dims { length bx.now ≡ length entry.now }
    requires before { take start bx.now ≡ take start entry.now }
    ensures { AreChanged result entry.now bx.now }
{
    let mut changed = Marks::none();
    for i in start..bx.dims() {
        if !is_equal(entry[i as usize], place(bx, i)) {
            changed = changed.with(i);
        }
    }
    changed
}

fn is_equal(x: Interval, y: Interval) -> bool
    ensures { IsTrue result ↔ (x ≡ y) }
{
    x == y
}

// Narrows the box by both sides; afterwards it is as before where that is empty.
fn judge_sides(
    nodes: &[Node],
    values: &[Interval],
    left: usize,
    right: usize,
    both: (Interval, Interval),
    rests: bool,
    saved: &mut [Interval; MOST_PLACES],
    bx: &mut IBox,
) -> Judged
    requires rest { MayRest rests bx.old bx.old nodes.now }
    requires ordered { AreOrdered nodes.now (length bx.old) }
    requires left_in { left < length nodes.now }
    requires right_in { right < length nodes.now }
    requires valued { AreValues bx.old nodes.now values.now }
    ensures answer { IsAnswer (narrowed_of bx.old (term_at (terms nodes.now) left)
        (term_at (terms nodes.now) right) both) (revised_by result) bx.old bx.new }
    ensures unsure { is_sure_by result ≡ false }
    ensures changed { MarksChanged result bx.old bx.new }
{
    save(saved, bx);
    let entry = &saved[..bx.dims() as usize];
    if narrow(nodes, values, rests, left, both.0, entry, bx)
        && narrow(nodes, values, rests, right, both.1, entry, bx)
    {
        match first_changed(entry, bx) {
            Some(first) => Judged::Changed(changed_from(first, entry, bx)),
            None => Judged::Kept,
        }
    } else {
        restore(entry, bx);
        Judged::Empty
    }
}

// Whether the constraint between two nodes is sure on the box that the values were made for.
fn is_sure(
    nodes: &[Node],
    values: &[Interval],
    left: usize,
    relation: Relation,
    right: usize,
    bx: &IBox,
) -> bool
    requires graph { IsGraph (record {
      nodes = nodes.now;
      left = left;
      relation = relation;
      right = right;
      dims = length bx.now;
    }) }
    requires valued { AreValues bx.now nodes.now values.now }
    ensures { result ≡ sure_of (sides_of
        (record {
          nodes = nodes.now;
          left = left;
          relation = relation;
          right = right;
          dims = length bx.now;
        })) bx.now }
{
    let _dims = bx.dims();
    decides(relation, values[left], values[right]) && is_total(nodes, values, bx)
}

// Whether a target that is a node's own interval may be left alone: where no divisor contains 0.
fn may_rest(
    nodes: &[Node],
    values: &[Interval],
    left: usize,
    relation: Relation,
    right: usize,
    bx: &IBox,
) -> bool
    requires graph { IsGraph (record {
      nodes = nodes.now;
      left = left;
      relation = relation;
      right = right;
      dims = length bx.now;
    }) }
    requires valued { AreValues bx.now nodes.now values.now }
    ensures { MayRest result bx.now bx.now nodes.now }
{
    let _dims = bx.dims();
    is_total(nodes, values, bx)
}

// Revises the box by the constraint between two nodes. At the entry the values have the constants'.
pub fn judge_values(
    nodes: &[Node],
    left: usize,
    relation: Relation,
    right: usize,
    values: &mut [Interval],
    saved: &mut [Interval; MOST_PLACES],
    bx: &mut IBox,
) -> Judged
    requires graph { IsGraph (record {
      nodes = nodes.now;
      left = left;
      relation = relation;
      right = right;
      dims = length bx.old;
    }) }
    requires ready { AreReady nodes.now values.old }
    ensures answer { IsAnswer (revised
        (sides_of (record {
          nodes = nodes.now;
          left = left;
          relation = relation;
          right = right;
          dims = length bx.old;
        })) bx.old) (revised_by result) bx.old bx.new }
    ensures sure { is_sure_by result ≡
        sure_of (sides_of (record {
          nodes = nodes.now;
          left = left;
          relation = relation;
          right = right;
          dims = length bx.old;
        })) bx.old }
    ensures changed { MarksChanged result bx.old bx.new }
{
    let _dims = bx.dims();
    if !forward_all(nodes, bx, values) {
        return Judged::Empty;
    }
    if is_sure(nodes, values, left, relation, right, bx) {
        return Judged::Sure;
    }
    match related(relation, values[left], values[right]) {
        Some(both) => {
            let rests = may_rest(nodes, values, left, relation, right, bx);
            judge_sides(nodes, values, left, right, both, rests, saved, bx)
        }
        None => Judged::Empty,
    }
}
