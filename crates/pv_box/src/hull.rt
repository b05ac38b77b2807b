//! The q-hull of boxes (Chabert and Jaulin, 2009): what may lie in at least q of them, place by
//! place.
ghost use Rattle.std.specs.Prelude.{[], IsTrue, Bool, slice_index_or, ◌≡◌, ◌<◌, ◌≤◌, All, length, drop, IfOk, Some, ◌+◌};
ghost use Rattle.pv_interval.specs.Bounds.{Bounds, everything};
ghost use Rattle.pv_box.specs.QHull.{q_hull_of, place_hull_of, column, least_end, greatest_end, count_holding as count_of, is_in_enough, lower_of, upper_of};

use crate::IBox;
use pv_interval::Interval;
use pv_num::{Memory, Num};
use std::alloc::Global;

impl IBox {
    /// In each place what reaches from the least lower end to the greatest upper end that lie in at
    /// least `q` of the intervals; None where a place has no such end.
    #[tactic(auto, unfolding(crate::specs::QHull::q_hull_of))]
    pub fn q_hull(alloc: Global, q: u32, boxes: &[IBox]) -> Result<Option<IBox>, Memory>
        requires some { 0 < length boxes.now }
        requires equal { All (λ b. length b ≡ length (slice_index_or boxes.now 0 [])) boxes.now }
        requires q { 1 ≤ q }
        ensures { IfOk result (λ found. found ≡ q_hull_of q boxes.now) }
    {
        let mut hull = boxes[0].clone_of(alloc)?;
        for i in 0..hull.dims() {
            match place_hull(q, i, boxes) {
                Some(part) => hull.set(i, part),
                None => return Ok(None),
            }
        }
        Ok(Some(hull))
    }
}

// The q-hull of one place.
#[tactic(auto, unfolding(crate::specs::QHull::place_hull_of))]
fn place_hull(q: u32, i: u8, boxes: &[IBox]) -> Option<Interval>
    requires { All (λ b. i < length b) boxes.now }
    ensures { result ≡ place_hull_of q (column i boxes.now) }
{
    let lo = least_lower_end(q, i, boxes, 0)?;
    let hi = greatest_upper_end(q, i, boxes, 0)?;
    Interval::new(lo, hi)
}

// The least lower end, of the boxes from number `at` on, that lies in enough of all.
fn least_lower_end(q: u32, i: u8, boxes: &[IBox], at: usize) -> Option<Num>
    requires places { All (λ b. i < length b) boxes.now }
    requires within { at ≤ length boxes.now }
    ensures { result ≡ least_end q (column i boxes.now) (drop at (column i boxes.now)) }
{
    if at >= boxes.len() {
        return None;
    }
    let end = boxes[at].get(i).lo();
    let best = least_lower_end(q, i, boxes, at + 1);
    lowered(q, i, boxes, end, best)
}

// The greatest upper end, of the boxes from number `at` on, that lies in enough of all.
fn greatest_upper_end(q: u32, i: u8, boxes: &[IBox], at: usize) -> Option<Num>
    requires places { All (λ b. i < length b) boxes.now }
    requires within { at ≤ length boxes.now }
    ensures { result ≡ greatest_end q (column i boxes.now) (drop at (column i boxes.now)) }
{
    if at >= boxes.len() {
        return None;
    }
    let end = boxes[at].get(i).hi();
    let best = greatest_upper_end(q, i, boxes, at + 1);
    raised(q, i, boxes, end, best)
}

// The lesser of this end, where it lies in enough, and the best so far. It is not counted where it
// can't matter.
fn lowered(q: u32, i: u8, boxes: &[IBox], end: Num, best: Option<Num>) -> Option<Num>
    requires { All (λ b. i < length b) boxes.now }
    ensures { result ≡ lower_of (is_in_enough q (column i boxes.now) end) end best }
{
    if is_at_most(&best, end) {
        return best;
    }
    lower(lies_in_enough(q, i, boxes, end), end, best)
}

fn raised(q: u32, i: u8, boxes: &[IBox], end: Num, best: Option<Num>) -> Option<Num>
    requires { All (λ b. i < length b) boxes.now }
    ensures { result ≡ upper_of (is_in_enough q (column i boxes.now) end) end best }
{
    if is_at_least(&best, end) {
        return best;
    }
    upper(lies_in_enough(q, i, boxes, end), end, best)
}

// Whether the best so far is at most an end: then it stays.
#[tactic(auto, using(crate::proofs::Staying::stays_low))]
fn is_at_most(best: &Option<Num>, end: Num) -> bool
    ensures { IsTrue result → (counts : Bool) → lower_of counts end best.now ≡ best.now }
{
    match best {
        Some(other) => *other <= end,
        None => false,
    }
}

#[tactic(auto, using(crate::proofs::Staying::stays_high))]
fn is_at_least(best: &Option<Num>, end: Num) -> bool
    ensures { IsTrue result → (counts : Bool) → upper_of counts end best.now ≡ best.now }
{
    match best {
        Some(other) => end <= *other,
        None => false,
    }
}

// The lesser of this end, where it counts, and the best so far.
fn lower(counts: bool, end: Num, best: Option<Num>) -> Option<Num>
    ensures { result ≡ lower_of counts end best }
{
    if !counts {
        return best;
    }
    match best {
        Some(other) => Some(if end <= other { end } else { other }),
        None => Some(end),
    }
}

// The greater of this end, where it counts, and the best so far.
fn upper(counts: bool, end: Num, best: Option<Num>) -> Option<Num>
    ensures { result ≡ upper_of counts end best }
{
    if !counts {
        return best;
    }
    match best {
        Some(other) => Some(if end <= other { other } else { end }),
        None => Some(end),
    }
}

// Whether a number lies in place `i` of at least `q` boxes.
fn lies_in_enough(q: u32, i: u8, boxes: &[IBox], n: Num) -> bool
    requires { All (λ b. i < length b) boxes.now }
    ensures { result ≡ is_in_enough q (column i boxes.now) n }
{
    q as usize <= count_holding(i, boxes, n, 0)
}

// How many of the boxes from number `at` on hold a number in place `i`.
fn count_holding(i: u8, boxes: &[IBox], n: Num, at: usize) -> usize
    requires places { All (λ b. i < length b) boxes.now }
    requires within { at ≤ length boxes.now }
    ensures count { result ≡ count_of (drop at (column i boxes.now)) n }
    ensures few { result + at ≤ length boxes.now }
{
    if at >= boxes.len() {
        return 0;
    }
    let later = count_holding(i, boxes, n, at + 1);
    if boxes[at].get(i).contains(n) {
        later + 1
    } else {
        later
    }
}
