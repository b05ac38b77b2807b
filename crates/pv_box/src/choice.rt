//! Where a box is cut, and when it is small.
ghost use Rattle.std.specs.Prelude.{Option, ◌⊎◌, ◌%◌, ◌≡◌, ◌≢◌, ◌<◌, ◌≤◌, IsTrue, IfSome, IfNone, Some, None, ℕ, length, drop, slice_index_or};
ghost use Rattle.pv_num.specs.Extended.{Extended, NegInf, PosInf};
ghost use Rattle.pv_num.specs.Order.{le, lt};
ghost use Rattle.pv_interval.specs.Bounds.{Bounds, IsInterval};
ghost use Rattle.pv_box.specs.Boxes.{IsInside, IsInsidePlace};
ghost use Rattle.pv_box.specs.Choice.{choose_of, wider as wider_of, cut_of as cut_in, cut_at, IsChosen, IsWidestBelow, cut_between, strictly_between, widest_from as widest_of, first_from as first_of, is_small_of, choice_of, round_from};

use crate::IBox;
use pv_interval::Interval;
use pv_num::laws::is_number;
use pv_num::{End, Num};

/// How the place at which a box is cut is chosen.
#[derive(Clone, Copy, Debug, PartialEq, Eq)]
pub enum Bisector {
    /// The widest place, and the first among equals.
    Largest,
    /// The first place that can be cut, from the path's length modulo the number of places on,
    /// going round.
    Round,
}

// A place that can be bisected, with its cut and its width.
#[derive(Clone, Copy)]
struct Candidate {
    var: u8,
    at: Num,
    width: Num,
}

impl IBox {
    /// The place at which the box is cut and where; None where no place can be cut. `Largest` takes
    /// the widest place that can be cut, and the first among equals; `Round` the first one that can
    /// be cut from place `path_len` on, going round.
    pub fn choose(&self, by: Bisector, path_len: u32) -> Option<(u8, Num)>
        ensures cut { IfSome result (λ c. cut_at self.now c.0 ≡ Some c.1) }
        ensures chosen { IfSome result (λ c. IsChosen by path_len self.now c.0) }
        ensures none { IfNone result ((k : ℕ) → cut_at self.now k ≡ None) }
        ensures choice { result ≡ choose_of by path_len self.now }
        ensures place { IfSome result (λ c. c.0 < length self.now) }
        ensures inside { IfSome result (λ c. IsInsidePlace c.1 c.0 self.now) }
    {
        self.chosen(by, path_len)
    }

    #[tactic(auto, unfolding(crate::specs::Choice::choose_of))]
    fn chosen(&self, by: Bisector, path_len: u32) -> Option<(u8, Num)>
        ensures choice { result ≡ choose_of by path_len self.now }
        ensures place { IfSome result (λ c. c.0 < length self.now) }
        ensures inside { IfSome result (λ c. IsInsidePlace c.1 c.0 self.now) }
    {
        match by {
            Bisector::Largest => self.widest(),
            Bisector::Round => self.in_turn(path_len),
        }
    }

    // The first place of greatest width among those that can be cut: nearly always the first of
    // greatest width among all, so that one cut is worked out.
    fn widest(&self) -> Option<(u8, Num)>
        ensures widest { result ≡ choice_of (widest_of 0 self.now) }
        ensures place { IfSome result (λ c. c.0 < length self.now) }
        ensures inside { IfSome result (λ c. IsInsidePlace c.1 c.0 self.now) }
    {
        let var = self.widest_place();
        match cut_of(self.get(var)) {
            Some(at) => Some((var, at)),
            None => self.widest_cut(),
        }
    }

    // The first place of greatest width.
    fn widest_place(&self) -> u8
        ensures { IsWidestBelow (length self.now) self.now result }
    {
        let dims = self.dims();
        let mut widest = 0;
        let mut width = self.get(0).width();
        for i in 1..dims {
            let other = self.get(i).width();
            if width < other {
                widest = i;
                width = other;
            }
        }
        widest
    }

    // As `widest`, with a cut worked out for each place that may be the widest.
    fn widest_cut(&self) -> Option<(u8, Num)>
        ensures widest { result ≡ choice_of (widest_of 0 self.now) }
        ensures place { IfSome result (λ c. c.0 < length self.now) }
        ensures inside { IfSome result (λ c. IsInsidePlace c.1 c.0 self.now) }
    {
        match self.widest_from(0) {
            Some(Candidate { var, at, width: _ }) => Some((var, at)),
            None => None,
        }
    }

    // The first place that can be cut from the turn of the path's length on, going round.
    fn in_turn(&self, path_len: u32) -> Option<(u8, Num)>
        ensures turn { result ≡ round_from (path_len % length self.now) self.now }
        ensures place { IfSome result (λ c. c.0 < length self.now) }
        ensures inside { IfSome result (λ c. IsInsidePlace c.1 c.0 self.now) }
    {
        let turn = (path_len % u32::from(self.dims())) as u8;
        match self.first_from(turn) {
            Some(found) => Some(found),
            None => self.first_from(0),
        }
    }

    /// Whether the width of every place is at most `eps`.
    pub fn is_small(&self, eps: Num) -> bool
        ensures { result ≡ is_small_of eps self.now }
    {
        self.is_small_from(eps, 0)
    }

    // Whether the places from number `i` on are small.
    fn is_small_from(&self, eps: Num, i: u8) -> bool
        requires { i ≤ length self.now }
        ensures { result ≡ is_small_of eps (drop i self.now) }
    {
        if i >= self.dims() {
            return true;
        }
        self.get(i).width() <= eps && self.is_small_from(eps, i + 1)
    }

    // The first place from number `i` on that can be cut.
    fn first_from(&self, i: u8) -> Option<(u8, Num)>
        requires { i ≤ length self.now }
        ensures first { result ≡ first_of i (drop i self.now) }
        ensures place { IfSome result (λ c. c.0 < length self.now) }
        ensures inside { IfSome result (λ c. IsInsidePlace c.1 c.0 self.now) }
    {
        if i >= self.dims() {
            return None;
        }
        match cut_of(self.get(i)) {
            Some(at) => Some((i, at)),
            None => self.first_from(i + 1),
        }
    }

    // Of the places from number `i` on that can be cut the widest, and the first among equals.
    fn widest_from(&self, i: u8) -> Option<Candidate>
        requires { i ≤ length self.now }
        ensures widest { result ≡ widest_of i (drop i self.now) }
        ensures place { IfSome result (λ c. c.var < length self.now) }
        ensures inside { IfSome result (λ c. IsInsidePlace c.at c.var self.now) }
    {
        if i >= self.dims() {
            return None;
        }
        let later = self.widest_from(i + 1);
        let part = self.get(i);
        let width = part.width();
        if is_wider(&later, width) {
            return later;
        }
        match cut_of(part) {
            Some(at) => Some(wider(i, at, width, later)),
            None => later,
        }
    }
}

// Whether the best of the later candidates is wider than this: then it stays, whether or not there
// is a cut here.
fn is_wider(later: &Option<Candidate>, width: Num) -> bool
    ensures { IsTrue result → (cut : Option Extended) (var : ℕ) → wider_of cut var width later.now ≡
        later.now }
{
    match later {
        Some(best) => width < best.width,
        None => false,
    }
}

// This candidate, if it is at least as wide as the best of the later ones.
fn wider(var: u8, at: Num, width: Num, later: Option<Candidate>) -> Candidate
    ensures one { (result ≡ record { var = var; at = at; width = width }) ⊎ (later ≡ Some result) }
    ensures best { wider_of (Some at) var width later ≡ Some result }
{
    match later {
        Some(best) => {
            if best.width <= width {
                Candidate { var, at, width }
            } else {
                best
            }
        }
        None => Candidate { var, at, width },
    }
}

// Where an interval is cut; None where it can't be.
fn cut_of(part: Interval) -> Option<Num>
    ensures cut { result ≡ cut_in part }
    ensures inside { IfSome result (λ at. IsInside at part) }
{
    let (lo, hi) = (part.lo(), part.hi());
    if lo == Num::NEG_INF {
        return below(hi);
    }
    if hi == Num::POS_INF {
        return above(lo);
    }
    Num::middle(lo, hi)
}

// The cut of what reaches from -oo up to `hi`. A number doubles exactly, or leaves the range and
// then has no cut.
fn below(hi: Num) -> Option<Num>
    ensures cut { result ≡ cut_between NegInf hi }
    ensures inside { IfSome result (λ at. IsInside at (record { lo = NegInf; hi = hi })) }
{
    if Num::ZERO < hi {
        return Some(Num::ZERO);
    }
    is_number(hi);
    let out = hi.add(hi, End::Down).sub(Num::ONE, End::Down);
    strictly(Num::NEG_INF, out, hi)
}

// The cut of what reaches from `lo` up to +oo, likewise.
fn above(lo: Num) -> Option<Num>
    ensures cut { result ≡ cut_between lo PosInf }
    ensures inside { IfSome result (λ at. IsInside at (record { lo = lo; hi = PosInf })) }
{
    if lo < Num::ZERO {
        return Some(Num::ZERO);
    }
    is_number(lo);
    let out = lo.add(lo, End::Up).add(Num::ONE, End::Up);
    strictly(lo, out, Num::POS_INF)
}

fn strictly(lo: Num, at: Num, hi: Num) -> Option<Num>
    ensures cut { result ≡ strictly_between lo at hi }
    ensures inside { IfSome result (λ a. IsInside a (record { lo = lo; hi = hi })) }
{
    if lo < at && at < hi { Some(at) } else { None }
}
