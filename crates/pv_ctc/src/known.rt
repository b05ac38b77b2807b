//! What is known of the constraints on a box.

ghost use Rattle.std.specs.Prelude.{◌≡◌, ◌⊎◌, ℕ, ◌<◌, true, false, List, length};
ghost use Rattle.pv_interval.specs.Bounds.{Bounds};
ghost use Rattle.pv_box.specs.Boxes.{IsBox};
ghost use Rattle.pv_hc4.specs.Judging.{revised_by};
ghost use Rattle.pv_hc4.specs.MarkSets.{is_marked};
ghost use Rattle.pv_hc4.specs.Members.{AreWithin};
ghost use Rattle.pv_hc4.specs.Revise.{Sides};
ghost use Rattle.pv_hc4.specs.declared.revised.Revised.TheVariants.{Empty};
ghost use Rattle.pv_ctc.specs.Contracting.{sides_in, side_at};
ghost use Rattle.pv_ctc.specs.Facts.{Knows, IsPartAt, IsSettled, IsNoted};
ghost use Rattle.pv_ctc.specs.Steps.{IsSoFar};
ghost use Rattle.pv_ctc.specs.Uses.{has_variable};
ghost use Rattle.pv_box.specs.declared.boxes.TheConstants.{MOST_PLACES};
ghost use Rattle.pv_expr.specs.declared.system.TheConstants.{MOST_CONSTRAINTS};

use crate::graphs::Graphs;
use pv_hc4::{Judged, Marks, Revised};

/// Of each constraint of a system, up to 64 of them, that it is sure on a box, that it is clean
/// there, or nothing. A constraint is clean on a box where a revision would keep the box and the
/// constraint is not sure.
#[derive(Clone, Copy, Debug, PartialEq, Eq)]
pub struct Known {
    pub(crate) sure: Marks,
    pub(crate) clean: Marks,
}

impl Known {
    /// Nothing of any constraint, which is true of every box.
    pub fn nothing() -> Known
        ensures { (ss : List Sides) (b : List Bounds) → Knows ss result b }
    {
        let none = Marks::none();
        Known {
            sure: none,
            clean: none,
        }
    }

    /// What of it is true of each part of a box that differs from the box at one variable alone,
    /// as both halves of a cut do.
    pub fn after_cut(self, graphs: &Graphs, var: u8) -> Known
        requires { var < MOST_PLACES }
        ensures { (b c : List Bounds) → Knows (sides_in graphs.now) self b → IsPartAt var b c →
            Knows (sides_in graphs.now) result c }
    {
        graphs.learn();
        let users = graphs.users[usize::from(var)];
        Known {
            sure: self.sure,
            clean: self.clean.without(users),
        }
    }

    // Whether a constraint is known to leave the box as it is.
    pub(crate) fn settles(self, number: u8) -> bool
        requires { number < MOST_CONSTRAINTS }
        ensures { IsSettled self number result }
    {
        self.sure.has(number) || self.clean.has(number)
    }

    // What is known after one more revision.
    pub(crate) fn noting(self, graphs: &Graphs, number: u8, judged: Judged) -> Known
        requires { number < MOST_CONSTRAINTS }
        ensures { (b d : List Bounds) → IsBox d → Knows (sides_in graphs.now) self b →
            IsNoted (side_at (sides_in graphs.now) number) judged b d →
            (revised_by judged ≡ Empty) ⊎ Knows (sides_in graphs.now) result d }
    {
        graphs.learn();
        match judged {
            Judged::Sure => Known {
                sure: self.sure.with(number),
                clean: self.clean,
            },
            Judged::Kept => Known {
                sure: self.sure,
                clean: self.clean.with(number),
            },
            Judged::Changed(places) => Known {
                sure: self.sure,
                clean: spared(graphs, self.clean, places),
            },
            Judged::Empty => self,
        }
    }

    // What is known after a step of several parts.
    pub(crate) fn behind(self, graphs: &Graphs, answer: Revised) -> Known
        ensures { (b d : List Bounds) → IsBox d → AreWithin d b →
            Knows (sides_in graphs.now) self b → IsSoFar answer b d →
            Knows (sides_in graphs.now) result d }
    {
        graphs.learn();
        match answer {
            Revised::Changed => Known {
                sure: self.sure,
                clean: Marks::none(),
            },
            Revised::Kept | Revised::Empty => self,
        }
    }
}

// The marked constraints that have none of some variables.
fn spared(graphs: &Graphs, clean: Marks, changed: Marks) -> Marks
    ensures kept { (k : ℕ) → is_marked result k ≡ true → is_marked clean k ≡ true }
    ensures spared { (k v : ℕ) → k < length (sides_in graphs.now) → v < MOST_PLACES →
        is_marked result k ≡ true → is_marked changed v ≡ true →
        has_variable v (side_at (sides_in graphs.now) k) ≡ false }
{
    let mut left = clean;
    for v in 0..12u8 {
        if changed.has(v) {
            let users = graphs.users[usize::from(v)];
            left = left.without(users);
        }
    }
    left
}
