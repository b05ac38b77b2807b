//! What settles a box.
ghost use Rattle.std.specs.Prelude.{◌≡◌, ◌-◌, length, IfOk};

use crate::outcome::Outcome;
use crate::path::Path;
use pv_box::IBox;
use pv_num::Memory;
use std::alloc::Global;

/// A way to settle boxes, and the set of points that it speaks of.
///
/// The set is `inside`. No point of a box outside the outcome's `to` is in it, and every point of
/// an inner `to` is.

pub trait Settler {
    ghost use Rattle.std.specs.Prelude.{◌≡◌, ℕ, ◌<◌, ◌≤◌, List, length, IfOk};
    ghost use Rattle.pv_interval.specs.Bounds.{Bounds};
    ghost use Rattle.pv_interval.specs.Points.{Point};
    ghost use Rattle.pv_box.specs.Boxes.{IsBox};
    ghost use Rattle.pv_tree.specs.declared.outcome.Outcome.{Outcome};
    ghost use Rattle.pv_tree.specs.Trees.{Fits, KeepsBox, CutsAbove};
    ghost use Rattle.pv_tree.specs.Sets.{IsSoundOutcome};
    ghost use Rattle.pv_box.specs.declared.boxes.TheConstants.{MOST_PLACES};
    ghost use Rattle.pv_tree.specs.declared.path.TheConstants.{MOST_STEPS};

    /// The number of places of its boxes.
    ghost dims: { Self → ℕ };

    /// The most cuts on a path.
    ghost depth_of: { Self → ℕ };

    /// The outcome for a box, the cuts that are left, and the length of the box's path.
    ghost settle_of: { Self → List Bounds → ℕ → ℕ → Outcome };

    /// The set.
    ghost inside: { Self → Point → Type 0 };

    /// The most cuts on a path.
    fn depth(&self) -> u32
        ensures { result ≡ depth_of self.now };

    /// Settles a box.
    fn settle(
        &self,
        alloc: Global,
        bx: &IBox,
        depth_left: u32,
        path_len: u32,
    ) -> Result<Outcome, Memory>
        requires { length bx.now ≡ dims self.now }
        ensures { IfOk result (λ o. o ≡ settle_of self.now bx.now depth_left path_len) };

    ghost dims_fit: { (s : Self) → (1 ≤ dims s) × (dims s ≤ MOST_PLACES) };

    ghost depth_fits: { (s : Self) → (1 ≤ depth_of s) × (depth_of s ≤ MOST_STEPS) };

    ghost fits: { (s : Self) (b : List Bounds) (d k : ℕ) → IsBox b → length b ≡ dims s → Fits b (settle_of s b d k) };

    ghost keeps_box: { (s : Self) (b : List Bounds) (d k : ℕ) → IsBox b → length b ≡ dims s → KeepsBox (settle_of s b d k) };

    ghost ends: { (s : Self) (b : List Bounds) (d k : ℕ) → IsBox b → length b ≡ dims s → CutsAbove d (settle_of s b d k) };

    ghost sound: { (s : Self) (b : List Bounds) (d k : ℕ) → IsBox b → length b ≡ dims s → IsSoundOutcome (inside s) b (settle_of s b d k) };
}

/// The cuts that are left below a path of so many steps.
pub(crate) fn cuts_left<S: Settler>(settler: &S, steps: u32) -> u32
    ensures { result ≡ S.depth_of settler.now - steps }
{
    settler.depth().saturating_sub(steps)
}

/// Settles the box of a path, with the cuts that the path leaves.
pub fn settle_at<S: Settler>(
    alloc: Global,
    settler: &S,
    bx: &IBox,
    path: Path,
) -> Result<Outcome, Memory>
    requires { length bx.now ≡ S.dims settler.now }
    ensures { IfOk result (λ o. o ≡ S.settle_of settler.now bx.now
        (S.depth_of settler.now - length path) (length path)) }
{
    let steps = path.len();
    settler.settle(alloc, bx, cuts_left(settler, steps), steps)
}
