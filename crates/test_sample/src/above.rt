//! The settler of all points whose first coordinate is at least a limit.
ghost use Rattle.std.specs.Prelude.{◌≡◌, ◌<◌, ◌≤◌, length, IfOk, slice_index_or};
ghost use Rattle.test_sample.specs.Rule.{turn_of, reaches, is_above};
ghost use Rattle.pv_box.specs.declared.boxes.TheConstants.{MOST_PLACES};
ghost use Rattle.pv_tree.specs.declared.path.TheConstants.{MOST_STEPS};

use pv_box::{Bisector, IBox};
use pv_num::{Memory, Num};
use pv_tree::{Outcome, Settler};
use std::alloc::Global;

/// Settles boxes for the points whose first coordinate is at least `limit`. The first `wide` cuts
/// of a path go to place 1, where it can be cut, and the further ones to place 0.
#[derive(Drop)]
pub struct Above {
    dims: u8,
    limit: Num,
    wide: u32,
    depth: u32,
    ghost dims_fit: { (1 ≤ dims) × (dims ≤ MOST_PLACES) },
    ghost depth_fits: { (1 ≤ depth) × (depth ≤ MOST_STEPS) },
}

impl Above {
    /// The settler for boxes of `dims` places.
    pub fn new(dims: u8, limit: Num, wide: u32, depth: u32) -> Above
        requires some { 1 ≤ dims }
        requires few { dims ≤ MOST_PLACES }
        requires depth_some { 1 ≤ depth }
        requires depth_few { depth ≤ MOST_STEPS }
        ensures dims { result.dims ≡ dims }
        ensures depth { result.depth ≡ depth }
        ensures limit { result.limit ≡ limit }
        ensures wide { result.wide ≡ wide }
    {
        Above {
            dims,
            limit,
            wide,
            depth,
        }
    }
}

/// The place that is cut at a path of `path_len` steps, if it can be.
fn turn(wide: u32, path_len: u32) -> u32
    ensures { result ≡ turn_of wide path_len }
{
    if path_len < wide { 1 } else { 0 }
}

impl Settler for Above {
    ghost use Rattle.test_sample.specs.Rule.{settle_by, IsAtLeast};
    ghost use Rattle.test_sample.specs.Laws.{rule_fits, rule_keeps, rule_ends, rule_sound};

    ghost dims = { λ s. s.dims };

    ghost depth_of = { λ s. s.depth };

    ghost settle_of = { λ s b d k. settle_by s.limit s.wide b d k };

    ghost inside = { λ s p. IsAtLeast s.limit p };

    ghost dims_fit = { λ s. s.dims_fit };

    ghost depth_fits = { λ s. s.depth_fits };

    ghost fits = { λ s b d k h e. rule_fits s.limit s.wide b d k };

    ghost keeps_box = { λ s b d k h e. rule_keeps s.limit s.wide b d k h };

    ghost ends = { λ s b d k h e. rule_ends s.limit s.wide b d k };

    ghost sound = { λ s b d k h e. rule_sound s.limit s.wide b d k };

    fn depth(&self) -> u32 {
        self.depth
    }

    fn settle(
        &self,
        alloc: Global,
        bx: &IBox,
        depth_left: u32,
        path_len: u32,
    ) -> Result<Outcome, Memory> {
        let _places = bx.dims();
        let first = bx.get(0);
        if !(self.limit <= first.hi()) {
            return Ok(Outcome::Removed);
        }
        let to = bx.clone_of(alloc)?;
        if self.limit <= first.lo() {
            return Ok(Outcome::Inner { to });
        }
        if depth_left == 0 {
            return Ok(Outcome::Small { to });
        }
        match to.choose(Bisector::Round, turn(self.wide, path_len)) {
            Some(choice) => Ok(Outcome::Cut {
                to,
                var: choice.0,
                at: choice.1,
            }),
            None => Ok(Outcome::Small { to }),
        }
    }
}
