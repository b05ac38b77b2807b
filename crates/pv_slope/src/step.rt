//! The settler with centered forms is a settler.

use crate::settler::CenteredSettler;
use pv_box::IBox;
use pv_num::Memory;
use pv_tree::{Outcome, Settler};
use std::alloc::Global;

impl Settler for CenteredSettler {
    ghost use Rattle.pv_settle.specs.Rules.{dims_of};
    ghost use Rattle.pv_settle.specs.Settlers.{rule_of};
    ghost use Rattle.pv_settle.specs.Settling.{is_member};
    ghost use Rattle.pv_slope.specs.Settling.{settle_centered};
    ghost use Rattle.pv_slope.specs.Laws.{centered_fits, centered_keeps_box, centered_ends, centered_sound};

    ghost dims = { λ s. dims_of (rule_of s.settler) };

    ghost depth_of = { λ s. (rule_of s.settler).depth };

    ghost settle_of = { λ s. settle_centered (rule_of s.settler) };

    ghost inside = { λ s. is_member (rule_of s.settler) };

    fn depth(&self) -> u32 {
        CenteredSettler::depth(self)
    }

    fn settle(
        &self,
        alloc: Global,
        bx: &IBox,
        depth_left: u32,
        path_len: u32,
    ) -> Result<Outcome, Memory> {
        CenteredSettler::settle(self, alloc, bx, depth_left, path_len)
    }

    ghost dims_fit = { λ s. (s.dims_some, s.dims_few) };

    ghost depth_fits = { λ s. (s.depth_some, s.depth_few) };

    ghost fits = { λ s b d k i l. centered_fits (rule_of s.settler) s.over s.program_fits b d k i };

    ghost keeps_box = { λ s b d k i l. centered_keeps_box (rule_of s.settler) s.over s.program_fits b d k i };

    ghost ends = { λ s b d k i l. centered_ends (rule_of s.settler) b d k };

    ghost sound = { λ s b d k i l. centered_sound s.encloses (rule_of s.settler) s.over s.dims s.program_fits b d k i l };
}
