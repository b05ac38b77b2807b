//! The settler of a system is a settler.

use crate::settler::SystemSettler;
use pv_box::IBox;
use pv_num::Memory;
use pv_tree::{Outcome, Settler};
use std::alloc::Global;

impl Settler for SystemSettler {
    ghost use Rattle.pv_settle.specs.Rules.{dims_of};
    ghost use Rattle.pv_settle.specs.Settlers.{rule_of};
    ghost use Rattle.pv_settle.specs.Settling.{settle_by, is_member};
    ghost use Rattle.pv_settle.specs.Laws.{settle_fits, settle_keeps_box, settle_ends, settle_sound};

    ghost dims = { λ s. dims_of (rule_of s) };

    ghost depth_of = { λ s. (rule_of s).depth };

    ghost settle_of = { λ s. settle_by (rule_of s) };

    ghost inside = { λ s. is_member (rule_of s) };

    fn depth(&self) -> u32 {
        SystemSettler::depth(self)
    }

    fn settle(
        &self,
        alloc: Global,
        bx: &IBox,
        depth_left: u32,
        path_len: u32,
    ) -> Result<Outcome, Memory> {
        SystemSettler::settle(self, alloc, bx, depth_left, path_len)
    }

    ghost dims_fit = { λ s. (s.names_some, s.names_few) };

    ghost depth_fits = { λ s. (s.depth_some, s.depth_few) };

    ghost fits = { λ s b d k i l. settle_fits (rule_of s) s.over s.program_fits b d k i };

    ghost keeps_box = { λ s b d k i l. settle_keeps_box (rule_of s) s.over s.program_fits b d k i };

    ghost ends = { λ s b d k i l. settle_ends (rule_of s) b d k };

    ghost sound = { λ s b d k i l. settle_sound (rule_of s) s.over s.dims s.program_fits b d k i l };
}
