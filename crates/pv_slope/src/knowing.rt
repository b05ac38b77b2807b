//! Settling a box with what is known of its constraints.

ghost use Rattle.std.specs.Prelude.{◌≡◌, ◌<◌, length, IfOk, IsFalse, OnOk};
ghost use Rattle.pv_ctc.specs.Contracting.{sides_in, side_at};
ghost use Rattle.pv_ctc.specs.Facts.{Knows};
ghost use Rattle.pv_ctc.specs.Plans.{plan_of};
ghost use Rattle.pv_tree.specs.KnownHalves.{HoldsOfHalves};
ghost use Rattle.pv_settle.specs.Rules.{dims_of};
ghost use Rattle.pv_settle.specs.Settlers.{rule_of};
ghost use Rattle.pv_slope.specs.Centered.{has_finite_ends as have_finite_ends};
ghost use Rattle.pv_slope.specs.Programs.{program_none, sure_tests};
ghost use Rattle.pv_slope.specs.Settling.{settle_centered, settle_left};
ghost use Rattle.pv_slope.specs.Tests.{centered_none, counts_as_sure};

use crate::centre::has_finite_ends;
use crate::columns::Columns;
use crate::judging::Verdict;
use crate::room::Room;
use crate::settler::CenteredSettler;
use crate::verdicts::{has_none, is_sure};
use pv_box::IBox;
use pv_ctc::{Known, Program};
use pv_hc4::{Revised, Scratch};
use pv_num::Memory;
use pv_tree::{KnowingSettler, Outcome, Settled};
use std::alloc::Global;

impl CenteredSettler {
    /// As `settle`, where something is known of the constraints on the box. What it answers as
    /// known is true of both halves of a cut.
    pub fn settle_knowing(
        &self,
        alloc: Global,
        room: &mut Room,
        bx: &IBox,
        known: Known,
        depth_left: u32,
        path_len: u32,
    ) -> Result<Settled<Known>, Memory>
        requires dims { length bx.now ≡ dims_of (rule_of self.now.settler) }
        requires known { Knows (sides_in (rule_of self.now.settler).graphs) known bx.now }
        ensures outcome { IfOk result (λ s. s.outcome ≡
            settle_centered (rule_of self.now.settler) bx.now depth_left path_len) }
        ensures known { IfOk result (λ s. HoldsOfHalves
            (Knows (sides_in (rule_of self.now.settler).graphs) s.known) s.outcome) }
    {
        let mut known = known;
        let mut to = bx.clone_of(alloc)?;
        self.settler.learn();
        let graphs = self.settler.graphs();
        let answer = self
            .settler
            .program()
            .narrow_knowing(alloc, graphs, &mut room.scratch, &mut to, &mut known)?;
        match answer {
            Revised::Empty => Ok(Settled {
                outcome: Outcome::Removed,
                known,
            }),
            Revised::Kept | Revised::Changed => {
                self.settle_narrowed(room, to, known, depth_left, path_len)
            }
        }
    }

    // The tests that follow contraction.
    fn settle_narrowed(
        &self,
        room: &mut Room,
        to: IBox,
        known: Known,
        depth_left: u32,
        path_len: u32,
    ) -> Result<Settled<Known>, Memory>
        requires dims { length to ≡ dims_of (rule_of self.now.settler) }
        requires known { Knows (sides_in (rule_of self.now.settler).graphs) known to }
        ensures outcome { IfOk result (λ s. s.outcome ≡
            settle_left (rule_of self.now.settler) to depth_left path_len) }
        ensures known { IfOk result (λ s. HoldsOfHalves
            (Knows (sides_in (rule_of self.now.settler).graphs) s.known) s.outcome) }
    {
        self.settler.learn();
        let mut known = known;
        if self.judge_all(room, &to, &mut known)? {
            return Ok(Settled {
                outcome: Outcome::Removed,
                known,
            });
        }
        if is_sure(self.settler.program(), &room.sure) {
            return Ok(Settled {
                outcome: Outcome::Inner { to },
                known,
            });
        }
        Ok(self.settler.settle_unsure(to, known, depth_left, path_len))
    }

    // Whether no point of a box is in the program's set; where some may be, `sure` tells afterwards
    // of each constraint whether it holds at each point. It ends at the first constraint that
    // leaves the program nothing.
    fn judge_all(&self, room: &mut Room, to: &IBox, known: &mut Known) -> Result<bool, Memory>
        requires dims { length to.now ≡ dims_of (rule_of self.now.settler) }
        requires known { Knows (sides_in (rule_of self.now.settler).graphs) known.old to.now }
        ensures none { IfOk result (λ t. t ≡
            program_none (sides_in (rule_of self.now.settler).graphs)
            (plan_of (rule_of self.now.settler).program) to.now) }
        ensures sure { IfOk result (λ t. IsFalse t → room.new.sure.items ≡
            sure_tests (sides_in (rule_of self.now.settler).graphs) to.now) }
        ensures known { OnOk result
            (Knows (sides_in (rule_of self.now.settler).graphs) known.new to.now) }
    {
        let program = self.settler.program();
        let finite = has_finite_ends(to);
        room.none.clear();
        room.sure.clear();
        for i in 0..self.slopes.len() {
            let verdict = self.judge(i, &mut room.scratch, &mut room.columns, to, finite, known)?;
            room.none.push(verdict.none)?;
            room.sure.push(verdict.sure)?;
            if has_none(program, &room.none) {
                return Ok(true);
            }
        }
        Ok(has_none(program, &room.none))
    }

    // What is found of constraint `i` on a box, of which `finite` says that no end is infinite.
    // Nothing is worked out where the constraint is sure by its sides.
    fn judge(
        &self,
        i: usize,
        scratch: &mut Scratch,
        columns: &mut Columns,
        to: &IBox,
        finite: bool,
        known: &mut Known,
    ) -> Result<Verdict, Memory>
        requires finite { finite ≡ have_finite_ends to.now }
        requires constraint { i < length (sides_in (rule_of self.now.settler).graphs) }
        requires dims { length to.now ≡ dims_of (rule_of self.now.settler) }
        requires known { Knows (sides_in (rule_of self.now.settler).graphs) known.old to.now }
        ensures none { IfOk result (λ v. v.none ≡
            centered_none (side_at (sides_in (rule_of self.now.settler).graphs) i) to.now) }
        ensures sure { IfOk result (λ v. v.sure ≡
            counts_as_sure (side_at (sides_in (rule_of self.now.settler).graphs) i) to.now) }
        ensures known { Knows (sides_in (rule_of self.now.settler).graphs) known.new to.now }
    {
        let _box = to.dims();
        self.settler.learn();
        let graphs = self.settler.graphs();
        let _count = graphs.count();
        let test = Program::Hc4(i as u32);
        if test.sure_knowing(graphs, scratch, to, known)? {
            return Ok(Verdict {
                none: false,
                sure: true,
            });
        }
        self.slopes[i].judge_in(columns, to, finite)
    }
}

impl KnowingSettler for CenteredSettler {
    type Known = Known;

    type Room = Room;

    ghost use Rattle.pv_ctc.specs.Contracting.{sides_in};
    ghost use Rattle.pv_ctc.specs.Facts.{Knows};
    ghost use Rattle.pv_settle.specs.Settlers.{rule_of};

    ghost knows = { λ s k b. Knows (sides_in (rule_of s.settler).graphs) k b };

    fn room(&self, alloc: Global) -> Room {
        Room::new(alloc)
    }

    fn nothing(&self) -> Known {
        Known::nothing()
    }

    fn settle_knowing(
        &self,
        alloc: Global,
        room: &mut Room,
        bx: &IBox,
        known: Known,
        depth_left: u32,
        path_len: u32,
    ) -> Result<Settled<Known>, Memory> {
        CenteredSettler::settle_knowing(self, alloc, room, bx, known, depth_left, path_len)
    }
}
