//! Settling a box with what is known of its constraints.

ghost use Rattle.std.specs.Prelude.{◌≡◌, length, IfOk};
ghost use Rattle.pv_ctc.specs.Contracting.{sides_in};
ghost use Rattle.pv_ctc.specs.Facts.{Knows};
ghost use Rattle.pv_tree.specs.KnownHalves.{HoldsOfHalves};

use crate::settler::SystemSettler;
use pv_box::IBox;
use pv_ctc::Known;
use pv_hc4::{Revised, Scratch};
use pv_num::Memory;
use pv_tree::{KnowingSettler, Outcome, Settled};
use std::alloc::Global;

impl SystemSettler {
    ghost use Rattle.pv_settle.specs.Rules.{dims_of};
    ghost use Rattle.pv_settle.specs.Settlers.{rule_of};
    ghost use Rattle.pv_settle.specs.Settling.{settle_by, settle_left, settle_unsure};

    /// As `settle`, where something is known of the constraints on the box. What it answers as
    /// known is true of both halves of a cut.
    pub fn settle_knowing(
        &self,
        alloc: Global,
        scratch: &mut Scratch,
        bx: &IBox,
        known: Known,
        depth_left: u32,
        path_len: u32,
    ) -> Result<Settled<Known>, Memory>
        requires dims { length bx.now ≡ dims_of (rule_of self.now) }
        requires known { Knows (sides_in self.now.graphs) known bx.now }
        ensures outcome { IfOk result (λ s. s.outcome ≡
            settle_by (rule_of self.now) bx.now depth_left path_len) }
        ensures known { IfOk result (λ s.
            HoldsOfHalves (Knows (sides_in self.now.graphs) s.known) s.outcome) }
    {
        let mut known = known;
        let mut to = bx.clone_of(alloc)?;
        let answer = self
            .program
            .narrow_knowing(alloc, &self.graphs, scratch, &mut to, &mut known)?;
        match answer {
            Revised::Empty => Ok(Settled {
                outcome: Outcome::Removed,
                known,
            }),
            Revised::Kept | Revised::Changed => {
                self.settle_narrowed(scratch, to, known, depth_left, path_len)
            }
        }
    }

    // The tests that follow contraction.
    fn settle_narrowed(
        &self,
        scratch: &mut Scratch,
        to: IBox,
        known: Known,
        depth_left: u32,
        path_len: u32,
    ) -> Result<Settled<Known>, Memory>
        requires dims { length to ≡ dims_of (rule_of self.now) }
        requires known { Knows (sides_in self.now.graphs) known to }
        ensures outcome { IfOk result (λ s. s.outcome ≡
            settle_left (rule_of self.now) to depth_left path_len) }
        ensures known { IfOk result (λ s.
            HoldsOfHalves (Knows (sides_in self.now.graphs) s.known) s.outcome) }
    {
        let mut known = known;
        if self
            .program
            .sure_knowing(&self.graphs, scratch, &to, &mut known)?
        {
            return Ok(Settled {
                outcome: Outcome::Inner { to },
                known,
            });
        }
        Ok(self.settle_unsure(to, known, depth_left, path_len))
    }

    /// The last two tests: a box that is narrow enough, or that can't be cut, is small, and any
    /// other is cut.
    pub fn settle_unsure(
        &self,
        to: IBox,
        known: Known,
        depth_left: u32,
        path_len: u32,
    ) -> Settled<Known>
        requires dims { length to ≡ dims_of (rule_of self.now) }
        requires known { Knows (sides_in self.now.graphs) known to }
        ensures outcome { result.outcome ≡
            settle_unsure (rule_of self.now) to depth_left path_len }
        ensures known { HoldsOfHalves
            (Knows (sides_in self.now.graphs) result.known) result.outcome }
    {
        let _places = to.dims();
        if depth_left == 0 || to.is_small(self.settings.eps) {
            return Settled {
                outcome: Outcome::Small { to },
                known,
            };
        }
        match to.choose(self.settings.bisector, path_len) {
            Some(choice) => {
                let known = known.after_cut(&self.graphs, choice.0);
                Settled {
                    outcome: Outcome::Cut {
                        to,
                        var: choice.0,
                        at: choice.1,
                    },
                    known,
                }
            }
            None => Settled {
                outcome: Outcome::Small { to },
                known,
            },
        }
    }
}

impl KnowingSettler for SystemSettler {
    type Known = Known;

    type Room = Scratch;

    ghost use Rattle.pv_ctc.specs.Contracting.{sides_in};
    ghost use Rattle.pv_ctc.specs.Facts.{Knows};

    ghost knows = { λ s k b. Knows (sides_in s.graphs) k b };

    fn room(&self, alloc: Global) -> Scratch {
        Scratch::new(alloc)
    }

    fn nothing(&self) -> Known {
        Known::nothing()
    }

    fn settle_knowing(
        &self,
        alloc: Global,
        room: &mut Scratch,
        bx: &IBox,
        known: Known,
        depth_left: u32,
        path_len: u32,
    ) -> Result<Settled<Known>, Memory> {
        SystemSettler::settle_knowing(self, alloc, room, bx, known, depth_left, path_len)
    }
}
