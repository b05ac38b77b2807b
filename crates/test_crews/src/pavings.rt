//! What is paved: trees of many nodes, over two places.
ghost use Rattle.std.specs.Prelude.{◌≡◌, length, IfOk};
ghost use Rattle.pv_board.specs.Rules.{settled_in};

use pv_box::IBox;
use pv_interval::Interval;
use pv_num::{Memory, Num};
use pv_tree::{Outcome, Paving, Settler};
use std::alloc::Global;
use std::sync::atomic::{AtomicU64, Ordering};
use std::thread;
use std::time::{Clock, Duration};
use test_sample::Above;

/// The number that lies 64 steps above 1, where a step is the least difference of two numbers there.
fn above_one() -> Num {
    Num::fin((1 << 61) + 64, -61).unwrap_or(Num::ONE)
}

/// The paving of a box with two places that is one open leaf.
fn opened(alloc: Global, first: Interval) -> Result<Paving, Memory>
    ensures { IfOk result (λ p. (length p.root ≡ 2) × (settled_in p.tree ≡ 0)) }
{
    let mut parts = Vec::new(alloc);
    parts.push(first)?;
    parts.push(Interval::new(Num::ZERO, Num::ONE).unwrap_or(Interval::ALL))?;
    Paving::open(alloc, IBox::new(parts))
}

/// The square, which `strips` cuts.
pub(crate) fn square(alloc: Global) -> Result<Paving, Memory>
    ensures { IfOk result (λ p. (length p.root ≡ 2) × (settled_in p.tree ≡ 0)) }
{
    opened(
        alloc,
        Interval::new(Num::ZERO, Num::ONE).unwrap_or(Interval::ALL),
    )
}

/// Cuts a square so many times everywhere, from 1 to 12 times. After 9 times there are 511 cuts and
/// 512 small boxes.
pub(crate) fn strips(times: u32) -> Above
    ensures { result.dims ≡ 2 }
{
    let times = times.clamp(1, 12);
    Above::new(2, Num::fin(1, -1).unwrap_or(Num::ZERO), times, times)
}

/// The box that `late_strips` cuts, which is 64 steps wide in its first place.
pub(crate) fn thin(alloc: Global) -> Result<Paving, Memory>
    ensures { IfOk result (λ p. (length p.root ≡ 2) × (settled_in p.tree ≡ 0)) }
{
    opened(
        alloc,
        Interval::new(Num::ONE, above_one()).unwrap_or(Interval::ALL),
    )
}

/// Cuts a thin box 6 times, each time in one half alone, until one step is left in its first place,
/// and then 13 times everywhere, or less often. So all nodes with more than 6 steps lie below one
/// node.
pub(crate) fn late_strips(times: u32) -> Above
    ensures { result.dims ≡ 2 }
{
    Above::new(2, above_one(), 0, 6 + times.min(13))
}

/// A settler that finds no memory at one settling. The three settlings after it take a tenth of a
/// second, in which a worker can tell the others of it.
#[derive(Drop)]
pub(crate) struct Poor<'a, S, C> {
    settler: S,
    clock: &'a C,
    fails: u64,
    settlings: AtomicU64,
}

impl<'a, S, C> Poor<'a, S, C> {
    /// It finds none at the settling of a number, counted from 0.
    pub(crate) fn new(settler: S, clock: &'a C, fails: u64) -> Self
        ensures { result.settler ≡ settler }
    {
        Poor {
            settler,
            clock,
            fails,
            settlings: AtomicU64::new(0),
        }
    }

    /// How many settlings began after the one that failed.
    pub(crate) fn late(&self) -> u64 {
        let settlings = self.settlings.load(Ordering::SeqCst);
        settlings.saturating_sub(self.fails).saturating_sub(1)
    }
}

impl<'a, S: Settler, C: Clock> Settler for Poor<'a, S, C> {
    ghost dims = { λ s. S.dims s.settler };

    ghost depth_of = { λ s. S.depth_of s.settler };

    ghost settle_of = { λ s. S.settle_of s.settler };

    ghost inside = { λ s. S.inside s.settler };

    fn depth(&self) -> u32 {
        self.settler.depth()
    }

    fn settle(
        &self,
        alloc: Global,
        bx: &IBox,
        depth_left: u32,
        path_len: u32,
    ) -> Result<Outcome, Memory> {
        let number = self.settlings.fetch_add(1, Ordering::SeqCst);
        if number == self.fails {
            return Err(Memory);
        }
        if self.fails < number && number.saturating_sub(self.fails) <= 3 {
            thread::sleep(self.clock, Duration::from_millis(100));
        }
        self.settler.settle(alloc, bx, depth_left, path_len)
    }

    ghost dims_fit = { λ s. S.dims_fit s.settler };

    ghost depth_fits = { λ s. S.depth_fits s.settler };

    ghost fits = { λ s. S.fits s.settler };

    ghost keeps_box = { λ s. S.keeps_box s.settler };

    ghost ends = { λ s. S.ends s.settler };

    ghost sound = { λ s. S.sound s.settler };
}
