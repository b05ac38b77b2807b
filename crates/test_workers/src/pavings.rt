//! Pavings by one worker and by several. Expected counts were worked out by hand.
ghost use Rattle.std.specs.Prelude.{◌≡◌, ◌+◌, ◌≤◌, length, IfOk};
ghost use Rattle.pv_board.specs.Rules.{settled_in};

use pv_box::IBox;
use pv_interval::Interval;
use pv_join::join;
use pv_num::{Memory, Num};
use pv_pool::NoGate;
use pv_tree::{Forgetful, NodeLimit, Outcome, Paving, Settler};
use pv_workers::{Budget, Paved, pave, pave_knowing};
use std::alloc::Global;
use std::test::Fail;
use test_sample::Above;

// The interval [0,1].
fn unit() -> Interval {
    Interval::new(Num::ZERO, Num::ONE).unwrap_or(Interval::ALL)
}

// The paving of [0,1]x[0,1] that is one open leaf.
fn square(alloc: Global) -> Result<Paving, Memory>
    ensures { IfOk result (λ p. (length p.root ≡ 2) × (settled_in p.tree ≡ 0)) }
{
    let mut parts = Vec::new(alloc);
    parts.push(unit())?;
    parts.push(unit())?;
    Paving::open(alloc, IBox::new(parts))
}

// The points of a square from about 1/3 on. Four cuts make 16 strips, and 16 further ones come
// nearer to the limit in each.
fn third() -> Above
    ensures { result.dims ≡ 2 }
{
    Above::new(2, Num::fin(0x1555_5555, -30).unwrap_or(Num::ZERO), 4, 20)
}

// Whether a paving has these numbers of cuts and of removed, inner, small and open boxes.
fn has(paving: &Paving, cut: u64, removed: u64, inner: u64, small: u64, open_leaves: u64) -> bool {
    let counts = paving.counts();
    counts.cut == cut
        && counts.removed == removed
        && counts.inner == inner
        && counts.small == small
        && counts.open_leaves == open_leaves
}

// A settler that finds no memory for a box in the lower half of place 0.
#[derive(Drop)]
struct Poor<S> {
    settler: S,
}

impl<S: Settler> Settler for Poor<S> {
    ghost dims = { λ s. S.dims s.settler };

    ghost depth_of = { λ s. S.depth_of s.settler };

    ghost settle_of = { λ s. S.settle_of s.settler };

    ghost inside = { λ s. S.inside s.settler };

    fn depth(&self) -> u32 {
        self.settler.depth()
    }

    fn settle(
        &self,
        alloc: Global,
        bx: &IBox,
        depth_left: u32,
        path_len: u32,
    ) -> Result<Outcome, Memory> {
        let _places = bx.dims();
        if bx.get(0).hi() <= Num::fin(1, -1).unwrap_or(Num::ZERO) {
            return Err(Memory);
        }
        self.settler.settle(alloc, bx, depth_left, path_len)
    }

    ghost dims_fit = { λ s. S.dims_fit s.settler };

    ghost depth_fits = { λ s. S.depth_fits s.settler };

    ghost fits = { λ s. S.fits s.settler };

    ghost keeps_box = { λ s. S.keeps_box s.settler };

    ghost ends = { λ s. S.ends s.settler };

    ghost sound = { λ s. S.sound s.settler };
}

#[test]
fn a_full_tree_by_one_two_eight_and_sixteen(rt: HostRuntime) -> Result<(), Fail> {
    let alloc = rt.alloc();
    let settler = third();
    let opening = square(alloc)?;
    let first = pave(
        &rt,
        alloc,
        &settler,
        opening.clone_of(alloc)?,
        543,
        1,
        &NoGate,
    )?;
    assert!(rt; has(&first.paving, 271, 128, 128, 16, 0));
    for workers in [2u32, 8, 16] {
        let other = pave(
            &rt,
            alloc,
            &settler,
            opening.clone_of(alloc)?,
            1000,
            workers,
            &NoGate,
        )?;
        assert!(rt; has(&other.paving, 271, 128, 128, 16, 0));
        assert!(rt; join(alloc, &first.paving, &other.paving).is_ok());
    }
    Ok(())
}

#[test]
fn a_budget_is_spent_to_the_last(rt: HostRuntime) -> Result<(), Fail> {
    let alloc = rt.alloc();
    let settler = third();
    for workers in [1u32, 8] {
        let paved = pave(&rt, alloc, &settler, square(alloc)?, 100, workers, &NoGate)?;
        let counts = paved.paving.counts();
        assert_eq!(rt; counts.settled(), 100);
        assert!(rt; counts.open_leaves > 0);
    }
    Ok(())
}

#[test]
fn one_worker_hands_stages_in(rt: HostRuntime) -> Result<(), Fail> {
    let alloc = rt.alloc();
    let settler = third();
    let paved = pave(&rt, alloc, &settler, square(alloc)?, 543, 1, &NoGate)?;
    assert!(rt; paved.spent < 543);
    assert!(rt; 543 <= 16 * paved.spent);
    Ok(())
}

#[test]
fn what_is_left_is_paved_later(rt: HostRuntime) -> Result<(), Fail> {
    let alloc = rt.alloc();
    let settler = third();
    let part = pave(&rt, alloc, &settler, square(alloc)?, 100, 4, &NoGate)?;
    let opening = part.paving;
    let settled = opening.counts().settled();
    assert_eq!(rt; settled, 100);
    if settled != 100 {
        return Ok(());
    }
    let whole = pave(&rt, alloc, &settler, opening, 443, 4, &NoGate)?;
    assert!(rt; has(&whole.paving, 271, 128, 128, 16, 0));
    Ok(())
}

// The same with 4,096 strips, so that the full tree has more than 100,000 settled nodes.
fn fine_third() -> Above
    ensures { result.dims ≡ 2 }
{
    Above::new(2, Num::fin(0x1555_5555, -30).unwrap_or(Num::ZERO), 12, 28)
}

#[test]
fn a_higher_limit_lets_a_tree_grow(rt: HostRuntime) -> Result<(), Fail> {
    let alloc = rt.alloc();
    let third = fine_third();
    let settler = Forgetful { settler: &third };
    let Some(limit) = NodeLimit::new(100_002) else {
        return Ok(());
    };
    for workers in [1u32, 4] {
        let paved = pave_knowing(
            &rt,
            alloc,
            &settler,
            square(alloc)?,
            Budget {
                nodes: 100_002,
                limit,
                workers,
            },
            &NoGate,
        )?;
        assert_eq!(rt; paved.paving.counts().settled(), 100_002);
    }
    Ok(())
}

#[test]
fn want_of_memory_ends_all(rt: HostRuntime) -> Result<(), Fail> {
    let alloc = rt.alloc();
    let settler = Poor { settler: third() };
    for workers in [1u32, 8] {
        let paved = pave(&rt, alloc, &settler, square(alloc)?, 543, workers, &NoGate);
        assert!(rt; paved.is_err());
    }
    Ok(())
}
