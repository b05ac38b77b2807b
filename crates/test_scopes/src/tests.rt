//! Shares and levels of the points from about 1/3 on, in [0,1]x[0,1]. Expected counts were worked
//! out by hand.
ghost use Rattle.std.specs.Prelude.{◌≡◌, length, IfOk};

use pv_box::IBox;
use pv_interval::Interval;
use pv_num::{Memory, Num};
use pv_pool::NoGate;
use pv_scope::{Share, settle_levels, settle_share};
use pv_tree::{Forgetful, Paving};
use std::alloc::Global;
use std::test::Fail;
use test_sample::Above;

// The interval [0,1].
fn unit() -> Interval {
    Interval::new(Num::ZERO, Num::ONE).unwrap_or(Interval::ALL)
}

// The paving of [0,1]x[0,1] that is one open leaf.
fn square(alloc: Global) -> Result<Paving, Memory>
    ensures { IfOk result (λ p. length p.root ≡ 2) }
{
    let mut parts = Vec::new(alloc);
    parts.push(unit())?;
    parts.push(unit())?;
    Paving::open(alloc, IBox::new(parts))
}

// The points of a square from about 1/3 on. Four cuts make 16 strips, and 16 further ones come
// nearer to the limit in each.
fn third() -> Above
    ensures { result.dims ≡ 2 }
{
    Above::new(2, Num::fin(0x1555_5555, -30).unwrap_or(Num::ZERO), 4, 20)
}

// Whether a paving has these numbers of cuts and of removed, inner, small and open boxes.
fn has(paving: &Paving, cut: u64, removed: u64, inner: u64, small: u64, open_leaves: u64) -> bool {
    let counts = paving.counts();
    counts.cut == cut
        && counts.removed == removed
        && counts.inner == inner
        && counts.small == small
        && counts.open_leaves == open_leaves
}

#[test]
fn levels_end_with_the_full_tree(rt: HostRuntime) -> Result<(), Fail> {
    let alloc = rt.alloc();
    let third = third();
    let settler = Forgetful { settler: &third };
    let whole = settle_levels(alloc, &settler, square(alloc)?, 543, &NoGate)?;
    assert!(rt; has(&whole.paving, 271, 128, 128, 16, 0));
    assert!(rt; whole.settled == 543);
    assert!(rt; whole.pass == 6);
    Ok(())
}

#[test]
fn levels_open_the_shallow_leaves_first(rt: HostRuntime) -> Result<(), Fail> {
    let alloc = rt.alloc();
    let third = third();
    let settler = Forgetful { settler: &third };
    // The first pass makes 15 cuts, and leaves 16 strips open.
    let strips = settle_levels(alloc, &settler, square(alloc)?, 15, &NoGate)?;
    assert!(rt; has(&strips.paving, 15, 0, 0, 0, 16));
    assert!(rt; strips.settled == 15);
    // Four strips are settled down to the eighth level: in each 4 cuts, a removed box and 2 inner
    // ones, and 2 boxes are left open.
    let some = settle_levels(alloc, &settler, strips.paving, 28, &NoGate)?;
    assert!(rt; has(&some.paving, 15 + 4 * 4, 4, 4 * 2, 0, 12 + 4 * 2));
    assert!(rt; some.pass == 2);
    Ok(())
}

#[test]
fn shares_of_sixteen_strips(rt: HostRuntime) -> Result<(), Fail> {
    let alloc = rt.alloc();
    let third = third();
    let settler = Forgetful { settler: &third };
    let strips = settle_levels(alloc, &settler, square(alloc)?, 15, &NoGate)?.paving;
    // Each strip has 16 cuts, 8 removed and 8 inner boxes and a small one.
    let Some(last) = Share::new(2, 3) else {
        unreachable!()
    };
    let fifth = settle_share(
        alloc,
        &settler,
        strips.clone_of(alloc)?,
        last,
        1000,
        &NoGate,
    )?;
    assert!(rt; has(&fifth.paving, 15 + 5 * 16, 5 * 8, 5 * 8, 5, 11));
    assert!(rt; fifth.done);
    assert!(rt; fifth.settled == 5 * 33);
    let part = settle_share(alloc, &settler, strips.clone_of(alloc)?, last, 40, &NoGate)?;
    assert!(rt; !part.done);
    assert!(rt; part.settled == 40);
    let Some(none) = Share::new(20, 100) else {
        unreachable!()
    };
    let same = settle_share(alloc, &settler, strips, none, 1, &NoGate)?;
    assert!(rt; has(&same.paving, 15, 0, 0, 0, 16));
    assert!(rt; same.done);
    assert!(rt; same.settled == 0);
    Ok(())
}

#[test]
fn a_share_is_below_the_number_of_shares(rt: HostRuntime) -> Result<(), Fail> {
    assert!(rt; Share::new(0, 1).is_some());
    assert!(rt; Share::new(999_999, 1_000_000).is_some());
    assert!(rt; Share::new(1, 1).is_none());
    assert!(rt; Share::new(0, 0).is_none());
    assert!(rt; Share::new(0, 1_000_001).is_none());
    Ok(())
}
