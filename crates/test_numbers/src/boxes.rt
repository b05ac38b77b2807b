//! Worked boxes, whose values are plain from the definitions.
ghost use Rattle.std.specs.Prelude.{◌≡◌, ◌≤◌, IfOk, length};

use pv_box::{Bisector, IBox};
use pv_interval::Interval;
use pv_num::Num;
use std::alloc::Global;
use std::test::Fail;

// The interval between two whole numbers; None is an infinite end.
fn ends(lo: Option<i64>, hi: Option<i64>) -> Option<Interval> {
    let low = match lo {
        Some(n) => Num::fin(n, 0)?,
        None => Num::NEG_INF,
    };
    let high = match hi {
        Some(n) => Num::fin(n, 0)?,
        None => Num::POS_INF,
    };
    Interval::new(low, high)
}

fn interval(lo: i64, hi: i64) -> Result<Interval, Fail> {
    Ok(ends(Some(lo), Some(hi)).ok_or("no interval")?)
}

// The box of one interval.
fn line(alloc: Global, x: Interval) -> Result<IBox, Fail>
    ensures { IfOk result (λ b. length b ≡ 1) }
{
    let mut parts = Vec::new(alloc);
    parts.push(x)?;
    Ok(IBox::new(parts))
}

// The box of two intervals.
fn plane(alloc: Global, x: Interval, y: Interval) -> Result<IBox, Fail>
    ensures { IfOk result (λ b. length b ≡ 2) }
{
    let mut parts = Vec::new(alloc);
    parts.push(x)?;
    parts.push(y)?;
    Ok(IBox::new(parts))
}

// The q-hull of three intervals.
fn hull_of_three(
    alloc: Global,
    q: u32,
    x: Interval,
    y: Interval,
    z: Interval,
) -> Result<Option<Interval>, Fail>
    requires { 1 ≤ q }
{
    let boxes = [line(alloc, x)?, line(alloc, y)?, line(alloc, z)?];
    let Some(hull) = IBox::q_hull(alloc, q, &boxes)? else {
        return Ok(None);
    };
    let _places = hull.dims();
    Ok(Some(hull.get(0)))
}

#[test]
fn q_hulls(rt: HostRuntime) -> Result<(), Fail> {
    let low = interval(0, 1)?;
    let middle = interval(2, 3)?;
    let long = interval(2, 5)?;
    let two = hull_of_three(rt.alloc(), 2, low, middle, long)?;
    assert_eq!(rt; two, Some(middle));
    let three = hull_of_three(rt.alloc(), 3, low, middle, long)?;
    assert_eq!(rt; three, None);
    let chained = hull_of_three(
        rt.alloc(),
        2,
        interval(0, 2)?,
        interval(1, 4)?,
        interval(3, 4)?,
    )?;
    assert_eq!(rt; chained, Some(interval(1, 4)?));
    Ok(())
}

// Where an interval is cut, as a whole number.
fn cut(alloc: Global, x: Option<Interval>) -> Result<Option<Num>, Fail> {
    let line = line(alloc, x.ok_or("no interval")?)?;
    match line.choose(Bisector::Largest, 0) {
        Some((_, at)) => Ok(Some(at)),
        None => Ok(None),
    }
}

#[test]
fn cuts(rt: HostRuntime) -> Result<(), Fail> {
    let alloc = rt.alloc();
    assert_eq!(rt; cut(alloc, ends(Some(0), Some(1)))?, Num::fin(1, -1));
    assert_eq!(rt; cut(alloc, ends(None, None))?, Some(Num::ZERO));
    assert_eq!(rt; cut(alloc, ends(None, Some(5)))?, Some(Num::ZERO));
    assert_eq!(rt; cut(alloc, ends(None, Some(0)))?, Num::fin(-1, 0));
    assert_eq!(rt; cut(alloc, ends(None, Some(-3)))?, Num::fin(-7, 0));
    assert_eq!(rt; cut(alloc, ends(Some(3), None))?, Num::fin(7, 0));
    assert_eq!(rt; cut(alloc, ends(Some(2), Some(2)))?, None);
    assert_eq!(rt; cut(alloc, Interval::new(Num::MAX, Num::POS_INF))?, None);
    assert_eq!(rt;
        cut(alloc, Interval::new(Num::NEG_INF, Num::MAX.neg()))?,
        None
    );
    Ok(())
}

// 2l + 1 is no format number and goes to the next one above; past the greatest number there is no
// cut.
#[test]
fn doubled_ends(rt: HostRuntime) -> Result<(), Fail> {
    let alloc = rt.alloc();
    let odd = Num::fin(2305843009213693953, 9);
    let low = Interval::new(odd.ok_or("no number")?, Num::POS_INF);
    assert_eq!(rt; cut(alloc, low)?, Num::fin(2305843009213693954, 10));
    let top = Interval::new(
        Num::fin(4611686018427387903, 449).ok_or("no number")?,
        Num::POS_INF,
    );
    assert_eq!(rt; cut(alloc, top)?, None);
    Ok(())
}

#[test]
fn choices(rt: HostRuntime) -> Result<(), Fail> {
    let alloc = rt.alloc();
    let square = plane(alloc, interval(0, 4)?, interval(0, 4)?)?;
    assert_eq!(rt;
        square.choose(Bisector::Largest, 1),
        Some((0, Num::fin(1, 1).ok_or("no number")?))
    );
    assert_eq!(rt;
        square.choose(Bisector::Round, 0),
        Some((0, Num::fin(1, 1).ok_or("no number")?))
    );
    assert_eq!(rt;
        square.choose(Bisector::Round, 3),
        Some((1, Num::fin(1, 1).ok_or("no number")?))
    );
    let strip = plane(alloc, interval(0, 4)?, Interval::ALL)?;
    assert_eq!(rt; strip.choose(Bisector::Largest, 0), Some((1, Num::ZERO)));
    let edge = plane(alloc, interval(3, 3)?, interval(0, 4)?)?;
    assert_eq!(rt;
        edge.choose(Bisector::Round, 2),
        Some((1, Num::fin(1, 1).ok_or("no number")?))
    );
    let corner = plane(alloc, interval(3, 3)?, interval(4, 4)?)?;
    assert_eq!(rt; corner.choose(Bisector::Round, 0), None);
    Ok(())
}

// The two places of a box.
fn places(b: &IBox) -> Option<(Interval, Interval)> {
    if b.dims() != 2 {
        return None;
    }
    Some((b.get(0), b.get(1)))
}

#[test]
fn meets_and_hulls(rt: HostRuntime) -> Result<(), Fail> {
    let alloc = rt.alloc();
    let mut met = plane(alloc, interval(0, 2)?, interval(0, 1)?)?;
    let apart = plane(alloc, interval(1, 3)?, interval(2, 3)?)?;
    assert!(rt; !met.meet(&apart));
    assert_eq!(rt; places(&met), Some((interval(0, 2)?, interval(0, 1)?)));
    let near = plane(alloc, interval(1, 3)?, interval(1, 2)?)?;
    assert!(rt; met.meet(&near));
    assert_eq!(rt; places(&met), Some((interval(1, 2)?, interval(1, 1)?)));
    let mut joined = near.clone_of(alloc)?;
    joined.hull(&apart);
    assert_eq!(rt; places(&joined), Some((interval(1, 3)?, interval(1, 3)?)));
    Ok(())
}

#[test]
fn places_set(rt: HostRuntime) -> Result<(), Fail> {
    let alloc = rt.alloc();
    let mut target = plane(alloc, interval(0, 9)?, interval(0, 9)?)?;
    let source = plane(alloc, interval(1, 3)?, interval(1, 3)?)?;
    target.copy_from(&source);
    target.set(1, interval(7, 8)?);
    assert_eq!(rt; places(&target), Some((interval(1, 3)?, interval(7, 8)?)));
    assert!(rt; target.is_small(Num::fin(1, 1).ok_or("no number")?));
    assert!(rt; !target.is_small(Num::ONE));
    Ok(())
}

#[test]
fn halves(rt: HostRuntime) -> Result<(), Fail> {
    let whole = plane(rt.alloc(), interval(0, 2)?, interval(0, 6)?)?;
    let (var, at) = whole.choose(Bisector::Largest, 0).ok_or("no choice")?;
    let (low, high) = whole.cut(rt.alloc(), var, at)?;
    assert_eq!(rt; places(&low), Some((interval(0, 2)?, interval(0, 3)?)));
    assert_eq!(rt; places(&high), Some((interval(0, 2)?, interval(3, 6)?)));
    Ok(())
}
