//! Audits by 1 to 16 workers. Expected paths and outcomes were worked out by hand.
ghost use Rattle.std.specs.Prelude.{◌≡◌, ◌≤◌, length, IfOk};

use pv_audit::audit_by_workers;
use pv_box::IBox;
use pv_interval::Interval;
use pv_join::Audit;
use pv_num::{Memory, Num};
use pv_tree::{Outcome, Path, Paving};
use std::alloc::Global;
use std::test::Fail;
use std::thread::Threads;
use test_sample::{Above, settle_first};

const CREWS: [u32; 6] = [1, 2, 3, 4, 7, 16];

fn number(m: i64, e: i16) -> Num {
    Num::fin(m, e).unwrap_or(Num::ZERO)
}

fn unit() -> Interval {
    Interval::new(Num::ZERO, Num::ONE).unwrap_or(Interval::ALL)
}

// The box [0,1].
fn unit_box(alloc: Global) -> Result<IBox, Memory>
    ensures { IfOk result (λ b. length b ≡ 1) }
{
    let mut parts = Vec::new(alloc);
    parts.push(unit())?;
    Ok(IBox::new(parts))
}

// The box [0,1]x[0,1].
fn square(alloc: Global) -> Result<IBox, Memory>
    ensures { IfOk result (λ b. length b ≡ 2) }
{
    let mut parts = Vec::new(alloc);
    parts.push(unit())?;
    parts.push(unit())?;
    Ok(IBox::new(parts))
}

// The settler of the points of [0,1] from a limit on.
fn from_limit(limit: Num, depth: u32) -> Above
    requires some { 1 ≤ depth }
    requires few { depth ≤ 200 }
    ensures dims { result.dims ≡ 1 }
{
    Above::new(1, limit, 0, depth)
}

// The paving of a box after `most` settlings.
fn paved(alloc: Global, settler: &Above, root: IBox, most: u32) -> Result<Paving, Memory>
    requires { length root ≡ settler.now.dims }
    ensures { IfOk result (λ p. p.root ≡ root) }
{
    let mut scratch = root.clone_of(alloc)?;
    let mut paving = Paving::open(alloc, root)?;
    settle_first(alloc, settler, &mut paving, most, &mut scratch)?;
    Ok(paving)
}

// Whether a path has this text.
fn is_path(alloc: Global, path: Path, text: &str) -> Result<bool, Memory> {
    let mut out = Vec::new(alloc);
    path.write_text(&mut out)?;
    Ok(out.as_slice() == text.as_bytes())
}

// What is due where an audit finds its first difference.
fn kind_of(outcome: &Outcome) -> &'static str {
    match outcome {
        Outcome::Removed => "removed",
        Outcome::Inner { to: _ } => "inner",
        Outcome::Small { to: _ } => "small",
        Outcome::Cut {
            to: _,
            var: _,
            at: _,
        } => "cut",
    }
}

// Whether an audit by so many workers finds its first difference at the path of this text, where an
// outcome of this kind is due.
fn finds<R: Threads + Sync>(
    rt: &R,
    alloc: Global,
    settler: &Above,
    paving: &Paving,
    workers: u32,
    text: &str,
    due: &str,
) -> Result<bool, Memory>
    requires dims { length paving.now.root ≡ settler.now.dims }
    requires one { 1 ≤ workers }
    requires few { workers ≤ 16 }
{
    match audit_by_workers(rt, alloc, settler, paving, workers)? {
        Audit::Honest => Ok(false),
        Audit::DiffersAt { path, outcome } => {
            Ok(is_path(alloc, path, text)? && kind_of(&outcome) == due)
        }
    }
}

// Whether an audit by so many workers finds no difference.
fn is_honest<R: Threads + Sync>(
    rt: &R,
    alloc: Global,
    settler: &Above,
    paving: &Paving,
    workers: u32,
) -> Result<bool, Memory>
    requires dims { length paving.now.root ≡ settler.now.dims }
    requires one { 1 ≤ workers }
    requires few { workers ≤ 16 }
{
    match audit_by_workers(rt, alloc, settler, paving, workers)? {
        Audit::Honest => Ok(true),
        _ => Ok(false),
    }
}

#[test]
fn stages_are_honest(rt: HostRuntime) -> Result<(), Fail> {
    let alloc = rt.alloc();
    // The points of a square from about 1/3 on: 543 nodes.
    let third = Above::new(2, number(0x1555_5555, -30), 4, 20);
    for most in [0u32, 1, 40, 543] {
        let paving = paved(alloc, &third, square(alloc)?, most)?;
        assert!(rt; paving.counts().settled() == u64::from(most));
        for workers in CREWS {
            assert!(rt;
                is_honest(&rt, alloc, &third, &paving, workers)?,
                "{most} {workers}"
            );
        }
    }
    Ok(())
}

#[test]
fn the_first_of_many_differences(rt: HostRuntime) -> Result<(), Fail> {
    let alloc = rt.alloc();
    // Four cuts of place 1 make 16 strips. In each the box from 0 to 1/2 was cut; it has no point
    // from 1 on.
    let third = Above::new(2, number(0x1555_5555, -30), 4, 20);
    let paving = paved(alloc, &third, square(alloc)?, 543)?;
    let ones = Above::new(2, Num::ONE, 4, 20);
    for workers in CREWS {
        assert!(rt;
            finds(&rt, alloc, &ones, &paving, workers, "00000", "removed")?,
            "{workers}"
        );
    }
    Ok(())
}

#[test]
fn differences_beside_each_other(rt: HostRuntime) -> Result<(), Fail> {
    let alloc = rt.alloc();
    // The nodes are a cut, the cut "0", the small "00" and the inner "01" and "1".
    let paving = paved(alloc, &from_limit(number(1, -2), 2), unit_box(alloc)?, 5)?;
    // From 3/8 on, "00" is to be removed and "01" small.
    let later = from_limit(number(3, -3), 2);
    // Of fewer cuts, "0" is to be small.
    let shallow = from_limit(number(1, -2), 1);
    for workers in CREWS {
        assert!(rt;
            finds(&rt, alloc, &later, &paving, workers, "00", "removed")?,
            "{workers}"
        );
        assert!(rt;
            finds(&rt, alloc, &shallow, &paving, workers, "0", "small")?,
            "{workers}"
        );
    }
    Ok(())
}

#[test]
fn a_difference_at_the_last_node(rt: HostRuntime) -> Result<(), Fail> {
    let alloc = rt.alloc();
    let quarter = from_limit(number(1, -2), 2);
    let mut paving = paved(alloc, &quarter, unit_box(alloc)?, 4)?;
    // From 3/4 on, the last leaf, from 1/2 to 1, is cut, where it is to be inner.
    let mut scratch = unit_box(alloc)?;
    settle_first(
        alloc,
        &from_limit(number(3, -2), 2),
        &mut paving,
        1,
        &mut scratch,
    )?;
    assert!(rt; paving.counts().cut == 3);
    for workers in CREWS {
        assert!(rt;
            finds(&rt, alloc, &quarter, &paving, workers, "1", "inner")?,
            "{workers}"
        );
    }
    Ok(())
}
