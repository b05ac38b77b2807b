//! The text of the line, and that workers may share a progress.
use crate::line::line_of;
use crate::progress::Progress;
use pv_pool::Gate;
use pv_tree::Path;
use std::test::Fail;
use std::thread::{Threads, join};

#[test]
fn lines_have_grouped_digits(rt: HostRuntime) -> Result<(), Fail> {
    let alloc = rt.alloc();
    let cases = [
        (0u64, 0u64, 1u64, "0 settled, 0 a second, 1 worker"),
        (999, 1000, 2, "999 settled, 999 a second, 2 workers"),
        (1000, 2000, 16, "1,000 settled, 500 a second, 16 workers"),
        (
            1_234_000,
            2000,
            4,
            "1,234,000 settled, 617,000 a second, 4 workers",
        ),
        (
            u64::MAX,
            1,
            1,
            "18,446,744,073,709,551,615 settled, 18,446,744,073,709,551,615 a second, 1 worker",
        ),
    ];
    for (settled, milliseconds, workers, want) in cases {
        let line = line_of(alloc, settled, milliseconds, workers)?;
        assert_eq!(rt; line.as_slice(), want.as_bytes());
    }
    Ok(())
}

// Two threads enter a gate.
fn enter_both<R: Threads + Sync, G: Gate + Sync>(rt: &R, gate: &G) {
    join(
        rt,
        || gate.enter(0, Path::ROOT),
        || gate.enter(1, Path::ROOT),
    );
}

#[test]
fn workers_share_a_progress(rt: HostRuntime) -> Result<(), Fail> {
    let progress = Progress::new(&rt);
    enter_both(&rt, &progress);
    progress.clear();
    Ok(())
}
