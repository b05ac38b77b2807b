//! How often something is seen, whatever the machine does beside it.
use std::alloc::Global;
use std::thread;
use std::thread::Threads;

/// In how many of some tries, one after the other, it is seen, up to the first in which it isn't.
pub fn seen<F: Fn() -> bool>(tries: u32, is_seen: &F) -> u32
    requires { F.IsAlwaysCallable is_seen.now }
{
    let mut seen = 0u32;
    for _ in 0..tries {
        if !is_seen() {
            return seen;
        }
        seen = seen.saturating_add(1);
    }
    seen
}

/// The same of 16 times as many, 16 at a time.
pub fn seen_by_sixteen<F: Fn() -> bool + Sync, R: Threads + Sync>(
    rt: &R,
    alloc: Global,
    tries: u32,
    is_seen: &F,
) -> u32
    requires { F.IsAlwaysCallable is_seen.now }
{
    let one = |_: usize| seen(tries, is_seen);
    let Ok(counts) = thread::map_indices(rt, alloc, 16, &one) else {
        return 0;
    };
    counts
        .iter()
        .fold(0u32, |sum, count| sum.saturating_add(*count))
}
