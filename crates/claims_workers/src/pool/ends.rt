//! When workers end.
ghost use Rattle.std.specs.Prelude.{ℕ, ◌^◌, ◌<◌, ◌≤◌, get_or, vec_len, IfOk};
ghost use Rattle.pv_pool.specs.Counting.{AreBelow, HasServed};
ghost use Rattle.pv_tree.specs.declared.limit.TheConstants.{MOST_WORKERS};

use pv_pool::{PoolRefused, Work, run_workers};
use std::alloc::Global;
use std::sync::Wait;
use std::thread::Threads;

/// Each worker works until it is told that all is done.
pub fn serve<W: Work + Sync, R: Threads + Wait + Sync>(
    rt: &R,
    alloc: Global,
    work: &W,
    told: Vec<W::Told>,
) -> Result<Vec<W::Told>, PoolRefused<W::Told>>
    requires some { 1 ≤ vec_len told }
    requires few { vec_len told ≤ MOST_WORKERS }
    requires room { (i : ℕ) (t : W.Told) → i < vec_len told →
        AreBelow (2 ^ 90) (W.numbers (get_or told.items i t)) }
    ensures { IfOk result (λ after. (i : ℕ) (t : W.Told) → i < vec_len told →
        HasServed (W.numbers (get_or told.items i t)) (W.numbers (get_or after.items i t))) }
{
    run_workers(rt, alloc, work, told)
}
