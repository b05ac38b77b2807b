//! What goes through the deques.
ghost use Rattle.std.specs.Prelude.{ℕ, ◌^◌, ◌<◌, ◌≤◌, get_or, vec_len, IfOk};
ghost use Rattle.pv_pool.specs.Accounts.{HaveAccounts};
ghost use Rattle.pv_pool.specs.Counting.{AreBelow};
ghost use Rattle.pv_tree.specs.declared.limit.TheConstants.{MOST_WORKERS};

use pv_pool::{PoolRefused, Work, run_workers};
use std::alloc::Global;
use std::sync::Wait;
use std::thread::Threads;

/// Each job that is pushed is popped, stolen or left, once, and each worker accounts for its own.
pub fn follow_jobs<W: Work + Sync, R: Threads + Wait + Sync>(
    rt: &R,
    alloc: Global,
    work: &W,
    told: Vec<W::Told>,
) -> Result<Vec<W::Told>, PoolRefused<W::Told>>
    requires some { 1 ≤ vec_len told }
    requires few { vec_len told ≤ MOST_WORKERS }
    requires room { (i : ℕ) (t : W.Told) → i < vec_len told →
        AreBelow (2 ^ 90) (W.numbers (get_or told.items i t)) }
    ensures { IfOk result (λ after. HaveAccounts W.Job W.numbers told.items after.items) }
{
    run_workers(rt, alloc, work, told)
}
