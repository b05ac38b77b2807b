//! How jobs are counted.
ghost use Rattle.std.specs.Prelude.{◌≡◌, ℕ, ◌+◌, ◌^◌, ◌<◌, ◌≤◌, [], length, get_or, vec_len, IfOk, sum_by};
ghost use Rattle.pv_pool.specs.Counting.{AreBelow, after_work, after_job, after_look, after_end};
ghost use Rattle.pv_pool.specs.Idling.{MatchIdle};
ghost use Rattle.pv_tree.specs.Limits.{told_room};
ghost use Rattle.pv_tree.specs.declared.limit.TheConstants.{MOST_WORKERS};

use pv_pool::{Idle, PoolRefused, Work, run_workers};
use pv_tree::Batch;
use std::alloc::Global;
use std::sync::Wait;
use std::thread::Threads;

/// The workers together hand in as many jobs as they are given.
pub fn count_jobs<W: Work + Sync, R: Threads + Wait + Sync>(
    rt: &R,
    alloc: Global,
    work: &W,
    told: Vec<W::Told>,
) -> Result<Vec<W::Told>, PoolRefused<W::Told>>
    requires some { 1 ≤ vec_len told }
    requires few { vec_len told ≤ MOST_WORKERS }
    requires room { (i : ℕ) (t : W.Told) → i < vec_len told →
        AreBelow (2 ^ 90) (W.numbers (get_or told.items i t)) }
    ensures { IfOk result (λ after.
        sum_by (λ t. (W.numbers t).given) after.items + sum_by (λ t.
        (W.numbers t).back) told.items ≡
        sum_by (λ t. (W.numbers t).given) told.items + sum_by (λ t.
        (W.numbers t).back) after.items) }
{
    run_workers(rt, alloc, work, told)
}

/// A job that is worked counts as handed in, and those that it gives count as given.
pub fn do_job<W: Work, R: Wait>(
    rt: &R,
    work: &W,
    worker: u64,
    job: W::Job,
    told: &mut W::Told,
    children: &mut Batch<W::Job>,
)
    requires none { children.old ≡ [] }
    requires room { AreBelow told_room (W.numbers told.old) }
    ensures { W.numbers told.new ≡ after_work (length children.new) (W.numbers told.old) }
{
    work.work(rt, worker, job, told, children);
}

/// An idle worker counts what it is answered.
pub fn ask<W: Work, R: Wait>(rt: &R, work: &W, seen: u64, told: &mut W::Told) -> Idle<W::Job>
    requires { AreBelow told_room (W.numbers told.old) }
    ensures { MatchIdle result
        (λ _. W.numbers told.new ≡ after_job (W.numbers told.old))
        (W.numbers told.new ≡ after_end (W.numbers told.old))
        (λ _. W.numbers told.new ≡ after_look (W.numbers told.old)) }
{
    work.idle(rt, seen, told)
}
