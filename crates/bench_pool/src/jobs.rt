//! Jobs that cost next to nothing, so that the pool is what is measured.
ghost use Rattle.std.specs.Prelude.{◌≡◌, ℕ, ◌<◌, ◌≤◌, ◌^◌, [], length, get_or, vec_len, IfOk};
ghost use Rattle.pv_pool.specs.Counting.{AreBelow, after_work, after_return, after_job, after_look, after_end};
ghost use Rattle.pv_pool.specs.Idling.{MatchIdle};

use pv_num::Memory;
use pv_pool::{Idle, Work, run_workers};
use pv_tree::Batch;
use std::alloc::Global;
use std::sync::atomic::{AtomicU64, Ordering};
use std::sync::{Condvar, Mutex, Wait};
use std::thread::Threads;

/// What a worker keeps of what it did.
#[derive(Drop)]
pub struct Counted {
    given: u128,
    back: u128,
    looks: u128,
    ends: u64,
}

/// Job n gives the jobs 2n + 1 and 2n + 2, as far as they are below `jobs`. No lock is taken while
/// all workers are busy.
#[derive(Drop)]
struct Doubling {
    jobs: u64,
    // The jobs that were not handed in yet.
    open: AtomicU64,
    steps: AtomicU64,
    // The workers that wait.
    idle: AtomicU64,
    // Whether job 0 was handed out.
    begun: Mutex<bool>,
    changed: Condvar,
}

impl Doubling {
    fn new(jobs: u64) -> Doubling {
        Doubling {
            jobs,
            open: AtomicU64::new(1),
            steps: AtomicU64::new(0),
            idle: AtomicU64::new(0),
            begun: Mutex::new(false),
            changed: Condvar::new(),
        }
    }

    /// A job was handed in that gave `count` further ones.
    fn hand_in(&self, count: u64) {
        if count > 1 {
            self.open.fetch_add(count - 1, Ordering::SeqCst);
        }
        if count == 0 {
            self.open.fetch_sub(1, Ordering::SeqCst);
        }
    }
}

impl Work for Doubling {
    type Job = u64;

    type Told = Counted;

    ghost numbers = { λ t. record { given = t.given; back = t.back; looks = t.looks; ends = t.ends; parts = 1 } };

    fn work<R: Wait>(
        &self,
        _rt: &R,
        _worker: u64,
        job: u64,
        told: &mut Counted,
        children: &mut Batch<u64>,
    ) {
        let low = job.wrapping_mul(2).wrapping_add(1);
        let high = low.wrapping_add(1);
        if low < self.jobs {
            children.push(low);
        }
        if high < self.jobs {
            children.push(high);
        }
        let count = children.len();
        told.given += u128::from(count);
        told.back += 1;
        self.hand_in(u64::from(count));
    }

    fn give_back<R: Wait>(&self, _rt: &R, _job: u64, told: &mut Counted) {
        told.back += 1;
        self.hand_in(0);
    }

    fn announce<R: Wait>(&self, rt: &R) {
        self.steps.fetch_add(1, Ordering::SeqCst);
        if self.idle.load(Ordering::SeqCst) > 0 {
            let _begun = self.begun.lock(rt);
            self.changed.notify_all();
        }
    }

    fn idle<R: Wait>(&self, rt: &R, seen: u64, told: &mut Counted) -> Idle<u64> {
        let mut begun = self.begun.lock(rt);
        if !*begun {
            *begun = true;
            told.given += 1;
            return Idle::Job(0);
        }
        self.idle.fetch_add(1, Ordering::SeqCst);
        let _begun = self.changed.wait_while(rt, begun, |_| {
            self.open.load(Ordering::SeqCst) != 0 && self.steps.load(Ordering::SeqCst) == seen
        });
        self.idle.fetch_sub(1, Ordering::SeqCst);
        if self.open.load(Ordering::SeqCst) == 0 && told.ends < u64::MAX {
            told.ends += 1;
            return Idle::Done;
        }
        told.looks += 1;
        Idle::Look(self.steps.load(Ordering::SeqCst))
    }
}

/// New accounts.
fn accounts(alloc: Global, count: usize) -> Result<Vec<Counted>, Memory>
    ensures count { IfOk result (λ v. vec_len v ≡ count) }
    ensures fresh { IfOk result (λ v. (i : ℕ) (t : Counted) → i < count →
        ((get_or v.items i t).given ≡ 0) × ((get_or v.items i t).back ≡ 0) ×
        ((get_or v.items i t).looks ≡ 0)) }
{
    let mut told = Vec::with_capacity(alloc, count)?;
    for _ in 0..count {
        told.push_reserved(Counted {
            given: 0,
            back: 0,
            looks: 0,
            ends: 0,
        });
    }
    Ok(told)
}

/// How many of `jobs` jobs `workers` workers worked, or at least 1 and at most 16 of them.
pub fn work_all<R: Threads + Wait + Sync>(
    rt: &R,
    alloc: Global,
    jobs: u64,
    workers: u64,
) -> Result<u128, Memory> {
    let work = Doubling::new(jobs);
    let told = accounts(alloc, workers.clamp(1, 16) as usize)?;
    let Ok(told) = run_workers(rt, alloc, &work, told) else {
        return Err(Memory);
    };
    let mut worked = 0u128;
    for t in told.as_slice() {
        worked = worked.wrapping_add(t.back);
    }
    Ok(worked)
}
