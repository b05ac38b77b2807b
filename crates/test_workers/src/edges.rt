//! Work that outgrows a deque's first room, and work that is done at once.
ghost use Rattle.std.specs.Prelude.{◌≡◌, ◌≤◌, [], length, vec_len};
ghost use Rattle.pv_pool.specs.Counting.{AreBelow, after_work, after_return, after_job, after_look, after_end};
ghost use Rattle.pv_pool.specs.Idling.{MatchIdle};

use crate::pool::{Counted, accounts, sums};
use pv_pool::{Idle, Work, run_workers};
use pv_tree::Batch;
use std::alloc::{AllocError, Global};
use std::sync::atomic::{AtomicU64, Ordering};
use std::sync::{Mutex, Wait};
use std::test::Fail;
use std::thread::Threads;

// How far a comb has come: its next tooth, the jobs that are not handed in yet, and those that were
// worked and given back.
#[derive(Drop)]
struct Teeth {
    begun: bool,
    open: u64,
    worked: u64,
    given_back: u64,
}

// Job n below `teeth` gives the job n + 1, which its worker takes next, and 16 jobs that give none.
#[derive(Drop)]
struct Comb {
    teeth: u64,
    state: Mutex<Teeth>,
}

impl Work for Comb {
    type Job = u64;

    type Told = Counted;

    ghost numbers = { λ t. record { given = t.given; back = t.back; looks = t.looks; ends = t.ends; parts = 1 } };

    fn work<R: Wait>(
        &self,
        rt: &R,
        _worker: u64,
        job: u64,
        told: &mut Counted,
        children: &mut Batch<u64>,
    ) {
        if job < self.teeth {
            children.push(job + 1);
            while children.len() < 17 {
                children.push(u64::MAX);
            }
        }
        let count = children.len();
        told.given += u128::from(count);
        told.back += 1;
        let mut state = self.state.lock(rt);
        state.open = state.open.wrapping_add(u64::from(count)).wrapping_sub(1);
        state.worked = state.worked.wrapping_add(1);
    }

    fn give_back<R: Wait>(&self, rt: &R, _job: u64, told: &mut Counted) {
        told.back += 1;
        let mut state = self.state.lock(rt);
        state.open = state.open.wrapping_sub(1);
        state.given_back = state.given_back.wrapping_add(1);
    }

    fn announce<R: Wait>(&self, _rt: &R) {}

    fn idle<R: Wait>(&self, rt: &R, seen: u64, told: &mut Counted) -> Idle<u64> {
        let mut state = self.state.lock(rt);
        if !state.begun {
            state.begun = true;
            state.open = 1;
            told.given += 1;
            return Idle::Job(0);
        }
        if state.open == 0 && told.ends < u64::MAX {
            told.ends += 1;
            return Idle::Done;
        }
        told.looks += 1;
        Idle::Look(seen)
    }
}

// Work that is done before it begins. It counts the calls that it should not get.
#[derive(Drop)]
struct Nothing {
    calls: AtomicU64,
}

impl Nothing {
    fn call(&self) {
        self.calls.fetch_add(1, Ordering::SeqCst);
    }
}

impl Work for Nothing {
    type Job = u64;

    type Told = Counted;

    ghost numbers = { λ t. record { given = t.given; back = t.back; looks = t.looks; ends = t.ends; parts = 1 } };

    fn work<R: Wait>(
        &self,
        _rt: &R,
        _worker: u64,
        _job: u64,
        told: &mut Counted,
        _children: &mut Batch<u64>,
    ) {
        self.call();
        told.back += 1;
    }

    fn give_back<R: Wait>(&self, _rt: &R, _job: u64, told: &mut Counted) {
        self.call();
        told.back += 1;
    }

    fn announce<R: Wait>(&self, _rt: &R) {
        self.call();
    }

    fn idle<R: Wait>(&self, _rt: &R, seen: u64, told: &mut Counted) -> Idle<u64> {
        if told.ends == u64::MAX {
            told.looks += 1;
            return Idle::Look(seen);
        }
        told.ends += 1;
        Idle::Done
    }
}

// Whether `workers` workers hand in each job of a comb that they are given. A push that is refused
// for want of memory gives a job back; where none is, all jobs are worked.
fn combs<R: Threads + Wait + Sync>(
    rt: &R,
    alloc: Global,
    workers: usize,
) -> Result<bool, AllocError>
    requires some { 1 ≤ workers }
    requires few { workers ≤ 16 }
{
    let work = Comb {
        teeth: 100,
        state: Mutex::new(Teeth {
            begun: false,
            open: 0,
            worked: 0,
            given_back: 0,
        }),
    };
    let told = match run_workers(rt, alloc, &work, accounts(alloc, workers)?) {
        Ok(told) => told,
        Err(refused) => return Ok(sums(refused.told.as_slice()) == (0, 0)),
    };
    let (given, back) = sums(told.as_slice());
    let state = work.state.lock(rt);
    let handed_in = state.worked.wrapping_add(state.given_back);
    let all = state.given_back > 0 || state.worked == 1701;
    Ok(given == back && given == u128::from(handed_in) && all)
}

// Whether each of `workers` workers is told once that all is done, and nothing else is asked.
fn ends_at_once<R: Threads + Wait + Sync>(
    rt: &R,
    alloc: Global,
    workers: usize,
) -> Result<bool, AllocError>
    requires some { 1 ≤ workers }
    requires few { workers ≤ 16 }
{
    let work = Nothing {
        calls: AtomicU64::new(0),
    };
    let told = match run_workers(rt, alloc, &work, accounts(alloc, workers)?) {
        Ok(told) => told,
        Err(refused) => return Ok(refused.told.len() == workers),
    };
    let once = told.iter().all(|t| t.ends == 1 && t.given == 0 && t.back == 0 && t.looks == 0);
    Ok(once && work.calls.load(Ordering::SeqCst) == 0)
}

#[test]
fn deques_that_grow(rt: HostRuntime) -> Result<(), Fail> {
    assert!(rt; combs(&rt, rt.alloc(), 1)?);
    assert!(rt; combs(&rt, rt.alloc(), 4)?);
    assert!(rt; combs(&rt, rt.alloc(), 16)?);
    Ok(())
}

#[test]
fn work_that_is_done_at_once(rt: HostRuntime) -> Result<(), Fail> {
    assert!(rt; ends_at_once(&rt, rt.alloc(), 1)?);
    assert!(rt; ends_at_once(&rt, rt.alloc(), 2)?);
    assert!(rt; ends_at_once(&rt, rt.alloc(), 16)?);
    Ok(())
}
