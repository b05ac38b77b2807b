//! Work that several workers do, and work that takes two of them.
ghost use Rattle.std.specs.Prelude.{◌≡◌, ℕ, ◌<◌, ◌^◌, [], length, get_or, vec_len, IfOk};
ghost use Rattle.pv_pool.specs.Counting.{AreBelow, after_work, after_return, after_job, after_look, after_end};
ghost use Rattle.pv_pool.specs.Idling.{MatchIdle};

use pv_pool::{Idle, Work, run_workers};
use pv_tree::Batch;
use std::alloc::{AllocError, Global};
use std::sync::atomic::{AtomicBool, Ordering};
use std::sync::{Condvar, Mutex, Wait};
use std::test::Fail;
use std::thread;
use std::time::{Clock, Duration};

// What a worker keeps of what it did.
#[derive(Drop)]
pub(crate) struct Counted {
    pub(crate) given: u128,
    pub(crate) back: u128,
    pub(crate) looks: u128,
    pub(crate) ends: u64,
}

// What all workers share: whether job 0 was handed out, the jobs that are not handed in yet, the
// jobs that were worked and given back, and a number that changes.
#[derive(Drop)]
struct State {
    begun: bool,
    open: u64,
    worked: u64,
    given_back: u64,
    steps: u64,
}

// Job n below `jobs` gives the jobs 2n + 1 and 2n + 2 where they are below it. Where `meets` is
// set, the jobs 1 and 2 wait for each other.
#[derive(Drop)]
struct Doubling<'a, C> {
    clock: &'a C,
    jobs: u64,
    meets: bool,
    one: AtomicBool,
    two: AtomicBool,
    missed: AtomicBool,
    state: Mutex<State>,
    changed: Condvar,
}

impl<'a, C: Clock> Doubling<'a, C> {
    fn new(clock: &'a C, jobs: u64, meets: bool) -> Doubling<'a, C> {
        Doubling {
            clock,
            jobs,
            meets,
            one: AtomicBool::new(false),
            two: AtomicBool::new(false),
            missed: AtomicBool::new(false),
            state: Mutex::new(State {
                begun: false,
                open: 0,
                worked: 0,
                given_back: 0,
                steps: 0,
            }),
            changed: Condvar::new(),
        }
    }

    // Says that a job began, and waits until the other did, for a bounded time.
    fn meet(&self, mine: &AtomicBool, other: &AtomicBool) {
        mine.store(true, Ordering::SeqCst);
        for _ in 0..100_000u32 {
            if other.load(Ordering::SeqCst) {
                return;
            }
            thread::sleep(self.clock, Duration::from_micros(100));
        }
        self.missed.store(true, Ordering::SeqCst);
    }
}

impl<'a, C: Clock> Work for Doubling<'a, C> {
    type Job = u64;

    type Told = Counted;

    ghost numbers = { λ t. record { given = t.given; back = t.back; looks = t.looks; ends = t.ends; parts = 1 } };

    fn work<R: Wait>(
        &self,
        rt: &R,
        _worker: u64,
        job: u64,
        told: &mut Counted,
        children: &mut Batch<u64>,
    ) {
        if self.meets && job == 1 {
            self.meet(&self.one, &self.two);
        }
        if self.meets && job == 2 {
            self.meet(&self.two, &self.one);
        }
        let low = job.wrapping_mul(2).wrapping_add(1);
        let high = low.wrapping_add(1);
        if low < self.jobs {
            children.push(low);
        }
        if high < self.jobs {
            children.push(high);
        }
        let count = children.len();
        told.given += u128::from(count);
        told.back += 1;
        let mut state = self.state.lock(rt);
        state.open = state.open.wrapping_add(u64::from(count)).wrapping_sub(1);
        state.worked = state.worked.wrapping_add(1);
    }

    fn give_back<R: Wait>(&self, rt: &R, _job: u64, told: &mut Counted) {
        told.back += 1;
        let mut state = self.state.lock(rt);
        state.open = state.open.wrapping_sub(1);
        state.given_back = state.given_back.wrapping_add(1);
        self.changed.notify_all();
    }

    fn announce<R: Wait>(&self, rt: &R) {
        let mut state = self.state.lock(rt);
        state.steps = state.steps.wrapping_add(1);
        self.changed.notify_all();
    }

    fn idle<R: Wait>(&self, rt: &R, seen: u64, told: &mut Counted) -> Idle<u64> {
        let mut state = self.changed.wait_while(rt, self.state.lock(rt), |s| {
            s.begun && s.open != 0 && s.steps == seen
        });
        if !state.begun {
            state.begun = true;
            state.open = 1;
            told.given += 1;
            return Idle::Job(0);
        }
        if state.open == 0 && told.ends < u64::MAX {
            told.ends += 1;
            return Idle::Done;
        }
        told.looks += 1;
        Idle::Look(state.steps)
    }
}

// New accounts.
pub(crate) fn accounts(alloc: Global, count: usize) -> Result<Vec<Counted>, AllocError>
    ensures count { IfOk result (λ v. vec_len v ≡ count) }
    ensures fresh { IfOk result (λ v. (i : ℕ) (t : Counted) → i < count →
        ((get_or v.items i t).given ≡ 0) × ((get_or v.items i t).back ≡ 0) ×
        ((get_or v.items i t).looks ≡ 0)) }
{
    let mut told = Vec::with_capacity(alloc, count)?;
    for _ in 0..count {
        told.push_reserved(Counted {
            given: 0,
            back: 0,
            looks: 0,
            ends: 0,
        });
    }
    Ok(told)
}

// How many jobs were given and handed in.
pub(crate) fn sums(told: &[Counted]) -> (u128, u128) {
    let (mut given, mut back) = (0u128, 0u128);
    for t in told {
        given = given.wrapping_add(t.given);
        back = back.wrapping_add(t.back);
    }
    (given, back)
}

#[test]
fn a_thousand_jobs_by_four(rt: HostRuntime) -> Result<(), Fail> {
    let work = Doubling::new(&rt, 1000, false);
    let done = run_workers(&rt, rt.alloc(), &work, accounts(rt.alloc(), 4)?);
    let told = done.ok().expect(&rt, "there is memory");
    assert_eq!(rt; sums(told.as_slice()), (1000, 1000));
    let state = work.state.lock(&rt);
    assert_eq!(rt; (state.worked, state.given_back), (1000, 0));
    Ok(())
}

#[test]
fn a_thousand_jobs_by_one_and_by_sixteen(rt: HostRuntime) -> Result<(), Fail> {
    let work = Doubling::new(&rt, 1000, false);
    let done = run_workers(&rt, rt.alloc(), &work, accounts(rt.alloc(), 1)?);
    let told = done.ok().expect(&rt, "there is memory");
    assert_eq!(rt; sums(told.as_slice()), (1000, 1000));
    let work = Doubling::new(&rt, 1000, false);
    let done = run_workers(&rt, rt.alloc(), &work, accounts(rt.alloc(), 16)?);
    let told = done.ok().expect(&rt, "there is memory");
    assert_eq!(rt; sums(told.as_slice()), (1000, 1000));
    Ok(())
}

#[test]
fn two_jobs_meet(rt: HostRuntime) -> Result<(), Fail> {
    let work = Doubling::new(&rt, 3, true);
    let done = run_workers(&rt, rt.alloc(), &work, accounts(rt.alloc(), 2)?);
    assert!(rt; done.is_ok());
    assert!(rt; !work.missed.load(Ordering::SeqCst));
    Ok(())
}
