//! One worker: it works the jobs that it finds until all is done.
ghost use Rattle.std.specs.Prelude.{◌≡◌, ℕ, ◌+◌, ◌*◌, ◌^◌, ◌<◌, ◌≤◌, [], ◌∷◌, ◌++◌, length};
ghost use Rattle.crossbeam_deque.specs.Handles.{worker_deque};
ghost use Rattle.pv_pool.specs.Counting.{AreBelow, Found, Offered, Worked, Lasted, Ended, after_look, after_end};
ghost use Rattle.pv_pool.specs.Idling.{MatchIdle};
ghost use Rattle.pv_pool.specs.Benches.{own, drawn, put, MayWork, SameBench};
ghost use Rattle.pv_tree.specs.declared.batch.TheConstants.{MOST_BATCH};
ghost use Rattle.pv_tree.specs.Limits.{told_room};

use crate::bench::{Bench, steal};
use crate::deque::Owner;
use crate::work::{Idle, Work};
use pv_tree::Batch;
use std::sync::Wait;

// So many rounds a worker makes at most.
const MOST_ROUNDS: u64 = 1 << 63;

// So many times more a worker that has no job tries to steal one before it waits, some 50
// microseconds: to wait and to be told costs about as much.
const MORE_TRIES: u32 = 100;

/// Works the jobs that it finds until it is told that all is done.
pub fn run<W: Work, R: Wait>(
    rt: &R,
    work: &W,
    number: u64,
    bench: &mut Bench<W::Job>,
    told: &mut W::Told,
)
    requires work { MayWork bench.old }
    requires room { AreBelow (2 ^ 90) (W.numbers told.old) }
    ensures same { SameBench bench.old bench.new }
    ensures ended { Ended (W.numbers told.old) (W.numbers told.new) (drawn bench.old)
        (drawn bench.new) (put bench.old) (put bench.new) }
{
    let mut seen = 0;
    let mut more = 0;
    let mut rounds: u64 = 0;
    for _ in rt.forever() {
        if rounds == MOST_ROUNDS {
            return;
        }
        match find(rt, work, seen, more, bench, told) {
            Idle::Job(job) => {
                work_one(rt, work, number, job, bench, told);
                more = 0;
            }
            Idle::Look(steps) => {
                seen = steps;
                more = MORE_TRIES;
            }
            Idle::Done => return,
        }
        rounds += 1;
    }
    unreachable!()
}

// A job of its own, or else one that it steals in `more` tries beside the first, or else one that
// it is handed.
fn find<W: Work, R: Wait>(
    rt: &R,
    work: &W,
    seen: u64,
    more: u32,
    bench: &mut Bench<W::Job>,
    told: &mut W::Told,
) -> Idle<W::Job>
    requires work { MayWork bench.old }
    requires room { AreBelow told_room (W.numbers told.old) }
    ensures same { SameBench bench.old bench.new }
    ensures put { put bench.new ≡ put bench.old }
    ensures found { MatchIdle result
        (λ _. Found (W.numbers told.old) (W.numbers told.new) (drawn bench.old) (drawn bench.new))
        ((W.numbers told.new ≡ after_end (W.numbers told.old)) × (drawn bench.new ≡ drawn bench.old))
        (λ _. (W.numbers told.new ≡ after_look (W.numbers told.old))
        × (drawn bench.new ≡ drawn bench.old)) }
{
    if let Some(job) = bench.owner.pop() {
        return Idle::Job(job);
    }
    if let Some(job) = steal(&mut bench.thieves, more) {
        return Idle::Job(job);
    }
    work.idle(rt, seen, told)
}

// Works a job, and offers those that it gives.
fn work_one<W: Work, R: Wait>(
    rt: &R,
    work: &W,
    number: u64,
    job: W::Job,
    bench: &mut Bench<W::Job>,
    told: &mut W::Told,
)
    requires work { MayWork bench.old }
    requires room { AreBelow (2 ^ 99) (W.numbers told.old) }
    ensures same { SameBench bench.old bench.new }
    ensures drawn { drawn bench.new ≡ drawn bench.old }
    ensures worked { Worked (W.numbers told.old) (W.numbers told.new) (put bench.old)
        (put bench.new) }
{
    work.work(rt, number, job, told, &mut bench.children);
    let _count = bench.children.len();
    offer_all(rt, work, &mut bench.children, &mut bench.owner, told);
    work.announce(rt);
}

// Pushes the jobs of a batch. Those that are refused are given back.
fn offer_all<W: Work, R: Wait>(
    rt: &R,
    work: &W,
    children: &mut Batch<W::Job>,
    owner: &mut Owner<W::Job>,
    told: &mut W::Told,
)
    requires part { 0 < (own owner.old).parts }
    requires few { length children.old ≤ MOST_BATCH }
    requires room { AreBelow (2 ^ 99 + 18) (W.numbers told.old) }
    ensures none { children.new ≡ [] }
    ensures deque { worker_deque owner.new.worker ≡ worker_deque owner.old.worker }
    ensures parts { (own owner.new).parts ≡ (own owner.old).parts }
    ensures taken { (own owner.new).taken ≡ (own owner.old).taken }
    ensures offered { Offered (length children.old) (W.numbers told.old) (W.numbers told.new)
        (length (own owner.old).pushed) (length (own owner.new).pushed) }
{
    while let Some(job) = children.pop() {
        offer(rt, work, job, owner, told);
    }
}

// Pushes a job, or gives it back where the push is refused.
fn offer<W: Work, R: Wait>(
    rt: &R,
    work: &W,
    job: W::Job,
    owner: &mut Owner<W::Job>,
    told: &mut W::Told,
)
    requires part { 0 < (own owner.old).parts }
    requires room { AreBelow told_room (W.numbers told.old) }
    ensures deque { worker_deque owner.new.worker ≡ worker_deque owner.old.worker }
    ensures parts { (own owner.new).parts ≡ (own owner.old).parts }
    ensures taken { (own owner.new).taken ≡ (own owner.old).taken }
    ensures offered { Offered 1 (W.numbers told.old) (W.numbers told.new)
        (length (own owner.old).pushed) (length (own owner.new).pushed) }
{
    match owner.push(job) {
        Ok(()) => {}
        Err(job) => work.give_back(rt, job, told),
    }
}
