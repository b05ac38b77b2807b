//! The pool.
ghost use Rattle.std.specs.Prelude.{◌≡◌, ℕ, ◌+◌, ◌*◌, ◌^◌, ◌<◌, ◌≤◌, [], length, get_or, vec_len, vec_capacity, IfOk, IfErr, sum_by};
ghost use Rattle.pv_pool.specs.Counting.{Numbers, AreBelow, HasServed};
ghost use Rattle.pv_pool.specs.Accounts.{HaveAccounts};
ghost use Rattle.pv_pool.specs.Links.{AreReady, Links};
ghost use Rattle.pv_pool.specs.Pools.{IsSeated, HasRun, HaveWorked};
ghost use Rattle.pv_tree.specs.declared.limit.TheConstants.{MOST_WORKERS};

use crate::bench::{Bench, furnish};
use crate::seat::{Room, Seat, clear_seats, seat_all};
use crate::teardown::close;
use crate::work::Work;
use crate::worker::run;
use pv_fork::for_each_late;
use std::alloc::Global;
use std::sync::Wait;
use std::thread::{Threads, available_parallelism};

// So many workers work at once on any machine.
const FEW_WORKERS: usize = 4;

/// Want of memory, before any worker started. It hands the accounts back.
#[derive(Drop)]
pub struct PoolRefused<T> {
    /// The accounts, as they were.
    pub told: Vec<T>,
}

/// Runs one worker for each account, and gives the accounts back in their order once all workers
/// were joined.
///
/// A worker takes the last job of its own deque, or else tries once to steal the first job of each
/// other deque, or else asks `idle`. It pushes the jobs that a job gave, gives those back that are
/// refused, and then calls `announce`. It ends where `idle` answers that all is done. Jobs that are
/// left on the deques are given back in the end. Memory is refused only before a worker starts.
pub fn run_workers<W: Work + Sync, R: Threads + Wait + Sync>(
    rt: &R,
    alloc: Global,
    work: &W,
    told: Vec<W::Told>,
) -> Result<Vec<W::Told>, PoolRefused<W::Told>>
    requires some { 1 ≤ vec_len told }
    requires few { vec_len told ≤ MOST_WORKERS }
    requires room { (i : ℕ) (t : W.Told) → i < vec_len told →
        AreBelow (2 ^ 90) (W.numbers (get_or told.items i t)) }
    ensures refused { IfErr result (λ e. e.told.items ≡ told.items) }
    ensures count { IfOk result (λ after. vec_len after ≡ vec_len told) }
    ensures sums { IfOk result (λ after.
        sum_by (λ t. (W.numbers t).given) after.items + sum_by (λ t.
        (W.numbers t).back) told.items ≡
        sum_by (λ t. (W.numbers t).given) told.items + sum_by (λ t.
        (W.numbers t).back) after.items) }
    ensures accounts { IfOk result (λ after. HaveAccounts W.Job W.numbers told.items after.items) }
    ensures served { IfOk result (λ after. (i : ℕ) (t : W.Told) → i < vec_len told →
        HasServed (W.numbers (get_or told.items i t)) (W.numbers (get_or after.items i t))) }
{
    let count = told.len();
    let Ok(benches) = furnish(alloc, count) else {
        return Err(PoolRefused { told });
    };
    let Ok(room) = Room::new(alloc, count) else {
        return Err(PoolRefused { told });
    };
    let (mut told, mut benches) = work_all(rt, work, told, benches, room);
    close(rt, alloc, work, benches.as_mut_slice(), told.as_mut_slice());
    Ok(told)
}

// Seats the workers, lets them work, and clears the seats.
fn work_all<W: Work + Sync, R: Threads + Wait + Sync>(
    rt: &R,
    work: &W,
    told: Vec<W::Told>,
    benches: Vec<Bench<W::Job>>,
    room: Room<W::Job, W::Told>,
) -> (Vec<W::Told>, Vec<Bench<W::Job>>)
    requires some { 1 ≤ vec_len told }
    requires below { (i : ℕ) (t : W.Told) → i < vec_len told →
        AreBelow (2 ^ 90) (W.numbers (get_or told.items i t)) }
    requires ready { AreReady (vec_len told) benches.items }
    requires seats { (room.seats.items ≡ []) × (vec_len told ≤ vec_capacity room.seats) }
    requires after { (room.told.items ≡ []) × (vec_len told ≤ vec_capacity room.told) }
    requires left { (room.benches.items ≡ []) × (vec_len told ≤ vec_capacity room.benches) }
    ensures { HaveWorked W.numbers told.items result.0.items result.1.items }
{
    let Room {
        mut seats,
        told: mut after,
        benches: mut left,
    } = room;
    seat_all(told, benches, &mut seats);
    run_all(rt, work, seats.as_mut_slice());
    clear_seats(seats, &mut after, &mut left);
    (after, left)
}

// Lets the workers work, each in a thread of its own.
fn run_all<W: Work + Sync, R: Threads + Wait + Sync>(
    rt: &R,
    work: &W,
    seats: &mut [Seat<W::Job, W::Told>],
)
    requires some { 0 < length seats.old }
    requires seated { (i : ℕ) (d : Seat W.Job W.Told) → i < length seats.old →
        IsSeated W.numbers (get_or seats.old i d) }
    ensures count { length seats.new ≡ length seats.old }
    ensures run { (i : ℕ) (d : Seat W.Job W.Told) → i < length seats.old →
        HasRun W.numbers (get_or seats.old i d) (get_or seats.new i d) }
{
    // The last worker sits first.
    let last = seats.len().wrapping_sub(1);
    let one = |i: usize, seat: &mut Seat<W::Job, W::Told>|
        requires { IsSeated W.numbers seat.now }
        ensures { HasRun W.numbers seat.entry.now seat.exit.now }
    { run_one(rt, work, last.wrapping_sub(i) as u64, seat) };
    let threads = most_at_once(rt, seats.len());
    for_each_late(rt, seats, threads, &one);
}

// How many of so many workers work at once: a few in any case, and else no more than there are
// processors, on which more of them would only take turns.
fn most_at_once<R: Threads>(rt: &R, workers: usize) -> usize {
    if workers <= FEW_WORKERS {
        return workers;
    }
    match available_parallelism(rt) {
        Ok(processors) => workers.min(processors.get().max(FEW_WORKERS)),
        Err(_) => workers,
    }
}

// One worker.
fn run_one<W: Work, R: Wait>(rt: &R, work: &W, number: u64, seat: &mut Seat<W::Job, W::Told>)
    requires { IsSeated W.numbers seat.old }
    ensures { HasRun W.numbers seat.old seat.new }
{
    run(rt, work, number, &mut seat.bench, &mut seat.told);
}
