//! What is done after the workers were joined: each owner takes back the passes of its deque, and
//! the jobs that are left are given back.
ghost use Rattle.std.specs.Prelude.{◌≡◌, ℕ, ◌+◌, ◌^◌, ◌<◌, ◌≤◌, [], length, get_or};
ghost use Rattle.pv_pool.specs.Counting.{AreBelow};
ghost use Rattle.pv_pool.specs.Benches.{own};
ghost use Rattle.pv_pool.specs.Links.{Links};
ghost use Rattle.pv_pool.specs.Ends.{Absorbed, Gathered, IsDrained, IsClosed};
ghost use Rattle.pv_tree.specs.declared.limit.TheConstants.{MOST_WORKERS};

use crate::bench::Bench;
use crate::deque::{Owner, Thief};
use crate::work::Work;
use std::alloc::Global;
use std::mem;
use std::sync::Wait;

/// Gives the passes of all thieves back to the owners of their deques, and then the jobs that are
/// left on the deques, each by the account of the deque's worker.
pub fn close<W: Work, R: Wait>(
    rt: &R,
    alloc: Global,
    work: &W,
    benches: &mut [Bench<W::Job>],
    told: &mut [W::Told],
)
    requires same { length told.old ≡ length benches.old }
    requires links { Links benches.old [] }
    requires few { (i : ℕ) (d : Bench W.Job) → i < length benches.old →
        length (own (get_or benches.old i d).owner).pushed < 2 ^ 98 }
    requires room { (i : ℕ) (t : W.Told) → i < length told.old →
        AreBelow (2 ^ 99) (W.numbers (get_or told.old i t)) }
    ensures count { length told.new ≡ length told.old }
    ensures closed { (i : ℕ) (d : Bench W.Job) (t : W.Told) → i < length told.old →
        IsClosed i benches.old d (W.numbers (get_or told.old i t))
        (W.numbers (get_or told.new i t)) }
{
    gather(alloc, benches);
    drain_all(rt, work, benches, told);
}

// Gives the passes of all thieves back to the owners of their deques.
fn gather<J: Drop>(alloc: Global, benches: &mut [Bench<J>])
    requires { Links benches.old [] }
    ensures { Gathered benches.old benches.new }
{
    for i in 0..benches.len() {
        let row = mem::replace(&mut benches[i].thieves, Vec::new(alloc));
        absorb_all(benches, row);
    }
}

// Gives the passes of a row of thieves back.
fn absorb_all<J: Drop>(benches: &mut [Bench<J>], mut row: Vec<Thief<J>>)
    requires { Links benches.old row.items }
    ensures { Absorbed benches.old row.items benches.new [] }
{
    while let Some(thief) = row.pop() {
        let number = thief.deque;
        benches[number].owner.absorb(thief);
    }
}

// Gives the jobs back that are left on the deques, each by the account of the deque's worker.
fn drain_all<W: Work, R: Wait>(
    rt: &R,
    work: &W,
    benches: &mut [Bench<W::Job>],
    told: &mut [W::Told],
)
    requires same { length told.old ≡ length benches.old }
    requires whole { (i : ℕ) (d : Bench W.Job) → i < length benches.old →
        (own (get_or benches.old i d).owner).parts ≡ MOST_WORKERS }
    requires few { (i : ℕ) (d : Bench W.Job) → i < length benches.old →
        length (own (get_or benches.old i d).owner).pushed < 2 ^ 98 }
    requires room { (i : ℕ) (t : W.Told) → i < length told.old →
        AreBelow (2 ^ 99) (W.numbers (get_or told.old i t)) }
    ensures count { length told.new ≡ length told.old }
    ensures drained { (i : ℕ) (d : Bench W.Job) (t : W.Told) → i < length told.old →
        IsDrained (W.numbers (get_or told.old i t)) (W.numbers (get_or told.new i t))
        (own (get_or benches.old i d).owner) }
{
    for i in 0..benches.len() {
        drain(rt, work, &mut benches[i].owner, &mut told[i]);
    }
}

// Gives the jobs back that are left on a deque.
fn drain<W: Work, R: Wait>(rt: &R, work: &W, owner: &mut Owner<W::Job>, told: &mut W::Told)
    requires whole { (own owner.old).parts ≡ MOST_WORKERS }
    requires few { length (own owner.old).pushed < 2 ^ 98 }
    requires room { AreBelow (2 ^ 99) (W.numbers told.old) }
    ensures { IsDrained (W.numbers told.old) (W.numbers told.new) (own owner.old) }
{
    for _ in rt.forever() {
        match owner.pop() {
            Some(job) => work.give_back(rt, job, told),
            None => return,
        }
    }
    unreachable!()
}
