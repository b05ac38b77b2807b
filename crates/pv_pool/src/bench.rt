//! What one worker works with.
ghost use Rattle.std.specs.Prelude.{◌≡◌, ◌≢◌, ℕ, ◌+◌, ◌<◌, ◌≤◌, [], ◌∷◌, ◌++◌, length, get_or, option_to_list, sum_by, IfNone, IfOk, OnOk};
ghost use Rattle.pv_pool.specs.Hands.{hand};
ghost use Rattle.pv_pool.specs.Benches.{own, reach, stolen_by, HaveTried, MaySteal, SameThieves};
ghost use Rattle.pv_pool.specs.Links.{Links, IsFresh, IsApart, AreApart, AreReady};
ghost use Rattle.pv_tree.specs.declared.limit.TheConstants.{MOST_WORKERS};

use crate::deque::{Owner, Thief};
use pv_num::Memory;
use pv_tree::Batch;
use std::alloc::Global;
use std::thread;

/// What one worker works with: the end of its own deque, a way to each deque of the others, and the
/// batch for the jobs that a job gives.
#[derive(Drop)]
pub struct Bench<J: Drop> {
    pub owner: Owner<J>,
    pub thieves: Vec<Thief<J>>,
    pub children: Batch<J>,
}

impl<J: Drop> Bench<J> {
    // A bench with an empty deque, and with no way to another.
    fn new(alloc: Global) -> Result<Bench<J>, Memory>
        ensures { IfOk result IsApart }
    {
        let owner = Owner::new(alloc)?;
        let children = Batch::new(alloc)?;
        Ok(Bench {
            owner,
            thieves: Vec::new(alloc),
            children,
        })
    }
}

/// Benches for `count` workers, each with a way to the deque of every other.
pub fn furnish<J: Drop>(alloc: Global, count: usize) -> Result<Vec<Bench<J>>, Memory>
    requires { count ≤ MOST_WORKERS }
    ensures { IfOk result (λ bs. AreReady count bs.items) }
{
    let mut benches = empty_benches(alloc, count)?;
    for number in 0..count {
        introduce(benches.as_mut_slice(), number)?;
    }
    Ok(benches)
}

// So many benches, with no way from one to another.
fn empty_benches<J: Drop>(alloc: Global, count: usize) -> Result<Vec<Bench<J>>, Memory>
    ensures { IfOk result (λ bs. AreApart count bs.items) }
{
    let mut benches = Vec::with_capacity(alloc, count)?;
    for _ in 0..count {
        benches.push_reserved(Bench::new(alloc)?);
    }
    Ok(benches)
}

// Gives every other worker a way to the deque of one.
fn introduce<J: Drop>(benches: &mut [Bench<J>], number: usize) -> Result<(), Memory>
    requires ready { AreReady (length benches.old) benches.old }
    requires few { length benches.old ≤ MOST_WORKERS }
    requires there { number < length benches.old }
    requires whole { (k : ℕ) (d : Bench J) → number ≤ k → k < length benches.old →
        (own (get_or benches.old k d).owner).parts ≡ MOST_WORKERS }
    ensures ready { OnOk result (AreReady (length benches.old) benches.new) }
    ensures whole { OnOk result ((k : ℕ) (d : Bench J) → number < k → k < length benches.old →
        (own (get_or benches.new k d).owner).parts ≡ MOST_WORKERS) }
{
    for other in 0..benches.len() {
        if other != number {
            link(benches, number, other)?;
        }
    }
    Ok(())
}

// Gives one worker a way to the deque of another.
fn link<J: Drop>(benches: &mut [Bench<J>], number: usize, other: usize) -> Result<(), Memory>
    requires ready { AreReady (length benches.old) benches.old }
    requires there { number < length benches.old }
    requires other { other < length benches.old }
    requires apart { other ≢ number }
    requires parts { (d : Bench J) → 1 < (own (get_or benches.old number d).owner).parts }
    ensures ready { OnOk result (AreReady (length benches.old) benches.new) }
    ensures parts { OnOk result ((d : Bench J) →
        (own (get_or benches.new number d).owner).parts + 1 ≡
        (own (get_or benches.old number d).owner).parts) }
    ensures same { OnOk result ((k : ℕ) (d : Bench J) → k ≢ number →
        (own (get_or benches.new k d).owner).parts ≡ (own (get_or benches.old k d).owner).parts) }
{
    let thief = cut(benches, number)?;
    place(benches, other, thief)
}

// Cuts the pass of an owner: a way to its deque, which stands at no bench yet.
fn cut<J: Drop>(benches: &mut [Bench<J>], number: usize) -> Result<Thief<J>, Memory>
    requires links { Links benches.old [] }
    requires fresh { (i : ℕ) (d : Bench J) → i < length benches.old →
        IsFresh (get_or benches.old i d) }
    requires there { number < length benches.old }
    requires parts { (d : Bench J) → 1 < (own (get_or benches.old number d).owner).parts }
    ensures count { length benches.new ≡ length benches.old }
    ensures links { IfOk result (λ t. Links benches.new (t ∷ [])) }
    ensures taken { IfOk result (λ t. (reach t).taken ≡ []) }
    ensures fresh { OnOk result ((i : ℕ) (d : Bench J) → i < length benches.old →
        IsFresh (get_or benches.new i d)) }
    ensures parts { OnOk result ((d : Bench J) →
        (own (get_or benches.new number d).owner).parts + 1 ≡
        (own (get_or benches.old number d).owner).parts) }
    ensures same { OnOk result ((k : ℕ) (d : Bench J) → k ≢ number →
        (own (get_or benches.new k d).owner).parts ≡ (own (get_or benches.old k d).owner).parts) }
{
    Ok(benches[number].owner.share(number)?)
}

// Places a thief at a bench.
fn place<J: Drop>(benches: &mut [Bench<J>], other: usize, thief: Thief<J>) -> Result<(), Memory>
    requires links { Links benches.old (thief ∷ []) }
    requires taken { (reach thief).taken ≡ [] }
    requires fresh { (i : ℕ) (d : Bench J) → i < length benches.old →
        IsFresh (get_or benches.old i d) }
    requires other { other < length benches.old }
    ensures count { length benches.new ≡ length benches.old }
    ensures links { OnOk result (Links benches.new []) }
    ensures fresh { OnOk result ((i : ℕ) (d : Bench J) → i < length benches.old →
        IsFresh (get_or benches.new i d)) }
    ensures same { OnOk result ((k : ℕ) (d : Bench J) →
        (own (get_or benches.new k d).owner).parts ≡ (own (get_or benches.old k d).owner).parts) }
{
    benches[other].thieves.push(thief)?;
    Ok(())
}

/// Tries each thief once, until one takes a job. None where each of them tried in vain.
pub fn steal_once_round<J: Drop>(thieves: &mut [Thief<J>]) -> Option<J>
    requires { MaySteal thieves.old }
    ensures same { SameThieves thieves.old thieves.new }
    ensures stolen { sum_by stolen_by thieves.new ≡
        sum_by stolen_by thieves.old + length (option_to_list result) }
    ensures tried { IfNone result (HaveTried thieves.old thieves.new) }
{
    for i in 0..thieves.len() {
        if let Some(job) = thieves[i].steal() {
            return Some(job);
        }
    }
    None
}

/// Tries each thief once, and where all tried in vain up to `more` times again, with a pause before
/// each.
pub fn steal<J: Drop>(thieves: &mut [Thief<J>], more: u32) -> Option<J>
    requires { MaySteal thieves.old }
    ensures same { SameThieves thieves.old thieves.new }
    ensures stolen { sum_by stolen_by thieves.new ≡
        sum_by stolen_by thieves.old + length (option_to_list result) }
{
    for _turn in 0..more {
        if let Some(job) = steal_once_round(thieves) {
            return Some(job);
        }
        thread::yield_now();
    }
    steal_once_round(thieves)
}
