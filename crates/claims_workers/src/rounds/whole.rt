//! What a campaign comes to by its rounds.
ghost use Rattle.std.specs.Prelude.{◌≡◌, ◌*◌, IfOk, length};
ghost use Rattle.pv_rounds.specs.Holding.{IsHeld};

use pv_keep::{Campaign, Keeper};
use pv_pool::Gate;
use pv_rounds::{HoldRefused, Plan, Subject, run_rounds};
use pv_tree::KnowingSettler;
use std::alloc::Global;
use std::sync::Wait;
use std::thread::Threads;

/// What is kept goes on by the budget of all rounds, which its limit allows, and is kept.
pub fn hold<P: Keeper, S: KnowingSettler + Sync, G: Gate + Sync, R: Threads + Wait + Sync>(
    rt: &R,
    alloc: Global,
    settler: &S,
    keeper: &mut P,
    subject: Subject<'_>,
    plan: &Plan,
    gate: &G,
) -> Result<Campaign, HoldRefused>
where
    S::Room: Send,
    S::Known: Send,
    requires dims { length subject.root ≡ S.dims settler.now }
    ensures { IfOk result (λ c.
        IsHeld plan.now.budget.limit (S.settle_of settler.now) (S.depth_of settler.now)
        subject.entry.root plan.now.order subject.entry.identity
        (plan.now.count * plan.now.budget.nodes)
        (P.kept keeper.old subject.entry.name.now)
        (P.kept keeper.new subject.entry.name.now) c.tree) }
{
    run_rounds(rt, alloc, settler, keeper, subject, plan, gate)
}
