//! What a refusal says, and what it leaves.
ghost use Rattle.std.specs.Prelude.{◌≡◌, ◌+◌, ◌*◌, ◌≤◌, List, ℕ, Some, IsSome, IfErr, OnErr, length};
ghost use Rattle.pv_board.specs.Rules.{settled_in};
ghost use Rattle.pv_keep.specs.Campaigns.{KeepsTree};
ghost use Rattle.pv_rounds.specs.Going.{HasStopped};
ghost use Rattle.pv_rounds.specs.Holding.{RefusesHold};

use pv_io::IoRefused;
use pv_keep::{Campaign, Keeper};
use pv_pool::Gate;
use pv_rounds::{HoldRefused, Plan, Subject, go_on, run_rounds};
use pv_tree::KnowingSettler;
use std::alloc::Global;
use std::sync::Wait;
use std::thread::Threads;

/// Why a campaign doesn't come to the end of its rounds, of which no more are kept than the plan has.
pub fn refuse<P: Keeper, S: KnowingSettler + Sync, G: Gate + Sync, R: Threads + Wait + Sync>(
    rt: &R,
    alloc: Global,
    settler: &S,
    keeper: &mut P,
    subject: Subject<'_>,
    plan: &Plan,
    gate: &G,
) -> Result<Campaign, HoldRefused>
where
    S::Room: Send,
    S::Known: Send,
    requires dims { length subject.root ≡ S.dims settler.now }
    ensures { IfErr result
        (RefusesHold plan.now.budget.limit (S.settle_of settler.now) (S.depth_of settler.now)
        subject.entry.root plan.now.order subject.entry.identity
        plan.now.budget.nodes plan.now.count
        (P.kept keeper.old subject.entry.name.now)
        (P.kept keeper.new subject.entry.name.now)) }
{
    run_rounds(rt, alloc, settler, keeper, subject, plan, gate)
}

/// Whole rounds in the plan's order are kept, also where a later one is refused.
pub fn stop<P: Keeper, S: KnowingSettler + Sync, G: Gate + Sync, R: Threads + Wait + Sync>(
    rt: &R,
    alloc: Global,
    settler: &S,
    campaign: Campaign,
    keeper: &mut P,
    plan: &Plan,
    gate: &G,
) -> Result<Campaign, IoRefused>
where
    S::Room: Send,
    S::Known: Send,
    requires dims { length campaign.root ≡ S.dims settler.now }
    requires limit { campaign.limit ≡ plan.now.budget.limit }
    requires few { settled_in campaign.tree + plan.now.count * plan.now.budget.nodes ≤
        plan.now.budget.limit }
    requires begun { IsSome (P.begun keeper.old) }
    requires kept { (name : List ℕ) → P.begun keeper.old ≡ Some name
        → KeepsTree (P.kept keeper.old name) campaign.tree }
    ensures { (name : List ℕ) → P.begun keeper.old ≡ Some name → OnErr result
        (HasStopped (S.settle_of settler.now) (S.depth_of settler.now) campaign.root
        plan.now.order campaign.tree plan.now.budget.nodes plan.now.count
        (P.kept keeper.old name)
        (P.kept keeper.new name)) }
{
    go_on(rt, alloc, settler, campaign, keeper, plan, gate)
}
