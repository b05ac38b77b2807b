//! How a campaign goes on.
ghost use Rattle.std.specs.Prelude.{◌≡◌, ◌+◌, ◌*◌, ◌≤◌, List, ℕ, Some, IsSome, IfOk, IsErrOf, length};
ghost use Rattle.pv_io.specs.Outside.{Rose};
ghost use Rattle.pv_board.specs.Rules.{settled_in};
ghost use Rattle.pv_keep.specs.Campaigns.{KeepsTree};
ghost use Rattle.pv_rounds.specs.Going.{HasGoneOn};

use pv_io::IoRefused;
use pv_keep::{Campaign, Keeper};
use pv_pool::Gate;
use pv_rounds::{Plan, go_on};
use pv_tree::KnowingSettler;
use std::alloc::Global;
use std::sync::Wait;
use std::thread::Threads;

/// All rounds settle in the plan's order. Only a keeper that failed is a failure.
pub fn go_further<P: Keeper, S: KnowingSettler + Sync, G: Gate + Sync, R: Threads + Wait + Sync>(
    rt: &R,
    alloc: Global,
    settler: &S,
    campaign: Campaign,
    keeper: &mut P,
    plan: &Plan,
    gate: &G,
) -> Result<Campaign, IoRefused>
where
    S::Room: Send,
    S::Known: Send,
    requires dims { length campaign.root ≡ S.dims settler.now }
    requires limit { campaign.limit ≡ plan.now.budget.limit }
    requires few { settled_in campaign.tree + plan.now.count * plan.now.budget.nodes ≤
        plan.now.budget.limit }
    requires begun { IsSome (P.begun keeper.old) }
    requires kept { (name : List ℕ) → P.begun keeper.old ≡ Some name
        → KeepsTree (P.kept keeper.old name) campaign.tree }
    ensures gone { (name : List ℕ) → P.begun keeper.old ≡ Some name → IfOk result (λ c.
        HasGoneOn (S.settle_of settler.now) (S.depth_of settler.now) campaign.root
        plan.now.order campaign.tree (plan.now.count * plan.now.budget.nodes)
        (P.kept keeper.old name)
        (P.kept keeper.new name) c.tree) }
    ensures cause { IsErrOf result IoRefused.Failed
        → Rose (P.faults keeper.old) (P.faults keeper.new) }
{
    go_on(rt, alloc, settler, campaign, keeper, plan, gate)
}
