//! The rounds of a campaign.
ghost use Rattle.std.specs.Prelude.{◌≡◌, ◌≢◌, ◌+◌, ◌*◌, ◌≤◌, List, ℕ, Some, IsSome, IfOk, OnOk, OnErr, IsErrOf, length};
ghost use Rattle.pv_io.specs.Outside.{Rose};
ghost use Rattle.pv_board.specs.Rules.{settled_in};
ghost use Rattle.pv_workers.specs.Pavings.{IsPaved};
ghost use Rattle.pv_scope.specs.Orders.{IsInOrder};
ghost use Rattle.pv_keep.specs.Campaigns.{KeepsTree, IsSaved};
ghost use Rattle.pv_scope.specs.declared.order.Order as declared;
ghost use Rattle.pv_rounds.specs.Going.{AddUp, HasGoneOn, HasStopped};

use crate::plan::Plan;
use pv_io::IoRefused;
use pv_keep::{Campaign, Frontier, Keeper};
use pv_pool::Gate;
use pv_scope::pave_in_order;
use pv_tree::{KnowingSettler, Paving, Settler};
use std::alloc::Global;
use std::sync::Wait;
use std::thread::Threads;

/// Does nothing. A paving of which nothing more is settled has spent the budget 0, in each order. Stages of stages
/// are stages, budgets that are spent one after another add up, and what is settled in an order by
/// several budgets is settled in that order.
pub fn learn_rounds<S: Settler>(paving: &Paving, settler: &S)
    requires { length paving.now.root ≡ S.dims settler.now }
    ensures none { IsPaved (S.settle_of settler.now)
        (S.depth_of settler.now) paving.now.root paving.now.tree 0 paving.now.tree }
    ensures further { AddUp (S.settle_of settler.now) (S.depth_of settler.now) paving.now.root }
    ensures unordered { (order : declared.Order) → IsInOrder order paving.now.tree paving.now.tree }
{
    let _places = paving.dims();
    let _depth = settler.depth();
}

/// Goes on with a campaign, round by round, until the plan's rounds are over or no leaf is open.
/// Each round is saved before the next one begins, so what is kept after a refusal is what the
/// rounds before it left. A refusal ends the campaign, since its paving grows in place: who opens
/// it again goes on from what is kept.
///
/// # Errors
///
/// Want of memory, or the keeper failed in this call.
pub fn go_on<P: Keeper, S: KnowingSettler + Sync, G: Gate + Sync, R: Threads + Wait + Sync>(
    rt: &R,
    alloc: Global,
    settler: &S,
    campaign: Campaign,
    keeper: &mut P,
    plan: &Plan,
    gate: &G,
) -> Result<Campaign, IoRefused>
where
    S::Room: Send,
    S::Known: Send,
    requires dims { length campaign.root ≡ S.dims settler.now }
    requires limit { campaign.limit ≡ plan.now.budget.limit }
    requires few { settled_in campaign.tree + plan.now.count * plan.now.budget.nodes ≤
        plan.now.budget.limit }
    requires begun { IsSome (P.begun keeper.old) }
    requires kept { (name : List ℕ) → P.begun keeper.old ≡ Some name
        → KeepsTree (P.kept keeper.old name) campaign.tree }
    ensures root { IfOk result (λ c. c.root ≡ campaign.root) }
    ensures limit { IfOk result (λ c. c.limit ≡ campaign.limit) }
    ensures gone { (name : List ℕ) → P.begun keeper.old ≡ Some name → IfOk result (λ c.
        HasGoneOn (S.settle_of settler.now) (S.depth_of settler.now) campaign.root
        plan.now.order campaign.tree (plan.now.count * plan.now.budget.nodes)
        (P.kept keeper.old name)
        (P.kept keeper.new name) c.tree) }
    ensures stopped { (name : List ℕ) → P.begun keeper.old ≡ Some name → OnErr result
        (HasStopped (S.settle_of settler.now) (S.depth_of settler.now) campaign.root
        plan.now.order campaign.tree plan.now.budget.nodes plan.now.count
        (P.kept keeper.old name)
        (P.kept keeper.new name)) }
    ensures cause { IsErrOf result IoRefused.Failed
        → Rose (P.faults keeper.old) (P.faults keeper.new) }
    ensures others { (name other : List ℕ) → P.begun keeper.old ≡ Some name
        → other ≢ name → P.kept keeper.new other ≡ P.kept keeper.old other }
    ensures counts_on { P.faults keeper.old ≤ P.faults keeper.new }
{
    learn_rounds(campaign.paving(), settler);
    let mut held = campaign;
    for _ in 0..plan.count {
        if held.paving().first_open().is_none() {
            return Ok(held);
        }
        match round(rt, alloc, settler, held, keeper, plan, gate) {
            Ok(next) => held = next,
            Err(refused) => return Err(refused),
        }
    }
    Ok(held)
}

// Settles what the budget allows of a campaign's paving, and saves it.
fn round<P: Keeper, S: KnowingSettler + Sync, G: Gate + Sync, R: Threads + Wait + Sync>(
    rt: &R,
    alloc: Global,
    settler: &S,
    campaign: Campaign,
    keeper: &mut P,
    plan: &Plan,
    gate: &G,
) -> Result<Campaign, IoRefused>
where
    S::Room: Send,
    S::Known: Send,
    requires dims { length campaign.root ≡ S.dims settler.now }
    requires limit { campaign.limit ≡ plan.now.budget.limit }
    requires few { settled_in campaign.tree + plan.now.budget.nodes ≤ plan.now.budget.limit }
    requires begun { IsSome (P.begun keeper.old) }
    requires kept { (name : List ℕ) → P.begun keeper.old ≡ Some name
        → KeepsTree (P.kept keeper.old name) campaign.tree }
    ensures root { IfOk result (λ c. c.root ≡ campaign.root) }
    ensures limit { IfOk result (λ c. c.limit ≡ campaign.limit) }
    ensures paved { IfOk result (λ c.
        IsPaved (S.settle_of settler.now) (S.depth_of settler.now)
        campaign.root campaign.tree plan.now.budget.nodes c.tree) }
    ensures ordered { IfOk result (λ c. IsInOrder plan.now.order campaign.tree c.tree) }
    ensures saved { (name : List ℕ) → P.begun keeper.old ≡ Some name
        → IfOk result (λ c.
        IsSaved (P.kept keeper.old name) (P.kept keeper.new name) c.tree) }
    ensures kept { (name : List ℕ) → P.begun keeper.old ≡ Some name
        → IfOk result (λ c. KeepsTree (P.kept keeper.new name) c.tree) }
    ensures kept_on { (name : List ℕ) → P.begun keeper.old ≡ Some name
        → OnErr result (P.kept keeper.new name ≡ P.kept keeper.old name) }
    ensures others { (name other : List ℕ) → P.begun keeper.old ≡ Some name
        → other ≢ name → P.kept keeper.new other ≡ P.kept keeper.old other }
    ensures begun { P.begun keeper.new ≡ P.begun keeper.old }
    ensures cause { IsErrOf result IoRefused.Failed
        → Rose (P.faults keeper.old) (P.faults keeper.new) }
    ensures counts_on { P.faults keeper.old ≤ P.faults keeper.new }
{
    let frontier = Frontier::of(alloc, campaign.paving())?;
    let opening = campaign.into_paving();
    let grown = pave_in_order(rt, alloc, settler, opening, plan.order, plan.budget, gate)?;
    match Campaign::save_from(alloc, keeper, &frontier, grown, plan.budget.limit) {
        Ok(next) => Ok(next),
        Err(refused) => Err(refused),
    }
}
