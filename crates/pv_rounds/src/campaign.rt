//! A campaign from its opening to the end of its rounds.
ghost use Rattle.std.specs.Prelude.{◌≡◌, ◌≢◌, ◌+◌, ◌*◌, ◌^◌, ◌≤◌, List, ℕ, Some, IfOk, IfErr, OnOk, IsErrOf, length};
ghost use Rattle.pv_io.specs.Outside.{Rose};
ghost use Rattle.pv_board.specs.Rules.{settled_in};
ghost use Rattle.pv_keep.specs.Campaigns.{KeepsTree, IsOpened};
ghost use Rattle.pv_rounds.specs.Holding.{IsHeld, RefusesOpening, RefusesHold};

use crate::plan::Plan;
use crate::rounds::go_on;
use pv_box::IBox;
use pv_io::IoRefused;
use pv_keep::{Campaign, CampaignRefused, Keeper};
use pv_pool::Gate;
use pv_tree::{KnowingSettler, NodeLimit};
use std::alloc::Global;
use std::sync::Wait;
use std::thread::Threads;

/// Why a campaign doesn't come to the end of its rounds.
#[derive(Clone, Copy, Debug, PartialEq, Eq)]
pub enum HoldRefused {
    /// There was no memory.
    Memory,
    /// The keeper failed.
    Failed,
    /// The name has another identity, which is `kept`.
    OtherIdentity { kept: [u8; 32] },
    /// More rows are kept than the limit.
    TooMany,
    /// The row with this number, counted from 0, is the first that is bad.
    BadRow { row: u64 },
    /// So many nodes are settled at the opening, and with the budget of all rounds too many.
    TreeLimit { settled: u64 },
}

impl From<CampaignRefused> for HoldRefused {
    ghost use Rattle.pv_rounds.specs.Holding.{after_opening};

    ghost from_gives = { λ c e. e ≡ after_opening c };

    fn from(refused: CampaignRefused) -> Self {
        match refused {
            CampaignRefused::Memory => HoldRefused::Memory,
            CampaignRefused::Failed => HoldRefused::Failed,
            CampaignRefused::OtherIdentity { kept } => HoldRefused::OtherIdentity { kept },
            CampaignRefused::TooMany => HoldRefused::TooMany,
            CampaignRefused::BadRow { row } => HoldRefused::BadRow { row },
        }
    }
}

impl From<IoRefused> for HoldRefused {
    ghost use Rattle.pv_rounds.specs.Holding.{after_round};

    ghost from_gives = { λ s e. e ≡ after_round s };

    fn from(refused: IoRefused) -> Self {
        match refused {
            IoRefused::Memory => HoldRefused::Memory,
            IoRefused::Failed => HoldRefused::Failed,
        }
    }
}

/// What a campaign paves, and under which name it is kept.
#[derive(Drop)]
pub struct Subject<'a> {
    /// The name for the keeper.
    pub name: &'a str,
    /// What the paving is a paving of.
    pub identity: [u8; 32],
    /// The box that is paved.
    pub root: IBox,
}

/// Opens what is kept under a name, and goes on with it by a plan's rounds, each of which is saved
/// before the next begins. Where all rounds could bring the tree above the plan's limit, none is
/// begun.
///
/// # Errors
///
/// What is kept is refused, the tree could become too large, memory was wanting, or the keeper
/// failed in this call.
pub fn run_rounds<P: Keeper, S: KnowingSettler + Sync, G: Gate + Sync, R: Threads + Wait + Sync>(
    rt: &R,
    alloc: Global,
    settler: &S,
    keeper: &mut P,
    subject: Subject<'_>,
    plan: &Plan,
    gate: &G,
) -> Result<Campaign, HoldRefused>
where
    S::Room: Send,
    S::Known: Send,
    requires dims { length subject.root ≡ S.dims settler.now }
    ensures root { IfOk result (λ c. c.root ≡ subject.entry.root) }
    ensures held { IfOk result (λ c.
        IsHeld plan.now.budget.limit (S.settle_of settler.now) (S.depth_of settler.now)
        subject.entry.root plan.now.order subject.entry.identity
        (plan.now.count * plan.now.budget.nodes)
        (P.kept keeper.old subject.entry.name.now)
        (P.kept keeper.new subject.entry.name.now) c.tree) }
    ensures refused { IfErr result
        (RefusesHold plan.now.budget.limit (S.settle_of settler.now) (S.depth_of settler.now)
        subject.entry.root plan.now.order subject.entry.identity
        plan.now.budget.nodes plan.now.count
        (P.kept keeper.old subject.entry.name.now)
        (P.kept keeper.new subject.entry.name.now)) }
    ensures others { (other : List ℕ)
        → other ≢ subject.entry.name.now → P.kept keeper.new other ≡ P.kept keeper.old other }
    ensures cause { IsErrOf result HoldRefused.Failed
        → Rose (P.faults keeper.old) (P.faults keeper.new) }
    ensures counts_on { P.faults keeper.old ≤ P.faults keeper.new }
{
    let Subject {
        name,
        identity,
        root,
    } = subject;
    let (nodes, limit) = (plan.nodes(), plan.budget.limit);
    let campaign = match open_kept(alloc, keeper, name, identity, root, nodes, limit) {
        Ok(campaign) => campaign,
        Err(refused) => return Err(refused),
    };
    match go_on(rt, alloc, settler, campaign, keeper, plan, gate) {
        Ok(campaign) => Ok(campaign),
        Err(refused) => Err(refused.into()),
    }
}

// Opens what is kept under a name, of which a budget is still to be settled.
fn open_kept<P: Keeper>(
    alloc: Global,
    keeper: &mut P,
    name: &str,
    identity: [u8; 32],
    root: IBox,
    budget: u64,
    limit: NodeLimit,
) -> Result<Campaign, HoldRefused>
    requires budget { budget ≤ 2 ^ 62 }
    ensures root { IfOk result (λ c. c.root ≡ root) }
    ensures limit { IfOk result (λ c. c.limit ≡ limit) }
    ensures opened { IfOk result (λ c.
        IsOpened limit (P.kept keeper.old name.now) (P.kept keeper.new name.now)
        identity root c.tree) }
    ensures few { IfOk result (λ c. settled_in c.tree + budget ≤ limit) }
    ensures begun { OnOk result (P.begun keeper.new ≡ Some name.now) }
    ensures keeps { IfOk result (λ c. KeepsTree (P.kept keeper.new name.now) c.tree) }
    ensures refused { IfErr result
        (RefusesOpening limit root identity budget (P.kept keeper.old name.now)
        (P.kept keeper.new name.now)) }
    ensures others { (other : List ℕ)
        → other ≢ name.now → P.kept keeper.new other ≡ P.kept keeper.old other }
    ensures cause { IsErrOf result HoldRefused.Failed
        → Rose (P.faults keeper.old) (P.faults keeper.new) }
    ensures counts_on { P.faults keeper.old ≤ P.faults keeper.new }
{
    let campaign = match Campaign::open_within(alloc, keeper, name, identity, root, limit) {
        Ok(campaign) => campaign,
        Err(refused) => return Err(refused.into()),
    };
    let settled = campaign.paving().counts().settled();
    if settled + budget > limit.nodes() {
        return Err(HoldRefused::TreeLimit { settled });
    }
    Ok(campaign)
}
