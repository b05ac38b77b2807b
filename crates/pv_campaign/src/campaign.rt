//! `campaign`: a paving that is kept between rounds under a name.
ghost use Rattle.std.specs.Prelude.{◌≡◌, ◌≢◌, ◌*◌, ◌≤◌, List, ℕ, IfOk, IfErr, IsErrOf, length};
ghost use Rattle.pv_io.specs.Outside.{Rose};
ghost use Rattle.pv_rounds.specs.Holding.{IsHeld, RefusesHold};
ghost use Rattle.pv_slope.specs.Methods.{method_of, dims_of, settle_by};
ghost use Rattle.pv_rule.specs.Systems.{files, AreOnlyRead, search_box};
ghost use Rattle.pv_product.specs.Campaigns.{stock, AreOthersStocked, RefusesRounds, RefusesCampaign, campaign_refusal, is_done};
ghost use Rattle.pv_product.specs.Products.{ComesOfCampaign, ComesOfRounds, LearnsHeld, report_as, summary_of};
ghost use Rattle.pv_product.specs.Made.{made};
ghost use Rattle.pv_tree.specs.Trees.{counts_of};

use pv_honest::learn_honest;
use pv_io::Folder;
use pv_keep::{Campaign, Keeper};
use pv_num::Memory;
use pv_pool::Gate;
use pv_product::summary::summary;
use pv_product::{Product, is_closed, told};
use pv_request::{Effort, FileFault, Refusal, Rounds, Settings};
use pv_rounds::{HoldRefused, Plan, Subject, learn_rounds, run_rounds};
use pv_rule::settler_in;
use pv_slope::FormSettler;
use pv_tree::Paving;
use std::alloc::Global;
use std::sync::Wait;
use std::thread::Threads;

/// What some rounds make of the paving of the system in a file that is kept under a name. Each
/// round settles what the budget allows, and is kept before the next begins.
pub fn campaign<'a, F: Folder, P: Keeper, G: Gate + Sync, R: Threads + Wait + Sync>(
    rt: &R,
    alloc: Global,
    folder: &mut F,
    keeper: &mut P,
    system: &'a str,
    settings: &Settings<'a>,
    effort: &Effort,
    rounds: &Rounds<'a>,
    gate: &G,
) -> Result<Product, Refusal<'a>>
    ensures read { AreOnlyRead
        (files (F.content folder.old) (F.fetch_faults folder.old) (F.store_faults folder.old))
        (files (F.content folder.new) (F.fetch_faults folder.new) (F.store_faults folder.new)) }
    ensures stock { AreOthersStocked rounds.now.name.now
        (stock (P.kept keeper.old) (P.faults keeper.old))
        (stock (P.kept keeper.new) (P.faults keeper.new)) }
    ensures comes { IfOk result
        (λ p. ComesOfCampaign
        (files (F.content folder.old) (F.fetch_faults folder.old) (F.store_faults folder.old))
        (stock (P.kept keeper.old) (P.faults keeper.old))
        (stock (P.kept keeper.new) (P.faults keeper.new))
        system.now settings.now effort.now.budget.limit effort.now.order effort.now.budget.nodes
        rounds.now (made p)) }
    ensures refused { IfErr result
        (RefusesCampaign
        (files (F.content folder.old) (F.fetch_faults folder.old) (F.store_faults folder.old))
        (files (F.content folder.new) (F.fetch_faults folder.new) (F.store_faults folder.new))
        (stock (P.kept keeper.old) (P.faults keeper.old))
        (stock (P.kept keeper.new) (P.faults keeper.new))
        system.now settings.now effort.now.budget.limit effort.now.order effort.now.budget.nodes
        rounds.now) }
{
    let settler = match settler_in(alloc, folder, system, settings) {
        Ok(settler) => settler,
        Err(refusal) => return Err(refusal),
    };
    continue_campaign(rt, alloc, &settler, keeper, effort, rounds, gate)
}

// What the rounds make of what is kept of a settler's paving.
fn continue_campaign<'a, P: Keeper, G: Gate + Sync, R: Threads + Wait + Sync>(
    rt: &R,
    alloc: Global,
    settler: &FormSettler,
    keeper: &mut P,
    effort: &Effort,
    rounds: &Rounds<'a>,
    gate: &G,
) -> Result<Product, Refusal<'a>>
    ensures stock { AreOthersStocked rounds.now.name.now
        (stock (P.kept keeper.old) (P.faults keeper.old))
        (stock (P.kept keeper.new) (P.faults keeper.new)) }
    ensures comes { IfOk result
        (λ p. ComesOfRounds (method_of settler.now)
        (stock (P.kept keeper.old) (P.faults keeper.old))
        (stock (P.kept keeper.new) (P.faults keeper.new)) effort.now.budget.limit effort.now.order
        effort.now.budget.nodes rounds.now (made p)) }
    ensures refused { IfErr result
        (RefusesRounds (method_of settler.now)
        (stock (P.kept keeper.old) (P.faults keeper.old))
        (stock (P.kept keeper.new) (P.faults keeper.new)) effort.now.budget.limit effort.now.order
        effort.now.budget.nodes rounds.now) }
{
    let identity = settler.identity(alloc)?;
    let root = settler.search_box(alloc)?;
    let plan = Plan {
        count: rounds.count,
        budget: effort.budget,
        order: effort.order,
    };
    let subject = Subject {
        name: rounds.name,
        identity,
        root,
    };
    let kept = run_by_form(rt, alloc, settler, keeper, subject, &plan, gate);
    match kept {
        Ok(campaign) => Ok(report_on(alloc, settler, &campaign)?),
        Err(refused) => Err(refusal_by(rounds.name, refused)),
    }
}

// The rounds of a campaign by the settler of a system, of which nothing else is at hand.
fn run_by_form<P: Keeper, G: Gate + Sync, R: Threads + Wait + Sync>(
    rt: &R,
    alloc: Global,
    settler: &FormSettler,
    keeper: &mut P,
    subject: Subject<'_>,
    plan: &Plan,
    gate: &G,
) -> Result<Campaign, HoldRefused>
    requires dims { length subject.root ≡ dims_of (method_of settler.now) }
    ensures root { IfOk result (λ c. c.root ≡ subject.entry.root) }
    ensures held { IfOk result (λ c.
        IsHeld plan.now.budget.limit (settle_by (method_of settler.now))
        (method_of settler.now).parts.depth subject.entry.root plan.now.order subject.entry.identity
        (plan.now.count * plan.now.budget.nodes)
        (P.kept keeper.old subject.entry.name.now)
        (P.kept keeper.new subject.entry.name.now) c.tree) }
    ensures refused { IfErr result
        (RefusesHold plan.now.budget.limit (settle_by (method_of settler.now))
        (method_of settler.now).parts.depth subject.entry.root plan.now.order subject.entry.identity
        plan.now.budget.nodes plan.now.count
        (P.kept keeper.old subject.entry.name.now)
        (P.kept keeper.new subject.entry.name.now)) }
    ensures others { (other : List ℕ)
        → other ≢ subject.entry.name.now → P.kept keeper.new other ≡ P.kept keeper.old other }
    ensures cause { IsErrOf result HoldRefused.Failed
        → Rose (P.faults keeper.old) (P.faults keeper.new) }
    ensures counts_on { P.faults keeper.old ≤ P.faults keeper.new }
{
    run_rounds(rt, alloc, settler, keeper, subject, plan, gate)
}

// The summary of a campaign, which was cut short unless no leaf is open.
fn report_on(alloc: Global, settler: &FormSettler, campaign: &Campaign) -> Result<Product, Memory>
    requires root { campaign.now.root ≡ search_box (method_of settler.now) }
    requires dims { length campaign.now.root ≡ dims_of (method_of settler.now) }
    ensures report { IfOk result
        (λ p. made p ≡ report_as (summary_of (counts_of campaign.now.tree))
        (is_done campaign.now.tree)) }
    ensures learns { LearnsHeld (method_of settler.now) campaign.now.tree }
{
    let paving = campaign.paving();
    learn_held(paving, settler);
    let done = is_closed(paving);
    Ok(told(summary(alloc, paving)?, done))
}

// Does nothing. A paving of the search box that grew from a stage of the open one is honest.
fn learn_held(paving: &Paving, settler: &FormSettler)
    requires root { paving.now.root ≡ search_box (method_of settler.now) }
    requires dims { length paving.now.root ≡ dims_of (method_of settler.now) }
    ensures { LearnsHeld (method_of settler.now) paving.now.tree }
{
    learn_rounds(paving, settler);
    learn_honest(paving, settler);
}

// The refusal for a campaign that doesn't come to the end of its rounds.
fn refusal_by<'a>(name: &'a str, refused: HoldRefused) -> Refusal<'a>
    ensures { result ≡ campaign_refusal name.entry refused }
{
    match refused {
        HoldRefused::Memory => Refusal::Memory,
        HoldRefused::Failed => Refusal::KeeperFault { name },
        HoldRefused::OtherIdentity { .. } => Refusal::Paving {
            name,
            fault: FileFault::WrongIdentity,
        },
        HoldRefused::TooMany => Refusal::Paving {
            name,
            fault: FileFault::TooManyRows,
        },
        HoldRefused::BadRow { row } => Refusal::Paving {
            name,
            fault: FileFault::BadRow { row },
        },
        HoldRefused::TreeLimit { settled } => Refusal::TreeLimit { settled },
    }
}
