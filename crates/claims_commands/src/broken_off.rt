//! Why nothing comes of a campaign.
ghost use Rattle.std.specs.Prelude.{IfErr};
ghost use Rattle.pv_rule.specs.Systems.{files};
ghost use Rattle.pv_product.specs.Campaigns.{stock, RefusesCampaign};

use pv_campaign::campaign::campaign;
use pv_io::Folder;
use pv_keep::Keeper;
use pv_pool::Gate;
use pv_product::Product;
use pv_request::{Effort, Refusal, Rounds, Settings};
use std::alloc::Global;
use std::sync::Wait;
use std::thread::Threads;

/// Why nothing comes of it.
pub fn refuse<'a, F: Folder, P: Keeper, G: Gate + Sync, R: Threads + Wait + Sync>(
    rt: &R,
    alloc: Global,
    folder: &mut F,
    keeper: &mut P,
    system: &'a str,
    settings: &Settings<'a>,
    effort: &Effort,
    rounds: &Rounds<'a>,
    gate: &G,
) -> Result<Product, Refusal<'a>>
    ensures { IfErr result
        (RefusesCampaign
        (files (F.content folder.old) (F.fetch_faults folder.old) (F.store_faults folder.old))
        (files (F.content folder.new) (F.fetch_faults folder.new) (F.store_faults folder.new))
        (stock (P.kept keeper.old) (P.faults keeper.old))
        (stock (P.kept keeper.new) (P.faults keeper.new))
        system.now settings.now effort.now.budget.limit effort.now.order effort.now.budget.nodes
        rounds.now) }
{
    let answer = campaign(
        rt, alloc, folder, keeper, system, settings, effort, rounds, gate,
    );
    answer
}
