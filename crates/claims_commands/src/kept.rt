//! What a campaign promises of other campaigns.
ghost use Rattle.pv_product.specs.Campaigns.{stock, AreOthersStocked};

use pv_campaign::campaign::campaign;
use pv_io::Folder;
use pv_keep::Keeper;
use pv_pool::Gate;
use pv_product::Product;
use pv_request::{Effort, Refusal, Rounds, Settings};
use std::alloc::Global;
use std::sync::Wait;
use std::thread::Threads;

/// The rows of all other names stay.
pub fn keep<'a, F: Folder, P: Keeper, G: Gate + Sync, R: Threads + Wait + Sync>(
    rt: &R,
    alloc: Global,
    folder: &mut F,
    keeper: &mut P,
    system: &'a str,
    settings: &Settings<'a>,
    effort: &Effort,
    rounds: &Rounds<'a>,
    gate: &G,
) -> Result<Product, Refusal<'a>>
    ensures { AreOthersStocked rounds.now.name.now
        (stock (P.kept keeper.old) (P.faults keeper.old))
        (stock (P.kept keeper.new) (P.faults keeper.new)) }
{
    campaign(
        rt, alloc, folder, keeper, system, settings, effort, rounds, gate,
    )
}
