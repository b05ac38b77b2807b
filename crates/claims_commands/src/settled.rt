//! What commands promise that settle boxes.
ghost use Rattle.std.specs.Prelude.{IfOk};
ghost use Rattle.pv_request.specs.Requests.{names_in};
ghost use Rattle.pv_rule.specs.Systems.{files};
ghost use Rattle.pv_product.specs.Products.{ComesOfRun, ComesOfResume, ComesOfLeast};
ghost use Rattle.pv_product.specs.Made.{made};

use pv_io::Folder;
use pv_pool::Gate;
use pv_product::Product;
use pv_request::{Effort, Refusal, Search, Settings};
use pv_scope::Share;
use std::alloc::Global;
use std::sync::Wait;
use std::thread::Threads;

/// What the budget settles of a system's search box.
pub fn run<'a, F: Folder, G: Gate + Sync, R: Threads + Wait + Sync>(
    rt: &R,
    alloc: Global,
    folder: &mut F,
    system: &'a str,
    settings: &Settings<'a>,
    effort: &Effort,
    gate: &G,
) -> Result<Product, Refusal<'a>>
    ensures { IfOk result
        (λ p. ComesOfRun
        (files (F.content folder.old) (F.fetch_faults folder.old) (F.store_faults folder.old))
        system.now settings.now effort.now.order effort.now.budget.nodes (made p)) }
{
    pv_run::run::run(rt, alloc, folder, system, settings, effort, gate)
}

/// What the budget settles of the join of files, or of a share of its open leaves.
pub fn resume<'a, F: Folder, G: Gate + Sync, R: Threads + Wait + Sync>(
    rt: &R,
    alloc: Global,
    folder: &mut F,
    system: &'a str,
    names: &[&'a str],
    settings: &Settings<'a>,
    effort: &Effort,
    share: Option<Share>,
    gate: &G,
) -> Result<Product, Refusal<'a>>
    ensures { IfOk result
        (λ p. ComesOfResume
        (files (F.content folder.old) (F.fetch_faults folder.old) (F.store_faults folder.old))
        system.now (names_in names.now) settings.now effort.now.budget.limit effort.now.order
        effort.now.budget.nodes share (made p)) }
{
    pv_resume::resume::resume(
        rt, alloc, folder, system, names, settings, effort, share, gate,
    )
}

/// Bounds of the least value of an expression.
pub fn least<'a, F: Folder>(
    alloc: Global,
    folder: &mut F,
    system: &'a str,
    settings: &Settings<'a>,
    search: &Search<'a>,
) -> Result<Product, Refusal<'a>>
    ensures { IfOk result
        (λ p. ComesOfLeast
        (files (F.content folder.old) (F.fetch_faults folder.old) (F.store_faults folder.old))
        system.now settings.now search.now (made p)) }
{
    pv_search::least::least(alloc, folder, system, settings, search)
}
