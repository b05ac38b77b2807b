//! `resume`: what a budget settles of the join of paving files, or of a share of its open leaves.
ghost use Rattle.std.specs.Prelude.{◌≡◌, ◌+◌, ◌<◌, ◌≤◌, IfOk, IfErr, length};
ghost use Rattle.pv_slope.specs.Methods.{method_of, dims_of};
ghost use Rattle.pv_request.specs.Requests.{names_in};
ghost use Rattle.pv_rule.specs.Systems.{files, AreOnlyRead, search_box};
ghost use Rattle.pv_rule.specs.Pavings.{settled_in};
ghost use Rattle.pv_product.specs.Products.{ComesOfResume, RefusesJoined};
ghost use Rattle.pv_product.specs.Made.{made};
ghost use Rattle.pv_resume.specs.Resumed.{IsResumed, IsShareResumed, GivesResumed};

use pv_honest::learn_honest;
use pv_io::Folder;
use pv_num::Memory;
use pv_opening::{Opening, opening_in};
use pv_pool::Gate;
use pv_product::{Product, of_paving};
use pv_request::{Effort, Refusal, Settings};
use pv_scope::{Share, Shared, pave_in_order, settle_share};
use pv_slope::FormSettler;
use pv_tree::Paving;
use std::alloc::Global;
use std::sync::Wait;
use std::thread::Threads;

/// What the budget settles of the join of the files of these names, or of a share of its open leaves.
pub fn resume<'a, F: Folder, G: Gate + Sync, R: Threads + Wait + Sync>(
    rt: &R,
    alloc: Global,
    folder: &mut F,
    system: &'a str,
    names: &[&'a str],
    settings: &Settings<'a>,
    effort: &Effort,
    share: Option<Share>,
    gate: &G,
) -> Result<Product, Refusal<'a>>
    ensures read { AreOnlyRead
        (files (F.content folder.old) (F.fetch_faults folder.old) (F.store_faults folder.old))
        (files (F.content folder.new) (F.fetch_faults folder.new) (F.store_faults folder.new)) }
    ensures comes { IfOk result
        (λ p. ComesOfResume
        (files (F.content folder.old) (F.fetch_faults folder.old) (F.store_faults folder.old))
        system.now (names_in names.now) settings.now effort.now.budget.limit effort.now.order
        effort.now.budget.nodes share (made p)) }
    ensures refused { IfErr result
        (RefusesJoined
        (files (F.content folder.old) (F.fetch_faults folder.old) (F.store_faults folder.old))
        (files (F.content folder.new) (F.fetch_faults folder.new) (F.store_faults folder.new))
        system.now (names_in names.now) settings.now effort.now.budget.limit
        effort.now.budget.nodes) }
{
    let opening = match opening_in(alloc, folder, system, names, settings, effort.budget.limit) {
        Ok(opening) => opening,
        Err(refusal) => return Err(refusal),
    };
    let settled = opening.paving.counts().settled();
    let most = effort.budget.limit.nodes();
    if settled + effort.budget.nodes > most {
        return Err(Refusal::TreeLimit { settled });
    }
    Ok(settle_opening(rt, alloc, opening, effort, share, gate)?)
}

// What the budget settles of an opening, or of a share of it.
fn settle_opening<G: Gate + Sync, R: Threads + Wait + Sync>(
    rt: &R,
    alloc: Global,
    opening: Opening,
    effort: &Effort,
    share: Option<Share>,
    gate: &G,
) -> Result<Product, Memory>
    requires root { opening.paving.root ≡ search_box (method_of opening.settler) }
    requires dims { length opening.paving.root ≡ dims_of (method_of opening.settler) }
    requires limit { settled_in opening.paving.tree + effort.now.budget.nodes ≤
        effort.now.budget.limit }
    ensures { IfOk result
        (λ p. GivesResumed (method_of opening.settler) opening.paving.tree effort.now.order
        effort.now.budget.nodes share (made p)) }
{
    let Opening { settler, paving } = opening;
    let identity = settler.identity(alloc)?;
    match share {
        Some(share) => {
            let part = go_on_with(alloc, &settler, paving, share, effort.budget.nodes, gate)?;
            Ok(Product::Paved {
                identity,
                paving: part.paving,
                done: part.done,
            })
        }
        None => {
            let paving = go_on(rt, alloc, &settler, paving, effort, gate)?;
            Ok(of_paving(identity, paving))
        }
    }
}

// Goes on with all open leaves.
fn go_on<G: Gate + Sync, R: Threads + Wait + Sync>(
    rt: &R,
    alloc: Global,
    settler: &FormSettler,
    opening: Paving,
    effort: &Effort,
    gate: &G,
) -> Result<Paving, Memory>
    requires root { opening.root ≡ search_box (method_of settler.now) }
    requires dims { length opening.root ≡ dims_of (method_of settler.now) }
    requires limit { settled_in opening.tree + effort.now.budget.nodes ≤ effort.now.budget.limit }
    ensures root { IfOk result (λ p. p.root ≡ search_box (method_of settler.now)) }
    ensures resumed { IfOk result
        (λ p. IsResumed (method_of settler.now) opening.tree effort.now.order
        effort.now.budget.nodes
        p.tree) }
{
    let paving = pave_in_order(
        rt,
        alloc,
        settler,
        opening,
        effort.order,
        effort.budget,
        gate,
    )?;
    learn_honest(&paving, settler);
    Ok(paving)
}

// Goes on with a share of the open leaves.
fn go_on_with<G: Gate>(
    alloc: Global,
    settler: &FormSettler,
    opening: Paving,
    share: Share,
    budget: u64,
    gate: &G,
) -> Result<Shared, Memory>
    requires root { opening.root ≡ search_box (method_of settler.now) }
    requires dims { length opening.root ≡ dims_of (method_of settler.now) }
    ensures root { IfOk result (λ s. s.paving.root ≡ search_box (method_of settler.now)) }
    ensures resumed { IfOk result
        (λ s. IsShareResumed (method_of settler.now) opening.tree share budget s.paving.tree
        s.done) }
{
    let shared = settle_share(alloc, settler, opening, share, budget, gate)?;
    learn_honest(&shared.paving, settler);
    Ok(shared)
}
