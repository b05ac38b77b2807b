//! `run` and `run-centered`: a paving of the search box of a system.
ghost use Rattle.std.specs.Prelude.{◌≡◌, IfOk, IfErr, length};
ghost use Rattle.pv_tree.specs.Trees.{leaf};
ghost use Rattle.pv_scope.specs.Orders.{IsInOrder};
ghost use Rattle.pv_slope.specs.Methods.{method_of, dims_of, settle_by};
ghost use Rattle.pv_rule.specs.Systems.{files, AreOnlyRead, RefusesRule};
ghost use Rattle.pv_rule.specs.Pavings.{IsPaved};
ghost use Rattle.pv_product.specs.Products.{ComesOfRun};
ghost use Rattle.pv_product.specs.Made.{made};

use pv_box::IBox;
use pv_honest::learn_honest;
use pv_io::Folder;
use pv_num::Memory;
use pv_pool::Gate;
use pv_product::{Product, of_paving};
use pv_request::{Effort, Refusal, Settings};
use pv_rule::settler_in;
use pv_scope::pave_in_order;
use pv_slope::FormSettler;
use pv_tree::Paving;
use std::alloc::Global;
use std::sync::Wait;
use std::thread::Threads;

/// The paving of the search box of the system in a file, as far as the budget goes.
pub fn run<'a, F: Folder, G: Gate + Sync, R: Threads + Wait + Sync>(
    rt: &R,
    alloc: Global,
    folder: &mut F,
    system: &'a str,
    settings: &Settings<'a>,
    effort: &Effort,
    gate: &G,
) -> Result<Product, Refusal<'a>>
    ensures read { AreOnlyRead
        (files (F.content folder.old) (F.fetch_faults folder.old) (F.store_faults folder.old))
        (files (F.content folder.new) (F.fetch_faults folder.new) (F.store_faults folder.new)) }
    ensures comes { IfOk result
        (λ p. ComesOfRun
        (files (F.content folder.old) (F.fetch_faults folder.old) (F.store_faults folder.old))
        system.now settings.now effort.now.order effort.now.budget.nodes (made p)) }
    ensures refused { IfErr result
        (RefusesRule (files (F.content folder.old) (F.fetch_faults folder.old)
        (F.store_faults folder.old))
        (files (F.content folder.new) (F.fetch_faults folder.new) (F.store_faults folder.new))
        system.now settings.now) }
{
    let settler = match settler_in(alloc, folder, system, settings) {
        Ok(settler) => settler,
        Err(refusal) => return Err(refusal),
    };
    let identity = settler.identity(alloc)?;
    let root = settler.search_box(alloc)?;
    let paving = pave_box(rt, alloc, &settler, root, effort, gate)?;
    learn_honest(&paving, &settler);
    Ok(of_paving(identity, paving))
}

/// What the budget settles of an open box.
pub(crate) fn pave_box<G: Gate + Sync, R: Threads + Wait + Sync>(
    rt: &R,
    alloc: Global,
    settler: &FormSettler,
    root: IBox,
    effort: &Effort,
    gate: &G,
) -> Result<Paving, Memory>
    requires { length root ≡ dims_of (method_of settler.now) }
    ensures root { IfOk result (λ p. p.root ≡ root) }
    ensures paved { IfOk result
        (λ p. IsPaved (settle_by (method_of settler.now)) (method_of settler.now).parts.depth root
        leaf effort.now.budget.nodes p.tree) }
    ensures ordered { IfOk result (λ p. IsInOrder effort.now.order leaf p.tree) }
{
    let opening = Paving::open(alloc, root)?;
    pave_in_order(
        rt,
        alloc,
        settler,
        opening,
        effort.order,
        effort.budget,
        gate,
    )
}
