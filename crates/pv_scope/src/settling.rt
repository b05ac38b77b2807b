//! Settling the open leaves of a scope.
ghost use Rattle.std.specs.Prelude.{◌≡◌, length, IfOk, OnOk};
ghost use Rattle.pv_tree.specs.Trees.{Tree, Paves, opens};
ghost use Rattle.pv_tree.specs.Stages.{IsStage};
ghost use Rattle.pv_scope.specs.Scopes.{is_in_scope, most_steps, picked, IsScope};
ghost use Rattle.pv_scope.specs.Settlings.{IsEnded, IsSettled};

use crate::leaves::leaves_in;
use crate::part::{Came, Reach, settle_at};
use crate::scope::Scope;
use pv_num::Memory;
use pv_pool::Gate;
use pv_tree::{KnowingSettler, Paving, Workspace};
use std::alloc::Global;

/// Settles the open leaves of a scope one after the other in preorder, each with what is below it,
/// until none is left or the budget is spent.
///
/// # Errors
///
/// Want of memory.
pub(crate) fn settle_scope<S: KnowingSettler, G: Gate>(
    alloc: Global,
    settler: &S,
    gate: &G,
    paving: &mut Paving,
    scope: Scope,
    budget: u64,
    workspace: &mut Workspace<S>,
) -> Result<Came, Memory>
    requires scope { IsScope scope }
    requires dims { length paving.old.root ≡ S.dims settler.now }
    requires scratch { length workspace.old.scratch ≡ S.dims settler.now }
    ensures root { paving.new.root ≡ paving.old.root }
    ensures scratch { length workspace.new.scratch ≡ S.dims settler.now }
    ensures stage { OnOk result
        ((opening : Tree) → Paves paving.old.root opening
        → IsStage (S.settle_of settler.now)
        (S.depth_of settler.now) paving.old.root opening paving.old.tree
        → IsStage (S.settle_of settler.now)
        (S.depth_of settler.now) paving.new.root opening paving.new.tree) }
    ensures settled { IfOk result (λ came. IsSettled paving.old.tree paving.new.tree
        (picked (is_in_scope scope) 0 (opens paving.old.tree))
        (most_steps scope) came.settled) }
    ensures ended { IfOk result (λ came. IsEnded (most_steps scope)
        (picked (is_in_scope scope) 0 (opens paving.old.tree))
        budget came.settled came.done paving.new.tree) }
{
    let steps = scope.most_steps();
    let mut leaves = leaves_in(alloc, paving, scope)?;
    leaves.reverse();
    let mut settled = 0u64;
    while let Some(path) = leaves.pop() {
        let left = budget - settled;
        let reach = Reach { at: path, steps };
        let came = settle_at(alloc, settler, gate, paving, reach, left, workspace)?;
        settled += came.settled;
        if !came.done {
            return Ok(Came {
                settled,
                done: false,
            });
        }
    }
    Ok(Came {
        settled,
        done: true,
    })
}
