//! Pavings that one worker grows alone, with no board.
ghost use Rattle.std.specs.Prelude.{◌≡◌, ◌+◌, ◌*◌, ◌≤◌, [], false, IfOk, OnOk, length, reverse};
ghost use Rattle.pv_tree.specs.KnownLeaves.{AreKnown};
ghost use Rattle.pv_tree.specs.Stages.{IsStage};
ghost use Rattle.pv_tree.specs.Trees.{Tree, Paves, leaf, opens};
ghost use Rattle.pv_board.specs.Rules.{settled_in};
ghost use Rattle.pv_board.specs.Tallies.{one_if};
ghost use Rattle.pv_workers.specs.Leaves.{AreOpen};
ghost use Rattle.pv_workers.specs.Pavings.{IsSpent};

use crate::paving::Paved;
use pv_num::Memory;
use pv_pool::Gate;
use pv_tree::{Grower, KnowingSettler, Path, Paving, Workspace};
use std::alloc::Global;

/// Settles the open leaves of an opening that is one open leaf, each time the first one in
/// preorder, until none is left or the budget is spent. What is known of a box is handed to its
/// halves.
///
/// # Errors
///
/// Want of memory.
pub(crate) fn grow<S: KnowingSettler, G: Gate>(
    alloc: Global,
    settler: &S,
    opening: &Paving,
    budget: u64,
    gate: &G,
) -> Result<Paved, Memory>
    requires dims { length opening.now.root ≡ S.dims settler.now }
    requires leaf { opening.now.tree ≡ leaf }
    ensures root { IfOk result (λ p. p.paving.root ≡ opening.now.root) }
    ensures stage { IfOk result (λ p.
        IsStage (S.settle_of settler.now)
        (S.depth_of settler.now) opening.now.root opening.now.tree p.paving.tree) }
    ensures paved { IfOk result (λ p. IsSpent budget opening.now.tree p.paving.tree) }
    ensures spent { IfOk result (λ p.
        settled_in p.paving.tree ≡ settled_in opening.now.tree + p.spent) }
{
    let mut workspace = Workspace::of(alloc, settler, opening.dims())?;
    let at = Path::root();
    opening.box_at(at, &mut workspace.scratch);
    let mut grower = Grower::open(alloc, settler, at, settler.nothing(), &mut workspace)?;
    let own = grow_all(alloc, settler, &mut grower, &mut workspace, budget, gate)?;
    Ok(Paved {
        paving: grower.finish(),
        spent: u128::from(own),
    })
}

// Settles up to `budget` leaves, and answers how many it settled.
fn grow_all<S: KnowingSettler, G: Gate>(
    alloc: Global,
    settler: &S,
    grower: &mut Grower,
    workspace: &mut Workspace<S>,
    budget: u64,
    gate: &G,
) -> Result<u64, Memory>
    requires dims { length grower.old.growth.root ≡ S.dims settler.now }
    requires facts { AreKnown (S.knows settler.now)
        (reverse workspace.old.facts.items) grower.old.growth.holes }
    requires scratch { length workspace.old.scratch ≡ length grower.old.growth.root }
    requires open { AreOpen grower.old.growth }
    requires at { grower.old.at ≡ [] }
    ensures root { grower.new.growth.root ≡ grower.old.growth.root }
    ensures stage { OnOk result
        ((opening : Tree) → Paves grower.old.growth.root opening
        → IsStage (S.settle_of settler.now)
        (S.depth_of settler.now) grower.old.growth.root opening grower.old.growth.tree
        → IsStage (S.settle_of settler.now)
        (S.depth_of settler.now) grower.new.growth.root opening grower.new.growth.tree) }
    ensures spent { OnOk result (IsSpent budget grower.old.growth.tree grower.new.growth.tree) }
    ensures count { IfOk result (λ own.
        settled_in grower.new.growth.tree ≡ settled_in grower.old.growth.tree + own) }
{
    for settled in 0..budget {
        if !grow_one(alloc, settler, grower, workspace, gate)? {
            return Ok(settled);
        }
    }
    Ok(budget)
}

// Settles the leaf that comes next. Answers false where there is none.
fn grow_one<S: KnowingSettler, G: Gate>(
    alloc: Global,
    settler: &S,
    grower: &mut Grower,
    workspace: &mut Workspace<S>,
    gate: &G,
) -> Result<bool, Memory>
    requires dims { length grower.old.growth.root ≡ S.dims settler.now }
    requires facts { AreKnown (S.knows settler.now)
        (reverse workspace.old.facts.items) grower.old.growth.holes }
    requires scratch { length workspace.old.scratch ≡ length grower.old.growth.root }
    requires open { AreOpen grower.old.growth }
    requires at { grower.old.at ≡ [] }
    ensures root { grower.new.growth.root ≡ grower.old.growth.root }
    ensures scratch { length workspace.new.scratch ≡ length workspace.old.scratch }
    ensures facts { OnOk result (AreKnown (S.knows settler.now)
        (reverse workspace.new.facts.items) grower.new.growth.holes) }
    ensures at { grower.new.at ≡ grower.old.at }
    ensures open { OnOk result (AreOpen grower.new.growth) }
    ensures stage { OnOk result
        ((opening : Tree) → Paves grower.old.growth.root opening
        → IsStage (S.settle_of settler.now)
        (S.depth_of settler.now) grower.old.growth.root opening grower.old.growth.tree
        → IsStage (S.settle_of settler.now)
        (S.depth_of settler.now) grower.new.growth.root opening grower.new.growth.tree) }
    ensures count { IfOk result
        (λ more. settled_in grower.new.growth.tree ≡ settled_in grower.old.growth.tree + one_if more) }
    ensures none { IfOk result (λ more. more ≡ false → opens grower.new.growth.tree ≡ []) }
{
    match grower.next() {
        None => Ok(false),
        Some(path) => {
            gate.enter(0, path);
            grower.step(alloc, settler, workspace, path)?;
            Ok(true)
        }
    }
}
