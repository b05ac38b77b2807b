//! Settling an opening's shallow leaves first.
ghost use Rattle.std.specs.Prelude.{◌≡◌, ◌⊎◌, ◌+◌, ◌*◌, ◌≤◌, ℕ, [], true, false, length, IfOk, OnOk};
ghost use Rattle.pv_tree.specs.Trees.{Tree, Paves, opens};
ghost use Rattle.pv_tree.specs.Stages.{IsStage};
ghost use Rattle.pv_board.specs.Rules.{settled_in};
ghost use Rattle.pv_workers.specs.Pavings.{IsPaved, IsSpent};
ghost use Rattle.pv_scope.specs.Settlings.{IsLevel, IsPass};

use crate::part::Came;
use crate::scope::Scope;
use crate::settling::settle_scope;
use pv_num::Memory;
use pv_pool::Gate;
use pv_tree::{KnowingSettler, Paving, Settler, Workspace};
use std::alloc::Global;

/// Each pass goes so many levels further down than the one before it.
const LEVELS: u32 = 4;

/// After so many passes no leaf is open, since no path has more steps.
const MOST_PASSES: u32 = 51;

/// An opening that was settled by levels.
#[derive(Drop)]
pub struct Levelled {
    pub paving: Paving,
    /// How many leaves were settled.
    pub settled: u64,
    /// The pass in which it ended, counted from 1.
    pub pass: u32,
}

/// Settles an opening's open leaves in passes: pass j settles those whose paths have fewer than 4 j
/// steps, until there is none, and then the next pass begins. It ends where no leaf is open or the
/// budget is spent. The gate is entered as by worker 0, with the path of the leaf, before each
/// settling.
///
/// # Errors
///
/// Want of memory.
pub fn settle_levels<S: KnowingSettler, G: Gate>(
    alloc: Global,
    settler: &S,
    opening: Paving,
    budget: u64,
    gate: &G,
) -> Result<Levelled, Memory>
    requires dims { length opening.root ≡ S.dims settler.now }
    ensures root { IfOk result (λ s. s.paving.root ≡ opening.root) }
    ensures stages { IfOk result (λ s. (earlier : Tree) → Paves opening.root earlier →
        IsStage (S.settle_of settler.now)
        (S.depth_of settler.now) opening.root earlier opening.tree →
        IsStage (S.settle_of settler.now)
        (S.depth_of settler.now) opening.root earlier s.paving.tree) }
    ensures stage { IfOk result (λ s. IsStage (S.settle_of settler.now)
        (S.depth_of settler.now) opening.root opening.tree s.paving.tree) }
    ensures settled { IfOk result (λ s.
        settled_in s.paving.tree ≡ settled_in opening.tree + s.settled) }
    ensures spent { IfOk result (λ s. IsSpent budget opening.tree s.paving.tree) }
    ensures paved { IfOk result (λ s.
        IsPaved (S.settle_of settler.now)
        (S.depth_of settler.now) opening.root opening.tree budget s.paving.tree) }
    ensures level { IfOk result (λ s. IsLevel opening.tree s.paving.tree s.pass) }
{
    let _places = opening.dims();
    let levelled = by_passes(alloc, settler, opening, budget, gate)?;
    learn_spent(&levelled.paving, settler);
    Ok(levelled)
}

// Does nothing. A stage of an opening that spent a budget, or has no open leaf, is whole exactly
// where the budget is enough for that.
fn learn_spent<S: Settler>(paving: &Paving, settler: &S)
    requires { length paving.now.root ≡ S.dims settler.now }
    ensures { (opening : Tree) (budget : ℕ) → Paves paving.now.root opening →
        IsStage (S.settle_of settler.now)
        (S.depth_of settler.now) paving.now.root opening paving.now.tree →
        IsSpent budget opening paving.now.tree →
        IsPaved (S.settle_of settler.now)
        (S.depth_of settler.now) paving.now.root opening budget paving.now.tree }
{
    let _places = paving.dims();
    let _depth = settler.depth();
}

// Settles pass by pass.
fn by_passes<S: KnowingSettler, G: Gate>(
    alloc: Global,
    settler: &S,
    opening: Paving,
    budget: u64,
    gate: &G,
) -> Result<Levelled, Memory>
    requires dims { length opening.root ≡ S.dims settler.now }
    ensures root { IfOk result (λ s. s.paving.root ≡ opening.root) }
    ensures stages { IfOk result (λ s. (earlier : Tree) → Paves opening.root earlier →
        IsStage (S.settle_of settler.now)
        (S.depth_of settler.now) opening.root earlier opening.tree →
        IsStage (S.settle_of settler.now)
        (S.depth_of settler.now) opening.root earlier s.paving.tree) }
    ensures stage { IfOk result (λ s. IsStage (S.settle_of settler.now)
        (S.depth_of settler.now) opening.root opening.tree s.paving.tree) }
    ensures settled { IfOk result (λ s.
        settled_in s.paving.tree ≡ settled_in opening.tree + s.settled) }
    ensures spent { IfOk result (λ s. IsSpent budget opening.tree s.paving.tree) }
    ensures level { IfOk result (λ s. IsLevel opening.tree s.paving.tree s.pass) }
{
    let mut paving = opening;
    let mut workspace = Workspace::of(alloc, settler, paving.dims())?;
    let mut settled = 0u64;
    for pass in 1..MOST_PASSES {
        let left = budget - settled;
        let came = settle_pass(
            alloc,
            settler,
            gate,
            &mut paving,
            pass,
            left,
            &mut workspace,
        )?;
        settled += came.settled;
        if is_over(&paving, came) {
            return Ok(Levelled {
                paving,
                settled,
                pass,
            });
        }
    }
    let left = budget - settled;
    let pass = MOST_PASSES;
    let came = settle_pass(
        alloc,
        settler,
        gate,
        &mut paving,
        pass,
        left,
        &mut workspace,
    )?;
    let _sides = paving.dims();
    Ok(Levelled {
        paving,
        settled: settled + came.settled,
        pass,
    })
}

// Settles the leaves whose paths have fewer than four times so many steps as the pass has.
fn settle_pass<S: KnowingSettler, G: Gate>(
    alloc: Global,
    settler: &S,
    gate: &G,
    paving: &mut Paving,
    pass: u32,
    left: u64,
    workspace: &mut Workspace<S>,
) -> Result<Came, Memory>
    requires few { pass ≤ 51 }
    requires dims { length paving.old.root ≡ S.dims settler.now }
    requires scratch { length workspace.old.scratch ≡ S.dims settler.now }
    ensures root { paving.new.root ≡ paving.old.root }
    ensures scratch { length workspace.new.scratch ≡ S.dims settler.now }
    ensures stage { OnOk result
        ((opening : Tree) → Paves paving.old.root opening
        → IsStage (S.settle_of settler.now)
        (S.depth_of settler.now) paving.old.root opening paving.old.tree
        → IsStage (S.settle_of settler.now)
        (S.depth_of settler.now) paving.new.root opening paving.new.tree) }
    ensures pass { IfOk result (λ came. IsPass paving.old.tree paving.new.tree
        (4 * pass) left came.settled came.done) }
{
    let scope = Scope::Above {
        steps: LEVELS * pass,
    };
    let came = settle_scope(alloc, settler, gate, paving, scope, left, workspace)?;
    Ok(came)
}

// Whether no pass is to follow one that came so far.
fn is_over(paving: &Paving, came: Came) -> bool
    ensures over { result ≡ true → (came.done ≡ false) ⊎ (opens paving.now.tree ≡ []) }
    ensures on { result ≡ false → came.done ≡ true }
{
    if !came.done {
        return true;
    }
    paving.is_closed()
}
