//! What is settled below one open leaf.
ghost use Rattle.std.specs.Prelude.{◌≡◌, ◌+◌, ◌<◌, ◌≤◌, None, false, length, reverse, IfOk, IfSome, IsTrue, OnOk};
ghost use Rattle.pv_tree.specs.Trees.{Tree, Paves, leaf, subtree};
ghost use Rattle.pv_tree.specs.Stages.{IsStage};
ghost use Rattle.pv_tree.specs.Holes.{IsNext};
ghost use Rattle.pv_tree.specs.KnownLeaves.{AreKnown};
ghost use Rattle.pv_board.specs.Rules.{IsStageBelow, settled_in};
ghost use Rattle.pv_scope.specs.Parts.{AreToCome, AreLong, AreShort, IsGrown, IsGrownAt};

use pv_num::Memory;
use pv_pool::Gate;
use pv_tree::{Grower, KnowingSettler, Path, Paving, Workspace};
use std::alloc::Global;

/// How far a call came.
#[derive(Clone, Copy)]
pub(crate) struct Came {
    /// How many leaves it settled.
    pub(crate) settled: u64,
    /// Whether nothing was left to settle.
    pub(crate) done: bool,
}

/// An open leaf, and how far below it is settled.
#[derive(Clone, Copy)]
pub(crate) struct Reach {
    /// The leaf's path.
    pub(crate) at: Path,
    /// Leaves are settled whose path has fewer steps.
    pub(crate) steps: u32,
}

#[derive(Drop)]
struct Part {
    stage: Paving,
    came: Came,
}

/// Settles an open leaf and what is below it, each time the first open leaf within the reach, until
/// there is none or `most` are settled.
///
/// # Errors
///
/// Want of memory.
pub(crate) fn settle_at<S: KnowingSettler, G: Gate>(
    alloc: Global,
    settler: &S,
    gate: &G,
    paving: &mut Paving,
    reach: Reach,
    most: u64,
    workspace: &mut Workspace<S>,
) -> Result<Came, Memory>
    requires open { subtree paving.old.tree reach.at ≡ Some leaf }
    requires dims { length paving.old.root ≡ S.dims settler.now }
    requires scratch { length workspace.old.scratch ≡ S.dims settler.now }
    ensures root { paving.new.root ≡ paving.old.root }
    ensures scratch { length workspace.new.scratch ≡ S.dims settler.now }
    ensures stage { OnOk result
        ((opening : Tree) → Paves paving.old.root opening
        → IsStage (S.settle_of settler.now)
        (S.depth_of settler.now) paving.old.root opening paving.old.tree
        → IsStage (S.settle_of settler.now)
        (S.depth_of settler.now) paving.new.root opening paving.new.tree) }
    ensures grown { IfOk result (λ came.
        IsGrownAt paving.old.tree paving.new.tree reach.at reach.steps most came.settled came.done) }
{
    let at = reach.at;
    let _places = paving.dims();
    paving.box_at(at, &mut workspace.scratch);
    let _sides = workspace.scratch.dims();
    let _steps = at.len();
    let part = grow_at(alloc, settler, gate, &reach, most, workspace)?;
    paving.reserve(part.came.settled)?;
    paving.graft(at, &part.stage);
    Ok(part.came)
}

// Grows a stage of the box in `workspace.scratch`, which is that of the leaf.
fn grow_at<S: KnowingSettler, G: Gate>(
    alloc: Global,
    settler: &S,
    gate: &G,
    reach: &Reach,
    most: u64,
    workspace: &mut Workspace<S>,
) -> Result<Part, Memory>
    requires scratch { length workspace.old.scratch ≡ S.dims settler.now }
    ensures root { IfOk result (λ p. p.stage.root ≡ workspace.old.scratch) }
    ensures stage { IfOk result (λ p. IsStageBelow (S.settle_of settler.now)
        (S.depth_of settler.now) workspace.old.scratch (length reach.now.at) p.stage.tree) }
    ensures count { IfOk result (λ p. settled_in p.stage.tree ≡ p.came.settled) }
    ensures short { IfOk result (λ p. AreShort reach.now.steps (length reach.now.at) p.stage.tree) }
    ensures grown { IfOk result (λ p.
        IsGrown reach.now.steps (length reach.now.at) most p.came.settled p.came.done p.stage.tree) }
    ensures scratch { length workspace.new.scratch ≡ S.dims settler.now }
{
    let mut grower = Grower::open(alloc, settler, reach.at, settler.nothing(), workspace)?;
    let _places = grower.growth.dims();
    let came = grow_on(alloc, settler, gate, reach, most, &mut grower, workspace)?;
    Ok(Part {
        stage: grower.finish(),
        came,
    })
}

// Settles leaves of a stage of which none is settled yet.
fn grow_on<S: KnowingSettler, G: Gate>(
    alloc: Global,
    settler: &S,
    gate: &G,
    reach: &Reach,
    most: u64,
    grower: &mut Grower,
    workspace: &mut Workspace<S>,
) -> Result<Came, Memory>
    requires at { grower.old.at ≡ reach.now.at }
    requires dims { length grower.old.growth.root ≡ S.dims settler.now }
    requires stage { IsStageBelow (S.settle_of settler.now)
        (S.depth_of settler.now) grower.old.growth.root (length reach.now.at)
        grower.old.growth.tree }
    requires none { settled_in grower.old.growth.tree ≡ 0 }
    requires to_come { AreToCome reach.now.steps (length reach.now.at) grower.old.growth }
    requires short { AreShort reach.now.steps (length reach.now.at) grower.old.growth.tree }
    requires facts { AreKnown (S.knows settler.now)
        (reverse workspace.old.facts.items) grower.old.growth.holes }
    requires scratch { length workspace.old.scratch ≡ S.dims settler.now }
    ensures root { grower.new.growth.root ≡ grower.old.growth.root }
    ensures stage { OnOk result (IsStageBelow (S.settle_of settler.now)
        (S.depth_of settler.now) grower.new.growth.root (length reach.now.at)
        grower.new.growth.tree) }
    ensures count { IfOk result (λ came. settled_in grower.new.growth.tree ≡ came.settled) }
    ensures short { OnOk result (AreShort reach.now.steps (length reach.now.at) grower.new.growth.tree) }
    ensures grown { IfOk result (λ came.
        IsGrown reach.now.steps (length reach.now.at) most came.settled came.done
        grower.new.growth.tree) }
    ensures scratch { length workspace.new.scratch ≡ S.dims settler.now }
{
    let _places = grower.growth.dims();
    for settled in 0..most {
        let Some(path) = next_short(settler, grower, reach, workspace) else {
            return Ok(Came {
                settled,
                done: true,
            });
        };
        settle_next(alloc, settler, gate, reach, path, grower, workspace)?;
    }
    let done = next_short(settler, grower, reach, workspace).is_none();
    Ok(Came {
        settled: most,
        done,
    })
}

// The path of the next leaf that is to be settled. The leaves before it stay open.
fn next_short<S: KnowingSettler>(
    _settler: &S,
    grower: &mut Grower,
    reach: &Reach,
    workspace: &mut Workspace<S>,
) -> Option<Path>
    requires to_come { AreToCome reach.now.steps (length reach.now.at) grower.old.growth }
    requires facts { AreKnown (S.knows _settler.now)
        (reverse workspace.old.facts.items) grower.old.growth.holes }
    ensures root { grower.new.growth.root ≡ grower.old.growth.root }
    ensures tree { grower.new.growth.tree ≡ grower.old.growth.tree }
    ensures at { grower.new.at ≡ grower.old.at }
    ensures next { IfSome result (λ p. IsNext grower.new.growth p) }
    ensures short { IfSome result (λ p. length reach.now.at + length p < reach.now.steps) }
    ensures none { result ≡ None → AreLong reach.now.steps (length reach.now.at) grower.new.growth.tree }
    ensures to_come { AreToCome reach.now.steps (length reach.now.at) grower.new.growth }
    ensures facts { AreKnown (S.knows _settler.now)
        (reverse workspace.new.facts.items) grower.new.growth.holes }
    ensures scratch { workspace.new.scratch ≡ workspace.old.scratch }
{
    while let Some(path) = grower.next() {
        if is_short(reach, path) {
            return Some(path);
        }
        grower.pass(_settler, workspace);
    }
    None
}

// Whether a leaf below another one is to be settled.
fn is_short(reach: &Reach, path: Path) -> bool
    ensures short { IsTrue result → length reach.now.at + length path < reach.now.steps }
    ensures long { result ≡ false → reach.now.steps ≤ length reach.now.at + length path }
{
    reach.at.len() + path.len() < reach.steps
}

// Settles the next leaf of a stage, with the cuts that its whole path leaves.
fn settle_next<S: KnowingSettler, G: Gate>(
    alloc: Global,
    settler: &S,
    gate: &G,
    reach: &Reach,
    path: Path,
    grower: &mut Grower,
    workspace: &mut Workspace<S>,
) -> Result<(), Memory>
    requires next { IsNext grower.old.growth path }
    requires few { length reach.now.at + length path < reach.now.steps }
    requires dims { length grower.old.growth.root ≡ S.dims settler.now }
    requires stage { IsStageBelow (S.settle_of settler.now)
        (S.depth_of settler.now) grower.old.growth.root (length reach.now.at)
        grower.old.growth.tree }
    requires facts { AreKnown (S.knows settler.now)
        (reverse workspace.old.facts.items) grower.old.growth.holes }
    requires to_come { AreToCome reach.now.steps (length reach.now.at) grower.old.growth }
    requires short { AreShort reach.now.steps (length reach.now.at) grower.old.growth.tree }
    requires scratch { length workspace.old.scratch ≡ S.dims settler.now }
    requires at { grower.old.at ≡ reach.now.at }
    ensures at { grower.new.at ≡ grower.old.at }
    ensures root { grower.new.growth.root ≡ grower.old.growth.root }
    ensures stage { OnOk result (IsStageBelow (S.settle_of settler.now)
        (S.depth_of settler.now) grower.new.growth.root (length reach.now.at)
        grower.new.growth.tree) }
    ensures more { OnOk result
        (settled_in grower.new.growth.tree ≡ settled_in grower.old.growth.tree + 1) }
    ensures facts { OnOk result (AreKnown (S.knows settler.now)
        (reverse workspace.new.facts.items) grower.new.growth.holes) }
    ensures to_come { OnOk result (AreToCome reach.now.steps (length reach.now.at) grower.new.growth) }
    ensures short { OnOk result (AreShort reach.now.steps (length reach.now.at) grower.new.growth.tree) }
    ensures scratch { length workspace.new.scratch ≡ S.dims settler.now }
{
    let _places = grower.growth.dims();
    let _steps = reach.at.len();
    gate.enter(0, reach.at.then(path));
    grower.step(alloc, settler, workspace, path)?;
    Ok(())
}
