//! What a growing paving, a walk over one and a settling promise.
ghost use Rattle.std.specs.Prelude.{◌≡◌, ◌+◌, ◌<◌, ◌≤◌, if◌then◌else◌, is_ok, length, IfSome, OnErr, Some};
ghost use Rattle.pv_tree.specs.Trees.{leaf, subtree, graft, settled, Fits, HasDepth, box_of, height, counts_of, settled_of};
ghost use Rattle.pv_tree.specs.Stages.{settled_by};
ghost use Rattle.pv_tree.specs.Holes.{settle_next, Takes, IsNext, IsFirstBox};
ghost use Rattle.pv_tree.specs.Pieces.{IsVisit};
ghost use Rattle.pv_tree.specs.declared.path.TheConstants.{MOST_STEPS};

use pv_box::IBox;
use pv_num::Memory;
use pv_tree::{Growth, Outcome, Path, Paving, PutRefused, Settler, Shape, Walk};
use std::alloc::Global;

/// Where a walk is.
pub fn place(walk: &Walk<'_>) -> Path
    ensures { result ≡ walk.now.here.path }
{
    walk.path()
}

/// Goes to the next node in preorder, the low child of a cut before the high one.
pub fn go_on(walk: &mut Walk<'_>) -> Option<Shape>
    ensures { IfSome result (λ s. IsVisit walk.old walk.new s) }
{
    walk.next()
}

/// Writes the box of the node where a walk is over another box.
pub fn box_here(walk: &Walk<'_>, into: &mut IBox)
    requires { length into.old ≡ length walk.now.root }
    ensures { into.new ≡ walk.now.here.box }
{
    walk.write_box(into);
}

/// The path of the leaf that comes next in a growth.
pub fn next_leaf(growth: &Growth) -> Option<Path>
    ensures { IfSome result (λ p. IsNext growth.now p) }
{
    growth.next_leaf()
}

/// Writes the box of the leaf that comes next in a growth over another box.
pub fn next_box(growth: &Growth, into: &mut IBox)
    requires some { 0 < length growth.now.holes }
    requires dims { length into.old ≡ length growth.now.root }
    ensures { IsFirstBox growth.now.holes into.new }
{
    growth.write_box(into);
}

/// Settles the leaf that comes next in a growth; then its children come next, the low one first.
pub fn grow(growth: &mut Growth, outcome: Outcome) -> Result<(), PutRefused>
    requires { Takes growth.old.holes outcome }
    ensures { growth.new ≡
        (if is_ok result then settle_next growth.old outcome else growth.old) }
{
    growth.settle(outcome)
}

/// Settles an open leaf. Want of memory leaves all as it is.
pub fn put(paving: &mut Paving, path: Path, outcome: Outcome) -> Result<(), PutRefused>
    requires open { subtree paving.old.tree path ≡ Some leaf }
    requires fits { Fits (box_of paving.old.root paving.old.tree path) outcome }
    requires depth { HasDepth path outcome }
    ensures tree { paving.new.tree ≡ (if is_ok result
        then graft paving.old.tree path (settled outcome)
        else paving.old.tree) }
    ensures refused { OnErr result (paving.new.spare ≡ paving.old.spare) }
{
    paving.put(path, outcome)
}

/// Puts a stage in the place of an open leaf.
pub fn put_stage(paving: &mut Paving, path: Path, stage: &Paving)
    requires open { subtree paving.old.tree path ≡ Some leaf }
    requires root { stage.now.root ≡ box_of paving.old.root paving.old.tree path }
    requires depth { length path + height stage.now.tree ≤ MOST_STEPS }
    requires room { settled_of (counts_of stage.now.tree) ≤ paving.old.spare }
    ensures { paving.new.tree ≡ graft paving.old.tree path stage.now.tree }
{
    paving.graft(path, stage);
}

/// Settles an open leaf as a settler does.
pub fn settle<S: Settler>(
    paving: &mut Paving,
    alloc: Global,
    settler: &S,
    path: Path,
    scratch: &mut IBox,
) -> Result<(), Memory>
    requires open { subtree paving.old.tree path ≡ Some leaf }
    requires dims { length paving.old.root ≡ S.dims settler.now }
    requires scratch { length scratch.old ≡ length paving.old.root }
    ensures { paving.new.tree ≡ (if is_ok result
        then settled_by (S.settle_of settler.now) (S.depth_of settler.now) paving.old path
        else paving.old.tree) }
{
    paving.settle_leaf(alloc, settler, path, scratch)
}
