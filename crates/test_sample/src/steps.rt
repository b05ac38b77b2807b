//! Settling the open leaves of a paving, one after the other.
ghost use Rattle.std.specs.Prelude.{◌≡◌, ◌+◌, ◌≤◌, IfOk, Some, length};
ghost use Rattle.pv_tree.specs.Trees.{subtree, leaf};
ghost use Rattle.pv_tree.specs.Holes.{IsNext};

use pv_box::IBox;
use pv_num::Memory;
use pv_tree::{Growth, Path, Paving, Settler};
use std::alloc::Global;

/// Settles the first open leaf again and again, at most `most` times. `scratch` takes the leaves'
/// boxes.
pub fn settle_first<S: Settler>(
    alloc: Global,
    settler: &S,
    paving: &mut Paving,
    most: u32,
    scratch: &mut IBox,
) -> Result<(), Memory>
    requires dims { length paving.old.root ≡ S.dims settler.now }
    requires scratch { length scratch.old ≡ length paving.old.root }
    ensures root { paving.new.root ≡ paving.old.root }
    ensures scratch { length scratch.new ≡ length scratch.old }
{
    for _ in 0..most {
        match paving.first_open() {
            Some(path) => paving.settle_leaf(alloc, settler, path, scratch)?,
            None => return Ok(()),
        }
    }
    Ok(())
}

/// Settles the first open leaf again and again, at most `most` times, in reserved room.
pub fn settle_in_room<S: Settler>(
    alloc: Global,
    settler: &S,
    paving: &mut Paving,
    most: u32,
    scratch: &mut IBox,
) -> Result<(), Memory>
    requires dims { length paving.old.root ≡ S.dims settler.now }
    requires scratch { length scratch.old ≡ length paving.old.root }
    requires room { most ≤ paving.old.spare }
    ensures root { paving.new.root ≡ paving.old.root }
    ensures scratch { length scratch.new ≡ length scratch.old }
{
    for _ in 0..most {
        match paving.first_open() {
            Some(path) => settle_one(alloc, settler, paving, path, scratch)?,
            None => return Ok(()),
        }
    }
    Ok(())
}

/// Settles an open leaf in reserved room.
fn settle_one<S: Settler>(
    alloc: Global,
    settler: &S,
    paving: &mut Paving,
    path: Path,
    scratch: &mut IBox,
) -> Result<(), Memory>
    requires open { subtree paving.old.tree path ≡ Some leaf }
    requires dims { length paving.old.root ≡ S.dims settler.now }
    requires scratch { length scratch.old ≡ length paving.old.root }
    requires room { 1 ≤ paving.old.spare }
    ensures root { paving.new.root ≡ paving.old.root }
    ensures spare { paving.old.spare ≤ paving.new.spare + 1 }
    ensures scratch { length scratch.new ≡ length scratch.old }
{
    let _places = paving.dims();
    paving.box_at(path, scratch);
    let _sides = scratch.dims();
    let steps = path.len();
    let cuts_left = settler.depth().saturating_sub(steps);
    let outcome = settler.settle(alloc, scratch, cuts_left, steps)?;
    paving.put_in_room(path, outcome);
    Ok(())
}

/// The paving of a box after at most `most` settlings in preorder. `scratch` takes the leaves'
/// boxes.
pub fn grow<S: Settler>(
    alloc: Global,
    settler: &S,
    root: IBox,
    most: u32,
    scratch: &mut IBox,
) -> Result<Paving, Memory>
    requires dims { length root ≡ S.dims settler.now }
    requires scratch { length scratch.old ≡ length root }
    ensures root { IfOk result (λ p. p.root ≡ root) }
    ensures scratch { length scratch.new ≡ length scratch.old }
{
    let mut growth = Growth::open(alloc, root)?;
    for _ in 0..most {
        match growth.next_leaf() {
            Some(path) => grow_one(alloc, settler, &mut growth, path, scratch)?,
            None => return Ok(growth.finish()),
        }
    }
    Ok(growth.finish())
}

/// Settles the leaf that comes next.
fn grow_one<S: Settler>(
    alloc: Global,
    settler: &S,
    growth: &mut Growth,
    path: Path,
    scratch: &mut IBox,
) -> Result<(), Memory>
    requires next { IsNext growth.old path }
    requires dims { length growth.old.root ≡ S.dims settler.now }
    requires scratch { length scratch.old ≡ length growth.old.root }
    ensures root { growth.new.root ≡ growth.old.root }
    ensures scratch { length scratch.new ≡ length scratch.old }
{
    growth.write_box(scratch);
    let _sides = scratch.dims();
    let steps = path.len();
    let cuts_left = settler.depth().saturating_sub(steps);
    let outcome = settler.settle(alloc, scratch, cuts_left, steps)?;
    match growth.settle(outcome) {
        Ok(()) => Ok(()),
        Err(_) => Err(Memory),
    }
}
