//! The open leaves of a scope.
ghost use Rattle.std.specs.Prelude.{◌≡◌, ◌++◌, [], ◌∷◌, IfOk, OnOk};
ghost use Rattle.pv_tree.specs.Trees.{opens};
ghost use Rattle.pv_scope.specs.Scopes.{is_in_scope, picked, IsScope};

use crate::scope::Scope;
use pv_num::Memory;
use pv_tree::{Path, Paving, Shape, Walk};
use std::alloc::Global;

/// The paths of the open leaves in a scope, in preorder.
///
/// # Errors
///
/// Want of memory.
pub(crate) fn leaves_in(alloc: Global, paving: &Paving, scope: Scope) -> Result<Vec<Path>, Memory>
    requires { IsScope scope }
    ensures { IfOk result (λ ps.
        ps.items ≡ picked (is_in_scope scope) 0 (opens paving.now.tree)) }
{
    let _counts = paving.counts();
    let mut leaves = Vec::new(alloc);
    let mut walk = Walk::of(alloc, paving)?;
    let mut number = 0u64;
    while let Some(shape) = walk.next() {
        if let Shape::OpenLeaf = shape {
            take_leaf(&mut leaves, scope, number, walk.path())?;
            number += 1;
        }
    }
    Ok(leaves)
}

// Appends the path of an open leaf, if it is in the scope.
fn take_leaf(leaves: &mut Vec<Path>, scope: Scope, number: u64, path: Path) -> Result<(), Memory>
    requires { IsScope scope }
    ensures { OnOk result (leaves.new.items ≡
        leaves.old.items ++ picked (is_in_scope scope) number (path ∷ [])) }
{
    if scope.has(number, path) {
        leaves.push(path)?;
    }
    Ok(())
}
