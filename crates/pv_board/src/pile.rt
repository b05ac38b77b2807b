//! Piling up the open leaves of a paving.
ghost use Rattle.std.specs.Prelude.{◌≡◌, ◌+◌, ◌<◌, ◌≤◌, ◌++◌, ◌↔◌, [], IsTrue, Some, length, vec_len, vec_capacity};
ghost use Rattle.pv_tree.specs.Trees.{Tree, subtree};
ghost use Rattle.pv_tree.specs.declared.outcome.Shape.TheVariants.{OpenLeaf};
ghost use Rattle.pv_board.specs.Rules.{settled_in};
ghost use Rattle.pv_board.specs.Piles.{piled, CanPile, is_cut_shape};

use pv_tree::{Path, Paving, Shape};

/// Piles up all open leaves of a paving, the last in preorder first. What is closed is passed over,
/// so it takes time for the open leaves and not for all nodes.
pub(crate) fn pile_all(paving: &Paving, free: &mut Vec<Path>)
    requires none { free.old.items ≡ [] }
    requires room { settled_in paving.now.tree < vec_capacity free.old }
    ensures piled { free.new.items ≡ piled [] paving.now.tree }
    ensures room { vec_capacity free.new ≡ vec_capacity free.old }
{
    let mut next = paving.first_open();
    while let Some(path) = next {
        free.push_reserved(path);
        next = paving.next_open(path);
    }
    free.reverse();
}

/// Appends the open leaves at and below a path, the last in preorder first, as if its node stood at
/// another path.
pub fn pile(paving: &Paving, path: Path, at: Path, free: &mut Vec<Path>)
    requires { CanPile paving.now.tree path at (vec_len free.old) (vec_capacity free.old) }
    ensures piled { (s : Tree) → subtree paving.now.tree path ≡ Some s → free.new.items ≡
        free.old.items ++ piled at s }
    ensures room { vec_capacity free.new ≡ vec_capacity free.old }
{
    let _places = paving.dims();
    let shape = paving.shape_at(path);
    if is_open_leaf(&shape) {
        free.push_reserved(at);
        return;
    }
    if !is_cut_node(&shape) {
        return;
    }
    pile(paving, path.high(), at.high(), free);
    pile(paving, path.low(), at.low(), free);
}

/// Whether a shape is an open leaf's.
pub(crate) fn is_open_leaf(shape: &Shape) -> bool
    ensures { IsTrue result ↔ (shape.now ≡ OpenLeaf) }
{
    match shape {
        Shape::OpenLeaf => true,
        _ => false,
    }
}

/// Whether a shape is a cut's.
pub(crate) fn is_cut_node(shape: &Shape) -> bool
    ensures { result ≡ is_cut_shape shape.now }
{
    match shape {
        Shape::Cut { .. } => true,
        _ => false,
    }
}
