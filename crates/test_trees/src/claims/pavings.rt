//! What pavings and their paths promise.
ghost use Rattle.std.specs.Prelude.{◌≡◌, ◌+◌, ◌<◌, ◌++◌, [], ◌∷◌, true, length, IfSome, IsSome};
ghost use Rattle.pv_tree.specs.Trees.{leaf, subtree, box_of, shape_of, counts_of, opens, first};

use pv_box::IBox;
use pv_tree::{Counts, NodeLimit, Path, Paving, Shape};

/// The shape of a node.
pub fn shape(paving: &Paving, path: Path) -> Shape
    ensures { result ≡ shape_of (subtree paving.now.tree path) }
{
    paving.shape_at(path)
}

/// Writes the box of a node over another box.
pub fn node_box(paving: &Paving, path: Path, into: &mut IBox)
    requires there { IsSome (subtree paving.now.tree path) }
    requires dims { length into.old ≡ length paving.now.root }
    ensures { into.new ≡ box_of paving.now.root paving.now.tree path }
{
    paving.box_at(path, into);
}

/// The numbers of nodes of each shape.
pub fn numbers(paving: &Paving) -> Counts
    ensures { result ≡ counts_of paving.now.tree }
{
    paving.counts()
}

/// The open leaf that comes first.
pub fn first_leaf(paving: &Paving) -> Option<Path>
    ensures { result ≡ first (opens paving.now.tree) }
{
    paving.first_open()
}

/// The path to the high child.
pub fn above(path: Path) -> Path
    requires { length path < 200 }
    ensures { result ≡ path ++ true ∷ [] }
{
    path.high()
}

/// The limit of so many nodes, if it is one.
pub fn limit_of(nodes: u64) -> Option<NodeLimit>
    ensures { IfSome result (λ l. l ≡ nodes) }
{
    NodeLimit::new(nodes)
}
