//! The order of paths.
ghost use Rattle.std.specs.Prelude.{◌≡◌};
ghost use Rattle.pv_tree.specs.Trees.{precedes};

use pv_tree::Path;

/// Whether the node at a path stands before the node at another in preorder.
pub(crate) fn is_before(a: Path, b: Path) -> bool
    ensures { result ≡ precedes a b }
{
    let (steps, others) = (a.len(), b.len());
    for i in 0..steps.min(others) {
        if a.step(i) != b.step(i) {
            return b.step(i);
        }
    }
    steps < others
}
