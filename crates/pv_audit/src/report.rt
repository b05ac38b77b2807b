//! What a worker of an audit found.
ghost use Rattle.std.specs.Prelude.{◌≡◌, None};

use pv_tree::{Outcome, Path};

/// A node that is settled otherwise than by the settler.
#[derive(Drop)]
pub struct Difference {
    pub path: Path,
    /// The settler's outcome.
    pub due: Outcome,
}

/// How far a worker came. Nodes are numbered from 0 in preorder.
#[derive(Drop)]
pub struct Report {
    /// The worker's nodes with lesser numbers are settled by the settler's rule.
    pub checked: u64,
    /// What the node of this number is, where it is settled otherwise.
    pub difference: Option<Difference>,
}

impl Report {
    /// The worker's nodes up to a number are settled by the settler's rule.
    pub fn up_to(checked: u64) -> Report
        ensures checked { result.checked ≡ checked }
        ensures none { result.difference ≡ None }
    {
        Report {
            checked,
            difference: None,
        }
    }
}
