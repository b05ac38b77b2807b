//! What an audit finds.
use pv_tree::{Outcome, Path};

/// What an audit found.
#[derive(Drop)]
pub enum Audit {
    /// The paving is a stage of its open root box.
    Honest,
    /// The first path in preorder whose settled outcome is not the settler's, and the settler's.
    DiffersAt { path: Path, outcome: Outcome },
}
