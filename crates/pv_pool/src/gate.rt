//! A gate that workers enter before they work.
use pv_tree::Path;

/// A gate that a worker enters before it settles the box of a path. It may hold the worker there.
pub trait Gate {
    /// Lets a worker through to the node at a path.
    fn enter(&self, worker: u64, path: Path);
}

/// A gate that lets everyone through at once.
#[derive(Clone, Copy, Debug, PartialEq, Eq)]
pub struct NoGate;

impl Gate for NoGate {
    fn enter(&self, _worker: u64, _path: Path) {}
}
