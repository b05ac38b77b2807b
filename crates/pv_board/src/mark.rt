//! What is known of an issued path.
use pv_tree::Path;

/// An issued path, and the units beyond its own that it was granted.
#[derive(Clone, Copy)]
pub struct Mark {
    pub path: Path,
    pub grant: u64,
}
