//! How boxes are settled.

use pv_box::Bisector;
use pv_num::Num;

/// How boxes are settled, beside the system and the program.
#[derive(Clone, Copy, Debug)]
pub struct Settings {
    /// A box no wider than this in each place is small. It is finite and at least 0.
    pub eps: Num,
    /// The most cuts on a path, from 1 to 200.
    pub depth: u32,
    /// Which place is cut.
    pub bisector: Bisector,
}
