//! What made systems promise.
ghost use Rattle.std.specs.Prelude.{◌≡◌, ◌<◌, ◌≤◌, ◌^◌, IfOk};
ghost use Rattle.pv_made.specs.Circles.{sample_text};

use pv_made::sample_system;
use pv_num::Memory;
use std::alloc::Global;

/// The text of the system that a number makes.
pub fn sample(alloc: Global, seed: u32, count: u32) -> Result<Vec<u8>, Memory>
    requires seed { seed < 2 ^ 31 }
    requires count { 1 ≤ count }
    requires few { count ≤ 16 }
    ensures { IfOk result (λ text. text.items ≡ sample_text seed count) }
{
    sample_system(alloc, seed, count)
}
