//! What single lines say.
ghost use Rattle.std.specs.Prelude.{◌≡◌, IfOk, IfSome, IsSome, OnOk};
ghost use Rattle.pv_tree.specs.Trees.{subtree};
ghost use Rattle.pv_file.specs.Lines.{outcome_line};
ghost use Rattle.pv_file.specs.Readings.{IsRightFor};
ghost use Rattle.pv_file.specs.Shapes.{AppendsNodeLine};

use pv_box::IBox;
use pv_file::{read_outcome, write_node};
use pv_num::Memory;
use pv_tree::{Outcome, Path, Paving};
use std::alloc::Global;

/// The line is that of the outcome, and the outcome is right for the box.
pub fn read_line(alloc: Global, line: &[u8], bx: &IBox) -> Result<Option<Outcome>, Memory>
    ensures sound { IfOk result (λ r. IfSome r (λ o. line.now ≡ outcome_line o)) }
    ensures right { IfOk result (λ r. IfSome r (λ o. IsRightFor bx.now o)) }
{
    read_outcome(alloc, line, bx)
}

/// A node's line says what it is.
pub fn write_line(alloc: Global, p: &Paving, path: Path, out: &mut Vec<u8>) -> Result<(), Memory>
    requires there { IsSome (subtree p.now.tree path) }
    ensures { OnOk result (AppendsNodeLine out.old.items out.new.items (subtree p.now.tree path)) }
{
    write_node(alloc, p, path, out)
}
