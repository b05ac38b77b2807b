//! What rows and their lines promise.
ghost use Rattle.std.specs.Prelude.{◌≡◌, ◌≤◌, Err, IfOk, IfSome, length};
ghost use Rattle.pv_keep.specs.Rebuilding.{IsFirstBad};
ghost use Rattle.pv_keep.specs.Rows.{InPreorder};

use pv_box::IBox;
use pv_file::LONGEST_LINE;
use pv_keep::rebuild::rebuild;
use pv_keep::{CampaignRefused, Line, Rows};
use pv_num::Memory;
use pv_tree::Paving;
use std::alloc::Global;

/// No line is longer than the longest.
pub fn line_of(alloc: Global, bytes: &[u8]) -> Result<Option<Line>, Memory>
    ensures { IfOk result (λ found. IfSome found (λ line. length bytes.now ≤ LONGEST_LINE)) }
{
    Line::of(alloc, bytes)
}

/// The first bad row is told by its number, counted from 0.
pub fn paving_of(alloc: Global, rows: &Rows, root: IBox) -> Result<Paving, CampaignRefused>
    ensures { InPreorder rows.now → (n : _) → result ≡ Err (CampaignRefused.BadRow n) →
        IsFirstBad root rows.now n }
{
    rebuild(alloc, rows, root)
}
