//! The tree of kept rows.
ghost use Rattle.std.specs.Prelude.{◌≡◌, ◌≢◌, ◌↔◌, ◌≤◌, ◌^◌, ◌<◌, false, Err, IfOk, IsErrOf, IsTrue, OnOk, length};
ghost use Rattle.pv_tree.specs.Trees.{leaf, HasDepth};
ghost use Rattle.pv_tree.specs.Holes.{IsNext};
ghost use Rattle.pv_file.specs.Readings.{settled_count};
ghost use Rattle.pv_keep.specs.Rows.{InPreorder, rows_of};
ghost use Rattle.pv_keep.specs.Rebuilding.{Make, IsFirstBad, IsReading, IsToCome, IsPassed, IsPut, IsPutOrBad};

use crate::refusal::CampaignRefused;
use crate::row::{Row, Rows};
use pv_box::IBox;
use pv_file::read_outcome;
use pv_num::Memory;
use pv_tree::{Growth, MOST_STEPS, Outcome, Path, Paving};
use std::alloc::Global;

/// The paving over a root box whose settled nodes these rows are. The rows are in preorder, so they
/// are met by one pass over the leaves of the growing tree.
pub fn rebuild(alloc: Global, rows: &Rows, root: IBox) -> Result<Paving, CampaignRefused>
    ensures root { IfOk result (λ p. p.root ≡ root) }
    ensures made { IfOk result (λ p. Make root leaf rows.now p.tree) }
    ensures rows { InPreorder rows.now → IfOk result (λ p. rows.now ≡ rows_of p.tree) }
    ensures count { IfOk result (λ p. settled_count p.tree ≡ length rows.now) }
    ensures bad { InPreorder rows.now → (n : _) → result ≡ Err (CampaignRefused.BadRow n) →
        IsFirstBad root rows.now n }
    ensures not_failed { result ≢ Err CampaignRefused.Failed }
    ensures not_many { result ≢ Err CampaignRefused.TooMany }
    ensures not_other { (kept : _) → result ≢ Err (CampaignRefused.OtherIdentity kept) }
{
    let mut bx = root.clone_of(alloc)?;
    let mut growth = Growth::open(alloc, root)?;
    for i in 0..rows.len() {
        if !put_row(alloc, &mut growth, rows.get(i), &mut bx)? {
            return Err(CampaignRefused::BadRow { row: i });
        }
    }
    Ok(growth.finish())
}

// Settles the leaf of a row, and leaves those before it open. False exactly where the row is bad.
fn put_row(alloc: Global, growth: &mut Growth, row: &Row, bx: &mut IBox) -> Result<bool, Memory>
    requires dims { length bx.old ≡ length growth.old.root }
    ensures dims { length bx.new ≡ length bx.old }
    ensures put { IfOk result (λ good. IsPutOrBad growth.old growth.new row.now good) }
{
    if !pass_to(growth, row.path) {
        return Ok(false);
    }
    growth.write_box(bx);
    match read_right(alloc, row, bx)? {
        Some(outcome) => match growth.settle(outcome) {
            Ok(()) => Ok(true),
            Err(_) => Err(Memory),
        },
        None => Ok(false),
    }
}

// Leaves open each leaf that comes before a path's. False exactly where the path is no leaf that is
// to come.
fn pass_to(growth: &mut Growth, path: Path) -> bool
    ensures root { growth.new.root ≡ growth.old.root }
    ensures tree { growth.new.tree ≡ growth.old.tree }
    ensures found { IsTrue result → IsPassed growth.old.holes growth.new.holes }
    ensures next { IsTrue result → IsNext growth.new path }
    ensures none { result ≡ false → IsToCome path growth.old.holes → ⊥ }
{
    while let Some(next) = growth.next_leaf() {
        if next == path {
            return true;
        }
        growth.pass();
    }
    false
}

// The outcome of a row's line. None where it is not right for the box, or may not stand at the
// path.
fn read_right(alloc: Global, row: &Row, bx: &IBox) -> Result<Option<Outcome>, Memory>
    ensures { IfOk result (λ read. IsReading row.now.path bx.now row.now.line read) }
{
    match read_outcome(alloc, row.line.bytes(), bx)? {
        Some(outcome) => {
            if may_stand(row.path, &outcome) {
                Ok(Some(outcome))
            } else {
                Ok(None)
            }
        }
        None => Ok(None),
    }
}

fn may_stand(path: Path, outcome: &Outcome) -> bool
    ensures { IsTrue result ↔ HasDepth path outcome.now }
{
    match outcome {
        Outcome::Cut { .. } => path.len() < MOST_STEPS,
        Outcome::Removed | Outcome::Inner { .. } | Outcome::Small { .. } => true,
    }
}
