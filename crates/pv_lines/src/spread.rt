//! Scribes that stand one after the other, and their turns.
ghost use Rattle.std.specs.Prelude.{◌≡◌, ℕ, ◌<◌, ◌≤◌, [], ◌∷◌, IfOk, length, get_or, vec_len};
ghost use Rattle.pv_tree.specs.Pieces.{root_piece};
ghost use Rattle.pv_file.specs.Scribes.{Scribed};
ghost use Rattle.pv_lines.specs.Turns.{AreSpread, HasTurned};
ghost use Rattle.pv_tree.specs.declared.limit.TheConstants.{MOST_WORKERS};

use pv_file::{Scribe, Version};
use pv_fork::for_each_apart;
use pv_num::Memory;
use pv_tree::Paving;
use std::alloc::Global;
use std::thread::Threads;

/// `workers` scribes, each a share after the one before. The last one passes all nodes before it,
/// and leaves the others on its way.
pub(crate) fn spread<'a>(
    alloc: Global,
    p: &'a Paving,
    workers: u32,
    share: u64,
) -> Result<Vec<Scribe<'a>>, Memory>
    requires one { 1 ≤ workers }
    requires few { workers ≤ MOST_WORKERS }
    ensures count { IfOk result (λ v. vec_len v ≡ workers) }
    ensures spread { IfOk result (λ v. AreSpread share (root_piece p.now.root p.now.tree ∷ [])
        v.items) }
{
    let mut scribes = Vec::with_capacity(alloc, workers as usize)?;
    let mut last = Scribe::of(alloc, p)?;
    for _worker in 1..workers {
        scribes.push_reserved(last.clone_of(alloc)?);
        last.pass(share);
    }
    scribes.push_reserved(last);
    Ok(scribes)
}

/// Each scribe makes a share, and passes those of the others, in a thread of its own where one can
/// be made.
pub(crate) fn turn_all<R: Threads + Sync>(
    rt: &R,
    version: Version,
    share: u64,
    gap: u64,
    scribes: &mut [Scribe<'_>],
)
    requires some { 0 < length scribes.old }
    ensures count { length scribes.new ≡ length scribes.old }
    ensures turned { (i : ℕ) (d : Scribed) → i < length scribes.old →
        HasTurned version share gap (get_or scribes.old i d) (get_or scribes.new i d) }
{
    let one = |_i: usize, scribe: &mut Scribe<'_>|
        ensures { HasTurned version share gap scribe.entry.now scribe.exit.now }
    { turn(version, share, gap, scribe) };
    for_each_apart(rt, scribes, &one);
}

fn turn(version: Version, share: u64, gap: u64, scribe: &mut Scribe<'_>)
    ensures { HasTurned version share gap scribe.old scribe.new }
{
    scribe.make(version, share);
    scribe.pass(gap);
}
