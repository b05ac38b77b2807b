//! One worker's share of an audit.
ghost use Rattle.std.specs.Prelude.{◌≡◌, ◌+◌, ◌%◌, ◌<◌, ◌^◌, IfOk, length};
ghost use Rattle.pv_tree.specs.Pieces.{all_nodes};
ghost use Rattle.pv_audit.specs.Reports.{IsReport};

use crate::report::{Difference, Report};
use pv_join::differing;
use pv_num::Memory;
use pv_tree::{Paving, Settler, Walk, blank};
use std::alloc::Global;
use std::sync::atomic::{AtomicU64, Ordering};

/// Checks the nodes whose numbers are `worker` modulo `workers`, up to the first that is settled
/// otherwise than by the settler, or until another worker found one with a lesser number. `found` is
/// the number of a node that is known to be settled otherwise.
pub(crate) fn check_share<S: Settler>(
    alloc: Global,
    settler: &S,
    paving: &Paving,
    workers: u64,
    worker: u64,
    found: &AtomicU64,
) -> Result<Report, Memory>
    requires dims { length paving.now.root ≡ S.dims settler.now }
    requires there { worker < workers }
    ensures { IfOk result
        (IsReport (S.settle_of settler.now) (S.depth_of settler.now) paving.now.root
        paving.now.tree (λ n. n % workers ≡ worker)) }
{
    let mut scratch = blank(alloc, paving.dims())?;
    let mut walk = Walk::of(alloc, paving)?;
    let nodes = nodes_of(paving);
    for number in 0..nodes {
        let Some(shape) = walk.next() else {
            return Ok(Report::up_to(number));
        };
        if number % workers == worker {
            if found.load(Ordering::SeqCst) < number {
                return Ok(Report::up_to(number));
            }
            if let Some(due) = differing(alloc, settler, &walk, shape, &mut scratch)? {
                found.store(number, Ordering::SeqCst);
                let path = walk.path();
                return Ok(Report {
                    checked: number,
                    difference: Some(Difference { path, due }),
                });
            }
        }
    }
    Ok(Report::up_to(nodes))
}

/// How many nodes a paving has.
pub(crate) fn nodes_of(paving: &Paving) -> u64
    ensures { result ≡ all_nodes paving.now.tree }
{
    let counts = paving.counts();
    counts.settled() + counts.open_leaves
}
