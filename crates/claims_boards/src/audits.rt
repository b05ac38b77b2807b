//! What an audit by several workers promises.
ghost use Rattle.std.specs.Prelude.{◌≡◌, ◌≤◌, IfOk, length};
ghost use Rattle.pv_join.specs.Audits.{IsVerdict, IsSoundIfHonest};
ghost use Rattle.pv_tree.specs.declared.limit.TheConstants.{MOST_WORKERS};

use pv_audit::audit_by_workers;
use pv_join::Audit;
use pv_num::Memory;
use pv_tree::{Paving, Settler};
use std::alloc::Global;
use std::thread::Threads;

/// Whether a paving is a settler's, and the first difference, by several workers.
pub fn audited<S: Settler + Sync, R: Threads + Sync>(
    rt: &R,
    alloc: Global,
    settler: &S,
    paving: &Paving,
    workers: u32,
) -> Result<Audit, Memory>
    requires dims { length paving.now.root ≡ S.dims settler.now }
    requires one { 1 ≤ workers }
    requires few { workers ≤ MOST_WORKERS }
    ensures verdict { IfOk result (λ v.
        IsVerdict (S.settle_of settler.now) (S.depth_of settler.now)
        paving.now.root paving.now.tree v) }
    ensures sound { IfOk result (λ v.
        IsSoundIfHonest (S.inside settler.now) paving.now.root paving.now.tree v) }
{
    audit_by_workers(rt, alloc, settler, paving, workers)
}
