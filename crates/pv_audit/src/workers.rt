//! An audit by several workers, among whom the nodes are dealt in turn.
ghost use Rattle.std.specs.Prelude.{◌≡◌, ℕ, ◌%◌, ◌<◌, ◌≤◌, ◌⊎◌, IfOk, length, vec_len};
ghost use Rattle.pv_tree.specs.Sets.{Covers};
ghost use Rattle.pv_join.specs.Audits.{IsVerdict, IsSoundIfHonest};
ghost use Rattle.pv_join.specs.declared.verdict.Audit.TheVariants.{DiffersAt};
ghost use Rattle.pv_audit.specs.Reports.{IsReport, AreReports};
ghost use Rattle.pv_tree.specs.declared.limit.TheConstants.{MOST_WORKERS};

use crate::report::{Difference, Report};
use crate::share::{check_share, nodes_of};
use pv_join::{Audit, audit};
use pv_num::Memory;
use pv_tree::{Paving, Settler};
use std::alloc::Global;
use std::sync::atomic::AtomicU64;
use std::thread;
use std::thread::Threads;

/// As `audit` of `pv_join`, by 1 to 16 workers.
///
/// # Errors
///
/// Want of memory.
pub fn audit_by_workers<S: Settler + Sync, R: Threads + Sync>(
    rt: &R,
    alloc: Global,
    settler: &S,
    paving: &Paving,
    workers: u32,
) -> Result<Audit, Memory>
    requires dims { length paving.now.root ≡ S.dims settler.now }
    requires one { 1 ≤ workers }
    requires few { workers ≤ MOST_WORKERS }
    ensures verdict { IfOk result (λ v.
        IsVerdict (S.settle_of settler.now) (S.depth_of settler.now)
        paving.now.root paving.now.tree v) }
    ensures covers { Covers paving.now.root paving.now.tree }
    ensures sound { IfOk result (λ v.
        IsSoundIfHonest (S.inside settler.now) paving.now.root paving.now.tree v) }
{
    let _places = paving.dims();
    if workers == 1 {
        return audit(alloc, settler, paving);
    }
    let reports = reports_of(rt, alloc, settler, paving, workers)?;
    let first = first_of(settler, paving, workers, reports)?;
    verdict_of(alloc, settler, paving, first.checked, first.difference)
}

// What each worker found in a thread of its own, where one can be made.
fn reports_of<S: Settler + Sync, R: Threads + Sync>(
    rt: &R,
    alloc: Global,
    settler: &S,
    paving: &Paving,
    workers: u32,
) -> Result<Vec<Result<Report, Memory>>, Memory>
    requires dims { length paving.now.root ≡ S.dims settler.now }
    ensures count { IfOk result (λ v. vec_len v ≡ workers) }
    ensures reports { IfOk result (λ v.
        AreReports (S.settle_of settler.now) (S.depth_of settler.now)
        paving.now.root paving.now.tree workers v.items) }
{
    let found = AtomicU64::new(u64::MAX);
    let one = |worker: usize| -> Result<Report, Memory>
        requires dims { length paving.now.root ≡ S.dims settler.now }
        requires there { worker < workers }
        ensures { IfOk result
            (IsReport (S.settle_of settler.entry.now) (S.depth_of settler.entry.now)
            paving.entry.now.root paving.entry.now.tree (λ n. n % workers ≡ worker)) }
    {
        check_share(
            alloc,
            settler,
            paving,
            workers.into(),
            worker as u64,
            &found,
        )
    };
    Ok(thread::map_indices(rt, alloc, workers as usize, &one)?)
}

// The report of them all: that of the worker who came least far.
fn first_of<S: Settler>(
    settler: &S,
    paving: &Paving,
    workers: u32,
    mut reports: Vec<Result<Report, Memory>>,
) -> Result<Report, Memory>
    requires some { 1 ≤ workers }
    requires count { vec_len reports ≡ workers }
    requires reports { AreReports (S.settle_of settler.now) (S.depth_of settler.now)
        paving.now.root paving.now.tree workers reports.items }
    ensures { IfOk result
        (IsReport (S.settle_of settler.now) (S.depth_of settler.now)
        paving.now.root paving.now.tree (λ n. Unit {0})) }
{
    let mut first = Report::up_to(nodes_of(paving));
    while let Some(report) = reports.pop() {
        first = lesser(first, report?);
    }
    Ok(first)
}

// The one of two reports that came less far.
fn lesser(a: Report, b: Report) -> Report
    ensures one { (result ≡ a) ⊎ (result ≡ b) }
    ensures before { result.checked ≤ a.checked }
    ensures behind { result.checked ≤ b.checked }
{
    if a.checked <= b.checked { a } else { b }
}

// What the report of all workers says of the whole paving.
fn verdict_of<S: Settler>(
    alloc: Global,
    settler: &S,
    paving: &Paving,
    checked: u64,
    difference: Option<Difference>,
) -> Result<Audit, Memory>
    requires dims { length paving.now.root ≡ S.dims settler.now }
    requires report { IsReport (S.settle_of settler.now) (S.depth_of settler.now)
        paving.now.root paving.now.tree (λ n. Unit {0})
        (record { checked = checked; difference = difference }) }
    ensures verdict { IfOk result (λ v.
        IsVerdict (S.settle_of settler.now) (S.depth_of settler.now)
        paving.now.root paving.now.tree v) }
    ensures sound { IfOk result (λ v.
        IsSoundIfHonest (S.inside settler.now) paving.now.root paving.now.tree v) }
{
    let _places = paving.dims();
    match difference {
        Some(difference) => Ok(differs(difference)),
        None => {
            if checked == nodes_of(paving) {
                Ok(Audit::Honest)
            } else {
                // A worker stops only behind a difference that another found, but no clause says
                // so of a number that threads share.
                audit(alloc, settler, paving)
            }
        }
    }
}

fn differs(difference: Difference) -> Audit
    ensures { result ≡ DiffersAt difference.path difference.due }
{
    let Difference { path, due } = difference;
    Audit::DiffersAt { path, outcome: due }
}
