//! What storing and printing promises.
ghost use Rattle.std.specs.Prelude.{◌≤◌, option_map, IfOk, IfErr, OnOk};
ghost use Rattle.pv_rule.specs.Systems.{files};
ghost use Rattle.pv_product.specs.Products.{HasStatus};
ghost use Rattle.pv_product.specs.Ends.{stream, IsDelivered, RefusesDelivery};
ghost use Rattle.pv_product.specs.Made.{made};

use pv_deliver::deliver::deliver;
use pv_io::{Folder, Sink};
use pv_product::Product;
use pv_request::{Refusal, Status};
use pv_tree::MOST_WORKERS;
use std::alloc::Global;
use std::thread::Threads;

/// The status says whether all is done.
pub fn status<'a, F: Folder, K: Sink, R: Threads + Sync>(
    rt: &R,
    alloc: Global,
    folder: &mut F,
    out: &mut K,
    product: &Product,
    file: Option<&'a str>,
    workers: u32,
) -> Result<Status, Refusal<'a>>
    requires one { 1 ≤ workers }
    requires few { workers ≤ MOST_WORKERS }
    ensures { IfOk result (HasStatus (made product.now)) }
{
    deliver(rt, alloc, folder, out, product, file, workers)
}

/// What was asked for is stored and printed.
pub fn delivered<'a, F: Folder, K: Sink, R: Threads + Sync>(
    rt: &R,
    alloc: Global,
    folder: &mut F,
    out: &mut K,
    product: &Product,
    name: Option<&'a str>,
    workers: u32,
) -> Result<Status, Refusal<'a>>
    requires one { 1 ≤ workers }
    requires few { workers ≤ MOST_WORKERS }
    ensures { OnOk result
        (IsDelivered (option_map (λ n. n.now) name.entry) (made product.now)
        (files (F.content folder.old) (F.fetch_faults folder.old) (F.store_faults folder.old))
        (files (F.content folder.new) (F.fetch_faults folder.new) (F.store_faults folder.new))
        (stream (K.written out.old) (K.faults out.old))
        (stream (K.written out.new) (K.faults out.new))) }
{
    deliver(rt, alloc, folder, out, product, name, workers)
}

/// Where it isn't, there is a cause, and nothing else was printed.
pub fn refused<'a, F: Folder, K: Sink, R: Threads + Sync>(
    rt: &R,
    alloc: Global,
    folder: &mut F,
    out: &mut K,
    product: &Product,
    asked: Option<&'a str>,
    workers: u32,
) -> Result<Status, Refusal<'a>>
    requires one { 1 ≤ workers }
    requires few { workers ≤ MOST_WORKERS }
    ensures { IfErr result
        (RefusesDelivery (option_map (λ name. name.now) asked.entry) (made product.now)
        (files (F.content folder.old) (F.fetch_faults folder.old) (F.store_faults folder.old))
        (files (F.content folder.new) (F.fetch_faults folder.new) (F.store_faults folder.new))
        (stream (K.written out.old) (K.faults out.old))
        (stream (K.written out.new) (K.faults out.new))) }
{
    deliver(rt, alloc, folder, out, product, asked, workers)
}
