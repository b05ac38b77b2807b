//! The top call.
ghost use Rattle.std.specs.Prelude.{◌≡◌, ◌≤◌, ℕ, List, map, option_map, string_bytes, IfOk, IfErr};
ghost use Rattle.pv_rule.specs.Systems.{files};
ghost use Rattle.pv_request.specs.Requests.{out_of, campaign_of};
ghost use Rattle.pv_product.specs.Campaigns.{stock, LeavesStock};
ghost use Rattle.pv_product.specs.Products.{ComesOf, RefusesWork};
ghost use Rattle.pv_product.specs.Ends.{stream, outside, IsAnswered, RefusesRequest, IsEnd};
ghost use Rattle.pv_rule.specs.Systems.{AreOnlyRead};
ghost use Rattle.pv_product.specs.Made.{made};

use pv_args::read;
use pv_campaign::campaign::campaign;
use pv_deliver::deliver::deliver;
use pv_deliver::tell;
use pv_io::{Folder, Sink};
use pv_keep::Keeper;
use pv_pool::Gate;
use pv_product::Product;
use pv_request::{Refusal, Request, Status};
use pv_resume::audit::audit;
use pv_resume::merge::merge;
use pv_resume::resume::resume;
use pv_run::check::check;
use pv_run::run::run;
use pv_run::sample::sample;
use pv_search::least::least;
use pv_tree::MOST_WORKERS;
use pv_view::svg::svg;
use std::alloc::Global;
use std::sync::Wait;
use std::thread::Threads;

/// Runs the command that the words give, of which word 0 is the program's name.
///
/// With status 0 or 1 the words ask for something, and what comes of it over the folder was
/// printed. Else the refusal is the first in this order: words and values, system, contractor
/// program, expression or plane, paving files, work, printing; and its line is told on the standard
/// error.
///
/// `run`, `resume` and `campaign` work on as many threads as their words say, and join them: the
/// call may wait for them. Each worker enters the gate with its number and a path before it settles
/// the node there. `campaign` works so in each of its rounds, and what it settles is kept under its
/// name: all else that is kept stays, and for every other command all of it.
pub fn paver_main<F: Folder, K: Sink, E: Sink, G: Gate + Sync, P: Keeper, R: Threads + Wait + Sync>(
    rt: &R,
    alloc: Global,
    words: &[String],
    folder: &mut F,
    out: &mut K,
    err: &mut E,
    gate: &G,
    keeper: &mut P,
) -> Status
    ensures end { IsEnd (map string_bytes words.now)
        (outside (files (F.content folder.old) (F.fetch_faults folder.old)
        (F.store_faults folder.old)) (stock (P.kept keeper.old) (P.faults keeper.old))
        (stream (K.written out.old) (K.faults out.old))
        (stream (E.written err.old) (E.faults err.old)))
        (outside (files (F.content folder.new) (F.fetch_faults folder.new)
        (F.store_faults folder.new)) (stock (P.kept keeper.new) (P.faults keeper.new))
        (stream (K.written out.new) (K.faults out.new))
        (stream (E.written err.new) (E.faults err.new))) result }
{
    let request = match read(alloc, words) {
        Ok(request) => request,
        Err(refusal) => return tell(alloc, err, &refusal),
    };
    match answer(rt, alloc, &request, folder, keeper, out, gate) {
        Ok(status) => status,
        Err(refusal) => tell(alloc, err, &refusal),
    }
}

fn answer<'a, F: Folder, P: Keeper, K: Sink, G: Gate + Sync, R: Threads + Wait + Sync>(
    rt: &R,
    alloc: Global,
    request: &Request<'a>,
    folder: &mut F,
    keeper: &mut P,
    out: &mut K,
    gate: &G,
) -> Result<Status, Refusal<'a>>
    ensures answered { IfOk result
        (IsAnswered request.now
        (files (F.content folder.old) (F.fetch_faults folder.old) (F.store_faults folder.old))
        (files (F.content folder.new) (F.fetch_faults folder.new) (F.store_faults folder.new))
        (stock (P.kept keeper.old) (P.faults keeper.old))
        (stock (P.kept keeper.new) (P.faults keeper.new))
        (stream (K.written out.old) (K.faults out.old))
        (stream (K.written out.new) (K.faults out.new))) }
    ensures refused { IfErr result
        (RefusesRequest request.now
        (files (F.content folder.old) (F.fetch_faults folder.old) (F.store_faults folder.old))
        (files (F.content folder.new) (F.fetch_faults folder.new) (F.store_faults folder.new))
        (stock (P.kept keeper.old) (P.faults keeper.old))
        (stock (P.kept keeper.new) (P.faults keeper.new))
        (stream (K.written out.old) (K.faults out.old))
        (stream (K.written out.new) (K.faults out.new))) }
    ensures stock { LeavesStock (campaign_of request.now)
        (stock (P.kept keeper.old) (P.faults keeper.old))
        (stock (P.kept keeper.new) (P.faults keeper.new)) }
{
    match work(rt, alloc, request, folder, keeper, gate) {
        Ok(product) => deliver(
            rt,
            alloc,
            folder,
            out,
            &product,
            file_of(request),
            workers_of(request),
        ),
        Err(refusal) => Err(refusal),
    }
}

// The name of the file that is to be written.
fn file_of<'a>(request: &Request<'a>) -> Option<&'a str>
    ensures { option_map (λ name. name.now) result ≡ out_of request.now }
{
    match request {
        Request::Check { .. }
        | Request::Audit { .. }
        | Request::Svg { .. }
        | Request::Sample { .. }
        | Request::Least { .. }
        | Request::Campaign { .. } => None,
        Request::Run { out, .. } => *out,
        Request::Resume { out, .. } => *out,
        Request::Merge { out, .. } => *out,
    }
}

// By how many threads the lines of a paving are made.
fn workers_of<'a>(request: &Request<'a>) -> u32
    ensures one { 1 ≤ result }
    ensures few { result ≤ MOST_WORKERS }
{
    match request {
        Request::Run { effort, .. } => effort.budget.workers,
        Request::Resume { effort, .. } => effort.budget.workers,
        Request::Check { .. }
        | Request::Merge { .. }
        | Request::Audit { .. }
        | Request::Svg { .. }
        | Request::Sample { .. }
        | Request::Least { .. }
        | Request::Campaign { .. } => 1,
    }
}

fn work<'a, F: Folder, P: Keeper, G: Gate + Sync, R: Threads + Wait + Sync>(
    rt: &R,
    alloc: Global,
    request: &Request<'a>,
    folder: &mut F,
    keeper: &mut P,
    gate: &G,
) -> Result<Product, Refusal<'a>>
    ensures read { AreOnlyRead
        (files (F.content folder.old) (F.fetch_faults folder.old) (F.store_faults folder.old))
        (files (F.content folder.new) (F.fetch_faults folder.new) (F.store_faults folder.new)) }
    ensures comes { IfOk result
        (λ p. ComesOf (files (F.content folder.old) (F.fetch_faults folder.old)
        (F.store_faults folder.old)) (stock (P.kept keeper.old) (P.faults keeper.old))
        (stock (P.kept keeper.new) (P.faults keeper.new)) request.now (made p)) }
    ensures refused { IfErr result
        (RefusesWork (files (F.content folder.old) (F.fetch_faults folder.old)
        (F.store_faults folder.old))
        (files (F.content folder.new) (F.fetch_faults folder.new) (F.store_faults folder.new))
        (stock (P.kept keeper.old) (P.faults keeper.old))
        (stock (P.kept keeper.new) (P.faults keeper.new)) request.now) }
    ensures stock { LeavesStock (campaign_of request.now)
        (stock (P.kept keeper.old) (P.faults keeper.old))
        (stock (P.kept keeper.new) (P.faults keeper.new)) }
{
    match request {
        Request::Check { system } => check(alloc, folder, *system),
        Request::Run {
            system,
            settings,
            effort,
            out: _,
        } => run(rt, alloc, folder, *system, settings, effort, gate),
        Request::Resume {
            system,
            pavings,
            settings,
            effort,
            share,
            out: _,
        } => resume(
            rt, alloc, folder, *system, pavings, settings, effort, *share, gate,
        ),
        Request::Merge {
            system,
            pavings,
            settings,
            limit,
            out: _,
        } => merge(alloc, folder, *system, pavings, settings, *limit),
        Request::Audit {
            system,
            paving,
            settings,
            limit,
            workers,
        } => audit(
            rt, alloc, folder, *system, *paving, settings, *limit, workers,
        ),
        Request::Svg {
            system,
            paving,
            settings,
            limit,
            view,
        } => svg(alloc, folder, *system, *paving, settings, *limit, view),
        Request::Sample { circles } => sample(rt, alloc, circles, gate),
        Request::Least {
            system,
            settings,
            search,
        } => least(alloc, folder, *system, settings, search),
        Request::Campaign {
            system,
            settings,
            effort,
            rounds,
        } => campaign(
            rt, alloc, folder, keeper, *system, settings, effort, rounds, gate,
        ),
    }
}
