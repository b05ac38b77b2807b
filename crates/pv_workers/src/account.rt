//! What each worker keeps for itself.
ghost use Rattle.std.specs.Prelude.{◌≡◌, ◌+◌, ◌^◌, ◌<◌, ◌≤◌, [], IfOk, length, vec_len};
ghost use Rattle.pv_board.specs.Tallies.{tally_of};
ghost use Rattle.pv_workers.specs.Accounts.{parts_in, AllBelow};
ghost use Rattle.pv_box.specs.declared.boxes.TheConstants.{MOST_PLACES};
ghost use Rattle.pv_tree.specs.declared.limit.TheConstants.{MOST_WORKERS};

use crate::bench::Bench;
use pv_board::{Naming, Told};
use pv_num::Memory;
use pv_tree::KnowingSettler;
use std::alloc::Global;
use std::marker::Model;

/// What a worker keeps: its counts, what it settles with, and whether it has nothing to do.
#[derive(Drop)]
pub(crate) struct Account<N: Naming, S: KnowingSettler> {
    pub(crate) told: Told<N>,
    pub(crate) bench: Bench<S>,
    pub(crate) is_hungry: bool,
}

impl<N: Naming, S: KnowingSettler> Model for Account<N, S> {
    ghost use Rattle.std.specs.Prelude.{◌≡◌, [], length};
    ghost use Rattle.pv_board.specs.Tallies.{Tally, coded_tally};

    ghost Value = { Tally };

    ghost coded = { coded_tally };

    ghost view = { λ a. a.told };

    ghost invariant = { λ a. (length a.bench.workspace.scratch ≡ N.dims) × (a.bench.tickets ≡ []) };
}

impl<N: Naming, S: KnowingSettler> Account<N, S> {
    // An account with these counts.
    fn new(told: Told<N>, bench: Bench<S>) -> Account<N, S>
        requires places { length bench.workspace.scratch ≡ N.dims }
        requires none { bench.tickets ≡ [] }
        ensures { result ≡ told }
    {
        Account {
            told,
            bench,
            is_hungry: false,
        }
    }

    // Its counts.
    fn into_told(self) -> Told<N>
        ensures { result ≡ self }
    {
        let Account {
            told,
            bench: _,
            is_hungry: _,
        } = self;
        told
    }
}

/// An account for each worker. The first parts go to them, and the last one has the rest.
pub(crate) fn split<N: Naming, S: KnowingSettler>(
    alloc: Global,
    settler: &S,
    told: Told<N>,
    workers: u32,
    places: u8,
) -> Result<Vec<Account<N, S>>, Memory>
    requires told { told ≡ tally_of 32 }
    requires one { 1 ≤ workers }
    requires sixteen { workers ≤ MOST_WORKERS }
    requires some { 1 ≤ places }
    requires few { places ≤ MOST_PLACES }
    requires places { places ≡ N.dims }
    ensures count { IfOk result (λ v. vec_len v ≡ workers) }
    ensures none { IfOk result (λ v. AllBelow 1 v.items) }
    ensures parts { IfOk result (λ v. parts_in v.items ≡ 32) }
{
    let mut told = told;
    let mut accounts = Vec::with_capacity(alloc, workers as usize)?;
    for _worker in 1..workers {
        let bench = Bench::of(alloc, settler, places)?;
        accounts.push_reserved(Account::new(told.split(), bench));
    }
    let bench = Bench::of(alloc, settler, places)?;
    accounts.push_reserved(Account::new(told, bench));
    Ok(accounts)
}

/// The counts of all workers together.
pub(crate) fn join_accounts<N: Naming, S: KnowingSettler>(accounts: Vec<Account<N, S>>) -> Told<N>
    requires one { 1 ≤ vec_len accounts }
    requires sixteen { vec_len accounts ≤ MOST_WORKERS }
    requires below { AllBelow (2 ^ 71) accounts.items }
    ensures parts { result.parts ≡ parts_in accounts.items }
    ensures few { result.spent < 2 ^ 75 }
{
    let mut rest = accounts;
    let Some(last) = rest.pop() else {
        unreachable!()
    };
    let mut told = last.into_told();
    while let Some(account) = rest.pop() {
        told.join(account.into_told());
    }
    told
}
