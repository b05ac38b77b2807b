//! Settling a share of an opening's open leaves.
ghost use Rattle.std.specs.Prelude.{◌≡◌, ◌+◌, ◌<◌, ◌≤◌, ◌↔◌, None, IsTrue, false, length, IfOk, IfSome};
ghost use Rattle.pv_tree.specs.Trees.{Tree, Paves};
ghost use Rattle.pv_tree.specs.Stages.{IsStage};
ghost use Rattle.pv_board.specs.Rules.{settled_in};
ghost use Rattle.pv_scope.specs.Settlings.{IsClosed, IsFullThere, LeavesOthers};
ghost use Rattle.pv_scope.specs.declared.share.TheConstants.{MOST_SHARES};

use crate::scope::Scope;
use crate::settling::settle_scope;
use pv_num::Memory;
use pv_pool::Gate;
use pv_tree::{KnowingSettler, Paving, Workspace};
use std::alloc::Global;

/// The most shares of an opening.
pub const MOST_SHARES: u64 = 1_000_000;

/// One of up to `MOST_SHARES` shares of an opening's open leaves. These are numbered from 0 in
/// preorder, and the share has those whose number is `number` modulo `of`, with all that comes of
/// them.
#[derive(Clone, Copy)]
pub struct Share {
    number: u64,
    of: u64,
    ghost less: { number < of },
    ghost few: { of ≤ MOST_SHARES },
}

impl Share {
    /// A share. None where the number is not below `of`, or `of` is above `MOST_SHARES`.
    pub fn new(number: u64, of: u64) -> Option<Share>
        ensures sound { IfSome result (λ s. (s.number ≡ number) × (s.of ≡ of)) }
        ensures complete { result ≡ None → number < of → of ≤ MOST_SHARES → ⊥ }
    {
        if number < of && of <= MOST_SHARES {
            Some(Share { number, of })
        } else {
            None
        }
    }

    /// Its number.
    pub fn number(self) -> u64
        ensures { result ≡ self.number }
    {
        self.number
    }

    /// How many shares there are.
    pub fn of(self) -> u64
        ensures { result ≡ self.of }
    {
        self.of
    }
}

/// An opening of which a share was settled.
#[derive(Drop)]
pub struct Shared {
    pub paving: Paving,
    /// How many leaves were settled.
    pub settled: u64,
    /// Whether no leaf at or below the share is open.
    pub done: bool,
}

/// Settles the open leaves of a share of an opening, each time the first one in preorder, until no
/// leaf at or below the share is open or the budget is spent. All other leaves stay as they are. The
/// gate is entered as by worker 0, with the path of the leaf, before each settling.
///
/// # Errors
///
/// Want of memory.
pub fn settle_share<S: KnowingSettler, G: Gate>(
    alloc: Global,
    settler: &S,
    opening: Paving,
    share: Share,
    budget: u64,
    gate: &G,
) -> Result<Shared, Memory>
    requires dims { length opening.root ≡ S.dims settler.now }
    ensures root { IfOk result (λ s. s.paving.root ≡ opening.root) }
    ensures stages { IfOk result (λ s. (earlier : Tree) → Paves opening.root earlier →
        IsStage (S.settle_of settler.now)
        (S.depth_of settler.now) opening.root earlier opening.tree →
        IsStage (S.settle_of settler.now)
        (S.depth_of settler.now) opening.root earlier s.paving.tree) }
    ensures stage { IfOk result (λ s. IsStage (S.settle_of settler.now)
        (S.depth_of settler.now) opening.root opening.tree s.paving.tree) }
    ensures others { IfOk result (λ s.
        LeavesOthers share.number share.of opening.tree s.paving.tree) }
    ensures settled { IfOk result (λ s.
        settled_in s.paving.tree ≡ settled_in opening.tree + s.settled) }
    ensures few { IfOk result (λ s. s.settled ≤ budget) }
    ensures done { IfOk result (λ s. IsTrue s.done ↔
        IsClosed share.number share.of opening.tree s.paving.tree) }
    ensures spent { IfOk result (λ s. s.done ≡ false → s.settled ≡ budget) }
    ensures full { IfOk result (λ s. IsTrue s.done →
        IsFullThere (S.settle_of settler.now) (S.depth_of settler.now) opening.root
        share.number share.of opening.tree s.paving.tree) }
{
    let mut paving = opening;
    let mut workspace = Workspace::of(alloc, settler, paving.dims())?;
    let scope = Scope::Shared {
        number: share.number,
        of: share.of,
    };
    let came = settle_scope(
        alloc,
        settler,
        gate,
        &mut paving,
        scope,
        budget,
        &mut workspace,
    )?;
    let _sides = paving.dims();
    Ok(Shared {
        paving,
        settled: came.settled,
        done: came.done,
    })
}
