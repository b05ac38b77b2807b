//! Paving on a budget by several workers.
ghost use Rattle.std.specs.Prelude.{◌≡◌, ◌+◌, ◌*◌, ◌^◌, ◌<◌, ◌≤◌, ℕ, length, IfOk, IsTrue};
ghost use Rattle.pv_tree.specs.Trees.{Tree, Paves, leaf};
ghost use Rattle.pv_tree.specs.Stages.{IsStage};
ghost use Rattle.pv_board.specs.Marks.{issued};
ghost use Rattle.pv_board.specs.Rules.{IsFitting, settled_in};
ghost use Rattle.pv_workers.specs.Pavings.{IsPaved, IsSpent};
ghost use Rattle.pv_board.specs.declared.told.TheConstants.{LOT_NODES};
ghost use Rattle.pv_tree.specs.declared.limit.TheConstants.{LEAST_LIMIT, MOST_WORKERS};

use crate::account::{join_accounts, split};
use crate::budget::Budget;
use crate::crew::Crew;
use crate::growing::grow;
use crate::parts::by_parts;
use crate::rest::{close, settle_rest};
use crate::ruled::Ruled;
use pv_board::{Board, Naming, OpenRefused, Shared};
use pv_num::Memory;
use pv_pool::{Gate, run_workers};
use pv_tree::{Forgetful, KnowingSettler, NodeLimit, Path, Paving, Settler, Shape, blank};
use std::alloc::Global;
use std::marker::Brand;
use std::sync::Wait;
use std::sync::ledger::Blank;
use std::thread::Threads;

/// A paving, and what it took.
#[derive(Drop)]
pub struct Paved {
    pub paving: Paving,
    /// How many tickets it took, the caller's own settlings included. A ticket by which more than 16
    /// nodes were settled counts as one for each 16 of them, and one that settled none doesn't count.
    pub spent: u128,
}

/// The ledgers of a board, of which nothing is taken yet.
#[derive(Drop)]
struct Blanks {
    settlings: Blank,
    endings: Blank,
}

/// Settles open leaves of an opening by 1 to 16 workers, until none is left or the budget of 1 to
/// 100,000 settlings is spent, for a tree of at most 100,000 settled nodes. The gate is entered with
/// the number of the worker and the path of the leaf before each settling. It joins its workers, and
/// may wait for them.
///
/// Where the budget is enough the paving is the full tree of the opening, whatever the number of
/// workers and their order. Else it is a stage of it with exactly the budget more
/// settled nodes.
///
/// # Errors
///
/// Want of memory.
pub fn pave<S: Settler + Sync, G: Gate + Sync, R: Threads + Wait + Sync>(
    rt: &R,
    alloc: Global,
    settler: &S,
    opening: Paving,
    budget: u64,
    workers: u32,
    gate: &G,
) -> Result<Paved, Memory>
    requires dims { length opening.root ≡ S.dims settler.now }
    requires some { 1 ≤ budget }
    requires few { budget ≤ LEAST_LIMIT }
    requires limit { settled_in opening.tree + budget ≤ LEAST_LIMIT }
    requires one { 1 ≤ workers }
    requires sixteen { workers ≤ MOST_WORKERS }
    ensures root { IfOk result (λ p. p.paving.root ≡ opening.root) }
    ensures stages { IfOk result (λ p. (earlier : Tree) → Paves opening.root earlier →
        IsStage (S.settle_of settler.now)
        (S.depth_of settler.now) opening.root earlier opening.tree →
        IsStage (S.settle_of settler.now)
        (S.depth_of settler.now) opening.root earlier p.paving.tree) }
    ensures paved { IfOk result (λ p.
        IsPaved (S.settle_of settler.now)
        (S.depth_of settler.now) opening.root opening.tree budget p.paving.tree) }
    ensures spent { IfOk result (λ p.
        settled_in p.paving.tree ≤ settled_in opening.tree + LOT_NODES * p.spent) }
    ensures least { IfOk result (λ p.
        settled_in opening.tree + p.spent ≤ settled_in p.paving.tree) }
{
    let _places = opening.dims();
    let forgetful = Forgetful { settler };
    let budget = Budget {
        nodes: budget,
        limit: NodeLimit::by_default(),
        workers,
    };
    let paved = by_crew(rt, alloc, &forgetful, opening, budget, gate)?;
    learn_paved(&paved.paving, settler);
    Ok(paved)
}

/// As `pave`, for a tree of at most so many settled nodes as a limit allows, and by a settler that
/// knows: within what a worker settles at once, what is known of a box is handed to its halves. One
/// worker grows an opening that is one open leaf with no board, and then each settling counts as one
/// ticket.
///
/// # Errors
///
/// Want of memory.
pub fn pave_knowing<S: KnowingSettler + Sync, G: Gate + Sync, R: Threads + Wait + Sync>(
    rt: &R,
    alloc: Global,
    settler: &S,
    opening: Paving,
    budget: Budget,
    gate: &G,
) -> Result<Paved, Memory>
where
    S::Room: Send,
    S::Known: Send,
    requires dims { length opening.root ≡ S.dims settler.now }
    requires limit { settled_in opening.tree + budget.nodes ≤ budget.limit }
    ensures root { IfOk result (λ p. p.paving.root ≡ opening.root) }
    ensures stages { IfOk result (λ p. (earlier : Tree) → Paves opening.root earlier →
        IsStage (S.settle_of settler.now)
        (S.depth_of settler.now) opening.root earlier opening.tree →
        IsStage (S.settle_of settler.now)
        (S.depth_of settler.now) opening.root earlier p.paving.tree) }
    ensures paved { IfOk result (λ p.
        IsPaved (S.settle_of settler.now)
        (S.depth_of settler.now) opening.root opening.tree budget.nodes p.paving.tree) }
    ensures spent { IfOk result (λ p.
        settled_in p.paving.tree ≤ settled_in opening.tree + LOT_NODES * p.spent) }
    ensures least { IfOk result (λ p.
        settled_in opening.tree + p.spent ≤ settled_in p.paving.tree) }
{
    let _places = opening.dims();
    let paved = settle(rt, alloc, settler, opening, budget, gate)?;
    learn_paved(&paved.paving, settler);
    Ok(paved)
}

// Settles by one worker alone, or by crews.
fn settle<S: KnowingSettler + Sync, G: Gate + Sync, R: Threads + Wait + Sync>(
    rt: &R,
    alloc: Global,
    settler: &S,
    opening: Paving,
    budget: Budget,
    gate: &G,
) -> Result<Paved, Memory>
where
    S::Room: Send,
    S::Known: Send,
    requires dims { length opening.root ≡ S.dims settler.now }
    requires limit { settled_in opening.tree + budget.nodes ≤ budget.limit }
    ensures root { IfOk result (λ p. p.paving.root ≡ opening.root) }
    ensures stage { IfOk result (λ p.
        IsStage (S.settle_of settler.now)
        (S.depth_of settler.now) opening.root opening.tree p.paving.tree) }
    ensures paved { IfOk result (λ p. IsSpent budget.nodes opening.tree p.paving.tree) }
    ensures spent { IfOk result (λ p.
        settled_in p.paving.tree ≤ settled_in opening.tree + LOT_NODES * p.spent) }
    ensures least { IfOk result (λ p.
        settled_in opening.tree + p.spent ≤ settled_in p.paving.tree) }
{
    if budget.workers == 1 && is_leaf(&opening) {
        return grow(alloc, settler, &opening, budget.nodes, gate);
    }
    by_parts(rt, alloc, settler, opening, budget, gate)
}

/// Settles by a crew of workers on a board, under a new name.
pub(crate) fn by_crew<S: KnowingSettler + Sync, G: Gate + Sync, R: Threads + Wait + Sync>(
    rt: &R,
    alloc: Global,
    settler: &S,
    opening: Paving,
    budget: Budget,
    gate: &G,
) -> Result<Paved, Memory>
where
    S::Room: Send,
    S::Known: Send,
    requires dims { length opening.root ≡ S.dims settler.now }
    requires limit { settled_in opening.tree + budget.nodes ≤ budget.limit }
    ensures root { IfOk result (λ p. p.paving.root ≡ opening.root) }
    ensures stage { IfOk result (λ p.
        IsStage (S.settle_of settler.now)
        (S.depth_of settler.now) opening.root opening.tree p.paving.tree) }
    ensures paved { IfOk result (λ p. IsSpent budget.nodes opening.tree p.paving.tree) }
    ensures spent { IfOk result (λ p.
        settled_in p.paving.tree ≤ settled_in opening.tree + LOT_NODES * p.spent) }
    ensures least { IfOk result (λ p.
        settled_in opening.tree + p.spent ≤ settled_in p.paving.tree) }
    ensures low { IfOk result (λ p. p.spent < 2 ^ 84) }
{
    let _places = opening.dims();
    pave_named::<Brand, S, G, R>(
        rt,
        alloc,
        settler,
        opening,
        budget,
        gate,
        Blanks {
            settlings: Blank::new(32),
            endings: Blank::new(32),
        },
    )
}

// Whether a paving is one open leaf.
fn is_leaf(paving: &Paving) -> bool
    ensures { IsTrue result → paving.now.tree ≡ leaf }
{
    matches!(paving.shape_at(Path::root()), Shape::OpenLeaf)
}

/// Does nothing. Its contract is what a stage is that spent a budget or has no open leaf, and that a
/// stage of a stage is one.
pub(crate) fn learn_paved<S: Settler>(paving: &Paving, settler: &S)
    requires { length paving.now.root ≡ S.dims settler.now }
    ensures stages { (earlier opening : Tree) → Paves paving.now.root earlier →
        IsStage (S.settle_of settler.now)
        (S.depth_of settler.now) paving.now.root earlier opening →
        IsStage (S.settle_of settler.now)
        (S.depth_of settler.now) paving.now.root opening paving.now.tree →
        IsStage (S.settle_of settler.now)
        (S.depth_of settler.now) paving.now.root earlier paving.now.tree }
    ensures paved { (opening : Tree) (budget : ℕ) → Paves paving.now.root opening →
        IsStage (S.settle_of settler.now)
        (S.depth_of settler.now) paving.now.root opening paving.now.tree →
        IsSpent budget opening paving.now.tree →
        IsPaved (S.settle_of settler.now)
        (S.depth_of settler.now) paving.now.root opening budget paving.now.tree }
{
    let _places = paving.dims();
    let _depth = settler.depth();
}

// The same under a name for the board and its ledgers.
fn pave_named<
    N: Naming + Send + Sync,
    S: KnowingSettler + Sync,
    G: Gate + Sync,
    R: Threads + Wait + Sync,
>(
    rt: &R,
    alloc: Global,
    settler: &S,
    opening: Paving,
    budget: Budget,
    gate: &G,
    blanks: Blanks,
) -> Result<Paved, Memory>
where
    S::Room: Send,
    S::Known: Send,
    requires rule { N.rule ≡ S.settle_of settler.now }
    requires depth { N.depth ≡ S.depth_of settler.now }
    requires dims { N.dims ≡ S.dims settler.now }
    requires fits { IsFitting N.rule N.depth N.dims }
    requires root { opening.root ≡ N.root }
    requires tree { opening.tree ≡ N.opening }
    requires places { length N.root ≡ N.dims }
    requires budget { budget.nodes ≡ N.budget }
    requires most { budget.limit ≡ N.limit }
    requires limit { settled_in N.opening + budget.nodes ≤ budget.limit }
    requires settlings { (blanks.settlings.name ≡ N.settlings) × (blanks.settlings.parts ≡ 32) }
    requires endings { (blanks.endings.name ≡ N.endings) × (blanks.endings.parts ≡ 32) }
    ensures root { IfOk result (λ p. p.paving.root ≡ N.root) }
    ensures stage { IfOk result (λ p. IsStage N.rule N.depth N.root N.opening p.paving.tree) }
    ensures paved { IfOk result (λ p. IsSpent N.budget N.opening p.paving.tree) }
    ensures spent { IfOk result (λ p.
        settled_in p.paving.tree ≤ settled_in N.opening + LOT_NODES * p.spent) }
    ensures least { IfOk result (λ p. settled_in N.opening + p.spent ≤ settled_in p.paving.tree) }
    ensures low { IfOk result (λ p. p.spent < 2 ^ 84) }
{
    let places = opening.dims();
    let workers = budget.workers;
    let ruled: Ruled<N, S> = Ruled::of(settler, places);
    let mut scratch = blank(alloc, places)?;
    let board = open_board(alloc, opening, budget)?;
    let (mut board, spent) = run_crew(rt, alloc, &ruled, board, workers, gate, blanks)?;
    let own = settle_rest(alloc, &ruled, gate, &mut board, &mut scratch)?;
    let paving = close(board)?;
    Ok(Paved {
        paving,
        spent: spent + u128::from(own),
    })
}

// A board on an opening.
fn open_board<N: Naming>(alloc: Global, opening: Paving, budget: Budget) -> Result<Board<N>, Memory>
    requires fits { IsFitting N.rule N.depth N.dims }
    requires root { opening.root ≡ N.root }
    requires tree { opening.tree ≡ N.opening }
    requires places { length N.root ≡ N.dims }
    requires budget { budget.nodes ≡ N.budget }
    requires most { budget.limit ≡ N.limit }
    requires limit { settled_in N.opening + budget.nodes ≤ budget.limit }
    ensures issued { IfOk result (λ b. issued b.marks ≡ 0) }
    ensures used { IfOk result (λ b. b.used ≡ 0) }
    ensures tree { IfOk result (λ b. b.tree ≡ N.opening) }
{
    match Board::open_within(alloc, opening, budget.nodes, budget.limit) {
        Ok(board) => Ok(board),
        Err(OpenRefused::Memory(_)) => Err(Memory),
        Err(OpenRefused::TreeLimit { .. }) => unreachable!(),
    }
}

// Lets the workers settle, and answers how many lots of up to 16 nodes they settled.
fn run_crew<
    N: Naming + Send + Sync,
    S: KnowingSettler + Sync,
    G: Gate + Sync,
    R: Threads + Wait + Sync,
>(
    rt: &R,
    alloc: Global,
    ruled: &Ruled<N, S>,
    board: Board<N>,
    workers: u32,
    gate: &G,
    blanks: Blanks,
) -> Result<(Board<N>, u128), Memory>
where
    S::Room: Send,
    S::Known: Send,
    requires issued { issued board.marks ≡ 0 }
    requires used { board.used ≡ 0 }
    requires tree { board.tree ≡ N.opening }
    requires one { 1 ≤ workers }
    requires sixteen { workers ≤ MOST_WORKERS }
    requires settlings { (blanks.settlings.name ≡ N.settlings) × (blanks.settlings.parts ≡ 32) }
    requires endings { (blanks.endings.name ≡ N.endings) × (blanks.endings.parts ≡ 32) }
    ensures settled { IfOk result (λ r. settled_in r.0.tree ≡ settled_in N.opening + r.0.used) }
    ensures few { IfOk result (λ r. r.0.used ≤ LOT_NODES * r.1) }
    ensures least { IfOk result (λ r. r.1 ≤ r.0.used) }
    ensures low { IfOk result (λ r. r.1 < 2 ^ 83) }
{
    let Blanks { settlings, endings } = blanks;
    let (shared, told) = Shared::new(board, settlings, endings);
    let accounts = split(alloc, ruled.settler, told, workers, ruled.places)?;
    let crew = Crew {
        alloc,
        shared: &shared,
        ruled,
        gate,
        workers,
    };
    let Ok(accounts) = run_workers(rt, alloc, &crew, accounts) else {
        return Err(Memory);
    };
    let told = join_accounts(accounts);
    let _settled = told.settled();
    let spent = told.lots();
    Ok((shared.into_board(told), spent))
}
