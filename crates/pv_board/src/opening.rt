//! Opening a board, and what refuses it.
ghost use Rattle.std.specs.Prelude.{◌≡◌, ◌+◌, ◌<◌, ◌≤◌, [], true, false, IfOk, IfErr, OnOk, length};
ghost use Rattle.pv_tree.specs.Trees.{Seen};
ghost use Rattle.pv_board.specs.Rules.{IsFitting, settled_in};
ghost use Rattle.pv_board.specs.Core.{Core};
ghost use Rattle.pv_board.specs.Openings.{IsOpened, IsOpenRefusal};
ghost use Rattle.pv_tree.specs.declared.limit.TheConstants.{LEAST_LIMIT};

use crate::board::Board;
use crate::ceiling::Ceiling;
use crate::leaves::Leaves;
use crate::naming::Naming;
use pv_tree::{NodeLimit, Paving};
use std::alloc::Global;

/// Why no board was opened. The opening is handed back.
#[derive(Drop)]
pub enum OpenRefused {
    /// Want of memory.
    Memory(Paving),
    /// The opening's settled nodes and the budget are more than the limit.
    TreeLimit { settled: u64, opening: Paving },
}

impl<N: Naming> Board<N> {
    /// A board on a paving, with a budget of 1 to 100,000 settlings, for a tree of at most 100,000
    /// settled nodes. It makes all room that settling needs.
    pub fn open(alloc: Global, opening: Paving, budget: u64) -> Result<Board<N>, OpenRefused>
        requires limit { N.limit ≡ LEAST_LIMIT }
        requires root { opening.root ≡ N.root }
        requires tree { opening.tree ≡ N.opening }
        requires budget { budget ≡ N.budget }
        requires some { 1 ≤ budget }
        requires few { budget ≤ LEAST_LIMIT }
        requires rule { IsFitting N.rule N.depth N.dims }
        requires places { length N.root ≡ N.dims }
        ensures opened { IfOk result (λ b. IsOpened N.root N.opening N.budget b) }
        ensures fits { OnOk result (settled_in N.opening + budget ≤ LEAST_LIMIT) }
        ensures refused { IfErr result (λ e. IsOpenRefusal opening budget LEAST_LIMIT e) }
    {
        Board::open_within(alloc, opening, budget, NodeLimit::by_default())
    }

    /// A board on a paving, for a tree of at most so many settled nodes as a limit allows. It makes
    /// all room that settling within the budget needs, and no more, whatever the limit.
    pub fn open_within(
        alloc: Global,
        opening: Paving,
        budget: u64,
        limit: NodeLimit,
    ) -> Result<Board<N>, OpenRefused>
        requires limit { limit ≡ N.limit }
        requires root { opening.root ≡ N.root }
        requires tree { opening.tree ≡ N.opening }
        requires budget { budget ≡ N.budget }
        requires some { 1 ≤ budget }
        requires few { budget ≤ limit }
        requires rule { IsFitting N.rule N.depth N.dims }
        requires places { length N.root ≡ N.dims }
        ensures opened { IfOk result (λ b. IsOpened N.root N.opening N.budget b) }
        ensures fits { OnOk result (settled_in N.opening + budget ≤ limit) }
        ensures refused { IfErr result (λ e. IsOpenRefusal opening budget limit e) }
    {
        let mut opening = opening;
        let _places = opening.dims();
        let settled = opening.counts().settled();
        if settled + budget > limit.nodes() {
            return Err(OpenRefused::TreeLimit { settled, opening });
        }
        match opening.reserve(budget) {
            Ok(()) => {}
            Err(_) => return Err(OpenRefused::Memory(opening)),
        }
        match Leaves::open(alloc, &opening, budget, limit) {
            Ok(leaves) => Ok(Board::of_parts(opening, leaves, Ceiling::of(limit))),
            Err(_) => Err(OpenRefused::Memory(opening)),
        }
    }
}
