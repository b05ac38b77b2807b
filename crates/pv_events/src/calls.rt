//! The calls of a board, and which events each of them is: one, or none where nothing changes.
ghost use Rattle.std.specs.Prelude.{◌≡◌, ◌+◌, ◌-◌, ◌≤◌, [], ◌∷◌, ◌++◌, IfOk, OnOk, IsSome, length, option_to_list};
ghost use Rattle.pv_tree.specs.Trees.{subtree, settled, box_of};
ghost use Rattle.pv_tree.specs.Stages.{full_of, IsStage};
ghost use Rattle.pv_board.specs.Rules.{IsFitting, IsStageBelow, settled_in};
ghost use Rattle.pv_board.specs.Core.{IsOpening};
ghost use Rattle.pv_board.specs.Events.{is_current, leaves_at};
ghost use Rattle.pv_events.specs.Steps.{became, extended, gave_back, halted, announced, recalled, Run};
ghost use Rattle.pv_events.specs.Runs.{IsBegun};
ghost use Rattle.pv_events.specs.Answers.{one_where, taking, looking, handing_in, absorbing};

use pv_board::{AbsorbRefused, Board, Handed, Look, Naming, OpenRefused, Settled, Ticket};
use pv_tree::{Batch, NodeLimit, Outcome, Path, Paving};
use std::alloc::Global;

/// Opens a board: what runs begin with.
pub fn open<N: Naming>(
    alloc: Global,
    opening: Paving,
    budget: u64,
    limit: NodeLimit,
) -> Result<Board<N>, OpenRefused>
    requires limit { limit ≡ N.limit }
    requires root { opening.root ≡ N.root }
    requires tree { opening.tree ≡ N.opening }
    requires budget { budget ≡ N.budget }
    requires some { 1 ≤ budget }
    requires few { budget ≤ limit }
    requires rule { IsFitting N.rule N.depth N.dims }
    requires places { length N.root ≡ N.dims }
    ensures begun { IfOk result (λ b. IsBegun N.root N.opening N.budget N.limit b) }
    ensures opening { OnOk result (IsOpening N.rule N.depth N.dims N.root N.opening) }
{
    match Board::open_within(alloc, opening, budget, limit) {
        Ok(board) => {
            let _used = board.used();
            Ok(board)
        }
        Err(refused) => Err(refused),
    }
}

/// Issues a leaf.
pub fn take<N: Naming>(board: &mut Board<N>) -> Option<Ticket>
    ensures { Run N.rule N.depth N.root N.opening N.limit (taking result) board.old board.new }
{
    board.take()
}

/// Issues a leaf, or says why not.
pub fn look<N: Naming>(board: &mut Board<N>, seen: u64) -> Look
    ensures { Run N.rule N.depth N.root N.opening N.limit (looking result) board.old board.new }
{
    board.look(seen)
}

/// Settles a ticket's leaf.
pub fn settle<N: Naming>(board: &mut Board<N>, ticket: Ticket, outcome: Outcome) -> Settled
    requires there { IsSome (subtree (full_of N.rule N.depth N.root N.opening 0) ticket.path) }
    requires due { outcome ≡ N.rule
        (box_of N.root (full_of N.rule N.depth N.root N.opening 0) ticket.path)
        (N.depth - length ticket.path) (length ticket.path) }
    ensures { Run N.rule N.depth N.root N.opening N.limit
        (one_where result.fresh (became ticket (settled outcome)
        (option_to_list result.low ++ option_to_list result.high))) board.old board.new }
{
    let _used = board.used();
    board.settle(ticket, outcome)
}

/// Hands a stage in.
pub fn settle_stage<N: Naming>(
    board: &mut Board<N>,
    ticket: Ticket,
    stage: &Paving,
    leaves: &[Path],
    children: &mut Batch<Ticket>,
) -> Handed
    requires there { IsSome (subtree (full_of N.rule N.depth N.root N.opening 0) ticket.path) }
    requires root { stage.now.root ≡
        box_of N.root (full_of N.rule N.depth N.root N.opening 0) ticket.path }
    requires stage { IsStageBelow N.rule N.depth stage.now.root
        (length ticket.path) stage.now.tree }
    requires some { 1 ≤ settled_in stage.now.tree }
    requires leaves { leaves.now ≡ leaves_at ticket.path stage.now.tree }
    requires few { length leaves.now ≤ 17 }
    requires empty { children.old ≡ [] }
    ensures { Run N.rule N.depth N.root N.opening N.limit
        (handing_in ticket stage.now.tree children.new result) board.old board.new }
{
    board.settle_stage(ticket, stage, leaves, children)
}

/// Asks for units.
pub fn extend<N: Naming>(board: &mut Board<N>, ticket: &mut Ticket, want: u64) -> u64
    requires { ticket.old.grant + want ≤ 15 }
    ensures { Run N.rule N.depth N.root N.opening N.limit
        (one_where (is_current board.old ticket.old) (extended ticket.old result))
        board.old board.new }
{
    board.extend(ticket, want)
}

/// Gives a leaf back.
pub fn give_back<N: Naming>(board: &mut Board<N>, ticket: Ticket)
    ensures { Run N.rule N.depth N.root N.opening N.limit
        (one_where (is_current board.old ticket) (gave_back ticket)) board.old board.new }
{
    board.give_back(ticket);
}

/// Stops the board.
pub fn stop<N: Naming>(board: &mut Board<N>)
    ensures { Run N.rule N.depth N.root N.opening N.limit (halted ∷ []) board.old board.new }
{
    board.stop();
}

/// Changes the number that idle workers look at.
pub fn announce<N: Naming>(board: &mut Board<N>)
    ensures { Run N.rule N.depth N.root N.opening N.limit (announced ∷ []) board.old board.new }
{
    board.announce();
}

/// Takes every issued leaf back.
pub fn recall<N: Naming>(board: &mut Board<N>)
    ensures { Run N.rule N.depth N.root N.opening N.limit (recalled ∷ []) board.old board.new }
{
    board.recall();
}

/// Takes in what a stage of the opening has settled.
pub fn absorb<N: Naming>(
    board: &mut Board<N>,
    alloc: Global,
    stage: &Paving,
) -> Result<u64, AbsorbRefused>
    requires root { stage.now.root ≡ N.root }
    requires stage { IsStage N.rule N.depth N.root N.opening stage.now.tree }
    ensures { Run N.rule N.depth N.root N.opening N.limit (absorbing stage.now.tree result)
        board.old board.new }
{
    let absorbed = board.absorb(alloc, stage);
    let _used = board.used();
    absorbed
}
