//! Which events the calls of a board are.
ghost use Rattle.std.specs.Prelude.{◌≡◌, ◌+◌, ◌≤◌, [], ◌∷◌};
ghost use Rattle.pv_tree.specs.Stages.{IsStage};
ghost use Rattle.pv_board.specs.Events.{is_current};
ghost use Rattle.pv_events.specs.Steps.{extended, gave_back, halted, Run};
ghost use Rattle.pv_events.specs.Answers.{one_where, taking, absorbing};

use pv_board::{AbsorbRefused, Board, Naming, Ticket};
use pv_events::calls;
use pv_tree::Paving;
use std::alloc::Global;

/// Issues a leaf: one event, or none.
pub fn take<N: Naming>(board: &mut Board<N>) -> Option<Ticket>
    ensures { Run N.rule N.depth N.root N.opening N.limit (taking result) board.old board.new }
{
    calls::take(board)
}

/// Asks for units: one event, which tells how many were granted, or none.
pub fn extend<N: Naming>(board: &mut Board<N>, ticket: &mut Ticket, want: u64) -> u64
    requires { ticket.old.grant + want ≤ 15 }
    ensures { Run N.rule N.depth N.root N.opening N.limit
        (one_where (is_current board.old ticket.old) (extended ticket.old result))
        board.old board.new }
{
    calls::extend(board, ticket, want)
}

/// Gives a leaf back: one event, or none.
pub fn give_back<N: Naming>(board: &mut Board<N>, ticket: Ticket)
    ensures { Run N.rule N.depth N.root N.opening N.limit
        (one_where (is_current board.old ticket) (gave_back ticket)) board.old board.new }
{
    calls::give_back(board, ticket);
}

/// Stops the board: one event.
pub fn stop<N: Naming>(board: &mut Board<N>)
    ensures { Run N.rule N.depth N.root N.opening N.limit (halted ∷ []) board.old board.new }
{
    calls::stop(board);
}

/// Takes in what a stage of the opening has settled: one event, which tells how many nodes were
/// added, or none.
pub fn absorb<N: Naming>(
    board: &mut Board<N>,
    alloc: Global,
    stage: &Paving,
) -> Result<u64, AbsorbRefused>
    requires root { stage.now.root ≡ N.root }
    requires stage { IsStage N.rule N.depth N.root N.opening stage.now.tree }
    ensures { Run N.rule N.depth N.root N.opening N.limit (absorbing stage.now.tree result)
        board.old board.new }
{
    calls::absorb(board, alloc, stage)
}
