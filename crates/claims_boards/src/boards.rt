//! What a board's calls promise.
ghost use Rattle.std.specs.Prelude.{◌≡◌, ◌+◌, ◌-◌, ◌≤◌, [], ◌++◌, false, IsTrue, IfOk, IfErr, OnOk, IfSome, IfNone, IsSome, None, length, option_to_list};
ghost use Rattle.pv_tree.specs.Trees.{subtree, settled, box_of};
ghost use Rattle.pv_tree.specs.Stages.{full_of, IsStage};
ghost use Rattle.pv_tree.specs.declared.batch.TheConstants.{MOST_BATCH};
ghost use Rattle.pv_board.specs.Rules.{IsFitting, IsStageBelow, settled_in};
ghost use Rattle.pv_board.specs.Events.{is_current, IsDry, IsTake, IsSettling, IsHandedIn, IsGiveBack, IsLook, HasRisen, leaves_at, taken_by};
ghost use Rattle.pv_board.specs.Absorbing.{IsAbsorbed};
ghost use Rattle.pv_board.specs.Openings.{IsOpenRefusal};

use pv_board::{AbsorbRefused, Board, Handed, Look, Naming, OpenRefused, Settled, Ticket};
use pv_tree::{Batch, NodeLimit, Outcome, Path, Paving};
use std::alloc::Global;

/// Opens a board, where the opening and the budget are within the limit, and answers how many nodes
/// are settled.
pub fn open<N: Naming>(
    alloc: Global,
    opening: Paving,
    budget: u64,
    limit: NodeLimit,
) -> Result<u64, OpenRefused>
    requires limit { limit ≡ N.limit }
    requires root { opening.root ≡ N.root }
    requires tree { opening.tree ≡ N.opening }
    requires budget { budget ≡ N.budget }
    requires some { 1 ≤ budget }
    requires few { budget ≤ limit }
    requires rule { IsFitting N.rule N.depth N.dims }
    requires places { length N.root ≡ N.dims }
    ensures fits { OnOk result (settled_in N.opening + budget ≤ limit) }
    ensures refused { IfErr result (λ e. IsOpenRefusal opening budget limit e) }
{
    match Board::<N>::open_within(alloc, opening, budget, limit) {
        Ok(board) => Ok(board.counts().settled()),
        Err(refused) => Err(refused),
    }
}

/// Issues a leaf. None exactly where none can be.
pub fn take<N: Naming>(board: &mut Board<N>) -> Option<Ticket>
    ensures taken { IfSome result (λ t. IsTake board.old board.new t) }
    ensures none { IfNone result (IsDry board.old) }
{
    board.take()
}

/// Stops a board, and then issues nothing.
pub fn take_after_stop<N: Naming>(board: &mut Board<N>) -> Option<Ticket>
    ensures { result ≡ None }
{
    board.stop();
    take(board)
}

/// Settles a ticket's leaf, where the ticket is current.
pub fn settle<N: Naming>(board: &mut Board<N>, ticket: Ticket, outcome: Outcome) -> Settled
    requires there { IsSome (subtree (full_of N.rule N.depth N.root N.opening 0) ticket.path) }
    requires due { outcome ≡ N.rule
        (box_of N.root (full_of N.rule N.depth N.root N.opening 0) ticket.path)
        (N.depth - length ticket.path) (length ticket.path) }
    ensures fresh { result.fresh ≡ is_current board.old ticket }
    ensures settled { IsTrue result.fresh →
        IsSettling board.old board.new ticket (settled outcome)
        (option_to_list result.low ++ option_to_list result.high) }
    ensures stale { result.fresh ≡ false → (board.new ≡ board.old) ×
        (option_to_list result.low ++ option_to_list result.high ≡ []) }
{
    board.settle(ticket, outcome)
}

/// Puts a stage in the place of a ticket's leaf, where the units are enough.
pub fn settle_stage<N: Naming>(
    board: &mut Board<N>,
    ticket: Ticket,
    stage: &Paving,
    leaves: &[Path],
    children: &mut Batch<Ticket>,
) -> Handed
    requires there { IsSome (subtree (full_of N.rule N.depth N.root N.opening 0) ticket.path) }
    requires root { stage.now.root ≡
        box_of N.root (full_of N.rule N.depth N.root N.opening 0) ticket.path }
    requires stage { IsStageBelow N.rule N.depth stage.now.root
        (length ticket.path) stage.now.tree }
    requires some { 1 ≤ settled_in stage.now.tree }
    requires leaves { leaves.now ≡ leaves_at ticket.path stage.now.tree }
    requires few { length leaves.now ≤ MOST_BATCH }
    requires empty { children.old ≡ [] }
    ensures handed { IsHandedIn board.old board.new ticket stage.now.tree children.new result }
    ensures rose { HasRisen board.old board.new (taken_by result (settled_in stage.now.tree)) }
{
    board.settle_stage(ticket, stage, leaves, children)
}

/// Puts a stage in the place of a ticket's leaf, and answers how many nodes more are settled and
/// used.
pub fn settled_by_stage<N: Naming>(
    board: &mut Board<N>,
    ticket: Ticket,
    stage: &Paving,
    leaves: &[Path],
    children: &mut Batch<Ticket>,
) -> u64
    requires there { IsSome (subtree (full_of N.rule N.depth N.root N.opening 0) ticket.path) }
    requires root { stage.now.root ≡
        box_of N.root (full_of N.rule N.depth N.root N.opening 0) ticket.path }
    requires stage { IsStageBelow N.rule N.depth stage.now.root
        (length ticket.path) stage.now.tree }
    requires some { 1 ≤ settled_in stage.now.tree }
    requires leaves { leaves.now ≡ leaves_at ticket.path stage.now.tree }
    requires few { length leaves.now ≤ MOST_BATCH }
    requires empty { children.old ≡ [] }
    ensures { HasRisen board.old board.new result }
{
    let before = board.used();
    settle_stage(board, ticket, stage, leaves, children);
    board.used() - before
}

/// Takes a current ticket's leaf back.
pub fn give_back<N: Naming>(board: &mut Board<N>, ticket: Ticket)
    ensures given { IsTrue (is_current board.old ticket) →
        IsGiveBack board.old board.new ticket }
    ensures stale { is_current board.old ticket ≡ false → board.new ≡ board.old }
{
    board.give_back(ticket);
}

/// Takes a current ticket's leaf back, and answers what is left: its units are left again.
pub fn left_after_return<N: Naming>(board: &mut Board<N>, ticket: Ticket) -> u64
    requires { IsTrue (is_current board.old ticket) }
    ensures { result ≡ board.old.left + 1 + ticket.grant }
{
    let _grant = ticket.grant();
    give_back(board, ticket);
    board.left()
}

/// Issues a leaf, or says why not.
pub fn look<N: Naming>(board: &mut Board<N>, seen: u64) -> Look
    ensures { IsLook board.old board.new seen result }
{
    board.look(seen)
}

/// Takes in what a stage of the opening has settled, beside issued leaves.
pub fn absorb<N: Naming>(
    board: &mut Board<N>,
    alloc: Global,
    stage: &Paving,
) -> Result<u64, AbsorbRefused>
    requires root { stage.now.root ≡ N.root }
    requires stage { IsStage N.rule N.depth N.root N.opening stage.now.tree }
    ensures { IfOk result (λ added.
        IsAbsorbed N.limit board.old board.new stage.now.tree added) }
{
    board.absorb(alloc, stage)
}
