//! What a board in a lock promises to the counts of its callers.
ghost use Rattle.std.specs.Prelude.{◌≡◌, ◌≢◌, ◌+◌, ◌-◌, ◌<◌, is_some, IsSome, length};
ghost use Rattle.pv_tree.specs.Trees.{subtree, box_of};
ghost use Rattle.pv_tree.specs.Stages.{full_of};
ghost use Rattle.pv_tree.specs.Limits.{told_room};
ghost use Rattle.pv_board.specs.Tallies.{handed_in, given_more, joined, told_of, one_if, tickets_in, IsLow};
ghost use Rattle.pv_board.specs.declared.ticket.Look.TheVariants.{Done, Same};

use pv_board::{Look, Naming, Settled, Shared, Ticket, Told};
use pv_tree::Outcome;
use std::sync::Wait;

/// Issues some open leaf.
pub fn take<N: Naming, R: Wait>(rt: &R, shared: &Shared<N>, told: &mut Told<N>) -> Option<Ticket>
    requires { IsLow told.old }
    ensures { told.new ≡ given_more told.old (one_if (is_some result)) }
{
    shared.take(rt, told)
}

/// Settles a ticket's leaf.
pub fn settle<N: Naming, R: Wait>(
    rt: &R,
    shared: &Shared<N>,
    ticket: Ticket,
    outcome: Outcome,
    told: &mut Told<N>,
) -> Settled
    requires low { IsLow told.old }
    requires there { IsSome (subtree (full_of N.rule N.depth N.root N.opening 0) ticket.path) }
    requires due { outcome ≡ N.rule
        (box_of N.root (full_of N.rule N.depth N.root N.opening 0) ticket.path)
        (N.depth - length ticket.path) (length ticket.path) }
    ensures { told.new ≡ handed_in told.old (one_if result.fresh) (tickets_in result) }
{
    shared.settle(rt, ticket, outcome, told)
}

/// Waits until there is a leaf to settle, all is done, or something changed.
pub fn idle<N: Naming, R: Wait>(rt: &R, shared: &Shared<N>, seen: u64, told: &mut Told<N>) -> Look
    requires { IsLow told.old }
    ensures told { told.new ≡ told_of told.old result }
    ensures rises { result ≡ Done → told.new.ended ≡ told.old.ended + 1 }
    ensures news { result ≢ Same }
{
    shared.idle(rt, seen, told)
}

/// Adds another caller's counts.
pub fn join<N: Naming>(told: &mut Told<N>, other: Told<N>)
    requires looks { told.old.looks + other.looks < told_room }
    requires given { told.old.given + other.given < told_room }
    requires spent { told.old.spent + other.spent < told_room }
    ensures { told.new ≡ joined told.old other }
{
    told.join(other);
}
