//! The pool's jobs.
ghost use Rattle.std.specs.Prelude.{◌≡◌, ◌+◌, ◌<◌, ◌≤◌, ◌++◌, [], List, length, map, reverse, option_to_list};
ghost use Rattle.pv_tree.specs.Trees.{box_of};
ghost use Rattle.pv_tree.specs.Stages.{full_of};
ghost use Rattle.pv_board.specs.declared.mark.Mark.{Mark};
ghost use Rattle.pv_workers.specs.Facts.{AreFacts, paths};
ghost use Rattle.pv_tree.specs.declared.batch.TheConstants.{MOST_BATCH};

use crate::ruled::Ruled;
use pv_board::{Naming, Ticket};
use pv_tree::{Batch, KnowingSettler};
use std::marker::Model;

/// A ticket with what is known of its leaf's box.
#[derive(Drop)]
pub(crate) struct Task<'a, N: Naming, S: KnowingSettler> {
    ticket: Ticket,
    ruled: &'a Ruled<'a, N, S>,
    known: S::Known,
}

impl<'a, N: Naming, S: KnowingSettler> Model for Task<'a, N, S> {
    ghost use Rattle.pv_board.specs.declared.mark.Mark.{Mark};
    ghost use Rattle.pv_board.specs.Core.{coded_mark};
    ghost use Rattle.pv_tree.specs.Trees.{box_of};
    ghost use Rattle.pv_tree.specs.Stages.{full_of};

    ghost Value = { Mark };

    ghost coded = { coded_mark };

    ghost view = { λ a. a.ticket };

    ghost invariant = { λ a. S.knows a.ruled.now.settler.now a.known
        (box_of N.root (full_of N.rule N.depth N.root N.opening 0) a.ticket.path) };
}

/// What a task consists of.
#[derive(Drop)]
pub(crate) struct TaskParts<'a, N: Naming, S: KnowingSettler> {
    pub(crate) ticket: Ticket,
    pub(crate) ruled: &'a Ruled<'a, N, S>,
    pub(crate) known: S::Known,
}

impl<'a, N: Naming, S: KnowingSettler> Task<'a, N, S> {
    /// A ticket of whose leaf something is known.
    fn knowing(ticket: Ticket, ruled: &'a Ruled<'a, N, S>, known: S::Known) -> Task<'a, N, S>
        requires { S.knows ruled.now.settler.now known
            (box_of N.root (full_of N.rule N.depth N.root N.opening 0) ticket.path) }
        ensures { result ≡ ticket }
    {
        Task {
            ticket,
            ruled,
            known,
        }
    }

    /// A ticket of whose leaf nothing is known.
    pub(crate) fn of(ticket: Ticket, ruled: &'a Ruled<'a, N, S>) -> Task<'a, N, S>
        ensures { result ≡ ticket }
    {
        Task::knowing(ticket, ruled, ruled.nothing())
    }

    /// What it consists of.
    pub(crate) fn into_parts(self) -> TaskParts<'a, N, S>
        ensures ticket { result.ticket ≡ self.entry }
        ensures known { S.knows result.ruled.now.settler.now result.known
            (box_of N.root (full_of N.rule N.depth N.root N.opening 0) self.entry.path) }
    {
        let Task {
            ticket,
            ruled,
            known,
        } = self;
        TaskParts {
            ticket,
            ruled,
            known,
        }
    }
}

/// Makes tasks of tickets, in their order. `facts` has what is known of their leaves, that of the
/// first one last, and may go on.
pub(crate) fn hand_out<'a, N: Naming, S: KnowingSettler>(
    ruled: &'a Ruled<'a, N, S>,
    tickets: &mut Batch<Ticket>,
    facts: &mut Vec<S::Known>,
    children: &mut Batch<Task<'a, N, S>>,
)
    requires room { length children.old + length tickets.old ≤ MOST_BATCH }
    requires facts { AreFacts (S.knows ruled.now.settler.now)
        (box_of N.root (full_of N.rule N.depth N.root N.opening 0)) (paths tickets.old)
        (reverse facts.old.items) }
    ensures none { tickets.new ≡ [] }
    ensures count { length children.new ≡ length children.old + length tickets.old }
    ensures rest { (more : List Mark) → AreFacts (S.knows ruled.now.settler.now)
        (box_of N.root (full_of N.rule N.depth N.root N.opening 0)) (paths (tickets.old ++ more))
        (reverse facts.old.items) → AreFacts (S.knows ruled.now.settler.now)
        (box_of N.root (full_of N.rule N.depth N.root N.opening 0)) (paths more)
        (reverse facts.new.items) }
{
    let Some(ticket) = tickets.pop() else {
        return;
    };
    hand_out(ruled, tickets, facts, children);
    let Some(known) = facts.pop() else {
        unreachable!()
    };
    children.push(Task::knowing(ticket, ruled, known));
}
