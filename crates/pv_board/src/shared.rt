//! A board in a lock, for several callers.
ghost use Rattle.std.specs.Prelude.{◌≡◌, ◌≢◌, ◌+◌, ◌-◌, ◌<◌, ◌≤◌, [], ◌∷◌, ◌++◌, true, false, IsTrue, IfSome, IfNone, is_some, IsSome, Some, length, option_to_list, if◌then◌else◌};
ghost use Rattle.pv_tree.specs.Trees.{leaf, subtree, box_of};
ghost use Rattle.pv_tree.specs.Stages.{full_of};
ghost use Rattle.pv_board.specs.Marks.{issued};
ghost use Rattle.pv_board.specs.Rules.{IsStageBelow, settled_in};
ghost use Rattle.pv_board.specs.Children.{AreHandedOut};
ghost use Rattle.pv_board.specs.Events.{fresh, IsOver, leaves_at, taken_by};
ghost use Rattle.pv_board.specs.Tallies.{tally_of, handed_in, given_more, told_of, one_if, tickets_in, IsLow};
ghost use Rattle.pv_board.specs.declared.ticket.Handed.TheVariants.{Taken};
ghost use Rattle.pv_board.specs.declared.ticket.Look.TheVariants.{Done, Same};
ghost use Rattle.pv_board.specs.declared.ticket.TheConstants.{MOST_GRANT};
ghost use Rattle.pv_board.specs.declared.told.TheConstants.{MOST_TICKET_NODES};
ghost use Rattle.pv_tree.specs.declared.batch.TheConstants.{MOST_BATCH};

use crate::board::Board;
use crate::desk::Desk;
use crate::naming::Naming;
use crate::ticket::{Handed, Look, Settled, Ticket};
use crate::told::Told;
use pv_box::IBox;
use pv_tree::{Batch, Outcome, Path, Paving};
use std::sync::atomic::{AtomicU64, Ordering};
use std::sync::ledger::Blank;
use std::sync::{Condvar, Mutex, Wait};

/// A board that several callers settle. Each call but `idle` and those of hunger takes the lock,
/// makes the board's call of its name, and lets go.
///
/// A caller that has nothing to do becomes hungry, looks once more wherever there may be something
/// to do, and only then waits; and who begins something tells those who are hungry. Hunger is
/// raised and asked for at one place in memory, where all that is done has an order. So either
/// the one who tells comes later and sees the hunger, or the one who looks once more sees all that
/// was there when the other told.
#[derive(Drop)]
pub struct Shared<N: Naming> {
    desk: Mutex<Desk<N>>,
    changed: Condvar,
    // How many callers have nothing to do.
    hungry: AtomicU64,
}

impl<N: Naming> Shared<N> {
    /// Puts a board in a lock. The counts have all 32 parts.
    pub fn new(board: Board<N>, settlings: Blank, endings: Blank) -> (Shared<N>, Told<N>)
        requires idle { issued board.marks ≡ 0 }
        requires used { board.used ≡ 0 }
        requires none_added { settled_in board.tree ≡ settled_in N.opening }
        requires settlings { (settlings.name ≡ N.settlings) × (settlings.parts ≡ 32) }
        requires endings { (endings.name ≡ N.endings) × (endings.parts ≡ 32) }
        ensures { result.1 ≡ tally_of 32 }
    {
        let (desk, told) = Desk::open(board, settlings, endings);
        let shared = Shared {
            desk: Mutex::new(desk),
            changed: Condvar::new(),
            hungry: AtomicU64::new(0),
        };
        (shared, told)
    }

    /// Issues some open leaf.
    pub fn take<R: Wait>(&self, rt: &R, told: &mut Told<N>) -> Option<Ticket>
        requires { IsLow told.old }
        ensures told { told.new ≡ given_more told.old (one_if (is_some result)) }
        ensures grant { IfSome result (λ t. t.grant ≡ 0) }
    {
        self.desk.lock(rt).take(told)
    }

    /// Settles a ticket's leaf. Who waits is woken by `announce`, once what came of it can be found.
    pub fn settle<R: Wait>(
        &self,
        rt: &R,
        ticket: Ticket,
        outcome: Outcome,
        told: &mut Told<N>,
    ) -> Settled
        requires low { IsLow told.old }
        requires there { IsSome (subtree (full_of N.rule N.depth N.root N.opening 0) ticket.path) }
        requires due { outcome ≡ N.rule
            (box_of N.root (full_of N.rule N.depth N.root N.opening 0) ticket.path)
            (N.depth - length ticket.path) (length ticket.path) }
        ensures told { told.new ≡ handed_in told.old (one_if result.fresh) (tickets_in result) }
        ensures low { IfSome result.low (λ t. t ≡ fresh (ticket.path ++ false ∷ [])) }
        ensures high { IfSome result.high (λ t. t ≡ fresh (ticket.path ++ true ∷ [])) }
        ensures stale { result.fresh ≡ false →
            option_to_list result.low ++ option_to_list result.high ≡ [] }
    {
        self.desk.lock(rt).settle(ticket, outcome, told)
    }

    /// Puts a stage of a ticket's leaf in the leaf's place. The children are tickets of the first
    /// open leaves of the stage, in preorder. Who waits is woken by `announce`, once what came of
    /// the stage can be found.
    pub fn settle_stage<R: Wait>(
        &self,
        rt: &R,
        ticket: Ticket,
        stage: &Paving,
        leaves: &[Path],
        told: &mut Told<N>,
        children: &mut Batch<Ticket>,
    ) -> Handed
        requires low { IsLow told.old }
        requires there { IsSome (subtree (full_of N.rule N.depth N.root N.opening 0) ticket.path) }
        requires root { stage.now.root ≡
            box_of N.root (full_of N.rule N.depth N.root N.opening 0) ticket.path }
        requires stage { IsStageBelow N.rule N.depth stage.now.root
            (length ticket.path) stage.now.tree }
        requires some { 1 ≤ settled_in stage.now.tree }
        requires few { settled_in stage.now.tree ≤ MOST_TICKET_NODES }
        requires leaves { leaves.now ≡ leaves_at ticket.path stage.now.tree }
        requires batch { length leaves.now ≤ MOST_BATCH }
        requires empty { children.old ≡ [] }
        ensures told { told.new ≡ handed_in told.old
            (taken_by result (settled_in stage.now.tree)) (length children.new) }
        ensures children { AreHandedOut ticket.path stage.now.tree children.new result }
        ensures full { result ≡ Taken →
            subtree (full_of N.rule N.depth N.root N.opening 0) ticket.path ≡ Some
            (full_of N.rule N.depth stage.now.root leaf (length ticket.path)) }
    {
        self.desk
            .lock(rt)
            .settle_stage(ticket, stage, leaves, told, children)
    }

    /// Gives a ticket's leaf back, and wakes all who wait.
    pub fn give_back<R: Wait>(&self, rt: &R, ticket: Ticket, told: &mut Told<N>)
        requires { IsLow told.old }
        ensures { told.new ≡ handed_in told.old 0 0 }
    {
        self.desk.lock(rt).give_back(ticket, told);
        self.changed.notify_all();
    }

    /// Moves units from what is left to a ticket's grant.
    pub fn extend<R: Wait>(&self, rt: &R, ticket: &mut Ticket, want: u64) -> u64
        requires { ticket.old.grant + want ≤ MOST_GRANT }
        ensures units { result ≤ want }
        ensures path { ticket.new.path ≡ ticket.old.path }
        ensures grant { ticket.new.grant ≡ ticket.old.grant + result }
    {
        self.desk.lock(rt).extend(ticket, want)
    }

    /// Writes the box that a ticket's path has in the full tree over another box. False where the
    /// tree has no such path yet.
    pub fn box_of<R: Wait>(&self, rt: &R, ticket: &Ticket, into: &mut IBox) -> bool
        requires dims { length into.old ≡ N.dims }
        ensures is { IsTrue result → into.new ≡
            box_of N.root (full_of N.rule N.depth N.root N.opening 0) ticket.now.path }
        ensures in_full { IsTrue result →
            IsSome (subtree (full_of N.rule N.depth N.root N.opening 0) ticket.now.path) }
        ensures same { result ≡ false → into.new ≡ into.old }
        ensures places { length into.new ≡ length into.old }
    {
        self.desk.lock(rt).box_of(ticket, into)
    }

    /// Writes the box of a ticket's path as `box_of` does, and moves units to its grant as `extend`
    /// does, both at once. Answers what is left then, and None where the tree has no such path yet
    /// or the board was stopped.
    pub fn prepare<R: Wait>(
        &self,
        rt: &R,
        ticket: &mut Ticket,
        want: u64,
        into: &mut IBox,
    ) -> Option<u64>
        requires units { ticket.old.grant + want ≤ MOST_GRANT }
        requires dims { length into.old ≡ N.dims }
        ensures path { ticket.new.path ≡ ticket.old.path }
        ensures least { ticket.old.grant ≤ ticket.new.grant }
        ensures most { ticket.new.grant ≤ ticket.old.grant + want }
        ensures is { IfSome result (λ _. into.new ≡
            box_of N.root (full_of N.rule N.depth N.root N.opening 0) ticket.old.path) }
        ensures in_full { IfSome result (λ _.
            IsSome (subtree (full_of N.rule N.depth N.root N.opening 0) ticket.old.path)) }
        ensures same { IfNone result ((into.new ≡ into.old) × (ticket.new ≡ ticket.old)) }
        ensures places { length into.new ≡ length into.old }
    {
        self.desk.lock(rt).prepare(ticket, want, into)
    }

    /// Changes the number that idle callers look at, and wakes all who wait.
    pub fn announce<R: Wait>(&self, rt: &R) {
        self.desk.lock(rt).announce();
        self.changed.notify_all();
    }

    /// Stops the board, and wakes all who wait.
    pub fn stop<R: Wait>(&self, rt: &R) {
        self.desk.lock(rt).stop();
        self.changed.notify_all();
    }

    /// Counts the caller among those who have nothing to do.
    pub fn hunger(&self) {
        self.hungry.fetch_add(1, Ordering::SeqCst);
    }

    /// Ends the caller's hunger.
    pub fn feed(&self) {
        self.hungry.fetch_sub(1, Ordering::SeqCst);
    }

    /// Whether another caller has nothing to do, as it seems at the moment.
    pub fn is_hungry(&self) -> bool {
        self.hungry.load(Ordering::SeqCst) != 0
    }

    /// Announces where a caller has nothing to do. It takes no lock else.
    pub fn tell<R: Wait>(&self, rt: &R) {
        // Adding nothing counts as a change of the place, so this has an order among all hungers,
        // which a load has not.
        if self.hungry.fetch_add(0, Ordering::SeqCst) != 0 {
            self.announce(rt);
        }
    }

    /// Waits until there is a leaf to settle, all is done, or the board's number differs from
    /// `seen`. It may wait for another thread.
    pub fn idle<R: Wait>(&self, rt: &R, seen: u64, told: &mut Told<N>) -> Look
        requires { IsLow told.old }
        ensures told { told.new ≡ told_of told.old result }
        ensures rises { result ≡ Done → told.new.ended ≡ told.old.ended + 1 }
        ensures news { result ≢ Same }
    {
        let mut desk = self.desk.lock(rt);
        for _ in rt.forever() {
            match desk.look(seen, told) {
                Look::Work(ticket) => return Look::Work(ticket),
                Look::Done => return Look::Done,
                Look::Changed(steps) => return Look::Changed(steps),
                Look::Same => desk = self.changed.wait(rt, desk),
            }
        }
        unreachable!()
    }

    /// The board, once all parts are back: what was used is what was settled, and after an ending
    /// nothing can be taken.
    pub fn into_board(self, told: Told<N>) -> Board<N>
        requires { told.parts ≡ 32 }
        ensures used { result.used ≡ told.settled }
        ensures lots { told.lots ≤ result.used }
        ensures over { 0 < told.ended → IsOver result }
        ensures none_added { settled_in result.tree ≡ settled_in N.opening + result.used }
    {
        self.desk.into_inner().close(told)
    }
}
