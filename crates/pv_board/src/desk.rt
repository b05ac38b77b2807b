//! What lies under the lock: the board and the books.
ghost use Rattle.std.specs.Prelude.{◌≡◌, ◌+◌, ◌-◌, ◌<◌, ◌≤◌, ◌↔◌, [], ◌∷◌, ◌++◌, true, false, IsTrue, IfSome, IfNone, is_some, IsSome, Some, length, option_to_list, min, if◌then◌else◌};
ghost use Rattle.pv_tree.specs.Trees.{leaf, subtree, settled, box_of};
ghost use Rattle.pv_tree.specs.Stages.{full_of};
ghost use Rattle.pv_board.specs.Marks.{issued};
ghost use Rattle.pv_board.specs.Rules.{IsStageBelow, settled_in};
ghost use Rattle.pv_board.specs.Children.{AreHandedOut};
ghost use Rattle.pv_board.specs.Core.{Core};
ghost use Rattle.pv_board.specs.Events.{is_current, may_issue, next_step, fresh, IsDry, IsOver, IsTake, IsExtend, IsSettling, IsHandedIn, IsGiveBack, leaves_at, taken_by};
ghost use Rattle.pv_board.specs.declared.ticket.Handed.TheVariants.{Taken};
ghost use Rattle.pv_board.specs.declared.ticket.Look.TheVariants.{Done};
ghost use Rattle.pv_board.specs.Tallies.{Tally, tally_of, handed_in, given_more, told_of, one_if, tickets_in, IsLow, IsDeskLook};
ghost use Rattle.pv_board.specs.declared.ticket.TheConstants.{MOST_GRANT};
ghost use Rattle.pv_board.specs.declared.told.TheConstants.{MOST_TICKET_NODES};
ghost use Rattle.pv_tree.specs.declared.batch.TheConstants.{MOST_BATCH};

use crate::board::Board;
use crate::naming::{Endings, Naming, Settlings};
use crate::ticket::{Handed, Look, Settled, Ticket};
use crate::told::Told;
use pv_box::IBox;
use pv_tree::{Batch, Outcome, Path, Paving};
use std::marker::Model;
use std::sync::ledger::{Blank, Book};

/// A board with the books of settlings and endings. Once an ending is booked nothing is issued, and
/// nothing can be taken.
#[derive(Drop)]
pub struct Desk<N: Naming> {
    board: Board<N>,
    settlings: Book<Settlings<N>>,
    endings: Book<Endings<N>>,
    ended: u64,
}

impl<N: Naming> Model for Desk<N> {
    ghost use Rattle.pv_board.specs.Core.{Core, coded_core};
    ghost use Rattle.pv_board.specs.Tallies.{IsDesk};

    ghost Value = { Core };

    ghost coded = { coded_core };

    ghost view = { λ a. a.board };

    ghost invariant = { λ a. IsDesk N.opening a.board a.settlings.total a.endings.total a.ended };
}

/// One where it is so.
fn count(so: bool) -> u64
    ensures { result ≡ one_if so }
{
    if so { 1 } else { 0 }
}

/// How many tickets a settling gave.
fn tickets(settled: &Settled) -> u64
    ensures count { result ≡ tickets_in settled.now }
    ensures few { result ≤ 2 }
{
    count(settled.low.is_some()) + count(settled.high.is_some())
}

/// How many nodes a stage settled that was handed in.
fn settled_by(handed: Handed, nodes: u64) -> u64
    ensures { result ≡ taken_by handed nodes }
{
    match handed {
        Handed::Taken => nodes,
        Handed::Stale | Handed::Short => 0,
    }
}

impl<N: Naming> Desk<N> {
    /// A desk on which nothing is booked, and all parts.
    pub(crate) fn open(board: Board<N>, settlings: Blank, endings: Blank) -> (Desk<N>, Told<N>)
        requires used { board.used ≡ 0 }
        requires none_added { settled_in board.tree ≡ settled_in N.opening }
        requires settlings { (settlings.name ≡ N.settlings) × (settlings.parts ≡ 32) }
        requires endings { (endings.name ≡ N.endings) × (endings.parts ≡ 32) }
        ensures { result.1 ≡ tally_of 32 }
    {
        let (book, share) = settlings.open::<Settlings<N>>();
        let (other, mark) = endings.open::<Endings<N>>();
        let desk = Desk {
            board,
            settlings: book,
            endings: other,
            ended: 0,
        };
        (desk, Told::whole(share, mark))
    }

    pub(crate) fn take(&mut self, told: &mut Told<N>) -> Option<Ticket>
        requires { IsLow told.old }
        ensures told { told.new ≡ given_more told.old (one_if (is_some result)) }
        ensures taken { IfSome result (λ t. IsTake self.old self.new t) }
        ensures none { IfNone result (IsDry self.old) }
        ensures same { IfNone result (self.new ≡ self.old) }
    {
        let ticket = self.board.take();
        told.give(count(ticket.is_some()));
        ticket
    }

    pub(crate) fn settle(&mut self, ticket: Ticket, outcome: Outcome, told: &mut Told<N>) -> Settled
        requires low { IsLow told.old }
        requires there { IsSome (subtree (full_of N.rule N.depth N.root N.opening 0) ticket.path) }
        requires due { outcome ≡ N.rule
            (box_of N.root (full_of N.rule N.depth N.root N.opening 0) ticket.path)
            (N.depth - length ticket.path) (length ticket.path) }
        ensures told { told.new ≡ handed_in told.old (one_if result.fresh) (tickets_in result) }
        ensures fresh { result.fresh ≡ is_current self.old ticket }
        ensures settled { IsTrue result.fresh →
            IsSettling self.old self.new ticket (settled outcome)
            (option_to_list result.low ++ option_to_list result.high) }
        ensures low { IfSome result.low (λ t. t ≡ fresh (ticket.path ++ false ∷ [])) }
        ensures high { IfSome result.high (λ t. t ≡ fresh (ticket.path ++ true ∷ [])) }
        ensures stale { result.fresh ≡ false → (self.new ≡ self.old) ×
            (option_to_list result.low ++ option_to_list result.high ≡ []) }
    {
        let settled = self.board.settle(ticket, outcome);
        told.hand_in(&mut self.settlings, count(settled.fresh), tickets(&settled));
        settled
    }

    pub(crate) fn settle_stage(
        &mut self,
        ticket: Ticket,
        stage: &Paving,
        leaves: &[Path],
        told: &mut Told<N>,
        children: &mut Batch<Ticket>,
    ) -> Handed
        requires low { IsLow told.old }
        requires there { IsSome (subtree (full_of N.rule N.depth N.root N.opening 0) ticket.path) }
        requires root { stage.now.root ≡
            box_of N.root (full_of N.rule N.depth N.root N.opening 0) ticket.path }
        requires stage { IsStageBelow N.rule N.depth stage.now.root
            (length ticket.path) stage.now.tree }
        requires some { 1 ≤ settled_in stage.now.tree }
        requires few { settled_in stage.now.tree ≤ MOST_TICKET_NODES }
        requires leaves { leaves.now ≡ leaves_at ticket.path stage.now.tree }
        requires batch { length leaves.now ≤ MOST_BATCH }
        requires empty { children.old ≡ [] }
        ensures told { told.new ≡ handed_in told.old
            (taken_by result (settled_in stage.now.tree)) (length children.new) }
        ensures handed { IsHandedIn self.old self.new ticket stage.now.tree children.new result }
        ensures children { AreHandedOut ticket.path stage.now.tree children.new result }
        ensures full { result ≡ Taken →
            subtree (full_of N.rule N.depth N.root N.opening 0) ticket.path ≡ Some
            (full_of N.rule N.depth stage.now.root leaf (length ticket.path)) }
    {
        let _used = self.board.used();
        let settled = stage.counts().settled();
        let handed = self.board.settle_stage(ticket, stage, leaves, children);
        let nodes = settled_by(handed, settled);
        told.hand_in(&mut self.settlings, nodes, u64::from(children.len()));
        handed
    }

    pub(crate) fn give_back(&mut self, ticket: Ticket, told: &mut Told<N>)
        requires { IsLow told.old }
        ensures told { told.new ≡ handed_in told.old 0 0 }
        ensures given { IsTrue (is_current self.old ticket) → IsGiveBack self.old self.new ticket }
        ensures stale { is_current self.old ticket ≡ false → self.new ≡ self.old }
    {
        self.board.give_back(ticket);
        told.hand_in(&mut self.settlings, 0, 0);
    }

    pub(crate) fn extend(&mut self, ticket: &mut Ticket, want: u64) -> u64
        requires { ticket.old.grant + want ≤ MOST_GRANT }
        ensures few { result ≤ want }
        ensures path { ticket.new.path ≡ ticket.old.path }
        ensures grant { ticket.new.grant ≡ ticket.old.grant + result }
        ensures units { result ≡ (if is_current self.old ticket.old then min want
            (may_issue self.old) else 0) }
        ensures extended { IsTrue (is_current self.old ticket.old) →
            IsExtend self.old self.new ticket.old ticket.new result }
        ensures stale { is_current self.old ticket.old ≡ false → (self.new ≡ self.old) ×
            (ticket.new ≡ ticket.old) }
    {
        self.board.extend(ticket, want)
    }

    pub(crate) fn box_of(&self, ticket: &Ticket, into: &mut IBox) -> bool
        requires dims { length into.old ≡ N.dims }
        ensures there { IsTrue result ↔ IsSome (subtree self.now.tree ticket.now.path) }
        ensures is { IsTrue result → into.new ≡
            box_of N.root (full_of N.rule N.depth N.root N.opening 0) ticket.now.path }
        ensures in_full { IsTrue result →
            IsSome (subtree (full_of N.rule N.depth N.root N.opening 0) ticket.now.path) }
        ensures same { result ≡ false → into.new ≡ into.old }
        ensures places { length into.new ≡ length into.old }
    {
        let _used = self.board.used();
        self.board.box_of(ticket, into)
    }

    pub(crate) fn prepare(&mut self, ticket: &mut Ticket, want: u64, into: &mut IBox) -> Option<u64>
        requires units { ticket.old.grant + want ≤ MOST_GRANT }
        requires dims { length into.old ≡ N.dims }
        ensures path { ticket.new.path ≡ ticket.old.path }
        ensures least { ticket.old.grant ≤ ticket.new.grant }
        ensures most { ticket.new.grant ≤ ticket.old.grant + want }
        ensures left { IfSome result (λ n. n ≡ self.new.left) }
        ensures is { IfSome result (λ _. into.new ≡
            box_of N.root (full_of N.rule N.depth N.root N.opening 0) ticket.old.path) }
        ensures in_full { IfSome result (λ _.
            IsSome (subtree (full_of N.rule N.depth N.root N.opening 0) ticket.old.path)) }
        ensures same { IfNone result ((into.new ≡ into.old) × (ticket.new ≡ ticket.old)) }
        ensures nothing { IfNone result (self.new ≡ self.old) }
        ensures runs { IfSome result (λ _. self.old.stopped ≡ false) }
        ensures extended { IfSome result (λ _. IsTrue (is_current self.old ticket.old) →
            IsExtend self.old self.new ticket.old ticket.new
            (min want (may_issue self.old))) }
        ensures stale { IfSome result (λ _. is_current self.old ticket.old ≡ false →
            (self.new ≡ self.old) × (ticket.new ≡ ticket.old)) }
        ensures places { length into.new ≡ length into.old }
    {
        if self.board.is_stopped() {
            return None;
        }
        if !self.box_of(ticket, into) {
            return None;
        }
        self.extend(ticket, want);
        Some(self.board.left())
    }

    pub(crate) fn stop(&mut self)
        ensures { self.new ≡ record self.old { stopped = true } }
    {
        self.board.stop();
    }

    pub(crate) fn announce(&mut self)
        ensures { self.new ≡ record self.old { steps = next_step self.old.steps } }
    {
        self.board.announce();
    }

    pub(crate) fn look(&mut self, seen: u64, told: &mut Told<N>) -> Look
        requires { IsLow told.old }
        ensures look { IsDeskLook self.old self.new seen result }
        ensures told { told.new ≡ told_of told.old result }
        ensures rises { result ≡ Done → told.new.ended ≡ told.old.ended + 1 }
    {
        match self.board.look(seen) {
            Look::Work(ticket) => {
                told.give(1);
                Look::Work(ticket)
            }
            Look::Done => {
                if self.ended == u64::MAX {
                    return Look::Same;
                }
                self.ended += 1;
                told.end(&mut self.endings);
                Look::Done
            }
            Look::Changed(steps) => {
                told.note();
                Look::Changed(steps)
            }
            Look::Same => Look::Same,
        }
    }

    /// The board, which the counts of all callers together tell of.
    pub(crate) fn close(self, told: Told<N>) -> Board<N>
        requires { told.parts ≡ 32 }
        ensures used { result.used ≡ told.settled }
        ensures lots { told.lots ≤ result.used }
        ensures over { 0 < told.ended → IsOver result }
        ensures none_added { settled_in result.tree ≡ settled_in N.opening + result.used }
    {
        let Desk {
            board,
            settlings,
            endings,
            ended: _,
        } = self;
        let _used = board.used();
        let mut told = told;
        let mut settlings = settlings;
        let mut endings = endings;
        told.audit(&mut settlings, &mut endings);
        board
    }
}
