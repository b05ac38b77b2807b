//! What a caller of a shared board has counted.
ghost use Rattle.std.specs.Prelude.{◌≡◌, ◌+◌, ◌-◌, ◌*◌, ◌<◌, ◌≤◌, min};
ghost use Rattle.pv_board.specs.Tallies.{Tally, tally_of, most, lots_of, joined, handed_in, given_more, ended_more, looked_more, IsLow};
ghost use Rattle.pv_tree.specs.declared.batch.TheConstants.{MOST_BATCH};
ghost use Rattle.pv_tree.specs.Limits.{told_room};

use crate::naming::{Endings, Naming, Settlings};
use crate::ticket::MOST_GRANT;
use std::marker::Model;
use std::sync::ledger::{Book, Share};

/// The most nodes of a lot: a ticket's own one, and as many as its grant may be.
pub const LOT_NODES: u64 = 16;

/// The most lots that one ticket settles.
pub const MOST_LOTS: u64 = 256;

/// The most nodes that one ticket settles.
pub const MOST_TICKET_NODES: u64 = 4096;

/// A caller's counts. Each part of all callers' counts together is one of 32 parts.
#[derive(Drop)]
pub struct Told<N: Naming> {
    settlings: Share<Settlings<N>>,
    endings: Share<Endings<N>>,
    settled: u64,
    ended: u64,
    looks: u128,
    given: u128,
    spent: u128,
    lots: u128,
}

impl<N: Naming> Model for Told<N> {
    ghost use Rattle.pv_board.specs.Tallies.{Tally, coded_tally, IsTold};

    ghost Value = { Tally };

    ghost coded = { coded_tally };

    ghost view = { λ a. record { settled = a.settled; ended = a.ended; looks = a.looks; given = a.given; spent = a.spent; lots = a.lots; parts = a.settlings.parts } };

    ghost invariant = { λ a. IsTold a.settlings.amount a.endings.amount a.settled a.ended a.spent a.lots a.settlings.parts a.endings.parts };
}

/// How many lots of up to 16 are so many nodes.
fn lots_of(nodes: u64) -> u64
    requires { nodes ≤ MOST_TICKET_NODES }
    ensures { result ≡ lots_of nodes }
{
    (nodes + MOST_GRANT) / LOT_NODES
}

impl<N: Naming> Told<N> {
    /// The counts of the caller that begins, with all parts.
    pub(crate) fn whole(settlings: Share<Settlings<N>>, endings: Share<Endings<N>>) -> Told<N>
        requires parts { settlings.parts ≡ 32 }
        requires others { endings.parts ≡ 32 }
        requires nothing { settlings.amount ≡ 0 }
        requires none { endings.amount ≡ 0 }
        ensures { result ≡ tally_of 32 }
    {
        Told {
            settlings,
            endings,
            settled: 0,
            ended: 0,
            looks: 0,
            given: 0,
            spent: 0,
            lots: 0,
        }
    }

    /// How many nodes it settled; the count stands still at its end.
    pub fn settled(&self) -> u64
        ensures settled { result ≡ self.now.settled }
        ensures few { result ≤ LOT_NODES * self.now.lots }
    {
        self.settled
    }

    /// How many times it was told that all is done.
    pub fn ended(&self) -> u64
        ensures { result ≡ self.now.ended }
    {
        self.ended
    }

    /// How many times it was told of a change.
    pub fn looks(&self) -> u128
        ensures { result ≡ self.now.looks }
    {
        self.looks
    }

    /// How many tickets it was given.
    pub fn given(&self) -> u128
        ensures { result ≡ self.now.given }
    {
        self.given
    }

    /// How many tickets it handed in.
    pub fn spent(&self) -> u128
        ensures { result ≡ self.now.spent }
    {
        self.spent
    }

    /// How many lots of up to 16 nodes it settled, each ticket's nodes by themselves.
    pub fn lots(&self) -> u128
        ensures is { result ≡ self.now.lots }
        ensures few { result ≤ MOST_LOTS * self.now.spent }
    {
        self.lots
    }

    /// A caller with no counts, which gets one of the parts.
    pub fn split(&mut self) -> Told<N>
        requires { 2 ≤ self.old.parts }
        ensures given { result ≡ tally_of 1 }
        ensures kept { self.new ≡ record self.old { parts = self.old.parts - 1 } }
    {
        let settlings = self.settlings.split_off(1, 0);
        let endings = self.endings.split_off(1, 0);
        Told {
            settlings,
            endings,
            settled: 0,
            ended: 0,
            looks: 0,
            given: 0,
            spent: 0,
            lots: 0,
        }
    }

    /// Adds another caller's counts and parts.
    pub fn join(&mut self, other: Told<N>)
        requires looks { self.old.looks + other.looks < told_room }
        requires given { self.old.given + other.given < told_room }
        requires spent { self.old.spent + other.spent < told_room }
        ensures { self.new ≡ joined self.old other }
    {
        let Told {
            settlings,
            endings,
            settled,
            ended,
            looks,
            given,
            spent,
            lots,
        } = other;
        self.settlings.merge(settlings);
        self.endings.merge(endings);
        self.settled = self.settled.saturating_add(settled);
        self.ended = self.ended.saturating_add(ended);
        self.looks += looks;
        self.given += given;
        self.spent += spent;
        self.lots += lots;
    }

    /// Books a ticket that was handed in.
    pub(crate) fn hand_in(&mut self, book: &mut Book<Settlings<N>>, nodes: u64, tickets: u64)
        requires low { IsLow self.old }
        requires few { nodes ≤ MOST_TICKET_NODES }
        requires most { tickets ≤ MOST_BATCH }
        ensures told { self.new ≡ handed_in self.old nodes tickets }
        ensures book { book.new.total ≡ book.old.total + nodes }
    {
        book.add(&mut self.settlings, nodes);
        self.settled = self.settled.saturating_add(nodes);
        self.spent += 1;
        self.lots += u128::from(lots_of(nodes));
        self.given += u128::from(tickets);
    }

    /// Books an ending. The count stands still only where as many endings are booked.
    pub(crate) fn end(&mut self, book: &mut Book<Endings<N>>)
        ensures told { self.new ≡ ended_more self.old }
        ensures book { book.new.total ≡ book.old.total + 1 }
        ensures below { self.old.ended ≤ book.old.total }
    {
        book.audit(&mut self.endings);
        book.add(&mut self.endings, 1);
        self.ended = self.ended.saturating_add(1);
    }

    /// Counts tickets that were given.
    pub(crate) fn give(&mut self, tickets: u64)
        requires low { IsLow self.old }
        requires most { tickets ≤ MOST_BATCH }
        ensures { self.new ≡ given_more self.old tickets }
    {
        self.given += u128::from(tickets);
    }

    /// Counts a change.
    pub(crate) fn note(&mut self)
        requires { IsLow self.old }
        ensures { self.new ≡ looked_more self.old }
    {
        self.looks += 1;
    }

    /// With all parts, the counts are those of the books.
    pub(crate) fn audit(
        &mut self,
        settlings: &mut Book<Settlings<N>>,
        endings: &mut Book<Endings<N>>,
    )
        requires { self.old.parts ≡ 32 }
        ensures settled { self.old.settled ≡ min settlings.old.total most }
        ensures ended { self.old.ended ≡ min endings.old.total most }
        ensures lots { self.old.lots ≤ settlings.old.total }
    {
        settlings.audit(&mut self.settlings);
        endings.audit(&mut self.endings);
    }
}
