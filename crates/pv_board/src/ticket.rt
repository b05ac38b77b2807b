//! Tickets.
ghost use Rattle.std.specs.Prelude.{◌≡◌, ◌+◌, ◌<◌, ◌≤◌};
ghost use Rattle.pv_board.specs.Events.{fresh};

use crate::mark::Mark;
use pv_tree::Path;
use std::marker::Model;

/// The most units that a ticket has beyond its own.
pub const MOST_GRANT: u64 = 15;

/// The right to settle an open leaf. It is current as long as the board has its path issued with
/// its grant. A ticket that is dropped leaves its path issued.
#[derive(Drop)]
pub struct Ticket {
    mark: Mark,
    // Where the board keeps the mark, unless the path was given back meanwhile.
    slot: usize,
}

impl Model for Ticket {
    ghost use Rattle.std.specs.Prelude.{◌≤◌};
    ghost use Rattle.pv_board.specs.declared.mark.Mark.{Mark};
    ghost use Rattle.pv_board.specs.Core.{coded_mark};
    ghost use Rattle.pv_board.specs.declared.ticket.TheConstants.{MOST_GRANT};

    ghost Value = { Mark };

    ghost coded = { coded_mark };

    ghost view = { λ a. a.mark };

    ghost invariant = { λ a. a.mark.grant ≤ MOST_GRANT };
}

impl Ticket {
    /// A ticket with no grant.
    pub(crate) fn fresh(path: Path, slot: usize) -> Ticket
        ensures { result ≡ fresh path }
    {
        Ticket {
            mark: Mark { path, grant: 0 },
            slot,
        }
    }

    /// The leaf.
    pub fn path(&self) -> Path
        ensures { result ≡ self.now.path }
    {
        self.mark.path
    }

    /// Its units beyond its own.
    pub fn grant(&self) -> u64
        ensures grant { result ≡ self.now.grant }
        ensures few { result ≤ MOST_GRANT }
    {
        self.mark.grant
    }

    /// Where its mark may be.
    pub(crate) fn slot(&self) -> usize {
        self.slot
    }

    /// Raises the grant.
    pub(crate) fn raise(&mut self, units: u64, slot: usize)
        requires { self.old.grant + units ≤ MOST_GRANT }
        ensures path { self.new.path ≡ self.old.path }
        ensures grant { self.new.grant ≡ self.old.grant + units }
    {
        self.mark.grant += units;
        self.slot = slot;
    }
}

/// What a settling gave: whether the ticket was current, and the tickets of a cut's children.
#[derive(Drop)]
pub struct Settled {
    pub fresh: bool,
    pub low: Option<Ticket>,
    pub high: Option<Ticket>,
}

impl Settled {
    /// The ticket was not current.
    pub(crate) const STALE: Settled = Settled {
        fresh: false,
        low: None,
        high: None,
    };
}

/// What an idle worker finds.
#[derive(Drop)]
pub enum Look {
    /// A leaf to settle.
    Work(Ticket),
    /// Nothing is issued, and nothing can be taken.
    Done,
    /// The board's number is no longer the one seen; this is it.
    Changed(u64),
    /// Nothing new.
    Same,
}

/// What became of a stage that was handed in.
#[derive(Clone, Copy, Debug, PartialEq, Eq)]
pub enum Handed {
    /// It stands in the place of its ticket's leaf.
    Taken,
    /// The ticket was not current.
    Stale,
    /// It has more nodes than the ticket and the board have units for, so the leaf was given back.
    Short,
}
