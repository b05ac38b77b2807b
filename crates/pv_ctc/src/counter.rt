//! What counts the revisions of a contraction.

ghost use Rattle.std.specs.Prelude.{◌≡◌, ℕ, Option, Some, None, IsFalse};
ghost use Rattle.pv_ctc.specs.Counters.{raised};

use pv_hc4::Steps;
use std::sync::ledger::Ledger;

/// What counts the revisions of a contraction.
pub trait Counter {
    /// How many were counted, where it tells.
    ghost told: { Self → Option ℕ };

    /// Whether every revision that a contraction needs is made and counted. Else what is known of
    /// the constraints may stand for it.
    fn counts(&self) -> bool
        ensures { IsFalse result → told self.now ≡ None };

    /// One revision more; it counts also where there is no memory for it.
    fn tick(&mut self)
        ensures { told self.new ≡ raised (told self.old) 1 };
}

impl<L: Ledger> Counter for Steps<L> {
    ghost told = { λ s. Some s };

    fn counts(&self) -> bool {
        true
    }

    fn tick(&mut self) {
        Steps::tick(self)
    }
}

// Counts nothing.
#[derive(Drop)]
pub(crate) struct Uncounted;

impl Counter for Uncounted {
    ghost told = { λ _. None };

    fn counts(&self) -> bool {
        false
    }

    fn tick(&mut self) {}
}
