//! Which calls fail.
ghost use Rattle.std.specs.Prelude.{◌≡◌, ◌↔◌, ℕ, ◌+◌, ◌-◌, ◌^◌, min, IsTrue, Contains};
ghost use Rattle.pv_io.specs.Scripted.{one_more};

use std::marker::Model;

/// The numbers of the calls that fail, and the number of the next call.
#[derive(Drop)]
pub struct Script {
    failing: Vec<u64>,
    next: u64,
}

impl Model for Script {
    ghost use Rattle.pv_io.specs.Scripted.{Turns};

    ghost Value = { Turns };

    ghost view = { λ s. record { failing = s.failing.items; next = s.next } };
}

impl Script {
    /// Calls are numbered from 0.
    pub fn new(failing: Vec<u64>) -> Self
        ensures { result ≡ record { failing = failing.items; next = 0 } }
    {
        Script { failing, next: 0 }
    }

    /// Whether the next call fails.
    pub fn fails(&self) -> bool
        ensures { IsTrue result ↔ Contains self.now.failing self.now.next }
    {
        self.failing.contains(&self.next)
    }

    /// Goes on to the call after the next one.
    pub fn advance(&mut self)
        ensures { self.new ≡ record self.old { next = one_more self.old.next } }
    {
        self.next = self.next.saturating_add(1);
    }
}
