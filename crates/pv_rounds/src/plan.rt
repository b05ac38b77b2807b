//! What is asked of a campaign's rounds.
ghost use Rattle.std.specs.Prelude.{◌≡◌, ◌*◌, ◌≤◌, ◌^◌};

use pv_scope::Order;
use pv_workers::Budget;

/// How many rounds there are at most, and what each may do.
#[derive(Clone, Copy)]
pub struct Plan {
    pub count: u32,
    /// What each round may take.
    pub budget: Budget,
    /// In which order a round settles what is kept.
    pub order: Order,
}

impl Plan {
    /// How many nodes all rounds settle at most.
    pub(crate) fn nodes(&self) -> u64
        ensures value { result ≡ self.now.count * self.now.budget.nodes }
        ensures small { result ≤ 2 ^ 62 }
    {
        let _most = self.budget.limit.nodes();
        u64::from(self.count) * self.budget.nodes
    }
}
