//! Which open leaves a call settles.
ghost use Rattle.std.specs.Prelude.{◌≡◌};
ghost use Rattle.pv_scope.specs.Scopes.{is_in_scope, most_steps, IsScope};

use pv_tree::{MOST_LEVELS, Path};

/// A set of open leaves of an opening. What comes of them is in the scope too.
#[derive(Clone, Copy)]
pub(crate) enum Scope {
    /// The open leaves are numbered from 0 in preorder, and each one whose number is `number`
    /// modulo `of` is in the scope.
    Shared { number: u64, of: u64 },
    /// The open leaves whose paths have fewer than `steps` steps.
    Above { steps: u32 },
}

impl Scope {
    /// Whether the open leaf with this number and path is in the scope.
    pub(crate) fn has(self, number: u64, path: Path) -> bool
        requires { IsScope self }
        ensures { result ≡ is_in_scope self number path }
    {
        match self {
            Scope::Shared { number: own, of } => number % of == own,
            Scope::Above { steps } => path.len() < steps,
        }
    }

    /// A leaf below the scope is settled if its path has fewer steps.
    pub(crate) fn most_steps(self) -> u32
        ensures { result ≡ most_steps self }
    {
        match self {
            Scope::Shared { .. } => MOST_LEVELS,
            Scope::Above { steps } => steps,
        }
    }
}
