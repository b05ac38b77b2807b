//! What a board is for, as contracts know it.

use std::marker::{Brand, PhantomData};
use std::sync::ledger::Ledger;

/// Names the one tree that a board, its tickets' holders and their counts are for. Contracts alone
/// read its members; the call that opens a board picks them.
pub trait Naming {
    ghost use Rattle.std.specs.Prelude.{ℕ, List};
    ghost use Rattle.pv_interval.specs.Bounds.{Bounds};
    ghost use Rattle.pv_tree.specs.Trees.{Tree};
    ghost use Rattle.pv_tree.specs.Stages.{Rule};

    /// How boxes are settled.
    ghost rule: { Rule };

    /// The places of the rule's boxes.
    ghost dims: { ℕ };

    /// The most cuts on a path.
    ghost depth: { ℕ };

    /// The root box of the opening.
    ghost root: { List Bounds };

    /// The paving that the board was opened on.
    ghost opening: { Tree };

    /// How many nodes may be settled beyond the opening's.
    ghost budget: { ℕ };

    /// The most nodes of the paving that may be settled.
    ghost limit: { ℕ };

    /// The name of the ledger of settlings.
    ghost settlings: { ℕ };

    /// The name of the ledger of endings.
    ghost endings: { ℕ };
}

impl Naming for Brand {
    ghost use Rattle.std.specs.Prelude.{[]};
    ghost use Rattle.pv_tree.specs.Trees.{leaf};
    ghost use Rattle.pv_tree.specs.declared.outcome.Outcome.TheVariants.{Removed};
    ghost use Rattle.pv_tree.specs.declared.limit.TheConstants.{LEAST_LIMIT};

    ghost rule = { λ b d k. Removed };

    ghost dims = { 1 };

    ghost depth = { 1 };

    ghost root = { [] };

    ghost opening = { leaf };

    ghost budget = { 1 };

    ghost limit = { LEAST_LIMIT };

    ghost settlings = { 0 };

    ghost endings = { 0 };
}

/// The ledger of the settlings of all workers.
pub struct Settlings<N> {
    of: PhantomData<N>,
}

/// The ledger of the endings of all workers.
pub struct Endings<N> {
    of: PhantomData<N>,
}

impl<N: Naming> Ledger for Settlings<N> {
    ghost name = { N.settlings };

    ghost parts = { 32 };
}

impl<N: Naming> Ledger for Endings<N> {
    ghost name = { N.endings };

    ghost parts = { 32 };
}
