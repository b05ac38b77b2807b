//! What the grammar's machine and the counts with limits promise.
ghost use Rattle.std.specs.Prelude.{◌≡◌, [], IfOk};
ghost use Rattle.pv_grammar.specs.Counting.{counted};
ghost use Rattle.pv_grammar.specs.Grammar.{Moves, Settles, pile, produced, system_items};
ghost use Rattle.pv_grammar.specs.Messages.{cause_name};

use pv_grammar::{Cause, Counts, Item, Machine, Symbol};
use pv_num::Memory;
use std::alloc::Global;

/// A machine at the start of a system's text.
pub fn at_start(alloc: Global) -> Result<Machine, Memory>
    ensures stack { IfOk result (λ m. pile m.stack.items ≡ system_items) }
    ensures code { IfOk result (λ m. m.code.items ≡ []) }
{
    Machine::for_system(alloc)
}

/// Takes off the items that end before a token, and the one that it meets.
pub fn settle(machine: &mut Machine, symbol: Symbol) -> Result<Option<Item>, Memory>
    ensures { IfOk result (λ met. Settles symbol
        (pile machine.old.stack.items) machine.old.code.items met
        (pile machine.new.stack.items) machine.new.code.items) }
{
    machine.settle(symbol)
}

/// Takes a token where an item stood; false where the grammar does not allow it there.
pub fn take(machine: &mut Machine, item: Item, symbol: Symbol) -> Result<bool, Memory>
    ensures { IfOk result (Moves (produced item symbol) machine.old machine.new) }
{
    machine.take(item, symbol)
}

/// The counts after a token, or which limit or declaration forbids it.
pub fn count(counts: Counts, symbol: Symbol) -> Result<Counts, Cause>
    ensures { result ≡ counted counts symbol }
{
    counts.counted(symbol)
}

/// The name of a cause.
pub fn name(cause: Cause) -> &'static str
    ensures { result.now ≡ cause_name cause }
{
    cause.name()
}
